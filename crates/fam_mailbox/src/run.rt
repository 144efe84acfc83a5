//! Events on a box: they are run in their order, and the notes of each are put when it is done.

ghost use Rattle.std.specs.Prelude.{◌≡◌, ◌≤◌};
ghost use Rattle.fam_base.specs.Image.{line_at};
ghost use Rattle.fam_mail.specs.Boxes.{IsBox, capacity_of};
ghost use Rattle.fam_mail_script.specs.Statuses as spec;
ghost use Rattle.fam_media.specs.Causes.{IsSteady};
ghost use Rattle.fam_media.specs.Outside.{IfModelled};
ghost use Rattle.fam_media.specs.States.{change};
ghost use Rattle.fam_outcomes.specs.Statuses.{good_status};
ghost use Rattle.fam_rules.specs.Written.{file_line};
ghost use Rattle.fam_mailbox.specs.Lookups.{IsFilePlaced};
ghost use Rattle.fam_mailbox.specs.Runs.{MailRan};

use crate::puts::{put_cut, put_notes};
use fam_base::{Entry, OutOfMemory};
use fam_mail::{MailEvent, MailWorld};
use fam_mail_script::is_good;
use fam_media::{Media, Sink};
use fam_outcomes::Status;
use fam_program::{PutFault, put_memory};
use std::alloc::Global;

/// The status of events that were run to their end.
fn end_status(world: &MailWorld) -> Status
    ensures { result ≡ good_status (spec.is_good_mail world.now.journal) }
{
    if is_good(world.journal()) {
        Status::Done
    } else {
        Status::Refused
    }
}

/// Runs events in their order on the box in the file of an entry, and puts the notes of each event when it is done, each note
/// by one put.
///
/// The run ends early where no memory is left, which is put behind the notes that came, or where the sink fails.
pub fn run_mail<M: Media, K: Sink>(
    alloc: Global,
    entry: &Entry,
    events: &[MailEvent],
    media: &mut M,
    out: &mut K,
) -> Status
    requires placed { IsFilePlaced (M.size media.old) entry.now }
    requires room { 128 ≤ entry.now.size }
    requires reads { IfModelled (M.state media.old).image (λ image.
        IsBox (file_line entry.now) (capacity_of entry.now.size) (line_at image)) }

    ensures ran { MailRan M.exact entry.now events.now (change M.state media.old media.new) (change K.state out.old out.new) result }
    ensures steady { IsSteady M.size M.state media.old media.new }
    ensures later { (K.state out.old).faults ≤ (K.state out.new).faults }
{
    let mut world = MailWorld::new(alloc, entry);
    'events: for event in events {
        let from = world.journal().len();
        match world.happen(media, event) {
            Ok(()) => {}
            Err(OutOfMemory) => return put_cut(alloc, &world, from, out),
        }
        match put_notes(alloc, &world, from, out) {
            Ok(()) => {}
            Err(PutFault::Sink) => return Status::SinkFault,
            Err(PutFault::OutOfMemory) => return put_memory(out),
        }
    }
    end_status(&world)
}
