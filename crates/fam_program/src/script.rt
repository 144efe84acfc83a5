//! Scripts: events are run in their order, and the notes of each are put when it is done.

ghost use Rattle.std.specs.Prelude.{◌≡◌, ◌≤◌};
ghost use Rattle.fam_media.specs.Causes.{IsShelfSteady, IsSteady};
ghost use Rattle.fam_media.specs.Outside.{IfModelled};
ghost use Rattle.fam_media.specs.States.{change};
ghost use Rattle.fam_journal.specs.Laws.{IsImage};
ghost use Rattle.fam_outcomes.specs.Statuses.{good_status, is_good};
ghost use Rattle.fam_program.specs.Far.{AreSoundEvents};
ghost use Rattle.fam_program.specs.Scripts.{ScriptRan};
ghost use Rattle.fam_program.specs.Runs.{outside_of};

use crate::fault::PutFault;
use crate::puts::{put_memory, put_notes, put_stop};
use fam_events::happen;
use fam_journal::Event;
use fam_media::{Media, Shelf, Sink};
use fam_outcomes::Status;
use fam_script::is_good;
use fam_world::World;
use std::alloc::Global;

/// The status of events that were run to their end.
fn end_status(world: &World) -> Status
    ensures { result ≡ good_status (is_good world.now.journal) }
{
    if is_good(world.journal()) {
        Status::Done
    } else {
        Status::Refused
    }
}

/// An image has at most 1 TiB, and lines of eight words. A call does nothing.
pub fn is_image<M: Media>(media: &M)
    ensures { IfModelled (M.state media.now).image IsImage }
{
    let _ = media.lines();
}

/// Runs events in their order on a media, with sources from a shelf, and puts the notes of each event when it is done,
/// each note by one put.
///
/// The run ends early where the media fails in a mkfs, a source can't be read to its end, no memory is left, or the
/// sink fails; the text says so behind the notes, also those of an event that was cut, but for a sink that failed.
pub fn run_script<M: Media, S: Shelf, K: Sink>(
    alloc: Global,
    events: Vec<Event>,
    media: &mut M,
    shelf: &mut S,
    out: &mut K,
) -> Status
    requires sound { AreSoundEvents events.items }
    ensures ran { ScriptRan events.items (outside_of M.size M.state media.old media.new
        (change S.state shelf.old shelf.new) (change K.state out.old out.new)) result }
    ensures steady { IsSteady M.size M.state media.old media.new }
    ensures shelf { IsShelfSteady (S.state shelf.old) (S.state shelf.new) }
    ensures later { (K.state out.old).faults ≤ (K.state out.new).faults }
{
    is_image(media);
    let mut world = World::new(alloc);
    let mut copied = 0;
    let mut names = Vec::new(alloc);
    'events: for event in events {
        let from = world.journal().len();
        match happen(alloc, &mut world, media, shelf, &mut copied, event) {
            Ok(()) => {}
            Err(fault) => return put_stop(alloc, &world, from, &mut names, fault, out),
        }
        match put_notes(alloc, &world, from, &mut names, out) {
            Ok(()) => {}
            Err(PutFault::Sink) => return Status::SinkFault,
            Err(PutFault::OutOfMemory) => return put_memory(out),
        }
    }
    end_status(&world)
}
