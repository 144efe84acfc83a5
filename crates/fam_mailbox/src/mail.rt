//! The script of a file, run over the mailbox in a file of an image.

ghost use Rattle.std.specs.Prelude.{◌≤◌, IfErr, IfOk};
ghost use Rattle.fam_media.specs.Causes.{IsShelfSteady, IsSteady};
ghost use Rattle.fam_media.specs.States.{change};
ghost use Rattle.fam_program.specs.Runs.{outside_of};
ghost use Rattle.fam_mailbox.specs.Mails.{MailTop};
ghost use Rattle.fam_mailbox.specs.Scripts.{HoldsMail, IsUnreadMail};

use crate::file::find_box;
use crate::run::run_mail;
use crate::texts::put_look;
use fam_base::Path;
use fam_mail::MailEvent;
use fam_mail_script::read_mail_script;
use fam_media::{Media, Shelf, Sink};
use fam_outcomes::Status;
use fam_program::{ScriptFault, put_unread, script_bytes};
use fam_script::LineFault;
use std::alloc::Global;

/// The events of a mailbox's script.
fn events_of<S: Shelf>(
    alloc: Global,
    shelf: &mut S,
    name: &str,
) -> Result<Vec<MailEvent>, ScriptFault>
    ensures read { IfOk result (λ events. HoldsMail (change S.state shelf.old shelf.new) name.now events.items) }
    ensures fault { IfErr result (IsUnreadMail (change S.state shelf.old shelf.new) name.now) }
    ensures steady { IsShelfSteady (S.state shelf.old) (S.state shelf.new) }
{
    let bytes = match script_bytes(alloc, shelf, name) {
        Ok(bytes) => bytes,
        Err(fault) => return Err(fault),
    };
    match read_mail_script(alloc, bytes.as_slice()) {
        Ok(events) => Ok(events),
        Err(LineFault::BadLine { line, column }) => Err(ScriptFault::BadLine { line, column }),
        Err(LineFault::OutOfMemory) => Err(ScriptFault::OutOfMemory),
    }
}

/// Runs the script of a file of the shelf over the mailbox in the file at a path of an image; puts the notes of each event
/// when it is done, and gives the status of the run.
///
/// No event is run where the script isn't read, nothing or a directory stands at the path, the file there is too small or has no
/// box, the media fails, or no memory is left: the first of these is put, in this order, and the image is as it was.
pub fn run_mail_file<M: Media, S: Shelf, K: Sink>(
    alloc: Global,
    script: &str,
    path: &Path,
    media: &mut M,
    shelf: &mut S,
    out: &mut K,
) -> Status
    ensures ends { MailTop M.exact script.now path.now (outside_of M.size M.state media.old media.new
        (change S.state shelf.old shelf.new) (change K.state out.old out.new)) result }
    ensures steady { IsSteady M.size M.state media.old media.new }
    ensures shelf { IsShelfSteady (S.state shelf.old) (S.state shelf.new) }
    ensures later { (K.state out.old).faults ≤ (K.state out.new).faults }
{
    let events = match events_of(alloc, shelf, script) {
        Ok(events) => events,
        Err(fault) => return put_unread(alloc, script, fault, out),
    };
    match find_box(alloc, media, path) {
        Ok(entry) => run_mail(alloc, &entry, events.as_slice(), media, out),
        Err(fault) => put_look(alloc, fault, out),
    }
}
