//! What is put of a mailbox's notes, and the line that ends a run early.

ghost use Rattle.std.specs.Prelude.{◌≡◌, ◌≤◌, IsErrOf, OnOk, drop, length};
ghost use Rattle.fam_mail_script.specs.Texts as text;
ghost use Rattle.fam_media.specs.States.{change};
ghost use Rattle.fam_program.specs.Puts.{PutPart, PutWhole};
ghost use Rattle.fam_mailbox.specs.Puts.{PutShortMail, PutSomeMail};

use fam_mail::{MailNote, MailWorld};
use fam_mail_script::note_line;
use fam_media::Sink;
use fam_outcomes::Status;
use fam_program::{PutFault, put_memory};
use std::alloc::Global;

/// Puts one note, with its further lines.
fn put_note<K: Sink>(alloc: Global, note: &MailNote, out: &mut K) -> Result<(), PutFault>
    ensures put { OnOk result (PutWhole (text.mail_note_line note.now) (change K.state out.old out.new)) }
    ensures part { IsErrOf result PutFault.Sink → PutPart (text.mail_note_line note.now) (change K.state out.old out.new) }
    ensures undone { IsErrOf result PutFault.OutOfMemory → out.new ≡ out.old }
    ensures later { (K.state out.old).faults ≤ (K.state out.new).faults }
{
    let Ok(line) = note_line(alloc, note) else {
        return Err(PutFault::OutOfMemory);
    };
    match out.put(line.as_slice()) {
        Ok(()) => Ok(()),
        Err(_) => Err(PutFault::Sink),
    }
}

/// Puts notes in their order, each by one put. Where no memory is left for one of them, those before it were put; where
/// a put failed, those before it and a part of it.
fn put_each<K: Sink>(alloc: Global, notes: &[MailNote], out: &mut K) -> Result<(), PutFault>
    ensures put { OnOk result (PutWhole (text.mail_text notes.now) (change K.state out.old out.new)) }
    ensures part { IsErrOf result PutFault.Sink → PutPart (text.mail_text notes.now) (change K.state out.old out.new) }
    ensures some { IsErrOf result PutFault.OutOfMemory → PutSomeMail notes.now (change K.state out.old out.new) }
    ensures later { (K.state out.old).faults ≤ (K.state out.new).faults }
{
    'notes: for note in notes {
        match put_note(alloc, note, out) {
            Ok(()) => {}
            Err(fault) => return Err(fault),
        }
    }
    Ok(())
}

/// Puts the notes from `from` on, each by one put.
pub(crate) fn put_notes<K: Sink>(
    alloc: Global,
    world: &MailWorld,
    from: usize,
    out: &mut K,
) -> Result<(), PutFault>
    requires within { from ≤ length world.now.journal }

    ensures put { OnOk result (PutWhole (text.mail_text (drop from world.now.journal)) (change K.state out.old out.new)) }
    ensures part { IsErrOf result PutFault.Sink → PutPart (text.mail_text (drop from world.now.journal))
        (change K.state out.old out.new) }
    ensures some { IsErrOf result PutFault.OutOfMemory → PutSomeMail (drop from world.now.journal)
        (change K.state out.old out.new) }
    ensures later { (K.state out.old).faults ≤ (K.state out.new).faults }
{
    put_each(alloc, &world.journal()[from..], out)
}

/// Puts the notes that came of an event before no memory was left, as many as find memory, and that line behind them.
pub(crate) fn put_cut<K: Sink>(alloc: Global, world: &MailWorld, from: usize, out: &mut K) -> Status
    requires within { from ≤ length world.now.journal }

    ensures says { PutShortMail (drop from world.now.journal) (change K.state out.old out.new) result }
    ensures later { (K.state out.old).faults ≤ (K.state out.new).faults }
{
    match put_notes(alloc, world, from, out) {
        Ok(()) => put_memory(out),
        Err(PutFault::Sink) => Status::SinkFault,
        Err(PutFault::OutOfMemory) => put_memory(out),
    }
}
