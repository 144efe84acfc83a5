//! What is put of a run: the notes of each event, and the line that ends it early.

ghost use Rattle.std.specs.Prelude.{◌≡◌, ◌≤◌, [], IsErrOf, OnOk, drop, length, take};
ghost use Rattle.fam_media.specs.States.{change};
ghost use Rattle.fam_journal.specs.Names.{NamesHost, NameDeclared};
ghost use Rattle.fam_outcomes.specs.Programs.{memory_line, usage_line};
ghost use Rattle.fam_outcomes.specs.declared.status.Status.TheVariants as status;
ghost use Rattle.fam_outcomes.specs.Texts as text;
ghost use Rattle.fam_notes.specs.Notes.{note_view, notes_view};
ghost use Rattle.fam_program.specs.Puts.{EndSays, Put, PutPart, PutSome, PutWhole, StopSays};

use crate::fault::PutFault;
use crate::lines::{MEMORY, USAGE, end_line};
use fam_base::HostName;
use fam_events::EventFault;
use fam_media::Sink;
use fam_notes::Note;
use fam_outcomes::Status;
use fam_script::note_line;
use fam_sources::SourceEnd;
use fam_world::World;
use std::alloc::Global;

/// Puts a text, and gives its status, or that of a sink that failed.
pub fn put_line<K: Sink>(out: &mut K, own: Status, text: &[u8]) -> Status
    ensures put { Put own text.now (change K.state out.old out.new) result }
    ensures later { (K.state out.old).faults ≤ (K.state out.new).faults }
{
    match out.put(text) {
        Ok(()) => own,
        Err(_) => Status::SinkFault,
    }
}

/// Puts what the words of a call may be, and gives the status of words that are none.
pub fn put_usage<K: Sink>(out: &mut K) -> Status
    ensures put { Put status.Usage usage_line (change K.state out.old out.new) result }
    ensures later { (K.state out.old).faults ≤ (K.state out.new).faults }
{
    put_line(out, Status::Usage, USAGE.as_bytes())
}

/// Puts that no memory is left, and gives the status.
pub fn put_memory<K: Sink>(out: &mut K) -> Status
    ensures put { Put status.OutOfMemory memory_line (change K.state out.old out.new) result }
    ensures later { (K.state out.old).faults ≤ (K.state out.new).faults }
{
    put_line(out, Status::OutOfMemory, MEMORY.as_bytes())
}

/// Puts how the reading of a source ended early, or that no memory is left to say so, and gives the status.
pub(crate) fn put_source_end<K: Sink>(alloc: Global, end: SourceEnd, out: &mut K) -> Status
    ensures says { EndSays end (change K.state out.old out.new) result }
    ensures later { (K.state out.old).faults ≤ (K.state out.new).faults }
{
    match end_line(alloc, end) {
        Ok(line) => put_line(out, Status::SourceFault, line.as_slice()),
        Err(_) => put_memory(out),
    }
}

/// Puts one note, with its further lines. `names` are those of the hosts that are declared before it; that of a host
/// which it declares is added.
fn put_note<K: Sink>(
    alloc: Global,
    note: &Note,
    names: &mut Vec<HostName>,
    out: &mut K,
) -> Result<(), PutFault>
    requires { NamesHost (length names.old.items) (note_view note.now) }
    ensures put { OnOk result (PutWhole (text.note_line names.old.items (note_view note.now))
        (change K.state out.old out.new)) }
    ensures names { OnOk result (names.new.items ≡ text.names_after names.old.items (note_view note.now)) }
    ensures part { IsErrOf result PutFault.Sink → PutPart (text.note_line names.old.items (note_view note.now))
        (change K.state out.old out.new) }
    ensures undone { IsErrOf result PutFault.OutOfMemory → out.new ≡ out.old }
    ensures later { (K.state out.old).faults ≤ (K.state out.new).faults }
{
    let Ok(line) = note_line(alloc, note, names) else {
        return Err(PutFault::OutOfMemory);
    };
    match out.put(line.as_slice()) {
        Ok(()) => Ok(()),
        Err(_) => Err(PutFault::Sink),
    }
}

/// Puts notes in their order, each by one put. Where no memory is left for one of them, those before it were put; where
/// a put failed, those before it and a part of it.
fn put_each<K: Sink>(
    alloc: Global,
    notes: &[Note],
    names: &mut Vec<HostName>,
    out: &mut K,
) -> Result<(), PutFault>
    requires { NameDeclared (length names.old.items) (notes_view notes.now) }
    ensures put { OnOk result (PutWhole (text.render_behind names.old.items (notes_view notes.now))
        (change K.state out.old out.new)) }
    ensures names { OnOk result (names.new.items ≡ text.names_behind names.old.items (notes_view notes.now)) }
    ensures part { IsErrOf result PutFault.Sink → PutPart (text.render_behind names.old.items (notes_view notes.now))
        (change K.state out.old out.new) }
    ensures some { IsErrOf result PutFault.OutOfMemory → PutSome names.old.items (notes_view notes.now)
        (change K.state out.old out.new) }
    ensures later { (K.state out.old).faults ≤ (K.state out.new).faults }
{
    'notes: for note in notes {
        match put_note(alloc, note, names, out) {
            Ok(()) => {}
            Err(fault) => return Err(fault),
        }
    }
    Ok(())
}

/// Puts the notes from `from` on, each by one put. `names` are those of the hosts that the notes before them declare,
/// and behind it those of all.
pub(crate) fn put_notes<K: Sink>(
    alloc: Global,
    world: &World,
    from: usize,
    names: &mut Vec<HostName>,
    out: &mut K,
) -> Result<(), PutFault>
    requires within { from ≤ length world.now.journal }
    requires named { NameDeclared 0 world.now.journal }
    requires names { names.old.items ≡ text.names_behind [] (take from world.now.journal) }

    ensures put { OnOk result (PutWhole (text.render_behind names.old.items (drop from world.now.journal))
        (change K.state out.old out.new)) }
    ensures names { OnOk result (names.new.items ≡ text.names_behind [] world.now.journal) }
    ensures part { IsErrOf result PutFault.Sink → PutPart (text.render_behind names.old.items (drop from world.now.journal))
        (change K.state out.old out.new) }
    ensures some { IsErrOf result PutFault.OutOfMemory → PutSome names.old.items (drop from world.now.journal)
        (change K.state out.old out.new) }
    ensures later { (K.state out.old).faults ≤ (K.state out.new).faults }
{
    put_each(alloc, &world.journal()[from..], names, out)
}

/// Puts the notes of a mkfs in which the media failed; where no memory is left for their text, that line behind those
/// that were put.
fn put_broken<K: Sink>(
    alloc: Global,
    world: &World,
    from: usize,
    names: &mut Vec<HostName>,
    out: &mut K,
) -> Status
    requires within { from ≤ length world.now.journal }
    requires named { NameDeclared 0 world.now.journal }
    requires names { names.old.items ≡ text.names_behind [] (take from world.now.journal) }

    ensures says { StopSays EventFault.MkfsFailed names.old.items (drop from world.now.journal)
        (change K.state out.old out.new) result }
    ensures later { (K.state out.old).faults ≤ (K.state out.new).faults }
{
    match put_notes(alloc, world, from, names, out) {
        Ok(()) => Status::MediaFault,
        Err(PutFault::Sink) => Status::SinkFault,
        Err(PutFault::OutOfMemory) => put_memory(out),
    }
}

/// Puts the notes that came of an event before no memory was left, as many as find memory, and that line behind them.
fn put_cut<K: Sink>(
    alloc: Global,
    world: &World,
    from: usize,
    names: &mut Vec<HostName>,
    out: &mut K,
) -> Status
    requires within { from ≤ length world.now.journal }
    requires named { NameDeclared 0 world.now.journal }
    requires names { names.old.items ≡ text.names_behind [] (take from world.now.journal) }

    ensures says { StopSays EventFault.OutOfMemory names.old.items (drop from world.now.journal)
        (change K.state out.old out.new) result }
    ensures later { (K.state out.old).faults ≤ (K.state out.new).faults }
{
    match put_notes(alloc, world, from, names, out) {
        Ok(()) => put_memory(out),
        Err(PutFault::Sink) => Status::SinkFault,
        Err(PutFault::OutOfMemory) => put_memory(out),
    }
}

/// Puts how an event has ended the run, behind the notes that came of it, and gives the status.
pub(crate) fn put_stop<K: Sink>(
    alloc: Global,
    world: &World,
    from: usize,
    names: &mut Vec<HostName>,
    fault: EventFault,
    out: &mut K,
) -> Status
    requires within { from ≤ length world.now.journal }
    requires named { NameDeclared 0 world.now.journal }
    requires names { names.old.items ≡ text.names_behind [] (take from world.now.journal) }

    ensures says { StopSays fault names.old.items (drop from world.now.journal)
        (change K.state out.old out.new) result }
    ensures later { (K.state out.old).faults ≤ (K.state out.new).faults }
{
    match fault {
        EventFault::MkfsFailed => put_broken(alloc, world, from, names, out),
        EventFault::SourceEnded(end) => put_source_end(alloc, end, out),
        EventFault::OutOfMemory => put_cut(alloc, world, from, names, out),
    }
}
