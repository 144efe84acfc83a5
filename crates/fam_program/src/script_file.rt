//! The script of a file: it is read from the shelf, and its events are run.

ghost use Rattle.std.specs.Prelude.{◌≡◌, ◌≤◌, [], IfErr, IfOk, Some};
ghost use Rattle.fam_media.specs.Causes.{IsShelfSteady, IsSteady};
ghost use Rattle.fam_media.specs.States.{change};
ghost use Rattle.fam_outcomes.specs.Programs.{Script, TopEnds};
ghost use Rattle.fam_outcomes.specs.Programs as program;
ghost use Rattle.fam_grammar.specs.Scripts.{script_events};
ghost use Rattle.fam_storm.specs.Storm.{storm};
ghost use Rattle.fam_program.specs.Far.{AreSoundEvents};
ghost use Rattle.fam_program.specs.Files.{HoldsEvents, HoldsScript, IsOfFile, IsUnread, PutsEarly, early_of};
ghost use Rattle.fam_program.specs.Runs.{outside_of};

use crate::fault::ScriptFault;
use crate::lines::end_line;
use crate::puts::{put_line, put_memory};
use crate::read::read_script;
use crate::script::run_script;
use fam_base::OutOfMemory;
use fam_grammar::LineFault;
use fam_journal::Event;
use fam_media::{Media, Shelf, Sink};
use fam_outcomes::Status;
use fam_script::{line_of, line_with_last_name};
use fam_sources::{SourceEnd, WholeFault, read_whole};
use std::alloc::Global;

/// The most bytes of a script: 16 MiB.
pub const SCRIPT_LIMIT: u64 = 16_777_216;

/// The bytes of a script: the file of this name, of at most [`SCRIPT_LIMIT`] bytes. No fault speaks of its lines.
pub fn script_bytes<S: Shelf>(
    alloc: Global,
    shelf: &mut S,
    name: &str,
) -> Result<Vec<u8>, ScriptFault>
    ensures bytes { IfOk result (λ bytes. HoldsScript (change S.state shelf.old shelf.new) name.now bytes.items) }
    ensures fault { IfErr result (IsUnread (change S.state shelf.old shelf.new) name.now) }
    ensures file { IfErr result IsOfFile }
    ensures steady { IsShelfSteady (S.state shelf.old) (S.state shelf.new) }
{
    match read_whole(alloc, shelf, name, 0, SCRIPT_LIMIT) {
        Ok(bytes) => Ok(bytes),
        Err(WholeFault::NoFile) => Err(ScriptFault::NoFile),
        Err(WholeFault::TooLong(size)) => Err(ScriptFault::TooLong(size)),
        Err(WholeFault::Faulted) => Err(ScriptFault::Ended(SourceEnd::Faulted)),
        Err(WholeFault::Short { size, got }) => {
            Err(ScriptFault::Ended(SourceEnd::Short { size, got }))
        }
        Err(WholeFault::OutOfMemory) => Err(ScriptFault::OutOfMemory),
    }
}

/// The events of a script.
fn events_of<S: Shelf>(alloc: Global, shelf: &mut S, name: &str) -> Result<Vec<Event>, ScriptFault>
    ensures read { IfOk result (λ events. HoldsEvents (change S.state shelf.old shelf.new) name.now events.items) }
    ensures sound { IfOk result (λ events. AreSoundEvents events.items) }
    ensures fault { IfErr result (IsUnread (change S.state shelf.old shelf.new) name.now) }
    ensures steady { IsShelfSteady (S.state shelf.old) (S.state shelf.new) }
{
    let bytes = script_bytes(alloc, shelf, name)?;
    match read_script(alloc, bytes.as_slice()) {
        Ok(events) => Ok(events),
        Err(LineFault::BadLine { line, column }) => Err(ScriptFault::BadLine { line, column }),
        Err(LineFault::OutOfMemory) => Err(ScriptFault::OutOfMemory),
    }
}

/// The line that says why a script isn't run.
fn fault_line(alloc: Global, name: &str, fault: ScriptFault) -> Result<Vec<u8>, OutOfMemory>
    ensures { IfOk result (λ line. line.items ≡ program.early_text (early_of name.now fault)) }
{
    match fault {
        ScriptFault::NoFile => line_with_last_name(alloc, "no file", name.as_bytes()),
        ScriptFault::TooLong(size) => {
            line_of(alloc, format!(in alloc; "script too long {size}"))
        }
        ScriptFault::Ended(end) => end_line(alloc, end),
        ScriptFault::BadLine { line, column } => {
            line_of(alloc, format!(in alloc; "bad line {line} {column}"))
        }
        ScriptFault::OutOfMemory => Err(OutOfMemory),
    }
}

/// The status of a script that isn't run.
fn fault_status(fault: ScriptFault) -> Status
    ensures { result ≡ program.early_status (early_of [] fault) }
{
    match fault {
        ScriptFault::NoFile => Status::Refused,
        ScriptFault::TooLong(_) => Status::BadScript,
        ScriptFault::Ended(_) => Status::SourceFault,
        ScriptFault::BadLine { .. } => Status::BadScript,
        ScriptFault::OutOfMemory => Status::OutOfMemory,
    }
}

/// Puts why a script isn't run, or that no memory is left to say so, and gives the status.
pub fn put_unread<K: Sink>(alloc: Global, name: &str, fault: ScriptFault, out: &mut K) -> Status
    ensures put { PutsEarly (early_of name.now fault) (change K.state out.old out.new) result }
    ensures later { (K.state out.old).faults ≤ (K.state out.new).faults }
{
    match fault_line(alloc, name, fault) {
        Ok(line) => put_line(out, fault_status(fault), line.as_slice()),
        Err(_) => put_memory(out),
    }
}

/// Runs the script of a file of the shelf, on a media, with the other files of the shelf as sources; puts the notes of
/// each event when it is done, and gives the status of the run.
///
/// No event is run where there is no such file, it has more than [`SCRIPT_LIMIT`] bytes, it can't be read to its end, a
/// line of it is bad, or no memory is left for it: a line says so, and the media is left as it was.
pub fn run_script_file<M: Media, S: Shelf, K: Sink>(
    alloc: Global,
    name: &str,
    media: &mut M,
    shelf: &mut S,
    out: &mut K,
) -> Status
    ensures ends { TopEnds script_events storm (Some (Script name.now)) (outside_of M.size M.state media.old media.new
        (change S.state shelf.old shelf.new) (change K.state out.old out.new)) result }
    ensures steady { IsSteady M.size M.state media.old media.new }
    ensures shelf { IsShelfSteady (S.state shelf.old) (S.state shelf.new) }
    ensures later { (K.state out.old).faults ≤ (K.state out.new).faults }
{
    match events_of(alloc, shelf, name) {
        Ok(events) => run_script(alloc, events, media, shelf, out),
        Err(fault) => put_unread(alloc, name, fault, out),
    }
}
