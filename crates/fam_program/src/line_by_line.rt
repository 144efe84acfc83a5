//! Scripts that are run while they are read, line by line, with nothing put of them.
//!
//! A storm is run so, no line of which is bad: an event is some six hundred bytes large and a line forty, and all
//! events at once would be most of the memory that a long storm takes. A script in a file is read whole before its
//! first event, since a bad line anywhere means that nothing is run.

ghost use Rattle.std.specs.Prelude.{◌≡◌, ◌<◌, IfOk, IsOk, List, Ok, length};
ghost use Rattle.fam_grammar.specs.Scripts.{script_events};
ghost use Rattle.fam_journal.specs.declared.event.Event.{Event as Happening};
ghost use Rattle.fam_journal.specs.View.{empty_world};
ghost use Rattle.fam_media.specs.Causes.{IsShelfSteady, IsSteady};
ghost use Rattle.fam_media.specs.States.{change, SinkChange};
ghost use Rattle.fam_program.specs.LineByLine.{SplitsAtLine, StartsWith};
ghost use Rattle.fam_program.specs.Unprinted.{EventsEnded};
ghost use Rattle.fam_program.specs.Runs.{outside_of};

use crate::script::is_image;
use fam_base::OutOfMemory;
use fam_events::{EventFault, happen};
use fam_grammar::{LineFault, read_line, what_reads_is_sound};
use fam_journal::Event;
use fam_media::{Media, Shelf};
use fam_world::World;
use std::alloc::Global;

/// The first line of a script, without its line feed, and what is behind it.
fn cut_line(script: &[u8]) -> (&[u8], &[u8])
    ensures cut { SplitsAtLine script.now result.0.now result.1.now }
    ensures shorter { 0 < length script.now → length result.1.now < length script.now }
{
    for (i, byte) in script.iter().enumerate() {
        if *byte == b'\n' {
            return (&script[..i], &script[i + 1..]);
        }
    }
    (script, &[])
}

/// The event of the first line of a script, if it has one, and what is behind the line. No line of the script is bad.
fn next_event(alloc: Global, script: &[u8]) -> Result<(Option<Event>, &[u8]), OutOfMemory>
    requires good { IsOk (script_events script.now) }
    ensures starts { IfOk result (λ read. StartsWith script.now read.0 read.1.now) }
    ensures shorter { 0 < length script.now → IfOk result (λ read. length read.1.now < length script.now) }
{
    let (line, behind) = cut_line(script);
    // Only a bad line is named by its number.
    match read_line(alloc, line, 1) {
        Ok(event) => Ok((event, behind)),
        Err(LineFault::OutOfMemory) => Err(OutOfMemory),
        Err(LineFault::BadLine { .. }) => unreachable!(),
    }
}

/// Runs the events of a script, no line of which is bad, in their order on a media, with sources from a shelf. Each line
/// is read when the events before it are done, so that there is one event at a time. The world has no host and no note
/// before, and keeps the notes of the run.
///
/// The run ends early where the media fails in a mkfs, a source can't be read to its end, or no memory is left, for an
/// event or to read its line.
pub(crate) fn run_lines<M: Media, S: Shelf>(
    alloc: Global,
    world: &mut World,
    script: &[u8],
    media: &mut M,
    shelf: &mut S,
) -> Result<(), EventFault>
    requires fresh { world.old ≡ empty_world }
    requires good { IsOk (script_events script.now) }
    ensures ended { (events : List Happening) → script_events script.now ≡ Ok events → (sink : SinkChange)
        → EventsEnded result (outside_of M.size M.state media.old media.new
        (change S.state shelf.old shelf.new) sink) events world.new.journal }
    ensures steady { IsSteady M.size M.state media.old media.new }
    ensures shelf { IsShelfSteady (S.state shelf.old) (S.state shelf.new) }
{
    is_image(media);
    what_reads_is_sound();
    let mut copied = 0;
    let mut rest = script;
    'lines: while !rest.is_empty() {
        let (found, behind) = match next_event(alloc, rest) {
            Ok(read) => read,
            Err(_) => return Err(EventFault::OutOfMemory),
        };
        rest = behind;
        let Some(event) = found else {
            continue;
        };
        match happen(alloc, world, media, shelf, &mut copied, event) {
            Ok(()) => {}
            Err(fault) => return Err(fault),
        }
    }
    Ok(())
}
