//! Storms: a script of random events is run, with one line for the whole run; or it is put as it is.

ghost use Rattle.std.specs.Prelude.{◌≡◌, ◌≤◌, ◌⊎◌, IfOk, List, Some, count_by, length};
ghost use Rattle.fam_grammar.specs.Scripts.{is_line_feed, script_events};
ghost use Rattle.fam_journal.specs.declared.event.Event.{Event as Happening};
ghost use Rattle.fam_outcomes.specs.declared.status.Status.TheVariants as status;
ghost use Rattle.fam_journal.specs.Names.{NameDeclared};
ghost use Rattle.fam_outcomes.specs.Programs.{Storm, TopEnds, memory_line};
ghost use Rattle.fam_outcomes.specs.Programs as program;
ghost use Rattle.fam_program.specs.Puts.{Put};
ghost use Rattle.fam_program.specs.Runs.{outside_of};
ghost use Rattle.fam_media.specs.Causes.{IsShelfSteady, IsSteady};
ghost use Rattle.fam_media.specs.States.{change};
ghost use Rattle.fam_storm.specs.Storm.{storm as storm_text};

use crate::line_by_line::run_lines;
use crate::puts::{put_line, put_memory};
use fam_base::OutOfMemory;
use fam_events::EventFault;
use fam_media::{Media, Shelf, Sink};
use fam_outcomes::Status;
use fam_script::{count_notes, storm_line, text_crc};
use fam_storm::{a_storm_is_an_event_for_each_line, a_storm_reads_no_source, storm};
use fam_world::World;
use std::alloc::Global;

/// How many lines end in a script.
fn count_lines(script: &[u8]) -> u64
    ensures { result ≡ count_by is_line_feed script.now }
{
    script.iter().filter(|byte| **byte == b'\n').count() as u64
}

/// The line of a storm that was run, with so many events in its script.
fn summary(
    alloc: Global,
    seed: u64,
    size: u64,
    events: u64,
    world: &World,
) -> Result<Vec<u8>, OutOfMemory>
    requires named { NameDeclared 0 world.now.journal }
    ensures { (all : List Happening) → events ≡ length all
        → IfOk result (λ line. line.items ≡ program.storm_line seed size all world.now.journal) }
{
    let notes = world.journal();
    let counts = count_notes(notes);
    let crc = text_crc(alloc, notes)?;
    storm_line(alloc, seed, size, events, &counts, crc)
}

/// Puts the line of a storm that was run, with so many events in its script, and gives the status that it ended with.
fn put_summary<K: Sink>(
    alloc: Global,
    seed: u64,
    size: u64,
    events: u64,
    world: &World,
    own: Status,
    out: &mut K,
) -> Status
    requires named { NameDeclared 0 world.now.journal }
    ensures put { (all : List Happening) → events ≡ length all
        → Put own (program.storm_line seed size all world.now.journal) (change K.state out.old out.new) result
        ⊎ Put status.OutOfMemory memory_line (change K.state out.old out.new) result }
    ensures later { (K.state out.old).faults ≤ (K.state out.new).faults }
{
    match summary(alloc, seed, size, events, world) {
        Ok(line) => put_line(out, own, line.as_slice()),
        Err(_) => put_memory(out),
    }
}

/// Runs the storm of a seed and a size, of at most 100,000 turns, on a media, and puts its line: how many events its
/// script has, what is counted of the notes, and the CRC-32 of their text. Each line of the script is read when the
/// events before it are done. With `prints` the script is put, and nothing is run.
///
/// The run ends early where the media fails in a mkfs, and the line is put all the same; or where no memory is left,
/// which is then put alone. No event of a storm reads a source.
pub fn run_storm<M: Media, S: Shelf, K: Sink>(
    alloc: Global,
    seed: u64,
    size: u64,
    prints: bool,
    media: &mut M,
    shelf: &mut S,
    out: &mut K,
) -> Status
    requires small { size ≤ 100000 }
    ensures ends { TopEnds script_events storm_text (Some (Storm seed size prints)) (outside_of M.size M.state
        media.old media.new (change S.state shelf.old shelf.new)
        (change K.state out.old out.new)) result }
    ensures steady { IsSteady M.size M.state media.old media.new }
    ensures shelf { IsShelfSteady (S.state shelf.old) (S.state shelf.new) }
    ensures later { (K.state out.old).faults ≤ (K.state out.new).faults }
{
    let Ok(script) = storm(alloc, seed, size) else {
        return put_memory(out);
    };
    let text = script.as_slice();
    if prints {
        return put_line(out, Status::Done, text);
    }
    a_storm_is_an_event_for_each_line();
    a_storm_reads_no_source();
    let count = count_lines(text);
    let mut world = World::new(alloc);
    match run_lines(alloc, &mut world, text, media, shelf) {
        Ok(()) => put_summary(alloc, seed, size, count, &world, Status::Done, out),
        Err(EventFault::MkfsFailed) => {
            put_summary(alloc, seed, size, count, &world, Status::MediaFault, out)
        }
        Err(EventFault::SourceEnded(_)) => unreachable!(),
        Err(EventFault::OutOfMemory) => put_memory(out),
    }
}
