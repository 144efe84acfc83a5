//! Commands of their own: one host is declared and does what is asked of it, and the last note is put.

ghost use Rattle.std.specs.Prelude.{◌≡◌, ◌≤◌, ◌∷◌, [], IfOk, IsTrue, None, Some};
ghost use Rattle.fam_base.specs.Commands.{mode_limit};
ghost use Rattle.fam_format.specs.Params.{is_format};
ghost use Rattle.fam_grammar.specs.Scripts.{script_events};
ghost use Rattle.fam_grammar.specs.Sound.{IsSoundAsk};
ghost use Rattle.fam_journal.specs.declared.event.Event.TheVariants as event;
ghost use Rattle.fam_journal.specs.Names.{NameDeclared};
ghost use Rattle.fam_outcomes.specs.Programs.{Makes, MakesParents, Runs, Single, TopEnds};
ghost use Rattle.fam_program.specs.Runs.{outside_of};
ghost use Rattle.fam_program.specs.Shots.{LastSays, ShotSays};
ghost use Rattle.fam_media.specs.Causes.{IsShelfSteady, IsSteady};
ghost use Rattle.fam_media.specs.States.{change};
ghost use Rattle.fam_storm.specs.Storm.{storm};

use crate::numbers::{last_number, put_number};
use crate::parents::parent_events;
use crate::puts::{put_line, put_memory, put_source_end};
use crate::unprinted::{run_alone, run_until_stop};
use fam_base::{Attr, Boxed, HostName, OutOfMemory, Path};
use fam_events::EventFault;
use fam_journal::{Ask, Event};
use fam_machine::MkfsRequest;
use fam_media::{Media, Shelf, Sink};
use fam_outcomes::Status;
use fam_script::{last_status, parents_status, shown};
use fam_world::World;
use std::alloc::Global;
use uuid::Uuid;

/// The name of the one host. No text that is put has it.
pub(crate) fn own_name() -> HostName {
    let Ok(name) = HostName::read(b"m") else {
        unreachable!()
    };
    name
}

/// A host is declared, and does one thing.
pub(crate) fn two_events(
    alloc: Global,
    name: HostName,
    me: Uuid,
    does: Event,
) -> Result<Vec<Event>, OutOfMemory>
    ensures { IfOk result (λ events. events.items ≡ event.Host name me ∷ does ∷ []) }
{
    let mut events = Vec::new(alloc);
    if events.push(Event::Host(name, me)).is_err() {
        return Err(OutOfMemory);
    }
    if events.push(does).is_err() {
        return Err(OutOfMemory);
    }
    Ok(events)
}

/// A host is declared, and runs what it is asked for.
pub(crate) fn run_events(
    alloc: Global,
    name: HostName,
    me: Uuid,
    ask: Ask,
) -> Result<Vec<Event>, OutOfMemory>
    ensures { IfOk result (λ events. events.items ≡ event.Host name me ∷ event.Run name ask ∷ []) }
{
    let asked = Boxed::new(alloc, ask)?;
    two_events(alloc, name, me, Event::Run(name, asked))
}

/// Puts the last note of a run, without its host's name, and gives the status; or that no memory is left for it. That an
/// entry is appended, and that the media failed, is put in any case.
fn put_last<K: Sink>(alloc: Global, world: &World, own: Status, out: &mut K) -> Status
    requires named { NameDeclared 0 world.now.journal }
    ensures put { LastSays own world.now.journal (change K.state out.old out.new) result }
    ensures later { (K.state out.old).faults ≤ (K.state out.new).faults }
{
    let notes = world.journal();
    if let Some(short) = last_number(notes) {
        return put_number(short, own, out);
    }
    match shown(alloc, notes) {
        Ok(text) => put_line(out, own, text.as_slice()),
        Err(_) => put_memory(out),
    }
}

/// Puts what comes of a run that has ended so, and gives its status: `done` where no event ended it early.
pub(crate) fn put_end<K: Sink>(
    alloc: Global,
    world: &World,
    ended: Result<(), EventFault>,
    done: Status,
    out: &mut K,
) -> Status
    requires named { NameDeclared 0 world.now.journal }
    ensures says { ShotSays ended done world.now.journal (change K.state out.old out.new) result }
    ensures later { (K.state out.old).faults ≤ (K.state out.new).faults }
{
    match ended {
        Ok(()) => put_last(alloc, world, done, out),
        Err(EventFault::MkfsFailed) => put_last(alloc, world, Status::MediaFault, out),
        Err(EventFault::SourceEnded(end)) => put_source_end(alloc, end, out),
        Err(EventFault::OutOfMemory) => put_memory(out),
    }
}

/// Runs a command on the log of a media, with its source from a shelf, for a host of this UUID, and puts its answer, or
/// why it is refused.
///
/// A source that can't be read to its end is said alone, and so is that no memory is left: then the image is as it was.
pub fn run_command<M: Media, S: Shelf, K: Sink>(
    alloc: Global,
    me: Uuid,
    ask: Ask,
    media: &mut M,
    shelf: &mut S,
    out: &mut K,
) -> Status
    requires sound { IsSoundAsk ask }
    ensures ends { TopEnds script_events storm (Some (Single me (Runs ask))) (outside_of M.size M.state
        media.old media.new (change S.state shelf.old shelf.new)
        (change K.state out.old out.new)) result }
    ensures steady { IsSteady M.size M.state media.old media.new }
    ensures shelf { IsShelfSteady (S.state shelf.old) (S.state shelf.new) }
    ensures later { (K.state out.old).faults ≤ (K.state out.new).faults }
{
    let mut world = World::new(alloc);
    let ended = run_alone(alloc, &mut world, own_name(), me, ask, media, shelf);
    let done = last_status(world.journal());
    put_end(alloc, &world, ended, done, out)
}

/// Makes a file system on a media, of which a host of this UUID is the master, and puts what was made, or why there is
/// none. It is made as a whole: its maker doesn't halt. Where the media fails, that is put, and the image may have no file
/// system.
///
/// Where no memory is left, that is put alone; the file system may be made all the same.
pub fn make_file_system<M: Media, S: Shelf, K: Sink>(
    alloc: Global,
    me: Uuid,
    request: MkfsRequest,
    media: &mut M,
    shelf: &mut S,
    out: &mut K,
) -> Status
    requires format { IsTrue (is_format request.format) }
    requires whole { request.halt ≡ None }
    ensures ends { TopEnds script_events storm (Some (Single me (Makes request))) (outside_of M.size M.state
        media.old media.new (change S.state shelf.old shelf.new)
        (change K.state out.old out.new)) result }
    ensures steady { IsSteady M.size M.state media.old media.new }
    ensures shelf { IsShelfSteady (S.state shelf.old) (S.state shelf.new) }
    ensures later { (K.state out.old).faults ≤ (K.state out.new).faults }
{
    let name = own_name();
    let Ok(events) = two_events(alloc, name, me, Event::Mkfs(name, request)) else {
        return put_memory(out);
    };
    let mut world = World::new(alloc);
    let ended = run_until_stop(alloc, &mut world, events, media, shelf);
    let done = last_status(world.journal());
    put_end(alloc, &world, ended, done, out)
}

/// Makes the directories along a path on a media, the shortest path first, for a host of this UUID, and puts the last
/// note, without the host's name. A directory that is there already stops nothing; any other refusal, and a media that
/// fails, is the last note.
///
/// Where no memory is left, that is put alone.
pub fn make_parents<M: Media, S: Shelf, K: Sink>(
    alloc: Global,
    me: Uuid,
    path: &Path,
    attr: Attr,
    media: &mut M,
    shelf: &mut S,
    out: &mut K,
) -> Status
    requires mode { attr.mode ≤ mode_limit }
    ensures ends { TopEnds script_events storm (Some (Single me (MakesParents path.now attr))) (outside_of M.size M.state
        media.old media.new (change S.state shelf.old shelf.new)
        (change K.state out.old out.new)) result }
    ensures steady { IsSteady M.size M.state media.old media.new }
    ensures shelf { IsShelfSteady (S.state shelf.old) (S.state shelf.new) }
    ensures later { (K.state out.old).faults ≤ (K.state out.new).faults }
{
    let Ok(events) = parent_events(alloc, own_name(), me, path, attr) else {
        return put_memory(out);
    };
    let mut world = World::new(alloc);
    let ended = run_until_stop(alloc, &mut world, events, media, shelf);
    let done = parents_status(world.journal());
    put_end(alloc, &world, ended, done, out)
}
