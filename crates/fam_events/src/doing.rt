//! One event of a run.

ghost use Rattle.std.specs.Prelude.{◌≡◌, OnErr, Some};
ghost use Rattle.fam_grammar.specs.Sound.{IsSoundAsk, IsSoundEvent};
ghost use Rattle.fam_journal.specs.declared.event.Event.TheVariants as event;
ghost use Rattle.fam_journal.specs.CallRecords.{FitsMedia};
ghost use Rattle.fam_journal.specs.Shapes.{IsShaped};
ghost use Rattle.fam_media.specs.Causes.{IsShelfSteady};
ghost use Rattle.fam_media.specs.Outside.{IfModelled};
ghost use Rattle.fam_media.specs.States.{change};
ghost use Rattle.fam_events.specs.WorldChange.{world_change};
ghost use Rattle.fam_events.specs.Happens.{EventSays};
ghost use Rattle.fam_events.specs.Last.{EventShows};
ghost use Rattle.fam_events.specs.Rested.{IsRested, IsRun};
ghost use Rattle.fam_events.specs.Untouched.{IsUntouchedBy};

use crate::asks::{Asked, ask, asks_to_read};
use crate::calls::{conclude, declare, evict, fetch, finish, halt, leak, make, stop, umount};
use crate::fault::EventFault;
use crate::steps::step;
use fam_base::HostName;
use fam_journal::{Ask, Event};
use fam_media::{Media, Shelf};
use fam_world::World;
use std::alloc::Global;

/// A host begins what it is asked for.
fn begin<M: Media, S: Shelf>(
    alloc: Global,
    world: &mut World,
    media: &mut M,
    shelf: &mut S,
    copied: &mut u64,
    name: HostName,
    what: Ask,
) -> Result<(), EventFault>
    requires sound { IsSoundAsk what }
    requires shaped { IsShaped world.old }
    requires fits { FitsMedia (M.size media.old) world.old.hosts }
    ensures says { EventSays (event.Begin name what) (change S.state shelf.old shelf.new)
        (world_change M.size M.state media.old media.new world.old world.new (S.state shelf.old).files copied.old copied.new) result }
    ensures same { media.new ≡ media.old }
    ensures steady { IsShelfSteady (S.state shelf.old) (S.state shelf.new) }
{
    match ask(alloc, world, shelf, copied, media.lines(), &name, what) {
        Ok(_) => Ok(()),
        Err(fault) => Err(fault),
    }
}

/// A host begins what it is asked for, and runs it to its answer.
fn run<M: Media, S: Shelf>(
    alloc: Global,
    world: &mut World,
    media: &mut M,
    shelf: &mut S,
    copied: &mut u64,
    name: HostName,
    what: Ask,
) -> Result<(), EventFault>
    requires sound { IsSoundAsk what }
    requires shaped { IsShaped world.old }
    requires fits { FitsMedia (M.size media.old) world.old.hosts }
    ensures says { EventSays (event.Run name what) (change S.state shelf.old shelf.new)
        (world_change M.size M.state media.old media.new world.old world.new (S.state shelf.old).files copied.old copied.new) result }
    ensures same { OnErr result (IsRested world.old
        → IfModelled (M.state media.old).image (λ image. (M.state media.new).image ≡ Some image)) }
    ensures untouched { IsUntouchedBy (event.Run name what) (M.size media.old) world.old media.old media.new }
    ensures size { M.size media.new ≡ M.size media.old }
    ensures steady { IsShelfSteady (S.state shelf.old) (S.state shelf.new) }
{
    match ask(alloc, world, shelf, copied, media.lines(), &name, what) {
        Ok(Asked::Refused) => Ok(()),
        Ok(Asked::Begun) => finish(world, media, &name),
        Err(fault) => Err(fault),
    }
}

/// As the last event of a run: a host begins what it is asked for, and runs it to its answer. Behind it of the world its
/// journal alone is looked at, so that where the command only reads, its host forgets lines that it won't look at again.
pub fn run_last<M: Media, S: Shelf>(
    alloc: Global,
    world: &mut World,
    media: &mut M,
    shelf: &mut S,
    copied: &mut u64,
    name: HostName,
    what: Ask,
) -> Result<(), EventFault>
    requires sound { IsSoundAsk what }
    requires shaped { IsShaped world.old }
    requires fits { FitsMedia (M.size media.old) world.old.hosts }

    // What `happen` says of the world is said of one with the same journal.
    ensures says { EventShows (event.Run name what) (change S.state shelf.old shelf.new)
        (world_change M.size M.state media.old media.new world.old world.new (S.state shelf.old).files
        copied.old copied.new) result }
    ensures same { OnErr result (IsRested world.old
        → IfModelled (M.state media.old).image (λ image. (M.state media.new).image ≡ Some image)) }
    ensures untouched { IsUntouchedBy (event.Run name what) (M.size media.old) world.old media.old media.new }
    ensures size { M.size media.new ≡ M.size media.old }
    ensures steady { IsShelfSteady (S.state shelf.old) (S.state shelf.new) }
{
    if !asks_to_read(&what) {
        return run(alloc, world, media, shelf, copied, name, what);
    }
    match ask(alloc, world, shelf, copied, media.lines(), &name, what) {
        Ok(Asked::Refused) => Ok(()),
        Ok(Asked::Begun) => conclude(world, media, &name),
        Err(fault) => Err(fault),
    }
}

/// Does an event on a world, its media and the files of a shelf, and notes what comes of it. What is refused is noted
/// too, and the run goes on. `copied` bytes of sources were read before, and are told behind it.
///
/// `MkfsFailed` comes where the media failed while a file system was made; `SourceEnded` where the shelf failed, or a
/// source was short; `OutOfMemory` where no memory was left, and then an event that does operations may have done some.
/// A run of a command has stored nothing then, on caches that had nothing to send before it.
pub fn happen<M: Media, S: Shelf>(
    alloc: Global,
    world: &mut World,
    media: &mut M,
    shelf: &mut S,
    copied: &mut u64,
    event: Event,
) -> Result<(), EventFault>
    requires sound { IsSoundEvent event }
    requires shaped { IsShaped world.old }
    requires fits { FitsMedia (M.size media.old) world.old.hosts }
    ensures says { EventSays event (change S.state shelf.old shelf.new)
        (world_change M.size M.state media.old media.new world.old world.new (S.state shelf.old).files copied.old copied.new) result }

    // A run that ends early leaves the image as it was, where no cache had anything to send.
    ensures same { IsRun event → OnErr result (IsRested world.old
        → IfModelled (M.state media.old).image (λ image. (M.state media.new).image ≡ Some image)) }

    // An event that the world alone refuses, and one that speaks of no line, asks nothing of the media.
    ensures untouched { IsUntouchedBy event (M.size media.old) world.old media.old media.new }

    ensures size { M.size media.new ≡ M.size media.old }
    ensures steady { IsShelfSteady (S.state shelf.old) (S.state shelf.new) }
{
    match event {
        Event::Host(name, uuid) => declare(world, &name, uuid),
        Event::Mkfs(name, request) => make(world, media, &name, request),
        Event::Begin(name, what) => {
            begin(alloc, world, media, shelf, copied, name, what.into_inner())
        }
        Event::Run(name, what) => run(alloc, world, media, shelf, copied, name, what.into_inner()),
        Event::Step(name, count) => step(world, media, &name, count),
        Event::Finish(name) => finish(world, media, &name),
        Event::Stop(name) => stop(world, &name),
        Event::Halt(name) => halt(world, &name),
        Event::Umount(name) => umount(world, &name),
        Event::Evict(name, line) => evict(world, media, &name, line),
        Event::Leak(name, line, mask) => leak(world, media, &name, line, mask),
        Event::Fetch(name, line, mask) => fetch(world, media, &name, line, mask),
    }
}
