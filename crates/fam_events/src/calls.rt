//! Calls of the world as parts of events: what was refused is noted, and the run goes on.

ghost use Rattle.std.specs.Prelude.{◌≡◌, length, ℕ, IsTrue, OnErr, Option, Some};
ghost use Rattle.fam_base.specs.Image.{Image};
ghost use Rattle.fam_format.specs.Params.{is_format};
ghost use Rattle.fam_journal.specs.Calls.{Declares, Finishes, Halts, Makes, Moves, Stops, Umounts};
ghost use Rattle.fam_journal.specs.ByWorld.{number_in};
ghost use Rattle.fam_journal.specs.CallRecords.{FitsMedia, IsUnstoredAt};
ghost use Rattle.fam_journal.specs.Shapes.{IsShaped};
ghost use Rattle.fam_machine.specs.HostMoves as how;
ghost use Rattle.fam_media.specs.Files.{Files};
ghost use Rattle.fam_media.specs.Outside.{IfModelled};
ghost use Rattle.fam_events.specs.WorldChange.{world_change, still};
ghost use Rattle.fam_events.specs.Calls.{CallSays, make_outcome, outcome};
ghost use Rattle.fam_events.specs.Last.{CallShows};
ghost use Rattle.fam_world.specs.Answers.{IsUntouched};
ghost use Rattle.fam_world.specs.Concluded.{ReadsOf};

use crate::fault::EventFault;
use fam_base::{HostName, LineNo, Mask};
use fam_journal::Refusal;
use fam_machine::{MkfsRequest, is_uuid};
use fam_media::Media;
use fam_world::{World, WorldFault};
use uuid::Uuid;

/// What a call comes to.
pub(crate) fn noted(called: Result<(), WorldFault>) -> Result<(), EventFault>
    ensures { result ≡ outcome called }
{
    match called {
        Ok(()) => Ok(()),
        Err(WorldFault::Refused(_)) => Ok(()),
        Err(WorldFault::OutOfMemory) => Err(EventFault::OutOfMemory),
    }
}

/// What a mkfs comes to: nothing goes on behind one in which the media failed.
fn made(called: Result<(), WorldFault>) -> Result<(), EventFault>
    ensures { result ≡ make_outcome called }
{
    match called {
        Ok(()) => Ok(()),
        Err(WorldFault::Refused(Refusal::MediaFault(_))) => Err(EventFault::MkfsFailed),
        Err(WorldFault::Refused(_)) => Ok(()),
        Err(WorldFault::OutOfMemory) => Err(EventFault::OutOfMemory),
    }
}

/// Declares a host.
pub(crate) fn declare(world: &mut World, name: &HostName, uuid: Uuid) -> Result<(), EventFault>
    requires shaped { IsShaped world.old }
    ensures says { (lines : ℕ) (told : Option Image) (faults : ℕ) (files : Option Files) (copied : ℕ)
        → IfModelled told (λ image. length image ≡ lines) → FitsMedia lines world.old.hosts
        → CallSays (Declares name.now uuid) (still lines world.old world.new told faults files copied) result }
{
    is_uuid(uuid);
    noted(world.host(name, uuid))
}

/// Ends a host's task.
pub(crate) fn stop(world: &mut World, name: &HostName) -> Result<(), EventFault>
    requires shaped { IsShaped world.old }
    ensures says { (lines : ℕ) (told : Option Image) (faults : ℕ) (files : Option Files) (copied : ℕ)
        → IfModelled told (λ image. length image ≡ lines) → FitsMedia lines world.old.hosts
        → CallSays (Stops name.now) (still lines world.old world.new told faults files copied) result }
{
    noted(world.stop(name))
}

/// Ends a host's task, and loses its cache and what it keeps of the log.
pub(crate) fn halt(world: &mut World, name: &HostName) -> Result<(), EventFault>
    requires shaped { IsShaped world.old }
    ensures says { (lines : ℕ) (told : Option Image) (faults : ℕ) (files : Option Files) (copied : ℕ)
        → IfModelled told (λ image. length image ≡ lines) → FitsMedia lines world.old.hosts
        → CallSays (Halts name.now) (still lines world.old world.new told faults files copied) result }
{
    noted(world.halt(name))
}

/// A host forgets what it keeps of the log.
pub(crate) fn umount(world: &mut World, name: &HostName) -> Result<(), EventFault>
    requires shaped { IsShaped world.old }
    ensures says { (lines : ℕ) (told : Option Image) (faults : ℕ) (files : Option Files) (copied : ℕ)
        → IfModelled told (λ image. length image ≡ lines) → FitsMedia lines world.old.hosts
        → CallSays (Umounts name.now) (still lines world.old world.new told faults files copied) result }
{
    noted(world.umount(name))
}

/// A host makes a file system, or halts in making it.
pub(crate) fn make<M: Media>(
    world: &mut World,
    media: &mut M,
    name: &HostName,
    request: MkfsRequest,
) -> Result<(), EventFault>
    requires shaped { IsShaped world.old }
    requires fits { FitsMedia (M.size media.old) world.old.hosts }
    requires format { IsTrue (is_format request.format) }
    ensures says { (files : Option Files) (copied : ℕ) → CallSays (Makes name.now request) (world_change M.size M.state
        media.old media.new world.old world.new files copied copied) result }
    ensures untouched { IsUntouched (Makes name.now request) (M.size media.old) world.old media.old media.new }
    ensures size { M.size media.new ≡ M.size media.old }
{
    let MkfsRequest {
        fs,
        unit,
        log,
        format,
        force,
        halt,
    } = request;
    is_uuid(fs);
    match halt {
        Some(k) => made(world.mkfs_cut(media, name, fs, unit, log, format, force, k)),
        None => made(world.mkfs(media, name, fs, unit, log, format, force)),
    }
}

/// A host's task runs to its answer. Where no memory is left for it, and it had stored nothing before, the image is as
/// it was.
pub(crate) fn finish<M: Media>(
    world: &mut World,
    media: &mut M,
    name: &HostName,
) -> Result<(), EventFault>
    requires shaped { IsShaped world.old }
    requires fits { FitsMedia (M.size media.old) world.old.hosts }
    ensures says { (files : Option Files) (copied : ℕ) → CallSays (Finishes name.now) (world_change M.size M.state
        media.old media.new world.old world.new files copied copied) result }
    ensures same { OnErr result ((h : ℕ) → number_in name.now world.old ≡ Some h → IsUnstoredAt h world.old
        → IfModelled (M.state media.old).image (λ image. (M.state media.new).image ≡ Some image)) }
    ensures untouched { IsUntouched (Finishes name.now) (M.size media.old) world.old media.old media.new }
    ensures size { M.size media.new ≡ M.size media.old }
{
    noted(world.finish(media, name))
}

/// A host's task, which only reads, runs to its answer, behind which of the world its journal alone is looked at. Where no memory
/// is left for it the image is as `finish` leaves it.
pub(crate) fn conclude<M: Media>(
    world: &mut World,
    media: &mut M,
    name: &HostName,
) -> Result<(), EventFault>
    requires shaped { IsShaped world.old }
    requires fits { FitsMedia (M.size media.old) world.old.hosts }
    requires reads { ReadsOf name.now world.old world.old }
    ensures says { (files : Option Files) (copied : ℕ) → CallShows (Finishes name.now) (world_change M.size M.state
        media.old media.new world.old world.new files copied copied) result }
    ensures same { OnErr result ((h : ℕ) → number_in name.now world.old ≡ Some h → IsUnstoredAt h world.old
        → IfModelled (M.state media.old).image (λ image. (M.state media.new).image ≡ Some image)) }
    ensures untouched { IsUntouched (Finishes name.now) (M.size media.old) world.old media.old media.new }
    ensures size { M.size media.new ≡ M.size media.old }
{
    noted(world.conclude(media, name))
}

/// A host's cache sends a line and drops it.
pub(crate) fn evict<M: Media>(
    world: &mut World,
    media: &mut M,
    name: &HostName,
    line: LineNo,
) -> Result<(), EventFault>
    requires shaped { IsShaped world.old }
    requires fits { FitsMedia (M.size media.old) world.old.hosts }
    ensures says { (files : Option Files) (copied : ℕ) → CallSays (Moves name.now line.0 how.Evict) (world_change M.size M.state
        media.old media.new world.old world.new files copied copied) result }
    ensures untouched { IsUntouched (Moves name.now line.0 how.Evict) (M.size media.old) world.old media.old media.new }
    ensures size { M.size media.new ≡ M.size media.old }
{
    noted(world.evict(media, name, line))
}

/// A host's cache sends some words of a line.
pub(crate) fn leak<M: Media>(
    world: &mut World,
    media: &mut M,
    name: &HostName,
    line: LineNo,
    mask: Mask,
) -> Result<(), EventFault>
    requires shaped { IsShaped world.old }
    requires fits { FitsMedia (M.size media.old) world.old.hosts }
    ensures says { (files : Option Files) (copied : ℕ) → CallSays (Moves name.now line.0 (how.Leak mask.0)) (world_change M.size M.state
        media.old media.new world.old world.new files copied copied) result }
    ensures untouched { IsUntouched (Moves name.now line.0 (how.Leak mask.0)) (M.size media.old) world.old media.old media.new }
    ensures size { M.size media.new ≡ M.size media.old }
{
    noted(world.leak(media, name, line, mask))
}

/// A host's cache brings a line, or refreshes some words of it.
pub(crate) fn fetch<M: Media>(
    world: &mut World,
    media: &mut M,
    name: &HostName,
    line: LineNo,
    mask: Mask,
) -> Result<(), EventFault>
    requires shaped { IsShaped world.old }
    requires fits { FitsMedia (M.size media.old) world.old.hosts }
    ensures says { (files : Option Files) (copied : ℕ) → CallSays (Moves name.now line.0 (how.Fetch mask.0)) (world_change M.size M.state
        media.old media.new world.old world.new files copied copied) result }
    ensures untouched { IsUntouched (Moves name.now line.0 (how.Fetch mask.0)) (M.size media.old) world.old media.old media.new }
    ensures size { M.size media.new ≡ M.size media.old }
{
    noted(world.fetch(media, name, line, mask))
}
