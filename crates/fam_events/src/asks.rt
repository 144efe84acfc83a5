//! Commands that begin, with the bytes of their sources.

ghost use Rattle.std.specs.Prelude.{◌≡◌, ◌≤◌, length, ℕ, IfErr, IfOk, OnErr, OnOk, Option, None, true};
ghost use Rattle.fam_base.specs.Commands.{IsSoundCmd};
ghost use Rattle.fam_base.specs.declared.cmd.Cmd.{Cmd as Command};
ghost use Rattle.fam_base.specs.Image.{Image};
ghost use Rattle.fam_rules.specs.Decide.{wish_of};
ghost use Rattle.fam_world.specs.Concluded.{ReadsOf};
ghost use Rattle.fam_journal.specs.CallRecords.{FitsMedia};
ghost use Rattle.fam_journal.specs.CallRecords.{WorldCall};
ghost use Rattle.fam_journal.specs.Calls.{Begins, Refuses};
ghost use Rattle.fam_journal.specs.ByWorld.{refusal_in};
ghost use Rattle.fam_journal.specs.Events.{mounts};
ghost use Rattle.fam_commands.specs.Classes.{is_mount};
ghost use Rattle.fam_journal.specs.Shapes.{IsShaped};
ghost use Rattle.fam_grammar.specs.Sound.{IsSoundAsk};
ghost use Rattle.fam_protocol.specs.Tasks.{IsCommand};
ghost use Rattle.fam_tasks.specs.Sound.{most_lines};
ghost use Rattle.fam_media.specs.Causes.{IsShelfSteady};
ghost use Rattle.fam_media.specs.Outside.{IfModelled};
ghost use Rattle.fam_media.specs.States.{change};
ghost use Rattle.fam_events.specs.WorldChange.{asking};
ghost use Rattle.fam_events.specs.Begins.{AskSays};
ghost use Rattle.fam_events.specs.Last.{AsksToRead};
ghost use Rattle.fam_events.specs.Rested.{IsRested, IsUnstoredOf};
ghost use Rattle.fam_events.specs.declared.asks.Asked.TheVariants.{Begun, Refused};
ghost use Rattle.fam_events.specs.declared.fault.EventFault.TheVariants.{OutOfMemory};

use crate::fault::EventFault;
use fam_base::{Cmd, HostName};
use fam_journal::{Ask, Refusal};
use fam_media::Shelf;
use fam_protocol::is_command;
use fam_sources::{Sourced, resolve};
use fam_world::{World, WorldFault};
use std::alloc::Global;

/// What came of telling a host to begin what it is asked for.
#[derive(Clone, Copy)]
pub(crate) enum Asked {
    /// It is refused, and the journal says so.
    Refused,
    /// The command begins.
    Begun,
}

/// Whether a mount is asked for.
fn mounts(what: &Ask) -> bool
    ensures { result ≡ mounts what.now }
{
    match what {
        Ask::Plain(Cmd::Mount) => true,
        _ => false,
    }
}

/// Whether a command only reads.
fn reads(cmd: &Cmd) -> bool
    ensures { result ≡ true → wish_of cmd.now ≡ None }
{
    match cmd {
        Cmd::Mkdir { .. } | Cmd::Creat { .. } | Cmd::Cp { .. } => false,
        _ => true,
    }
}

/// Whether the command that is asked for only reads, whatever its source has.
pub(crate) fn asks_to_read(what: &Ask) -> bool
    ensures { result ≡ true → AsksToRead what.now }
{
    match what {
        Ask::Plain(cmd) => reads(cmd),
        Ask::Cp { .. } => false,
        Ask::VerifySource { .. } | Ask::Check { .. } => true,
    }
}

/// Notes that nothing begins.
fn refuse(world: &mut World, name: &HostName, cause: Refusal) -> Result<Asked, EventFault>
    ensures done { (lines : ℕ) → IfOk result (λ asked. (asked ≡ Refused)
        × WorldCall (Refuses name.now cause) lines None world.old world.new) }
    ensures refused { IfOk result (λ asked. asked ≡ Refused) }
    ensures err { IfErr result (λ fault. fault ≡ OutOfMemory) }
    ensures undone { OnErr result (world.new ≡ world.old) }
{
    match world.refuse(name, cause) {
        Ok(()) => Ok(Asked::Refused),
        Err(_) => Err(EventFault::OutOfMemory),
    }
}

/// Begins a command, which nothing stands against.
fn start(world: &mut World, lines: u64, name: &HostName, cmd: &Cmd) -> Result<Asked, EventFault>
    requires command { IsSoundCmd cmd.now }
    requires most { lines ≤ most_lines }
    requires free { refusal_in (Begins name.now cmd.now) world.old lines ≡ None }
    ensures command { IsCommand cmd.now }
    ensures done { IfOk result (λ asked. (asked ≡ Begun)
        × WorldCall (Begins name.now cmd.now) lines None world.old world.new) }
    ensures unstored { OnOk result (IsRested world.old → IsUnstoredOf name.now world.old world.new) }
    ensures reads { OnOk result (wish_of cmd.now ≡ None → ReadsOf name.now world.old world.new) }
    ensures err { IfErr result (λ fault. fault ≡ OutOfMemory) }
    ensures undone { OnErr result (world.new ≡ world.old) }
{
    is_command(cmd);
    match world.begin(lines, name, cmd) {
        Ok(()) => Ok(Asked::Begun),
        Err(WorldFault::Refused(_)) => unreachable!(),
        Err(WorldFault::OutOfMemory) => Err(EventFault::OutOfMemory),
    }
}

/// Begins what a host is asked for, which nothing stands against but its source.
fn read<S: Shelf>(
    alloc: Global,
    world: &mut World,
    shelf: &mut S,
    copied: &mut u64,
    lines: u64,
    name: &HostName,
    what: Ask,
) -> Result<Asked, EventFault>
    requires sound { IsSoundAsk what }
    requires most { lines ≤ most_lines }
    requires shaped { IsShaped world.old }
    requires free { (cmd : Command) → is_mount cmd ≡ mounts what
        → refusal_in (Begins name.now cmd) world.old lines ≡ None }
    ensures says { (told : Option Image) (faults : ℕ) → IfModelled told (λ image. length image ≡ lines)
        → FitsMedia lines world.old.hosts
        → AskSays name.now what (change S.state shelf.old shelf.new) (asking lines world.old world.new
        told faults (S.state shelf.old).files copied.old copied.new) result }
    ensures unstored { IfOk result (λ asked. asked ≡ Begun → IsRested world.old
        → IsUnstoredOf name.now world.old world.new) }
    ensures reads { IfOk result (λ asked. asked ≡ Begun → AsksToRead what → ReadsOf name.now world.old world.new) }
    ensures steady { IsShelfSteady (S.state shelf.old) (S.state shelf.new) }
{
    let Ok(resolved) = resolve(alloc, shelf, what, *copied) else {
        return Err(EventFault::OutOfMemory);
    };
    let now = resolved.copied;
    match resolved.sourced {
        Sourced::Ready(cmd) => {
            *copied = now;
            start(world, lines, name, &cmd)
        }
        Sourced::Unfit(cause) => {
            *copied = now;
            refuse(world, name, cause)
        }
        Sourced::Ended(end) => Err(EventFault::SourceEnded(end)),
    }
}

/// Tells a host to begin what it is asked for: `NoHost`, `ImageSmall` and `Busy` are tried first, and `Mounted` of a
/// mount, and then its source is read. `copied` bytes of sources were read before, and are told behind it.
pub(crate) fn ask<S: Shelf>(
    alloc: Global,
    world: &mut World,
    shelf: &mut S,
    copied: &mut u64,
    lines: u64,
    name: &HostName,
    what: Ask,
) -> Result<Asked, EventFault>
    requires sound { IsSoundAsk what }
    requires most { lines ≤ most_lines }
    requires shaped { IsShaped world.old }
    ensures says { (told : Option Image) (faults : ℕ) → IfModelled told (λ image. length image ≡ lines)
        → FitsMedia lines world.old.hosts
        → AskSays name.now what (change S.state shelf.old shelf.new) (asking lines world.old world.new
        told faults (S.state shelf.old).files copied.old copied.new) result }
    ensures unstored { IfOk result (λ asked. asked ≡ Begun → IsRested world.old
        → IsUnstoredOf name.now world.old world.new) }
    ensures reads { IfOk result (λ asked. asked ≡ Begun → AsksToRead what → ReadsOf name.now world.old world.new) }
    ensures free { IfOk result (λ asked. asked ≡ Begun
        → (cmd : Command) → is_mount cmd ≡ mounts what → refusal_in (Begins name.now cmd) world.old lines ≡ None) }
    ensures steady { IsShelfSteady (S.state shelf.old) (S.state shelf.new) }
{
    match world.may_begin(lines, name, mounts(&what)) {
        Ok(()) => read(alloc, world, shelf, copied, lines, name, what),
        Err(cause) => refuse(world, name, cause),
    }
}
