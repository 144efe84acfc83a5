//! What a task asks of its command.

ghost use Rattle.std.specs.Prelude.{◌≡◌, ◌≤◌, IfOk, IsSome, MatchResult, None, Some, false, nat_lt, true};
ghost use Rattle.std.specs.Bool.{OnTrue, OnFalse};
ghost use Rattle.fam_commands.specs.Classes.{is_fsck, is_mount};
ghost use Rattle.fam_rules.specs.Decide.{wish_of};
ghost use Rattle.fam_commands.specs.Turns.{host_refusal};
ghost use Rattle.fam_tasks.specs.Commands.{content_used, is_logplay, slots_told};

use fam_base::{Cmd, Content, OutOfMemory, Params};
use fam_plan::{Refused, check_early};
use uuid::Uuid;

/// Whether a command checks the whole file system.
pub(crate) fn is_fsck(cmd: &Cmd) -> bool
    ensures { result ≡ is_fsck cmd.now }
{
    match cmd {
        Cmd::Fsck => true,
        _ => false,
    }
}

/// Whether a command lists the tree.
pub(crate) fn is_logplay(cmd: &Cmd) -> bool
    ensures { result ≡ is_logplay cmd.now }
{
    match cmd {
        Cmd::Logplay => true,
        _ => false,
    }
}

/// Whether a command is a mount.
pub(crate) fn is_mount(cmd: &Cmd) -> bool
    ensures { result ≡ is_mount cmd.now }
{
    match cmd {
        Cmd::Mount => true,
        _ => false,
    }
}

/// Whether a logplay has read all slots, where it has read those before `next`.
#[inline(always)]
pub(crate) fn plays_out(cmd: &Cmd, next: u64, gate: u64) -> bool
    ensures last { result ≡ true → gate ≤ next }
    ensures all { is_logplay cmd.now ≡ true → nat_lt next gate ≡ false → result ≡ true }
{
    if next < gate {
        return false;
    }
    is_logplay(cmd)
}

/// Whether a command appends an entry.
pub(crate) fn appends(cmd: &Cmd) -> bool
    ensures writer { OnTrue result (IsSome (wish_of cmd.now)) }
    ensures reader { OnFalse result (wish_of cmd.now ≡ None) }
{
    match cmd {
        Cmd::Mkdir { .. } => true,
        Cmd::Creat { .. } => true,
        Cmd::Cp { .. } => true,
        _ => false,
    }
}

/// How many slots a command reads: all of them, or those below the gate.
pub(crate) fn slots_told(cmd: &Cmd, params: &Params, gate: u64) -> u64
    ensures { result ≡ slots_told cmd.now params.now gate }
{
    if is_fsck(cmd) { params.slots } else { gate }
}

/// The content that a command writes or compares with, zeros where it does neither. Bytes are shared, not copied.
pub(crate) fn content_used(cmd: &Cmd) -> Result<Content, OutOfMemory>
    ensures { IfOk result (λ content. content ≡ content_used cmd.now) }
{
    match cmd.copy()? {
        Cmd::Creat { fill, .. } => Ok(fill),
        Cmd::Cp { bytes, .. } => Ok(Content::Bytes(bytes)),
        Cmd::Verify { against, .. } => Ok(against),
        _ => Ok(Content::Zero),
    }
}

/// Whether this host may go on: a command that appends is the master's, and a slot has room for its path.
pub(crate) fn check_host(cmd: &Cmd, params: &Params, me: &Uuid) -> Result<(), Refused>
    ensures { MatchResult result (λ _. host_refusal (wish_of cmd.now) params.now me.now ≡ None)
        (λ refused. host_refusal (wish_of cmd.now) params.now me.now ≡ Some refused) }
{
    match cmd {
        Cmd::Mkdir { path, .. } => check_early(params, me, path),
        Cmd::Creat { path, .. } => check_early(params, me, path),
        Cmd::Cp { path, .. } => check_early(params, me, path),
        _ => Ok(()),
    }
}
