//! Answers that nothing is appended, as the entries decide.

ghost use Rattle.std.specs.Prelude.{◌≡◌, ◌+◌, ◌↔◌, IfOk, IsTrue, Some, Err, length};
ghost use Rattle.fam_journal.specs.Legal.{DecideAllowed, FoundAllowed};
ghost use Rattle.fam_journal.specs.Past.{HostPast, finds};
ghost use Rattle.fam_rules.specs.Asks.{entries_of};
ghost use Rattle.fam_rules.specs.Decide.{decide};
ghost use Rattle.fam_rules.specs.Reply as reply;
ghost use Rattle.fam_lines.specs.Lines.{untold_of};
ghost use Rattle.fam_settled.specs.Settled.{settled_files, settled_log_state};
ghost use Rattle.fam_judging.specs.FoundLefts.{FoundLeft, PendingLeft, host_of};
ghost use Rattle.fam_judging.specs.Lefts.{LeavesEndings};
ghost use Rattle.fam_judging.specs.ReplyKinds.{IsDecidedCause};

use crate::candidate::{Settled, Stage, Track};
use crate::given::GivenImage;
use crate::lefts::{Left, Lefts, kept, none};
use crate::settled::{copy_found, let_log_go};
use fam_base::OutOfMemory;
use fam_history::ToldCommand;
use fam_lines::SeenHost;
use fam_rules::Refused;
use fam_settled::Log;
use std::alloc::Global;
use uuid::Uuid;

/// Whether these are the same cause.
fn is_same(own: &Refused, why: &Refused) -> bool
    ensures { IsTrue result ↔ (own.now ≡ why.now) }
{
    *own == *why
}

/// Whether the settled entries refuse what a command wants to append, for this cause.
fn refuses(log: &Log, me: Uuid, cmd: &ToldCommand, why: &Refused) -> bool
    ensures { IsTrue result ↔ (decide log.now.params me (entries_of (settled_files log.now)) (untold_of cmd.now) ≡ Some (Err why.now)) }
{
    match log.decide(cmd, me) {
        Some(Err(own)) => is_same(&own, why),
        _ => false,
    }
}

/// So it is where nothing pends.
fn declines(log: &Log, me: Uuid, cmd: &ToldCommand, why: &Refused) -> bool
    ensures { (host : HostPast) → host.uuid ≡ me → host.cmd ≡ Some (untold_of cmd.now)
        → IsTrue result ↔ DecideAllowed host (Err why.now) (settled_log_state log.now) }
{
    log.pending().is_none() && refuses(log, me, cmd, why)
}

/// What is left where it found so many entries.
fn found(
    alloc: Global,
    log: &Log,
    n: u64,
    seen: &SeenHost,
    cmd: &ToldCommand,
    track: &Track,
    why: &Refused,
) -> Result<Option<Left>, OutOfMemory>
    ensures { IfOk result (λ left. FoundLeft log.now n seen.now cmd.now track.now why.now left) }
{
    let Ok(log) = copy_found(alloc, log, n) else {
        return Err(OutOfMemory);
    };
    if declines(&log, seen.uuid, cmd, why) {
        Ok(Some(Left {
            settled: Settled::Log(log),
            track: *track,
        }))
    } else {
        let_log_go(log);
        Ok(None)
    }
}

/// What is left where it found the entry that pends too.
fn found_pending(
    alloc: Global,
    log: &Log,
    seen: &SeenHost,
    cmd: &ToldCommand,
    track: &Track,
    why: &Refused,
) -> Result<Option<Left>, OutOfMemory>
    ensures { IfOk result (λ left. PendingLeft log.now seen.now cmd.now track.now why.now log.now.pending left) }
{
    let slots = log.params().slots;
    log.is_settled();
    let count = log.count();
    match log.pending() {
        Some(_) => found(alloc, log, count + 1, seen, cmd, track, why),
        None => Ok(None),
    }
}

/// What is left of a command that finds entries now.
fn finding(
    alloc: Global,
    log: &Log,
    seen: &SeenHost,
    cmd: &ToldCommand,
    track: &Track,
    why: &Refused,
) -> Result<Lefts, OutOfMemory>
    ensures first { IfOk result (λ lefts. FoundLeft log.now (length log.now.entries) seen.now cmd.now track.now why.now lefts.first) }
    ensures second { IfOk result (λ lefts. PendingLeft log.now seen.now cmd.now track.now why.now log.now.pending lefts.second) }
{
    let Ok(first) = found(alloc, log, log.count(), seen, cmd, track, why) else {
        return Err(OutOfMemory);
    };
    match found_pending(alloc, log, seen, cmd, track, why) {
        Ok(second) => Ok(Lefts { first, second }),
        Err(why) => Err(why),
    }
}

/// What a refusal that the entries tell leaves.
pub(crate) fn refused_met(
    alloc: Global,
    given: &GivenImage,
    seen: &SeenHost,
    cmd: &ToldCommand,
    settled: &Settled,
    track: &Track,
    why: &Refused,
) -> Result<Lefts, OutOfMemory>
    ensures { IfOk result (λ lefts. IsDecidedCause why.now
        → LeavesEndings given.now seen.now cmd.now settled.now track.now (reply.NotAppended why.now) lefts) }
{
    let _ = given;
    let Settled::Log(log) = settled else {
        return Ok(none());
    };
    match track.stage {
        Stage::Begun | Stage::Marked => finding(alloc, log, seen, cmd, track, why),
        Stage::Met(_) => {
            let stands = declines(log, seen.uuid, cmd, why);
            kept(alloc, stands, settled, *track)
        }
        Stage::Named(_) => Ok(none()),
    }
}
