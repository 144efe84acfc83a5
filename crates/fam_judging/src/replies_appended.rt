//! Answers that an entry is appended.

ghost use Rattle.std.specs.Prelude.{◌↔◌, IfOk, IsTrue};
ghost use Rattle.fam_settled.specs.Settled.{settled_log_state};
ghost use Rattle.fam_journal.specs.Legal.{AppendedAllowed};
ghost use Rattle.fam_journal.specs.Past.{acknowledges};
ghost use Rattle.fam_rules.specs.Reply as reply;
ghost use Rattle.fam_judging.specs.FoundLefts.{host_of};
ghost use Rattle.fam_judging.specs.Lefts.{AtMostOne, LeavesEndings};
ghost use Rattle.fam_judging.specs.NamedLefts.{AcknowledgedLeft, FoundNamed, IsAcknowledgedLeft, NamedLeft};
ghost use Rattle.fam_judging.specs.Told.{IsToldCommand};

use crate::candidate::{Settled, Stage, Track, Wrote};
use crate::given::GivenImage;
use crate::lefts::{Left, Lefts, none};
use crate::naming::name_log;
use crate::settled::{copy_found, let_log_go};
use fam_base::OutOfMemory;
use fam_history::ToldCommand;
use fam_lines::SeenHost;
use fam_settled::Log;
use std::alloc::Global;

/// What is left of a command, where entry `seq` is acknowledged.
fn left_acknowledged(mut log: Log, seq: u64, track: Track) -> Result<Lefts, OutOfMemory>
    ensures { IfOk result (λ lefts. AtMostOne (IsAcknowledgedLeft log seq track) lefts) }
{
    if log.acknowledge(seq).is_err() {
        let_log_go(log);
        return Err(OutOfMemory);
    }
    Ok(Lefts {
        first: Some(Left {
            settled: Settled::Log(log),
            track,
        }),
        second: None,
    })
}

/// Where a command found what is settled, what is left behind entry `seq` of it.
fn named(
    mut log: Log,
    seen: &SeenHost,
    cmd: &ToldCommand,
    seq: u64,
    track: &Track,
) -> Result<Lefts, OutOfMemory>
    requires { IsToldCommand cmd.now }
    ensures { IfOk result (λ lefts. AtMostOne (NamedLeft log seq seen.now cmd.now track.now) lefts) }
{
    match name_log(&mut log, cmd, seen.uuid, seq) {
        Some(entry) => {
            let track = Track {
                wrote: Some(Wrote { seq, entry }),
                ..*track
            };
            left_acknowledged(log, seq, track)
        }
        None => {
            let_log_go(log);
            Ok(none())
        }
    }
}

/// Whether the entry that a command named may be acknowledged.
fn is_acknowledged(log: &Log, seen: &SeenHost, cmd: &ToldCommand, track: &Track, seq: u64) -> bool
    ensures { IsTrue result ↔ AppendedAllowed seq (host_of seen.now cmd.now track.now) (acknowledges seq (settled_log_state log.now)) }
{
    let _ = seen;
    let _ = cmd;
    match track.wrote {
        Some(wrote) => log.acknowledged_fits(seq, wrote.seq, &wrote.entry),
        None => false,
    }
}

/// What is left where it is.
fn acknowledged(
    alloc: Global,
    log: &Log,
    seen: &SeenHost,
    cmd: &ToldCommand,
    track: &Track,
    seq: u64,
) -> Result<Lefts, OutOfMemory>
    ensures { IfOk result (λ lefts. AtMostOne (AcknowledgedLeft log.now seq seen.now cmd.now track.now) lefts) }
{
    if !is_acknowledged(log, seen, cmd, track, seq) {
        return Ok(none());
    }
    let log = log.copy(alloc)?;
    left_acknowledged(log, seq, *track)
}

/// What is left behind entry `seq` of a command that finds so many entries now, where it may find them.
fn found_named(
    alloc: Global,
    log: &Log,
    seen: &SeenHost,
    cmd: &ToldCommand,
    track: &Track,
    seq: u64,
) -> Result<Lefts, OutOfMemory>
    requires { IsToldCommand cmd.now }
    ensures { IfOk result (λ lefts. AtMostOne (FoundNamed log.now seq seen.now cmd.now track.now) lefts) }
{
    if !log.found_fits(seq) {
        return Ok(none());
    }
    let log = copy_found(alloc, log, seq)?;
    named(log, seen, cmd, seq, track)
}

/// What is left of a command that has named no entry yet, where it is told how many it found.
fn met_named(
    alloc: Global,
    log: &Log,
    seen: &SeenHost,
    cmd: &ToldCommand,
    track: &Track,
    seq: u64,
) -> Result<Lefts, OutOfMemory>
    requires { IsToldCommand cmd.now }
    ensures { IfOk result (λ lefts. AtMostOne (NamedLeft log.now seq seen.now cmd.now track.now) lefts) }
{
    let log = log.copy(alloc)?;
    named(log, seen, cmd, seq, track)
}

/// What an answer leaves that entry `seq` is appended.
pub(crate) fn appended(
    alloc: Global,
    given: &GivenImage,
    seen: &SeenHost,
    cmd: &ToldCommand,
    settled: &Settled,
    track: &Track,
    seq: u64,
) -> Result<Lefts, OutOfMemory>
    requires { IsToldCommand cmd.now }
    ensures { IfOk result (λ lefts. LeavesEndings given.now seen.now cmd.now settled.now track.now (reply.Appended seq) lefts) }
{
    let _ = given;
    let Settled::Log(log) = settled else {
        return Ok(none());
    };
    match track.stage {
        Stage::Begun | Stage::Marked => { found_named(alloc, log, seen, cmd, track, seq) }
        Stage::Met(n) => {
            if n != seq {
                return Ok(none());
            }
            met_named(alloc, log, seen, cmd, track, seq)
        }
        Stage::Named(n) => {
            if n != seq {
                return Ok(none());
            }
            acknowledged(alloc, log, seen, cmd, track, seq)
        }
    }
}
