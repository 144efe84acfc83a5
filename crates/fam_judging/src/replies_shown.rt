//! Answers of the first entries.

ghost use Rattle.std.specs.Prelude.{◌≡◌, ◌↔◌, IfOk, IsTrue};
ghost use Rattle.fam_commands.specs.ReplyClasses.{Showing, reply_class};
ghost use Rattle.fam_rules.specs.Reply.{Reply};
ghost use Rattle.fam_lines.specs.Lines.{untold_of};
ghost use Rattle.fam_settled.specs.Told.{bare_cmd};
ghost use Rattle.fam_judging.specs.Lefts.{LeavesEndings};
ghost use Rattle.fam_judging.specs.Showing.{IsShown, IsAnswerTold, ShowsTold};

use crate::candidate::{Settled, Track};
use crate::given::GivenImage;
use crate::lefts::{Left, Lefts, none, one};
use crate::replies_damage::may_mark;
use crate::settled::let_log_go;
use fam_base::{Entry, OutOfMemory};
use fam_history::{ToldAnswer, ToldCommand};
use fam_lines::SeenHost;
use fam_settled::Log;
use std::alloc::Global;

/// Whether the first `m` entries of a log may be answered so.
fn shows_fits(
    alloc: Global,
    log: &Log,
    cmd: &ToldCommand,
    track: &Track,
    m: u64,
    answer: &ToldAnswer,
    listed: &[Entry],
) -> Result<bool, OutOfMemory>
    ensures { IfOk result (λ b. IsTrue b ↔ ShowsTold log.now m cmd.now track.now answer.now listed.now) }
{
    let Some(floor) = track.floor else {
        return Ok(false);
    };
    if m < floor {
        return Ok(false);
    }
    if m > log.all() {
        return Ok(false);
    }
    log.question_fits(alloc, m, cmd, answer, listed)
}

/// So many entries of a log are shown.
pub(crate) fn shown_log(
    alloc: Global,
    log: &Log,
    m: u64,
    track: &Track,
) -> Result<Lefts, OutOfMemory>
    ensures { IfOk result (λ lefts. IsShown log.now m track.now lefts) }
{
    let mut log = log.copy(alloc)?;
    if log.shows(m).is_err() {
        let_log_go(log);
        return Err(OutOfMemory);
    }
    Ok(one(Some(Left {
        settled: Settled::Log(log),
        track: *track,
    })))
}

/// What is left behind an answer of the first `m` entries, which tells this, with these entries in its lines.
pub(crate) fn shown(
    alloc: Global,
    given: &GivenImage,
    seen: &SeenHost,
    cmd: &ToldCommand,
    settled: &Settled,
    track: &Track,
    m: u64,
    answer: &ToldAnswer,
    listed: &[Entry],
) -> Result<Lefts, OutOfMemory>
    ensures { IfOk result (λ lefts. (reply : Reply) → reply_class reply ≡ Showing m → IsAnswerTold answer.now listed.now reply
        → untold_of cmd.now ≡ bare_cmd cmd.now → LeavesEndings given.now seen.now cmd.now settled.now track.now reply lefts) }
{
    let _ = given;
    let _ = seen;
    let Settled::Log(log) = settled else {
        return Ok(none());
    };
    if !may_mark(track.stage) {
        return Ok(none());
    }
    if !shows_fits(alloc, log, cmd, track, m, answer, listed)? {
        return Ok(none());
    }
    shown_log(alloc, log, m, track)
}
