//! What a question may be answered in place of an answer that doesn't fit.

ghost use Rattle.std.specs.Prelude.{◌≡◌, ◌↔◌, ◌≤◌, ℕ, Bool, IfOk, IfSome, IsTrue, List, Some, [], length, take};
ghost use Rattle.fam_history.specs.declared.answer.ToldAnswer.{ToldAnswer};
ghost use Rattle.fam_history.specs.ToldAnswers.{answer_told};
ghost use Rattle.fam_lines.specs.declared.line.Line.TheVariants as line;
ghost use Rattle.fam_lines.specs.Lines.{answer_of};
ghost use Rattle.fam_settled.specs.Settled.{settled_and_pending};
ghost use Rattle.fam_settled.specs.Told.{IsToldFit, bare_cmd};
ghost use Rattle.fam_judging.specs.Going.{running};
ghost use Rattle.fam_judging.specs.declared.given.GivenImage.{GivenImage};
ghost use Rattle.fam_causes.specs.Asked.{asked};
ghost use Rattle.fam_causes.specs.Bounds.{shown_count};
ghost use Rattle.fam_causes.specs.Causes.{IsCause};

use crate::answers::likely_answer;
use crate::bounds::first_to_show;
use crate::kinds::Cause;
use crate::told::told_in;
use fam_base::OutOfMemory;
use fam_history::{ToldAnswer, ToldCommand};
use fam_judging::{Candidate, Hosts};
use fam_lines::HostAnswer;
use fam_settled::Log;
use std::alloc::Global;

/// Whether the first `m` entries of a log may be answered so.
fn fits(
    alloc: Global,
    log: &Log,
    m: u64,
    cmd: &ToldCommand,
    told: &ToldAnswer,
) -> Result<bool, OutOfMemory>
    requires { m ≤ length (settled_and_pending log.now) }
    ensures { IfOk result (λ b. IsTrue b ↔ IsToldFit (take m (settled_and_pending log.now)) (bare_cmd cmd.now) told.now []) }
{
    log.question_fits(alloc, m, cmd, told, &[])
}

/// An answer that fits the question about the first `m` entries of a log.
fn fitting(
    alloc: Global,
    log: &Log,
    m: u64,
    cmd: &ToldCommand,
) -> Result<Option<ToldAnswer>, OutOfMemory>
    requires { m ≤ length (settled_and_pending log.now) }
    ensures { IfOk result (λ found. IfSome found (λ told. IsToldFit (take m (settled_and_pending log.now)) (bare_cmd cmd.now) told [])) }
{
    let Some(told) = likely_answer(alloc, log, m, cmd)? else {
        return Ok(None);
    };
    if fits(alloc, log, m, cmd, &told)? {
        Ok(Some(told))
    } else {
        Ok(None)
    }
}

/// Whether what is told of an answer is known, and doesn't fit.
fn is_unfit(
    alloc: Global,
    log: &Log,
    m: u64,
    cmd: &ToldCommand,
    answer: &HostAnswer,
) -> Result<bool, OutOfMemory>
    requires { m ≤ length (settled_and_pending log.now) }
    ensures { IfOk result (λ b. IsTrue b → IsToldFit (take m (settled_and_pending log.now)) (bare_cmd cmd.now) (answer_told (answer_of answer.now)) [] → ⊥) }
{
    let Some(told) = told_in(alloc, answer)? else {
        return Ok(false);
    };
    let fit = fits(alloc, log, m, cmd, &told)?;
    Ok(!fit)
}

/// Why an answer of `m` entries that shows something of a file can't stand, in the first candidate in which so many may be shown.
pub(crate) fn shown_cause(
    alloc: Global,
    hosts: &Hosts,
    candidates: &Vec<Candidate>,
    at: usize,
    cmd: &ToldCommand,
    answer: &HostAnswer,
    m: u64,
) -> Result<Option<Cause>, OutOfMemory>
    requires runs { running hosts.now.seen.items hosts.now.commands.items at ≡ Some cmd.now }
    requires count { shown_count answer.now ≡ Some m }
    ensures { (given : GivenImage) (marks : List ℕ) (name : List ℕ) (answers : Bool) → IfOk result (λ found. IfSome found
        (IsCause (asked given hosts.now candidates.now.items marks name answers (Some (line.Answered at answer.now))))) }
{
    let _ = hosts;
    let Some(log) = first_to_show(candidates, at, m) else {
        return Ok(None);
    };
    if !is_unfit(alloc, log, m, cmd, answer)? {
        return Ok(None);
    }
    match fitting(alloc, log, m, cmd)? {
        Some(wanted) => Ok(Some(Cause::OtherAnswer(Some(wanted)))),
        None => Ok(None),
    }
}
