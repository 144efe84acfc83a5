//! Answers that show something of the first entries, by what is told of them.

ghost use Rattle.std.specs.Prelude.{◌≡◌, IfOk, None, true};
ghost use Rattle.fam_format.specs.Tree.{replay};
ghost use Rattle.fam_history.specs.ToldAnswers.{answer_told};
ghost use Rattle.fam_journal.specs.Notes.{Replied};
ghost use Rattle.fam_lines.specs.Lines.{answer_of};
ghost use Rattle.fam_lines.specs.Resolved.{rise_behind};
ghost use Rattle.fam_rules.specs.Reply as reply;
ghost use Rattle.fam_rules.specs.Reply.{Reply};
ghost use Rattle.fam_judging.specs.Lefts.{LeavesEndings};
ghost use Rattle.fam_judging.specs.PlainAnswers.{IsShownAnswer, entries_in};
ghost use Rattle.fam_judging.specs.StepLines.{IsStepAnswer};
ghost use Rattle.fam_judging.specs.Told.{IsToldCommand};

use crate::candidate::{Settled, Track};
use crate::given::GivenImage;
use crate::lefts::Lefts;
use crate::replies_shown::shown;
use fam_base::{Entry, OutOfMemory, SharedBytes};
use fam_history::{ToldAnswer, ToldCommand};
use fam_lines::{HostAnswer, SeenHost};
use std::alloc::Global;

/// The same bytes, beside the others.
fn copy_bytes(alloc: Global, bytes: &SharedBytes) -> Result<SharedBytes, OutOfMemory>
    ensures { IfOk result (λ copy. copy ≡ bytes.now) }
{
    let mut copy = Vec::new(alloc);
    match copy.extend_from_slice(bytes.as_slice()) {
        Ok(()) => SharedBytes::new(alloc, copy),
        Err(_) => Err(OutOfMemory),
    }
}

/// What is told of the answer in its first line.
fn told_in(alloc: Global, answer: &HostAnswer) -> Result<ToldAnswer, OutOfMemory>
    requires shown { IsShownAnswer answer.now }
    requires answer { IsStepAnswer answer.now }
    ensures { IfOk result (λ told. told ≡ answer_told (answer_of answer.now)) }
{
    match answer {
        HostAnswer::Mounted(m) => Ok(ToldAnswer::Mounted(*m)),
        HostAnswer::Same(m) => Ok(ToldAnswer::Same(*m)),
        HostAnswer::Differs {
            entries,
            offset,
            found,
            wanted,
        } => Ok(ToldAnswer::Differs {
            entries: *entries,
            offset: *offset,
            found: *found,
            wanted: *wanted,
        }),
        HostAnswer::Length {
            entries,
            size,
            wanted,
        } => Ok(ToldAnswer::Length {
            entries: *entries,
            size: *size,
            wanted: *wanted,
        }),
        HostAnswer::Bytes(m, bytes) => match copy_bytes(alloc, bytes) {
            Ok(copy) => Ok(ToldAnswer::Bytes(*m, copy)),
            Err(why) => Err(why),
        },
        HostAnswer::NotFound(m) => Ok(ToldAnswer::NotFound(*m)),
        HostAnswer::IsDirectory(m) => Ok(ToldAnswer::IsDirectory(*m)),
        HostAnswer::Checks(m, checked) => Ok(ToldAnswer::Checked(*m, *checked)),
        _ => unreachable!(),
    }
}

/// Of how many entries it is.
fn entries_in(answer: &HostAnswer) -> u64
    requires { IsShownAnswer answer.now }
    ensures { result ≡ entries_in answer.now }
{
    match answer {
        HostAnswer::Mounted(m) => *m,
        HostAnswer::Same(m) => *m,
        HostAnswer::Differs { entries, .. } => *entries,
        HostAnswer::Length { entries, .. } => *entries,
        HostAnswer::Bytes(m, _) => *m,
        HostAnswer::NotFound(m) => *m,
        HostAnswer::IsDirectory(m) => *m,
        HostAnswer::Checks(m, _) => *m,
        _ => unreachable!(),
    }
}

/// What an answer leaves that shows something of the first entries and lists nothing.
pub(crate) fn shown_lefts(
    alloc: Global,
    given: &GivenImage,
    seen: &SeenHost,
    cmd: &ToldCommand,
    settled: &Settled,
    track: &Track,
    answer: &HostAnswer,
) -> Result<Lefts, OutOfMemory>
    requires told { IsToldCommand cmd.now }
    requires shown { IsShownAnswer answer.now }
    requires answer { IsStepAnswer answer.now }
    ensures { IfOk result (λ lefts. (given_reply : Reply) → answer_of answer.now ≡ Replied given_reply
        → LeavesEndings given.now seen.now cmd.now settled.now track.now given_reply lefts) }
{
    let m = entries_in(answer);
    let told = told_in(alloc, answer)?;
    shown(alloc, given, seen, cmd, settled, track, m, &told, &[])
}

/// What is left of a command that is answered with the tree of these entries.
pub(crate) fn played(
    alloc: Global,
    given: &GivenImage,
    seen: &SeenHost,
    cmd: &ToldCommand,
    settled: &Settled,
    track: &Track,
    m: u64,
    entries: &[Entry],
) -> Result<Lefts, OutOfMemory>
    requires told { IsToldCommand cmd.now }
    requires rises { rise_behind None entries.now ≡ true }
    ensures { IfOk result (λ lefts. LeavesEndings given.now seen.now cmd.now settled.now track.now (reply.Played m (replay entries.now)) lefts) }
{
    let told = ToldAnswer::Played(m);
    shown(alloc, given, seen, cmd, settled, track, m, &told, entries)
}
