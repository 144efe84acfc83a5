//! What an answer leaves, by its kind.

ghost use Rattle.std.specs.Prelude.{◌≡◌, ◌↔◌, IfOk, IsTrue};
ghost use Rattle.fam_journal.specs.Notes.{Replied};
ghost use Rattle.fam_lines.specs.Lines.{answer_of};
ghost use Rattle.fam_rules.specs.Reply.{Reply};
ghost use Rattle.fam_judging.specs.Lefts.{LeavesEndings};
ghost use Rattle.fam_judging.specs.Plain.{IsFault};
ghost use Rattle.fam_judging.specs.PlainAnswers.{IsPlainAnswer, IsShownAnswer};
ghost use Rattle.fam_judging.specs.StepLines.{IsStepAnswer};
ghost use Rattle.fam_judging.specs.Told.{IsToldCommand};

use crate::candidate::{Settled, Track};
use crate::given::GivenImage;
use crate::lefts::{Lefts, none};
use crate::replies_plain::plain_lefts;
use crate::replies_told::{played, shown_lefts};
use fam_base::OutOfMemory;
use fam_history::ToldCommand;
use fam_lines::{HostAnswer, SeenHost};
use std::alloc::Global;

/// Whether the media failed.
pub(crate) fn is_fault(answer: &HostAnswer) -> bool
    ensures { IsTrue result ↔ IsFault (answer_of answer.now) }
{
    match answer {
        HostAnswer::MediaFault(_) => true,
        _ => false,
    }
}

/// Whether an answer appends, declines, reports or tells of damage.
fn is_plain(answer: &HostAnswer) -> bool
    ensures { IsTrue result ↔ IsPlainAnswer answer.now }
{
    match answer {
        HostAnswer::Appended(_) | HostAnswer::NotAppended(_) | HostAnswer::Reports(_) => true,
        HostAnswer::NoSuperblock(_) | HostAnswer::BadHeader(_) | HostAnswer::BadSlot(_, _) => true,
        _ => false,
    }
}

/// Whether it shows something of the first entries and lists none of them.
fn is_shown(answer: &HostAnswer) -> bool
    ensures { IsTrue result ↔ IsShownAnswer answer.now }
{
    match answer {
        HostAnswer::Mounted(_) | HostAnswer::Same(_) | HostAnswer::Differs { .. } => true,
        HostAnswer::Length { .. } | HostAnswer::Bytes(_, _) | HostAnswer::NotFound(_) => true,
        HostAnswer::IsDirectory(_) | HostAnswer::Checks(_, _) => true,
        _ => false,
    }
}

/// What an answer leaves, where it is a reply.
pub(crate) fn answer_lefts(
    alloc: Global,
    given: &GivenImage,
    seen: &SeenHost,
    cmd: &ToldCommand,
    settled: &Settled,
    track: &Track,
    answer: &HostAnswer,
) -> Result<Lefts, OutOfMemory>
    requires told { IsToldCommand cmd.now }
    requires answer { IsStepAnswer answer.now }
    ensures { IfOk result (λ lefts. (given_reply : Reply) → answer_of answer.now ≡ Replied given_reply
        → LeavesEndings given.now seen.now cmd.now settled.now track.now given_reply lefts) }
{
    if is_plain(answer) {
        return plain_lefts(alloc, given, seen, cmd, settled, track, answer);
    }
    if is_shown(answer) {
        return shown_lefts(alloc, given, seen, cmd, settled, track, answer);
    }
    match answer {
        HostAnswer::Played(m, entries) => played(
            alloc,
            given,
            seen,
            cmd,
            settled,
            track,
            *m,
            entries.as_slice(),
        ),
        _ => Ok(none()),
    }
}
