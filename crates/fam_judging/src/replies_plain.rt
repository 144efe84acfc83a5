//! Answers but those to questions, by their kind.

ghost use Rattle.std.specs.Prelude.{◌≡◌, ◌↔◌, IfOk, IsTrue};
ghost use Rattle.fam_journal.specs.Notes.{Replied};
ghost use Rattle.fam_lines.specs.Lines.{answer_of};
ghost use Rattle.fam_rules.specs.Reply as reply;
ghost use Rattle.fam_rules.specs.Reply.{Reply};
ghost use Rattle.fam_judging.specs.Lefts.{LeavesEndings};
ghost use Rattle.fam_judging.specs.PlainAnswers.{IsPlainAnswer};
ghost use Rattle.fam_judging.specs.ReplyKinds.{IsDecidedCause};
ghost use Rattle.fam_judging.specs.Told.{IsToldCommand};

use crate::candidate::{Settled, Track};
use crate::given::GivenImage;
use crate::lefts::Lefts;
use crate::replies_appended::appended;
use crate::replies_damage::{with_bad_header, with_bad_slot, without_super};
use crate::replies_decided::refused_met;
use crate::replies_refused::refused_early;
use crate::replies_reported::reported;
use fam_base::OutOfMemory;
use fam_history::ToldCommand;
use fam_lines::{HostAnswer, SeenHost};
use fam_rules::Refused;
use std::alloc::Global;

/// Whether the entries tell a refusal, and not the superblock.
fn is_decided(why: &Refused) -> bool
    ensures { IsTrue result ↔ IsDecidedCause why.now }
{
    match why {
        Refused::NotMaster { .. } | Refused::LongPath(_) => false,
        _ => true,
    }
}

/// What is left of a command that appends nothing.
pub(crate) fn refused(
    alloc: Global,
    given: &GivenImage,
    seen: &SeenHost,
    cmd: &ToldCommand,
    settled: &Settled,
    track: &Track,
    why: &Refused,
) -> Result<Lefts, OutOfMemory>
    ensures { IfOk result (λ lefts. LeavesEndings given.now seen.now cmd.now settled.now track.now (reply.NotAppended why.now) lefts) }
{
    if is_decided(why) {
        refused_met(alloc, given, seen, cmd, settled, track, why)
    } else {
        refused_early(alloc, given, seen, cmd, settled, track, why)
    }
}

/// What an answer leaves that answers no question.
pub(crate) fn plain_lefts(
    alloc: Global,
    given: &GivenImage,
    seen: &SeenHost,
    cmd: &ToldCommand,
    settled: &Settled,
    track: &Track,
    answer: &HostAnswer,
) -> Result<Lefts, OutOfMemory>
    requires told { IsToldCommand cmd.now }
    requires plain { IsPlainAnswer answer.now }
    ensures { IfOk result (λ lefts. (given_reply : Reply) → answer_of answer.now ≡ Replied given_reply
        → LeavesEndings given.now seen.now cmd.now settled.now track.now given_reply lefts) }
{
    match answer {
        HostAnswer::Appended(seq) => appended(alloc, given, seen, cmd, settled, track, *seq),
        HostAnswer::NotAppended(why) => refused(alloc, given, seen, cmd, settled, track, why),
        HostAnswer::Reports(report) => reported(alloc, given, seen, cmd, settled, track, report),
        HostAnswer::NoSuperblock(fault) => {
            without_super(alloc, given, seen, cmd, settled, track, fault)
        }
        HostAnswer::BadHeader(fault) => {
            with_bad_header(alloc, given, seen, cmd, settled, track, fault)
        }
        HostAnswer::BadSlot(i, reason) => {
            with_bad_slot(alloc, given, seen, cmd, settled, track, *i, reason)
        }
        _ => unreachable!(),
    }
}
