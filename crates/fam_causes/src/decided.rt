//! What the entries decide in place of an answer.

ghost use Rattle.std.specs.Prelude.{◌≡◌, ◌≢◌, ◌<◌, IfSome, IsTrue, length, slice_get};
ghost use Rattle.fam_history.specs.ToldAnswers.{answer_told};
ghost use Rattle.fam_lines.specs.Lines.{answer_of};
ghost use Rattle.fam_causes.specs.Differing.{DecidesIn, DecidesSo, told_decision, wrote_in};

use fam_base::Entry;
use fam_history::{ToldAnswer, ToldCommand};
use fam_judging::{Candidate, Hosts, Settled, Wrote};
use fam_lines::HostAnswer;
use fam_rules::Refused;
use fam_settled::Log;
use uuid::Uuid;

/// What is told of a decision behind so many entries.
fn told_decision(count: u64, decision: Option<Result<Entry, Refused>>) -> Option<ToldAnswer>
    ensures { result ≡ told_decision count decision }
{
    match decision {
        None => None,
        Some(Ok(_)) => Some(ToldAnswer::Ok(count)),
        Some(Err(why)) => Some(ToldAnswer::NotAppended(why)),
    }
}

/// What a host's command has named.
fn wrote_at(candidate: &Candidate, at: usize) -> Option<Wrote>
    ensures { result ≡ wrote_in (slice_get candidate.now.tracks.items at) }
{
    if at < candidate.tracks.len() {
        candidate.tracks[at].wrote
    } else {
        None
    }
}

/// What a command is answered where a host found what is settled and nothing pends.
fn decided_in(candidate: &Candidate, at: usize, cmd: &ToldCommand, me: Uuid) -> Option<ToldAnswer>
    ensures { IfSome result (λ wanted. DecidesIn me at cmd.now wanted candidate.now) }
{
    if wrote_at(candidate, at).is_some() {
        return None;
    }
    let Settled::Log(log) = &candidate.settled else {
        return None;
    };
    if log.pending().is_some() {
        return None;
    }
    told_decision(log.count(), log.decide(cmd, me))
}

/// So in the first candidate.
pub(crate) fn decided(
    hosts: &Hosts,
    candidates: &Vec<Candidate>,
    at: usize,
    cmd: &ToldCommand,
) -> Option<ToldAnswer>
    ensures { IfSome result (λ wanted. DecidesSo hosts.now.seen.items candidates.now.items at cmd.now wanted) }
{
    if candidates.is_empty() {
        return None;
    }
    if at >= hosts.seen.len() {
        return None;
    }
    decided_in(&candidates[0], at, cmd, hosts.seen[at].uuid)
}

/// Whether two refusals differ.
fn differ(why: &Refused, other: &Refused) -> bool
    ensures { IsTrue result → why.now ≢ other.now }
{
    *why != *other
}

/// Whether an answer of a command that appends is another one than this.
pub(crate) fn is_other(answer: &HostAnswer, wanted: &ToldAnswer) -> bool
    ensures { IsTrue result → answer_told (answer_of answer.now) ≢ wanted.now }
{
    match answer {
        HostAnswer::Appended(_) => match wanted {
            ToldAnswer::NotAppended(_) => true,
            _ => false,
        },
        HostAnswer::NotAppended(why) => match wanted {
            ToldAnswer::Ok(_) => true,
            ToldAnswer::NotAppended(other) => differ(why, other),
            _ => false,
        },
        _ => false,
    }
}
