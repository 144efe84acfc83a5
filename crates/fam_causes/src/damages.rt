//! Damage that answers tell of.

ghost use Rattle.std.specs.Prelude.{◌≡◌, ◌≢◌, ◌↔◌, ◌<◌, ℕ, IfSome, IsTrue, Some, length, slice_get};
ghost use Rattle.fam_journal.specs.Past as past;
ghost use Rattle.fam_judging.specs.declared.candidate.Candidate.{Candidate as AnyCandidate};
ghost use Rattle.fam_judging.specs.Candidates.{past_damage};
ghost use Rattle.fam_judging.specs.ReplyKinds.{damage_in};
ghost use Rattle.fam_causes.specs.Differing.{damage_of, told_of_damage};

use fam_format::{LogFault, Reason, SuperFault};
use fam_history::ToldAnswer;
use fam_judging::{Candidate, Damage, GivenImage, Settled};
use fam_lines::HostAnswer;

/// Whether there is no superblock, for this fault.
fn lacks_super(given: &GivenImage, settled: &Settled, fault: &SuperFault) -> bool
    ensures { IsTrue result ↔ (damage_in given.now settled.now ≡ Some (past.NoSuperblock fault.now)) }
{
    match settled {
        Settled::Log(_) => false,
        Settled::Given => match given.damage {
            Damage::NoSuperblock(own) => own == *fault,
            _ => false,
        },
        Settled::Halted => *fault == SuperFault::NoSuper(0),
    }
}

/// Whether the header is bad, by this fault.
fn has_bad_header(given: &GivenImage, settled: &Settled, fault: &LogFault) -> bool
    ensures { IsTrue result ↔ (damage_in given.now settled.now ≡ Some (past.BadHeader fault.now)) }
{
    match settled {
        Settled::Log(_) => false,
        Settled::Given => match given.damage {
            Damage::BadHeader(own) => own == *fault,
            _ => false,
        },
        Settled::Halted => false,
    }
}

/// Whether slot `i` is the first bad one, for this reason.
fn has_bad_slot(given: &GivenImage, settled: &Settled, i: u64, reason: &Reason) -> bool
    ensures { IsTrue result ↔ (damage_in given.now settled.now ≡ Some (past.BadSlot i reason.now)) }
{
    match settled {
        Settled::Log(_) => false,
        Settled::Given => match given.damage {
            Damage::BadSlot(at, own) => at == i && own == *reason,
            _ => false,
        },
        Settled::Halted => false,
    }
}

/// Whether a state is damaged as an answer tells.
fn is_so(given: &GivenImage, settled: &Settled, answer: &HostAnswer) -> bool
    ensures { (d : past.Damage) → damage_of answer.now ≡ Some d → IsTrue result ↔ (damage_in given.now settled.now ≡ Some d) }
{
    match answer {
        HostAnswer::NoSuperblock(fault) => lacks_super(given, settled, fault),
        HostAnswer::BadHeader(fault) => has_bad_header(given, settled, fault),
        HostAnswer::BadSlot(i, reason) => has_bad_slot(given, settled, *i, reason),
        _ => false,
    }
}

/// Whether no candidate is.
pub(crate) fn is_other_damage(
    given: &GivenImage,
    candidates: &Vec<Candidate>,
    answer: &HostAnswer,
) -> bool
    ensures { (d : past.Damage) → damage_of answer.now ≡ Some d → IsTrue result
        → (k : ℕ) (c : AnyCandidate) → k < length candidates.now.items → slice_get candidates.now.items k ≡ Some c → damage_in given.now c.settled ≢ Some d }
{
    'candidates: for i in 0..candidates.len() {
        if is_so(given, &candidates[i].settled, answer) {
            return false;
        }
    }
    true
}

/// What is told of the damage of an image.
fn told_damage(damage: Damage) -> Option<ToldAnswer>
    ensures { result ≡ told_of_damage (Some (past_damage damage)) }
{
    match damage {
        Damage::FewLines(_) => None,
        Damage::NoSuperblock(fault) => Some(ToldAnswer::NoSuperblock(fault)),
        Damage::BadHeader(fault) => Some(ToldAnswer::BadHeader(fault)),
        Damage::BadSlot(i, reason) => Some(ToldAnswer::BadSlot(i, reason)),
    }
}

/// So of a state.
fn damage_told(given: &GivenImage, settled: &Settled) -> Option<ToldAnswer>
    ensures { result ≡ told_of_damage (damage_in given.now settled.now) }
{
    match settled {
        Settled::Log(_) => None,
        Settled::Given => told_damage(given.damage),
        Settled::Halted => Some(ToldAnswer::NoSuperblock(SuperFault::NoSuper(0))),
    }
}

/// So of the first candidate.
pub(crate) fn first_damage(given: &GivenImage, candidates: &Vec<Candidate>) -> Option<ToldAnswer>
    ensures { IfSome result (λ told. (c : AnyCandidate) × (slice_get candidates.now.items 0 ≡ Some c) × (told_of_damage (damage_in given.now c.settled) ≡ Some told)) }
{
    if candidates.is_empty() {
        return None;
    }
    damage_told(given, &candidates[0].settled)
}
