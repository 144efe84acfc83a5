//! How many entries may be found.

ghost use Rattle.std.specs.Prelude.{◌≡◌, ◌⊎◌, ◌↔◌, ℕ, IfSome, length, slice_get, Some};
ghost use Rattle.fam_judging.specs.declared.candidate.Candidate.{Candidate as AnyCandidate};
ghost use Rattle.fam_causes.specs.Differing.{MayFind};

use fam_judging::{Candidate, Damage, GivenImage, Settled};

/// The two counts that may be found.
fn findable(given: &GivenImage, settled: &Settled) -> Option<(u64, u64)>
    ensures { IfSome result (λ p. (n : ℕ) → MayFind given.now settled.now n ↔ ((n ≡ p.0) ⊎ (n ≡ p.1))) }
{
    match settled {
        Settled::Log(log) => Some((log.count(), log.all())),
        Settled::Given => match given.damage {
            Damage::BadSlot(_, _) => Some((given.gate, given.gate)),
            _ => None,
        },
        Settled::Halted => None,
    }
}

/// So in the only candidate, where another count is found; nothing is said where there are several.
pub(crate) fn found_other(
    given: &GivenImage,
    candidates: &Vec<Candidate>,
    n: u64,
) -> Option<(u64, u64)>
    ensures { IfSome result (λ p. (c : AnyCandidate) × (slice_get candidates.now.items 0 ≡ Some c)
        × ((m : ℕ) → MayFind given.now c.settled m ↔ ((m ≡ p.0) ⊎ (m ≡ p.1))) × (MayFind given.now c.settled n → ⊥) × (length candidates.now.items ≡ 1)) }
{
    if candidates.len() != 1 {
        return None;
    }
    let (first, second) = findable(given, &candidates[0].settled)?;
    if n == first || n == second {
        None
    } else {
        Some((first, second))
    }
}
