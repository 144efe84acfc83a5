//! What states agree on.

ghost use Rattle.std.specs.Prelude.{◌≡◌, ◌<◌, ◌↔◌, ℕ, Bool, IfSome, IsTrue, Some, length};
ghost use Rattle.fam_verdict.specs.Agreeing.{AllCountIn, AllPendIn};
ghost use Rattle.fam_verdict.specs.Known.{count_in, pends_in};

use fam_judging::{Candidate, Settled};

/// How many entries are settled.
fn count_in(settled: &Settled) -> u64
    ensures { result ≡ count_in settled.now }
{
    match settled {
        Settled::Log(log) => log.count(),
        Settled::Given => 0,
        Settled::Halted => 0,
    }
}

/// Whether one more pends.
fn pends_in(settled: &Settled) -> bool
    ensures { result ≡ pends_in settled.now }
{
    match settled {
        Settled::Log(log) => log.pending().is_some(),
        Settled::Given => false,
        Settled::Halted => false,
    }
}

/// Whether both are so, or neither is.
fn are_same(a: bool, b: bool) -> bool
    ensures { IsTrue result ↔ (a ≡ b) }
{
    if a { b } else { !b }
}

/// How many entries are settled, where that is the same in all of these.
pub(crate) fn settled_in(candidates: &Vec<Candidate>) -> Option<u64>
    requires { 0 < length candidates.now.items }
    ensures all { IfSome result (λ n. AllCountIn candidates.now.items n) }
    ensures told { (n : ℕ) → AllCountIn candidates.now.items n → result ≡ Some n }
{
    let count = count_in(&candidates[0].settled);
    'counts: for i in 0..candidates.len() {
        if count_in(&candidates[i].settled) != count {
            return None;
        }
    }
    Some(count)
}

/// Whether one more pends, where that is the same in all of these.
pub(crate) fn pending_in(candidates: &Vec<Candidate>) -> Option<bool>
    requires { 0 < length candidates.now.items }
    ensures all { IfSome result (λ b. AllPendIn candidates.now.items b) }
    ensures told { (b : Bool) → AllPendIn candidates.now.items b → result ≡ Some b }
{
    let pends = pends_in(&candidates[0].settled);
    'states: for i in 0..candidates.len() {
        if !are_same(pends_in(&candidates[i].settled), pends) {
            return None;
        }
    }
    Some(pends)
}
