//! Which calls of a form in memory are to fail.

ghost use Rattle.std.specs.Prelude.{◌≡◌};
ghost use Rattle.fam_media.specs.Plans.{is_planned, planned};

/// What was planned last for the call with that number.
pub fn find_planned<T: Copy>(plan: &[(u64, T)], call: u64) -> Option<T>
    ensures { result ≡ planned plan.now call }
{
    for p in plan {
        if p.0 == call {
            return Some(p.1);
        }
    }
    None
}

/// Is the call with that number among those that are to fail?
pub fn has_planned(plan: &[u64], call: u64) -> bool
    ensures { result ≡ is_planned plan.now call }
{
    for p in plan {
        if *p == call {
            return true;
        }
    }
    false
}
