//! Words of zero at the front of others.

ghost use Rattle.std.specs.Prelude.{◌≡◌, ◌∷◌, IfSome};

/// What stands behind three words of zero, where the words begin with these.
#[inline(always)]
pub(crate) fn behind_three(words: &[u64]) -> Option<&[u64]>
    ensures { IfSome result (λ behind. words.now ≡ 0 ∷ 0 ∷ 0 ∷ behind.now) }
{
    match words {
        [0, 0, 0, behind @ ..] => Some(behind),
        _ => None,
    }
}

/// What stands behind thirteen words of zero, where the words begin with these. No test waits for the one before it, so
/// that they are made together.
#[inline(always)]
pub(crate) fn behind_thirteen(words: &[u64]) -> Option<&[u64]>
    ensures { IfSome result (λ behind. words.now ≡
        0 ∷ 0 ∷ 0 ∷ 0 ∷ 0 ∷ 0 ∷ 0 ∷ 0 ∷ 0 ∷ 0 ∷ 0 ∷ 0 ∷ 0 ∷ behind.now) }
{
    match words {
        [a, b, c, d, e, f, g, h, i, j, k, l, m, behind @ ..] => {
            let are_zero = (*a == 0)
                & (*b == 0)
                & (*c == 0)
                & (*d == 0)
                & (*e == 0)
                & (*f == 0)
                & (*g == 0)
                & (*h == 0)
                & (*i == 0)
                & (*j == 0)
                & (*k == 0)
                & (*l == 0)
                & (*m == 0);
            if are_zero { Some(behind) } else { None }
        }
        _ => None,
    }
}

/// What stands behind sixteen words of zero, where the words begin with these.
#[inline(always)]
pub(crate) fn behind_sixteen(words: &[u64]) -> Option<&[u64]>
    ensures { IfSome result (λ behind. words.now ≡
        0 ∷ 0 ∷ 0 ∷ 0 ∷ 0 ∷ 0 ∷ 0 ∷ 0 ∷ 0 ∷ 0 ∷ 0 ∷ 0 ∷ 0 ∷ 0 ∷ 0 ∷ 0 ∷ behind.now) }
{
    behind_thirteen(behind_three(words)?)
}
