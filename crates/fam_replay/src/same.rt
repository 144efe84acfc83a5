//! Whether the words of two slots are the same.

ghost use Rattle.std.specs.Prelude.{◌≡◌, true};

/// Whether two slots have the same words. No test waits for the one before it, so that they are made together.
pub(crate) fn same_slot(left: &[u64], right: &[u64]) -> bool
    ensures { result ≡ true → left.now ≡ right.now }
{
    if left.len() != right.len() {
        return false;
    }
    // The bits in which any two of them differ.
    let mut differences = 0;
    for k in 0..left.len() {
        differences |= left[k] ^ right[k];
    }
    differences == 0
}
