//! The parent of a path, by the bytes of both.

ghost use Rattle.std.specs.Prelude.{◌≡◌, ◌≢◌, ℕ, ◌<◌, ◌≤◌, length, option_map, slice_index};
ghost use Rattle.std.specs.Bool.{OnTrue};
ghost use Rattle.fam_base.specs.Paths.{parent_of, slash};

/// Whether bytes begin with eight that are no slash. No test waits for the one before it, so that they are made together.
#[inline(always)]
fn begin_in_name(bytes: &[u8]) -> bool
    ensures long { OnTrue result (8 ≤ length bytes.now) }
    ensures none { OnTrue result ((k : ℕ) → k < 8 → slice_index bytes.now k ≢ slash) }
{
    match bytes {
        [a, b, c, d, e, f, g, h, ..] => {
            (*a != b'/')
                & (*b != b'/')
                & (*c != b'/')
                & (*d != b'/')
                & (*e != b'/')
                & (*f != b'/')
                & (*g != b'/')
                & (*h != b'/')
        }
        _ => false,
    }
}

/// A place behind which no slash stands, found by eight bytes at a time.
#[inline(always)]
fn place_in_name(bytes: &[u8]) -> usize
    ensures within { result ≤ length bytes.now }
    ensures none { (k : ℕ) → result ≤ k → k < length bytes.now → slice_index bytes.now k ≢ slash }
{
    let mut end = bytes.len();
    while end >= 8 && begin_in_name(&bytes[end - 8..]) {
        end -= 8;
    }
    end
}

/// The bytes of the parent of a path. A path of one name has none.
pub(crate) fn parent_in(path: &[u8]) -> Option<&[u8]>
    ensures { option_map (λ parent. parent.now) result ≡ parent_of path.now }
{
    let end = place_in_name(path);
    if end < 8 && begin_in_name(path) {
        return None;
    }
    for i in (0..end).rev() {
        if path[i] == b'/' {
            return Some(&path[..i]);
        }
    }
    None
}
