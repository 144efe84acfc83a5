//! Order of the fields in which paths lie, eight bytes at a time.

ghost use Rattle.std.specs.Prelude.{◌≡◌, ◌<◌, ◌*◌, ◌+◌, slice_range};
ghost use Rattle.fam_base.specs.PathOrder.{big, path_cmp};

use crate::path::PATH_LIMIT;
use std::cmp::Ordering;

/// The words of a field.
const PATH_WORDS: usize = 64;

/// Eight bytes as a number, the first one highest.
#[inline(always)]
fn word(bytes: &[u8; PATH_LIMIT], i: usize) -> u64
    requires { i < 64 }
    ensures { result ≡ big 0 (slice_range bytes.now (8 * i) (8 * i + 8)) }
{
    let at = 8 * i;
    u64::from_be_bytes([
        bytes[at],
        bytes[at + 1],
        bytes[at + 2],
        bytes[at + 3],
        bytes[at + 4],
        bytes[at + 5],
        bytes[at + 6],
        bytes[at + 7],
    ])
}

/// The order of two fields by their bytes.
#[inline]
pub(crate) fn order(a: &[u8; PATH_LIMIT], b: &[u8; PATH_LIMIT]) -> Ordering
    ensures { result ≡ path_cmp a.now b.now }
{
    for i in 0..PATH_WORDS {
        let x = word(a, i);
        let y = word(b, i);
        if x != y {
            return x.cmp(&y);
        }
    }
    Ordering::Equal
}
