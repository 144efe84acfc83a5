//! Order of lists of bytes, eight bytes at a time.

ghost use Rattle.std.specs.Prelude.{◌≡◌, ◌+◌, ◌≤◌, IfSome, length, min, slice_range};
ghost use Rattle.fam_base.specs.PathOrder.{big, path_cmp};
ghost use Rattle.fam_tree.specs.Ends.{AreEnds};

use std::cmp::Ordering;

/// The bytes of a word.
const WORD: usize = 8;

/// Eight bytes from byte `at` on as a number, the first one highest.
#[inline(always)]
fn word(bytes: &[u8], at: usize) -> u64
    requires { at + 8 ≤ length bytes.now }
    ensures { result ≡ big 0 (slice_range bytes.now at (at + 8)) }
{
    u64::from_be_bytes([
        bytes[at],
        bytes[at + 1],
        bytes[at + 2],
        bytes[at + 3],
        bytes[at + 4],
        bytes[at + 5],
        bytes[at + 6],
        bytes[at + 7],
    ])
}

/// The order of two lists of bytes, of which one has fewer than a word's: byte by byte.
#[cold]
#[inline(never)]
fn order_short(a: &[u8], b: &[u8]) -> Ordering
    ensures { result ≡ path_cmp a.now b.now }
{
    let both = a.len().min(b.len());
    for i in 0..both {
        let x = a[i];
        let y = b[i];
        if x != y {
            return x.cmp(&y);
        }
    }
    a.len().cmp(&b.len())
}

/// The order of two lists of bytes of a word or more: by their words, the last of which may begin within the one before
/// it.
#[inline(never)]
fn order_long(a: &[u8], b: &[u8]) -> Ordering
    requires a { 8 ≤ length a.now }
    requires b { 8 ≤ length b.now }
    ensures { result ≡ path_cmp a.now b.now }
{
    let both = a.len().min(b.len());
    let last = both - WORD;
    let mut at = 0;
    while at < last {
        let x = word(a, at);
        let y = word(b, at);
        if x != y {
            return x.cmp(&y);
        }
        at += WORD;
    }
    let x = word(a, last);
    let y = word(b, last);
    if x != y {
        return x.cmp(&y);
    }
    a.len().cmp(&b.len())
}

/// The order of two lists of bytes. Two words, which may overlap, tell it for most paths.
#[inline(always)]
fn order(a: &[u8], b: &[u8]) -> Ordering
    ensures { result ≡ path_cmp a.now b.now }
{
    let both = a.len().min(b.len());
    if both < WORD {
        return order_short(a, b);
    }
    let x = word(a, 0);
    let y = word(b, 0);
    if x != y {
        return x.cmp(&y);
    }
    if both > 2 * WORD {
        return order_long(a, b);
    }
    let x = word(a, both - WORD);
    let y = word(b, both - WORD);
    if x != y {
        return x.cmp(&y);
    }
    a.len().cmp(&b.len())
}

/// The words at the two ends of a list of bytes, which may overlap, where they hold all of it.
#[derive(Clone, Copy)]
pub(crate) struct Ends {
    first: u64,
    last: u64,
}

/// The ends of a list of bytes that has one or two words.
#[inline(always)]
pub(crate) fn ends_of(bytes: &[u8]) -> Option<Ends>
    ensures { IfSome result (λ ends. AreEnds bytes.now ends.first ends.last) }
{
    if bytes.len() < WORD || bytes.len() > 2 * WORD {
        return None;
    }
    Some(Ends {
        first: word(bytes, 0),
        last: word(bytes, bytes.len() - WORD),
    })
}

/// The order of a list of bytes and another no longer one, of which these are the ends.
#[inline(always)]
fn order_ends(a: &[u8], b: &[u8], ends: Ends) -> Ordering
    requires ends { AreEnds b.now ends.first ends.last }
    requires long { length b.now ≤ length a.now }
    ensures { result ≡ path_cmp a.now b.now }
{
    let x = word(a, 0);
    if x != ends.first {
        return x.cmp(&ends.first);
    }
    let x = word(a, b.len() - WORD);
    if x != ends.last {
        return x.cmp(&ends.last);
    }
    a.len().cmp(&b.len())
}

/// The order of two lists of bytes, of which the other may have its ends known.
#[inline(always)]
pub(crate) fn order_by(a: &[u8], b: &[u8], ends: Option<Ends>) -> Ordering
    requires { IfSome ends (λ ends. AreEnds b.now ends.first ends.last) }
    ensures { result ≡ path_cmp a.now b.now }
{
    match ends {
        Some(ends) if b.len() <= a.len() => order_ends(a, b, ends),
        _ => order(a, b),
    }
}
