//! Bytes beside others, where those that aren't told may be any. Fills that are one fill are the same at once.

ghost use Rattle.std.specs.Prelude.{◌≡◌, ◌↔◌, ◌+◌, ◌^◌, ◌<◌, ◌≤◌, IsTrue, Some, length, slice_index};
ghost use Rattle.fam_settled.specs.Bytes.{MayAgreeTo, MayHave, content_told};
ghost use Rattle.fam_settled.specs.declared.bytes.Bytes.{Bytes};
ghost use Rattle.fam_settled.specs.declared.bytes.Bytes.TheVariants as bytes;

use crate::bytes::Bytes;
use crate::contents::{content_has, have_same};
use crate::held::HeldBytes;
use fam_base::Content;
use fam_content::holds_bytes;

/// Whether both are zeros, or of one seed.
fn are_one_fill(a: &Bytes, b: &Bytes) -> bool
    ensures { IsTrue result → a.now ≡ b.now }
{
    match (a, b) {
        (Bytes::Zero, Bytes::Zero) => true,
        (Bytes::Seed(first), Bytes::Seed(second)) => *first == *second,
        _ => false,
    }
}

/// Whether two contents have the same bytes below an offset: so may bytes agree that are these.
fn contents_agree(a: &Content, b: &Content, end: u64) -> bool
    ensures { (first second : Bytes) → content_told first ≡ Some a.now → content_told second ≡ Some b.now
        → IsTrue result ↔ MayAgreeTo first second end }
{
    holds_bytes(a);
    holds_bytes(b);
    have_same(a, b, end)
}

/// Whether bytes that are a content may be the same as others below an offset.
fn content_agrees(a: &Content, b: &Bytes, end: u64) -> bool
    ensures { (first : Bytes) → content_told first ≡ Some a.now → IsTrue result ↔ MayAgreeTo first b.now end }
{
    match b {
        Bytes::Zero => contents_agree(a, &Content::Zero, end),
        Bytes::Seed(seed) => contents_agree(a, &Content::Seed(*seed), end),
        Bytes::Held(held) => contents_agree(a, held.content(), end),
        Bytes::Untold => true,
    }
}

/// Whether two fills have the same bytes below an offset, or one isn't told.
fn fills_agree(a: &Bytes, b: &Bytes, end: u64) -> bool
    ensures { IsTrue result ↔ MayAgreeTo a.now b.now end }
{
    match a {
        Bytes::Zero => content_agrees(&Content::Zero, b, end),
        Bytes::Seed(seed) => content_agrees(&Content::Seed(*seed), b, end),
        Bytes::Held(held) => content_agrees(held.content(), b, end),
        Bytes::Untold => true,
    }
}

/// Whether bytes may be the same as others below an offset.
pub(crate) fn may_agree(a: &Bytes, b: &Bytes, end: u64) -> bool
    ensures { IsTrue result ↔ MayAgreeTo a.now b.now end }
{
    are_one_fill(a, b) || fills_agree(a, b, end)
}

/// Whether all of these are zeros.
fn are_zeros(given: &[u8]) -> bool
    ensures { IsTrue result ↔ MayHave bytes.Zero 0 given.now }
{
    given.iter().all(|byte| *byte == 0)
}

/// Byte `i` of these, and zero behind them.
fn byte_or_zero(held: &[u8], i: u64) -> u8
    ensures { result ≡ slice_index held.now i }
{
    if i < held.len() as u64 {
        held[i as usize]
    } else {
        0
    }
}

/// Whether held bytes with zeros behind them are these from an offset on.
fn held_has(held: &HeldBytes, offset: u64, given: &[u8]) -> bool
    requires { offset + length given.now < 2 ^ 64 }
    ensures { IsTrue result ↔ MayHave (bytes.Held held.now) offset given.now }
{
    holds_bytes(held.content());
    let held = held.as_slice();
    'given: for i in 0..given.len() {
        if byte_or_zero(held, offset + i as u64) != given[i] {
            return false;
        }
    }
    true
}

/// Whether the bytes of a file of this size may be these from an offset on.
pub(crate) fn may_have(bytes: &Bytes, size: u64, offset: u64, given: &[u8]) -> bool
    requires { offset + length given.now ≤ size }
    ensures { IsTrue result ↔ MayHave bytes.now offset given.now }
{
    match bytes {
        Bytes::Zero => are_zeros(given),
        Bytes::Seed(seed) => content_has(&Content::Seed(*seed), size, offset, given),
        Bytes::Held(held) => held_has(held, offset, given),
        Bytes::Untold => true,
    }
}
