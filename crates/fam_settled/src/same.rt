//! Whether two logs are the same.

ghost use Rattle.std.specs.Prelude.{◌≡◌, ◌↔◌, IsTrue, slice_get};

use crate::bytes::{Bytes, Filed};
use crate::log::Log;
use fam_plan::Plan;

/// Whether two plans have the same at place `i`: the same entry, or none.
fn have_same_entry(a: &Plan, b: &Plan, i: u64) -> bool
    ensures { IsTrue result ↔ (slice_get a.now.entries i ≡ slice_get b.now.entries i) }
{
    match (a.at(i), b.at(i)) {
        (Some(first), Some(second)) => first.is_same(&second),
        (None, None) => true,
        _ => false,
    }
}

/// Whether two plans have the same entries.
fn have_same_entries(a: &Plan, b: &Plan) -> bool
    ensures { IsTrue result ↔ (a.now.entries ≡ b.now.entries) }
{
    let count = a.count();
    if count != b.count() {
        return false;
    }
    'entries: for i in 0..count {
        if !have_same_entry(a, b, i) {
            return false;
        }
    }
    true
}

/// Whether bytes are from the same place.
fn are_same_bytes(a: &Bytes, b: &Bytes) -> bool
    ensures { IsTrue result ↔ (a.now ≡ b.now) }
{
    match (a, b) {
        (Bytes::Zero, Bytes::Zero) => true,
        (Bytes::Seed(first), Bytes::Seed(second)) => *first == *second,
        (Bytes::Held(first), Bytes::Held(second)) => first.as_slice() == second.as_slice(),
        (Bytes::Untold, Bytes::Untold) => true,
        _ => false,
    }
}

/// Whether the bytes of each file are from the same place.
fn are_from_same(a: &[Bytes], b: &[Bytes]) -> bool
    ensures { IsTrue result ↔ (a.now ≡ b.now) }
{
    if a.len() != b.len() {
        return false;
    }
    'places: for i in 0..a.len() {
        if !are_same_bytes(&a[i], &b[i]) {
            return false;
        }
    }
    true
}

/// Whether two entries are the same, with bytes from the same place.
fn is_same_filed(a: &Filed, b: &Filed) -> bool
    ensures { IsTrue result ↔ (a.now ≡ b.now) }
{
    a.entry.is_same(&b.entry) && are_same_bytes(&a.bytes, &b.bytes)
}

/// Whether the same pends, or nothing.
fn is_same_pending(a: &Option<Filed>, b: &Option<Filed>) -> bool
    ensures { IsTrue result ↔ (a.now ≡ b.now) }
{
    match (a, b) {
        (Some(first), Some(second)) => is_same_filed(first, second),
        (None, None) => true,
        _ => false,
    }
}

impl Log {
    /// Whether the other log is the same: of the same file system, with the same entries, whose bytes are from the same places, and
    /// with the same entry that pends.
    pub fn is_same(&self, other: &Log) -> bool
        ensures { IsTrue result ↔ (self.now ≡ other.now) }
    {
        *self.params() == *other.params()
            && is_same_pending(&self.pending, &other.pending)
            && have_same_entries(&self.plan, &other.plan)
            && are_from_same(self.bytes.as_slice(), other.bytes.as_slice())
    }
}
