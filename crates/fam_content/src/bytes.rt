//! Bytes are below 256, which a contract that has them as numbers doesn't see. A call does nothing.

ghost use Rattle.std.specs.Prelude.{ℕ, ◌<◌, slice_index};
ghost use Rattle.fam_rules.specs.Content.{HoldsBytes};

use fam_base::Content;

/// Bytes are below 256.
pub fn are_bytes(bytes: &[u8])
    ensures { (i : ℕ) → slice_index bytes.now i < 256 }
{
    let _ = bytes;
}

/// So are those of a content.
pub fn holds_bytes(content: &Content)
    ensures { HoldsBytes content.now }
{
    match content {
        Content::Bytes(bytes) => are_bytes(bytes.as_slice()),
        Content::Seed(_) => {}
        Content::Zero => {}
    }
}
