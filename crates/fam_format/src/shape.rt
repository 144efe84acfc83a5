//! The shape of a slot, by the number of its format.

ghost use Rattle.std.specs.Prelude.{◌≡◌, ◌≤◌};
ghost use Rattle.fam_format.specs.Layout as layout;
ghost use Rattle.fam_format.specs.Params as params;

/// The most words that a slot has, whatever its format.
pub const MOST_SLOT_WORDS: usize = 128;

/// Slots of 512 bytes, with paths of up to 168.
pub const FIRST_FORMAT: u64 = 1;

/// Slots of 1,024 bytes, with paths of up to 512.
pub const SECOND_FORMAT: u64 = 2;

/// How large a slot of the log is, and the part of the log before its first slot.
#[derive(Clone, Copy, Debug, PartialEq, Eq)]
pub struct Shape {
    /// The words of a slot, its checksum included.
    pub words: usize,
    /// The lines of a slot.
    pub lines: u64,
    /// The bytes of a slot.
    pub bytes: u64,
    /// The most bytes of a path.
    pub path_limit: usize,
}

const FIRST_SHAPE: Shape = Shape {
    words: 64,
    lines: 8,
    bytes: 512,
    path_limit: 168,
};

const SECOND_SHAPE: Shape = Shape {
    words: 128,
    lines: 16,
    bytes: 1024,
    path_limit: 512,
};

/// Whether file systems are made and read in the format of this number.
#[inline(always)]
pub fn is_format(format: u64) -> bool
    ensures { result ≡ params.is_format format }
{
    format == FIRST_FORMAT || format == SECOND_FORMAT
}

/// The shape of a format's slots.
#[inline(always)]
#[tactic(auto, unfolding(crate::specs::Layout::shape_of))]
pub fn shape_of(format: u64) -> Shape
    ensures words { result.words ≡ (layout.shape_of format).words }
    ensures lines { result.lines ≡ (layout.shape_of format).lines }
    ensures bytes { result.bytes ≡ (layout.shape_of format).bytes }
    ensures path { result.path_limit ≡ (layout.shape_of format).path_limit }

    ensures least { 64 ≤ result.words }
    ensures most { result.words ≤ MOST_SLOT_WORDS }
    ensures some { 8 ≤ result.lines }
    ensures at_most { result.lines ≤ 16 }
    ensures few { 512 ≤ result.bytes }
    ensures many { result.bytes ≤ 1024 }
{
    if format == SECOND_FORMAT {
        SECOND_SHAPE
    } else {
        FIRST_SHAPE
    }
}
