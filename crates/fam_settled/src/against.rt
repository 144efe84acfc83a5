//! What a file is compared with.

/// A content, of whose bytes from a source only the number is told.
#[derive(Clone, Copy)]
pub(crate) enum Against {
    Zero,
    /// The stream of this seed.
    Seed(u64),
    /// So many bytes of a source.
    Untold(u64),
}
