//! What a mkfs is asked for.

use uuid::Uuid;

/// What a mkfs is asked for. Lengths are in bytes.
#[derive(Clone, Copy)]
pub struct MkfsRequest {
    /// The UUID of the file system (RFC 9562).
    pub fs: Uuid,
    /// The bytes of an allocation unit.
    pub unit: u64,
    /// The bytes of the log with its header.
    pub log: u64,
    /// The shape of the slots: 1 or 2.
    pub format: u64,
    /// Whether a file system that stands there is written over.
    pub force: bool,
    /// After so many operations the maker halts: after 80 where the number is greater, and never before the 27 that
    /// read. None: it does all.
    pub halt: Option<u64>,
}
