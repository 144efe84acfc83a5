//! Why no event is run on the file at a path.

use fam_base::LineNo;
use fam_format::{LogField, Reason, SuperField};

/// Why no event is run on the file at a path: the first of these that is so.
#[derive(Clone, Copy)]
pub enum LookFault {
    /// The image has so many lines, too few for a log.
    ImageSmall(u64),
    /// Word 0 of its line 0, which isn't the magic.
    NoSuper(u64),
    /// The first field of its superblock that fails its test.
    BadSuper {
        field: SuperField,
        found: u64,
        wanted: u64,
    },
    /// The first field of its log header, or its gate.
    BadLog {
        field: LogField,
        found: u64,
        wanted: u64,
    },
    /// The least slot that has no entry, or one that doesn't join those before it.
    BadEntry {
        seq: u64,
        reason: Reason,
    },
    /// So many entries were read, and nothing stands at the path.
    NotFound(u64),
    /// So many entries were read, and a directory stands at the path.
    IsDirectory(u64),
    /// The file has so many bytes, too few for a gate and a record.
    BoxSmall(u64),
    /// The gate counts more records than the file has room for.
    BadBox {
        gate: u64,
        capacity: u64,
    },
    /// The record of this number, below the gate, is none: the least one.
    BadRecord(u64),
    /// The media failed at this line.
    MediaFault(LineNo),
    /// No memory was left.
    OutOfMemory,
}
