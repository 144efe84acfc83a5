//! Why superblock, log or slot doesn't read.

use fam_base::Kind;

/// A field of the superblock, in the order in which a reader tests them.
#[derive(Clone, Copy, Debug, PartialEq, Eq)]
pub enum SuperField {
    Crc,
    Version,
    Offset,
    Unit,
    Length,
    Device,
    Small,
    Rest,
}

/// A field of the log's header, in the order in which a reader tests them; the gate is the last.
#[derive(Clone, Copy, Debug, PartialEq, Eq)]
pub enum LogField {
    Magic,
    Crc,
    Length,
    Slots,
    Uuid,
    Rest,
    Gate,
}

/// Why there is no superblock to be read.
#[derive(Clone, Copy, Debug, PartialEq, Eq)]
pub enum SuperFault {
    /// Word 0 of line 0, which isn't the magic.
    NoSuper(u64),
    /// The first field that fails its test.
    BadSuper {
        field: SuperField,
        found: u64,
        wanted: u64,
    },
}

/// Why the log can't be read.
#[derive(Clone, Copy, Debug, PartialEq, Eq)]
pub enum LogFault {
    /// The first field that fails its test.
    BadLog {
        field: LogField,
        found: u64,
        wanted: u64,
    },
}

/// Why a slot's words are no entry of its number, or why the entry doesn't join the earlier ones.
#[derive(Clone, Copy, Debug, PartialEq, Eq)]
pub enum Reason {
    /// The checksum word, and the CRC-32 of the words before it.
    Crc { found: u64, wanted: u64 },
    /// The sequence number, and the slot's number.
    Seq { found: u64, wanted: u64 },
    /// Neither a file nor a directory.
    BadKind(u64),
    /// Mode (3), uid (4) or gid (5) is out of its range.
    Attribute(u64),
    /// No path, or too long a one.
    BadPath,
    /// Size, chunk and extents don't fit one another or the device.
    Map,
    /// The word with this index isn't zero in an unused part.
    Rest(u64),
    /// Something stands at the path.
    Exists(Kind),
    /// The parent isn't in the tree.
    NoParent,
    /// The parent is a file.
    ParentIsFile,
    /// This unit is used already, or stands twice in the entry's own extents.
    Overlap(u64),
}
