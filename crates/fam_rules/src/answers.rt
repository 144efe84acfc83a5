//! What commands answer, as plain types that upper layers share.

use fam_base::{Kind, Path};
use fam_format::{LogField, Reason, SuperField};
use uuid::Uuid;

/// Why an entry is not appended: the first of these that holds, in this order.
#[derive(Clone, Copy, Debug, PartialEq, Eq)]
pub enum Refused {
    /// The host is not the one that the superblock names.
    NotMaster { me: Uuid, master: Uuid },
    /// The path has more bytes than so many, for which a slot of the log's format has room.
    LongPath(u64),
    /// The chunk is no positive multiple of the unit, or the strips are none, more than 16 or more than the
    /// buckets, or the buckets are more than 64.
    BadStripe,
    /// Something stands at the path: a file or a directory.
    Exists(Kind),
    /// The path's parent is neither the root nor in the tree.
    NoParent,
    /// The path's parent is a file.
    ParentIsFile,
    /// The log has room for so many entries, and holds them.
    LogFull(u64),
    /// There is no room for so many units in a row; for strips, too few buckets have room for one strip of so
    /// many units.
    NoSpace(u64),
}

/// What a check of the file system says of the superblock.
#[derive(Clone, Copy, Debug, PartialEq, Eq)]
pub enum SuperState {
    Sound,
    /// Another magic: the word that was seen.
    NoSuper(u64),
    BadSuper {
        field: SuperField,
        found: u64,
        wanted: u64,
    },
}

/// What a check of the file system says of the log's header and of the gate.
#[derive(Clone, Copy, Debug, PartialEq, Eq)]
pub enum LogState {
    /// So many entries are published, in a log of so many slots.
    Sound {
        entries: u64,
        slots: u64,
    },
    BadLog {
        field: LogField,
        found: u64,
        wanted: u64,
    },
    /// The superblock isn't sound, so the log wasn't looked at.
    Unread,
}

/// What a check of the file system finds. Where superblock or log isn't sound all numbers are 0 and both options
/// None.
#[derive(Clone, Copy, Debug, PartialEq, Eq)]
pub struct Report {
    pub superblock: SuperState,
    pub log: LogState,
    /// Entries below the gate that read, by their kind.
    pub files: u64,
    pub directories: u64,
    /// Units of superblock, log and the extents of these entries; each counts once.
    pub used: u64,
    /// The device's other units.
    pub free: u64,
    /// The numbers of two of these entries that share a unit, or one number twice where an entry's own extents
    /// share one: the least pair by the second number, then by the first.
    pub overlap: Option<(u64, u64)>,
    /// The least entry below the gate that doesn't read, or that doesn't apply to the tree of those before it that
    /// read and applied.
    pub bad: Option<(u64, Reason)>,
    /// Slots at or past the gate whose words read as an entry of the slot's number.
    pub past: u64,
}

/// How a tree differs from a listing.
#[derive(Clone, Copy, PartialEq, Eq)]
pub struct Checked {
    /// Paths of the tree that the listing lacks.
    pub missing: u64,
    /// Paths of the listing that the tree lacks.
    pub extra: u64,
    /// Paths in both whose entries differ.
    pub changed: u64,
    /// The least of all these paths.
    pub first: Option<Path>,
}
