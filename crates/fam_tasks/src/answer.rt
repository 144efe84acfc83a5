//! What a task says: notes on its way, and its answer.

use crate::boxed_report::BoxedReport;
use fam_base::{Boxed, ByteText, Entry, Kind, LineNo};
use fam_format::{LogField, Reason, SuperField};
use fam_rules::Checked;
use fam_tree::Tree;
use uuid::Uuid;

/// What a task notes on its way.
#[derive(Drop)]
pub enum TaskNote {
    /// The gate's line was dropped: every entry that was answered by now will be read.
    Mark,
    /// A command that appends has found so many entries.
    Found(u64),
    /// It goes on to append this entry under this number.
    Writes(u64, Boxed<Entry>),
}

/// What came of an operation.
#[derive(Drop)]
pub enum Turn {
    /// The task goes on.
    Go,
    /// The task goes on, and this is to be noted.
    Note(TaskNote),
    /// The task is done. Nothing is said of it from here on.
    Done(Answer),
}

/// What a command answers. `m` is how many of the log's first entries were read.
#[derive(Drop)]
pub enum Answer {
    /// The entry of this number is appended.
    Ok(u64),
    /// The tree of the log's entries.
    Played {
        m: u64,
        tree: Tree,
    },
    /// The log is replayed, and the host keeps what was read.
    Mounted {
        m: u64,
    },
    /// The file has the bytes that it is compared with.
    Same {
        m: u64,
    },
    /// Bytes of the file.
    Bytes {
        m: u64,
        bytes: ByteText,
    },
    /// How the tree differs from a listing.
    Checked {
        m: u64,
        checked: Boxed<Checked>,
    },
    /// What a check of the file system finds.
    Report(BoxedReport),
    /// Word 0 of line 0 is this one, and no superblock's.
    NoSuper(u64),
    /// The first field of the superblock that fails its test.
    BadSuper {
        field: SuperField,
        found: u64,
        wanted: u64,
    },
    /// The first field of the log's header that fails its test, or the gate.
    BadLog {
        field: LogField,
        found: u64,
        wanted: u64,
    },
    /// The first slot below the gate that is no entry of its number, or whose entry doesn't join those before it.
    BadEntry {
        seq: u64,
        reason: Reason,
    },
    /// Another host appends to the log.
    NotMaster {
        me: Uuid,
        master: Uuid,
    },
    /// The path has more bytes than so many, for which a slot of the log's format has room.
    LongPath(u64),
    /// The chunk is no positive multiple of the unit, or the counts of strips or of buckets are out of range.
    BadStripe,
    /// Something stands at the path: a file or a directory.
    Exists(Kind),
    /// The path's parent is neither the root nor in the tree.
    NoParent,
    /// The path's parent is a file.
    ParentIsFile,
    /// The log has room for so many entries, and holds them.
    LogFull(u64),
    /// There is no room for so many units in a row; for strips, too few buckets have room for one strip of so many
    /// units.
    NoSpace(u64),
    /// Nothing stands at the path.
    NotFound {
        m: u64,
    },
    /// A directory stands at the path. It has no bytes.
    IsDirectory {
        m: u64,
    },
    /// At this offset, the first that differs, the file has the byte `found`, and what it is compared with has
    /// `wanted`.
    Differs {
        m: u64,
        offset: u64,
        found: u8,
        wanted: u8,
    },
    /// The file has `size` bytes, and what it is compared with has `wanted`.
    Length {
        m: u64,
        size: u64,
        wanted: u64,
    },
    /// The media failed at this line. A task doesn't know of it, and never answers so itself.
    MediaFault(LineNo),
}
