//! Entries of the log, and what the superblock says.

ghost use Rattle.std.specs.Prelude.{◌≡◌, ◌↔◌, IsTrue};

use crate::extents::Extents;
use crate::path::Path;
use uuid::Uuid;

/// What stands at an entry's path.
#[derive(Clone, Copy, Debug, PartialEq, Eq)]
pub enum Kind {
    File,
    Directory,
}

/// How a file's bytes lie in its extents.
#[derive(Clone, Copy, Debug, PartialEq, Eq)]
pub enum MapKind {
    /// No bytes, and no extents.
    Empty,
    /// In the order of the extents, end to end.
    Simple,
    /// In chunks of `chunk` bytes that are dealt in turn to the extents, which are the strips.
    Striped { chunk: u64 },
}

/// A file or a directory, as the log records it.
#[derive(Clone, Copy, PartialEq, Eq)]
pub struct Entry {
    pub kind: Kind,
    pub path: Path,
    /// The file's bytes; 0 for a directory.
    pub size: u64,
    /// At most 4,095: four octal digits. Mode, user and group are recorded and never enforced.
    pub mode: u32,
    pub uid: u32,
    pub gid: u32,
    pub map: MapKind,
    pub extents: Extents,
}

impl Entry {
    /// Whether the two agree in every field, as `==` does.
    pub fn is_same(&self, other: &Entry) -> bool
        ensures { IsTrue result ↔ (self.now ≡ other.now) }
    {
        *self == *other
    }
}

/// What the superblock says of a file system. Lengths are in bytes.
#[derive(Clone, Copy, Debug, PartialEq, Eq)]
pub struct Params {
    /// Which shape the slots of the log have: 1, of 512 bytes, or 2, of 1,024.
    pub format: u64,
    /// The bytes of the log with its header.
    pub log_length: u64,
    /// How many entries the log has room for.
    pub slots: u64,
    /// The bytes of an allocation unit.
    pub unit: u64,
    /// The bytes of the device.
    pub device: u64,
    /// The file system's own UUID (RFC 9562).
    pub fs: Uuid,
    /// The UUID of the host that appends to the log.
    pub master: Uuid,
}
