//! Why the log of a media isn't read.

ghost use Rattle.std.specs.Prelude.{◌≡◌};
ghost use Rattle.fam_replay.specs.declared.fault.ReadFault.TheVariants as fault;

use fam_base::{LineNo, OutOfMemory};
use fam_format::{LogField, Reason, SuperField};

/// Why the log of a media isn't read: its first fault, or that the media failed or no memory was left.
#[derive(Clone, Copy, Debug, PartialEq, Eq)]
pub enum ReadFault {
    /// Word 0 of its line 0, which isn't the magic.
    NoSuper(u64),
    /// The first field of its superblock that fails its test.
    BadSuper {
        field: SuperField,
        found: u64,
        wanted: u64,
    },
    /// The first field of its log header, or its gate.
    BadLog {
        field: LogField,
        found: u64,
        wanted: u64,
    },
    /// The least slot that has no entry, or one that doesn't join those before it.
    BadEntry {
        seq: u64,
        reason: Reason,
    },
    /// The media failed at this line.
    MediaFault(LineNo),
    /// No memory was left.
    OutOfMemory,
}

impl From<OutOfMemory> for ReadFault {
    ghost from_gives = { λ _ given. given ≡ fault.OutOfMemory };

    fn from(_full: OutOfMemory) -> ReadFault {
        ReadFault::OutOfMemory
    }
}
