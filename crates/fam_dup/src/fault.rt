//! Why a file system isn't copied.

ghost use Rattle.std.specs.Prelude.{◌≡◌};
ghost use Rattle.fam_dup.specs.declared.fault.DupFault.TheVariants as fault;

use fam_base::{LineNo, OutOfMemory};
use fam_format::{LogField, Reason, SuperField};
use uuid::Uuid;

/// Why an entry has no copy.
#[derive(Clone, Copy)]
pub enum DupRefusal {
    /// The path has more bytes than so many, for which a slot of TO's format has room.
    LongPath(u64),
    /// The log has room for so many entries, and the copies before this one fill it.
    LogFull(u64),
    /// There is no room for so many units in a row.
    NoSpace(u64),
}

/// Why a file system isn't copied. But for `FromFault` and `ToFault` nothing was written.
#[derive(Clone, Copy)]
pub enum DupFault {
    /// FROM has so many lines, too few for a log.
    ImageSmall(u64),
    /// Word 0 of FROM's line 0, which isn't the magic.
    NoSuper(u64),
    /// The first field of FROM's superblock that fails its test.
    BadSuper {
        field: SuperField,
        found: u64,
        wanted: u64,
    },
    /// The first field of FROM's log header, or its gate.
    BadLog {
        field: LogField,
        found: u64,
        wanted: u64,
    },
    /// FROM's least slot that has no entry, or one that doesn't join those before it.
    BadEntry {
        seq: u64,
        reason: Reason,
    },
    /// TO has fewer bytes than are needed.
    TooSmall {
        need: u64,
        have: u64,
    },
    /// A file system with this UUID stands on TO, and it isn't to be written over.
    HasSuper(Uuid),
    /// The first entry that has no copy.
    Stopped {
        seq: u64,
        refusal: DupRefusal,
    },
    /// FROM failed at this line.
    FromFault(LineNo),
    /// TO failed at this line.
    ToFault(LineNo),
    /// No memory was left.
    OutOfMemory,
}

impl From<OutOfMemory> for DupFault {
    ghost from_gives = { λ _ given. given ≡ fault.OutOfMemory };

    fn from(_full: OutOfMemory) -> DupFault {
        DupFault::OutOfMemory
    }
}
