//! What a reading of a log found against an image.

ghost use Rattle.std.specs.Prelude.{◌≡◌};
ghost use Rattle.fam_opening.specs.Found.{fault_told};

use crate::fault::OpenFault;
use fam_format::{LogFault, Reason, SuperFault};
use fam_replay::ReadFault;

/// What is damaged, or why that wasn't read.
pub(crate) enum Found {
    Superblock(SuperFault),
    /// Header or gate.
    Header(LogFault),
    /// The least bad slot.
    Slot(u64, Reason),
    Unread(OpenFault),
}

/// What a fault of a reading tells.
pub(crate) fn found_by(fault: ReadFault) -> Found
    ensures { fault_told result ≡ fault }
{
    match fault {
        ReadFault::NoSuper(word) => Found::Superblock(SuperFault::NoSuper(word)),
        ReadFault::BadSuper {
            field,
            found,
            wanted,
        } => Found::Superblock(SuperFault::BadSuper {
            field,
            found,
            wanted,
        }),
        ReadFault::BadLog {
            field,
            found,
            wanted,
        } => Found::Header(LogFault::BadLog {
            field,
            found,
            wanted,
        }),
        ReadFault::BadEntry { seq, reason } => Found::Slot(seq, reason),
        ReadFault::MediaFault(line) => Found::Unread(OpenFault::MediaFault(line.0)),
        ReadFault::OutOfMemory => Found::Unread(OpenFault::OutOfMemory),
    }
}
