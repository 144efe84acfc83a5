//! An answer as the first line of its note tells it. `specs/ToldAnswers.antt` has what is told of each.

use fam_base::SharedBytes;
use fam_format::{LogFault, Reason, SuperFault};
use fam_rules::{Checked, Refused};

/// What a host was answered. Where the reply is of so many entries, that number stands first.
#[derive(Drop)]
pub enum ToldAnswer {
    /// The entry of this number is appended.
    Ok(u64),
    /// Nothing is appended, for this cause.
    NotAppended(Refused),
    /// The lines of so many entries follow.
    Played(u64),
    Mounted(u64),
    Same(u64),
    Differs {
        entries: u64,
        offset: u64,
        found: u8,
        wanted: u8,
    },
    Length {
        entries: u64,
        size: u64,
        wanted: u64,
    },
    Bytes(u64, SharedBytes),
    NotFound(u64),
    IsDirectory(u64),
    Checked(u64, Checked),
    /// Whether all is sound; the seven other lines of the report follow.
    Report(bool),
    NoSuperblock(SuperFault),
    BadHeader(LogFault),
    BadSlot(u64, Reason),
    /// The media failed at this line.
    MediaFault(u64),
}
