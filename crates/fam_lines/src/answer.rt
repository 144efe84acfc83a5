//! What a host was answered, with the further lines of its answer.

use fam_base::{Entry, SharedBytes};
use fam_format::{LogFault, Reason, SuperFault};
use fam_rules::{Checked, Refused, Report};

/// What a host was answered: all of it, where bytes and listings of sources are told by their count. Where the reply is of so
/// many entries, that number stands first.
#[derive(Drop)]
pub enum HostAnswer {
    /// The entry of this number is appended.
    Appended(u64),
    /// Nothing is appended, for this cause.
    NotAppended(Refused),
    /// The log's tree has these entries.
    Played(u64, Vec<Entry>),
    Mounted(u64),
    Same(u64),
    Differs {
        entries: u64,
        offset: u64,
        found: u8,
        wanted: u8,
    },
    Length {
        entries: u64,
        size: u64,
        wanted: u64,
    },
    Bytes(u64, SharedBytes),
    NotFound(u64),
    IsDirectory(u64),
    Checks(u64, Checked),
    Reports(Report),
    NoSuperblock(SuperFault),
    BadHeader(LogFault),
    BadSlot(u64, Reason),
    /// The media failed at this line.
    MediaFault(u64),
}
