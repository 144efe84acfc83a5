//! Why the world refuses a call.

use crate::host_id::HostId;
use fam_base::{LineNo, NameText};
use uuid::Uuid;

/// Why a call is refused. Where several causes hold, the first one in the order of the call's own list is named.
#[derive(Drop)]
pub enum Refusal {
    /// No host of this name is declared.
    NoHost,
    /// This earlier host has the name or the UUID.
    SameHost(HostId),
    /// 64 hosts are declared.
    TooManyHosts,
    /// The unit is no power of two from 4,096 to 2,097,152, or the log no positive multiple of it up to 64 MiB.
    BadGeometry { unit: u64, log: u64 },
    /// Superblock, log and one unit need more bytes than the image has.
    TooSmall { need: u64, have: u64 },
    /// The image has so many lines, which are too few for a gate.
    ImageSmall(u64),
    /// This host has a task.
    Busy(HostId),
    /// This host, another one than the maker, holds a line that memory may lack.
    Dirty(HostId),
    /// A superblock with this UUID stands there already.
    HasSuper(Uuid),
    /// The host has no task.
    Idle,
    /// The host keeps something of the log already.
    Mounted,
    /// The host keeps nothing of the log.
    NotMounted,
    /// The image has so many lines, and this is none of them.
    NoLine { line: u64, lines: u64 },
    /// There is no such source.
    NoFile(NameText),
    /// With this source the bytes that were read of sources would be so many, which is above the limit.
    CopyLimit(u64),
    /// This line of the source is no line of a listing.
    BadListing(u64),
    /// The media failed at this line.
    MediaFault(LineNo),
}
