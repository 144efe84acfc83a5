//! A refusal as a history tells it. `specs/ToldRefusals.antt` has what is told of each.

use fam_base::{HostName, NameText};
use uuid::Uuid;

/// Why a call was refused. Another host is told by its name.
#[derive(Drop)]
pub enum ToldRefusal {
    NoHost,
    SameHost(HostName),
    TooManyHosts,
    BadGeometry { unit: u64, log: u64 },
    TooSmall { need: u64, have: u64 },
    ImageSmall(u64),
    Busy(HostName),
    Dirty(HostName),
    HasSuper(Uuid),
    Idle,
    Mounted,
    NotMounted,
    NoLine { line: u64, lines: u64 },
    NoFile(NameText),
    CopyLimit(u64),
    BadListing(u64),
    MediaFault(u64),
}
