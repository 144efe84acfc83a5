//! Why a line of a history can't be next. `specs/Causes.antt` says when each holds.

use fam_base::{Entry, HostName};
use fam_history::ToldAnswer;

/// Why a line can't be next.
#[derive(Drop)]
pub enum Cause {
    /// No host of the line's name is declared.
    NoSuchHost,
    /// The host of this name has the name or the UUID of the one that is declared.
    SameHost(HostName),
    /// The host of this name runs a command, where it has to run none.
    StillRunning(HostName),
    /// The host runs no command.
    NotRunning,
    /// Its command is never answered so.
    NoAnswer,
    /// So few entries are shown. Before the command's mark, which stands in this line, no fewer than `floor` were settled.
    ShownFew {
        shown: u64,
        floor: u64,
        mark: u64,
    },
    /// So many entries are shown, where there are no more than `most`.
    ShownMany {
        shown: u64,
        most: u64,
    },
    /// The first entry of a listing that differs, and the one that was wanted; none where the listing ends.
    OtherTree {
        found: Option<Entry>,
        wanted: Option<Entry>,
    },
    /// Another answer than the one that was wanted, where that is known.
    OtherAnswer(Option<ToldAnswer>),
    /// The entry of this number, which is acknowledged, is none that the host's command has named and that stands.
    NotAcknowledged(u64),
    /// The host's command names another entry.
    OtherEntry,
    /// So many entries are found, where `first` or `second` may be.
    Found {
        found: u64,
        first: u64,
        second: u64,
    },
    /// The image isn't damaged so.
    OtherDamage,
}
