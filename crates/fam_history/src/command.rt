//! A command as a history tells it. `specs/Told.antt` has what is told of each.

use fam_base::{Attr, Cmd, Path, Stripe};

/// A command, with a number in place of bytes that come from a source, and of a listing.
#[derive(Drop)]
pub enum ToldCommand {
    /// A command that takes nothing from a source.
    Plain(Cmd),
    /// Append a file of so many bytes of a source.
    Cp {
        path: Path,
        size: u64,
        attr: Attr,
        stripe: Option<Stripe>,
    },
    /// Compare a file's bytes with so many of a source.
    VerifySource {
        path: Path,
        count: u64,
    },
    /// Compare the tree with a listing of so many entries.
    Check {
        count: u64,
    },
}
