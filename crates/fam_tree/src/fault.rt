//! Why an entry doesn't join a tree, and why bytes are no listing.

ghost use Rattle.std.specs.Prelude.{◌≡◌};
ghost use Rattle.fam_tree.specs.declared.fault.ListingFault.TheVariants as listing;

use fam_base::{Kind, OutOfMemory};

/// Why an entry doesn't join a tree, in the order in which it is found out.
#[derive(Clone, Copy)]
pub enum ApplyFault {
    /// An entry of this kind stands at the path.
    Exists(Kind),
    /// The parent isn't the root, and isn't in the tree.
    NoParent,
    /// The parent is a file.
    ParentIsFile,
    /// No memory is left for the entry.
    OutOfMemory,
}

/// Why bytes aren't read as a listing.
#[derive(Clone, Copy)]
pub enum ListingFault {
    /// The number, from 1, of the first line that can't stand where it does.
    BadListing(u64),
    /// No memory is left.
    OutOfMemory,
}

impl From<OutOfMemory> for ListingFault {
    ghost from_gives = { λ _ fault. fault ≡ listing.OutOfMemory };

    fn from(_full: OutOfMemory) -> ListingFault {
        ListingFault::OutOfMemory
    }
}
