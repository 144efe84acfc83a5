//! Why an entry isn't added to a plan.

use fam_base::Kind;

/// Why an entry isn't added to a plan: the first of these that holds, in this order.
#[derive(Clone, Copy, Debug, PartialEq, Eq)]
pub enum AddFault {
    /// An entry of this kind stands at the path.
    Exists(Kind),
    /// The parent isn't the root, and isn't in the tree.
    NoParent,
    /// The parent is a file.
    ParentIsFile,
    /// The first unit of the extents, in their order and upwards in each, that is used or stands twice.
    Overlap(u64),
    /// No memory is left for the entry. Nothing else keeps it from joining.
    OutOfMemory,
}
