//! The units that the entries of a plan use.

use fam_alloc::AllocMap;
use fam_tree::{Beside, EntryRef};

/// Which units are used, and how many bytes a unit has.
#[derive(Drop)]
pub(crate) struct Used {
    pub(crate) map: AllocMap,
    pub(crate) unit: u64,
}

impl Beside for Used {
    ghost use Rattle.fam_plan.specs.Ledgers.{MayTake, HasTaken};

    ghost may_grow = { MayTake };

    ghost grown = { HasTaken };

    fn grow(&mut self, entry: &EntryRef<'_>) -> bool {
        if entry.extents().is_empty() {
            return true;
        }
        self.map.take(&entry.to_extents(), self.unit).is_ok()
    }
}
