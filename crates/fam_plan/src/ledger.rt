//! What a plan has beside its tree.

ghost use Rattle.std.specs.Prelude.{◌≡◌, IfOk};

use crate::order::Order;
use crate::used::Used;
use fam_base::OutOfMemory;
use fam_tree::{Beside, EntryRef};
use std::alloc::Global;

/// The order in which the entries of a plan were added, and the units that they use.
#[derive(Drop)]
pub(crate) struct Ledger {
    pub(crate) order: Order,
    pub(crate) used: Used,
}

impl Ledger {
    /// The same order and units. The orders share all but the last paths.
    pub(crate) fn copy(&self, alloc: Global) -> Result<Ledger, OutOfMemory>
        ensures { IfOk result (λ ledger. ledger ≡ self.now) }
    {
        Ok(Ledger {
            order: self.order.copy(alloc)?,
            used: Used {
                map: self.used.map.copy(alloc)?,
                unit: self.used.unit,
            },
        })
    }
}

impl Beside for Ledger {
    ghost use Rattle.fam_plan.specs.Ledgers.{MayTake, HasGrown};

    ghost may_grow = { λ ledger e. MayTake ledger.used e };

    ghost grown = { HasGrown };

    fn grow(&mut self, entry: &EntryRef<'_>) -> bool {
        self.order.push(entry, &mut self.used)
    }
}
