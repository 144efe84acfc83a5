//! The words of a slot, as an earlier reading found them.

ghost use Rattle.std.specs.Prelude.{◌≡◌, IfOk};

use fam_base::OutOfMemory;
use std::alloc::Global;
use std::marker::Model;

/// The words of a slot. A contract sees them as a list.
#[derive(Drop)]
pub(crate) struct KeptSlot {
    words: Vec<u64>,
}

impl Model for KeptSlot {
    ghost use Rattle.std.specs.Prelude.{List, ℕ};
    ghost use Rattle.std.specs.Coded.{coded_list, coded_ℕ};

    ghost Value = { List ℕ };

    ghost coded = { coded_list coded_ℕ };

    ghost view = { λ s. s.words.items };
}

impl KeptSlot {
    /// These words, in memory of their own.
    pub(crate) fn new(alloc: Global, words: &[u64]) -> Result<KeptSlot, OutOfMemory>
        ensures { IfOk result (λ kept. kept ≡ words.now) }
    {
        match Vec::from_slice(alloc, words) {
            Ok(words) => Ok(KeptSlot { words }),
            Err(_) => Err(OutOfMemory),
        }
    }

    /// The words.
    #[inline(always)]
    pub(crate) fn words(&self) -> &[u64]
        ensures { result.now ≡ self.now }
    {
        self.words.as_slice()
    }
}
