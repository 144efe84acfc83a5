//! What grows by the entries of a tree.

ghost use Rattle.std.specs.Prelude.{◌≡◌};
ghost use Rattle.std.specs.Bool.{OnTrue, OnFalse};
ghost use Rattle.fam_base.specs.declared.entry.Entry.{Entry};

use crate::entry_ref::EntryRef;

/// What grows with a tree, by each entry that joins it, or else keeps the entry from joining.
pub trait Beside {
    /// Which entries it may be asked to grow by.
    ghost may_grow: { Self → Entry → Type 0 };

    /// What it becomes by an entry.
    ghost grown: { Self → Entry → Self → Type 0 };

    /// Grows by an entry, and says whether it did. Else it is as before.
    fn grow(&mut self, entry: &EntryRef<'_>) -> bool
        requires { may_grow self.old entry.now }
        ensures grown { OnTrue result (grown self.old entry.now self.new) }
        ensures same { OnFalse result (self.new ≡ self.old) };
}

/// Nothing that grows.
#[derive(Drop)]
pub struct Nothing;

impl Beside for Nothing {
    ghost use Rattle.std.specs.Prelude.{⊤};

    ghost may_grow = { λ _ _. ⊤ };

    ghost grown = { λ _ _ _. ⊤ };

    fn grow(&mut self, _entry: &EntryRef<'_>) -> bool {
        true
    }
}
