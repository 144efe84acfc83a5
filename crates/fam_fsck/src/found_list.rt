//! The entries that read, each with its number, packed.
//!
//! A contract sees a `FoundList` as the list of them. `specs/Found.antt` says how they stand in its parts.

ghost use Rattle.std.specs.Prelude.{◌≡◌, ◌<◌, ◌++◌, ◌∷◌, [], Some, IfOk, OnErr, length, option_map, slice_get};
ghost use Rattle.fam_format.specs.Tree.{tree_fault};
ghost use Rattle.fam_fsck.specs.Found.{found_as, tree_after};

use crate::found::Found;
use crate::joining::Joined;
use fam_base::{Kind, OutOfMemory};
use fam_format::Reason;
use fam_tree::{EntryList, EntryRef};
use std::alloc::Global;
use std::marker::Model;

/// What is told of an entry beside itself.
#[derive(Clone, Copy)]
pub struct Mark {
    pub number: u64,
    /// Whether it applied to the tree of the entries that applied before it.
    pub applies: bool,
}

/// Entries that read, in the order in which they did.
#[derive(Drop)]
pub struct FoundList {
    entries: EntryList,
    /// One for each entry.
    marks: Vec<Mark>,
}

impl Model for FoundList {
    ghost use Rattle.std.specs.Prelude.{◌≡◌, List, length};
    ghost use Rattle.std.specs.Coded.{coded_list};
    ghost use Rattle.fam_fsck.specs.declared.found.Found.{Found};
    ghost use Rattle.fam_fsck.specs.contracts.found.Found as found_type;
    ghost use Rattle.fam_fsck.specs.Found.{found_of};

    ghost Value = { List Found };

    ghost coded = { coded_list found_type.the_row.coded };

    ghost view = { λ l. found_of l.entries l.marks.items };

    ghost invariant = { λ l. length l.entries ≡ length l.marks.items };
}

impl FoundList {
    /// No entries. An Err comes where memory runs out.
    pub fn new(alloc: Global) -> Result<FoundList, OutOfMemory>
        ensures { IfOk result (λ list. list ≡ []) }
    {
        let entries = EntryList::with_rows(alloc, 0)?;
        Ok(FoundList {
            entries,
            marks: Vec::new(alloc),
        })
    }

    /// How many entries there are.
    pub fn len(&self) -> usize
        ensures { result ≡ length self.now }
    {
        self.marks.len()
    }

    /// The entry at a place, with its number.
    pub fn at(&self, place: usize) -> Found
        requires { place < length self.now }
        ensures { slice_get self.now place ≡ Some result }
    {
        let mark = self.marks[place];
        Found {
            number: mark.number,
            entry: self.entries.at(place),
            applies: mark.applies,
        }
    }

    /// The kind of the entry at a place.
    pub fn kind_at(&self, place: usize) -> Kind
        requires { place < length self.now }
        ensures { option_map (λ f. f.entry.kind) (slice_get self.now place) ≡ Some result }
    {
        self.entries.kind_at(place)
    }

    /// Puts an entry behind the others, which joins the tree where it applies, and says why it doesn't. An Err comes
    /// where memory runs out, and then nothing has changed.
    pub fn join(
        &mut self,
        joined: &mut Joined,
        number: u64,
        entry: &EntryRef<'_>,
    ) -> Result<Option<Reason>, OutOfMemory>
        ensures fault { IfOk result (λ fault. fault ≡ tree_fault joined.old.tree entry.now) }
        ensures after { IfOk result (λ fault. joined.new.tree ≡ tree_after fault joined.old.tree entry.now) }
        ensures found { IfOk result (λ fault. self.new ≡ self.old ++ found_as number entry.now fault ∷ []) }
        ensures err_joined { OnErr result (joined.new ≡ joined.old) }
        ensures err_found { OnErr result (self.new ≡ self.old) }
    {
        if self.marks.reserve(1).is_err() {
            return Err(OutOfMemory);
        }
        if !self.entries.push(entry, joined) {
            return Err(OutOfMemory);
        }
        let fault = joined.fault;
        let applies = fault.is_none();
        // There is room.
        let _ = self.marks.push(Mark { number, applies });
        Ok(fault)
    }
}
