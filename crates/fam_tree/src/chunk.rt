//! Entries that follow one another in the list of a tree, shared by its copies.

ghost use Rattle.std.specs.Prelude.{◌≡◌, ◌++◌, ◌∷◌, [], IfOk, length};
ghost use Rattle.std.specs.Bool.{OnTrue, OnFalse};

use crate::beside::Beside;
use crate::entry_list::EntryList;
use crate::entry_ref::EntryRef;
use fam_base::OutOfMemory;
use std::alloc::{AllocError, Global};
use std::marker::Model;
use std::rc::Rc;

/// Entries that several trees may have at once, until one of them gets another.
#[derive(Drop)]
pub(crate) struct Chunk {
    entries: Rc<EntryList>,
}

impl Model for Chunk {
    ghost use Rattle.std.specs.Prelude.{List};
    ghost use Rattle.std.specs.Coded.{coded_list};
    ghost use Rattle.fam_base.specs.declared.entry.Entry.{Entry};
    ghost use Rattle.fam_base.specs.contracts.entry.Entry as entry_type;

    ghost Value = { List Entry };

    ghost coded = { coded_list entry_type.the_row.coded };

    ghost view = { λ c. c.entries.value };
}

impl Clone for Chunk {
    ghost is_clone = { λ chunk copy. copy ≡ chunk };

    #[inline(always)]
    fn clone(&self) -> Result<Chunk, AllocError> {
        let entries = self.entries.clone()?;
        Ok(Chunk { entries })
    }
}

/// Copies entries that another tree has too, and says whether there was memory for that.
#[inline(always)]
fn unshare(entries: &mut Rc<EntryList>) -> bool
    ensures { entries.new.value ≡ entries.old.value }
{
    if Rc::strong_count(entries) == 1 {
        return true;
    }
    copy_shared(entries)
}

/// Copies them. It stands apart, since it is rare.
#[inline(never)]
fn copy_shared(entries: &mut Rc<EntryList>) -> bool
    ensures { entries.new.value ≡ entries.old.value }
{
    match Rc::make_mut(entries) {
        Ok(_) => true,
        Err(_) => false,
    }
}

impl Chunk {
    /// No entries, and memory for the rows of so many.
    pub(crate) fn with_rows(alloc: Global, count: usize) -> Result<Chunk, OutOfMemory>
        ensures { IfOk result (λ chunk. chunk ≡ []) }
    {
        let entries = EntryList::with_rows(alloc, count)?;
        match Rc::new(alloc, entries) {
            Ok(entries) => Ok(Chunk { entries }),
            Err(_) => Err(OutOfMemory),
        }
    }

    /// How many entries there are.
    #[inline(always)]
    pub(crate) fn len(&self) -> usize
        ensures { result ≡ length self.now }
    {
        self.entries.len()
    }

    /// The entries.
    #[inline(always)]
    pub(crate) fn entries(&self) -> &EntryList
        ensures { result.now ≡ self.now }
    {
        &self.entries
    }

    /// Puts an entry behind the others, where something else grows by it. Where another tree has them too, they are copied
    /// first. Else, and if there is no memory, nothing changes.
    #[inline(always)]
    pub(crate) fn push<B: Beside>(&mut self, entry: &EntryRef<'_>, beside: &mut B) -> bool
        requires { B.may_grow beside.old entry.now }
        ensures added { OnTrue result (self.new ≡ self.old ++ entry.now ∷ []) }
        ensures grown { OnTrue result (B.grown beside.old entry.now beside.new) }
        ensures kept { OnFalse result (self.new ≡ self.old) }
        ensures same { OnFalse result (beside.new ≡ beside.old) }
    {
        if !unshare(&mut self.entries) {
            return false;
        }
        match Rc::get_mut(&mut self.entries) {
            Some(entries) => entries.push(entry, beside),
            None => false,
        }
    }
}
