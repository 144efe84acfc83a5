//! The list of the entries of a tree, in chunks that its copies share. `specs/Chunks.antt` says how.

ghost use Rattle.std.specs.Prelude.{◌≡◌, ◌<◌, ◌++◌, ◌∷◌, [], IfOk, length, slice_get};
ghost use Rattle.std.specs.Bool.{OnTrue, OnFalse};
ghost use Rattle.fam_tree.specs.Chunks.{entries_held};
ghost use Rattle.fam_tree.specs.Runs.{entry_at};

use crate::beside::Beside;
use crate::chunk_view::ChunkView;
use crate::entry_list::EntryList;
use crate::entry_ref::EntryRef;
use crate::packed::Packed;
use fam_base::{Entry, Kind, OutOfMemory};
use std::alloc::Global;
use std::marker::Model;

/// Entries in the order in which they were added. Each chunk but the last one is full, so that one more entry changes none
/// but that, and copies it where another list has it too. No entries take no memory.
#[derive(Drop)]
pub(crate) struct Chunks {
    alloc: Global,
    packed: Option<Packed>,
    len: usize,
}

impl Model for Chunks {
    ghost use Rattle.std.specs.Prelude.{List};
    ghost use Rattle.std.specs.Coded.{coded_list};
    ghost use Rattle.fam_base.specs.declared.entry.Entry.{Entry};
    ghost use Rattle.fam_base.specs.contracts.entry.Entry as entry_type;
    ghost use Rattle.fam_tree.specs.Chunks.{AreCounted, entries_held};

    ghost Value = { List Entry };

    ghost coded = { coded_list entry_type.the_row.coded };

    ghost view = { λ c. entries_held c.packed };

    ghost invariant = { λ c. AreCounted (entries_held c.packed) c.len };
}

/// Puts an entry behind the others, where something else grows by it. Else, and if there is no memory, nothing changes.
fn put<B: Beside>(
    packed: &mut Option<Packed>,
    alloc: Global,
    entry: &EntryRef<'_>,
    beside: &mut B,
) -> bool
    requires { B.may_grow beside.old entry.now }
    ensures added { OnTrue result (entries_held packed.new ≡ entries_held packed.old ++ entry.now ∷ []) }
    ensures grown { OnTrue result (B.grown beside.old entry.now beside.new) }
    ensures kept { OnFalse result (packed.new ≡ packed.old) }
    ensures same { OnFalse result (beside.new ≡ beside.old) }
{
    if let Some(packed) = packed {
        return packed.push(alloc, entry, beside);
    }
    match Packed::of(alloc, entry, beside) {
        Ok(first) => {
            *packed = Some(first);
            true
        }
        Err(_) => false,
    }
}

impl Chunks {
    /// No entries.
    pub(crate) fn new(alloc: Global) -> Chunks
        ensures { result ≡ [] }
    {
        Chunks {
            alloc,
            packed: None,
            len: 0,
        }
    }

    /// How many entries there are.
    pub(crate) fn len(&self) -> usize
        ensures { result ≡ length self.now }
    {
        self.len
    }

    /// The entries, to be looked at in many places.
    #[inline(always)]
    pub(crate) fn view(&self) -> ChunkView<'_>
        ensures { result ≡ self.now }
    {
        match &self.packed {
            Some(packed) => packed.view(),
            None => ChunkView {
                full: &[],
                last: None,
            },
        }
    }

    /// The list in which the entry at a place stands, and where.
    #[inline(always)]
    fn find(&self, place: usize) -> (&EntryList, usize)
        requires { place < length self.now }
        ensures { slice_get result.0.now result.1 ≡ slice_get self.now place }
    {
        self.view().find(place)
    }

    /// The entry at a place.
    #[inline]
    pub(crate) fn at(&self, place: usize) -> Entry
        requires { place < length self.now }
        ensures { result ≡ entry_at self.now place }
    {
        let (list, i) = self.find(place);
        list.at(i)
    }

    /// The entry at a place, borrowed.
    #[inline(always)]
    pub(crate) fn borrowed_at(&self, place: usize) -> EntryRef<'_>
        requires { place < length self.now }
        ensures { result ≡ entry_at self.now place }
    {
        let (list, i) = self.find(place);
        list.borrowed_at(i)
    }

    /// The kind of the entry at a place.
    #[inline]
    pub(crate) fn kind_at(&self, place: usize) -> Kind
        requires { place < length self.now }
        ensures { result ≡ (entry_at self.now place).kind }
    {
        let (list, i) = self.find(place);
        list.kind_at(i)
    }

    /// Puts an entry behind the others, where something else grows by it. Else, and if there is no memory, nothing changes.
    pub(crate) fn push<B: Beside>(&mut self, entry: &EntryRef<'_>, beside: &mut B) -> bool
        requires { B.may_grow beside.old entry.now }
        ensures added { OnTrue result (self.new ≡ self.old ++ entry.now ∷ []) }
        ensures grown { OnTrue result (B.grown beside.old entry.now beside.new) }
        ensures kept { OnFalse result (self.new ≡ self.old) }
        ensures same { OnFalse result (beside.new ≡ beside.old) }
    {
        let Some(len) = self.len.checked_add(1) else {
            return false;
        };
        if !put(&mut self.packed, self.alloc, entry, beside) {
            return false;
        }
        self.len = len;
        true
    }

    /// An equal list, which shares the chunks.
    pub(crate) fn copy(&self, alloc: Global) -> Result<Chunks, OutOfMemory>
        ensures { IfOk result (λ chunks. chunks ≡ self.now) }
    {
        match self.packed.clone() {
            Ok(packed) => Ok(Chunks {
                alloc,
                packed,
                len: self.len,
            }),
            Err(_) => Err(OutOfMemory),
        }
    }
}
