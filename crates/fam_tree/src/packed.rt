//! Chunks one behind another, of which each but the last one is full. `specs/Chunks.antt` says how.

ghost use Rattle.std.specs.Prelude.{◌≡◌, ◌<◌, ◌++◌, ◌∷◌, [], IfOk, OnErr, OnOk, length};
ghost use Rattle.std.specs.Bool.{OnTrue, OnFalse};
ghost use Rattle.fam_tree.specs.Chunks.{AreFull, ArePacked, packed_entries};

use crate::beside::Beside;
use crate::chunk::Chunk;
use crate::chunk_view::ChunkView;
use crate::entry_ref::EntryRef;
use fam_base::OutOfMemory;
use std::alloc::{AllocError, Global};
use std::marker::Model;
use std::mem::replace;
use std::rc::Rc;

/// How many entries a full chunk has.
pub(crate) const CHUNK: usize = 256;

/// Entries in chunks: the full ones, whose list copies share too, and the last one, which grows.
#[derive(Drop)]
pub(crate) struct Packed {
    full: Rc<Vec<Chunk>>,
    last: Chunk,
}

impl Model for Packed {
    ghost use Rattle.std.specs.Prelude.{List};
    ghost use Rattle.std.specs.Coded.{coded_list};
    ghost use Rattle.fam_base.specs.declared.entry.Entry.{Entry};
    ghost use Rattle.fam_base.specs.contracts.entry.Entry as entry_type;
    ghost use Rattle.fam_tree.specs.Chunks.{ArePacked, packed_entries};

    ghost Value = { List Entry };

    ghost coded = { coded_list entry_type.the_row.coded };

    ghost view = { λ p. packed_entries p.full.value.items p.last };

    ghost invariant = { λ p. ArePacked p.full.value.items p.last };
}

// Copies share all chunks, and the list of the full ones.
impl Clone for Packed {
    ghost is_clone = { λ packed copy. copy ≡ packed };

    #[inline(always)]
    fn clone(&self) -> Result<Packed, AllocError> {
        let full = self.full.clone()?;
        let last = self.last.clone()?;
        Ok(Packed { full, last })
    }
}

/// Puts the last chunk, which is full, behind the others, and an empty one in its place. If there is no memory, nothing
/// changes.
fn close(full: &mut Vec<Chunk>, last: &mut Chunk, alloc: Global) -> bool
    requires full { AreFull full.old.items }
    requires last { length last.old ≡ CHUNK }
    ensures packed { ArePacked full.new.items last.new }
    ensures room { OnTrue result (length last.new < CHUNK) }
    ensures entries { packed_entries full.new.items last.new ≡ packed_entries full.old.items last.old }
{
    let Ok(next) = Chunk::with_rows(alloc, CHUNK) else {
        return false;
    };
    let Ok(()) = full.reserve(1) else {
        return false;
    };
    let _ = full.push(replace(last, next));
    true
}

/// The same, of chunks whose list a copy may have too: it is copied first.
fn close_shared(full: &mut Rc<Vec<Chunk>>, last: &mut Chunk, alloc: Global) -> bool
    requires full { AreFull full.old.value.items }
    requires last { length last.old ≡ CHUNK }
    ensures packed { ArePacked full.new.value.items last.new }
    ensures room { OnTrue result (length last.new < CHUNK) }
    ensures entries { packed_entries full.new.value.items last.new ≡ packed_entries full.old.value.items last.old }
{
    match Rc::make_mut(full) {
        Ok(full) => close(full, last, alloc),
        Err(_) => false,
    }
}

impl Packed {
    /// One entry, where something else grows by it. A first chunk takes memory as it grows, and any other one at once.
    pub(crate) fn of<B: Beside>(
        alloc: Global,
        entry: &EntryRef<'_>,
        beside: &mut B,
    ) -> Result<Packed, OutOfMemory>
        requires { B.may_grow beside.old entry.now }
        ensures one { IfOk result (λ packed. packed ≡ entry.now ∷ []) }
        ensures grown { OnOk result (B.grown beside.old entry.now beside.new) }
        ensures same { OnErr result (beside.new ≡ beside.old) }
    {
        let Ok(full) = Rc::new(alloc, Vec::new(alloc)) else {
            return Err(OutOfMemory);
        };
        let mut last = Chunk::with_rows(alloc, 0)?;
        if !last.push(entry, beside) {
            return Err(OutOfMemory);
        }
        Ok(Packed { full, last })
    }

    /// The entries, to be looked at in many places.
    #[inline(always)]
    pub(crate) fn view(&self) -> ChunkView<'_>
        ensures { result ≡ self.now }
    {
        ChunkView {
            full: self.full.as_slice(),
            last: Some(self.last.entries()),
        }
    }

    /// Puts an entry behind the others, where something else grows by it. Else, and if there is no memory, nothing changes.
    pub(crate) fn push<B: Beside>(
        &mut self,
        alloc: Global,
        entry: &EntryRef<'_>,
        beside: &mut B,
    ) -> bool
        requires { B.may_grow beside.old entry.now }
        ensures added { OnTrue result (self.new ≡ self.old ++ entry.now ∷ []) }
        ensures grown { OnTrue result (B.grown beside.old entry.now beside.new) }
        ensures kept { OnFalse result (self.new ≡ self.old) }
        ensures same { OnFalse result (beside.new ≡ beside.old) }
    {
        if self.last.len() == CHUNK && !close_shared(&mut self.full, &mut self.last, alloc) {
            return false;
        }
        self.last.push(entry, beside)
    }
}
