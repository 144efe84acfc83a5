//! Some entries that follow one another in a tree, by their places in the list of all entries.

ghost use Rattle.std.specs.Prelude.{◌≡◌, ◌<◌, ◌≤◌, ◌++◌, ◌∷◌, [], IfOk, IfErr, OnOk, OnErr, IfSome, IfNone, length, vec_len};
ghost use Rattle.std.specs.List.{insert};
ghost use Rattle.std.specs.Bool.{OnTrue, OnFalse};
ghost use Rattle.fam_tree.specs.Ends.{AreEnds};
ghost use Rattle.fam_tree.specs.Runs.{AreWithin, InOrder, IsAbsent, IsAt, IsFound, IsGap, IsPut, ends_before, entry_at, place_cmp, run_of};

use crate::beside::Beside;
use crate::byte_order::{Ends, ends_of, order_by};
use crate::chunk_view::ChunkView;
use crate::chunks::Chunks;
use crate::entry_ref::EntryRef;
use fam_base::OutOfMemory;
use std::alloc::{AllocError, Global};
use std::cmp::Ordering;
use std::marker::Model;
use std::rc::Rc;

/// Where entries stand in the list of all entries, in byte order of their paths, so that to make room among them moves no
/// entry. Copies share the places until one of them changes.
#[derive(Drop)]
pub(crate) struct Run {
    places: Rc<Vec<u32>>,
}

impl Model for Run {
    ghost use Rattle.std.specs.Prelude.{List, ℕ};
    ghost use Rattle.std.specs.Coded.{coded_list, coded_ℕ};

    ghost Value = { List ℕ };

    ghost coded = { coded_list coded_ℕ };

    ghost view = { λ r. r.places.value.items };
}

impl Clone for Run {
    ghost is_clone = { λ run copy. copy ≡ run };

    #[inline(always)]
    fn clone(&self) -> Result<Run, AllocError> {
        let places = self.places.clone()?;
        Ok(Run { places })
    }
}

/// The order of the path of the entry at a place and another, by its bytes and, where they are known, its ends.
#[inline(always)]
fn order_at(entries: &ChunkView<'_>, place: u32, path: &[u8], ends: Option<Ends>) -> Ordering
    requires within { place < length entries.now }
    requires ends { IfSome ends (λ ends. AreEnds path.now ends.first ends.last) }
    ensures { result ≡ place_cmp entries.now path.now place }
{
    order_by(entries.path_at(place as usize), path, ends)
}

/// Inserts the place of an entry that is put behind all entries, where something else grows by it. Else, and if there is no
/// memory, or no place below 2^32, nothing changes.
#[inline(always)]
fn insert<B: Beside>(
    places: &mut Vec<u32>,
    i: usize,
    entries: &mut Chunks,
    entry: &EntryRef<'_>,
    beside: &mut B,
) -> bool
    requires within { i ≤ vec_len places.old }
    requires beside { B.may_grow beside.old entry.now }
    ensures places { OnTrue result (places.new.items ≡ insert places.old.items i (length entries.old)) }
    ensures entries { OnTrue result (entries.new ≡ entries.old ++ entry.now ∷ []) }
    ensures grown { OnTrue result (B.grown beside.old entry.now beside.new) }
    ensures run { OnFalse result (places.new.items ≡ places.old.items) }
    ensures kept { OnFalse result (entries.new ≡ entries.old) }
    ensures same { OnFalse result (beside.new ≡ beside.old) }
{
    let Ok(place) = u32::try_from(entries.len()) else {
        return false;
    };
    let Ok(()) = places.reserve(1) else {
        return false;
    };
    if !entries.push(entry, beside) {
        return false;
    }
    let _ = places.insert(i, place);
    true
}

/// Some places, shared anew, with room for one more. It stands apart, since it is rare.
#[inline(never)]
fn shared(alloc: Global, places: &[u32]) -> Result<Rc<Vec<u32>>, OutOfMemory>
    ensures { IfOk result (λ shared. shared.value.items ≡ places.now) }
{
    let Ok(mut own) = Vec::with_capacity(alloc, places.len().saturating_add(1)) else {
        return Err(OutOfMemory);
    };
    let Ok(()) = own.extend_from_slice(places) else {
        return Err(OutOfMemory);
    };
    match Rc::new(alloc, own) {
        Ok(shared) => Ok(shared),
        Err(_) => Err(OutOfMemory),
    }
}

/// Copies places that another tree has too, all at once, and says whether there was memory for that.
#[inline(always)]
fn unshare(places: &mut Rc<Vec<u32>>) -> bool
    ensures { places.new.value.items ≡ places.old.value.items }
{
    if Rc::strong_count(places) == 1 {
        return true;
    }
    match shared(*places.allocator(), places) {
        Ok(own) => {
            *places = own;
            true
        }
        Err(_) => false,
    }
}

impl Run {
    /// No entries.
    pub(crate) fn new(alloc: Global) -> Result<Run, OutOfMemory>
        ensures { IfOk result (λ run. run ≡ []) }
    {
        match Rc::new(alloc, Vec::new(alloc)) {
            Ok(places) => Ok(Run { places }),
            Err(_) => Err(OutOfMemory),
        }
    }

    /// How many entries there are.
    pub(crate) fn len(&self) -> usize
        ensures { result ≡ length self.now }
    {
        self.places.len()
    }

    /// The places of the entries.
    pub(crate) fn places(&self) -> &[u32]
        ensures { result.now ≡ self.now }
    {
        self.places.as_slice()
    }

    /// Whether the last entry is below a path, by its bytes and, where they are known, its ends.
    #[inline(always)]
    pub(crate) fn is_below(&self, entries: &ChunkView<'_>, path: &[u8], ends: Option<Ends>) -> bool
        requires within { AreWithin (length entries.now) self.now }
        requires ends { IfSome ends (λ ends. AreEnds path.now ends.first ends.last) }
        ensures { result ≡ ends_before entries.now path.now self.now }
    {
        match self.places.last() {
            Some(last) => order_at(entries, *last, path, ends).is_lt(),
            None => true,
        }
    }

    /// Whether the entry that was added last stands last in it.
    #[inline(always)]
    pub(crate) fn rises(&self, entries: &Chunks) -> bool {
        match self.places.last() {
            Some(place) => *place as usize == entries.len().saturating_sub(1),
            None => false,
        }
    }

    /// Where the place of the entry at a path stands, or else where it would. While paths rise that is behind all others.
    #[inline(always)]
    fn seek(&self, entries: &Chunks, path: &[u8]) -> Result<usize, usize>
        requires order { InOrder (run_of entries.now self.now) }
        requires inside { AreWithin (length entries.now) self.now }
        ensures found { IfOk result (λ i. IsAt (run_of entries.now self.now) path.now i) }
        ensures gap { IfErr result (λ i. IsGap (run_of entries.now self.now) path.now i) }
        ensures within { IfOk result (λ i. i < length self.now) }
        ensures end { IfErr result (λ i. i ≤ length self.now) }
    {
        let view = entries.view();
        let places = self.places.as_slice();
        let ends = ends_of(path);
        if self.rises(entries) && self.is_below(&view, path, ends) {
            return Err(places.len());
        }
        let mut low = 0;
        let mut high = places.len();
        while low < high {
            let middle = low + (high - low) / 2;
            match order_at(&view, places[middle], path, ends) {
                Ordering::Less => low = middle + 1,
                Ordering::Equal => return Ok(middle),
                Ordering::Greater => high = middle,
            }
        }
        Err(low)
    }

    /// Where the entry at a path stands in the list of all entries.
    pub(crate) fn place_of(&self, entries: &Chunks, path: &[u8]) -> Option<usize>
        requires order { InOrder (run_of entries.now self.now) }
        requires inside { AreWithin (length entries.now) self.now }
        ensures found { IfSome result (λ place. IsFound (run_of entries.now self.now) path.now (entry_at entries.now place)) }
        ensures within { IfSome result (λ place. place < length entries.now) }
        ensures none { IfNone result (IsAbsent (run_of entries.now self.now) path.now) }
    {
        match self.seek(entries, path) {
            Ok(i) => Some(self.places[i] as usize),
            Err(_) => None,
        }
    }

    /// Adds an entry where none has its path and something else grows by it: to the end of the list, and its place to the
    /// run. Else, and if there is no memory, nothing changes.
    #[inline(always)]
    pub(crate) fn add<B: Beside>(
        &mut self,
        entries: &mut Chunks,
        entry: &EntryRef<'_>,
        beside: &mut B,
    ) -> bool
        requires order { InOrder (run_of entries.old self.old) }
        requires inside { AreWithin (length entries.old) self.old }
        requires beside { B.may_grow beside.old entry.now }
        ensures added { OnTrue result (IsPut (run_of entries.old self.old) (run_of entries.new self.new) entry.now) }
        ensures entries { OnTrue result (entries.new ≡ entries.old ++ entry.now ∷ []) }
        ensures inside { OnTrue result (AreWithin (length entries.new) self.new) }
        ensures grown { OnTrue result (B.grown beside.old entry.now beside.new) }
        ensures run { OnFalse result (self.new ≡ self.old) }
        ensures kept { OnFalse result (entries.new ≡ entries.old) }
        ensures same { OnFalse result (beside.new ≡ beside.old) }
    {
        let Err(i) = self.seek(entries, entry.path()) else {
            return false;
        };
        if !unshare(&mut self.places) {
            return false;
        }
        let Some(places) = Rc::get_mut(&mut self.places) else {
            return false;
        };
        insert(places, i, entries, entry, beside)
    }

    /// Cuts the upper half off. If there is no memory, nothing changes. It stands apart, since it is rare.
    #[inline(never)]
    pub(crate) fn split(&mut self, alloc: Global) -> Result<Run, OutOfMemory>
        requires { 2 ≤ length self.old }
        ensures cut { IfOk result (λ upper. self.new ++ upper ≡ self.old) }
        ensures lower { OnOk result (1 ≤ length self.new) }
        ensures upper { IfOk result (λ upper. 1 ≤ length upper) }
        ensures same { OnErr result (self.new ≡ self.old) }
    {
        let half = self.places.len() / 2;
        let lower = shared(alloc, &self.places[..half])?;
        let upper = shared(alloc, &self.places[half..])?;
        self.places = lower;
        Ok(Run { places: upper })
    }
}
