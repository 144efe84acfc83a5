//! Entries one behind another, packed: a row for each, and the bytes of all paths and all extents end to end.
//!
//! A contract sees an `EntryList` as the list of the entries. `specs/Rows.antt` says which ones.

ghost use Rattle.std.specs.Prelude.{◌≡◌, ◌+◌, ◌<◌, ◌≤◌, ◌++◌, ◌∷◌, [], IfOk, length, vec_capacity, vec_len};
ghost use Rattle.std.specs.Bool.{OnTrue, OnFalse};
ghost use Rattle.fam_tree.specs.Runs.{entry_at};

use crate::beside::Beside;
use crate::entry_ref::EntryRef;
use crate::row::Row;
use fam_base::{Entry, Extent, Kind, OutOfMemory};
use std::alloc::{AllocError, Global};
use std::marker::Model;

/// For how many more entries a copy has room.
const MORE: usize = 4;

/// How many bytes that is of paths, for each of them.
const PATH_ROOM: usize = 32;

/// Entries in the order in which they were added. An entry takes a row and the bytes of its own path and extents.
#[derive(Drop)]
pub struct EntryList {
    rows: Vec<Row>,
    paths: Vec<u8>,
    extents: Vec<Extent>,
}

impl Model for EntryList {
    ghost use Rattle.std.specs.Prelude.{List};
    ghost use Rattle.std.specs.Coded.{coded_list};
    ghost use Rattle.fam_base.specs.declared.entry.Entry.{Entry};
    ghost use Rattle.fam_base.specs.contracts.entry.Entry as entry_type;
    ghost use Rattle.fam_tree.specs.Rows.{AreRows, entries_of_rows};

    ghost Value = { List Entry };

    ghost coded = { coded_list entry_type.the_row.coded };

    ghost view = { λ l. entries_of_rows l.paths.items l.extents.items l.rows.items };

    ghost invariant = { λ l. AreRows l.paths.items l.extents.items l.rows.items };
}

/// Puts items behind others that have room for them. Most entries have no extents, and then nothing is done.
#[inline(always)]
fn put<T: Copy>(items: &mut Vec<T>, more: &[T])
    requires { vec_len items.old + length more.now ≤ vec_capacity items.old }
    ensures { items.new.items ≡ items.old.items ++ more.now }
{
    if !more.is_empty() {
        let _ = items.extend_from_slice(more);
    }
}

/// Items in memory of their own, with room for some more.
fn copied<T: Copy>(items: &Vec<T>, more: usize) -> Result<Vec<T>, AllocError>
    ensures { IfOk result (λ copy. copy.items ≡ items.now.items) }
{
    let mut copy = Vec::new(items.allocator().clone()?);
    copy.reserve_exact(items.len().saturating_add(more))?;
    copy.extend_from_slice(items)?;
    Ok(copy)
}

impl Clone for EntryList {
    ghost is_clone = { λ list copy. copy ≡ list };

    /// The same entries in memory of their own. One is copied for the sake of what joins it.
    fn clone(&self) -> Result<EntryList, AllocError> {
        Ok(EntryList {
            rows: copied(&self.rows, MORE)?,
            paths: copied(&self.paths, MORE * PATH_ROOM)?,
            extents: copied(&self.extents, 0)?,
        })
    }
}

impl EntryList {
    /// No entries, and memory for the rows of so many.
    pub fn with_rows(alloc: Global, count: usize) -> Result<EntryList, OutOfMemory>
        ensures { IfOk result (λ list. list ≡ []) }
    {
        match Vec::with_capacity(alloc, count) {
            Ok(rows) => Ok(EntryList {
                rows,
                paths: Vec::new(alloc),
                extents: Vec::new(alloc),
            }),
            Err(_) => Err(OutOfMemory),
        }
    }

    /// How many entries there are.
    #[inline(always)]
    pub fn len(&self) -> usize
        ensures { result ≡ length self.now }
    {
        self.rows.len()
    }

    /// The entry at a place.
    pub fn at(&self, place: usize) -> Entry
        requires { place < length self.now }
        ensures { result ≡ entry_at self.now place }
    {
        self.rows[place].entry(self.paths.as_slice(), self.extents.as_slice())
    }

    /// The entry at a place, borrowed.
    #[inline(always)]
    pub(crate) fn borrowed_at(&self, place: usize) -> EntryRef<'_>
        requires { place < length self.now }
        ensures { result ≡ entry_at self.now place }
    {
        self.rows[place].borrowed(self.paths.as_slice(), self.extents.as_slice())
    }

    /// The kind of the entry at a place.
    pub fn kind_at(&self, place: usize) -> Kind
        requires { place < length self.now }
        ensures { result ≡ (entry_at self.now place).kind }
    {
        self.rows[place].kind
    }

    /// The bytes of the path of the entry at a place.
    #[inline(always)]
    pub(crate) fn path_at(&self, place: usize) -> &[u8]
        requires { place < length self.now }
        ensures { result.now ≡ (entry_at self.now place).path }
    {
        self.rows[place].path(self.paths.as_slice())
    }

    /// Puts an entry behind the others, where something else grows by it. Else, and if there is no memory, nothing changes.
    #[inline(always)]
    pub fn push<B: Beside>(&mut self, entry: &EntryRef<'_>, beside: &mut B) -> bool
        requires { B.may_grow beside.old entry.now }
        ensures added { OnTrue result (self.new ≡ self.old ++ entry.now ∷ []) }
        ensures grown { OnTrue result (B.grown beside.old entry.now beside.new) }
        ensures kept { OnFalse result (self.new ≡ self.old) }
        ensures same { OnFalse result (beside.new ≡ beside.old) }
    {
        let Some(row) = Row::new(entry, self.paths.len(), self.extents.len()) else {
            return false;
        };
        let path = entry.path();
        let extents = entry.extents();
        let Ok(()) = self.rows.reserve(1) else {
            return false;
        };
        let Ok(()) = self.paths.reserve(path.len()) else {
            return false;
        };
        let Ok(()) = self.extents.reserve(extents.len()) else {
            return false;
        };
        if !beside.grow(entry) {
            return false;
        }
        let _ = self.rows.push(row);
        put(&mut self.paths, path);
        put(&mut self.extents, extents);
        true
    }
}
