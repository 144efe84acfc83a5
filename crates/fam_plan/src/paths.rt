//! Paths in a row.
//!
//! A contract sees `Paths` as the list of the paths, each of them as its bytes. `specs/Pieces.antt` has how bytes in a row
//! are cut into paths.

ghost use Rattle.std.specs.Prelude.{◌≡◌, ◌≤◌, ◌++◌, ◌∷◌, [], IfOk, IsTrue, length, slice_get, slice_index};
ghost use Rattle.std.specs.Bool.{OnTrue, OnFalse};
ghost use Rattle.std.specs.List.{between};
ghost use Rattle.fam_base.specs.Paths.{is_path};
ghost use Rattle.fam_plan.specs.Pieces.{IsPathAt};

use fam_base::{OutOfMemory, PATH_LIMIT, Path};
use fam_tree::{Beside, EntryRef};
use std::alloc::Global;
use std::marker::Model;

/// Paths whose bytes stand in a row, with the place where each one ends.
#[derive(Drop)]
pub(crate) struct Paths {
    bytes: Vec<u8>,
    /// Where each path ends, in bytes from the front: how many stand up to its last one.
    ends: Vec<usize>,
}

impl Model for Paths {
    ghost use Rattle.std.specs.Prelude.{ℕ, List};
    ghost use Rattle.fam_plan.specs.Pieces.{pieces, ArePaths};

    ghost Value = { List (List ℕ) };

    ghost view = { λ o. pieces o.bytes.items 0 o.ends.items };

    ghost invariant = { λ o. ArePaths o.bytes.items 0 o.ends.items };
}

/// Where path `i` starts, in bytes from the front: where the one before it ends. There are `i` paths or more.
fn start_of(ends: &[usize], i: usize) -> usize
    requires { i ≤ length ends.now }
    ensures { result ≡ slice_index (0 ∷ ends.now) i }
{
    if i == 0 { 0 } else { ends[i - 1] }
}

/// The path of bytes that are one. They are copied, and not looked at.
#[tactic(auto, unfolding(fam_base::specs::Paths::is_path))]
fn path_of(bytes: &[u8]) -> Path
    requires { IsTrue (is_path bytes.now) }
    ensures { result ≡ bytes.now }
{
    let len = bytes.len();
    let mut field = [0; PATH_LIMIT];
    field[..len].copy_from_slice(bytes);
    Path::in_field(&field, len)
}

/// The path that stands from byte `start` up to byte `end`.
fn path_between(bytes: &[u8], start: usize, end: usize) -> Path
    requires { IsPathAt bytes.now start end }
    ensures { result ≡ between start end bytes.now }
{
    path_of(&bytes[start..end])
}

impl Paths {
    /// No paths.
    pub(crate) fn new(alloc: Global) -> Paths
        ensures { result ≡ [] }
    {
        Paths {
            bytes: Vec::new(alloc),
            ends: Vec::new(alloc),
        }
    }

    /// The same paths, in memory of their own.
    pub(crate) fn copy(&self, alloc: Global) -> Result<Paths, OutOfMemory>
        ensures { IfOk result (λ paths. paths ≡ self.now) }
    {
        let Ok(bytes) = Vec::from_slice(alloc, self.bytes.as_slice()) else {
            return Err(OutOfMemory);
        };
        match Vec::from_slice(alloc, self.ends.as_slice()) {
            Ok(ends) => Ok(Paths { bytes, ends }),
            Err(_) => Err(OutOfMemory),
        }
    }

    /// How many paths there are.
    pub(crate) fn len(&self) -> usize
        ensures { result ≡ length self.now }
    {
        self.ends.len()
    }

    /// Path `i`, from 0.
    pub(crate) fn at(&self, i: usize) -> Option<Path>
        ensures { result ≡ slice_get self.now i }
    {
        let ends = self.ends.as_slice();
        if i >= ends.len() {
            return None;
        }
        let start = start_of(ends, i);
        Some(path_between(self.bytes.as_slice(), start, ends[i]))
    }

    /// Puts an entry's path behind the others, where something else grows by the entry. Else, and if there is no memory,
    /// nothing changes. It takes memory for the path's own bytes, and not for those of the longest path.
    pub(crate) fn push<B: Beside>(&mut self, entry: &EntryRef<'_>, beside: &mut B) -> bool
        requires { B.may_grow beside.old entry.now }
        ensures added { OnTrue result (self.new ≡ self.old ++ entry.now.path ∷ []) }
        ensures grown { OnTrue result (B.grown beside.old entry.now beside.new) }
        ensures kept { OnFalse result (self.new ≡ self.old) }
        ensures same { OnFalse result (beside.new ≡ beside.old) }
    {
        let path = entry.path();
        if self.bytes.reserve(path.len()).is_err() {
            return false;
        }
        if self.ends.reserve(1).is_err() {
            return false;
        }
        if !beside.grow(entry) {
            return false;
        }
        let _ = self.bytes.extend_from_slice(path);
        let _ = self.ends.push(self.bytes.len());
        true
    }
}
