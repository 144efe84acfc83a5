//! Extents: the ranges of bytes of the device that hold a file.
//!
//! A contract sees an `Extents` as a list. `specs/ExtentLists.antt` has its field of sixteen.

ghost use Rattle.std.specs.Prelude.{◌≡◌, ◌↔◌, ◌<◌, ◌≤◌, [], ◌∷◌, ◌++◌, IsTrue, slice_get, length};
ghost use Rattle.std.specs.Bool.{OnTrue, OnFalse};
ghost use Rattle.std.specs.Cmp;
ghost use Rattle.fam_base.specs.ExtentLists.{extent_limit, extents_eq, extents_equiv};

use std::marker::Model;

/// The most extents of a file, `extent_limit` in contracts.
pub const EXTENT_LIMIT: usize = 16;

/// A range of bytes of the device: where it begins and how long it is.
#[derive(Clone, Copy, Debug, PartialEq, Eq)]
pub struct Extent {
    pub offset: u64,
    pub length: u64,
}

/// At most sixteen extents, in their order. `Copy`, with empty extents behind.
#[derive(Clone, Copy)]
pub struct Extents {
    items: [Extent; EXTENT_LIMIT],
    len: usize,
}

impl Model for Extents {
    ghost use Rattle.std.specs.Prelude.{List, length, take};
    ghost use Rattle.fam_base.specs.declared.extents.Extent.{Extent};
    ghost use Rattle.fam_base.specs.ExtentLists.{filled, IsExtentsField};

    ghost Value = { List Extent };

    ghost view = { λ a. take a.len a.items };

    ghost invariant = { λ a. IsExtentsField a.items a.len };

    ghost inverse = { λ xs. record { items = filled xs; len = length xs } };

    ghost inverse_ok = { λ a h. Prim.rw (← h.rest, h.count) };
}

impl Extents {
    /// No extents.
    pub fn new() -> Extents
        ensures { result ≡ [] }
    {
        Extents {
            items: [Extent {
                offset: 0,
                length: 0,
            }; EXTENT_LIMIT],
            len: 0,
        }
    }

    /// How many there are.
    pub fn len(&self) -> u64
        ensures count { result ≡ length self.now }
        ensures few { length self.now ≤ extent_limit }
    {
        self.len as u64
    }

    /// The extents in their order.
    pub fn as_slice(&self) -> &[Extent]
        ensures same { result.now ≡ self.now }
        ensures few { length self.now ≤ extent_limit }
    {
        &self.items[..self.len]
    }

    /// Adds an extent at the end. Where sixteen are held it answers `false` and changes nothing.
    pub fn push(&mut self, extent: Extent) -> bool
        ensures room { IsTrue result ↔ (length self.old < extent_limit) }
        ensures added { OnTrue result (self.new ≡ self.old ++ extent ∷ []) }
        ensures same { OnFalse result (self.new ≡ self.old) }
    {
        if self.len == EXTENT_LIMIT {
            return false;
        }
        self.items[self.len] = extent;
        self.len += 1;
        true
    }

    /// The extent at place `i`, from 0.
    pub fn at(&self, i: u64) -> Option<Extent>
        ensures { result ≡ slice_get self.now i }
    {
        if i < self.len() {
            Some(self.items[i as usize])
        } else {
            None
        }
    }
}

/// Extents are equal where they are the same ones in the same order.
impl PartialEq for Extents {
    ghost eq = { extents_eq };

    ghost laws = { Cmp.partial_equiv_from_equiv extents_equiv };

    fn eq(&self, other: &Extents) -> bool
        ensures value { result ≡ extents_eq self.now other.now }
        ensures same { IsTrue result ↔ (self.now ≡ other.now) }
    {
        self.as_slice() == other.as_slice()
    }
}

impl Eq for Extents {
    ghost laws = { extents_equiv };
}
