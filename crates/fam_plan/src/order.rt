//! The order in which the entries of a plan were added, told by their paths.
//!
//! A contract sees an `Order` as the list of the paths, each of them as its bytes. They stand in parts, which its copies
//! share. `specs/Parts.antt` says how.

ghost use Rattle.std.specs.Prelude.{◌≡◌, ◌++◌, ◌∷◌, [], IfOk, length, slice_get};
ghost use Rattle.std.specs.Bool.{OnTrue, OnFalse};
ghost use Rattle.fam_plan.specs.Parts.{AreFull, paths_of};

use crate::part::Part;
use crate::paths::Paths;
use fam_base::{OutOfMemory, Path};
use fam_tree::{Beside, EntryRef};
use std::alloc::Global;
use std::marker::Model;
use std::mem::replace;
use std::rc::Rc;

/// How many paths a part has.
pub(crate) const PART: usize = 512;

/// Paths in the order in which their entries were added. The last of them stand in a part of their own, which is shared
/// once it is full, so that one more changes no part that another order has. Copies share the list of the full parts too, until
/// one of them gets another.
#[derive(Drop)]
pub(crate) struct Order {
    alloc: Global,
    full: Rc<Vec<Part>>,
    last: Paths,
    len: usize,
}

impl Model for Order {
    ghost use Rattle.std.specs.Prelude.{ℕ, List};
    ghost use Rattle.fam_plan.specs.Parts.{AreParts, paths_of};

    ghost Value = { List (List ℕ) };

    ghost view = { λ o. paths_of o.full.value.items o.last };

    ghost invariant = { λ o. AreParts o.full.value.items o.last o.len };
}

/// Makes a part of the last paths.
fn close(full: &mut Vec<Part>, last: &mut Paths, alloc: Global) -> bool
    requires full { AreFull full.old.items }
    requires last { length last.old ≡ PART }
    ensures full { AreFull full.new.items }
    ensures paths { paths_of full.new.items last.new ≡ paths_of full.old.items last.old }
{
    if full.reserve(1).is_err() {
        return false;
    }
    match Part::new(alloc, replace(last, Paths::new(alloc))) {
        Ok(part) => {
            let _ = full.push(part);
            true
        }
        Err(back) => {
            *last = back;
            false
        }
    }
}

/// The same, of parts that another order may have too: their list is copied first.
fn close_shared(full: &mut Rc<Vec<Part>>, last: &mut Paths, alloc: Global) -> bool
    requires full { AreFull full.old.value.items }
    requires last { length last.old ≡ PART }
    ensures full { AreFull full.new.value.items }
    ensures paths { paths_of full.new.value.items last.new ≡ paths_of full.old.value.items last.old }
{
    match Rc::make_mut(full) {
        Ok(full) => close(full, last, alloc),
        Err(_) => false,
    }
}

impl Order {
    /// No paths.
    pub(crate) fn new(alloc: Global) -> Result<Order, OutOfMemory>
        ensures { IfOk result (λ order. order ≡ []) }
    {
        match Rc::new(alloc, Vec::new(alloc)) {
            Ok(full) => Ok(Order {
                alloc,
                full,
                last: Paths::new(alloc),
                len: 0,
            }),
            Err(_) => Err(OutOfMemory),
        }
    }

    /// The same paths. The two share all but the last ones.
    pub(crate) fn copy(&self, alloc: Global) -> Result<Order, OutOfMemory>
        ensures { IfOk result (λ order. order ≡ self.now) }
    {
        let last = self.last.copy(alloc)?;
        match self.full.clone() {
            Ok(full) => Ok(Order {
                alloc,
                full,
                last,
                len: self.len,
            }),
            Err(_) => Err(OutOfMemory),
        }
    }

    /// How many paths there are.
    pub(crate) fn len(&self) -> u64
        ensures { result ≡ length self.now }
    {
        self.len as u64
    }

    /// Path `i`, from 0.
    pub(crate) fn at(&self, i: u64) -> Option<Path>
        ensures { result ≡ slice_get self.now i }
    {
        let i = i as usize;
        let full = self.full.as_slice();
        match full.get(i / PART) {
            Some(part) => part.paths().at(i % PART),
            None => self.last.at(i - PART * full.len()),
        }
    }

    /// Puts an entry's path behind the others, where something else grows by the entry. Else, and if there is no memory,
    /// nothing changes.
    pub(crate) fn push<B: Beside>(&mut self, entry: &EntryRef<'_>, beside: &mut B) -> bool
        requires { B.may_grow beside.old entry.now }
        ensures added { OnTrue result (self.new ≡ self.old ++ entry.now.path ∷ []) }
        ensures grown { OnTrue result (B.grown beside.old entry.now beside.new) }
        ensures kept { OnFalse result (self.new ≡ self.old) }
        ensures same { OnFalse result (beside.new ≡ beside.old) }
    {
        let Some(len) = self.len.checked_add(1) else {
            return false;
        };
        if self.last.len() == PART && !close_shared(&mut self.full, &mut self.last, self.alloc) {
            return false;
        }
        if !self.last.push(entry, beside) {
            return false;
        }
        self.len = len;
        true
    }
}
