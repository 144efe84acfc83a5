//! The entries of a log with their tree and their units.

ghost use Rattle.std.specs.Prelude.{◌≡◌, ◌<◌, ◌≤◌, ◌||◌, ◌++◌, ◌-◌, ◌∷◌, [], None, IfOk, OnOk, IfErr, OnErr, length, slice_get};
ghost use Rattle.fam_format.specs.Params.{SoundParams};
ghost use Rattle.fam_format.specs.Slot.{Proper};
ghost use Rattle.fam_format.specs.Stop.{or_else};
ghost use Rattle.fam_format.specs.Tree.{replay, join_fault, overlap_fault};
ghost use Rattle.fam_format.specs.Units.{units_in, list_units, first_overlap};
ghost use Rattle.fam_rules.specs.Place.{IsOnce};
ghost use Rattle.fam_alloc.specs.Taken.{is_taken, LieWithin};
ghost use Rattle.fam_tree.specs.Faults as tree;
ghost use Rattle.fam_plan.specs.Faults.{reason_of};
ghost use Rattle.fam_plan.specs.State.{IsHistory};

use crate::fault::AddFault;
use crate::ledger::Ledger;
use crate::order::Order;
use crate::used::Used;
use fam_alloc::AllocMap;
use fam_base::{Entry, OutOfMemory, Params};
use fam_format::LOG_OFFSET;
use fam_tree::{ApplyFault, EntryRef, Tree};
use std::alloc::Global;
use std::marker::Model;

/// The entries of a log in their tree, with the order of their paths and the units that they use. A contract sees the
/// parameters of the file system and the list of entries, in which each entry joins those before it.
pub struct Plan {
    pub(crate) params: Params,
    pub(crate) tree: Tree,
    pub(crate) ledger: Ledger,
}

// It is dropped by one call, so that no caller's proof goes through its parts.
impl Drop for Plan {
    #[inline(never)]
    fn drop(self) {
        let Plan {
            params: _,
            tree: _,
            ledger: _,
        } = self;
    }
}

impl Model for Plan {
    ghost use Rattle.fam_plan.specs.State.{PlanState, state_code, IsPlanAt, entries_at};

    ghost Value = { PlanState };

    ghost coded = { state_code };

    ghost view = { λ p. record { params = p.params; entries = entries_at p.tree p.ledger.order } };

    ghost invariant = { λ p. IsPlanAt (record { params = p.params; entries = entries_at p.tree p.ledger.order })
        p.tree p.ledger.order p.ledger.used.map p.ledger.used.unit };
}

/// The overlap that keeps an entry from joining, and out of memory where there is none.
fn overlap_or_memory(used: &AllocMap, entry: &EntryRef<'_>, unit: u64) -> AddFault
    requires unit { 0 < unit }
    requires within { LieWithin unit (length used.now) entry.now.extents }
    ensures { reason_of result
        ≡ overlap_fault (first_overlap (is_taken used.now) (units_in unit entry.now.extents)) }
{
    match used.overlap(&entry.to_extents(), unit) {
        Some(taken) => AddFault::Overlap(taken),
        None => AddFault::OutOfMemory,
    }
}

/// The first fault against an entry, by what its tree said.
fn first_fault(fault: ApplyFault, used: &AllocMap, entry: &EntryRef<'_>, unit: u64) -> AddFault
    requires unit { 0 < unit }
    requires within { LieWithin unit (length used.now) entry.now.extents }
    ensures { reason_of result ≡ or_else (tree.reason_of fault)
        (overlap_fault (first_overlap (is_taken used.now) (units_in unit entry.now.extents))) }
{
    match fault {
        ApplyFault::Exists(kind) => AddFault::Exists(kind),
        ApplyFault::NoParent => AddFault::NoParent,
        ApplyFault::ParentIsFile => AddFault::ParentIsFile,
        ApplyFault::OutOfMemory => overlap_or_memory(used, entry, unit),
    }
}

impl Plan {
    /// No entries, on a device whose superblock and log are used.
    pub fn new(alloc: Global, params: &Params) -> Result<Plan, OutOfMemory>
        requires { SoundParams params.now }
        ensures params { IfOk result (λ plan. plan.params ≡ params.now) }
        ensures empty { IfOk result (λ plan. plan.entries ≡ []) }
    {
        let units = params.device / params.unit;
        let head = (LOG_OFFSET + params.log_length) / params.unit;
        let map = AllocMap::new(alloc, units, head)?;
        let order = Order::new(alloc)?;
        Ok(Plan {
            params: *params,
            tree: Tree::new(alloc),
            ledger: Ledger {
                order,
                used: Used {
                    map,
                    unit: params.unit,
                },
            },
        })
    }

    /// The same plan. The two share most of what they have until one of them changes.
    pub fn copy(&self, alloc: Global) -> Result<Plan, OutOfMemory>
        ensures { IfOk result (λ plan. plan ≡ self.now) }
    {
        Ok(Plan {
            params: self.params,
            tree: self.tree.copy(alloc)?,
            ledger: self.ledger.copy(alloc)?,
        })
    }

    /// Adds a proper entry behind the others, where it joins them and a slot is left for it. A fault leaves the plan as
    /// it was.
    pub fn add(&mut self, entry: &Entry) -> Result<(), AddFault>
        requires proper { Proper self.old.params entry.now }
        requires left { length self.old.entries < self.old.params.slots }

        ensures joins { OnOk result (join_fault self.old.params self.old.entries entry.now ≡ None) }
        ensures added { OnOk result (self.new.entries ≡ self.old.entries ++ entry.now ∷ []) }

        // Every fault but out of memory comes exactly where it is the first against the entry.
        ensures cause { IfErr result (λ fault. reason_of fault
            ≡ join_fault self.old.params self.old.entries entry.now) }
        ensures same { OnErr result (self.new ≡ self.old) }

        ensures params { self.new.params ≡ self.old.params }
        ensures once { IsOnce (list_units self.new.params.unit self.new.entries) }
    {
        self.add_borrowed(&EntryRef::of(entry))
    }

    /// Adds an entry as `add` does, which is borrowed.
    pub fn add_borrowed(&mut self, entry: &EntryRef<'_>) -> Result<(), AddFault>
        requires proper { Proper self.old.params entry.now }
        requires left { length self.old.entries < self.old.params.slots }

        ensures joins { OnOk result (join_fault self.old.params self.old.entries entry.now ≡ None) }
        ensures added { OnOk result (self.new.entries ≡ self.old.entries ++ entry.now ∷ []) }

        // Every fault but out of memory comes exactly where it is the first against the entry.
        ensures cause { IfErr result (λ fault. reason_of fault
            ≡ join_fault self.old.params self.old.entries entry.now) }
        ensures same { OnErr result (self.new ≡ self.old) }

        ensures params { self.new.params ≡ self.old.params }
        ensures once { IsOnce (list_units self.new.params.unit self.new.entries) }
    {
        if let Err(fault) = self.tree.apply_beside(entry, &mut self.ledger) {
            return Err(first_fault(fault, &self.ledger.used.map, entry, self.params.unit));
        }
        Ok(())
    }

    /// What stands at each path.
    pub fn tree(&self) -> &Tree
        ensures { result.now ≡ replay self.now.entries }
    {
        &self.tree
    }

    /// The tree, which the caller takes over.
    pub fn into_tree(self) -> Tree
        ensures { result ≡ replay self.entries }
    {
        let Plan {
            params: _,
            tree,
            ledger: _,
        } = self;
        tree
    }

    /// The parameters of the file system.
    pub fn params(&self) -> &Params
        ensures { result.now ≡ self.now.params }
    {
        &self.params
    }

    /// How many entries were added.
    pub fn count(&self) -> u64
        ensures count { result ≡ length self.now.entries }
        ensures few { length self.now.entries ≤ self.now.params.slots }
    {
        self.ledger.order.len()
    }

    /// Entry `i`, from 0, in the order in which they were added.
    pub fn at(&self, i: u64) -> Option<Entry>
        ensures { result ≡ slice_get self.now.entries i }
    {
        match self.ledger.order.at(i) {
            Some(path) => self.tree.get(&path),
            None => None,
        }
    }

    /// In every plan the parameters are sound, and each entry is proper and joins those before it.
    pub fn each_entry_joins(&self)
        ensures { IsHistory self.now }
    {
        let _ = &self.params;
    }
}
