//! What is against an entry by the first entries of a plan alone, and a plan of these alone. The others are left out as if
//! they had never been added. What is against an entry is told without memory: the entries are looked through one by one,
//! so that it is known also where no memory is left for a plan of its own.

ghost use Rattle.std.specs.Prelude.{◌≡◌, ◌≤◌, ◌<◌, ◌||◌, IfOk, None, Some, length, slice_get, take, true};
ghost use Rattle.std.specs.FinMap as map;
ghost use Rattle.fam_base.specs.Paths.{parent_of};
ghost use Rattle.fam_format.specs.Layout.{device_units};
ghost use Rattle.fam_format.specs.Slot.{Proper};
ghost use Rattle.fam_format.specs.Tree as tree;
ghost use Rattle.fam_format.specs.Tree.{join_fault, replay};
ghost use Rattle.fam_format.specs.Units.{first_overlap, is_used, units_in};
ghost use Rattle.fam_alloc.specs.Next.{IsNext};
ghost use Rattle.fam_alloc.specs.Taken.{LieWithin, holds};

use crate::plan::Plan;
use fam_alloc::{Run, first_below, first_held, first_shared, run_at};
use fam_base::{Entry, Extents, Kind, OutOfMemory, Path};
use fam_format::{LOG_OFFSET, Reason};
use std::alloc::Global;

/// Why nothing may stand below what stands at a path.
fn parent_fault(found: Option<Entry>) -> Option<Reason>
    ensures { result ≡ tree.parent_fault found }
{
    match found {
        None => Some(Reason::NoParent),
        Some(parent) => match parent.kind {
            Kind::File => Some(Reason::ParentIsFile),
            Kind::Directory => None,
        },
    }
}

impl Plan {
    /// The units of the device.
    fn units(&self) -> u64
        ensures { result ≡ device_units self.now.params }
    {
        self.each_entry_joins();
        self.params.device / self.params.unit
    }

    /// Entry `i`, of which there is one.
    fn entry(&self, i: u64) -> Entry
        requires { i < length self.now.entries }
        ensures value { slice_get self.now.entries i ≡ Some result }
        ensures proper { Proper self.now.params result }
    {
        self.each_entry_joins();
        match self.at(i) {
            Some(entry) => entry,
            None => unreachable!(),
        }
    }

    /// What stands at a path, by the first `count` entries.
    fn held_among(&self, count: u64, path: &Path) -> Option<Entry>
        requires { count ≤ length self.now.entries }
        ensures { result ≡ map.get (replay (take count self.now.entries)) path.now }
    {
        let mut found = None;
        for i in 0..count {
            let entry = self.entry(i);
            if entry.path == *path {
                found = Some(entry);
            }
        }
        found
    }

    /// Why a path can't have its parent, by the first `count` entries.
    fn root_fault_among(&self, count: u64, path: &Path) -> Option<Reason>
        requires { count ≤ length self.now.entries }
        ensures { result ≡ tree.root_fault (replay (take count self.now.entries)) (parent_of path.now) }
    {
        match path.parent() {
            Some(parent) => parent_fault(self.held_among(count, &parent)),
            None => None,
        }
    }

    /// Why an entry can't be put into the tree of the first `count` entries.
    fn tree_fault_among(&self, count: u64, entry: &Entry) -> Option<Reason>
        requires { count ≤ length self.now.entries }
        ensures { result ≡ tree.tree_fault (replay (take count self.now.entries)) entry.now }
    {
        match self.held_among(count, &entry.path) {
            Some(old) => Some(Reason::Exists(old.kind)),
            None => self.root_fault_among(count, &entry.path),
        }
    }

    /// The first unit of a run that superblock, log or one of the first `count` entries use, or the run's end.
    fn first_used(&self, count: u64, run: Run) -> u64
        requires count { count ≤ length self.now.entries }
        requires order { run.start ≤ run.end }
        ensures { IsNext (is_used self.now.params (take count self.now.entries)) true run.start run.end result }
    {
        self.each_entry_joins();
        let unit = self.params.unit;
        let mut end = first_below((LOG_OFFSET + self.params.log_length) / unit, run);
        for i in 0..count {
            let before = Run {
                start: run.start,
                end,
            };
            end = first_held(&self.entry(i).extents, unit, self.units(), before);
        }
        end
    }

    /// The first unit of a run that these use or that one of the first `i` extents holds, or the run's end.
    fn first_taken(&self, count: u64, extents: &Extents, i: u64, run: Run) -> u64
        requires within { LieWithin self.now.params.unit (device_units self.now.params) extents.now }
        requires count { count ≤ length self.now.entries }
        requires extents { i ≤ length extents.now }
        requires order { run.start ≤ run.end }
        ensures { IsNext (λ u. is_used self.now.params (take count self.now.entries) u
            || holds (units_in self.now.params.unit (take i extents.now)) u) true run.start run.end result }
    {
        self.each_entry_joins();
        let before = Run {
            start: run.start,
            end: self.first_used(count, run),
        };
        first_shared(extents, self.params.unit, self.units(), i, before)
    }

    /// The first unit of an entry that superblock, log or one of the first `count` entries use, or that stands twice in
    /// it.
    fn overlap_among(&self, count: u64, extents: &Extents) -> Option<u64>
        requires within { LieWithin self.now.params.unit (device_units self.now.params) extents.now }
        requires count { count ≤ length self.now.entries }
        ensures { result ≡ first_overlap (is_used self.now.params (take count self.now.entries))
            (units_in self.now.params.unit extents.now) }
    {
        self.each_entry_joins();
        for i in 0..extents.len() {
            let run = run_at(extents, self.params.unit, self.units(), i);
            let first = self.first_taken(count, extents, i, run);
            if first < run.end {
                return Some(first);
            }
        }
        None
    }

    /// Why a proper entry doesn't join the first `count` entries. It takes no memory.
    #[tactic(auto, unfolding(fam_format::specs::Tree::join_fault))]
    pub fn fault_among(&self, count: u64, entry: &Entry) -> Option<Reason>
        requires proper { Proper self.now.params entry.now }
        requires count { count ≤ length self.now.entries }
        ensures { result ≡ join_fault self.now.params (take count self.now.entries) entry.now }
    {
        if let Some(fault) = self.tree_fault_among(count, entry) {
            return Some(fault);
        }
        match self.overlap_among(count, &entry.extents) {
            Some(unit) => Some(Reason::Overlap(unit)),
            None => None,
        }
    }

    /// The first `count` entries as a plan of their own.
    pub fn first(&self, alloc: Global, count: u64) -> Result<Plan, OutOfMemory>
        requires { count ≤ length self.now.entries }
        ensures first { IfOk result (λ plan. plan.entries ≡ take count self.now.entries) }
        ensures params { IfOk result (λ plan. plan.params ≡ self.now.params) }
    {
        self.each_entry_joins();
        let mut plan = Plan::new(alloc, &self.params)?;
        for i in 0..count {
            match plan.add(&self.entry(i)) {
                Ok(()) => {}
                Err(_) => return Err(OutOfMemory),
            }
        }
        Ok(plan)
    }
}
