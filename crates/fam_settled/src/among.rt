//! The first entries of a log, with the one that pends among them, and what stands at a path.

ghost use Rattle.std.specs.Prelude.{◌≡◌, ◌≤◌, ◌<◌, IfOk, MatchOption, None, Some, length, slice_get, take};
ghost use Rattle.fam_rules.specs.Asks.{entries_of, file_at};
ghost use Rattle.fam_settled.specs.Bytes.{file_with};
ghost use Rattle.fam_settled.specs.Settled.{settled_and_pending, filed, settled_files};

use crate::bytes::{Bytes, Filed};
use crate::log::Log;
use fam_base::{Entry, OutOfMemory, Path};
use fam_plan::Plan;
use std::alloc::Global;

impl Log {
    /// How many entries there are, with the one that pends.
    pub fn all(&self) -> u64
        ensures { result ≡ length (settled_and_pending self.now) }
    {
        self.is_settled();
        let slots = self.params().slots;
        let count = self.count();
        match self.pending() {
            Some(_) => count + 1,
            None => count,
        }
    }

    /// Entry `i` of those that are settled, and where its bytes are from.
    fn settled_at(&self, i: u64) -> (Entry, &Bytes)
        requires { i < length self.now.entries }
        ensures { slice_get (settled_files self.now) i ≡ Some (file_with result.0 result.1.now) }
    {
        let bytes = &self.bytes.as_slice()[i as usize];
        match self.plan.at(i) {
            Some(entry) => (entry, bytes),
            None => unreachable!(),
        }
    }

    /// Entry `i`, from 0, and where its bytes are from: one that is settled, or the one that pends.
    fn entry_at(&self, i: u64) -> (Entry, &Bytes)
        requires { i < length (settled_and_pending self.now) }
        ensures { slice_get (settled_and_pending self.now) i ≡ Some (file_with result.0 result.1.now) }
    {
        if i < self.count() {
            return self.settled_at(i);
        }
        match self.pending() {
            Some(pending) => (pending.entry, &pending.bytes),
            None => unreachable!(),
        }
    }

    /// What stands at a path, by the first `m` entries, of which the pending one may be the last, and where its bytes are from.
    pub(crate) fn found_among(&self, m: u64, path: &Path) -> Option<(Entry, &Bytes)>
        requires { m ≤ length (settled_and_pending self.now) }
        ensures { MatchOption result (file_at (take m (settled_and_pending self.now)) path.now ≡ None)
            (λ found. file_at (take m (settled_and_pending self.now)) path.now ≡ Some (file_with found.0 found.1.now)) }
    {
        for i in 0..m {
            let (entry, bytes) = self.entry_at(i);
            if entry.path == *path {
                return Some((entry, bytes));
            }
        }
        None
    }

    /// What stands at a path, by the first `m` entries, of which the pending one may be the last.
    pub fn file_among(&self, m: u64, path: &Path) -> Result<Option<Filed>, OutOfMemory>
        requires { m ≤ length (settled_and_pending self.now) }
        ensures { IfOk result (λ found. filed found ≡ file_at (take m (settled_and_pending self.now)) path.now) }
    {
        match self.found_among(m, path) {
            Some((entry, bytes)) => Ok(Some(Filed {
                entry,
                bytes: bytes.copy()?,
            })),
            None => Ok(None),
        }
    }

    /// A plan of all entries, with the one that pends.
    fn with_pending(&self, alloc: Global) -> Result<Plan, OutOfMemory>
        ensures params { IfOk result (λ plan. plan.params ≡ self.now.params) }
        ensures entries { IfOk result (λ plan. plan.entries ≡ entries_of (settled_and_pending self.now)) }
    {
        let mut plan = self.plan.copy(alloc)?;
        match &self.pending {
            Some(pending) => match plan.add(&pending.entry) {
                Ok(()) => Ok(plan),
                Err(_) => Err(OutOfMemory),
            },
            None => Ok(plan),
        }
    }

    /// A plan of the first `m` entries, of which the pending one may be the last.
    pub fn first(&self, alloc: Global, m: u64) -> Result<Plan, OutOfMemory>
        requires { m ≤ length (settled_and_pending self.now) }
        ensures params { IfOk result (λ plan. plan.params ≡ self.now.params) }
        ensures entries { IfOk result (λ plan. plan.entries ≡ entries_of (take m (settled_and_pending self.now))) }
    {
        if m < self.count() {
            return self.plan.first(alloc, m);
        }
        if m == self.count() {
            return self.plan.copy(alloc);
        }
        self.with_pending(alloc)
    }
}
