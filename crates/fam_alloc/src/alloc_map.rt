//! The map of used units, kept as free runs.
//!
//! A new file asks for the lowest run that is long enough, and a log of whole files leaves few runs, however large the
//! device is; a bitmap of the largest device would be 32 MiB that are zeroed for each plan. The runs stand in an
//! ordered map from start to length, which a caller may read. Nothing looks for overlaps before units are taken: a
//! refusal leaves the map as it was, and only then is the first unit that overlaps looked for.

ghost use Rattle.std.specs.Prelude.{◌≡◌, ℕ, None, ◌+◌, ◌<◌, ◌≤◌, ◌&&◌, ◌||◌, length, nat_lt, IfOk, OnOk, IfErr, OnErr};
ghost use Rattle.fam_format.specs.Units.{units_in, first_overlap};
ghost use Rattle.fam_rules.specs.Room.{room, strips};
ghost use Rattle.fam_alloc.specs.FreeRuns.{free_runs};
ghost use Rattle.fam_alloc.specs.Runs.{run_after};
ghost use Rattle.fam_alloc.specs.Taken.{is_taken, taken_units, holds, LieWithin};
ghost use Rattle.fam_alloc.specs.TakeFaults.{NamesOverlap};

use crate::bits::MOST_UNITS;
use crate::cut::take_from;
use crate::overlap::{Occupied, count_units, first_overlap};
use crate::run::{first_strips, lowest_run};
use crate::runs::next_outside;
use crate::starts::Starts;
use fam_base::{Extents, OutOfMemory};
use std::alloc::Global;
use std::collections::BTreeMap;
use std::marker::Model;

/// Which units of a device are used. Units are counted from byte 0 of the image, so the first ones are the
/// superblock's and the log's.
#[derive(Drop)]
pub struct AllocMap {
    /// The length of each free run, by its start. Between two of them stands a used unit.
    runs: BTreeMap<u64, u64>,
    units: u64,
    used: u64,
}

/// Why no unit was taken.
#[derive(Clone, Copy)]
pub enum TakeFault {
    /// The first unit, in the order of the extents and upwards in each, that was used or stands twice.
    Overlap(u64),
    OutOfMemory,
}

impl Model for AllocMap {
    ghost use Rattle.std.specs.Prelude.{Bool, List};
    ghost use Rattle.fam_alloc.specs.Runs.{outside, IsMap};
    ghost use Rattle.fam_alloc.specs.Taken.{units_by};

    ghost Value = { List Bool };

    ghost view = { λ a. units_by (outside a.runs.entries) a.units };

    ghost invariant = { λ a. IsMap a.runs.entries a.units a.used };
}

impl Occupied for AllocMap {
    ghost is_used = { is_taken };

    ghost units = { length };

    fn next_used(&self, from: u64, to: u64) -> u64 {
        next_outside(&self.runs, self.units, from, to)
    }
}

/// The one free run of a device of so many units of which the first `used` are used, if there is one.
fn one_run(alloc: Global, units: u64, used: u64) -> Result<BTreeMap<u64, u64>, OutOfMemory>
    requires { used ≤ units }
    ensures { IfOk result (λ runs. runs.entries ≡ run_after used units) }
{
    let mut runs = BTreeMap::new(alloc);
    if used == units {
        return Ok(runs);
    }
    match runs.insert(used, units - used) {
        Ok(_) => Ok(runs),
        Err(_) => Err(OutOfMemory),
    }
}

impl AllocMap {
    /// A device of so many units, of which the first `used` are used.
    pub fn new(alloc: Global, units: u64, used: u64) -> Result<AllocMap, OutOfMemory>
        requires within { used ≤ units }
        requires limit { units ≤ MOST_UNITS }

        ensures units { IfOk result (λ map. length map ≡ units) }
        ensures used { IfOk result (λ map. (u : ℕ) → is_taken map u ≡ nat_lt u used) }
        ensures runs { IfOk result (λ map. length (free_runs map) ≤ 1) }
    {
        let runs = one_run(alloc, units, used)?;
        Ok(AllocMap { runs, units, used })
    }

    /// The same map again, in memory of its own. That is from the allocator of this map, which any `Global` is.
    pub fn copy(&self, _alloc: Global) -> Result<AllocMap, OutOfMemory>
        ensures { IfOk result (λ map. map ≡ self.now) }
    {
        match self.runs.clone() {
            Ok(runs) => Ok(AllocMap {
                runs,
                units: self.units,
                used: self.used,
            }),
            Err(_) => Err(OutOfMemory),
        }
    }

    /// The units of the device.
    pub fn units(&self) -> u64
        ensures count { result ≡ length self.now }
        ensures limit { length self.now ≤ MOST_UNITS }
    {
        self.units
    }

    /// How many of them are used.
    pub fn used(&self) -> u64
        ensures count { result ≡ taken_units self.now }
        ensures within { taken_units self.now ≤ length self.now }
    {
        self.used
    }

    /// Each free run: the number of its units, by its first one. A run starts at a free unit whose lower neighbour
    /// isn't free or isn't a unit, and ends before the next unit that isn't free or isn't one.
    pub fn free_runs(&self) -> &BTreeMap<u64, u64>
        ensures { result.now.entries ≡ free_runs self.now }
    {
        &self.runs
    }

    /// How many free runs there are.
    pub fn runs(&self) -> u64
        ensures { result ≡ length (free_runs self.now) }
    {
        self.runs.len() as u64
    }

    /// The first unit of the extents, in their order and upwards in each, that is used or stands twice: what `take`
    /// refuses, under the same conditions.
    pub fn overlap(&self, extents: &Extents, unit: u64) -> Option<u64>
        requires unit { 0 < unit }
        requires within { LieWithin unit (length self.now) extents.now }
        ensures { result ≡ first_overlap (is_taken self.now) (units_in unit extents.now) }
    {
        first_overlap(self, extents, unit, self.units)
    }

    /// Why the units of extents can't be taken: the first that overlaps, or want of memory where none does.
    fn fault(&self, extents: &Extents, unit: u64) -> TakeFault
        requires unit { 0 < unit }
        requires within { LieWithin unit (length self.now) extents.now }
        ensures { NamesOverlap (first_overlap (is_taken self.now) (units_in unit extents.now)) result }
    {
        match self.overlap(extents, unit) {
            Some(taken) => TakeFault::Overlap(taken),
            None => TakeFault::OutOfMemory,
        }
    }

    /// Marks all units of the extents as used. They are whole units: offsets and lengths are multiples of
    /// `unit`, in bytes. A refusal changes nothing, `OutOfMemory` among them: a run that is taken in its middle
    /// becomes two.
    pub fn take(&mut self, extents: &Extents, unit: u64) -> Result<(), TakeFault>
        requires unit { 0 < unit }
        requires within { LieWithin unit (length self.old) extents.now }

        ensures value { OnOk result ((u : ℕ) →
            is_taken self.new u ≡ (is_taken self.old u || holds (units_in unit extents.now) u)) }
        ensures fits { OnOk result
            (first_overlap (is_taken self.old) (units_in unit extents.now) ≡ None) }

        ensures overlap { IfErr result
            (NamesOverlap (first_overlap (is_taken self.old) (units_in unit extents.now))) }
        ensures err { OnErr result (self.new ≡ self.old) }

        ensures units { length self.new ≡ length self.old }
        ensures runs { OnOk result (length (free_runs self.new) ≤ length (free_runs self.old) + length extents.now) }
    {
        match take_from(&mut self.runs, extents, unit, self.units, 0) {
            Ok(()) => {
                self.used += count_units(extents, unit, self.units);
                Ok(())
            }
            Err(_) => Err(self.fault(extents, unit)),
        }
    }

    /// The lowest start of so many free units in a row.
    pub fn find(&self, count: u64) -> Option<u64>
        requires some { 0 < count }
        ensures { result ≡ room (is_taken self.now) 0 (length self.now) count }
    {
        lowest_run(&self.runs, self.units, 0, self.units, count)
    }

    /// Where strips of so many units each start. The device is cut into `nbuckets` buckets of as many whole
    /// units each, and the rest is used by no strip. Buckets are tried in turn from `seq % nbuckets`, upwards
    /// and round, each once, and the first `nstrips` of them that have room give their lowest run.
    pub fn find_strips(&self, count: u64, nstrips: u64, nbuckets: u64, seq: u64) -> Option<Starts>
        requires some { 0 < count }
        requires strip { 0 < nstrips }
        requires strips { nstrips ≤ 16 }
        requires enough { nstrips ≤ nbuckets }
        requires buckets { nbuckets ≤ 64 }
        ensures { result ≡ strips (is_taken self.now) (length self.now) count nstrips nbuckets seq }
    {
        first_strips(&self.runs, self.units, count, nstrips, nbuckets, seq)
    }
}
