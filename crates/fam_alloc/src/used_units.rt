//! The units that extents use, where a unit may stand in more than one of them.

ghost use Rattle.std.specs.Prelude.{◌≡◌, ℕ, ◌*◌, ◌<◌, ◌≤◌, ◌||◌, length, nat_lt, vec_len, IfOk};
ghost use Rattle.fam_format.specs.Units.{units_in, first_overlap};
ghost use Rattle.fam_alloc.specs.Next.{is_bit_set};
ghost use Rattle.fam_alloc.specs.Taken.{is_taken, taken_units, units_by, holds, LieWithin};

use crate::bits::{MOST_UNITS, next};
use crate::layers::Layers;
use crate::overlap::{Occupied, cover_all, first_overlap};
use fam_base::{Extents, OutOfMemory};
use std::alloc::Global;
use std::marker::Model;

/// Which units of a device are used, of entries that may overlap. Units are counted from byte 0 of the image.
#[derive(Drop)]
pub struct UsedUnits {
    layers: Layers,
    units: u64,
}

impl Model for UsedUnits {
    ghost use Rattle.std.specs.Prelude.{Bool, List, ◌*◌, ◌≤◌, length};
    ghost use Rattle.fam_alloc.specs.declared.bits.TheConstants.{MOST_UNITS};
    ghost use Rattle.fam_alloc.specs.Next.{is_bit_set};
    ghost use Rattle.fam_alloc.specs.Taken.{units_by};

    ghost Value = { List Bool };

    ghost view = { λ a. units_by (is_bit_set a.layers) a.units };

    ghost invariant = { λ a. (a.units ≤ 64 * length a.layers) × (a.units ≤ MOST_UNITS) };
}

/// How many units are used. It goes from run to run.
fn count_used(words: &Vec<u64>, units: u64) -> u64
    requires covered { units ≤ 64 * vec_len words.now }
    requires few { units ≤ MOST_UNITS }
    ensures { result ≡ taken_units (units_by (is_bit_set words.now.items) units) }
{
    let mut count = 0;
    let mut unit = 0;
    while unit < units {
        let start = next(words, true, unit, units);
        let end = next(words, false, start, units);
        count += end - start;
        unit = end;
    }
    count
}

impl Occupied for UsedUnits {
    ghost is_used = { is_taken };

    ghost units = { length };

    fn next_used(&self, from: u64, to: u64) -> u64 {
        next(self.layers.words(), true, from, to)
    }
}

impl UsedUnits {
    /// A device of so many units, of which the first `used` are used.
    pub fn new(alloc: Global, units: u64, used: u64) -> Result<UsedUnits, OutOfMemory>
        requires within { used ≤ units }
        requires limit { units ≤ MOST_UNITS }

        ensures units { IfOk result (λ map. length map ≡ units) }
        ensures used { IfOk result (λ map. (u : ℕ) → is_taken map u ≡ nat_lt u used) }
    {
        let mut layers = Layers::new(alloc, units.div_ceil(64))?;
        layers.cover(0, used);
        Ok(UsedUnits { layers, units })
    }

    /// The units of the device.
    pub fn units(&self) -> u64
        ensures count { result ≡ length self.now }
        ensures limit { length self.now ≤ MOST_UNITS }
    {
        self.units
    }

    /// The first unit, in the order of the extents and upwards in each, that is used or stands twice.
    pub fn first_overlap(&self, extents: &Extents, unit: u64) -> Option<u64>
        requires unit { 0 < unit }
        requires within { LieWithin unit (length self.now) extents.now }
        ensures { result ≡ first_overlap (is_taken self.now) (units_in unit extents.now) }
    {
        first_overlap(self, extents, unit, self.units)
    }

    /// Marks all units of the extents as used, whether they were or not. They are whole units: offsets and lengths
    /// are multiples of `unit`, in bytes.
    pub fn cover(&mut self, extents: &Extents, unit: u64)
        requires unit { 0 < unit }
        requires within { LieWithin unit (length self.old) extents.now }

        ensures value { (u : ℕ) → is_taken self.new u ≡ (is_taken self.old u || holds (units_in unit extents.now) u) }
        ensures units { length self.new ≡ length self.old }
    {
        cover_all(&mut self.layers, extents, unit, self.units);
    }

    /// How many units are used.
    pub fn count(&self) -> u64
        ensures count { result ≡ taken_units self.now }
        ensures within { taken_units self.now ≤ length self.now }
    {
        count_used(self.layers.words(), self.units)
    }
}
