//! The units of extents: which of them overlap, and how they are marked.

ghost use Rattle.std.specs.Prelude.{◌≡◌, ℕ, Bool, true, false, not, ◌+◌, ◌*◌, ◌/◌, ◌<◌, ◌≤◌, ◌==◌, ◌&&◌, ◌||◌, length, nat_lt, take, slice_index_or};
ghost use Rattle.std.specs.List.{list_any};
ghost use Rattle.fam_base.specs.ExtentLists.{no_extent};
ghost use Rattle.fam_format.specs.Units.{units_in, first_overlap};
ghost use Rattle.fam_rules.specs.Reports.{is_overlap};
ghost use Rattle.fam_alloc.specs.Next.{is_bit_set, is_between, IsNext};
ghost use Rattle.fam_alloc.specs.Taken.{LieWithin, holds};

use crate::bits::MOST_UNITS;
use crate::layers::Layers;
use fam_base::{Extent, Extents};

/// Units of a device, some of which are used.
pub trait Occupied {
    /// Whether a unit is used.
    ghost is_used: { Self → ℕ → Bool };

    /// How many units there are.
    ghost units: { Self → ℕ };

    /// The first unit from `from` on and below `to` that is used, or `to`.
    fn next_used(&self, from: u64, to: u64) -> u64
        requires order { from ≤ to }
        requires within { to ≤ units self.now }
        ensures { IsNext (is_used self.now) true from to result };
}

/// Units from `start` on and below `end`.
#[derive(Clone, Copy)]
pub struct Run {
    pub start: u64,
    pub end: u64,
}

/// The extent at a place.
fn extent_at(extents: &Extents, i: u64) -> Extent
    ensures { result ≡ slice_index_or extents.now i no_extent }
{
    match extents.at(i) {
        Some(extent) => extent,
        None => Extent {
            offset: 0,
            length: 0,
        },
    }
}

/// The units of the extent at a place.
pub fn run_at(extents: &Extents, unit: u64, units: u64, i: u64) -> Run
    requires unit { 0 < unit }
    requires within { LieWithin unit units extents.now }
    requires few { units ≤ MOST_UNITS }
    ensures start { result.start ≡ (slice_index_or extents.now i no_extent).offset / unit }
    ensures end { result.end ≡ result.start + (slice_index_or extents.now i no_extent).length / unit }
    ensures within { result.end ≤ units }
{
    let extent = extent_at(extents, i);
    let start = extent.offset / unit;
    Run {
        start,
        end: start + extent.length / unit,
    }
}

/// The first unit from `from` on and below `to` that stands in the run, or `to`.
fn first_in(run: Run, from: u64, to: u64) -> u64
    requires { from ≤ to }
    ensures { IsNext (is_between run.start run.end) true from to result }
{
    let first = from.max(run.start);
    if first < to.min(run.end) { first } else { to }
}

/// The first unit of a run that one of the first `count` extents holds, or the run's end.
pub fn first_shared(extents: &Extents, unit: u64, units: u64, count: u64, run: Run) -> u64
    requires unit { 0 < unit }
    requires within { LieWithin unit units extents.now }
    requires few { units ≤ MOST_UNITS }
    requires count { count ≤ length extents.now }
    requires order { run.start ≤ run.end }
    ensures { IsNext (holds (units_in unit (take count extents.now))) true run.start run.end result }
{
    let mut first = run.end;
    for i in 0..count {
        first = first_in(run_at(extents, unit, units, i), run.start, first);
    }
    first
}

/// The first unit of a run that one of the extents holds, or the run's end.
pub fn first_held(extents: &Extents, unit: u64, units: u64, run: Run) -> u64
    requires unit { 0 < unit }
    requires within { LieWithin unit units extents.now }
    requires few { units ≤ MOST_UNITS }
    requires order { run.start ≤ run.end }
    ensures { IsNext (holds (units_in unit extents.now)) true run.start run.end result }
{
    first_shared(extents, unit, units, extents.len(), run)
}

/// The first unit of a run that is below `head`, or the run's end.
pub fn first_below(head: u64, run: Run) -> u64
    requires { run.start ≤ run.end }
    ensures { IsNext (λ u. nat_lt u head) true run.start run.end result }
{
    if run.start < head.min(run.end) {
        run.start
    } else {
        run.end
    }
}

/// The first unit of a run that is used or that one of the first `count` extents holds, or the run's end.
fn first_taken<M: Occupied>(
    map: &M,
    extents: &Extents,
    unit: u64,
    units: u64,
    count: u64,
    run: Run,
) -> u64
    requires unit { 0 < unit }
    requires within { LieWithin unit units extents.now }
    requires few { units ≤ MOST_UNITS }
    requires covered { units ≤ M.units map.now }
    requires count { count ≤ length extents.now }
    requires order { run.start ≤ run.end }
    requires end { run.end ≤ units }
    ensures { IsNext (λ u. M.is_used map.now u || holds (units_in unit (take count extents.now)) u)
        true run.start run.end result }
{
    let end = map.next_used(run.start, run.end);
    let before = Run {
        start: run.start,
        end,
    };
    first_shared(extents, unit, units, count, before)
}

/// The first unit of the extents, in their order and upwards in each, that is used or stands twice.
pub fn first_overlap<M: Occupied>(map: &M, extents: &Extents, unit: u64, units: u64) -> Option<u64>
    requires unit { 0 < unit }
    requires within { LieWithin unit units extents.now }
    requires few { units ≤ MOST_UNITS }
    requires covered { units ≤ M.units map.now }
    ensures { result ≡ first_overlap (M.is_used map.now) (units_in unit extents.now) }
{
    for i in 0..extents.len() {
        let run = run_at(extents, unit, units, i);
        let first = first_taken(map, extents, unit, units, i, run);
        if first < run.end {
            return Some(first);
        }
    }
    None
}

/// The first unit of a run that is below `head` or that one of the first `count` extents holds, or the run's end.
fn first_behind(head: u64, extents: &Extents, unit: u64, units: u64, count: u64, run: Run) -> u64
    requires unit { 0 < unit }
    requires within { LieWithin unit units extents.now }
    requires few { units ≤ MOST_UNITS }
    requires count { count ≤ length extents.now }
    requires order { run.start ≤ run.end }
    ensures { IsNext (λ u. nat_lt u head || holds (units_in unit (take count extents.now)) u)
        true run.start run.end result }
{
    let before = Run {
        start: run.start,
        end: first_below(head, run),
    };
    first_shared(extents, unit, units, count, before)
}

/// The first unit of the extents, in their order and upwards in each, that is below `head` or stands twice: what a map
/// of so many units of which the first `head` are used refuses. No map is made, so it takes no memory.
pub fn overlap_behind(head: u64, extents: &Extents, unit: u64, units: u64) -> Option<u64>
    requires unit { 0 < unit }
    requires within { LieWithin unit units extents.now }
    requires few { units ≤ MOST_UNITS }
    ensures { result ≡ first_overlap (λ u. nat_lt u head) (units_in unit extents.now) }
{
    for i in 0..extents.len() {
        let run = run_at(extents, unit, units, i);
        let first = first_behind(head, extents, unit, units, i, run);
        if first < run.end {
            return Some(first);
        }
    }
    None
}

/// How many units the extents have.
pub fn count_units(extents: &Extents, unit: u64, units: u64) -> u64
    requires unit { 0 < unit }
    requires within { LieWithin unit units extents.now }
    requires few { units ≤ MOST_UNITS }
    ensures { result ≡ length (units_in unit extents.now) }
{
    let mut count = 0;
    for i in 0..extents.len() {
        let run = run_at(extents, unit, units, i);
        count += run.end - run.start;
    }
    count
}

/// Marks the units of the extents as used, whether they were or not.
pub fn cover_all(layers: &mut Layers, extents: &Extents, unit: u64, units: u64)
    requires unit { 0 < unit }
    requires within { LieWithin unit units extents.now }
    requires few { units ≤ MOST_UNITS }
    requires covered { units ≤ 64 * length layers.old }
    ensures marked { (u : ℕ) → is_bit_set layers.new u
        ≡ (is_bit_set layers.old u || holds (units_in unit extents.now) u) }
    ensures len { length layers.new ≡ length layers.old }
{
    for i in 0..extents.len() {
        let run = run_at(extents, unit, units, i);
        layers.cover(run.start, run.end);
    }
}

/// Whether a unit stands in both.
pub fn shares_unit(before: &Extents, extents: &Extents, unit: u64, units: u64) -> bool
    requires unit { 0 < unit }
    requires first { LieWithin unit units before.now }
    requires second { LieWithin unit units extents.now }
    requires few { units ≤ MOST_UNITS }
    ensures { result ≡ list_any (holds (units_in unit before.now)) (units_in unit extents.now) }
{
    for i in 0..extents.len() {
        let run = run_at(extents, unit, units, i);
        if first_held(before, unit, units, run) < run.end {
            return true;
        }
    }
    false
}

/// Whether a unit stands in them twice.
pub fn repeats_unit(extents: &Extents, unit: u64, units: u64) -> bool
    requires unit { 0 < unit }
    requires within { LieWithin unit units extents.now }
    requires few { units ≤ MOST_UNITS }
    ensures { result ≡ is_overlap (first_overlap (λ _. false) (units_in unit extents.now)) }
{
    for i in 0..extents.len() {
        let run = run_at(extents, unit, units, i);
        if first_shared(extents, unit, units, i, run) < run.end {
            return true;
        }
    }
    false
}
