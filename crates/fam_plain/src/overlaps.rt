//! Units that two entries share, by scans over the units of both.

ghost use Rattle.std.specs.Prelude.{◌≡◌, ◌==◌, ◌≤◌, IfOk, find, map, option_map};
ghost use Rattle.std.specs.List.{list_any};
ghost use Rattle.fam_format.specs.Units.{units_in};
ghost use Rattle.fam_rules.specs.Reports.{has_unit_twice, overlap_of, overlaps, share_unit};

use crate::units::{first_overlap, push_units};
use fam_base::{Entry, OutOfMemory};
use std::alloc::Global;

/// The units of an entry.
fn units_of(alloc: Global, unit: u64, entry: &Entry) -> Result<Vec<u64>, OutOfMemory>
    requires { 2 ≤ unit }
    ensures { IfOk result (λ units. units.items ≡ units_in unit entry.now.extents) }
{
    let mut units = Vec::new(alloc);
    push_units(&mut units, unit, entry.extents.as_slice())?;
    Ok(units)
}

/// Whether a unit is one of these.
fn is_in(units: &[u64], unit: u64) -> bool
    ensures { result ≡ list_any (λ other. other == unit) units.now }
{
    units.iter().any(|other| *other == unit)
}

/// Whether one of these units is one of those.
fn meet(first: &[u64], second: &[u64]) -> bool
    ensures { result ≡ list_any (λ u. list_any (λ v. v == u) first.now) second.now }
{
    second.iter().any(|unit| is_in(first, *unit))
}

/// Whether a unit stands in the extents of both entries.
fn shares_unit(alloc: Global, unit: u64, first: &Entry, second: &Entry) -> Result<bool, OutOfMemory>
    requires { 2 ≤ unit }
    ensures { IfOk result (λ shares. shares ≡ share_unit unit first.now second.now) }
{
    let ours = units_of(alloc, unit, first)?;
    let theirs = units_of(alloc, unit, second)?;
    Ok(meet(&ours, &theirs))
}

/// Whether a unit stands twice in the extents of an entry.
fn repeats_unit(alloc: Global, unit: u64, entry: &Entry) -> Result<bool, OutOfMemory>
    requires { 2 ≤ unit }
    ensures { IfOk result (λ repeats. repeats ≡ has_unit_twice unit entry.now) }
{
    let units = units_of(alloc, unit, entry)?;
    let mut seen = Vec::new(alloc);
    let twice = first_overlap(0, &mut seen, &units)?;
    Ok(twice.is_some())
}

/// Whether two entries share a unit, or the one entry has a unit twice.
fn overlaps(
    alloc: Global,
    unit: u64,
    first: &(u64, Entry),
    second: &(u64, Entry),
) -> Result<bool, OutOfMemory>
    requires { 2 ≤ unit }
    ensures { IfOk result (λ answer. answer ≡ overlaps unit (first.now, second.now)) }
{
    if first.0 == second.0 {
        return repeats_unit(alloc, unit, &second.1);
    }
    shares_unit(alloc, unit, &first.1, &second.1)
}

/// The numbers of the first of these entries that overlaps the last one, and of that one.
fn partner(
    alloc: Global,
    unit: u64,
    found: &[(u64, Entry)],
    last: &(u64, Entry),
) -> Result<Option<(u64, u64)>, OutOfMemory>
    requires { 2 ≤ unit }
    ensures { IfOk result (λ pair. pair ≡ option_map (λ both. (both.0.0, both.1.0))
        (find (overlaps unit) (map (λ a. (a, last.now)) found.now))) }
{
    for first in found {
        if overlaps(alloc, unit, first, last)? {
            return Ok(Some((first.0, last.0)));
        }
    }
    Ok(None)
}

/// The numbers of the least pair of entries that overlap: by the second number, then by the first.
pub(crate) fn least_overlap(
    alloc: Global,
    unit: u64,
    found: &[(u64, Entry)],
) -> Result<Option<(u64, u64)>, OutOfMemory>
    requires { 2 ≤ unit }
    ensures { IfOk result (λ pair. pair ≡ overlap_of unit found.now) }
{
    for last in 0..found.len() {
        let pair = partner(alloc, unit, &found[..last + 1], &found[last])?;
        if pair.is_some() {
            return Ok(pair);
        }
    }
    Ok(None)
}
