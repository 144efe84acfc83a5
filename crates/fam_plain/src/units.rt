//! Units of entries, as lists of all of them.

ghost use Rattle.std.specs.Prelude.{◌≡◌, ◌+◌, ◌/◌, ◌==◌, ◌||◌, ◌<◌, ◌≤◌, ◌^◌, ◌++◌, length, IfOk, OnOk};
ghost use Rattle.std.specs.List.{range_with_len};
ghost use Rattle.fam_format.specs.Params.{SoundParams};
ghost use Rattle.fam_format.specs.Units as format;
ghost use Rattle.fam_format.specs.Layout.{head_units};
ghost use Rattle.fam_plain.specs.Joining.{is_seen};

use fam_base::{Entry, Extent, OutOfMemory, Params};
use fam_format::LOG_OFFSET;
use std::alloc::Global;

/// Adds so many numbers, from one on.
fn push_range(units: &mut Vec<u64>, first: u64, count: u64) -> Result<(), OutOfMemory>
    requires { first + count ≤ 2 ^ 64 }
    ensures { OnOk result (units.new.items ≡ units.old.items ++ range_with_len first count) }
{
    for k in 0..count {
        match units.push(first + k) {
            Ok(()) => {}
            Err(_) => return Err(OutOfMemory),
        }
    }
    Ok(())
}

/// Adds the units of an extent.
fn push_extent(units: &mut Vec<u64>, unit: u64, extent: Extent) -> Result<(), OutOfMemory>
    requires { 2 ≤ unit }
    ensures { OnOk result (units.new.items
        ≡ units.old.items ++ range_with_len (extent.offset / unit) (extent.length / unit)) }
{
    push_range(units, extent.offset / unit, extent.length / unit)
}

/// Adds the units of extents.
pub(crate) fn push_units(
    units: &mut Vec<u64>,
    unit: u64,
    extents: &[Extent],
) -> Result<(), OutOfMemory>
    requires { 2 ≤ unit }
    ensures { OnOk result (units.new.items ≡ units.old.items ++ format.units_in unit extents.now) }
{
    for extent in extents {
        push_extent(units, unit, *extent)?;
    }
    Ok(())
}

/// The units of all extents of entries.
pub(crate) fn list_units(
    alloc: Global,
    unit: u64,
    entries: &[Entry],
) -> Result<Vec<u64>, OutOfMemory>
    requires { 2 ≤ unit }
    ensures { IfOk result (λ units. units.items ≡ format.list_units unit entries.now) }
{
    let mut units = Vec::new(alloc);
    for entry in entries {
        push_units(&mut units, unit, entry.extents.as_slice())?;
    }
    Ok(units)
}

/// The unit is one of superblock and log, or one of these.
pub(crate) fn is_seen(head: u64, seen: &[u64], unit: u64) -> bool
    ensures { result ≡ is_seen head seen.now unit }
{
    if unit < head {
        return true;
    }
    for other in seen {
        if *other == unit {
            return true;
        }
    }
    false
}

/// The first of the units that superblock, log or `seen` has, or that stands among them twice. Each unit that was
/// looked at joins `seen`.
pub(crate) fn first_overlap(
    head: u64,
    seen: &mut Vec<u64>,
    units: &[u64],
) -> Result<Option<u64>, OutOfMemory>
    ensures { IfOk result (λ found. found ≡ format.first_overlap (is_seen head seen.old.items) units.now) }
{
    for unit in units {
        if is_seen(head, seen, *unit) {
            return Ok(Some(*unit));
        }
        match seen.push(*unit) {
            Ok(()) => {}
            Err(_) => return Err(OutOfMemory),
        }
    }
    Ok(None)
}

/// The units of superblock and log.
pub(crate) fn head_units(params: &Params) -> u64
    requires { SoundParams params.now }
    ensures { result ≡ head_units params.now }
{
    (LOG_OFFSET + params.log_length) / params.unit
}
