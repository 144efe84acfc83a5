//! Large maps.

ghost use Rattle.std.specs.Prelude.{◌≡◌, ◌≤◌, [], ◌∷◌, length};
ghost use Rattle.fam_alloc.specs.declared.bits.TheConstants.{MOST_UNITS};

use fam_alloc::{AllocMap, UsedUnits};
use fam_base::{Extent, Extents};
use std::test::Fail;

/// Bytes of a unit.
const UNIT: u64 = 4096;

/// The units of the largest device.
const LARGEST: u64 = 268_435_456;

#[test]
fn the_largest_device_has_a_map(rt: HostRuntime) -> Result<(), Fail> {
    let map = AllocMap::new(rt.alloc(), LARGEST, 268_434_432)?;
    assert!(rt; map.find(1024) == Some(268_434_432) && map.find(1025) == None);
    let empty = AllocMap::new(rt.alloc(), LARGEST, 0)?;
    assert!(rt; empty.find(LARGEST) == Some(0));
    Ok(())
}

/// One extent.
fn one(extent: Extent) -> Extents
    ensures { result ≡ extent ∷ [] }
{
    let mut extents = Extents::new();
    extents.push(extent);
    extents
}

/// Marks units from `first` on and below `end`.
fn cover_run(map: &mut UsedUnits, first: u64, end: u64)
    requires order { first ≤ end }
    requires within { end ≤ length map.old }
    requires few { end ≤ MOST_UNITS }
    ensures { length map.new ≡ length map.old }
{
    let run = Extent {
        offset: first * UNIT,
        length: (end - first) * UNIT,
    };
    map.cover(&one(run), UNIT);
}

#[test]
fn units_that_are_used_are_skipped(rt: HostRuntime) -> Result<(), Fail> {
    // Word by word this would look at 80,000,000,000 words.
    let mut map = UsedUnits::new(rt.alloc(), 268_435_456, 528)?;
    for i in 0..20_000 {
        cover_run(&mut map, 20_528 - i, 268_415_000 + i);
    }
    assert!(rt; map.count() == 268_434_998);
    Ok(())
}
