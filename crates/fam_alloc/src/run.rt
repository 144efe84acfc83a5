//! The lowest run of free units, in a range and in buckets.

ghost use Rattle.std.specs.Prelude.{◌≡◌, ◌+◌, ◌*◌, ◌/◌, ◌<◌, ◌≤◌};
ghost use Rattle.fam_rules.specs.Room.{room, offer, strips};
ghost use Rattle.fam_alloc.specs.Runs.{outside, AreSpaced};

use crate::bits::MOST_UNITS;
use crate::runs::first_start;
use crate::starts::Starts;
use std::collections::BTreeMap;

/// The lowest start of so many free units from `from` on and below `to`. Looks at the runs that start in the range,
/// and at the one that holds `from`.
pub fn lowest_run(
    runs: &BTreeMap<u64, u64>,
    units: u64,
    from: u64,
    to: u64,
    count: u64,
) -> Option<u64>
    requires spaced { AreSpaced 0 units runs.now.entries }
    requires few { units ≤ MOST_UNITS }
    requires order { from ≤ to }
    requires some { 0 < count }
    ensures { result ≡ room (outside runs.now.entries) from to count }
{
    let first = first_start(runs, units, from);
    for (start, length) in runs.range(first..to) {
        let begin = from.max(*start);
        let end = to.min(start.saturating_add(*length));
        if end.saturating_sub(begin) >= count {
            return Some(begin);
        }
    }
    None
}

/// What the bucket of a turn offers: the lowest start of so many free units that lie wholly in it.
fn offer(
    runs: &BTreeMap<u64, u64>,
    units: u64,
    count: u64,
    nbuckets: u64,
    seq: u64,
    turn: u64,
) -> Option<u64>
    requires turn { turn < nbuckets }
    requires spaced { AreSpaced 0 units runs.now.entries }
    requires few { units ≤ MOST_UNITS }
    requires buckets { nbuckets ≤ 64 }
    requires some { 0 < count }
    ensures { result ≡ offer (outside runs.now.entries) (units / nbuckets) count nbuckets seq turn }
{
    let width = units / nbuckets;
    let bucket = (seq % nbuckets + turn) % nbuckets;
    lowest_run(runs, units, bucket * width, (bucket + 1) * width, count)
}

/// The first offers in the order of turns, as many as asked for.
pub fn first_strips(
    runs: &BTreeMap<u64, u64>,
    units: u64,
    count: u64,
    nstrips: u64,
    nbuckets: u64,
    seq: u64,
) -> Option<Starts>
    requires spaced { AreSpaced 0 units runs.now.entries }
    requires few { units ≤ MOST_UNITS }
    requires buckets { nbuckets ≤ 64 }
    requires some { 0 < count }
    requires strip { 0 < nstrips }
    requires strips { nstrips ≤ 16 }
    ensures { result ≡ strips (outside runs.now.entries) units count nstrips nbuckets seq }
{
    let mut starts = Starts::new();
    for turn in 0..nbuckets {
        starts.add(offer(runs, units, count, nbuckets, seq, turn));
        if starts.len() == nstrips {
            return Some(starts);
        }
    }
    None
}
