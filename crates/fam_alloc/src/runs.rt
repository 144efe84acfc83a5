//! Free runs of units: an ordered map from the start of each to its length. `specs/Runs.antt` says which units stand
//! in them.

ghost use Rattle.std.specs.Prelude.{true, ◌≤◌};
ghost use Rattle.std.specs.List.{AllByRecursion};
ghost use Rattle.std.specs.Prelude.{◌<◌, ◌+◌};
ghost use Rattle.fam_alloc.specs.Next.{IsNext};
ghost use Rattle.fam_alloc.specs.Runs.{outside, AreSpaced, IsLast};

use crate::bits::MOST_UNITS;
use crate::overlap::Run;
use std::collections::BTreeMap;

/// The last run that starts at a unit or below it.
pub fn last_run(runs: &BTreeMap<u64, u64>, units: u64, unit: u64) -> Option<Run>
    requires spaced { AreSpaced 0 units runs.now.entries }
    requires few { units ≤ MOST_UNITS }
    ensures { IsLast runs.now.entries unit result }
{
    match runs.range(..=unit).next_back() {
        Some((start, length)) => Some(Run {
            start: *start,
            end: *start + *length,
        }),
        None => None,
    }
}

/// The first unit from `from` on and below `to` that is in no run, or `to`.
pub fn next_outside(runs: &BTreeMap<u64, u64>, units: u64, from: u64, to: u64) -> u64
    requires spaced { AreSpaced 0 units runs.now.entries }
    requires few { units ≤ MOST_UNITS }
    requires order { from ≤ to }
    ensures { IsNext (outside runs.now.entries) true from to result }
{
    match last_run(runs, units, from) {
        Some(run) => run.end.max(from).min(to),
        None => from,
    }
}

/// The start of the run that holds a unit, or else a start below which no run reaches beyond it.
pub fn first_start(runs: &BTreeMap<u64, u64>, units: u64, unit: u64) -> u64
    requires spaced { AreSpaced 0 units runs.now.entries }
    requires few { units ≤ MOST_UNITS }
    ensures low { result ≤ unit }
    ensures before { AllByRecursion (λ r. r.0 < result → r.0 + r.1 ≤ unit) runs.now.entries }
{
    match last_run(runs, units, unit) {
        Some(run) => run.start,
        None => unit,
    }
}
