//! Units that are taken out of free runs, all or none.
//!
//! A run that loses its first units stays as a run of none until all extents are taken: its place in the map is then
//! there to give it back, so that no step back takes memory. A copy of the map, put in its place at the end, would be
//! simpler, and would cost a full log the square of its runs.

ghost use Rattle.std.specs.Prelude.{◌≡◌, ℕ, None, ◌+◌, ◌-◌, ◌<◌, ◌≤◌, ◌||◌, length, drop, IfOk, OnOk, OnErr};
ghost use Rattle.fam_format.specs.Units.{units_in, first_overlap};
ghost use Rattle.fam_alloc.specs.Runs.{outside, AreSpaced, IsInRun, is_empty_at, with_length, with_rest, without_rest, settled};
ghost use Rattle.fam_alloc.specs.Taken.{LieWithin, holds};

use crate::bits::MOST_UNITS;
use crate::overlap::{Run, run_at};
use crate::runs::last_run;
use fam_base::Extents;
use std::collections::BTreeMap;

/// Nothing was taken: a unit is used or stands twice, or there is no memory.
#[derive(Drop)]
pub struct NotTaken;

/// Gives a run another length, if one starts there. It takes no memory.
fn set_length(runs: &mut BTreeMap<u64, u64>, start: u64, length: u64)
    ensures { runs.new.entries ≡ with_length runs.old.entries start length }
{
    if let Some(held) = runs.get_mut(&start) {
        *held = length;
    }
}

/// Adds what a run up to `past` has from `end` on as a run of its own.
fn keep_rest(runs: &mut BTreeMap<u64, u64>, end: u64, past: u64) -> Result<(), NotTaken>
    ensures kept { OnOk result (runs.new.entries ≡ with_rest runs.old.entries end past) }
    ensures err { OnErr result (runs.new.entries ≡ runs.old.entries) }
{
    if end >= past {
        return Ok(());
    }
    match runs.insert(end, past - end) {
        Ok(_) => Ok(()),
        Err(_) => Err(NotTaken),
    }
}

/// Removes it again.
fn drop_rest(runs: &mut BTreeMap<u64, u64>, end: u64, past: u64)
    ensures { runs.new.entries ≡ without_rest runs.old.entries end past }
{
    if end < past {
        runs.remove(&end);
    }
}

/// Takes units out of the run that holds them. The run's front part stays, also where it has no units.
fn open(runs: &mut BTreeMap<u64, u64>, held: Run, run: Run) -> Result<(), NotTaken>
    requires low { held.start ≤ run.start }
    ensures opened { OnOk result (runs.new.entries
        ≡ with_length (with_rest runs.old.entries run.end held.end) held.start (run.start - held.start)) }
    ensures err { OnErr result (runs.new.entries ≡ runs.old.entries) }
{
    keep_rest(runs, run.end, held.end)?;
    set_length(runs, held.start, run.start - held.start);
    Ok(())
}

/// Puts them back. It takes no memory.
fn close(runs: &mut BTreeMap<u64, u64>, held: Run, run: Run)
    requires order { held.start ≤ held.end }
    ensures { runs.new.entries
        ≡ with_length (without_rest runs.old.entries run.end held.end) held.start (held.end - held.start) }
{
    drop_rest(runs, run.end, held.end);
    set_length(runs, held.start, held.end - held.start);
}

/// Removes the front part where it has no units.
fn settle(runs: &mut BTreeMap<u64, u64>, held: Run, run: Run)
    ensures { runs.new.entries ≡ settled runs.old.entries held.start run.start }
{
    if held.start == run.start {
        runs.remove(&held.start);
    }
}

/// Leaves a run its units in front of `end`, or removes it where it has none.
fn shorten(runs: &mut BTreeMap<u64, u64>, start: u64, end: u64)
    requires { start ≤ end }
    ensures { runs.new.entries ≡ settled (with_length runs.old.entries start (end - start)) start end }
{
    if start == end {
        runs.remove(&start);
    } else {
        set_length(runs, start, end - start);
    }
}

/// Takes units out of the run that holds them, for good.
fn take_run(runs: &mut BTreeMap<u64, u64>, held: Run, run: Run) -> Result<(), NotTaken>
    requires low { held.start ≤ run.start }
    ensures taken { OnOk result (runs.new.entries
        ≡ settled (with_length (with_rest runs.old.entries run.end held.end) held.start (run.start - held.start))
        held.start run.start) }
    ensures err { OnErr result (runs.new.entries ≡ runs.old.entries) }
{
    keep_rest(runs, run.end, held.end)?;
    shorten(runs, held.start, run.start);
    Ok(())
}

/// The run that holds all units of another.
fn holder(runs: &BTreeMap<u64, u64>, units: u64, run: Run) -> Result<Run, NotTaken>
    requires spaced { AreSpaced 0 units runs.now.entries }
    requires few { units ≤ MOST_UNITS }
    ensures held { IfOk result (λ held. IsInRun runs.now.entries run.start held.start held.end) }
    ensures whole { IfOk result (λ held. run.end ≤ held.end) }
{
    match last_run(runs, units, run.start) {
        Some(held) if run.end <= held.end => Ok(held),
        _ => Err(NotTaken),
    }
}

/// Takes the units of the extents from the `i`th on, or changes nothing.
pub fn take_from(
    runs: &mut BTreeMap<u64, u64>,
    extents: &Extents,
    unit: u64,
    units: u64,
    i: u64,
) -> Result<(), NotTaken>
    requires unit { 0 < unit }
    requires within { LieWithin unit units extents.now }
    requires few { units ≤ MOST_UNITS }
    requires count { i ≤ length extents.now }
    requires spaced { AreSpaced 0 units runs.old.entries }

    ensures spaced { AreSpaced 0 units runs.new.entries }
    ensures taken { OnOk result ((u : ℕ) → outside runs.new.entries u
        ≡ (outside runs.old.entries u || holds (units_in unit (drop i extents.now)) u)) }
    ensures fits { OnOk result
        (first_overlap (outside runs.old.entries) (units_in unit (drop i extents.now)) ≡ None) }
    ensures empty { OnOk result ((q : ℕ) → is_empty_at runs.new.entries q ≡ is_empty_at runs.old.entries q) }
    ensures more { OnOk result (length runs.new.entries + i ≤ length runs.old.entries + length extents.now) }

    ensures err { OnErr result (runs.new.entries ≡ runs.old.entries) }
{
    if i >= extents.len() {
        return Ok(());
    }
    let run = run_at(extents, unit, units, i);
    if run.start == run.end {
        return take_from(runs, extents, unit, units, i + 1);
    }
    let held = holder(runs, units, run)?;
    if i + 1 == extents.len() {
        take_run(runs, held, run)?;
        return Ok(());
    }
    open(runs, held, run)?;
    if let Err(refused) = take_from(runs, extents, unit, units, i + 1) {
        close(runs, held, run);
        return Err(refused);
    }
    settle(runs, held, run);
    Ok(())
}
