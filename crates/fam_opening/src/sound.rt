//! The entries of a sound log as settled ones, each with the bytes that its file has.

ghost use Rattle.std.specs.Prelude.{◌≡◌, ◌+◌, ◌*◌, ◌<◌, ◌≤◌, IfErr, IfOk, None, OnOk, Some, length, map, slice_get, take};
ghost use Rattle.fam_base.specs.Image.{line_at};
ghost use Rattle.fam_journal.specs.Past as past;
ghost use Rattle.fam_media.specs.Causes.{IsSteady};
ghost use Rattle.fam_media.specs.Outside.{IfModelled};
ghost use Rattle.fam_plan.specs.State.{IsHistory};
ghost use Rattle.fam_rules.specs.Place.{line_bytes};
ghost use Rattle.fam_rules.specs.Solo.{held_file};
ghost use Rattle.fam_settled.specs.Settled.{settled_files, settled_log_state};
ghost use Rattle.fam_opening.specs.Opening.{IsOpenCaused};

use crate::fault::OpenFault;
use crate::files::{read_file, run_buffer};
use fam_base::{Entry, Line};
use fam_media::Media;
use fam_plan::Plan;
use fam_settled::{HeldBytes, Log};
use std::alloc::Global;

/// Entry `i`, which there is.
fn entry_at(plan: &Plan, i: u64) -> Entry
    requires { i < length plan.now.entries }
    ensures { slice_get plan.now.entries i ≡ Some result }
{
    match plan.at(i) {
        Some(entry) => entry,
        None => unreachable!(),
    }
}

/// The next entry stands behind those before it, with the bytes that its file has, which are read through the lines of a buffer.
fn hold_next<M: Media>(
    alloc: Global,
    media: &mut M,
    plan: &Plan,
    log: &mut Log,
    seq: u64,
    buffer: &mut [Line],
) -> Result<(), OpenFault>
    requires device { plan.now.params.device ≤ line_bytes * M.size media.old }
    requires history { IsHistory plan.now }
    requires below { seq < length plan.now.entries }
    requires params { log.old.params ≡ plan.now.params }
    requires entries { log.old.entries ≡ take seq plan.now.entries }
    requires none { log.old.pending ≡ None }
    requires buffer { 0 < length buffer.old }
    ensures params { log.new.params ≡ plan.now.params }
    ensures entries { OnOk result (log.new.entries ≡ take (seq + 1) plan.now.entries) }
    ensures none { OnOk result (log.new.pending ≡ None) }
    ensures files { OnOk result (IfModelled (M.state media.old).image (λ image.
        settled_files log.old ≡ map (held_file (line_at image)) (take seq plan.now.entries)
        → settled_files log.new ≡ map (held_file (line_at image)) (take (seq + 1) plan.now.entries))) }
    ensures buffer { length buffer.new ≡ length buffer.old }
    ensures cause { IfErr result (IsOpenCaused (M.size media.old) (M.state media.old).faults (M.state media.new).faults) }
    ensures same { (M.state media.new).image ≡ (M.state media.old).image }
    ensures steady { IsSteady M.size M.state media.old media.new }
{
    let entry = entry_at(plan, seq);
    let bytes = read_file(alloc, media, &entry, buffer)?;
    log.hold(&entry, HeldBytes::new(alloc, bytes)?)?;
    Ok(())
}

/// All entries of a plan, settled with the bytes that their files have.
pub(crate) fn hold_all<M: Media>(
    alloc: Global,
    media: &mut M,
    plan: &Plan,
) -> Result<Log, OpenFault>
    requires device { plan.now.params.device ≤ line_bytes * M.size media.old }
    ensures log { IfOk result (λ log. IfModelled (M.state media.old).image (λ image.
        settled_log_state log ≡ past.Sound plan.now.params (map (held_file (line_at image)) plan.now.entries) None)) }
    ensures cause { IfErr result (IsOpenCaused (M.size media.old) (M.state media.old).faults (M.state media.new).faults) }
    ensures same { (M.state media.new).image ≡ (M.state media.old).image }
    ensures steady { IsSteady M.size M.state media.old media.new }
{
    plan.each_entry_joins();
    let mut log = Log::new(alloc, plan.params())?;
    let mut buffer = run_buffer(alloc)?;
    for seq in 0..plan.count() {
        hold_next(alloc, media, plan, &mut log, seq, &mut buffer)?;
    }
    Ok(log)
}
