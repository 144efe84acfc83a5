//! Which reports fit.

ghost use Rattle.fam_rules.specs.declared.answers.LogState.TheVariants as log;
ghost use Rattle.std.specs.Prelude.{◌≡◌, ◌↔◌, ℕ, ◌-◌, ◌<◌, IfOk, IsTrue, None, Some, count_by, length, slice_get};
ghost use Rattle.fam_format.specs.Slot.{Proper};
ghost use Rattle.fam_journal.specs.Legal.{ReportAllowed};
ghost use Rattle.fam_journal.specs.Past.{HostPast};
ghost use Rattle.fam_rules.specs.ReportLaws.{IsSoundReport};
ghost use Rattle.fam_rules.specs.Reports.{is_file, used_count};
ghost use Rattle.fam_settled.specs.Reported.{HasKinds, HasSoundStates, HasUnits};
ghost use Rattle.fam_settled.specs.Settled.{settled_log_state};

use crate::log::Log;
use fam_alloc::UsedUnits;
use fam_base::{Entry, Kind, OutOfMemory};
use fam_format::LOG_OFFSET;
use fam_plan::Plan;
use fam_rules::{LogState, Report, SuperState};
use std::alloc::Global;

/// Entry `i` of a plan, of which there is one.
fn entry_in(plan: &Plan, i: u64) -> Entry
    requires { i < length plan.now.entries }
    ensures value { slice_get plan.now.entries i ≡ Some result }
    ensures proper { Proper plan.now.params result }
{
    plan.each_entry_joins();
    match plan.at(i) {
        Some(entry) => entry,
        None => unreachable!(),
    }
}

/// Whether a file.
fn is_file(kind: Kind) -> bool
    ensures { result ≡ is_file kind }
{
    match kind {
        Kind::File => true,
        Kind::Directory => false,
    }
}

/// How many entries of a plan are files.
fn files_in(plan: &Plan) -> u64
    ensures { result ≡ count_by (λ e. is_file e.kind) plan.now.entries }
{
    let mut files = 0;
    for i in 0..plan.count() {
        if is_file(entry_in(plan, i).kind) {
            files += 1;
        }
    }
    files
}

/// How many units superblock, log and the entries of a plan use.
fn used_in(alloc: Global, plan: &Plan) -> Result<u64, OutOfMemory>
    ensures { IfOk result (λ n. n ≡ used_count plan.now.params plan.now.entries) }
{
    plan.each_entry_joins();
    let params = plan.params();
    let units = params.device / params.unit;
    let head = (LOG_OFFSET + params.log_length) / params.unit;
    let mut used = UsedUnits::new(alloc, units, head)?;
    for i in 0..plan.count() {
        used.cover(&entry_in(plan, i).extents, params.unit);
    }
    Ok(used.count())
}

/// Whether superblock and log are sound in a report, with the entries of a plan, and no entry is bad.
fn states_fit(plan: &Plan, report: &Report) -> bool
    ensures { IsTrue result ↔ HasSoundStates plan.now.params plan.now.entries report.now }
{
    let slots = plan.params().slots;
    if report.superblock != SuperState::Sound {
        return false;
    }
    let wanted = LogState::Sound {
        entries: plan.count(),
        slots,
    };
    if report.log != wanted {
        return false;
    }
    report.overlap.is_none() && report.bad.is_none() && report.past <= slots - plan.count()
}

/// Whether a report counts the files and directories of a plan.
fn kinds_fit(plan: &Plan, report: &Report) -> bool
    ensures { IsTrue result ↔ HasKinds plan.now.entries report.now }
{
    let files = files_in(plan);
    if report.files != files {
        return false;
    }
    report.directories == plan.count().saturating_sub(files)
}

/// Whether a report counts the units of a plan.
fn units_fit(alloc: Global, plan: &Plan, report: &Report) -> Result<bool, OutOfMemory>
    ensures { IfOk result (λ b. IsTrue b ↔ HasUnits plan.now.params plan.now.entries report.now) }
{
    plan.each_entry_joins();
    let params = plan.params();
    let used = used_in(alloc, plan)?;
    Ok(report.used == used && report.free == (params.device / params.unit).saturating_sub(used))
}

/// Whether a report is that of a sound file system with the entries of a plan.
fn is_report_of(alloc: Global, plan: &Plan, report: &Report) -> Result<bool, OutOfMemory>
    ensures { IfOk result (λ b. IsTrue b ↔ IsSoundReport plan.now.params plan.now.entries report.now) }
{
    if !states_fit(plan, report) {
        return Ok(false);
    }
    if !kinds_fit(plan, report) {
        return Ok(false);
    }
    units_fit(alloc, plan, report)
}

impl Log {
    /// Whether a report may say so of the first `m` entries, which its log counts.
    fn counted_fits(
        &self,
        alloc: Global,
        floor: u64,
        m: u64,
        report: &Report,
    ) -> Result<bool, OutOfMemory>
        requires { (e : ℕ) → (s : ℕ) → report.now.log ≡ log.Sound e s → e ≡ m }
        ensures { IfOk result (λ b. (host : HostPast) → host.floor ≡ Some floor
            → IsTrue b ↔ ReportAllowed report.now host (settled_log_state self.now)) }
    {
        if m < floor {
            return Ok(false);
        }
        if m > self.all() {
            return Ok(false);
        }
        let plan = self.first(alloc, m)?;
        is_report_of(alloc, &plan, report)
    }

    /// Whether a report may say so, to a host at whose mark `floor` entries were settled. It takes memory for a map of the
    /// units.
    pub fn report_fits(
        &self,
        alloc: Global,
        floor: u64,
        report: &Report,
    ) -> Result<bool, OutOfMemory>
        ensures { IfOk result (λ b. (host : HostPast) → host.floor ≡ Some floor
            → IsTrue b ↔ ReportAllowed report.now host (settled_log_state self.now)) }
    {
        match &report.log {
            LogState::Sound { entries, .. } => self.counted_fits(alloc, floor, *entries, report),
            _ => Ok(false),
        }
    }
}
