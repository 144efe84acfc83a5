//! The report of fsck, each number of which is found by scans over whole lists.

ghost use Rattle.std.specs.Prelude.{◌≡◌, ◌≤◌, [], IfOk, count_by, map};
ghost use Rattle.fam_base.specs.declared.entry.Entry.{Entry};
ghost use Rattle.fam_format.specs.Layout.{device_units, geometry};
ghost use Rattle.fam_format.specs.Params.{SoundParams};
ghost use Rattle.fam_plain.specs.Survey.{survey_from};
ghost use Rattle.fam_rules.specs.Reports.{is_directory, is_file, no_survey, report_by, used_count};

use crate::overlaps::least_overlap;
use crate::survey::look;
use crate::units::{head_units, is_seen, list_units};
use fam_base::{Entry, Kind, OutOfMemory, Params};
use fam_format::SLOT_WORDS;
use fam_rules::{LogState, Report, SuperState};
use std::alloc::Global;

/// The entries without their numbers.
fn entries_of(alloc: Global, found: &[(u64, Entry)]) -> Result<Vec<Entry>, OutOfMemory>
    ensures { IfOk result (λ entries. entries.items ≡ map (λ f. f.1) found.now) }
{
    let mut entries = Vec::new(alloc);
    for f in found {
        match entries.push(f.1) {
            Ok(()) => {}
            Err(_) => return Err(OutOfMemory),
        }
    }
    Ok(entries)
}

/// How many entries are files.
fn count_files(entries: &[Entry]) -> u64
    ensures { result ≡ count_by (λ e. is_file e.kind) entries.now }
{
    entries
        .iter()
        .filter(|e| matches!(e.kind, Kind::File))
        .count() as u64
}

/// How many entries are directories.
fn count_directories(entries: &[Entry]) -> u64
    ensures { result ≡ count_by (λ e. is_directory e.kind) entries.now }
{
    entries
        .iter()
        .filter(|e| matches!(e.kind, Kind::Directory))
        .count() as u64
}

/// How many units superblock, log and entries use.
#[tactic(auto, using(crate::proofs::Scans::used_few))]
fn count_used(alloc: Global, params: &Params, entries: &[Entry]) -> Result<u64, OutOfMemory>
    requires { SoundParams params.now }
    ensures used { IfOk result (λ used. used ≡ used_count params.now entries.now) }
    ensures few { IfOk result (λ used. used ≤ device_units params.now) }
{
    let head = head_units(params);
    let seen = list_units(alloc, params.unit, entries)?;
    let units = params.device / params.unit;
    Ok(
        (0..units)
            .filter(|unit| is_seen(head, &seen, *unit))
            .count() as u64,
    )
}

/// What fsck reports of the slots of a log whose superblock and header are sound, with this gate. The slots have 64 words,
/// as in the first format.
#[tactic(auto, unfolding(fam_rules::specs::Reports::report_by))]
pub fn plain_report(
    alloc: Global,
    params: &Params,
    slots: &[[u64; SLOT_WORDS]],
    gate: u64,
) -> Result<Report, OutOfMemory>
    requires sound { SoundParams params.now }
    requires format { (geometry params.now).words ≡ SLOT_WORDS }
    ensures { IfOk result (λ report.
        report ≡ report_by params.now gate (survey_from params.now gate 0 slots.now no_survey)) }
{
    let told = look(alloc, params, slots, gate)?;
    let entries = entries_of(alloc, &told.found)?;
    let used = count_used(alloc, params, &entries)?;
    Ok(Report {
        superblock: SuperState::Sound,
        log: LogState::Sound {
            entries: gate,
            slots: params.slots,
        },
        files: count_files(&entries),
        directories: count_directories(&entries),
        used,
        free: params.device / params.unit - used,
        overlap: least_overlap(alloc, params.unit, &told.found)?,
        bad: told.bad,
        past: told.past,
    })
}
