//! The text of a report. fam_outcomes' `specs/Texts.antt` has its lines.

ghost use Rattle.std.specs.Prelude.{◌≡◌, ◌++◌, IfOk, OnOk, ℕ, List, string_bytes};
ghost use Rattle.fam_outcomes.specs.Texts as text;
ghost use Rattle.fam_script.specs.Reports.{verdict_text, files_text, units_text, states_text, counts_text, findings_text};

use crate::faults::{log_text, reason_text, super_text};
use fam_base::{OutOfMemory, put_bytes};
use fam_format::{LogFault, Reason, SuperFault};
use fam_rules::{LogState, Report, SuperState};
use std::alloc::{AllocError, Global};

/// Superblock and log are sound, nothing overlaps and no entry is bad.
pub fn is_sound(report: &Report) -> bool
    ensures { result ≡ text.is_sound_report report.now }
{
    let superblock = match report.superblock {
        SuperState::Sound => true,
        _ => false,
    };
    let log = match report.log {
        LogState::Sound { .. } => true,
        _ => false,
    };
    superblock && log && report.overlap.is_none() && report.bad.is_none()
}

fn verdict(report: &Report) -> &'static str
    ensures { result.now ≡ verdict_text report.now }
{
    if is_sound(report) {
        "fsck sound"
    } else {
        "fsck damaged"
    }
}

fn super_state_text(alloc: Global, state: SuperState) -> Result<String, AllocError>
    ensures { IfOk result (λ s. string_bytes s ≡ text.super_state_text state) }
{
    match state {
        SuperState::Sound => format!(in alloc; "superblock sound"),
        SuperState::NoSuper(word) => super_text(alloc, SuperFault::NoSuper(word)),
        SuperState::BadSuper {
            field,
            found,
            wanted,
        } => super_text(
            alloc,
            SuperFault::BadSuper {
                field,
                found,
                wanted,
            },
        ),
    }
}

fn log_state_text(alloc: Global, state: LogState) -> Result<String, AllocError>
    ensures { IfOk result (λ s. string_bytes s ≡ text.log_state_text state) }
{
    match state {
        LogState::Sound { entries, slots } => {
            format!(in alloc; "log sound {entries} of {slots}")
        }
        LogState::BadLog {
            field,
            found,
            wanted,
        } => log_text(
            alloc,
            LogFault::BadLog {
                field,
                found,
                wanted,
            },
        ),
        LogState::Unread => format!(in alloc; "log unread"),
    }
}

fn overlap_text(alloc: Global, overlap: Option<(u64, u64)>) -> Result<String, AllocError>
    ensures { IfOk result (λ s. string_bytes s ≡ text.overlap_text overlap) }
{
    match overlap {
        None => format!(in alloc; "overlap none"),
        Some((first, second)) => format!(in alloc; "overlap {first} {second}"),
    }
}

fn bad_text(alloc: Global, bad: Option<(u64, Reason)>) -> Result<String, AllocError>
    ensures { IfOk result (λ s. string_bytes s ≡ text.bad_text bad) }
{
    match bad {
        None => format!(in alloc; "bad entry none"),
        Some((seq, reason)) => {
            let why = reason_text(alloc, reason)?;
            format!(in alloc; "bad entry {seq} {why}")
        }
    }
}

/// The counts of entries.
fn files_text(alloc: Global, report: &Report) -> Result<String, AllocError>
    ensures { IfOk result (λ s. string_bytes s ≡ files_text report.now) }
{
    let files = report.files;
    let directories = report.directories;
    format!(in alloc; "files {files} directories {directories}")
}

/// The counts of units.
fn units_text(alloc: Global, report: &Report) -> Result<String, AllocError>
    ensures { IfOk result (λ s. string_bytes s ≡ units_text report.now) }
{
    let used = report.used;
    let free = report.free;
    format!(in alloc; "units used {used} free {free}")
}

/// Adds the line of a text that may have found no memory.
fn put_line(made: Result<String, AllocError>, into: &mut Vec<u8>) -> Result<(), OutOfMemory>
    ensures { (want : List ℕ) → IfOk made (λ s. string_bytes s ≡ want) →
        OnOk result (into.new.items ≡ into.old.items ++ text.line want) }
{
    let Ok(words) = made else {
        return Err(OutOfMemory);
    };
    put_bytes(words.as_bytes(), into)?;
    put_bytes(b"\n", into)
}

/// Adds the verdict, and what superblock and log are.
fn put_states(alloc: Global, report: &Report, into: &mut Vec<u8>) -> Result<(), OutOfMemory>
    ensures { OnOk result (into.new.items ≡ states_text into.old.items report.now) }
{
    put_bytes(verdict(report).as_bytes(), into)?;
    put_bytes(b"\n", into)?;
    put_line(super_state_text(alloc, report.superblock), into)?;
    put_line(log_state_text(alloc, report.log), into)
}

/// Adds what is counted.
fn put_counts(alloc: Global, report: &Report, into: &mut Vec<u8>) -> Result<(), OutOfMemory>
    ensures { OnOk result (into.new.items ≡ counts_text into.old.items report.now) }
{
    put_line(files_text(alloc, report), into)?;
    put_line(units_text(alloc, report), into)
}

/// Adds what was found.
fn put_findings(alloc: Global, report: &Report, into: &mut Vec<u8>) -> Result<(), OutOfMemory>
    ensures { OnOk result (into.new.items ≡ findings_text into.old.items report.now) }
{
    let past = report.past;
    put_line(overlap_text(alloc, report.overlap), into)?;
    put_line(bad_text(alloc, report.bad), into)?;
    put_line(format!(in alloc; "past gate {past}"), into)
}

/// The eight lines of a report.
pub(crate) fn report_lines(alloc: Global, report: &Report) -> Result<Vec<u8>, OutOfMemory>
    ensures { IfOk result (λ bytes. bytes.items ≡ text.report_text report.now) }
{
    let mut text = Vec::new(alloc);
    put_states(alloc, report, &mut text)?;
    put_counts(alloc, report, &mut text)?;
    put_findings(alloc, report, &mut text)?;
    Ok(text)
}
