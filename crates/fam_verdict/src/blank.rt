//! The blank image on which a history is judged where no image is given.

ghost use Rattle.std.specs.Prelude.{◌≡◌, ◌≤◌, ◌*◌, IfOk};
ghost use Rattle.fam_format.specs.Layout.{device_limit};
ghost use Rattle.fam_journal.specs.Legal.{cleared_report};
ghost use Rattle.fam_judging.specs.Candidates.{IsGivenImage};
ghost use Rattle.fam_records.specs.Histories.{history_in};
ghost use Rattle.fam_rules.specs.Place.{line_bytes};
ghost use Rattle.fam_verdict.specs.Blank.{blank_damage, blank_image, device_told, first_device, lines_enough, lines_of_device};

use fam_base::OutOfMemory;
use fam_format::SuperFault;
use fam_grammar::LineFault;
use fam_history::LineNote;
use fam_judging::{Damage, GivenImage};
use fam_records::Records;
use fam_rules::{LogState, Report, SuperState};
use std::alloc::Global;

/// The fewest lines of an image that has a gate.
const LEAST_LINES: u64 = 32_770;

/// The most bytes of a device.
const DEVICE_LIMIT: u64 = 1 << 40;

/// Bytes of a line.
const LINE_BYTES: u64 = 64;

/// Why a blank image of so many lines has no history.
fn damage_of(lines: u64) -> Damage
    ensures { result ≡ blank_damage lines }
{
    if lines < LEAST_LINES {
        Damage::FewLines(lines)
    } else {
        Damage::NoSuperblock(SuperFault::NoSuper(0))
    }
}

/// What a check of the file system finds where there is no superblock.
fn report() -> Report
    ensures { result ≡ cleared_report }
{
    Report {
        superblock: SuperState::NoSuper(0),
        log: LogState::Unread,
        files: 0,
        directories: 0,
        used: 0,
        free: 0,
        overlap: None,
        bad: None,
        past: 0,
    }
}

/// What a blank image of so many lines tells.
pub(crate) fn given(lines: u64) -> GivenImage
    ensures { IsGivenImage (blank_image lines) result }
{
    GivenImage {
        damage: damage_of(lines),
        gate: 0,
        params: None,
        report: report(),
    }
}

/// The bytes of the device on which a line tells that a file system was made.
fn device_of(told: &LineNote) -> Option<u64>
    ensures { result ≡ device_told told.now }
{
    match told {
        LineNote::Made(params) => Some(params.device),
        _ => None,
    }
}

/// The device of the first file system that a history tells, before the first bad line.
fn first_device(alloc: Global, history: &[u8]) -> Result<Option<u64>, OutOfMemory>
    ensures { IfOk result (λ device. device ≡ first_device (history_in history.now).records) }
{
    let mut records = Records::new(history);
    'records: loop {
        match records.next_record(alloc) {
            Ok(Some(next)) => {
                if let Some(device) = device_of(&next.told.note) {
                    return Ok(Some(device));
                }
            }
            Ok(None) => return Ok(None),
            Err(LineFault::BadLine { .. }) => return Ok(None),
            Err(LineFault::OutOfMemory) => return Err(OutOfMemory),
        }
    }
}

/// The lines of such a device; where none was made, of the largest one.
fn lines_of(device: Option<u64>) -> u64
    ensures is { result ≡ lines_of_device device }
    ensures few { line_bytes * result ≤ device_limit }
{
    match device {
        Some(bytes) if bytes < DEVICE_LIMIT => bytes / LINE_BYTES,
        _ => DEVICE_LIMIT / LINE_BYTES,
    }
}

/// The lines of the blank image on which a history is judged: as many as the device has on which its first file system was made.
pub(crate) fn lines_enough(alloc: Global, history: &[u8]) -> Result<u64, OutOfMemory>
    ensures is { IfOk result (λ n. n ≡ lines_enough history.now) }
    ensures few { IfOk result (λ n. line_bytes * n ≤ device_limit) }
{
    let device = first_device(alloc, history)?;
    Ok(lines_of(device))
}
