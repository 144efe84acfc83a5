//! What a damaged image tells, by the first fault of its reading.

ghost use Rattle.std.specs.Prelude.{◌≡◌, ◌*◌, ◌<◌, ◌≤◌, Err, Ok, length};
ghost use Rattle.fam_base.specs.Image.{Image, line_at};
ghost use Rattle.fam_format.specs.Layout.{least_lines};
ghost use Rattle.fam_format.specs.Reading as read;
ghost use Rattle.fam_format.specs.Reading.{gate_in, reading, super_in};
ghost use Rattle.fam_judging.specs.Candidates.{IsGivenImage};
ghost use Rattle.fam_rules.specs.Place.{line_bytes};
ghost use Rattle.fam_rules.specs.Reports as reports;
ghost use Rattle.fam_rules.specs.Reports.{no_survey, report_by, survey_slots};

use fam_base::Params;
use fam_format::{LogFault, Reason, SuperFault};
use fam_judging::{Damage, GivenImage};
use fam_rules::{LogState, Report, SuperState};

/// The report of a file system whose superblock or log isn't sound: nothing more is looked at.
fn empty_report(superblock: SuperState, log: LogState) -> Report
    ensures { result ≡ reports.empty_report superblock log }
{
    Report {
        superblock,
        log,
        files: 0,
        directories: 0,
        used: 0,
        free: 0,
        overlap: None,
        bad: None,
        past: 0,
    }
}

/// The report on a damaged superblock.
fn super_report(fault: SuperFault) -> Report
    ensures { result ≡ reports.super_report fault }
{
    let state = match fault {
        SuperFault::NoSuper(word) => SuperState::NoSuper(word),
        SuperFault::BadSuper {
            field,
            found,
            wanted,
        } => SuperState::BadSuper {
            field,
            found,
            wanted,
        },
    };
    empty_report(state, LogState::Unread)
}

/// The report on a damaged header or gate.
fn log_report(fault: LogFault) -> Report
    ensures { result ≡ reports.log_report fault }
{
    let LogFault::BadLog {
        field,
        found,
        wanted,
    } = fault;
    let state = LogState::BadLog {
        field,
        found,
        wanted,
    };
    empty_report(SuperState::Sound, state)
}

/// An image of so few lines that there is no gate, and whose superblock has a fault.
pub(crate) fn few_lines(lines: u64, fault: SuperFault) -> GivenImage
    requires { lines < least_lines }
    ensures { (image : Image) → length image ≡ lines → super_in (line_at image) (line_bytes * lines) ≡ Err fault
        → IsGivenImage image result }
{
    GivenImage {
        damage: Damage::FewLines(lines),
        gate: 0,
        params: None,
        report: super_report(fault),
    }
}

/// An image whose superblock has a fault.
pub(crate) fn bad_superblock(gate: u64, fault: SuperFault) -> GivenImage
    ensures { (image : Image) → least_lines ≤ length image → super_in (line_at image) (line_bytes * length image) ≡ Err fault
        → gate_in (line_at image) ≡ gate → IsGivenImage image result }
{
    GivenImage {
        damage: Damage::NoSuperblock(fault),
        gate,
        params: None,
        report: super_report(fault),
    }
}

/// An image whose superblock has these parameters, and whose header or gate has a fault.
pub(crate) fn bad_header(gate: u64, params: &Params, fault: LogFault) -> GivenImage
    ensures { (image : Image) → least_lines ≤ length image → super_in (line_at image) (line_bytes * length image) ≡ Ok params.now
        → reading image ≡ read.BadHeader fault → gate_in (line_at image) ≡ gate → IsGivenImage image result }
{
    GivenImage {
        damage: Damage::BadHeader(fault),
        gate,
        params: Some(*params),
        report: log_report(fault),
    }
}

/// An image whose superblock has these parameters, whose header and gate read, and whose least bad slot is this one. The report is
/// of all slots.
pub(crate) fn bad_slot(
    gate: u64,
    params: &Params,
    seq: u64,
    reason: Reason,
    report: Report,
) -> GivenImage
    ensures { (image : Image) → least_lines ≤ length image → super_in (line_at image) (line_bytes * length image) ≡ Ok params.now
        → reading image ≡ read.BadSlot seq reason → gate_in (line_at image) ≡ gate
        → report ≡ report_by params.now gate (survey_slots (line_at image) params.now gate 0 params.now.slots no_survey)
        → IsGivenImage image result }
{
    GivenImage {
        damage: Damage::BadSlot(seq, reason),
        gate,
        params: Some(*params),
        report,
    }
}
