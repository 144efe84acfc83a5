//! Answers that report.

ghost use Rattle.std.specs.Prelude.{◌≡◌, ◌⊎◌, ◌↔◌, ℕ, IfOk, IsTrue};
ghost use Rattle.fam_base.specs.declared.cmd.Cmd.TheVariants.{Fsck};
ghost use Rattle.fam_journal.specs.Legal.{ReportAllowed, cleared_report};
ghost use Rattle.fam_journal.specs.Past.{HostPast};
ghost use Rattle.fam_journal.specs.Shapes.{Begun, Marked};
ghost use Rattle.fam_rules.specs.Reply as reply;
ghost use Rattle.fam_lines.specs.declared.host.SeenHost.{SeenHost};
ghost use Rattle.fam_lines.specs.Lines.{untold_of};
ghost use Rattle.fam_settled.specs.Settled.{settled_log_state};
ghost use Rattle.fam_judging.specs.declared.candidate.Settled.TheVariants as settled;
ghost use Rattle.fam_judging.specs.declared.given.GivenImage.{GivenImage};
ghost use Rattle.fam_judging.specs.Candidates.{stage_shape};
ghost use Rattle.fam_judging.specs.FoundLefts.{host_of};
ghost use Rattle.fam_judging.specs.Lefts.{LeavesEndings};
ghost use Rattle.fam_judging.specs.ReplyKinds.{MayMark};
ghost use Rattle.fam_judging.specs.Reporting.{DamagedReport, ReportPlace};

use crate::candidate::{Settled, Stage, Track};
use crate::given::GivenImage;
use crate::lefts::{Lefts, kept, none};
use crate::replies_damage::may_mark;
use crate::replies_refused::has_begun;
use crate::replies_shown::shown_log;
use fam_base::{Cmd, OutOfMemory};
use fam_format::{LogField, Reason};
use fam_history::ToldCommand;
use fam_lines::SeenHost;
use fam_rules::{LogState, Report, SuperState};
use fam_settled::Log;
use std::alloc::Global;

/// Whether a command checks the file system.
fn is_fsck(cmd: &ToldCommand) -> bool
    ensures { IsTrue result ↔ (untold_of cmd.now ≡ Fsck) }
{
    match cmd {
        ToldCommand::Plain(Cmd::Fsck) => true,
        _ => false,
    }
}

/// Whether a report stands behind the mark.
fn is_of_mark(log: &LogState) -> bool
    ensures mark { IsTrue result ↔ ReportPlace log.now Marked }
    ensures begun { ReportPlace log.now Begun ⊎ IsTrue result }
{
    match log {
        LogState::Sound { .. } => true,
        LogState::BadLog {
            field: LogField::Gate,
            ..
        } => true,
        _ => false,
    }
}

/// Whether a report is that of an image without a superblock.
fn is_cleared(report: &Report) -> bool
    ensures { IsTrue result ↔ (report.now ≡ cleared_report) }
{
    let cleared = Report {
        superblock: SuperState::NoSuper(0),
        log: LogState::Unread,
        files: 0,
        directories: 0,
        used: 0,
        free: 0,
        overlap: None,
        bad: None,
        past: 0,
    };
    is_same(report, &cleared)
}

/// Whether two reports say the same of superblock and log.
fn same_states(left: &Report, right: &Report) -> bool
    ensures { IsTrue result ↔ ((left.now.superblock ≡ right.now.superblock) × (left.now.log ≡ right.now.log)) }
{
    left.superblock == right.superblock && left.log == right.log
}

/// Whether they count the same.
fn same_counts(left: &Report, right: &Report) -> bool
    ensures { IsTrue result ↔ ((left.now.files ≡ right.now.files) × (left.now.directories ≡ right.now.directories)
        × (left.now.used ≡ right.now.used) × (left.now.free ≡ right.now.free) × (left.now.past ≡ right.now.past)) }
{
    left.files == right.files
        && left.directories == right.directories
        && left.used == right.used
        && left.free == right.free
        && left.past == right.past
}

/// Whether these are the same two entries, where there are two.
fn same_overlap(left: &Option<(u64, u64)>, right: &Option<(u64, u64)>) -> bool
    ensures { IsTrue result ↔ (left.now ≡ right.now) }
{
    match (left, right) {
        (Some(a), Some(b)) => a.0 == b.0 && a.1 == b.1,
        (None, None) => true,
        _ => false,
    }
}

/// Whether this is the same entry for the same reason, where there is one.
fn same_bad(left: &Option<(u64, Reason)>, right: &Option<(u64, Reason)>) -> bool
    ensures { IsTrue result ↔ (left.now ≡ right.now) }
{
    match (left, right) {
        (Some(a), Some(b)) => a.0 == b.0 && a.1 == b.1,
        (None, None) => true,
        _ => false,
    }
}

/// Whether they find the same.
fn same_findings(left: &Report, right: &Report) -> bool
    ensures { IsTrue result ↔ ((left.now.overlap ≡ right.now.overlap) × (left.now.bad ≡ right.now.bad)) }
{
    same_overlap(&left.overlap, &right.overlap) && same_bad(&left.bad, &right.bad)
}

/// Whether these are the same report.
fn is_same(left: &Report, right: &Report) -> bool
    ensures { IsTrue result ↔ (left.now ≡ right.now) }
{
    if !same_states(left, right) {
        return false;
    }
    if !same_counts(left, right) {
        return false;
    }
    same_findings(left, right)
}

/// Whether a report is that of a damaged image.
fn is_damaged(given: &GivenImage, settled: &Settled, report: &Report) -> bool
    ensures { IsTrue result ↔ DamagedReport given.now settled.now report.now }
{
    match settled {
        Settled::Log(_) => false,
        Settled::Given => is_same(report, &given.report),
        Settled::Halted => is_cleared(report),
    }
}

/// Whether a command that has just begun reports so of a damaged image.
fn reports_begun(
    given: &GivenImage,
    settled: &Settled,
    cmd: &ToldCommand,
    stage: Stage,
    report: &Report,
) -> bool
    ensures { IsTrue result ↔ ((stage_shape stage ≡ Begun) × (untold_of cmd.now ≡ Fsck) × DamagedReport given.now settled.now report.now) }
{
    has_begun(stage) && is_fsck(cmd) && is_damaged(given, settled, report)
}

/// Whether one behind its mark does.
fn reports_marked(
    given: &GivenImage,
    settled: &Settled,
    cmd: &ToldCommand,
    stage: Stage,
    report: &Report,
) -> bool
    ensures { IsTrue result ↔ (MayMark (stage_shape stage) × (untold_of cmd.now ≡ Fsck) × DamagedReport given.now settled.now report.now) }
{
    may_mark(stage) && is_fsck(cmd) && is_damaged(given, settled, report)
}

/// Whether one may report so of a log.
fn log_allows(alloc: Global, log: &Log, track: &Track, report: &Report) -> Result<bool, OutOfMemory>
    ensures { IfOk result (λ b. (host : HostPast) → host.floor ≡ track.now.floor
        → IsTrue b ↔ ReportAllowed report.now host (settled_log_state log.now)) }
{
    match track.floor {
        Some(floor) => log.report_fits(alloc, floor, report),
        None => Ok(false),
    }
}

/// Whether one behind its mark does.
fn log_reports(
    alloc: Global,
    log: &Log,
    cmd: &ToldCommand,
    track: &Track,
    report: &Report,
) -> Result<bool, OutOfMemory>
    ensures { IfOk result (λ b. (seen : SeenHost) → IsTrue b
        ↔ (MayMark (stage_shape track.now.stage) × (untold_of cmd.now ≡ Fsck) × ReportAllowed report.now (host_of seen cmd.now track.now) (settled_log_state log.now))) }
{
    if !may_mark(track.stage) {
        return Ok(false);
    }
    if !is_fsck(cmd) {
        return Ok(false);
    }
    log_allows(alloc, log, track, report)
}

/// What is left of a command that reports so behind its mark, of a log.
fn reported_log(
    alloc: Global,
    log: &Log,
    cmd: &ToldCommand,
    track: &Track,
    report: &Report,
) -> Result<Lefts, OutOfMemory>
    requires { ReportPlace report.now.log Marked }
    ensures { IfOk result (λ lefts. (given : GivenImage) → (seen : SeenHost)
        → LeavesEndings given seen cmd.now (settled.Log log.now) track.now (reply.Reports report.now) lefts) }
{
    let LogState::Sound { entries, .. } = report.log else {
        return Ok(none());
    };
    if !log_reports(alloc, log, cmd, track, report)? {
        return Ok(none());
    }
    shown_log(alloc, log, entries, track)
}

/// What is left of a command that reports.
pub(crate) fn reported(
    alloc: Global,
    given: &GivenImage,
    seen: &SeenHost,
    cmd: &ToldCommand,
    settled: &Settled,
    track: &Track,
    report: &Report,
) -> Result<Lefts, OutOfMemory>
    ensures { IfOk result (λ lefts. LeavesEndings given.now seen.now cmd.now settled.now track.now (reply.Reports report.now) lefts) }
{
    let _ = seen;
    if !is_of_mark(&report.log) {
        let stands = reports_begun(given, settled, cmd, track.stage, report);
        return kept(
            alloc,
            stands,
            settled,
            Track {
                floor: None,
                ..*track
            },
        );
    }
    match settled {
        Settled::Log(log) => reported_log(alloc, log, cmd, track, report),
        Settled::Given | Settled::Halted => {
            let stands = reports_marked(given, settled, cmd, track.stage, report);
            kept(alloc, stands, settled, *track)
        }
    }
}
