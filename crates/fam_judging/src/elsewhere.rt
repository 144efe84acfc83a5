//! Lines that tell nothing of an entry which a host has named.

ghost use Rattle.std.specs.Prelude.{◌≡◌, ◌+◌, ◌↔◌, IsTrue, Some};
ghost use Rattle.fam_judge.specs.Possible.{Elsewhere, answer_settles};
ghost use Rattle.fam_journal.specs.Past.{reported_count};
ghost use Rattle.fam_lines.specs.Lines.{answer_of, note_of_line};

use crate::settled::is_next;
use fam_lines::{HostAnswer, Line};
use fam_rules::{LogState, Report};

/// Whether a report counts as many entries as there are with number `seq`.
fn counts(report: &Report, seq: u64) -> bool
    ensures { IsTrue result ↔ (reported_count report.now.log ≡ Some (seq + 1)) }
{
    match report.log {
        LogState::Sound { entries, .. } => is_next(entries, seq),
        _ => false,
    }
}

/// Whether an answer settles as many entries as there are with number `seq`.
fn settles(answer: &HostAnswer, seq: u64) -> bool
    ensures { IsTrue result ↔ (answer_settles (answer_of answer.now) ≡ Some (seq + 1)) }
{
    match answer {
        HostAnswer::Appended(own) => *own == seq,
        HostAnswer::Played(m, _) => is_next(*m, seq),
        HostAnswer::Mounted(m) => is_next(*m, seq),
        HostAnswer::Same(m) => is_next(*m, seq),
        HostAnswer::Differs { entries, .. } => is_next(*entries, seq),
        HostAnswer::Length { entries, .. } => is_next(*entries, seq),
        HostAnswer::Bytes(m, _) => is_next(*m, seq),
        HostAnswer::NotFound(m) => is_next(*m, seq),
        HostAnswer::IsDirectory(m) => is_next(*m, seq),
        HostAnswer::Checks(m, _) => is_next(*m, seq),
        HostAnswer::Reports(report) => counts(report, seq),
        _ => false,
    }
}

/// Whether a line tells nothing of entry `seq`, which host `at` has named.
pub(crate) fn is_elsewhere(at: usize, seq: u64, line: &Line) -> bool
    ensures { IsTrue result ↔ Elsewhere at seq (note_of_line line.now) }
{
    match line {
        Line::Start(host, _) => *host != at,
        Line::Mark(host) => *host != at,
        Line::Found(host, n) => *host != at && !is_next(*n, seq),
        Line::Answered(host, answer) => *host != at && !settles(answer, seq),
        Line::Stop(host) => *host != at,
        Line::Halt(host) => *host != at,
        _ => true,
    }
}
