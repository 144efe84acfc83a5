//! What follows the first line of an answer.

ghost use Rattle.std.specs.Prelude.{◌≡◌, None};
ghost use Rattle.fam_outcomes.specs.Texts.{is_sound_log, is_sound_report, is_sound_super};
ghost use Rattle.fam_history.specs.Answers.{none_differs};
ghost use Rattle.fam_lines.specs.Resolved.{agrees, alone, answer_with, compared_answer, has_no_further, is_behind, is_whole_checked, names_first, played, reported, rise_behind};

use crate::answer::HostAnswer;
use fam_base::{Entry, Path};
use fam_history::ToldAnswer;
use fam_rules::{Checked, LogState, Report, SuperState};

/// Whether nothing follows.
pub(crate) fn is_bare(entries: &[Entry], report: &Option<Report>) -> bool
    ensures { result ≡ has_no_further entries.now report.now }
{
    entries.is_empty() && report.is_none()
}

/// Whether a path stands behind another one, if any.
fn is_behind(before: &Option<Path>, path: &Path) -> bool
    ensures { result ≡ is_behind before.now path.now }
{
    match before {
        Some(before) => before.cmp(path).is_lt(),
        None => true,
    }
}

/// Whether the paths rise.
fn do_rise(entries: &[Entry]) -> bool
    ensures { result ≡ rise_behind None entries.now }
{
    let mut before = None;
    for entry in entries {
        if !is_behind(&before, &entry.path) {
            return false;
        }
        before = Some(entry.path);
    }
    true
}

/// Whether a superblock is sound.
fn is_sound_super(state: SuperState) -> bool
    ensures { result ≡ is_sound_super state }
{
    match state {
        SuperState::Sound => true,
        SuperState::NoSuper(_) => false,
        SuperState::BadSuper { .. } => false,
    }
}

/// Whether header and gate are sound.
fn is_sound_log(state: LogState) -> bool
    ensures { result ≡ is_sound_log state }
{
    match state {
        LogState::Sound { .. } => true,
        LogState::BadLog { .. } => false,
        LogState::Unread => false,
    }
}

/// Whether a report says that all is sound.
fn is_sound_report(report: &Report) -> bool
    ensures { result ≡ is_sound_report report.now }
{
    is_sound_super(report.superblock)
        && is_sound_log(report.log)
        && report.overlap.is_none()
        && report.bad.is_none()
}

/// Whether a report is sound as its first line says.
fn agrees(sound: bool, report: &Report) -> bool
    ensures { result ≡ agrees sound report.now }
{
    if sound {
        is_sound_report(report)
    } else {
        !is_sound_report(report)
    }
}

/// The entries of a tree follow.
fn played(m: u64, entries: Vec<Entry>, report: &Option<Report>) -> Option<HostAnswer>
    ensures { result ≡ played m entries report.now }
{
    if report.is_none() && do_rise(&entries) {
        Some(HostAnswer::Played(m, entries))
    } else {
        None
    }
}

/// A report follows.
fn reported(sound: bool, entries: &[Entry], report: Option<Report>) -> Option<HostAnswer>
    ensures { result ≡ reported sound entries.now report }
{
    let Some(report) = report else {
        return None;
    };
    if entries.is_empty() && agrees(sound, &report) {
        Some(HostAnswer::Reports(report))
    } else {
        None
    }
}

/// An answer that nothing follows.
fn alone(entries: &[Entry], report: &Option<Report>, answer: HostAnswer) -> Option<HostAnswer>
    ensures { result ≡ alone entries.now report.now answer }
{
    if is_bare(entries, report) {
        Some(answer)
    } else {
        None
    }
}

/// Whether no path differs.
fn none_differs(c: &Checked) -> bool
    ensures { result ≡ none_differs c.now.missing c.now.extra c.now.changed }
{
    c.missing == 0 && c.extra == 0 && c.changed == 0
}

/// Whether a first path is named just where some path differs.
fn names_first(same: bool, first: &Option<Path>) -> bool
    ensures { result ≡ names_first same first.now }
{
    match first {
        Some(_) => !same,
        None => same,
    }
}

/// So of how a tree differs.
fn is_whole_checked(c: &Checked) -> bool
    ensures { result ≡ is_whole_checked c.now }
{
    names_first(none_differs(c), &c.first)
}

/// How a tree differs.
fn compared(
    m: u64,
    checked: Checked,
    entries: &[Entry],
    report: &Option<Report>,
) -> Option<HostAnswer>
    ensures { result ≡ compared_answer m checked entries.now report.now }
{
    if is_whole_checked(&checked) {
        alone(entries, report, HostAnswer::Checks(m, checked))
    } else {
        None
    }
}

/// An answer by its first line and what follows; none, where no answer prints so.
pub(crate) fn answer_with(
    told: ToldAnswer,
    entries: Vec<Entry>,
    report: Option<Report>,
) -> Option<HostAnswer>
    ensures { result ≡ answer_with told entries report }
{
    match told {
        ToldAnswer::Ok(seq) => alone(&entries, &report, HostAnswer::Appended(seq)),
        ToldAnswer::NotAppended(why) => alone(&entries, &report, HostAnswer::NotAppended(why)),
        ToldAnswer::Played(m) => played(m, entries, &report),
        ToldAnswer::Mounted(m) => alone(&entries, &report, HostAnswer::Mounted(m)),
        ToldAnswer::Same(m) => alone(&entries, &report, HostAnswer::Same(m)),
        ToldAnswer::Differs {
            entries: m,
            offset,
            found,
            wanted,
        } => {
            let answer = HostAnswer::Differs {
                entries: m,
                offset,
                found,
                wanted,
            };
            alone(&entries, &report, answer)
        }
        ToldAnswer::Length {
            entries: m,
            size,
            wanted,
        } => {
            let answer = HostAnswer::Length {
                entries: m,
                size,
                wanted,
            };
            alone(&entries, &report, answer)
        }
        ToldAnswer::Bytes(m, bytes) => alone(&entries, &report, HostAnswer::Bytes(m, bytes)),
        ToldAnswer::NotFound(m) => alone(&entries, &report, HostAnswer::NotFound(m)),
        ToldAnswer::IsDirectory(m) => alone(&entries, &report, HostAnswer::IsDirectory(m)),
        ToldAnswer::Checked(m, c) => compared(m, c, &entries, &report),
        ToldAnswer::Report(sound) => reported(sound, &entries, report),
        ToldAnswer::NoSuperblock(fault) => {
            alone(&entries, &report, HostAnswer::NoSuperblock(fault))
        }
        ToldAnswer::BadHeader(fault) => alone(&entries, &report, HostAnswer::BadHeader(fault)),
        ToldAnswer::BadSlot(seq, why) => alone(&entries, &report, HostAnswer::BadSlot(seq, why)),
        ToldAnswer::MediaFault(at) => alone(&entries, &report, HostAnswer::MediaFault(at)),
    }
}
