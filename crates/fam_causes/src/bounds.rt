//! How many entries an answer may show.

ghost use Rattle.std.specs.Prelude.{◌≡◌, ◌↔◌, ◌≤◌, IfSome, IsTrue, MatchOption, length};
ghost use Rattle.fam_journal.specs.Past.{reported_count};
ghost use Rattle.fam_settled.specs.Settled.{settled_and_pending};
ghost use Rattle.fam_judging.specs.declared.candidate.Settled.TheVariants as settled;
ghost use Rattle.fam_causes.specs.Bounds.{IsFirstToShow, IsLeastFloor, IsMost, MayShow, floor_at, greater, lesser, most_in, shown_count};

use fam_judging::{Candidate, Settled};
use fam_lines::HostAnswer;
use fam_rules::LogState;
use fam_settled::Log;

/// How many entries a report is of.
fn reported_count(log: LogState) -> Option<u64>
    ensures { result ≡ reported_count log }
{
    match log {
        LogState::Sound { entries, .. } => Some(entries),
        LogState::BadLog { .. } => None,
        LogState::Unread => None,
    }
}

/// Of how many entries an answer is, where it tells that.
pub(crate) fn shown_count(answer: &HostAnswer) -> Option<u64>
    ensures { result ≡ shown_count answer.now }
{
    match answer {
        HostAnswer::Appended(_) => None,
        HostAnswer::NotAppended(_) => None,
        HostAnswer::Played(m, _) => Some(*m),
        HostAnswer::Mounted(m) => Some(*m),
        HostAnswer::Same(m) => Some(*m),
        HostAnswer::Differs { entries, .. } => Some(*entries),
        HostAnswer::Length { entries, .. } => Some(*entries),
        HostAnswer::Bytes(m, _) => Some(*m),
        HostAnswer::NotFound(m) => Some(*m),
        HostAnswer::IsDirectory(m) => Some(*m),
        HostAnswer::Checks(m, _) => Some(*m),
        HostAnswer::Reports(report) => reported_count(report.log),
        HostAnswer::NoSuperblock(_) => None,
        HostAnswer::BadHeader(_) => None,
        HostAnswer::BadSlot(_, _) => None,
        HostAnswer::MediaFault(_) => None,
    }
}

/// How much was settled at the mark of a host's command.
fn floor_at(candidate: &Candidate, at: usize) -> Option<u64>
    ensures { result ≡ floor_at at candidate.now }
{
    if at < candidate.tracks.len() {
        candidate.tracks[at].floor
    } else {
        None
    }
}

/// How many entries there are, with the one that pends; none where there is no file system.
fn most_in(settled: &Settled) -> Option<u64>
    ensures { result ≡ most_in settled.now }
{
    match settled {
        Settled::Log(log) => Some(log.all()),
        Settled::Given => None,
        Settled::Halted => None,
    }
}

/// The lesser of two numbers, or the one that there is.
fn lesser(least: Option<u64>, n: u64) -> u64
    ensures { result ≡ lesser least n }
{
    match least {
        Some(m) => m.min(n),
        None => n,
    }
}

/// The greater one.
fn greater(most: Option<u64>, n: Option<u64>) -> Option<u64>
    ensures { result ≡ greater most n }
{
    let Some(m) = most else {
        return n;
    };
    match n {
        Some(n) => Some(m.max(n)),
        None => Some(m),
    }
}

/// The least floor of a host; none where some candidate has none.
pub(crate) fn least_floor(candidates: &Vec<Candidate>, at: usize) -> Option<u64>
    ensures { IfSome result (λ floor. IsLeastFloor at candidates.now.items (length candidates.now.items) floor) }
{
    let mut least = None;
    'candidates: for i in 0..candidates.len() {
        let floor = floor_at(&candidates[i], at)?;
        least = Some(lesser(least, floor));
    }
    least
}

/// The most entries of a candidate; none where no candidate has a file system.
pub(crate) fn most(candidates: &Vec<Candidate>) -> Option<u64>
    ensures { IfSome result (λ most. IsMost candidates.now.items (length candidates.now.items) most) }
{
    let mut most = None;
    'candidates: for i in 0..candidates.len() {
        most = greater(most, most_in(&candidates[i].settled));
    }
    most
}

/// Whether in a candidate so many entries may be shown to a host, whose floor is this.
fn is_within(floor: u64, m: u64, log: &Log) -> bool
    ensures { IsTrue result ↔ ((floor ≤ m) × (m ≤ length (settled_and_pending log.now))) }
{
    floor <= m && m <= log.all()
}

/// What is settled in a candidate in which so many entries may be shown to a host.
fn may_show(candidate: &Candidate, at: usize, m: u64) -> Option<&Log>
    ensures { MatchOption result (MayShow at m candidate.now → ⊥) (λ log. MayShow at m candidate.now × (candidate.now.settled ≡ settled.Log log.now)) }
{
    let floor = floor_at(candidate, at)?;
    let Settled::Log(log) = &candidate.settled else {
        return None;
    };
    if is_within(floor, m, log) {
        Some(log)
    } else {
        None
    }
}

/// So of the first candidate in which they may.
pub(crate) fn first_to_show(candidates: &Vec<Candidate>, at: usize, m: u64) -> Option<&Log>
    ensures { IfSome result (λ log. IsFirstToShow at m candidates.now.items log.now) }
{
    'candidates: for i in 0..candidates.len() {
        let shows = may_show(&candidates[i], at, m);
        if shows.is_some() {
            return shows;
        }
    }
    None
}
