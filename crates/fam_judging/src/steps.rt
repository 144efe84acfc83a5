//! To which states a line leads from a candidate, but for a line that tells a reply.

ghost use Rattle.std.specs.Prelude.{◌≡◌, ◌↔◌, IfOk, IsTrue, Some, length, true};
ghost use Rattle.fam_base.specs.Image.{Image};
ghost use Rattle.fam_journal.specs.Notes.{Mark, Writes};
ghost use Rattle.fam_judge.specs.Possible.{StepsTo};
ghost use Rattle.fam_judge.specs.Standing.{is_own};
ghost use Rattle.fam_lines.specs.Lines.{note_of_line};
ghost use Rattle.fam_judging.specs.declared.given.GivenImage.{GivenImage};
ghost use Rattle.fam_judging.specs.Candidates.{possible_of};
ghost use Rattle.fam_judging.specs.After.{possible_after};
ghost use Rattle.fam_judging.specs.Plain.{TellsNoReply};
ghost use Rattle.fam_judging.specs.Told.{AreToldCommands, NamesFrom};
ghost use Rattle.fam_judging.specs.Going.{FindsEntries, Goes, HasGiven, MayFindEntries, MeetsAt};

use crate::candidate::Candidate;
use crate::given::GivenImage;
use crate::hosts::Hosts;
use crate::naming::name;
use crate::settled::{find, may_find, settled_count};
use crate::tasks::{appends, has_begun, has_met, is_head, stage_at};
use crate::tracks::{put_marked, put_met};
use fam_base::{Entry, OutOfMemory};
use fam_lines::Line;

/// Whether a host's command, which appends, may find so many entries.
fn may_be_found(given: &GivenImage, hosts: &Hosts, candidate: &Candidate, at: usize, n: u64) -> bool
    ensures { (start : Image) → HasGiven start given.now candidate.now.settled
        → IsTrue result ↔ MayFindEntries start at n (possible_of start hosts.now candidate.now) }
{
    if !is_head(hosts, candidate, at) {
        return false;
    }
    if !appends(hosts, at) {
        return false;
    }
    may_find(given, &candidate.settled, n)
}

/// It finds them.
pub(crate) fn found(
    given: &GivenImage,
    hosts: &Hosts,
    candidate: &mut Candidate,
    at: usize,
    n: u64,
) -> Result<bool, OutOfMemory>
    ensures goes { (start : Image) → HasGiven start given.now candidate.old.settled
        → IfOk result (Goes (FindsEntries start at n (possible_of start hosts.now candidate.old)) (possible_of start hosts.now candidate.new)) }
    ensures given { (start : Image) → HasGiven start given.now candidate.old.settled → HasGiven start given.now candidate.new.settled }
    ensures placed { length candidate.new.tracks.items ≡ length candidate.old.tracks.items }
{
    if !may_be_found(given, hosts, candidate, at, n) {
        return Ok(false);
    }
    find(&mut candidate.settled, n)?;
    put_met(&mut candidate.tracks, at, n);
    Ok(true)
}

/// A host's command has found so many entries by now.
fn meet(
    given: &GivenImage,
    hosts: &Hosts,
    candidate: &mut Candidate,
    at: usize,
    n: u64,
) -> Result<bool, OutOfMemory>
    ensures goes { (start : Image) → HasGiven start given.now candidate.old.settled
        → IfOk result (Goes (MeetsAt start at n (possible_of start hosts.now candidate.old)) (possible_of start hosts.now candidate.new)) }
    ensures given { (start : Image) → HasGiven start given.now candidate.old.settled → HasGiven start given.now candidate.new.settled }
    ensures placed { length candidate.new.tracks.items ≡ length candidate.old.tracks.items }
{
    if has_met(hosts, candidate, at, n) {
        return Ok(true);
    }
    found(given, hosts, candidate, at, n)
}

/// Behind so many entries it names this one, where it names one.
pub(crate) fn wrote(
    given: &GivenImage,
    hosts: &Hosts,
    candidate: &mut Candidate,
    at: usize,
    n: u64,
) -> Result<Option<Entry>, OutOfMemory>
    requires told { AreToldCommands hosts.now }
    ensures names { (start : Image) → HasGiven start given.now candidate.old.settled
        → IfOk result (NamesFrom start at n (possible_of start hosts.now candidate.old) (possible_of start hosts.now candidate.new)) }
    ensures given { (start : Image) → HasGiven start given.now candidate.old.settled → HasGiven start given.now candidate.new.settled }
    ensures placed { length candidate.new.tracks.items ≡ length candidate.old.tracks.items }
{
    let met = meet(given, hosts, candidate, at, n)?;
    if !met {
        return Ok(None);
    }
    Ok(name(hosts, candidate, at, n))
}

/// Whether this entry is named.
fn is_named(named: &Option<Entry>, entry: &Entry) -> bool
    ensures { IsTrue result ↔ (named.now ≡ Some entry.now) }
{
    match named {
        Some(other) => other.is_same(entry),
        None => false,
    }
}

/// A line tells that it names an entry.
fn writes(
    given: &GivenImage,
    hosts: &Hosts,
    candidate: &mut Candidate,
    at: usize,
    seq: u64,
    entry: &Entry,
) -> Result<bool, OutOfMemory>
    requires told { AreToldCommands hosts.now }
    ensures goes { (start : Image) → HasGiven start given.now candidate.old.settled
        → IfOk result (Goes (StepsTo start (possible_of start hosts.now candidate.old) (Writes at seq entry.now)) (possible_of start hosts.now candidate.new)) }
    ensures given { (start : Image) → HasGiven start given.now candidate.old.settled → HasGiven start given.now candidate.new.settled }
    ensures placed { length candidate.new.tracks.items ≡ length candidate.old.tracks.items }
{
    let named = wrote(given, hosts, candidate, at, seq)?;
    Ok(is_named(&named, entry))
}

/// A line tells the mark of a host's command.
fn mark(hosts: &Hosts, candidate: &mut Candidate, at: usize) -> bool
    ensures goes { (start : Image) (given : GivenImage) → HasGiven start given candidate.old.settled
        → Goes (StepsTo start (possible_of start hosts.now candidate.old) (Mark at)) (possible_of start hosts.now candidate.new) result }
    ensures given { (start : Image) (given : GivenImage) → HasGiven start given candidate.old.settled → HasGiven start given candidate.new.settled }
    ensures placed { length candidate.new.tracks.items ≡ length candidate.old.tracks.items }
{
    if !has_begun(hosts, candidate, at) {
        return false;
    }
    let count = settled_count(&candidate.settled);
    put_marked(&mut candidate.tracks, at, count);
    true
}

/// Whether a running command gives a line.
pub(crate) fn is_own(line: &Line) -> bool
    ensures { result ≡ is_own (note_of_line line.now) }
{
    match line {
        Line::Mark(_) => true,
        Line::Found(_, _) => true,
        Line::Writes { .. } => true,
        Line::Answered(_, _) => true,
        _ => false,
    }
}

/// To which state a line leads that a running command gives.
pub(crate) fn own(
    given: &GivenImage,
    hosts: &Hosts,
    candidate: &mut Candidate,
    line: &Line,
) -> Result<bool, OutOfMemory>
    requires told { AreToldCommands hosts.now }
    requires own { is_own (note_of_line line.now) ≡ true }
    requires fault { TellsNoReply line.now }
    ensures goes { (start : Image) → HasGiven start given.now candidate.old.settled
        → IfOk result (Goes (StepsTo start (possible_of start hosts.now candidate.old) (note_of_line line.now)) (possible_after start hosts.now line.now candidate.new)) }
    ensures given { (start : Image) → HasGiven start given.now candidate.old.settled → HasGiven start given.now candidate.new.settled }
    ensures placed { length candidate.new.tracks.items ≡ length candidate.old.tracks.items }
{
    match line {
        Line::Mark(host) => Ok(mark(hosts, candidate, *host)),
        Line::Found(host, n) => found(given, hosts, candidate, *host, *n),
        Line::Writes { host, seq, entry } => writes(given, hosts, candidate, *host, *seq, entry),
        Line::Answered(host, _) => Ok(stage_at(hosts, candidate, *host).is_some()),
        _ => Ok(false),
    }
}
