//! To which states a line leads from others, where hosts may have named entries before.

ghost use Rattle.std.specs.Prelude.{◌≡◌, ◌*◌, ◌≤◌, ℕ, IfOk, IsTrue, OnOk, Some, length, map, slice_get};
ghost use Rattle.fam_base.specs.Image.{Image};
ghost use Rattle.fam_format.specs.Layout.{device_limit};
ghost use Rattle.fam_judge.specs.Covering.{LeadsStates};
ghost use Rattle.fam_judge.specs.Possible.{Elsewhere, Possible, Wrote};
ghost use Rattle.fam_lines.specs.Lines.{note_of_line};
ghost use Rattle.fam_rules.specs.Place.{line_bytes};
ghost use Rattle.fam_judging.specs.declared.candidate.Candidate.{Candidate as AnyCandidate};
ghost use Rattle.fam_judging.specs.declared.hosts.Hosts.{Hosts};
ghost use Rattle.fam_judging.specs.After.{possible_after, seen_after};
ghost use Rattle.fam_judging.specs.Among.{AllFine, LeadsAmong, LeadsBehind, LeadsBehindAll, StepsAmong, WritesAmong};
ghost use Rattle.fam_judging.specs.Candidates.{HostsFit, IsCandidate, possible_of};
ghost use Rattle.fam_judging.specs.Going.{HasGiven};
ghost use Rattle.fam_judging.specs.Pushing.{IsFine};
ghost use Rattle.fam_judging.specs.StepLines.{IsStepLine};
ghost use Rattle.fam_judging.specs.Told.{AreToldCommands};

use crate::behind::written;
use crate::below::put_all_below;
use crate::candidate::Candidate;
use crate::candidates::{copy, let_go};
use crate::elsewhere::is_elsewhere;
use crate::given::GivenImage;
use crate::hosts::Hosts;
use crate::lead::step;
use crate::tasks::appends;
use fam_base::OutOfMemory;
use fam_lines::Line;
use std::alloc::Global;

/// Whether a line tells nothing of the entry that host `at` has named.
fn tells_nothing(written: &Candidate, at: usize, line: &Line) -> bool
    ensures { (start : Image) (hosts : Hosts) (x : Possible) (wrote : Wrote start at x (possible_of start hosts written.now))
        → IsTrue result → Elsewhere at wrote.seq (note_of_line line.now) }
{
    if at >= written.tracks.len() {
        return false;
    }
    match written.tracks[at].wrote {
        Some(wrote) => is_elsewhere(at, wrote.seq, line),
        None => false,
    }
}

/// Puts all states to which the line leads from the candidate behind others, unless others allow no less.
fn step_among(
    alloc: Global,
    given: &GivenImage,
    lines: u64,
    hosts: &Hosts,
    candidate: Candidate,
    line: &Line,
    out: &mut Vec<Candidate>,
) -> Result<(), OutOfMemory>
    requires few { line_bytes * lines ≤ device_limit }
    requires hosts { HostsFit hosts.now }
    requires told { AreToldCommands hosts.now }
    requires candidate { IsCandidate hosts.now candidate }
    requires line { IsStepLine line.now }
    ensures { (start : Image) → length start ≡ lines → HasGiven start given.now candidate.settled
        → OnOk result (StepsAmong start (note_of_line line.now) (possible_of start hosts.now candidate) (IsFine start given.now (seen_after hosts.now.seen.items line.now))
        (possible_after start hosts.now line.now) out.old.items out.new.items) }
{
    let Ok(seen) = hosts.seen_behind(line) else {
        let_go(candidate);
        return Err(OutOfMemory);
    };
    let mut news = Vec::new(alloc);
    step(alloc, given, lines, hosts, candidate, line, &mut news)?;
    put_all_below(&seen, news, out)
}

/// Puts the states to which the line leads from one in which host `at` has named an entry behind others, where the line tells of it.
fn lead_behind(
    alloc: Global,
    given: &GivenImage,
    lines: u64,
    hosts: &Hosts,
    written: Candidate,
    at: usize,
    line: &Line,
    out: &mut Vec<Candidate>,
) -> Result<(), OutOfMemory>
    requires few { line_bytes * lines ≤ device_limit }
    requires hosts { HostsFit hosts.now }
    requires told { AreToldCommands hosts.now }
    requires line { IsStepLine line.now }
    ensures { (start : Image) (x : Possible) → length start ≡ lines → IsFine start given.now hosts.now.seen.items written → Wrote start at x (possible_of start hosts.now written)
        → OnOk result (LeadsBehind start (note_of_line line.now) at x (possible_of start hosts.now written) (IsFine start given.now (seen_after hosts.now.seen.items line.now))
        (possible_after start hosts.now line.now) out.old.items out.new.items) }
{
    if written.tracks.len() != hosts.seen.len() {
        let_go(written);
        return Ok(());
    }
    if tells_nothing(&written, at, line) {
        let_go(written);
        return Ok(());
    }
    step_among(alloc, given, lines, hosts, written, line, out)
}

/// So from each of these.
fn lead_all_behind(
    alloc: Global,
    given: &GivenImage,
    lines: u64,
    hosts: &Hosts,
    written: &Vec<Candidate>,
    at: usize,
    line: &Line,
    out: &mut Vec<Candidate>,
) -> Result<(), OutOfMemory>
    requires few { line_bytes * lines ≤ device_limit }
    requires hosts { HostsFit hosts.now }
    requires told { AreToldCommands hosts.now }
    requires line { IsStepLine line.now }
    ensures { (start : Image) (x : Possible) → length start ≡ lines → AllFine (IsFine start given.now hosts.now.seen.items) written.now.items
        → ((k : ℕ) (d : AnyCandidate) → slice_get written.now.items k ≡ Some d → Wrote start at x (possible_of start hosts.now d))
        → OnOk result (LeadsBehindAll start (note_of_line line.now) at x (possible_of start hosts.now) written.now.items (length written.now.items)
        (IsFine start given.now (seen_after hosts.now.seen.items line.now)) (possible_after start hosts.now line.now) out.old.items out.new.items) }
{
    'named: for i in 0..written.len() {
        let Ok(one) = copy(alloc, &written[i]) else {
            return Err(OutOfMemory);
        };
        lead_behind(alloc, given, lines, hosts, one, at, line, out)?;
    }
    Ok(())
}

/// Puts the states to which the line leads where host `at` has named an entry before, of which the line tells, behind others.
fn lead_host(
    alloc: Global,
    given: &GivenImage,
    lines: u64,
    hosts: &Hosts,
    candidate: &Candidate,
    at: usize,
    line: &Line,
    out: &mut Vec<Candidate>,
) -> Result<(), OutOfMemory>
    requires few { line_bytes * lines ≤ device_limit }
    requires hosts { HostsFit hosts.now }
    requires told { AreToldCommands hosts.now }
    requires candidate { IsCandidate hosts.now candidate.now }
    requires line { IsStepLine line.now }
    ensures { (start : Image) → length start ≡ lines → HasGiven start given.now candidate.now.settled
        → OnOk result (WritesAmong start (note_of_line line.now) at (possible_of start hosts.now candidate.now)
        (IsFine start given.now (seen_after hosts.now.seen.items line.now)) (possible_after start hosts.now line.now) out.old.items out.new.items) }
{
    if !appends(hosts, at) {
        return Ok(());
    }
    let mut named = Vec::new(alloc);
    written(alloc, given, hosts, candidate, at, &mut named)?;
    lead_all_behind(alloc, given, lines, hosts, &named, at, line, out)
}

/// Puts all states to which the line leads from this one, at once and where hosts have named entries before, behind others.
fn lead_hosts(
    alloc: Global,
    given: &GivenImage,
    lines: u64,
    hosts: &Hosts,
    candidate: &Candidate,
    line: &Line,
    out: &mut Vec<Candidate>,
) -> Result<(), OutOfMemory>
    requires few { line_bytes * lines ≤ device_limit }
    requires hosts { HostsFit hosts.now }
    requires told { AreToldCommands hosts.now }
    requires candidate { IsCandidate hosts.now candidate.now }
    requires line { IsStepLine line.now }
    ensures { (start : Image) → length start ≡ lines → HasGiven start given.now candidate.now.settled
        → OnOk result (LeadsAmong start (note_of_line line.now) (length hosts.now.seen.items) (possible_of start hosts.now candidate.now)
        (IsFine start given.now (seen_after hosts.now.seen.items line.now)) (possible_after start hosts.now line.now) out.old.items out.new.items) }
{
    let Ok(own) = copy(alloc, candidate) else {
        return Err(OutOfMemory);
    };
    step_among(alloc, given, lines, hosts, own, line, out)?;
    'hosts: for at in 0..hosts.seen.len() {
        lead_host(alloc, given, lines, hosts, candidate, at, line, out)?;
    }
    Ok(())
}

/// The same; from one that hasn't its place for each host none.
fn lead_from(
    alloc: Global,
    given: &GivenImage,
    lines: u64,
    hosts: &Hosts,
    candidate: &Candidate,
    line: &Line,
    out: &mut Vec<Candidate>,
) -> Result<(), OutOfMemory>
    requires few { line_bytes * lines ≤ device_limit }
    requires hosts { HostsFit hosts.now }
    requires told { AreToldCommands hosts.now }
    requires line { IsStepLine line.now }
    ensures { (start : Image) → length start ≡ lines → IsFine start given.now hosts.now.seen.items candidate.now
        → OnOk result (LeadsAmong start (note_of_line line.now) (length hosts.now.seen.items) (possible_of start hosts.now candidate.now)
        (IsFine start given.now (seen_after hosts.now.seen.items line.now)) (possible_after start hosts.now line.now) out.old.items out.new.items) }
{
    if candidate.tracks.len() != hosts.seen.len() {
        return Ok(());
    }
    lead_hosts(alloc, given, lines, hosts, candidate, line, out)
}

/// The states to which the line leads from these, but for those of which others allow no less.
pub fn go_on(
    alloc: Global,
    given: &GivenImage,
    lines: u64,
    hosts: &Hosts,
    candidates: &Vec<Candidate>,
    line: &Line,
) -> Result<Vec<Candidate>, OutOfMemory>
    requires few { line_bytes * lines ≤ device_limit }
    requires hosts { HostsFit hosts.now }
    requires told { AreToldCommands hosts.now }
    requires line { IsStepLine line.now }
    ensures leads { (start : Image) → length start ≡ lines → AllFine (IsFine start given.now hosts.now.seen.items) candidates.now.items
        → IfOk result (λ next. LeadsStates start (note_of_line line.now) (map (possible_of start hosts.now) candidates.now.items)
        (map (possible_after start hosts.now line.now) next.items)) }
    ensures fine { (start : Image) → length start ≡ lines → AllFine (IsFine start given.now hosts.now.seen.items) candidates.now.items
        → IfOk result (λ next. AllFine (IsFine start given.now (seen_after hosts.now.seen.items line.now)) next.items) }
{
    let mut next = Vec::new(alloc);
    'candidates: for at in 0..candidates.len() {
        lead_from(alloc, given, lines, hosts, &candidates[at], line, &mut next)?;
    }
    Ok(next)
}
