//! To which states a line leads.

ghost use Rattle.std.specs.Prelude.{◌≡◌, ◌*◌, ◌≤◌, IfOk, OnOk, length, true};
ghost use Rattle.fam_base.specs.Image.{Image};
ghost use Rattle.fam_format.specs.Layout.{device_limit};
ghost use Rattle.fam_judge.specs.Possible.{StepsTo};
ghost use Rattle.fam_lines.specs.Lines.{note_of_line};
ghost use Rattle.fam_rules.specs.Place.{line_bytes};
ghost use Rattle.fam_judging.specs.After.{possible_after, seen_after};
ghost use Rattle.fam_judging.specs.Candidates.{HostsFit, IsCandidate, possible_of};
ghost use Rattle.fam_judging.specs.Going.{Goes, HasGiven};
ghost use Rattle.fam_judging.specs.Plain.{TellsNoReply};
ghost use Rattle.fam_judging.specs.Pushing.{IsFine, Pushes};
ghost use Rattle.fam_judging.specs.StepLines.{IsStepLine};
ghost use Rattle.fam_judging.specs.Told.{AreToldCommands};

use crate::candidate::Candidate;
use crate::candidates::{let_go, push};
use crate::given::GivenImage;
use crate::hosts::Hosts;
use crate::plain::plain;
use crate::replies::reply;
use crate::replies_kinds::is_fault;
use crate::steps::{is_own, own};
use fam_base::OutOfMemory;
use fam_lines::Line;
use std::alloc::Global;

/// The candidate comes to the state to which a line leads that tells no reply, where it leads to one.
fn lead_to(
    alloc: Global,
    given: &GivenImage,
    lines: u64,
    hosts: &Hosts,
    candidate: &mut Candidate,
    line: &Line,
) -> Result<bool, OutOfMemory>
    requires few { line_bytes * lines ≤ device_limit }
    requires hosts { HostsFit hosts.now }
    requires told { AreToldCommands hosts.now }
    requires candidate { IsCandidate hosts.now candidate.old }
    requires fault { TellsNoReply line.now }
    ensures goes { (start : Image) → length start ≡ lines → HasGiven start given.now candidate.old.settled
        → IfOk result (Goes (StepsTo start (possible_of start hosts.now candidate.old) (note_of_line line.now)) (possible_after start hosts.now line.now candidate.new)) }
    ensures given { (start : Image) → HasGiven start given.now candidate.old.settled → HasGiven start given.now candidate.new.settled }
    ensures placed { IfOk result (λ goes. goes ≡ true → length candidate.new.tracks.items ≡ length (seen_after hosts.now.seen.items line.now)) }
{
    if is_own(line) {
        own(given, hosts, candidate, line)
    } else {
        plain(alloc, lines, hosts, candidate, line)
    }
}

/// Pushes the candidate behind others, as the state to which a line leads that tells no reply; none where it leads nowhere.
fn step_alone(
    alloc: Global,
    given: &GivenImage,
    lines: u64,
    hosts: &Hosts,
    candidate: Candidate,
    line: &Line,
    out: &mut Vec<Candidate>,
) -> Result<(), OutOfMemory>
    requires few { line_bytes * lines ≤ device_limit }
    requires hosts { HostsFit hosts.now }
    requires told { AreToldCommands hosts.now }
    requires candidate { IsCandidate hosts.now candidate }
    requires fault { TellsNoReply line.now }
    ensures { (start : Image) → length start ≡ lines → HasGiven start given.now candidate.settled
        → OnOk result (Pushes (StepsTo start (possible_of start hosts.now candidate) (note_of_line line.now)) (IsFine start given.now (seen_after hosts.now.seen.items line.now))
        (possible_after start hosts.now line.now) out.old.items out.new.items) }
{
    let mut candidate = candidate;
    let Ok(goes) = lead_to(alloc, given, lines, hosts, &mut candidate, line) else {
        let_go(candidate);
        return Err(OutOfMemory);
    };
    if !goes {
        let_go(candidate);
        return Ok(());
    }
    push(out, candidate)
}

/// Pushes behind others all states to which the line leads from the candidate.
pub fn step(
    alloc: Global,
    given: &GivenImage,
    lines: u64,
    hosts: &Hosts,
    candidate: Candidate,
    line: &Line,
    out: &mut Vec<Candidate>,
) -> Result<(), OutOfMemory>
    requires few { line_bytes * lines ≤ device_limit }
    requires hosts { HostsFit hosts.now }
    requires told { AreToldCommands hosts.now }
    requires candidate { IsCandidate hosts.now candidate }
    requires line { IsStepLine line.now }
    ensures { (start : Image) → length start ≡ lines → HasGiven start given.now candidate.settled
        → OnOk result (Pushes (StepsTo start (possible_of start hosts.now candidate) (note_of_line line.now)) (IsFine start given.now (seen_after hosts.now.seen.items line.now))
        (possible_after start hosts.now line.now) out.old.items out.new.items) }
{
    match line {
        Line::Answered(at, answer) if !is_fault(answer) => {
            let result = reply(alloc, given, hosts, &candidate, *at, answer, out);
            let_go(candidate);
            result
        }
        _ => step_alone(alloc, given, lines, hosts, candidate, line, out),
    }
}
