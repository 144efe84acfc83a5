//! To which states an answer with a reply leads.

ghost use Rattle.std.specs.Prelude.{OnOk};
ghost use Rattle.fam_base.specs.Image.{Image};
ghost use Rattle.fam_judge.specs.Possible.{StepsTo};
ghost use Rattle.fam_lines.specs.declared.line.Line.TheVariants as line;
ghost use Rattle.fam_lines.specs.Lines.{answer_of, note_of_line};
ghost use Rattle.fam_judging.specs.After.{possible_after, seen_after};
ghost use Rattle.fam_judging.specs.Candidates.{IsCandidate, possible_of};
ghost use Rattle.fam_judging.specs.Going.{HasGiven};
ghost use Rattle.fam_judging.specs.Plain.{IsFault};
ghost use Rattle.fam_judging.specs.Pushing.{IsFine, Pushes};
ghost use Rattle.fam_judging.specs.StepLines.{IsStepAnswer};
ghost use Rattle.fam_judging.specs.Told.{AreToldCommands};

use crate::candidate::Candidate;
use crate::given::GivenImage;
use crate::hosts::Hosts;
use crate::replies_kinds::answer_lefts;
use crate::replies_put::put_all;
use crate::tasks::running;
use fam_base::OutOfMemory;
use fam_lines::HostAnswer;
use std::alloc::Global;

/// Pushes the candidates that keep what is left of a host's command behind an answer, where the media didn't fail.
pub(crate) fn reply(
    alloc: Global,
    given: &GivenImage,
    hosts: &Hosts,
    candidate: &Candidate,
    at: usize,
    answer: &HostAnswer,
    out: &mut Vec<Candidate>,
) -> Result<(), OutOfMemory>
    requires told { AreToldCommands hosts.now }
    requires candidate { IsCandidate hosts.now candidate.now }
    requires answer { IsStepAnswer answer.now }
    requires replies { IsFault (answer_of answer.now) → ⊥ }
    ensures { (start : Image) → HasGiven start given.now candidate.now.settled
        → OnOk result (Pushes (StepsTo start (possible_of start hosts.now candidate.now) (note_of_line (line.Answered at answer.now)))
        (IsFine start given.now (seen_after hosts.now.seen.items (line.Answered at answer.now)))
        (possible_after start hosts.now (line.Answered at answer.now)) out.old.items out.new.items) }
{
    let Some(cmd) = running(hosts, at) else {
        return Ok(());
    };
    let seen = &hosts.seen[at];
    let track = &candidate.tracks[at];
    let lefts = answer_lefts(alloc, given, seen, cmd, &candidate.settled, track, answer)?;
    put_all(candidate, at, lefts, out)
}
