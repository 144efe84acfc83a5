//! Lines that no running command gives.

ghost use Rattle.std.specs.Prelude.{◌≡◌, ◌*◌, ◌≤◌, ℕ, IfOk, OnOk, length, true};
ghost use Rattle.fam_base.specs.Image.{Image};
ghost use Rattle.fam_format.specs.Layout.{device_limit};
ghost use Rattle.fam_format.specs.Params.{SoundParams};
ghost use Rattle.fam_journal.specs.Past.{Past, state_after};
ghost use Rattle.fam_judge.specs.Possible.{StepsTo};
ghost use Rattle.fam_lines.specs.declared.line.Line.TheVariants as line;
ghost use Rattle.fam_lines.specs.Lines.{note_of_line};
ghost use Rattle.fam_rules.specs.Place.{line_bytes};
ghost use Rattle.fam_judging.specs.declared.given.GivenImage.{GivenImage};
ghost use Rattle.fam_judging.specs.After.{possible_after, seen_after, tracks_after};
ghost use Rattle.fam_judging.specs.Candidates.{HostsFit, IsCandidate, possible_of, settled_state};
ghost use Rattle.fam_judging.specs.Going.{Goes, HasGiven};
ghost use Rattle.fam_judging.specs.Plain.{HasSoundMade, HasUuid, IsPlainLine};

use crate::candidate::{Candidate, Settled, Track};
use crate::hosts::Hosts;
use crate::settled::settled_count;
use crate::tracks::{declare, put_begun};
use fam_base::{OutOfMemory, Params};
use fam_lines::{Line, stands};
use fam_machine::is_uuid;
use fam_settled::Log;
use std::alloc::Global;

/// A maker that halts behind so many operations has sent a line.
const FIRST_SENT: u64 = 36;

/// A file system was made.
fn make(alloc: Global, settled: &mut Settled, p: &Params) -> Result<(), OutOfMemory>
    requires sound { SoundParams p.now }
    ensures made { (start : Image) (past : Past) (h : ℕ) → OnOk result (settled_state start settled.new ≡ state_after past (note_of_line (line.Made h p.now))) }
    ensures given { (start : Image) (given : GivenImage) → HasGiven start given settled.old → HasGiven start given settled.new }
{
    let log = Log::new(alloc, p)?;
    *settled = Settled::Log(log);
    Ok(())
}

/// A maker halted behind so many operations.
fn cut(settled: &mut Settled, k: u64)
    ensures cut { (start : Image) (past : Past) (h : ℕ) → past.state ≡ settled_state start settled.old
        → settled_state start settled.new ≡ state_after past (note_of_line (line.Cut h k)) }
    ensures given { (start : Image) (given : GivenImage) → HasGiven start given settled.old → HasGiven start given settled.new }
{
    if k >= FIRST_SENT {
        *settled = Settled::Halted;
    }
}

/// What is settled behind the line.
fn settle(alloc: Global, settled: &mut Settled, line: &Line) -> Result<(), OutOfMemory>
    requires plain { IsPlainLine line.now }
    requires made { HasSoundMade line.now }
    ensures settled { (start : Image) (past : Past) → past.state ≡ settled_state start settled.old
        → OnOk result (settled_state start settled.new ≡ state_after past (note_of_line line.now)) }
    ensures given { (start : Image) (given : GivenImage) → HasGiven start given settled.old → HasGiven start given settled.new }
{
    match line {
        Line::Made(_, p) => make(alloc, settled, p),
        Line::Cut(_, k) => {
            cut(settled, *k);
            Ok(())
        }
        _ => Ok(()),
    }
}

/// What a candidate keeps of the hosts behind the line, before which so much is settled.
fn keep(tracks: &mut Vec<Track>, settled: u64, line: &Line) -> Result<(), OutOfMemory>
    requires plain { IsPlainLine line.now }
    ensures { OnOk result (tracks.new.items ≡ tracks_after settled tracks.old.items line.now) }
{
    match line {
        Line::Host(_, _) => declare(tracks),
        Line::Start(host, _) => {
            put_begun(tracks, *host, settled);
            Ok(())
        }
        _ => Ok(()),
    }
}

/// Of a file system that a line says was made the master has a UUID.
fn master_is(line: &Line)
    ensures { HasUuid line.now }
{
    match line {
        Line::Made(_, p) => is_uuid(p.master),
        _ => {}
    }
}

/// To which state a line leads that no running command gives: to the one behind it, where it stands.
pub(crate) fn plain(
    alloc: Global,
    lines: u64,
    hosts: &Hosts,
    candidate: &mut Candidate,
    line: &Line,
) -> Result<bool, OutOfMemory>
    requires plain { IsPlainLine line.now }
    requires few { line_bytes * lines ≤ device_limit }
    requires hosts { HostsFit hosts.now }
    requires candidate { IsCandidate hosts.now candidate.old }
    ensures goes { (start : Image) (given : GivenImage) → length start ≡ lines → HasGiven start given candidate.old.settled
        → IfOk result (Goes (StepsTo start (possible_of start hosts.now candidate.old) (note_of_line line.now)) (possible_after start hosts.now line.now candidate.new)) }
    ensures given { (start : Image) (given : GivenImage) → HasGiven start given candidate.old.settled → HasGiven start given candidate.new.settled }
    ensures candidate { IfOk result (λ goes. goes ≡ true → length candidate.new.tracks.items ≡ length (seen_after hosts.now.seen.items line.now)) }
{
    if !stands(lines, &hosts.seen, line) {
        return Ok(false);
    }
    master_is(line);
    let count = settled_count(&candidate.settled);
    settle(alloc, &mut candidate.settled, line)?;
    keep(&mut candidate.tracks, count, line)?;
    Ok(true)
}
