//! The states in which hosts may be behind some notes of a history, and how they go on by one more.

ghost use Rattle.std.specs.Prelude.{◌≡◌, ◌*◌, ◌≤◌, IfOk, IfSome, List, [], None, length, true, false};
ghost use Rattle.fam_base.specs.Image.{Image};
ghost use Rattle.fam_format.specs.Layout.{device_limit};
ghost use Rattle.fam_journal.specs.Past.{first_state};
ghost use Rattle.fam_judging.specs.Candidates.{settled_state};
ghost use Rattle.fam_judging.specs.declared.given.GivenImage.{GivenImage as AnyGiven};
ghost use Rattle.fam_judging.specs.Going.{HasGiven};
ghost use Rattle.fam_records.specs.Histories.{record_seen};
ghost use Rattle.fam_records.specs.Records.{Recorded};
ghost use Rattle.fam_rules.specs.Place.{line_bytes};
ghost use Rattle.fam_verdict.specs.Fills.{HasToldFillIn};
ghost use Rattle.fam_verdict.specs.Judged.{GoesOn, IsJudged, IsKept, IsLineOf, IsReadAs, IsReady, IsReadyIf, Stops, tells_answer};
ghost use Rattle.fam_verdict.specs.Known.{IsKnown};
ghost use Rattle.fam_verdict.specs.Verdicts.{IsBecause};

use crate::begins::may_begin;
use crate::known::{pending_in, settled_in};
use crate::marks::mark;
use crate::verdict::Known;
use fam_base::{HostName, OutOfMemory};
use fam_causes::{Cause, cause};
use fam_history::{LineNote, ToldLine};
use fam_judging::{Candidate, GivenImage, Hosts, Settled, go_on};
use fam_lines::{Line, resolve};
use fam_records::Record;
use std::alloc::Global;

/// The hosts that are declared, and the states in which they may be.
#[derive(Drop)]
pub(crate) struct Judged {
    pub hosts: Hosts,
    pub candidates: Vec<Candidate>,
    /// For each host the number of the line with its last mark, or with its last start where no mark is told.
    pub marks: Vec<u64>,
}

/// Whether a line tells an answer.
fn tells_answer(told: &LineNote) -> bool
    ensures { result ≡ tells_answer told.now }
{
    match told {
        LineNote::Answered(_) => true,
        _ => false,
    }
}

/// Of which host a line is, and whether it tells an answer.
fn head(told: &ToldLine) -> (HostName, bool)
    ensures name { result.0 ≡ told.now.name }
    ensures answers { result.1 ≡ tells_answer told.now.note }
{
    (told.name, tells_answer(&told.note))
}

impl Judged {
    /// Before the first note, where this is settled.
    pub fn new(alloc: Global, settled: Settled) -> Result<Judged, OutOfMemory>
        ensures kept { IfOk result (λ j. IsKept j) }
        ensures judged { (start : Image) (given : AnyGiven) → HasGiven start given settled → settled_state start settled ≡ first_state start
            → IfOk result (λ j. IsJudged start given [] j) }
    {
        let first = Candidate {
            settled,
            tracks: Vec::new(alloc),
        };
        let mut candidates = Vec::new(alloc);
        if candidates.push(first).is_err() {
            return Err(OutOfMemory);
        }
        let hosts = Hosts {
            seen: Vec::new(alloc),
            commands: Vec::new(alloc),
        };
        Ok(Judged {
            hosts,
            candidates,
            marks: Vec::new(alloc),
        })
    }

    /// Goes on by a line: says whether some state is left. Where none is, hosts and states stay as they were.
    fn follow(
        &mut self,
        alloc: Global,
        lines: u64,
        given: &GivenImage,
        line: &Line,
    ) -> Result<bool, OutOfMemory>
        requires few { line_bytes * lines ≤ device_limit }
        requires kept { IsKept self.old }
        requires ready { IsReady line.now }
        ensures kept { IfOk result (λ goes. goes ≡ true → IsKept self.new) }
        ensures goes { (start : Image) (records : List Recorded) (r : Recorded) → length start ≡ lines → IsJudged start given.now records self.old
            → IsLineOf self.old.hosts.seen.items r line.now → IfOk result (λ goes. goes ≡ true → GoesOn start given.now records r self.new) }
        ensures stops { (start : Image) (records : List Recorded) (r : Recorded) → length start ≡ lines → IsJudged start given.now records self.old
            → IsLineOf self.old.hosts.seen.items r line.now → IfOk result (λ goes. goes ≡ false → Stops start records r) }
        ensures stays { IfOk result (λ goes. goes ≡ false → self.new ≡ self.old) }
    {
        if !may_begin(lines, &self.hosts.seen, line) {
            return Ok(false);
        }
        let next = go_on(alloc, given, lines, &self.hosts, &self.candidates, line)?;
        if next.is_empty() {
            return Ok(false);
        }
        self.hosts.follow(line)?;
        self.candidates = next;
        Ok(true)
    }

    /// So by what a note tells: no line where it tells no whole note.
    fn follow_if(
        &mut self,
        alloc: Global,
        lines: u64,
        given: &GivenImage,
        line: &Option<Line>,
    ) -> Result<bool, OutOfMemory>
        requires few { line_bytes * lines ≤ device_limit }
        requires kept { IsKept self.old }
        requires ready { IsReadyIf line.now }
        ensures kept { IfOk result (λ goes. goes ≡ true → IsKept self.new) }
        ensures goes { (start : Image) (records : List Recorded) (r : Recorded) → length start ≡ lines → IsJudged start given.now records self.old
            → IsReadAs self.old.hosts.seen.items r line.now → IfOk result (λ goes. goes ≡ true → GoesOn start given.now records r self.new) }
        ensures stops { (start : Image) (records : List Recorded) (r : Recorded) → length start ≡ lines → IsJudged start given.now records self.old
            → IsReadAs self.old.hosts.seen.items r line.now → IfOk result (λ goes. goes ≡ false → Stops start records r) }
        ensures stays { IfOk result (λ goes. goes ≡ false → self.new ≡ self.old) }
    {
        match line {
            Some(line) => self.follow(alloc, lines, given, line),
            None => Ok(false),
        }
    }

    /// So, and says why no state is left, where none is. The line is the one of this number, and it is of the host of this name.
    fn go(
        &mut self,
        alloc: Global,
        lines: u64,
        given: &GivenImage,
        name: HostName,
        answers: bool,
        number: u64,
        line: &Option<Line>,
    ) -> Result<Option<Cause>, OutOfMemory>
        requires few { line_bytes * lines ≤ device_limit }
        requires kept { IsKept self.old }
        requires ready { IsReadyIf line.now }
        ensures kept { IfOk result (λ why. why ≡ None → IsKept self.new) }
        ensures goes { (start : Image) (records : List Recorded) (r : Recorded) → length start ≡ lines → IsJudged start given.now records self.old
            → IsReadAs self.old.hosts.seen.items r line.now → IfOk result (λ why. why ≡ None → GoesOn start given.now records r self.new) }
        ensures stops { (start : Image) (records : List Recorded) (r : Recorded) → length start ≡ lines → IsJudged start given.now records self.old
            → IsReadAs self.old.hosts.seen.items r line.now → name ≡ r.told.name → answers ≡ tells_answer r.told.note
            → IfOk result (λ why. IfSome why (λ cause. Stops start records r × IsBecause start records r cause)) }
    {
        if self.follow_if(alloc, lines, given, line)? {
            mark(&mut self.marks, line, number)?;
            return Ok(None);
        }
        let why = cause(
            alloc,
            given,
            &self.hosts,
            &self.candidates,
            &self.marks,
            &name,
            answers,
            line,
        )?;
        Ok(Some(why))
    }

    /// Goes on by a note as it was read: says why no history that is told is explained any more, where none is.
    pub fn read(
        &mut self,
        alloc: Global,
        lines: u64,
        given: &GivenImage,
        next: Record,
    ) -> Result<Option<Cause>, OutOfMemory>
        requires few { line_bytes * lines ≤ device_limit }
        requires kept { IsKept self.old }
        requires filled { HasToldFillIn next.told.note }
        ensures kept { IfOk result (λ why. why ≡ None → IsKept self.new) }
        ensures goes { (start : Image) (records : List Recorded) → length start ≡ lines → IsJudged start given.now records self.old
            → IfOk result (λ why. why ≡ None → GoesOn start given.now records (record_seen next) self.new) }
        ensures stops { (start : Image) (records : List Recorded) → length start ≡ lines → IsJudged start given.now records self.old
            → IfOk result (λ why. IfSome why (λ cause. Stops start records (record_seen next) × IsBecause start records (record_seen next) cause)) }
    {
        let (name, answers) = head(&next.told);
        let number = next.line;
        let line = resolve(&self.hosts.seen, next.told, next.entries, next.report);
        self.go(alloc, lines, given, name, answers, number, &line)
    }

    /// What is known behind the last note.
    pub fn known(&self, lines: u64) -> Known
        requires kept { IsKept self.now }
        ensures lines { result.lines ≡ lines }
        ensures is { (start : Image) (given : AnyGiven) (records : List Recorded) → IsJudged start given records self.now → IsKnown start records result }
    {
        Known {
            lines,
            settled: settled_in(&self.candidates),
            pending: pending_in(&self.candidates),
            states: self.candidates.len() as u64,
        }
    }
}
