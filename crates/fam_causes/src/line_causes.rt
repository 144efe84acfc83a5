//! Why a line can't be next.

ghost use Rattle.std.specs.Prelude.{◌≡◌, ℕ, Bool, IfOk, IfSome, List, MatchOption, None, Some};
ghost use Rattle.fam_lines.specs.declared.line.Line.TheVariants as line;
ghost use Rattle.fam_judging.specs.declared.candidate.Candidate.{Candidate as AnyCandidate};
ghost use Rattle.fam_judging.specs.declared.given.GivenImage.{GivenImage as AnyImage};
ghost use Rattle.fam_judging.specs.declared.hosts.Hosts.{Hosts as AnyHosts};
ghost use Rattle.fam_judging.specs.Going.{running};
ghost use Rattle.fam_judging.specs.Told.{AreToldCommands};
ghost use Rattle.fam_causes.specs.Asked.{Awaits, asked, is_declared_line};
ghost use Rattle.fam_causes.specs.Asking.{giver_of};
ghost use Rattle.fam_causes.specs.Causes.{IsCause};

use crate::acknowledged::is_unnamed;
use crate::answered::{other, replied_cause};
use crate::asking::asking_of;
use crate::hosts::{number_in, running, runs_as, some_runs_as, taken};
use crate::kinds::Cause;
use crate::notes::found_other;
use crate::refusals::{is_of_declared, refused_while};
use fam_base::{Entry, HostName, OutOfMemory};
use fam_history::ToldCommand;
use fam_judging::{Candidate, GivenImage, Hosts};
use fam_lines::Line;
use std::alloc::Global;
use uuid::Uuid;

/// The name of a host whose running command rules a line out.
fn awaited(hosts: &Hosts, name: &HostName, line: &Line) -> Option<HostName>
    ensures { IfSome result (Awaits hosts.now.seen.items name.now line.now) }
{
    match line {
        Line::Made(_, _) => some_runs_as(&hosts.seen),
        Line::Cut(_, _) => some_runs_as(&hosts.seen),
        Line::Start(host, _) => runs_as(&hosts.seen, *host),
        Line::Umount(host) => runs_as(&hosts.seen, *host),
        Line::Refused(_, why) => refused_while(&hosts.seen, name, why),
        _ => None,
    }
}

/// The host whose running command gives a line.
fn giver_of(line: &Line) -> Option<usize>
    ensures { result ≡ giver_of line.now }
{
    match line {
        Line::Mark(host) => Some(*host),
        Line::Found(host, _) => Some(*host),
        Line::Writes { host, .. } => Some(*host),
        Line::Answered(host, _) => Some(*host),
        Line::Stop(host) => Some(*host),
        _ => None,
    }
}

/// Whether a line is of a declared host.
fn is_declared_line(line: &Line) -> bool
    ensures { result ≡ is_declared_line line.now }
{
    match line {
        Line::Host(_, _) => false,
        Line::Refused(_, why) => is_of_declared(why),
        _ => true,
    }
}

/// A line declares a host.
fn same_cause(hosts: &Hosts, own: &HostName, uuid: &Uuid) -> Cause
    ensures { (given : AnyImage) (candidates : List AnyCandidate) (marks : List ℕ) (name : List ℕ) (answers : Bool)
        → IsCause (asked given hosts.now candidates marks name answers (Some (line.Host own.now uuid.now))) result }
{
    match taken(&hosts.seen, own, uuid) {
        Some(named) => Cause::SameHost(named),
        None => Cause::OtherAnswer(None),
    }
}

/// No running command gives a line, and it declares no host.
fn waiting_cause(hosts: &Hosts, name: &HostName, line: &Line) -> Cause
    ensures { (given : AnyImage) (candidates : List AnyCandidate) (marks : List ℕ) (answers : Bool)
        → IsCause (asked given hosts.now candidates marks name.now answers (Some line.now)) result }
{
    if is_declared_line(line) && number_in(&hosts.seen, name).is_none() {
        return Cause::NoSuchHost;
    }
    match awaited(hosts, name, line) {
        Some(named) => Cause::StillRunning(named),
        None => Cause::OtherAnswer(None),
    }
}

/// No running command gives a line.
fn free_cause(hosts: &Hosts, name: &HostName, line: &Line) -> Cause
    ensures { (given : AnyImage) (candidates : List AnyCandidate) (marks : List ℕ) (answers : Bool)
        → IsCause (asked given hosts.now candidates marks name.now answers (Some line.now)) result }
{
    match line {
        Line::Host(own, uuid) => same_cause(hosts, own, uuid),
        _ => waiting_cause(hosts, name, line),
    }
}

/// A count is found.
fn found_cause(given: &GivenImage, candidates: &Vec<Candidate>, at: usize, n: u64) -> Cause
    ensures { (hosts : AnyHosts) (marks : List ℕ) (name : List ℕ) (answers : Bool)
        → IsCause (asked given.now hosts candidates.now.items marks name answers (Some (line.Found at n))) result }
{
    let _ = at;
    match found_other(given, candidates, n) {
        Some((first, second)) => Cause::Found {
            found: n,
            first,
            second,
        },
        None => Cause::OtherAnswer(None),
    }
}

/// A running command names an entry.
fn named_cause(
    hosts: &Hosts,
    candidates: &Vec<Candidate>,
    at: usize,
    cmd: &ToldCommand,
    seq: u64,
    entry: &Entry,
) -> Cause
    requires told { AreToldCommands hosts.now }
    requires runs { running hosts.now.seen.items hosts.now.commands.items at ≡ Some cmd.now }
    ensures { (given : AnyImage) (marks : List ℕ) (name : List ℕ) (answers : Bool)
        → IsCause (asked given hosts.now candidates.now.items marks name answers (Some (line.Writes at seq entry.now))) result }
{
    if at >= hosts.seen.len() {
        return Cause::OtherAnswer(None);
    }
    if is_unnamed(candidates, &hosts.seen[at], cmd, at, seq, entry) {
        Cause::OtherEntry
    } else {
        Cause::OtherAnswer(None)
    }
}

/// A running command gives a line that it may give.
fn running_cause(
    alloc: Global,
    given: &GivenImage,
    hosts: &Hosts,
    candidates: &Vec<Candidate>,
    marks: &[u64],
    at: usize,
    cmd: &ToldCommand,
    line: &Line,
) -> Result<Cause, OutOfMemory>
    requires told { AreToldCommands hosts.now }
    requires giver { giver_of line.now ≡ Some at }
    requires runs { running hosts.now.seen.items hosts.now.commands.items at ≡ Some cmd.now }
    ensures { (name : List ℕ) (answers : Bool) → IfOk result
        (IsCause (asked given.now hosts.now candidates.now.items marks.now name answers (Some line.now))) }
{
    match line {
        Line::Found(host, n) => Ok(found_cause(given, candidates, *host, *n)),
        Line::Writes { host, seq, entry } => {
            Ok(named_cause(hosts, candidates, *host, cmd, *seq, entry))
        }
        Line::Answered(host, answer) => {
            replied_cause(alloc, given, hosts, candidates, marks, *host, cmd, answer)
        }
        _ => Ok(Cause::OtherAnswer(None)),
    }
}

/// A host's running command gives a line.
fn given_cause(
    alloc: Global,
    given: &GivenImage,
    hosts: &Hosts,
    candidates: &Vec<Candidate>,
    marks: &[u64],
    at: usize,
    line: &Line,
) -> Result<Cause, OutOfMemory>
    requires told { AreToldCommands hosts.now }
    requires giver { giver_of line.now ≡ Some at }
    ensures { (name : List ℕ) (answers : Bool) → IfOk result
        (IsCause (asked given.now hosts.now candidates.now.items marks.now name answers (Some line.now))) }
{
    let Some(cmd) = running(hosts, at) else {
        return Ok(Cause::NotRunning);
    };
    if !asking_of(cmd).may_give(line) {
        return Ok(Cause::NoAnswer);
    }
    running_cause(alloc, given, hosts, candidates, marks, at, cmd, line)
}

/// Why a line can't be next that is one.
fn line_cause(
    alloc: Global,
    given: &GivenImage,
    hosts: &Hosts,
    candidates: &Vec<Candidate>,
    marks: &[u64],
    name: &HostName,
    line: &Line,
) -> Result<Cause, OutOfMemory>
    requires told { AreToldCommands hosts.now }
    ensures { (answers : Bool) → IfOk result
        (IsCause (asked given.now hosts.now candidates.now.items marks.now name.now answers (Some line.now))) }
{
    match giver_of(line) {
        Some(at) => given_cause(alloc, given, hosts, candidates, marks, at, line),
        None => Ok(free_cause(hosts, name, line)),
    }
}

/// Why a text can't be next that is no line.
fn text_cause(hosts: &Hosts, name: &HostName, answers: bool) -> Cause
    ensures { (given : AnyImage) (candidates : List AnyCandidate) (marks : List ℕ)
        → IsCause (asked given hosts.now candidates marks name.now answers None) result }
{
    let Some(at) = number_in(&hosts.seen, name) else {
        return Cause::NoSuchHost;
    };
    if answers && running(hosts, at).is_none() {
        return Cause::NotRunning;
    }
    Cause::OtherAnswer(None)
}

/// Why a line can't be next, where no state is left. The candidates are the states before it, and `marks` has for each host the number
/// of the line with the last mark of its command, or with its start where no mark is told. `name` is that of the line's host, and
/// `answers` says whether it is an answer; `line` is none where the text is of no declared host, or its further lines fit no answer.
pub fn cause(
    alloc: Global,
    given: &GivenImage,
    hosts: &Hosts,
    candidates: &Vec<Candidate>,
    marks: &[u64],
    name: &HostName,
    answers: bool,
    line: &Option<Line>,
) -> Result<Cause, OutOfMemory>
    requires told { AreToldCommands hosts.now }
    ensures { IfOk result (IsCause (asked given.now hosts.now candidates.now.items marks.now name.now answers line.now)) }
{
    match line {
        Some(line) => line_cause(alloc, given, hosts, candidates, marks, name, line),
        None => Ok(text_cause(hosts, name, answers)),
    }
}
