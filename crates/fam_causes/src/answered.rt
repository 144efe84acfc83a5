//! Why an answer can't stand.

ghost use Rattle.std.specs.Prelude.{◌≡◌, ◌<◌, ℕ, Bool, IfOk, IfSome, IsFalse, IsTrue, List, MatchOption, None, Some, length};
ghost use Rattle.fam_journal.specs.Past.{Damage};
ghost use Rattle.fam_lines.specs.declared.answer.HostAnswer.TheVariants as answer;
ghost use Rattle.fam_lines.specs.declared.line.Line.TheVariants as line;
ghost use Rattle.fam_judging.specs.declared.given.GivenImage.{GivenImage};
ghost use Rattle.fam_judging.specs.declared.hosts.Hosts.{Hosts};
ghost use Rattle.fam_judging.specs.Going.{running};
ghost use Rattle.fam_causes.specs.Asked.{Asked, asked};
ghost use Rattle.fam_causes.specs.Bounds.{shown_count};
ghost use Rattle.fam_causes.specs.Causes.{IsCause};
ghost use Rattle.fam_causes.specs.Differing.{damage_of};

use crate::acknowledged::is_unacknowledged;
use crate::asking::asking_of;
use crate::bounds::{least_floor, most, shown_count};
use crate::damages::{first_damage, is_other_damage};
use crate::decided::{decided, is_other};
use crate::fitting::shown_cause;
use crate::hosts::late_entries;
use crate::kinds::Cause;
use crate::trees::tree_cause;
use fam_base::OutOfMemory;
use fam_history::ToldCommand;
use fam_judging::{Candidate, GivenImage, Hosts};
use fam_lines::HostAnswer;
use std::alloc::Global;

/// An answer shows too few entries.
fn few_cause(
    candidates: &Vec<Candidate>,
    marks: &[u64],
    at: usize,
    answer: &HostAnswer,
    m: u64,
) -> Option<Cause>
    requires count { shown_count answer.now ≡ Some m }
    ensures { (given : GivenImage) (hosts : Hosts) (name : List ℕ) (answers : Bool) → IfSome result
        (IsCause (asked given hosts candidates.now.items marks.now name answers (Some (line.Answered at answer.now)))) }
{
    let _ = answer;
    let floor = least_floor(candidates, at)?;
    if m < floor && at < marks.len() {
        Some(Cause::ShownFew {
            shown: m,
            floor,
            mark: marks[at],
        })
    } else {
        None
    }
}

/// It shows too many, also where so many more may have been named of which nothing is told yet.
fn many_cause(
    candidates: &Vec<Candidate>,
    late: u64,
    at: usize,
    answer: &HostAnswer,
    m: u64,
) -> Option<Cause>
    requires count { shown_count answer.now ≡ Some m }
    ensures { (given : GivenImage) (hosts : Hosts) (marks : List ℕ) (name : List ℕ) (answers : Bool) → IfSome result
        (IsCause (asked given hosts candidates.now.items marks name answers (Some (line.Answered at answer.now)))) }
{
    let _ = at;
    let _ = answer;
    let most = most(candidates)?.saturating_add(late);
    if m > most {
        Some(Cause::ShownMany { shown: m, most })
    } else {
        None
    }
}

/// Why an answer of so many entries can't stand, whatever it shows of them.
fn count_cause(
    candidates: &Vec<Candidate>,
    late: u64,
    marks: &[u64],
    at: usize,
    answer: &HostAnswer,
    m: u64,
) -> Option<Cause>
    requires count { shown_count answer.now ≡ Some m }
    ensures { (given : GivenImage) (hosts : Hosts) (name : List ℕ) (answers : Bool) → IfSome result
        (IsCause (asked given hosts candidates.now.items marks.now name answers (Some (line.Answered at answer.now)))) }
{
    let few = few_cause(candidates, marks, at, answer, m);
    if few.is_some() {
        return few;
    }
    many_cause(candidates, late, at, answer, m)
}

/// Whether an answer tells of damage.
fn tells_damage(answer: &HostAnswer) -> bool
    ensures damage { IsTrue result → (d : Damage) × (damage_of answer.now ≡ Some d) }
    ensures none { IsFalse result → damage_of answer.now ≡ None }
{
    match answer {
        HostAnswer::NoSuperblock(_) => true,
        HostAnswer::BadHeader(_) => true,
        HostAnswer::BadSlot(_, _) => true,
        _ => false,
    }
}

/// The image is damaged, of which an answer says nothing.
fn damaged_cause(
    given: &GivenImage,
    hosts: &Hosts,
    candidates: &Vec<Candidate>,
    at: usize,
    cmd: &ToldCommand,
    answer: &HostAnswer,
) -> Option<Cause>
    requires runs { running hosts.now.seen.items hosts.now.commands.items at ≡ Some cmd.now }
    ensures { (marks : List ℕ) (name : List ℕ) (answers : Bool) → IfSome result
        (IsCause (asked given.now hosts.now candidates.now.items marks name answers (Some (line.Answered at answer.now)))) }
{
    let _ = hosts;
    let _ = at;
    if asking_of(cmd).is_survey() {
        return None;
    }
    if tells_damage(answer) {
        return None;
    }
    match first_damage(given, candidates) {
        Some(wanted) => Some(Cause::OtherAnswer(Some(wanted))),
        None => None,
    }
}

/// The cause that was found, or the last resort.
pub(crate) fn other(found: Option<Cause>) -> Cause
    ensures { (x : Asked) → IfSome found (IsCause x) → IsCause x result }
{
    match found {
        Some(cause) => cause,
        None => Cause::OtherAnswer(None),
    }
}

/// Why an answer of so many entries can't stand, by what it shows of them.
fn content_cause(
    alloc: Global,
    hosts: &Hosts,
    candidates: &Vec<Candidate>,
    at: usize,
    cmd: &ToldCommand,
    answer: &HostAnswer,
    m: u64,
) -> Result<Option<Cause>, OutOfMemory>
    requires runs { running hosts.now.seen.items hosts.now.commands.items at ≡ Some cmd.now }
    requires count { shown_count answer.now ≡ Some m }
    ensures { (given : GivenImage) (marks : List ℕ) (name : List ℕ) (answers : Bool) → IfOk result (λ found. IfSome found
        (IsCause (asked given hosts.now candidates.now.items marks name answers (Some (line.Answered at answer.now))))) }
{
    match answer {
        HostAnswer::Played(m, entries) => tree_cause(alloc, candidates, at, *m, entries),
        _ => shown_cause(alloc, hosts, candidates, at, cmd, answer, m),
    }
}

/// Why an answer of so many entries can't stand.
fn showing_cause(
    alloc: Global,
    given: &GivenImage,
    hosts: &Hosts,
    candidates: &Vec<Candidate>,
    marks: &[u64],
    at: usize,
    cmd: &ToldCommand,
    answer: &HostAnswer,
    m: u64,
) -> Result<Cause, OutOfMemory>
    requires runs { running hosts.now.seen.items hosts.now.commands.items at ≡ Some cmd.now }
    requires count { shown_count answer.now ≡ Some m }
    ensures { (name : List ℕ) (answers : Bool) → IfOk result
        (IsCause (asked given.now hosts.now candidates.now.items marks.now name answers (Some (line.Answered at answer.now)))) }
{
    let late = late_entries(hosts, candidates);
    if let Some(cause) = count_cause(candidates, late, marks, at, answer, m) {
        return Ok(cause);
    }
    if let Some(cause) = damaged_cause(given, hosts, candidates, at, cmd, answer) {
        return Ok(cause);
    }
    let found = content_cause(alloc, hosts, candidates, at, cmd, answer, m)?;
    Ok(other(found))
}

/// The entries decide otherwise.
fn decided_cause(
    hosts: &Hosts,
    candidates: &Vec<Candidate>,
    at: usize,
    cmd: &ToldCommand,
    answer: &HostAnswer,
) -> Option<Cause>
    requires runs { running hosts.now.seen.items hosts.now.commands.items at ≡ Some cmd.now }
    ensures { (given : GivenImage) (marks : List ℕ) (name : List ℕ) (answers : Bool) → IfSome result
        (IsCause (asked given hosts.now candidates.now.items marks name answers (Some (line.Answered at answer.now)))) }
{
    let wanted = decided(hosts, candidates, at, cmd)?;
    if is_other(answer, &wanted) {
        Some(Cause::OtherAnswer(Some(wanted)))
    } else {
        None
    }
}

/// An entry is acknowledged that doesn't stand.
fn acknowledged_cause(
    hosts: &Hosts,
    candidates: &Vec<Candidate>,
    at: usize,
    cmd: &ToldCommand,
    seq: u64,
) -> Option<Cause>
    requires runs { running hosts.now.seen.items hosts.now.commands.items at ≡ Some cmd.now }
    ensures { (given : GivenImage) (marks : List ℕ) (name : List ℕ) (answers : Bool) → IfSome result
        (IsCause (asked given hosts.now candidates.now.items marks name answers (Some (line.Answered at (answer.Appended seq))))) }
{
    if at >= hosts.seen.len() {
        return None;
    }
    if is_unacknowledged(candidates, &hosts.seen[at], cmd, at, seq) {
        Some(Cause::NotAcknowledged(seq))
    } else {
        None
    }
}

/// No state is damaged so.
fn damage_cause(
    given: &GivenImage,
    candidates: &Vec<Candidate>,
    at: usize,
    answer: &HostAnswer,
) -> Option<Cause>
    ensures { (hosts : Hosts) (marks : List ℕ) (name : List ℕ) (answers : Bool) → IfSome result
        (IsCause (asked given.now hosts candidates.now.items marks name answers (Some (line.Answered at answer.now)))) }
{
    let _ = at;
    if !tells_damage(answer) {
        return None;
    }
    if is_other_damage(given, candidates, answer) {
        Some(Cause::OtherDamage)
    } else {
        None
    }
}

/// Why another answer can't stand.
fn other_cause(
    given: &GivenImage,
    hosts: &Hosts,
    candidates: &Vec<Candidate>,
    at: usize,
    cmd: &ToldCommand,
    answer: &HostAnswer,
) -> Option<Cause>
    requires runs { running hosts.now.seen.items hosts.now.commands.items at ≡ Some cmd.now }
    ensures { (marks : List ℕ) (name : List ℕ) (answers : Bool) → IfSome result
        (IsCause (asked given.now hosts.now candidates.now.items marks name answers (Some (line.Answered at answer.now)))) }
{
    let wanted = decided_cause(hosts, candidates, at, cmd, answer);
    if wanted.is_some() {
        return wanted;
    }
    let damaged = damaged_cause(given, hosts, candidates, at, cmd, answer);
    if damaged.is_some() {
        return damaged;
    }
    match answer {
        HostAnswer::Appended(seq) => acknowledged_cause(hosts, candidates, at, cmd, *seq),
        _ => damage_cause(given, candidates, at, answer),
    }
}

/// Why an answer of a command that may be answered so can't stand.
pub(crate) fn replied_cause(
    alloc: Global,
    given: &GivenImage,
    hosts: &Hosts,
    candidates: &Vec<Candidate>,
    marks: &[u64],
    at: usize,
    cmd: &ToldCommand,
    answer: &HostAnswer,
) -> Result<Cause, OutOfMemory>
    requires runs { running hosts.now.seen.items hosts.now.commands.items at ≡ Some cmd.now }
    ensures { (name : List ℕ) (answers : Bool) → IfOk result
        (IsCause (asked given.now hosts.now candidates.now.items marks.now name answers (Some (line.Answered at answer.now)))) }
{
    match shown_count(answer) {
        Some(m) => showing_cause(alloc, given, hosts, candidates, marks, at, cmd, answer, m),
        None => Ok(other(other_cause(given, hosts, candidates, at, cmd, answer))),
    }
}
