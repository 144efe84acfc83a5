//! What a host's command may have named by now.

ghost use Rattle.std.specs.Prelude.{◌≡◌, ◌+◌, ℕ, OnOk, Some, is_some, length, true};
ghost use Rattle.fam_base.specs.Image.{Image};
ghost use Rattle.fam_judge.specs.Possible.{Wrote};
ghost use Rattle.fam_judging.specs.declared.given.GivenImage.{GivenImage};
ghost use Rattle.fam_judging.specs.Candidates.{IsCandidate, possible_of, settled_state};
ghost use Rattle.fam_judging.specs.Going.{HasGiven};
ghost use Rattle.fam_judging.specs.Pushing.{IsFine, IsMore, Pushes, WrittenAt, first_count};
ghost use Rattle.fam_judging.specs.Told.{AreToldCommands};

use crate::candidate::{Candidate, Settled, Stage};
use crate::candidates::{copy, let_go, push};
use crate::given::GivenImage;
use crate::hosts::Hosts;
use crate::settled::settled_count;
use crate::steps::wrote;
use crate::tasks::stage_at;
use fam_base::OutOfMemory;
use fam_settled::Log;
use std::alloc::Global;

/// Pushes the state in which a host's command, which has found `n` entries by now, has named an entry; none where it can't have.
fn written_at(
    alloc: Global,
    given: &GivenImage,
    hosts: &Hosts,
    candidate: &Candidate,
    at: usize,
    n: u64,
    out: &mut Vec<Candidate>,
) -> Result<(), OutOfMemory>
    requires told { AreToldCommands hosts.now }
    requires candidate { IsCandidate hosts.now candidate.now }
    ensures { (start : Image) → HasGiven start given.now candidate.now.settled
        → OnOk result (Pushes (WrittenAt start at n (possible_of start hosts.now candidate.now)) (IsFine start given.now hosts.now.seen.items)
        (possible_of start hosts.now) out.old.items out.new.items) }
{
    let mut next = copy(alloc, candidate)?;
    let Ok(named) = wrote(given, hosts, &mut next, at, n) else {
        let_go(next);
        return Err(OutOfMemory);
    };
    if named.is_none() {
        let_go(next);
        return Ok(());
    }
    push(out, next)
}

/// How many entries a command has found by its stage, where so many are settled.
fn count_at(stage: Option<Stage>, settled: u64) -> u64
    ensures { result ≡ first_count stage settled }
{
    match stage {
        None => settled,
        Some(Stage::Begun) => settled,
        Some(Stage::Marked) => settled,
        Some(Stage::Met(n)) => n,
        Some(Stage::Named(_)) => settled,
    }
}

/// One more than are settled in a log, where one pends.
fn log_next(log: &Log) -> Option<u64>
    ensures { is_some log.now.pending ≡ true → result ≡ Some (length log.now.entries + 1) }
{
    if log.pending().is_none() {
        return None;
    }
    log.is_settled();
    let slots = log.params().slots;
    if log.count() >= slots {
        return None;
    }
    Some(log.count() + 1)
}

/// One more than are settled, where one pends.
fn next_count(settled: &Settled) -> Option<u64>
    ensures { (start : Image) (given : GivenImage) (m : ℕ) → HasGiven start given settled.now → IsMore m (settled_state start settled.now) → result ≡ Some m }
{
    match settled {
        Settled::Log(log) => log_next(log),
        Settled::Given => None,
        Settled::Halted => None,
    }
}

/// The same behind one count more, where there is one.
fn written_next(
    alloc: Global,
    given: &GivenImage,
    hosts: &Hosts,
    candidate: &Candidate,
    at: usize,
    n: Option<u64>,
    out: &mut Vec<Candidate>,
) -> Result<(), OutOfMemory>
    requires told { AreToldCommands hosts.now }
    requires candidate { IsCandidate hosts.now candidate.now }
    ensures { (start : Image) → HasGiven start given.now candidate.now.settled
        → OnOk result (Pushes (λ z. (m : ℕ) × (n ≡ Some m) × WrittenAt start at m (possible_of start hosts.now candidate.now) z) (IsFine start given.now hosts.now.seen.items)
        (possible_of start hosts.now) out.old.items out.new.items) }
{
    match n {
        Some(n) => written_at(alloc, given, hosts, candidate, at, n, out),
        None => Ok(()),
    }
}

/// Pushes behind others all states in which a host's command has named an entry by now, where it hasn't in the candidate.
pub fn written(
    alloc: Global,
    given: &GivenImage,
    hosts: &Hosts,
    candidate: &Candidate,
    at: usize,
    out: &mut Vec<Candidate>,
) -> Result<(), OutOfMemory>
    requires told { AreToldCommands hosts.now }
    requires candidate { IsCandidate hosts.now candidate.now }
    ensures { (start : Image) → HasGiven start given.now candidate.now.settled
        → OnOk result (Pushes (Wrote start at (possible_of start hosts.now candidate.now)) (IsFine start given.now hosts.now.seen.items)
        (possible_of start hosts.now) out.old.items out.new.items) }
{
    let count = settled_count(&candidate.settled);
    let n = count_at(stage_at(hosts, candidate, at), count);
    written_at(alloc, given, hosts, candidate, at, n, out)?;
    let more = next_count(&candidate.settled);
    written_next(alloc, given, hosts, candidate, at, more, out)
}
