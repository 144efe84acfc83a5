//! Candidates that allow no less than others.

ghost use Rattle.std.specs.Prelude.{◌≡◌, IsTrue, List, OnOk, Option, map};
ghost use Rattle.fam_base.specs.Image.{Image};
ghost use Rattle.fam_history.specs.declared.command.ToldCommand.{ToldCommand};
ghost use Rattle.fam_judge.specs.Covering.{FloorUnder, HasBelow, IsBelow};
ghost use Rattle.fam_judging.specs.After.{possible_in};
ghost use Rattle.fam_judging.specs.Below.{AddsAll, AddsOne, AreHostsBelow, IsHostBelow, IsTrackBelow};

use crate::candidate::{Candidate, Settled, Stage, Track, Wrote};
use crate::candidates::{let_go, push};
use fam_base::OutOfMemory;
use fam_lines::SeenHost;

/// Whether the same is settled.
fn is_same_settled(a: &Settled, b: &Settled) -> bool
    ensures { IsTrue result → a.now ≡ b.now }
{
    match (a, b) {
        (Settled::Log(first), Settled::Log(second)) => first.is_same(second),
        (Settled::Given, Settled::Given) => true,
        (Settled::Halted, Settled::Halted) => true,
        _ => false,
    }
}

/// Whether both floors are there, and the first one is at most the second one.
fn is_floor_under(low: &Option<u64>, high: &Option<u64>) -> bool
    ensures { IsTrue result → FloorUnder low.now high.now }
{
    match (low, high) {
        (Some(f), Some(g)) => *f <= *g,
        _ => false,
    }
}

/// Whether the same entry was named.
fn is_same_wrote(a: &Wrote, b: &Wrote) -> bool
    ensures { IsTrue result → a.now ≡ b.now }
{
    a.seq == b.seq && a.entry.is_same(&b.entry)
}

/// Whether the same was named, or nothing.
fn have_same_wrote(a: &Option<Wrote>, b: &Option<Wrote>) -> bool
    ensures { IsTrue result → a.now ≡ b.now }
{
    match (a, b) {
        (Some(first), Some(second)) => is_same_wrote(first, second),
        (None, None) => true,
        _ => false,
    }
}

/// Whether a running command has come as far in the first one, and no more is asked of it there.
fn is_track_below(a: &Track, b: &Track) -> bool
    ensures { IsTrue result → IsTrackBelow a.now b.now }
{
    match (a.stage, b.stage) {
        (Stage::Begun, Stage::Begun) => is_floor_under(&a.floor, &b.floor),
        (Stage::Marked, Stage::Marked) => is_floor_under(&a.floor, &b.floor),
        (Stage::Met(m), Stage::Met(n)) => m == n,
        (Stage::Named(k), Stage::Named(seq)) => k == seq && have_same_wrote(&a.wrote, &b.wrote),
        _ => false,
    }
}

/// So of a host, if it runs a command.
fn is_host_below(seen: &Vec<SeenHost>, a: &Candidate, b: &Candidate, at: usize) -> bool
    ensures { IsTrue result → IsHostBelow seen.now.items a.now.tracks.items b.now.tracks.items at }
{
    if at >= seen.len() || !seen[at].runs {
        return true;
    }
    if at >= a.tracks.len() || at >= b.tracks.len() {
        return false;
    }
    is_track_below(&a.tracks[at], &b.tracks[at])
}

/// So of all hosts.
fn are_hosts_below(seen: &Vec<SeenHost>, a: &Candidate, b: &Candidate) -> bool
    ensures { IsTrue result → AreHostsBelow seen.now.items a.now.tracks.items b.now.tracks.items }
{
    if a.tracks.len() != b.tracks.len() {
        return false;
    }
    'hosts: for at in 0..a.tracks.len() {
        if !is_host_below(seen, a, b, at) {
            return false;
        }
    }
    true
}

/// Whether the first one allows no less than the second one, beside hosts of which this is seen.
fn is_below(seen: &Vec<SeenHost>, a: &Candidate, b: &Candidate) -> bool
    ensures { (start : Image) (cmds : List (Option ToldCommand)) → IsTrue result → IsBelow (possible_in start seen.now.items cmds a.now) (possible_in start seen.now.items cmds b.now) }
{
    is_same_settled(&a.settled, &b.settled) && are_hosts_below(seen, a, b)
}

/// Whether one of these allows no less than it.
fn has_below(seen: &Vec<SeenHost>, candidate: &Candidate, others: &Vec<Candidate>) -> bool
    ensures { (start : Image) (cmds : List (Option ToldCommand)) → IsTrue result
        → HasBelow (map (possible_in start seen.now.items cmds) others.now.items) (possible_in start seen.now.items cmds candidate.now) }
{
    'others: for at in 0..others.len() {
        if is_below(seen, &others[at], candidate) {
            return true;
        }
    }
    false
}

/// Puts a candidate behind the others, unless one of them allows no less.
fn put_below(
    seen: &Vec<SeenHost>,
    candidate: Candidate,
    out: &mut Vec<Candidate>,
) -> Result<(), OutOfMemory>
    ensures { (start : Image) (cmds : List (Option ToldCommand)) → OnOk result (AddsOne (possible_in start seen.now.items cmds) candidate out.old.items out.new.items) }
{
    if has_below(seen, &candidate, out) {
        let_go(candidate);
        return Ok(());
    }
    push(out, candidate)
}

/// So each of these.
pub(crate) fn put_all_below(
    seen: &Vec<SeenHost>,
    news: Vec<Candidate>,
    out: &mut Vec<Candidate>,
) -> Result<(), OutOfMemory>
    ensures { (start : Image) (cmds : List (Option ToldCommand)) → OnOk result (AddsAll (possible_in start seen.now.items cmds) news.items out.old.items out.new.items) }
{
    'news: for candidate in news {
        put_below(seen, candidate, out)?;
    }
    Ok(())
}
