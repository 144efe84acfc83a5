//! Entries that hosts have named, and those that they may name.

ghost use Rattle.std.specs.Prelude.{◌≡◌, ◌↔◌, ◌<◌, ℕ, IsTrue, Some, length, option_map, slice_get};
ghost use Rattle.fam_journal.specs.Legal.{AppendedAllowed, WritesAllowed};
ghost use Rattle.fam_journal.specs.Past.{acknowledges};
ghost use Rattle.fam_lines.specs.Lines.{untold_of};
ghost use Rattle.fam_settled.specs.Settled.{settled_log_state};
ghost use Rattle.fam_settled.specs.Told.{bare_cmd};
ghost use Rattle.fam_judging.specs.declared.candidate.Candidate.{Candidate as AnyCandidate};
ghost use Rattle.fam_judging.specs.FoundLefts.{host_of};
ghost use Rattle.fam_causes.specs.Differing.{IsAcknowledgedIn, MayNameIn};

use fam_base::Entry;
use fam_history::ToldCommand;
use fam_judging::{Candidate, Settled, Track};
use fam_lines::SeenHost;
use fam_settled::Log;

/// Whether the entry that a command named may be acknowledged.
fn is_acknowledged(log: &Log, seen: &SeenHost, cmd: &ToldCommand, track: &Track, seq: u64) -> bool
    ensures { IsTrue result ↔ AppendedAllowed seq (host_of seen.now cmd.now track.now) (acknowledges seq (settled_log_state log.now)) }
{
    let _ = seen;
    let _ = cmd;
    match track.wrote {
        Some(wrote) => log.acknowledged_fits(seq, wrote.seq, &wrote.entry),
        None => false,
    }
}

/// So in a candidate.
fn is_acknowledged_in(
    candidate: &Candidate,
    seen: &SeenHost,
    cmd: &ToldCommand,
    at: usize,
    seq: u64,
) -> bool
    ensures { IsTrue result ↔ IsAcknowledgedIn seen.now cmd.now at seq candidate.now }
{
    if at >= candidate.tracks.len() {
        return false;
    }
    match &candidate.settled {
        Settled::Log(log) => is_acknowledged(log, seen, cmd, &candidate.tracks[at], seq),
        _ => false,
    }
}

/// Whether it may be in no candidate.
pub(crate) fn is_unacknowledged(
    candidates: &Vec<Candidate>,
    seen: &SeenHost,
    cmd: &ToldCommand,
    at: usize,
    seq: u64,
) -> bool
    ensures { IsTrue result → (k : ℕ) (c : AnyCandidate) → k < length candidates.now.items → slice_get candidates.now.items k ≡ Some c
        → IsAcknowledgedIn seen.now cmd.now at seq c → ⊥ }
{
    'candidates: for i in 0..candidates.len() {
        if is_acknowledged_in(&candidates[i], seen, cmd, at, seq) {
            return false;
        }
    }
    true
}

/// Whether a command may name an entry.
fn may_name(
    log: &Log,
    seen: &SeenHost,
    cmd: &ToldCommand,
    track: &Track,
    seq: u64,
    entry: &Entry,
) -> bool
    requires { bare_cmd cmd.now ≡ untold_of cmd.now }
    ensures { IsTrue result ↔ WritesAllowed seq entry.now (host_of seen.now cmd.now track.now) (settled_log_state log.now) }
{
    let _ = track;
    log.writes_fits(seq, entry, cmd, seen.uuid)
}

/// So in a candidate.
fn may_name_in(
    candidate: &Candidate,
    seen: &SeenHost,
    cmd: &ToldCommand,
    at: usize,
    seq: u64,
    entry: &Entry,
) -> bool
    requires { bare_cmd cmd.now ≡ untold_of cmd.now }
    ensures { IsTrue result ↔ MayNameIn seen.now cmd.now at seq entry.now candidate.now }
{
    if at >= candidate.tracks.len() {
        return false;
    }
    match &candidate.settled {
        Settled::Log(log) => may_name(log, seen, cmd, &candidate.tracks[at], seq, entry),
        _ => false,
    }
}

/// Whether it may in no candidate.
pub(crate) fn is_unnamed(
    candidates: &Vec<Candidate>,
    seen: &SeenHost,
    cmd: &ToldCommand,
    at: usize,
    seq: u64,
    entry: &Entry,
) -> bool
    requires { bare_cmd cmd.now ≡ untold_of cmd.now }
    ensures { IsTrue result → (k : ℕ) (c : AnyCandidate) → k < length candidates.now.items → slice_get candidates.now.items k ≡ Some c
        → MayNameIn seen.now cmd.now at seq entry.now c → ⊥ }
{
    'candidates: for i in 0..candidates.len() {
        if may_name_in(&candidates[i], seen, cmd, at, seq, entry) {
            return false;
        }
    }
    true
}
