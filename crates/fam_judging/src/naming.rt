//! The entry that a command names.

ghost use Rattle.std.specs.Prelude.{◌≡◌, Some, length};
ghost use Rattle.fam_base.specs.Image.{Image};
ghost use Rattle.fam_journal.specs.Past.{HostPast};
ghost use Rattle.fam_lines.specs.Lines.{untold_of};
ghost use Rattle.fam_settled.specs.Settled.{settled_log_state};
ghost use Rattle.fam_judging.specs.declared.given.GivenImage.{GivenImage};
ghost use Rattle.fam_judging.specs.Candidates.{possible_of, settled_state};
ghost use Rattle.fam_judging.specs.Going.{HasGiven};
ghost use Rattle.fam_judging.specs.Told.{AreToldCommands, IsToldCommand, NamesIn, NamesNext};

use crate::candidate::{Candidate, Settled};
use crate::hosts::Hosts;
use crate::tasks::{has_met, running};
use crate::tracks::put_named;
use fam_base::Entry;
use fam_history::ToldCommand;
use fam_settled::{Log, bytes_told};
use uuid::Uuid;

/// The entry of number `n` that a command names behind a log, where it names one. It pends then.
pub(crate) fn name_log(log: &mut Log, cmd: &ToldCommand, me: Uuid, n: u64) -> Option<Entry>
    requires told { IsToldCommand cmd.now }
    ensures { (host : HostPast) → host.cmd ≡ Some (untold_of cmd.now) → host.uuid ≡ me
        → NamesIn n host cmd.now (settled_log_state log.old) (settled_log_state log.new) result }
{
    if log.pending().is_some() {
        return None;
    }
    if n != log.count() {
        return None;
    }
    log.is_settled();
    match log.decide(cmd, me) {
        Some(Ok(entry)) => {
            log.pend(&entry, bytes_told(cmd));
            Some(entry)
        }
        _ => None,
    }
}

/// The entry that a command names in a state, where it names one.
fn name_in(settled: &mut Settled, cmd: &ToldCommand, me: Uuid, n: u64) -> Option<Entry>
    requires told { IsToldCommand cmd.now }
    ensures names { (start : Image) (given : GivenImage) (host : HostPast) → HasGiven start given settled.old
        → host.cmd ≡ Some (untold_of cmd.now) → host.uuid ≡ me
        → NamesIn n host cmd.now (settled_state start settled.old) (settled_state start settled.new) result }
    ensures given { (start : Image) (given : GivenImage) → HasGiven start given settled.old → HasGiven start given settled.new }
{
    match settled {
        Settled::Log(log) => name_log(log, cmd, me, n),
        Settled::Given => None,
        Settled::Halted => None,
    }
}

/// The entry of number `n` that a host's command names next, where it has found so many entries and names one.
pub(crate) fn name(hosts: &Hosts, candidate: &mut Candidate, at: usize, n: u64) -> Option<Entry>
    requires told { AreToldCommands hosts.now }
    ensures names { (start : Image) (given : GivenImage) → HasGiven start given candidate.old.settled
        → NamesNext start at n (possible_of start hosts.now candidate.old) (possible_of start hosts.now candidate.new) result }
    ensures given { (start : Image) (given : GivenImage) → HasGiven start given candidate.old.settled → HasGiven start given candidate.new.settled }
    ensures placed { length candidate.new.tracks.items ≡ length candidate.old.tracks.items }
{
    if !has_met(hosts, candidate, at, n) {
        return None;
    }
    let cmd = running(hosts, at)?;
    match name_in(&mut candidate.settled, cmd, hosts.seen[at].uuid, n) {
        Some(entry) => {
            put_named(&mut candidate.tracks, at, n, &entry);
            Some(entry)
        }
        None => None,
    }
}
