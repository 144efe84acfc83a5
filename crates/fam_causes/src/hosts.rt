//! What causes say of hosts.

ghost use Rattle.std.specs.Prelude.{◌≡◌, ◌<◌, ◌||◌, ℕ, Bool, IfSome, List, MatchOption, Some, None, false, length, option_map, slice_get, true};
ghost use Rattle.fam_base.specs.PathOrder.{path_eq};
ghost use Rattle.fam_judge.specs.Standing.{same_in};
ghost use Rattle.fam_lines.specs.Hosts.{faces_of};
ghost use Rattle.fam_lines.specs.Resolved.{seen_number};
ghost use Rattle.fam_judging.specs.Going.{running};
ghost use Rattle.fam_causes.specs.Asked.{IsTaken, OwnRunsAs, RunsAs, SomeRunsAs};

use crate::asking::{Asking, asking_of};
use fam_base::HostName;
use fam_history::ToldCommand;
use fam_judging::{Candidate, Hosts, Stage};
use fam_lines::SeenHost;
use uuid::Uuid;

/// Whether these are the same bytes.
fn same_bytes(left: &[u8], right: &[u8]) -> bool
    ensures { result ≡ path_eq left.now right.now }
{
    left == right
}

/// Whether a host has this name.
fn is_named(host: &SeenHost, name: &HostName) -> bool
    ensures { result ≡ path_eq host.now.name name.now }
{
    host.name == *name
}

/// Whether a host has this name or this UUID.
fn is_same(host: &SeenHost, name: &HostName, uuid: &Uuid) -> bool
    ensures { result ≡ (path_eq host.now.name name.now || path_eq host.now.uuid uuid.now) }
{
    is_named(host, name) || same_bytes(host.uuid.as_bytes(), uuid.as_bytes())
}

/// The number of the host of a name.
pub(crate) fn number_in(hosts: &[SeenHost], name: &HostName) -> Option<usize>
    ensures { result ≡ seen_number hosts.now name.now }
{
    for (at, host) in hosts.iter().enumerate() {
        if is_named(host, name) {
            return Some(at);
        }
    }
    None
}

/// The number of the first host that has the name or the UUID.
fn same_in(hosts: &[SeenHost], name: &HostName, uuid: &Uuid) -> Option<usize>
    ensures { result ≡ same_in name.now uuid.now (faces_of hosts.now) }
{
    for (at, host) in hosts.iter().enumerate() {
        if is_same(host, name, uuid) {
            return Some(at);
        }
    }
    None
}

/// The name of the first host that has the name or the UUID.
pub(crate) fn taken(hosts: &[SeenHost], name: &HostName, uuid: &Uuid) -> Option<HostName>
    ensures { IfSome result (λ named. IsTaken hosts.now name.now uuid.now named) }
{
    let at = same_in(hosts, name, uuid)?;
    if at < hosts.len() {
        Some(hosts[at].name)
    } else {
        None
    }
}

/// The name of a host that runs a command.
pub(crate) fn runs_as(hosts: &[SeenHost], at: usize) -> Option<HostName>
    ensures { IfSome result (λ named. RunsAs hosts.now at named) }
{
    if at >= hosts.len() {
        return None;
    }
    let host = hosts[at];
    if host.runs { Some(host.name) } else { None }
}

/// So of the host of a name.
pub(crate) fn own_runs_as(hosts: &[SeenHost], name: &HostName) -> Option<HostName>
    ensures { IfSome result (λ named. OwnRunsAs hosts.now name.now named) }
{
    let at = number_in(hosts, name)?;
    runs_as(hosts, at)
}

/// The name of some host that runs a command.
pub(crate) fn some_runs_as(hosts: &[SeenHost]) -> Option<HostName>
    ensures { IfSome result (λ named. SomeRunsAs hosts.now named) }
{
    for at in 0..hosts.len() {
        let named = runs_as(hosts, at);
        if named.is_some() {
            return named;
        }
    }
    None
}

/// The command that a host runs.
pub(crate) fn running(hosts: &Hosts, at: usize) -> Option<&ToldCommand>
    ensures is { option_map (λ c. c.now) result ≡ running hosts.now.seen.items hosts.now.commands.items at }
    ensures within { IfSome result (λ c. at < length hosts.now.seen.items) }
{
    if at >= hosts.seen.len() || at >= hosts.commands.len() {
        return None;
    }
    if !hosts.seen[at].runs {
        return None;
    }
    match &hosts.commands[at] {
        Some(cmd) => Some(cmd),
        None => None,
    }
}

/// Whether a command appends.
fn appends(cmd: Option<&ToldCommand>) -> bool {
    match cmd {
        Some(cmd) => match asking_of(cmd) {
            Asking::Append => true,
            _ => false,
        },
        None => false,
    }
}

/// Whether in a state the command of a host has named its entry.
fn has_named(candidate: &Candidate, at: usize) -> bool {
    if at >= candidate.tracks.len() {
        return false;
    }
    match candidate.tracks[at].stage {
        Stage::Named(_) => true,
        _ => false,
    }
}

/// Whether in a state some host runs a command that may have named an entry of which nothing is told yet.
fn may_have_named(hosts: &Hosts, candidate: &Candidate) -> bool {
    for at in 0..hosts.seen.len() {
        if appends(running(hosts, at)) && !has_named(candidate, at) {
            return true;
        }
    }
    false
}

/// How many entries more than are told there may be: in some state a running command may have named one.
pub(crate) fn late_entries(hosts: &Hosts, candidates: &Vec<Candidate>) -> u64 {
    for i in 0..candidates.len() {
        if may_have_named(hosts, &candidates[i]) {
            return 1;
        }
    }
    0
}
