//! The running command of a host, and how far it has come in a candidate.

ghost use Rattle.std.specs.Prelude.{◌≡◌, ◌↔◌, ◌<◌, IfSome, IsSome, IsTrue, Some, length, option_map};
ghost use Rattle.fam_judging.specs.Going.{is_appending, is_at_head, is_begun, is_met, running, stage_of_host};

use crate::candidate::{Candidate, Stage};
use crate::hosts::Hosts;
use fam_base::Cmd;
use fam_history::ToldCommand;

/// The command that a host runs.
pub(crate) fn running(hosts: &Hosts, at: usize) -> Option<&ToldCommand>
    ensures is { option_map (λ c. c.now) result ≡ running hosts.now.seen.items hosts.now.commands.items at }
    ensures within { IfSome result (λ c. at < length hosts.now.seen.items) }
{
    if at >= hosts.seen.len() || at >= hosts.commands.len() {
        return None;
    }
    if !hosts.seen[at].runs {
        return None;
    }
    match &hosts.commands[at] {
        Some(cmd) => Some(cmd),
        None => None,
    }
}

/// Whether a host runs a command.
fn is_running(hosts: &Hosts, at: usize) -> bool
    ensures { IsTrue result ↔ IsSome (running hosts.now.seen.items hosts.now.commands.items at) }
{
    running(hosts, at).is_some()
}

/// How far a host's running command has come.
pub(crate) fn stage_at(hosts: &Hosts, candidate: &Candidate, at: usize) -> Option<Stage>
    ensures { result ≡ stage_of_host hosts.now candidate.now at }
{
    if at < candidate.tracks.len() && is_running(hosts, at) {
        Some(candidate.tracks[at].stage)
    } else {
        None
    }
}

/// Whether it has just begun.
pub(crate) fn has_begun(hosts: &Hosts, candidate: &Candidate, at: usize) -> bool
    ensures { result ≡ is_begun (stage_of_host hosts.now candidate.now at) }
{
    match stage_at(hosts, candidate, at) {
        Some(Stage::Begun) => true,
        _ => false,
    }
}

/// Whether it has found nothing yet.
pub(crate) fn is_head(hosts: &Hosts, candidate: &Candidate, at: usize) -> bool
    ensures { result ≡ is_at_head (stage_of_host hosts.now candidate.now at) }
{
    match stage_at(hosts, candidate, at) {
        Some(Stage::Begun) => true,
        Some(Stage::Marked) => true,
        _ => false,
    }
}

/// Whether it has found so many entries.
pub(crate) fn has_met(hosts: &Hosts, candidate: &Candidate, at: usize, n: u64) -> bool
    ensures { result ≡ is_met n (stage_of_host hosts.now candidate.now at) }
{
    match stage_at(hosts, candidate, at) {
        Some(Stage::Met(found)) => found == n,
        _ => false,
    }
}

/// Whether a command appends.
fn is_append(cmd: &ToldCommand) -> bool
    ensures { result ≡ is_appending (Some cmd.now) }
{
    match cmd {
        ToldCommand::Plain(Cmd::Mkdir { .. }) => true,
        ToldCommand::Plain(Cmd::Creat { .. }) => true,
        ToldCommand::Plain(Cmd::Cp { .. }) => true,
        ToldCommand::Plain(_) => false,
        ToldCommand::Cp { .. } => true,
        ToldCommand::VerifySource { .. } => false,
        ToldCommand::Check { .. } => false,
    }
}

/// Whether a host runs a command that appends.
pub(crate) fn appends(hosts: &Hosts, at: usize) -> bool
    ensures { result ≡ is_appending (running hosts.now.seen.items hosts.now.commands.items at) }
{
    match running(hosts, at) {
        Some(cmd) => is_append(cmd),
        None => false,
    }
}
