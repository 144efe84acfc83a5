//! Which lines may stand next, of those that no running command gives.

ghost use Rattle.std.specs.Prelude.{◌≡◌, ◌↔◌, ◌<◌, ⊤, true, false, IsTrue, List, None, length, slice_get};
ghost use Rattle.fam_history.specs.Told.{told_of_command};
ghost use Rattle.fam_journal.specs.Calls.{host_limit};
ghost use Rattle.fam_journal.specs.Shapes.{HostShape};
ghost use Rattle.fam_judge.specs.Standing.{IsMadeBy, MayDeclare, MayMake, MayStand, OfFace, engaged_in, faces, is_own};
ghost use Rattle.fam_lines.specs.Hosts.{faces_of};
ghost use Rattle.fam_lines.specs.Lines.{note_of_line};

use crate::commands::may_start;
use crate::host::{SeenHost, engaged_in, host_at, same_in};
use crate::line::Line;
use crate::making::{is_made_by, may_make};
use crate::refused::may_refuse;
use fam_base::{HostName, Params};
use fam_machine::is_uuid;
use uuid::Uuid;

/// The most hosts of a run.
const HOST_LIMIT: usize = 64;

/// Whether one more host may be declared.
fn has_place(hosts: &[SeenHost]) -> bool
    ensures { IsTrue result ↔ (length (faces_of hosts.now) < host_limit) }
{
    hosts.len() < HOST_LIMIT
}

/// Whether a host of this name and UUID may be declared.
fn may_declare(hosts: &[SeenHost], name: &HostName, uuid: &Uuid) -> bool
    ensures { IsTrue result ↔ MayDeclare (faces_of hosts.now) name.now uuid.now }
{
    is_uuid(*uuid);
    same_in(name, uuid, hosts).is_none() && has_place(hosts)
}

/// Whether a host of this number is declared.
fn is_host(hosts: &[SeenHost], at: usize) -> bool
    ensures { IsTrue result ↔ OfFace (slice_get (faces_of hosts.now) at) (λ f. ⊤) }
{
    host_at(hosts, at).is_some()
}

/// Whether the host of this number may have made a file system of these parameters.
fn is_maker(lines: u64, hosts: &[SeenHost], at: usize, p: &Params) -> bool
    ensures { IsTrue result ↔ OfFace (slice_get (faces_of hosts.now) at) (λ f. IsMadeBy f.uuid lines p.now) }
{
    match host_at(hosts, at) {
        Some(host) => is_made_by(&host.uuid, lines, p),
        None => false,
    }
}

/// Whether a file system of these parameters may be made.
fn may_be_made(lines: u64, hosts: &[SeenHost], at: usize, p: &Params) -> bool
    ensures { IsTrue result ↔ ((engaged_in (faces_of hosts.now) ≡ None)
        × OfFace (slice_get (faces_of hosts.now) at) (λ f. IsMadeBy f.uuid lines p.now)) }
{
    engaged_in(hosts).is_none() && is_maker(lines, hosts, at, p)
}

/// Whether a maker may have halted.
fn may_be_cut(lines: u64, hosts: &[SeenHost], at: usize) -> bool
    ensures { IsTrue result ↔ (MayMake lines (faces_of hosts.now) × OfFace (slice_get (faces_of hosts.now) at) (λ f. ⊤)) }
{
    may_make(lines, hosts) && is_host(hosts, at)
}

/// Whether the host of this number runs a command.
fn may_stop(hosts: &[SeenHost], at: usize) -> bool
    ensures { IsTrue result ↔ OfFace (slice_get (faces_of hosts.now) at) (λ f. f.runs ≡ true) }
{
    match host_at(hosts, at) {
        Some(host) => host.runs,
        None => false,
    }
}

/// Whether the host of this number runs no command, and keeps something.
fn may_umount(hosts: &[SeenHost], at: usize) -> bool
    ensures { IsTrue result ↔ OfFace (slice_get (faces_of hosts.now) at) (λ f. (f.runs ≡ false) × (f.keeps ≡ true)) }
{
    match host_at(hosts, at) {
        Some(host) => !host.runs && host.keeps,
        None => false,
    }
}

/// Whether a line that no running command gives may stand next, on a media of so many lines behind lines that tell so much of
/// the hosts (`is`). Of a line that a running command gives it says `false` (`own`).
pub fn stands(lines: u64, hosts: &[SeenHost], line: &Line) -> bool
    ensures is { (shapes : List HostShape) → faces shapes ≡ faces_of hosts.now → is_own (note_of_line line.now) ≡ false
        → IsTrue result ↔ MayStand lines shapes (note_of_line line.now) }
    ensures own { is_own (note_of_line line.now) ≡ true → result ≡ false }
{
    match line {
        Line::Host(name, uuid) => may_declare(hosts, name, uuid),
        Line::Made(host, p) => may_be_made(lines, hosts, *host, p),
        Line::Cut(host, _) => may_be_cut(lines, hosts, *host),
        Line::Start(host, cmd) => may_start(lines, hosts, *host, cmd),
        Line::Stop(host) => may_stop(hosts, *host),
        Line::Halt(host) => is_host(hosts, *host),
        Line::Umount(host) => may_umount(hosts, *host),
        Line::Refused(name, cause) => may_refuse(lines, hosts, name, cause),
        Line::Mark(_) => false,
        Line::Found(_, _) => false,
        Line::Writes { .. } => false,
        Line::Answered(_, _) => false,
    }
}
