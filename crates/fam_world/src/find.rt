//! Whom a call is for, and why it is refused at once: by names, UUIDs, tasks and caches alone.

ghost use Rattle.std.specs.Prelude.{◌≡◌, ◌&&◌, ◌<◌, ◌≤◌, ℕ, List, [], IfErr, IfOk, OnOk, IfSome, vec_len, is_some, slice_get, Some, None, true};
ghost use Rattle.fam_base.specs.PathOrder.{path_eq};
ghost use Rattle.fam_base.specs.declared.cmd.Cmd.{Cmd};
ghost use Rattle.fam_format.specs.Layout.{least_lines};
ghost use Rattle.fam_machine.specs.HostMoves.{Move};
ghost use Rattle.fam_journal.specs.Calls.{Begins, Declares, Halts, Moves, Steps, Umounts, dirty_from, has_name, is_busy, is_engaged, is_same};
ghost use Rattle.fam_journal.specs.ByWorld.{refusal_in, shown_host};
ghost use Rattle.fam_journal.specs.Members.{index_of};
ghost use Rattle.fam_journal.specs.Notes.{Note};
ghost use Rattle.fam_journal.specs.View.{HostView};
ghost use Rattle.fam_world.specs.Answers.{IsPlaced, IsPlain};
ghost use Rattle.fam_commands.specs.Classes.{is_mount};
ghost use Rattle.fam_world.specs.View.{count_kept, count_named, host_view, is_dirty_other, shown_hosts, views};

use crate::hosts::{Host, MOST_HOSTS};
use fam_base::{Cmd, HostName, LineNo};
use fam_format::LEAST_LINES;
use fam_journal::{HostId, Refusal};
use uuid::Uuid;

/// Whether these are the same bytes.
fn same_bytes(left: &[u8], right: &[u8]) -> bool
    ensures { result ≡ path_eq left.now right.now }
{
    left == right
}

/// Whether a host has this name.
fn is_named(host: &Host, name: &HostName) -> bool
    ensures { result ≡ has_name name.now (shown_host (host_view host.now)) }
{
    host.name == *name
}

/// Whether a host has this name or this UUID.
fn is_same(host: &Host, name: &HostName, uuid: &Uuid) -> bool
    ensures { result ≡ is_same name.now uuid.now (shown_host (host_view host.now)) }
{
    is_named(host, name) || same_bytes(host.uuid.as_bytes(), uuid.as_bytes())
}

/// Whether a host has a task.
fn is_busy(host: &Host) -> bool
    ensures busy { result ≡ is_busy (shown_host (host_view host.now)) }
    ensures task { result ≡ is_some host.now.task }
{
    match host.task {
        Some(_) => true,
        None => false,
    }
}

/// How many of the log's entries a host keeps, if it keeps anything.
fn kept_count(host: &Host) -> Option<u64>
    ensures count { result ≡ count_kept (host_view host.now).kept }
    ensures some { is_some result ≡ is_some (host_view host.now).kept }
{
    match &host.task {
        Some(task) => task.kept_count(),
        None => match &host.kept {
            Some(kept) => Some(kept.count()),
            None => None,
        },
    }
}

/// Whether a host keeps something of the log.
fn keeps(host: &Host) -> bool
    ensures { result ≡ is_some (host_view host.now).kept }
{
    kept_count(host).is_some()
}

/// Whether a mount is to begin on a host that keeps something of the log.
fn mounts_again(host: &Host, mount: bool) -> bool
    ensures { result ≡ (mount && is_some (host_view host.now).kept) }
{
    mount && keeps(host)
}

/// Whether a host has a task, or keeps something of the log.
fn is_engaged(host: &Host) -> bool
    ensures { result ≡ is_engaged (shown_host (host_view host.now)) }
{
    is_busy(host) || keeps(host)
}

/// Whether a command is a mount.
pub(crate) fn is_mount(cmd: &Cmd) -> bool
    ensures { result ≡ is_mount cmd.now }
{
    match cmd {
        Cmd::Mount => true,
        _ => false,
    }
}

/// Whether a host, which isn't the maker, holds a line that memory may lack. It looks at each line that is held.
fn is_dirty_other(host: &Host, at: usize, maker: usize) -> bool
    ensures { result ≡ is_dirty_other maker at (shown_host (host_view host.now)) }
{
    at != maker && host.cache.dirty_lines() > 0
}

/// The host of this name.
pub(crate) fn number(hosts: &Vec<Host>, name: &HostName) -> Option<usize>
    ensures is { result ≡ index_of (has_name name.now) (shown_hosts hosts.now.items) }
    ensures within { IfSome result (λ at. at < vec_len hosts.now) }
{
    for at in 0..hosts.len() {
        if is_named(&hosts[at], name) {
            return Some(at);
        }
    }
    None
}

/// The first host of this name or this UUID.
fn same_host(hosts: &Vec<Host>, name: &HostName, uuid: &Uuid) -> Option<usize>
    ensures is { result ≡ index_of (is_same name.now uuid.now) (shown_hosts hosts.now.items) }
    ensures within { IfSome result (λ at. at < vec_len hosts.now) }
{
    for at in 0..hosts.len() {
        if is_same(&hosts[at], name, uuid) {
            return Some(at);
        }
    }
    None
}

/// The first host that has a task, or keeps something of the log.
pub(crate) fn engaged_host(hosts: &Vec<Host>) -> Option<usize>
    ensures is { result ≡ index_of is_engaged (shown_hosts hosts.now.items) }
    ensures within { IfSome result (λ at. at < vec_len hosts.now) }
{
    for at in 0..hosts.len() {
        if is_engaged(&hosts[at]) {
            return Some(at);
        }
    }
    None
}

/// The first host other than the maker that holds a line which memory may lack.
pub(crate) fn dirty_host(hosts: &Vec<Host>, maker: usize) -> Option<usize>
    ensures is { result ≡ dirty_from maker 0 (shown_hosts hosts.now.items) }
    ensures within { IfSome result (λ at. at < vec_len hosts.now) }
{
    for at in 0..hosts.len() {
        if is_dirty_other(&hosts[at], at, maker) {
            return Some(at);
        }
    }
    None
}

/// Why no host of this name and UUID can be declared.
pub(crate) fn declared_before(hosts: &Vec<Host>, name: &HostName, uuid: &Uuid) -> Option<Refusal>
    requires few { vec_len hosts.now ≤ MOST_HOSTS }
    ensures first { (lines : ℕ) (journal : List Note)
        → result ≡ refusal_in (Declares name.now uuid.now) (record { hosts = views hosts.now.items; journal = journal }) lines }
    ensures plain { IfSome result IsPlain }
    ensures room { result ≡ None → vec_len hosts.now < MOST_HOSTS }
{
    if let Some(at) = same_host(hosts, name, uuid) {
        return Some(Refusal::SameHost(HostId(at as u32)));
    }
    if hosts.len() >= MOST_HOSTS {
        return Some(Refusal::TooManyHosts);
    }
    None
}

/// The host of this name, on which a mount or another command may begin, on an image of so many lines; or why not.
pub(crate) fn may_begin(
    hosts: &Vec<Host>,
    lines: u64,
    name: &HostName,
    mount: bool,
) -> Result<usize, Refusal>
    requires few { vec_len hosts.now ≤ MOST_HOSTS }
    ensures within { IfOk result (λ at. at < vec_len hosts.now) }
    ensures plain { IfErr result IsPlain }
    ensures placed { (cmd : Cmd) (journal : List Note) → is_mount cmd ≡ mount
        → IsPlaced (Begins name.now cmd) lines (record { hosts = views hosts.now.items; journal = journal }) result }
    ensures least { OnOk result (least_lines ≤ lines) }
{
    let Some(at) = number(hosts, name) else {
        return Err(Refusal::NoHost);
    };
    if lines < LEAST_LINES {
        return Err(Refusal::ImageSmall(lines));
    }
    let host = &hosts[at];
    if is_busy(host) {
        return Err(Refusal::Busy(HostId(at as u32)));
    }
    if mounts_again(host, mount) {
        return Err(Refusal::Mounted);
    }
    Ok(at)
}

/// The host of this name, where it runs no task and keeps something of the log; or why it can't forget that.
pub(crate) fn mounted(hosts: &Vec<Host>, name: &HostName) -> Result<usize, Refusal>
    requires few { vec_len hosts.now ≤ MOST_HOSTS }
    ensures within { IfOk result (λ at. at < vec_len hosts.now) }
    ensures plain { IfErr result IsPlain }
    ensures placed { (lines : ℕ) (journal : List Note)
        → IsPlaced (Umounts name.now) lines (record { hosts = views hosts.now.items; journal = journal }) result }
    ensures idle { IfOk result (λ at. (view : HostView) → slice_get (views hosts.now.items) at ≡ Some view
        → view.task ≡ None) }
{
    let Some(at) = number(hosts, name) else {
        return Err(Refusal::NoHost);
    };
    let host = &hosts[at];
    if is_busy(host) {
        return Err(Refusal::Busy(HostId(at as u32)));
    }
    if !keeps(host) {
        return Err(Refusal::NotMounted);
    }
    Ok(at)
}

/// How many of the log's entries the host of this name keeps, if it is declared and keeps anything.
pub(crate) fn entries_kept(hosts: &Vec<Host>, name: &HostName) -> Option<u64>
    ensures { (journal : List Note) → result
        ≡ count_named name.now (record { hosts = views hosts.now.items; journal = journal }) }
{
    match number(hosts, name) {
        Some(at) => kept_count(&hosts[at]),
        None => None,
    }
}

/// The host of this name, where it has a task; or why it does no operation.
pub(crate) fn running(hosts: &Vec<Host>, name: &HostName) -> Result<usize, Refusal>
    ensures within { IfOk result (λ at. at < vec_len hosts.now) }
    ensures plain { IfErr result IsPlain }
    ensures placed { (lines : ℕ) (journal : List Note)
        → IsPlaced (Steps name.now) lines (record { hosts = views hosts.now.items; journal = journal }) result }
    ensures runs { IfOk result (λ at. (view : HostView) → slice_get (views hosts.now.items) at ≡ Some view
        → is_some view.task ≡ true) }
{
    let Some(at) = number(hosts, name) else {
        return Err(Refusal::NoHost);
    };
    if !is_busy(&hosts[at]) {
        return Err(Refusal::Idle);
    }
    Ok(at)
}

/// The host of this name, or that there is none.
pub(crate) fn declared(hosts: &Vec<Host>, name: &HostName) -> Result<usize, Refusal>
    ensures within { IfOk result (λ at. at < vec_len hosts.now) }
    ensures plain { IfErr result IsPlain }
    ensures placed { (lines : ℕ) (journal : List Note)
        → IsPlaced (Halts name.now) lines (record { hosts = views hosts.now.items; journal = journal }) result }
{
    match number(hosts, name) {
        Some(at) => Ok(at),
        None => Err(Refusal::NoHost),
    }
}

/// The host of this name, whose cache may move this line, on an image of so many lines; or why not.
pub(crate) fn holder(
    hosts: &Vec<Host>,
    name: &HostName,
    line: LineNo,
    lines: u64,
) -> Result<usize, Refusal>
    ensures within { IfOk result (λ at. at < vec_len hosts.now) }
    ensures plain { IfErr result IsPlain }
    ensures placed { (move : Move) (journal : List Note)
        → IsPlaced (Moves name.now line.0 move) lines (record { hosts = views hosts.now.items; journal = journal }) result }
    ensures inside { OnOk result (line.0 < lines) }
{
    let Some(at) = number(hosts, name) else {
        return Err(Refusal::NoHost);
    };
    if line.0 >= lines {
        return Err(Refusal::NoLine {
            line: line.0,
            lines,
        });
    }
    Ok(at)
}
