//! Hosts with a mailbox, whom a call is for, and why it is refused at once.

ghost use Rattle.std.specs.Prelude.{◌≡◌, ◌+◌, ◌<◌, ◌≤◌, ◌++◌, ◌∷◌, [], List, IfOk, IfSome, Some, None, OnOk, is_some, vec_capacity, vec_len};
ghost use Rattle.std.specs.FinMap as map;
ghost use Rattle.fam_mail.specs.Tasks.{most_records, new_task};
ghost use Rattle.fam_mail.specs.Calls.{IsHostPlaced, begin_refusal, declare_refusal, no_task_refusal, file_line_refusal, no_refusal};
ghost use Rattle.fam_mail.specs.declared.note.MailNote.{MailNote};
ghost use Rattle.fam_base.specs.declared.entry.Entry.{Entry};
ghost use Rattle.fam_mail.specs.World.{MailHost, changed_member, mail_host, member_place, is_named, is_writer, mail_view, mail_hosts};

use crate::ask::Ask;
use crate::note::MailRefusal;
use crate::task::Task;
use fam_base::{HostName, OutOfMemory};
use fam_cache::HostCache;
use std::alloc::Global;

/// The most hosts of a world.
pub(crate) const MOST_HOSTS: usize = 64;

/// A host: its name, whether it may post, its cache, and the task that it runs, if any.
#[derive(Drop)]
pub(crate) struct Host {
    pub(crate) name: HostName,
    pub(crate) writer: bool,
    pub(crate) cache: HostCache,
    pub(crate) task: Option<Task>,
}

/// Whether a host has this name.
fn is_named(host: &Host, name: &HostName) -> bool
    ensures { result ≡ is_named name.now (mail_host host.now) }
{
    host.name == *name
}

/// Whether a host may post.
fn is_writer(host: &Host) -> bool
    ensures { result ≡ is_writer (mail_host host.now) }
{
    host.writer
}

/// The host of this name.
pub(crate) fn number(hosts: &Vec<Host>, name: &HostName) -> Option<usize>
    ensures is { result ≡ member_place (is_named name.now) (mail_hosts hosts.now.items) }
    ensures within { IfSome result (λ at. at < vec_len hosts.now) }
{
    for at in 0..hosts.len() {
        if is_named(&hosts[at], name) {
            return Some(at);
        }
    }
    None
}

/// The host that may post.
pub(crate) fn writer(hosts: &Vec<Host>) -> Option<usize>
    ensures is { result ≡ member_place is_writer (mail_hosts hosts.now.items) }
    ensures within { IfSome result (λ at. at < vec_len hosts.now) }
{
    for at in 0..hosts.len() {
        if is_writer(&hosts[at]) {
            return Some(at);
        }
    }
    None
}

/// Why no host of this name can be declared.
pub(crate) fn declared_before(
    hosts: &Vec<Host>,
    name: &HostName,
    may_post: bool,
) -> Option<MailRefusal>
    ensures { (entry : Entry) (journal : List MailNote)
        → result ≡ declare_refusal name.now may_post (mail_view entry hosts.now.items journal) }
{
    if number(hosts, name).is_some() {
        return Some(MailRefusal::SameHost(*name));
    }
    if hosts.len() >= MOST_HOSTS {
        return Some(MailRefusal::TooManyHosts);
    }
    if !may_post {
        return None;
    }
    match writer(hosts) {
        Some(at) => Some(MailRefusal::SecondWriter(hosts[at].name)),
        None => None,
    }
}

/// Why a host can't begin a task.
fn begin_cause(host: &Host, ask: &Ask) -> Option<MailRefusal>
    ensures { result ≡ begin_refusal ask.now (mail_host host.now) }
{
    if host.task.is_some() {
        return Some(MailRefusal::Busy);
    }
    match ask {
        Ask::Post(_) if !host.writer => Some(MailRefusal::NotWriter),
        _ => None,
    }
}

/// Why a host does no operation.
fn idle_cause(host: &Host) -> Option<MailRefusal>
    ensures { result ≡ no_task_refusal (mail_host host.now) }
{
    if host.task.is_some() {
        None
    } else {
        Some(MailRefusal::Idle)
    }
}

/// The host of this name, on which a task may begin; or why not.
pub(crate) fn may_begin(hosts: &Vec<Host>, name: &HostName, ask: &Ask) -> Result<usize, MailRefusal>
    ensures within { IfOk result (λ at. at < vec_len hosts.now) }
    ensures placed { (entry : Entry) (journal : List MailNote)
        → IsHostPlaced name.now (begin_refusal ask.now) (mail_view entry hosts.now.items journal) result }
{
    let Some(at) = number(hosts, name) else {
        return Err(MailRefusal::NoHost);
    };
    match begin_cause(&hosts[at], ask) {
        Some(cause) => Err(cause),
        None => Ok(at),
    }
}

/// The host of this name, where it has a task; or why it does no operation.
pub(crate) fn running(hosts: &Vec<Host>, name: &HostName) -> Result<usize, MailRefusal>
    ensures within { IfOk result (λ at. at < vec_len hosts.now) }
    ensures placed { (entry : Entry) (journal : List MailNote)
        → IsHostPlaced name.now no_task_refusal (mail_view entry hosts.now.items journal) result }
{
    let Some(at) = number(hosts, name) else {
        return Err(MailRefusal::NoHost);
    };
    match idle_cause(&hosts[at]) {
        Some(cause) => Err(cause),
        None => Ok(at),
    }
}

/// The host of this name, or that there is none.
pub(crate) fn declared(hosts: &Vec<Host>, name: &HostName) -> Result<usize, MailRefusal>
    ensures within { IfOk result (λ at. at < vec_len hosts.now) }
    ensures placed { (entry : Entry) (journal : List MailNote)
        → IsHostPlaced name.now no_refusal (mail_view entry hosts.now.items journal) result }
{
    match number(hosts, name) {
        Some(at) => Ok(at),
        None => Err(MailRefusal::NoHost),
    }
}

/// Why a cache moves no line of this number, of a file with so many lines behind the first one.
fn line_cause(line: u64, capacity: u64) -> Option<MailRefusal>
    requires few { capacity < most_records }
    ensures cause { (host : MailHost) → result ≡ file_line_refusal line capacity host }
    ensures below { result ≡ None → line ≤ capacity }
{
    if line <= capacity {
        return None;
    }
    Some(MailRefusal::NoLine {
        line,
        lines: capacity + 1,
    })
}

/// The host of this name, whose cache may move this line of the file; or why not.
pub(crate) fn holder(
    hosts: &Vec<Host>,
    name: &HostName,
    line: u64,
    capacity: u64,
) -> Result<usize, MailRefusal>
    requires few { capacity < most_records }
    ensures within { IfOk result (λ at. at < vec_len hosts.now) }
    ensures placed { (entry : Entry) (journal : List MailNote)
        → IsHostPlaced name.now (file_line_refusal line capacity) (mail_view entry hosts.now.items journal) result }
    ensures below { OnOk result (line ≤ capacity) }
{
    let at = declared(hosts, name)?;
    match line_cause(line, capacity) {
        Some(cause) => Err(cause),
        None => Ok(at),
    }
}

/// Makes room for one more host.
pub(crate) fn host_room(hosts: &mut Vec<Host>) -> Result<(), OutOfMemory>
    ensures room { OnOk result (vec_len hosts.new < vec_capacity hosts.new) }
    ensures same { hosts.new.items ≡ hosts.old.items }
{
    match hosts.reserve(1) {
        Ok(()) => Ok(()),
        Err(_) => Err(OutOfMemory),
    }
}

/// Adds a host, for which there is room.
pub(crate) fn add_host(hosts: &mut Vec<Host>, host: Host)
    requires room { vec_len hosts.old < vec_capacity hosts.old }
    ensures views { mail_hosts hosts.new.items ≡ mail_hosts hosts.old.items ++ mail_host host ∷ [] }
{
    let _ = hosts.push(host);
}

/// Begins a task on a host.
pub(crate) fn begin_task(alloc: Global, hosts: &mut Vec<Host>, at: usize, ask: Ask, capacity: u64)
    requires within { at < vec_len hosts.old }
    requires few { capacity < most_records }
    ensures views { mail_hosts hosts.new.items
        ≡ changed_member at (λ v. record v { task = Some (new_task ask capacity) }) (mail_hosts hosts.old.items) }
{
    hosts[at].task = Some(Task::new(alloc, ask, capacity));
}

/// Ends a host's task. Its cache stays.
pub(crate) fn end_task(hosts: &mut Vec<Host>, at: usize)
    requires within { at < vec_len hosts.old }
    ensures views { mail_hosts hosts.new.items ≡ changed_member at (λ v. record v { task = None }) (mail_hosts hosts.old.items) }
{
    hosts[at].task = None;
}

/// Ends a host's task and loses its cache: what memory lacks is lost.
pub(crate) fn lose(hosts: &mut Vec<Host>, at: usize)
    requires within { at < vec_len hosts.old }
    ensures views { mail_hosts hosts.new.items
        ≡ changed_member at (λ v. record v { cache = map.empty; task = None }) (mail_hosts hosts.old.items) }
{
    let host = &mut hosts[at];
    host.task = None;
    host.cache.lose();
}
