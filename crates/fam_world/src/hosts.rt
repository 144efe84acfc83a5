//! Hosts of a world, and what is changed of one.

ghost use Rattle.std.specs.Prelude.{◌≡◌, ◌<◌, ◌≤◌, None, Some, slice_get, vec_len};
ghost use Rattle.std.specs.FinMap as map;
ghost use Rattle.fam_journal.specs.Members.{changed_at};
ghost use Rattle.fam_commands.specs.Task.{mounted};
ghost use Rattle.fam_format.specs.Layout.{least_lines};
ghost use Rattle.fam_base.specs.Commands.{IsSoundCmd};
ghost use Rattle.fam_tasks.specs.Sound.{most_lines};
ghost use Rattle.fam_journal.specs.View.{HostView};
ghost use Rattle.fam_world.specs.View.{host_view, kept_in, views};

use fam_base::{Cmd, HostName};
use fam_cache::HostCache;
use fam_tasks::{Kept, Replica, Task};
use std::alloc::Global;
use std::mem::replace;
use uuid::Uuid;

/// The most hosts of a world.
pub(crate) const MOST_HOSTS: usize = 64;

/// A host: its name, its UUID, its cache, the task that it runs, if any, and what it keeps of the log.
#[derive(Drop)]
pub(crate) struct Host {
    pub(crate) name: HostName,
    pub(crate) uuid: Uuid,
    pub(crate) cache: HostCache,
    pub(crate) task: Option<Task>,
    /// What it keeps of the log. While it runs a task that has it.
    pub(crate) kept: Option<Kept>,
    /// What its last command found of the log, for the next one, where it keeps nothing. No answer hangs on it.
    pub(crate) replica: Option<Replica>,
    /// Whether it has begun a command: from the second one on they keep what they read.
    pub(crate) has_begun: bool,
}

/// Lets a value go. Of a large type that is taken apart in one place, and not at each exit that has one.
pub(crate) fn let_go<T: Drop>(_value: T) {}

/// Ends a task, if there is one, and takes what its host keeps behind it.
pub(crate) fn retire(
    task: &mut Option<Task>,
    kept: &mut Option<Kept>,
    replica: &mut Option<Replica>,
)
    ensures task { task.new ≡ None }
    ensures kept { kept.new ≡ kept_in task.old kept.old }
{
    if let Some(over) = task {
        let (left, found) = over.take_parts();
        let_go(replace(kept, left));
        let_go(replace(replica, found));
    }
    let_go(task.take());
}

/// A command before its first operation, on a host that keeps this, and an image of so many lines.
fn task_on(alloc: Global, cmd: Cmd, me: Uuid, lines: u64, kept: Option<Kept>) -> Task
    requires command { IsSoundCmd cmd }
    requires least { least_lines ≤ lines }
    requires most { lines ≤ most_lines }
    ensures { result ≡ mounted kept cmd me lines }
{
    match kept {
        Some(kept) => Task::mounted(alloc, cmd, me, lines, kept),
        None => Task::new(alloc, cmd, me, lines),
    }
}

/// From a host's second command on the task keeps what it reads.
fn remember(task: &mut Option<Task>, replica: &mut Option<Replica>, has_begun: &mut bool)
    ensures { task.new ≡ task.old }
{
    if *has_begun && let Some(task) = task {
        task.remember(replica.take());
    }
    *has_begun = true;
}

/// A host begins a command on an image of so many lines, with what it keeps. The task stands in the host from the start,
/// since it is large.
fn begin_on(alloc: Global, host: &mut Host, lines: u64, cmd: Cmd)
    requires command { IsSoundCmd cmd }
    requires least { least_lines ≤ lines }
    requires most { lines ≤ most_lines }
    ensures { host_view host.new ≡ record (host_view host.old) { task = Some (mounted (host_view host.old).kept cmd host.old.uuid lines) } }
{
    end_on(host);
    let task = task_on(alloc, cmd, host.uuid, lines, host.kept.take());
    let_go(replace(&mut host.task, Some(task)));
    remember(&mut host.task, &mut host.replica, &mut host.has_begun);
}

/// A host's task is over, if it has one.
fn end_on(host: &mut Host)
    ensures { host_view host.new ≡ record (host_view host.old) { task = None } }
{
    retire(&mut host.task, &mut host.kept, &mut host.replica);
}

/// A host that runs no task forgets what it keeps of the log.
fn forget_on(host: &mut Host)
    requires { host.old.task ≡ None }
    ensures { host_view host.new ≡ record (host_view host.old) { kept = None } }
{
    host.kept = None;
}

/// A host's task is over, if it has one, and its cache and what it keeps are lost.
fn lose_on(host: &mut Host)
    ensures { host_view host.new ≡ record (host_view host.old) { cache = map.empty; task = None; kept = None } }
{
    end_on(host);
    forget_on(host);
    host.cache.lose();
}

/// Begins a command on a host, on an image of so many lines.
pub(crate) fn begin_task(alloc: Global, hosts: &mut Vec<Host>, at: usize, lines: u64, cmd: Cmd)
    requires within { at < vec_len hosts.old }
    requires command { IsSoundCmd cmd }
    requires least { least_lines ≤ lines }
    requires most { lines ≤ most_lines }
    ensures views { views hosts.new.items
        ≡ changed_at at (λ v. record v { task = Some (mounted v.kept cmd v.uuid lines) }) (views hosts.old.items) }
    ensures len { vec_len hosts.new ≡ vec_len hosts.old }
{
    begin_on(alloc, &mut hosts[at], lines, cmd);
}

/// Ends a host's task. Its cache stays, and what it keeps.
pub(crate) fn end_task(hosts: &mut Vec<Host>, at: usize)
    requires within { at < vec_len hosts.old }
    ensures views { views hosts.new.items ≡ changed_at at (λ v. record v { task = None }) (views hosts.old.items) }
    ensures len { vec_len hosts.new ≡ vec_len hosts.old }
{
    end_on(&mut hosts[at]);
}

/// Ends a host's task and loses its cache, and what it keeps: what memory lacks is lost.
pub(crate) fn lose(hosts: &mut Vec<Host>, at: usize)
    requires within { at < vec_len hosts.old }
    ensures views { views hosts.new.items
        ≡ changed_at at (λ v. record v { cache = map.empty; task = None; kept = None }) (views hosts.old.items) }
    ensures len { vec_len hosts.new ≡ vec_len hosts.old }
{
    lose_on(&mut hosts[at]);
}

/// A host forgets what it keeps of the log. It runs no task.
pub(crate) fn forget(hosts: &mut Vec<Host>, at: usize)
    requires within { at < vec_len hosts.old }
    requires idle { (view : HostView) → slice_get (views hosts.old.items) at ≡ Some view → view.task ≡ None }
    ensures views { views hosts.new.items ≡ changed_at at (λ v. record v { kept = None }) (views hosts.old.items) }
    ensures len { vec_len hosts.new ≡ vec_len hosts.old }
{
    forget_on(&mut hosts[at]);
}
