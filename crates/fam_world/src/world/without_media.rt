//! Calls that take no media: what they make of a world is told by the world alone.

ghost use Rattle.std.specs.Prelude.{◌≡◌, ◌+◌, ◌<◌, ◌≤◌, ◌++◌, ◌∷◌, [], ℕ, IsErrOf, IfOk, None, OnErr, OnOk, vec_capacity, vec_len};
ghost use Rattle.fam_base.specs.declared.cmd.Cmd.{Cmd};
ghost use Rattle.fam_journal.specs.ByWorld.{refusal_in};
ghost use Rattle.fam_journal.specs.Calls.{Begins, Declares, Halts, Refuses, Stops, Umounts};
ghost use Rattle.fam_journal.specs.CallRecords.{WorldCall};
ghost use Rattle.fam_base.specs.Commands.{IsSoundCmd};
ghost use Rattle.fam_notes.specs.Commands.{command_of};
ghost use Rattle.fam_tasks.specs.Sound.{most_lines};
ghost use Rattle.fam_world.specs.Answers.{IfAnswered, refusal_given};
ghost use Rattle.fam_commands.specs.Classes.{is_mount};
ghost use Rattle.fam_world.specs.View.{count_named, host_view, views};

use super::World;
use crate::fault::WorldFault;
use crate::find::{declared, declared_before, entries_kept, is_mount, may_begin, mounted, running};
use crate::hosts::{Host, begin_task, end_task, forget, let_go, lose};
use crate::notes::{add, make_room, refused};
use fam_base::{Cmd, HostName, OutOfMemory};
use fam_cache::HostCache;
use fam_journal::{HostId, Refusal};
use fam_notes::{Note, NotedCommand};
use std::alloc::Global;
use uuid::Uuid;

/// Makes room for one more host.
fn host_room(hosts: &mut Vec<Host>) -> Result<(), OutOfMemory>
    ensures room { OnOk result (vec_len hosts.new < vec_capacity hosts.new) }
    ensures same { hosts.new.items ≡ hosts.old.items }
    ensures len { vec_len hosts.new ≡ vec_len hosts.old }
{
    match hosts.reserve(1) {
        Ok(()) => Ok(()),
        Err(_) => Err(OutOfMemory),
    }
}

/// Adds a host, for which there is room.
fn add_host(hosts: &mut Vec<Host>, host: Host)
    requires room { vec_len hosts.old < vec_capacity hosts.old }
    ensures views { views hosts.new.items ≡ views hosts.old.items ++ host_view host ∷ [] }
    ensures len { vec_len hosts.new ≡ vec_len hosts.old + 1 }
{
    let_go(hosts.push(host));
}

/// A command twice: one for the journal, and one for the task.
fn two_copies(alloc: Global, cmd: &Cmd) -> Result<(NotedCommand, Cmd), OutOfMemory>
    ensures noted { IfOk result (λ copies. command_of copies.0 ≡ cmd.now) }
    ensures own { IfOk result (λ copies. copies.1 ≡ cmd.now) }
{
    let noted = NotedCommand::of(alloc, cmd)?;
    let own = cmd.copy()?;
    Ok((noted, own))
}

impl World {
    /// Declares a host of this name and UUID, with an empty cache and no task. `SameHost` names the first earlier host
    /// that has the name or the UUID; `TooManyHosts` comes where 64 are declared.
    pub fn host(&mut self, name: &HostName, uuid: Uuid) -> Result<(), WorldFault>
        ensures answered { (lines : ℕ) → IfAnswered result (λ answered.
            WorldCall (Declares name.now uuid) lines answered self.old self.new) }
        ensures err { IsErrOf result WorldFault.OutOfMemory → self.new ≡ self.old }
    {
        if make_room(&mut self.journal).is_err() || host_room(&mut self.hosts).is_err() {
            return Err(WorldFault::OutOfMemory);
        }
        if let Some(cause) = declared_before(&self.hosts, name, &uuid) {
            return Err(refused(&mut self.journal, name, cause));
        }
        add_host(
            &mut self.hosts,
            Host {
                name: *name,
                uuid,
                cache: HostCache::new(self.alloc),
                task: None,
                kept: None,
                replica: None,
                has_begun: false,
            },
        );
        add(&mut self.journal, Note::Host { name: *name, uuid });
        Ok(())
    }

    /// Whether a mount, or another command, may begin on a host, on an image of so many lines. `NoHost`, or else
    /// `ImageSmall` where these are fewer than 32,770, or else `Busy` where the host has a task, or else `Mounted` where
    /// a mount is to begin and the host keeps something of the log. Nothing is noted.
    pub fn may_begin(&self, lines: u64, name: &HostName, mount: bool) -> Result<(), Refusal>
        ensures first { (cmd : Cmd) → is_mount cmd ≡ mount
            → refusal_given result ≡ refusal_in (Begins name.now cmd) self.now lines }
    {
        match may_begin(&self.hosts, lines, name, mount) {
            Ok(_) => Ok(()),
            Err(cause) => Err(cause),
        }
    }

    /// How many of the log's entries a host keeps; None where it isn't declared or keeps nothing.
    pub fn mounted(&self, name: &HostName) -> Option<u64>
        ensures { result ≡ count_named name.now self.now }
    {
        entries_kept(&self.hosts, name)
    }

    /// Begins a command on a host, on an image of so many lines, with what the host keeps of the log. It is refused as
    /// `may_begin` says. That the command is one as the laws of journals ask of a begin, `is_command` says.
    pub fn begin(&mut self, lines: u64, name: &HostName, cmd: &Cmd) -> Result<(), WorldFault>
        requires command { IsSoundCmd cmd.now }
        requires most { lines ≤ most_lines }

        ensures answered { IfAnswered result (λ answered.
            WorldCall (Begins name.now cmd.now) lines answered self.old self.new) }
        ensures err { IsErrOf result WorldFault.OutOfMemory → self.new ≡ self.old }
    {
        if make_room(&mut self.journal).is_err() {
            return Err(WorldFault::OutOfMemory);
        }
        let at = match may_begin(&self.hosts, lines, name, is_mount(cmd)) {
            Ok(at) => at,
            Err(cause) => return Err(refused(&mut self.journal, name, cause)),
        };
        let Ok((noted, own)) = two_copies(self.alloc, cmd) else {
            return Err(WorldFault::OutOfMemory);
        };
        begin_task(self.alloc, &mut self.hosts, at, lines, own);
        add(
            &mut self.journal,
            Note::Start {
                host: HostId(at as u32),
                cmd: noted,
            },
        );
        Ok(())
    }

    /// Ends a host's task; its cache stays, and what the host keeps of the log. `NoHost`, or else `Idle` where it has none.
    pub fn stop(&mut self, name: &HostName) -> Result<(), WorldFault>
        ensures answered { (lines : ℕ) → IfAnswered result (λ answered.
            WorldCall (Stops name.now) lines answered self.old self.new) }
        ensures err { IsErrOf result WorldFault.OutOfMemory → self.new ≡ self.old }
    {
        if make_room(&mut self.journal).is_err() {
            return Err(WorldFault::OutOfMemory);
        }
        match running(&self.hosts, name) {
            Ok(at) => {
                end_task(&mut self.hosts, at);
                add(
                    &mut self.journal,
                    Note::Stop {
                        host: HostId(at as u32),
                    },
                );
                Ok(())
            }
            Err(cause) => Err(refused(&mut self.journal, name, cause)),
        }
    }

    /// Ends a host's task, if it has one, and loses its cache, and what the host keeps of the log: no line is sent.
    /// `NoHost` alone is refused.
    pub fn halt(&mut self, name: &HostName) -> Result<(), WorldFault>
        ensures answered { (lines : ℕ) → IfAnswered result (λ answered.
            WorldCall (Halts name.now) lines answered self.old self.new) }
        ensures err { IsErrOf result WorldFault.OutOfMemory → self.new ≡ self.old }
    {
        if make_room(&mut self.journal).is_err() {
            return Err(WorldFault::OutOfMemory);
        }
        match declared(&self.hosts, name) {
            Ok(at) => {
                lose(&mut self.hosts, at);
                add(
                    &mut self.journal,
                    Note::Halt {
                        host: HostId(at as u32),
                    },
                );
                Ok(())
            }
            Err(cause) => Err(refused(&mut self.journal, name, cause)),
        }
    }

    /// A host forgets what it keeps of the log. `NoHost`, or else `Busy` where it has a task, or else `NotMounted` where
    /// it keeps nothing.
    pub fn umount(&mut self, name: &HostName) -> Result<(), WorldFault>
        ensures answered { (lines : ℕ) → IfAnswered result (λ answered.
            WorldCall (Umounts name.now) lines answered self.old self.new) }
        ensures err { IsErrOf result WorldFault.OutOfMemory → self.new ≡ self.old }
    {
        if make_room(&mut self.journal).is_err() {
            return Err(WorldFault::OutOfMemory);
        }
        match mounted(&self.hosts, name) {
            Ok(at) => {
                forget(&mut self.hosts, at);
                add(
                    &mut self.journal,
                    Note::Umount {
                        host: HostId(at as u32),
                    },
                );
                Ok(())
            }
            Err(cause) => Err(refused(&mut self.journal, name, cause)),
        }
    }

    /// Notes that a call for this host is refused: for what comes of a source, or because `may_begin` said so.
    pub fn refuse(&mut self, name: &HostName, cause: Refusal) -> Result<(), OutOfMemory>
        ensures answered { (lines : ℕ) → IfOk result (λ done.
            WorldCall (Refuses name.now cause) lines None self.old self.new) }
        ensures err { OnErr result (self.new ≡ self.old) }
    {
        make_room(&mut self.journal)?;
        add(&mut self.journal, Note::Refused { name: *name, cause });
        Ok(())
    }
}
