//! The world of hosts with a mailbox: its calls that take no media. The others stand in the files of `world/`.

ghost use Rattle.std.specs.Prelude.{◌≡◌, ◌≤◌, [], IsErrOf};
ghost use Rattle.fam_rules.specs.Place.{IsProperEntry};
ghost use Rattle.fam_mail.specs.Boxes.{capacity_of};
ghost use Rattle.fam_mail.specs.Calls.{MailBegins, MailDeclares, MailHalts, IfMailAnswered, MailStops};

mod events;
mod moves;
mod steps;

use crate::ask::Ask;
use crate::hosts::{
    Host, add_host, begin_task, declared, declared_before, end_task, host_room, lose, may_begin,
    running,
};
use crate::note::{MailFault, MailNote};
use crate::notes::{add, make_room, refused};
use fam_base::{Entry, HostName};
use fam_cache::HostCache;
use fam_format::LINE_BYTES;
use std::alloc::Global;
use std::marker::Model;

/// Hosts over one memory, each with its cache and at most one task on the box in a file, and the journal of what they do.
#[derive(Drop)]
pub struct MailWorld {
    alloc: Global,
    entry: Entry,
    hosts: Vec<Host>,
    journal: Vec<MailNote>,
}

impl Model for MailWorld {
    ghost use Rattle.std.specs.Coded.{codes};
    ghost use Rattle.fam_base.specs.contracts.entry.Entry as entry_type;
    ghost use Rattle.fam_machine.specs.Caches.{cache_code};
    ghost use Rattle.fam_mail.specs.World.{MailView};

    ghost Value = { MailView };

    ghost coded = { Prim.hlevel (codes, cache_code, entry_type.the_row.coded) };

    ghost use Rattle.fam_mail.specs.World.{mail_view};

    ghost view = { λ w. mail_view w.entry w.hosts.items w.journal.items };

    ghost use Rattle.std.specs.Prelude.{◌≤◌};
    ghost use Rattle.fam_rules.specs.Place.{IsProperEntry};

    ghost invariant = { λ w. IsProperEntry w.entry × (128 ≤ w.entry.size) };
}

/// How many records the file of an entry has room for.
fn capacity(entry: &Entry) -> u64
    ensures { result ≡ capacity_of entry.now.size }
{
    (entry.size / LINE_BYTES).saturating_sub(1)
}

impl MailWorld {
    /// The box in the file of an entry, of at least 128 bytes, before any host is declared.
    pub fn new(alloc: Global, entry: &Entry) -> MailWorld
        requires file { IsProperEntry entry.now }
        requires room { 128 ≤ entry.now.size }
        ensures entry { result.entry ≡ entry.now }
        ensures hosts { result.hosts ≡ [] }
        ensures journal { result.journal ≡ [] }
    {
        MailWorld {
            alloc,
            entry: *entry,
            hosts: Vec::new(alloc),
            journal: Vec::new(alloc),
        }
    }

    /// The notes so far.
    pub fn journal(&self) -> &[MailNote]
        ensures { result.now ≡ self.now.journal }
    {
        self.journal.as_slice()
    }

    /// Declares a host of this name, with an empty cache and no task, and says whether it may post. The first of these
    /// refuses it: `SameHost`, where a host has the name; `TooManyHosts`, where 64 are declared; `SecondWriter`, which names
    /// the one that may post.
    pub fn host(&mut self, name: &HostName, writer: bool) -> Result<(), MailFault>
        ensures answered { IfMailAnswered result (λ answered. MailDeclares name.now writer answered self.old self.new) }
        ensures err { IsErrOf result MailFault.OutOfMemory → self.new ≡ self.old }
    {
        if make_room(&mut self.journal).is_err() || host_room(&mut self.hosts).is_err() {
            return Err(MailFault::OutOfMemory);
        }
        if let Some(cause) = declared_before(&self.hosts, name, writer) {
            return Err(refused(&mut self.journal, name, cause));
        }
        add_host(
            &mut self.hosts,
            Host {
                name: *name,
                writer,
                cache: HostCache::new(self.alloc),
                task: None,
            },
        );
        let note = if writer {
            MailNote::Writer(*name)
        } else {
            MailNote::Reader(*name)
        };
        add(&mut self.journal, note);
        Ok(())
    }

    /// Begins a post or a take on a host. The first of these refuses it: `NoHost`; `Busy`, where the host has a task;
    /// `NotWriter`, where a reader is to post.
    pub fn begin(&mut self, name: &HostName, ask: &Ask) -> Result<(), MailFault>
        ensures answered { IfMailAnswered result (λ answered. MailBegins name.now ask.now answered self.old self.new) }
        ensures err { IsErrOf result MailFault.OutOfMemory → self.new ≡ self.old }
    {
        if make_room(&mut self.journal).is_err() {
            return Err(MailFault::OutOfMemory);
        }
        match may_begin(&self.hosts, name, ask) {
            Ok(at) => {
                let room = capacity(&self.entry);
                begin_task(self.alloc, &mut self.hosts, at, *ask, room);
                add(&mut self.journal, MailNote::Start(*name, *ask));
                Ok(())
            }
            Err(cause) => Err(refused(&mut self.journal, name, cause)),
        }
    }

    /// Ends a host's task; its cache stays. `NoHost`, or else `Idle` where it has none.
    pub fn stop(&mut self, name: &HostName) -> Result<(), MailFault>
        ensures answered { IfMailAnswered result (λ answered. MailStops name.now answered self.old self.new) }
        ensures err { IsErrOf result MailFault.OutOfMemory → self.new ≡ self.old }
    {
        if make_room(&mut self.journal).is_err() {
            return Err(MailFault::OutOfMemory);
        }
        match running(&self.hosts, name) {
            Ok(at) => {
                end_task(&mut self.hosts, at);
                add(&mut self.journal, MailNote::Stop(*name));
                Ok(())
            }
            Err(cause) => Err(refused(&mut self.journal, name, cause)),
        }
    }

    /// Ends a host's task, if it has one, and loses its cache: no line is sent. `NoHost` alone is refused.
    pub fn halt(&mut self, name: &HostName) -> Result<(), MailFault>
        ensures answered { IfMailAnswered result (λ answered. MailHalts name.now answered self.old self.new) }
        ensures err { IsErrOf result MailFault.OutOfMemory → self.new ≡ self.old }
    {
        if make_room(&mut self.journal).is_err() {
            return Err(MailFault::OutOfMemory);
        }
        match declared(&self.hosts, name) {
            Ok(at) => {
                lose(&mut self.hosts, at);
                add(&mut self.journal, MailNote::Halt(*name));
                Ok(())
            }
            Err(cause) => Err(refused(&mut self.journal, name, cause)),
        }
    }
}
