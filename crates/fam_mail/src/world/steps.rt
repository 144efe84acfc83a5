//! Calls that do operations of a host's task.

ghost use Rattle.std.specs.Prelude.{◌≡◌, ◌+◌, ◌*◌, ◌<◌, ◌≤◌, ◌++◌, IfOk, IsErrOf, OnErr, is_some, ℕ, true, vec_capacity, vec_len};
ghost use Rattle.fam_media.specs.Causes.{IsSteady};
ghost use Rattle.fam_media.specs.States.{change};
ghost use Rattle.fam_rules.specs.Place.{IsProperEntry, line_bytes};
ghost use Rattle.fam_rules.specs.Written.{file_line};
ghost use Rattle.fam_mail.specs.Boxes.{capacity_of};
ghost use Rattle.std.specs.Prelude.{OnOk, false};
ghost use Rattle.fam_mail.specs.Calls.{CountEnds, FinishEnds, HostCounts, HostFinishes, HostNotes, HostStays, HostStepped, MailHostFits, IfMailStepped, MailSteps, MailWorldFits, left_in, notes_of_turn};
ghost use Rattle.fam_mail.specs.Happens.{IsCountedIn};
ghost use Rattle.fam_mail.specs.Tasks.{ends_mail_task};
ghost use Rattle.fam_mail.specs.World.{mail_host};

use super::MailWorld;
use crate::hosts::{Host, running};
use crate::note::{MailFault, MailNote};
use crate::notes::{add, or_fault, refused, two_rooms};
use crate::run::operate;
use crate::turn::Turn;
use fam_base::{Entry, HostName, OutOfMemory};
use fam_cache::OperationFault;
use fam_media::Media;

/// Notes a turn of a host's task, for which there is room, and says whether the task is over.
fn note_turn(journal: &mut Vec<MailNote>, name: &HostName, turn: Turn) -> bool
    requires room { vec_len journal.old + 2 ≤ vec_capacity journal.old }
    ensures noted { journal.new.items ≡ journal.old.items ++ notes_of_turn name.now turn }
    ensures over { result ≡ ends_mail_task turn }
{
    match turn {
        Turn::Go => false,
        Turn::Mark => {
            add(journal, MailNote::Mark(*name));
            false
        }
        Turn::Found(n) => {
            add(journal, MailNote::Found(*name, n));
            false
        }
        Turn::Posted(n) => {
            add(journal, MailNote::Posted(*name, n));
            true
        }
        Turn::Full(n) => {
            add(journal, MailNote::Found(*name, n));
            add(journal, MailNote::Full(*name, n));
            true
        }
        Turn::Taken(records) => {
            let count = records.as_slice().len() as u64;
            add(journal, MailNote::Taken(*name, count, records));
            true
        }
        Turn::BadBox { gate, capacity } => {
            let name = *name;
            add(
                journal,
                MailNote::BadBox {
                    name,
                    gate,
                    capacity,
                },
            );
            true
        }
        Turn::BadRecord { i, word } => {
            let name = *name;
            add(journal, MailNote::BadRecord { name, i, word });
            true
        }
    }
}

/// Does one operation of the task that a host runs, which there is, and notes what comes of it. Behind its answer the host
/// has no task. Where no memory was left nothing was done.
fn step_of<M: Media>(
    host: &mut Host,
    journal: &mut Vec<MailNote>,
    media: &mut M,
    entry: &Entry,
    name: &HostName,
) -> Result<bool, OutOfMemory>
    requires runs { is_some host.old.task ≡ true }
    requires file { IsProperEntry entry.now }
    requires room { line_bytes * capacity_of entry.now.size < entry.now.size }
    requires within { (j : ℕ) → j ≤ capacity_of entry.now.size → file_line entry.now j < M.size media.old }
    requires fits { MailHostFits (M.size media.old) (capacity_of entry.now.size) (mail_host host.old) }
    requires notes { vec_len journal.old + 2 ≤ vec_capacity journal.old }

    ensures stepped { IfOk result (λ over. HostStepped entry.now name.now (mail_host host.old) (change M.state media.old media.new)
        over (mail_host host.new) journal.old.items journal.new.items) }
    ensures falls { IfOk result (λ over. over ≡ false → left_in (mail_host host.new) < left_in (mail_host host.old)) }
    ensures on { IfOk result (λ over. over ≡ false → is_some host.new.task ≡ true) }
    ensures fits { MailHostFits (M.size media.new) (capacity_of entry.now.size) (mail_host host.new) }
    ensures undone { OnErr result (media.new ≡ media.old) }
    ensures kept { OnErr result (mail_host host.new ≡ mail_host host.old) }
    ensures quiet { OnErr result (journal.new.items ≡ journal.old.items) }
    ensures steady { IsSteady M.size M.state media.old media.new }
    ensures counted { M.exact ≡ true → IsCountedIn journal.old.items journal.new.items (M.state media.old).faults (M.state media.new).faults }
{
    let Some(task) = &mut host.task else {
        unreachable!();
    };
    match operate(&mut host.cache, task, media, entry) {
        Ok(turn) => {
            let over = note_turn(journal, name, turn);
            if over {
                host.task = None;
            }
            Ok(over)
        }
        Err(OperationFault::MediaFault(line)) => {
            add(journal, MailNote::MediaFault(*name, line));
            host.task = None;
            Ok(true)
        }
        Err(OperationFault::OutOfMemory) => Err(OutOfMemory),
    }
}

/// Does operations of the task that a host runs, which there is, up to the one with which it ends, and notes what comes of
/// them. Where no memory was left those before stand.
fn finish_of<M: Media>(
    host: &mut Host,
    journal: &mut Vec<MailNote>,
    media: &mut M,
    entry: &Entry,
    name: &HostName,
) -> Result<(), OutOfMemory>
    requires runs { is_some host.old.task ≡ true }
    requires file { IsProperEntry entry.now }
    requires room { line_bytes * capacity_of entry.now.size < entry.now.size }
    requires within { (j : ℕ) → j ≤ capacity_of entry.now.size → file_line entry.now j < M.size media.old }
    requires fits { MailHostFits (M.size media.old) (capacity_of entry.now.size) (mail_host host.old) }

    ensures finished { OnOk result (HostNotes (HostFinishes (M.size media.old) entry.now name.now (mail_host host.old)
        (change M.state media.old media.new) (mail_host host.new)) journal.old.items journal.new.items) }
    ensures stays { OnErr result (HostNotes (HostStays (M.size media.old) entry.now name.now (mail_host host.old)
        (change M.state media.old media.new) (mail_host host.new)) journal.old.items journal.new.items) }
    ensures fits { MailHostFits (M.size media.new) (capacity_of entry.now.size) (mail_host host.new) }
    ensures steady { IsSteady M.size M.state media.old media.new }
    ensures counted { M.exact ≡ true → IsCountedIn journal.old.items journal.new.items (M.state media.old).faults (M.state media.new).faults }
{
    'operations: loop {
        if two_rooms(journal).is_err() {
            return Err(OutOfMemory);
        }
        match step_of(host, journal, media, entry, name) {
            Ok(true) => return Ok(()),
            Ok(false) => {}
            Err(_) => return Err(OutOfMemory),
        }
    }
}

/// Does `count` operations of the task that a host runs, which there is, or fewer where one of them ends it, and notes what
/// comes of them: true where the task is over. Where no memory was left those before stand.
fn steps_of<M: Media>(
    host: &mut Host,
    journal: &mut Vec<MailNote>,
    media: &mut M,
    entry: &Entry,
    name: &HostName,
    count: u64,
) -> Result<bool, OutOfMemory>
    requires runs { is_some host.old.task ≡ true }
    requires file { IsProperEntry entry.now }
    requires room { line_bytes * capacity_of entry.now.size < entry.now.size }
    requires within { (j : ℕ) → j ≤ capacity_of entry.now.size → file_line entry.now j < M.size media.old }
    requires fits { MailHostFits (M.size media.old) (capacity_of entry.now.size) (mail_host host.old) }

    ensures counts { HostCounts count (M.size media.old) entry.now name.now (mail_host host.old) (change M.state media.old media.new)
        (mail_host host.new) journal.old.items journal.new.items result }
    ensures fits { MailHostFits (M.size media.new) (capacity_of entry.now.size) (mail_host host.new) }
    ensures steady { IsSteady M.size M.state media.old media.new }
    ensures counted { M.exact ≡ true → IsCountedIn journal.old.items journal.new.items (M.state media.old).faults (M.state media.new).faults }
{
    for _done in 0..count {
        if two_rooms(journal).is_err() {
            return Err(OutOfMemory);
        }
        match step_of(host, journal, media, entry, name) {
            Ok(true) => return Ok(true),
            Ok(false) => {}
            Err(_) => return Err(OutOfMemory),
        }
    }
    Ok(false)
}

impl MailWorld {
    /// Does one operation of a host's task, on the host's cache and the one memory, and notes what comes of it: true where
    /// the task is over. `NoHost`, or else `Idle` where it has no task. Where the media fails the task is gone.
    ///
    /// On `OutOfMemory` nothing was done, and the step may be tried again.
    pub fn step<M: Media>(&mut self, media: &mut M, name: &HostName) -> Result<bool, MailFault>
        requires fits { MailWorldFits (M.size media.old) self.old }

        ensures answered { IfMailStepped result (λ answered over. MailSteps name.now (change M.state media.old media.new) answered over self.old self.new) }
        ensures fits { MailWorldFits (M.size media.new) self.new }
        ensures undone { IsErrOf result MailFault.OutOfMemory → media.new ≡ media.old }
        ensures err { IsErrOf result MailFault.OutOfMemory → self.new ≡ self.old }
        ensures steady { IsSteady M.size M.state media.old media.new }
        ensures counted { M.exact ≡ true → IsCountedIn self.old.journal self.new.journal (M.state media.old).faults (M.state media.new).faults }
    {
        if two_rooms(&mut self.journal).is_err() {
            return Err(MailFault::OutOfMemory);
        }
        let at = match running(&self.hosts, name) {
            Ok(at) => at,
            Err(cause) => return Err(refused(&mut self.journal, name, cause)),
        };
        or_fault(step_of(
            &mut self.hosts[at],
            &mut self.journal,
            media,
            &self.entry,
            name,
        ))
    }

    /// Does `count` operations of a host's task, or fewer where one of them ends it: true where the task is over. Refused as
    /// `step`.
    ///
    /// On `OutOfMemory` the operations before were done, and the task may be gone on with.
    pub fn steps<M: Media>(
        &mut self,
        media: &mut M,
        name: &HostName,
        count: u64,
    ) -> Result<bool, MailFault>
        requires fits { MailWorldFits (M.size media.old) self.old }

        ensures ends { CountEnds count (M.size media.old) name.now (change M.state media.old media.new) self.old self.new result }
        ensures fits { MailWorldFits (M.size media.new) self.new }
        ensures steady { IsSteady M.size M.state media.old media.new }
        ensures counted { M.exact ≡ true → IsCountedIn self.old.journal self.new.journal (M.state media.old).faults (M.state media.new).faults }
    {
        if two_rooms(&mut self.journal).is_err() {
            return Err(MailFault::OutOfMemory);
        }
        let at = match running(&self.hosts, name) {
            Ok(at) => at,
            Err(cause) => return Err(refused(&mut self.journal, name, cause)),
        };
        or_fault(steps_of(
            &mut self.hosts[at],
            &mut self.journal,
            media,
            &self.entry,
            name,
            count,
        ))
    }

    /// Does operations of a host's task up to the one with which it ends. Refused as `step`.
    ///
    /// On `OutOfMemory` the operations before were done, and the task may be gone on with.
    pub fn finish<M: Media>(&mut self, media: &mut M, name: &HostName) -> Result<(), MailFault>
        requires fits { MailWorldFits (M.size media.old) self.old }

        ensures ends { FinishEnds (M.size media.old) name.now (change M.state media.old media.new) self.old self.new result }
        ensures fits { MailWorldFits (M.size media.new) self.new }
        ensures steady { IsSteady M.size M.state media.old media.new }
        ensures counted { M.exact ≡ true → IsCountedIn self.old.journal self.new.journal (M.state media.old).faults (M.state media.new).faults }
    {
        if two_rooms(&mut self.journal).is_err() {
            return Err(MailFault::OutOfMemory);
        }
        let at = match running(&self.hosts, name) {
            Ok(at) => at,
            Err(cause) => return Err(refused(&mut self.journal, name, cause)),
        };
        or_fault(finish_of(
            &mut self.hosts[at],
            &mut self.journal,
            media,
            &self.entry,
            name,
        ))
    }
}
