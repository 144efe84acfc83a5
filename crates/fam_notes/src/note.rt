//! Notes. `specs/Notes.antt` says which note of a journal each one is.

use crate::noted_command::NotedCommand;
use fam_base::{Boxed, Entry, HostName, Params};
use fam_journal::{HostId, Refusal};
use fam_tasks::Answer;
use uuid::Uuid;

/// A note of a journal. A host is named by its number, in the order in which hosts are declared.
#[derive(Drop)]
pub enum Note {
    /// A host is declared.
    Host {
        name: HostName,
        uuid: Uuid,
    },
    /// A host made a file system.
    Made {
        host: HostId,
        params: Params,
    },
    /// A host halted in making a file system, after so many of its operations, and its cache was lost: after 80 where the
    /// number is greater, and never before the 27 that read.
    Cut {
        host: HostId,
        k: u64,
    },
    /// A host begins a command.
    Start {
        host: HostId,
        cmd: NotedCommand,
    },
    /// Its task dropped the gate's line: all that was settled by now will be read.
    Mark {
        host: HostId,
    },
    /// A command that appends has found so many entries.
    Found {
        host: HostId,
        n: u64,
    },
    /// It goes on to append this entry under this number.
    Writes {
        host: HostId,
        seq: u64,
        entry: Boxed<Entry>,
    },
    /// The task is done.
    Answered {
        host: HostId,
        answer: Answer,
    },
    /// Its task ended; the cache stays.
    Stop {
        host: HostId,
    },
    /// Its task ended, and its cache was lost.
    Halt {
        host: HostId,
    },
    /// It forgot what it kept of the log.
    Umount {
        host: HostId,
    },
    /// A call for the host of this name was refused.
    Refused {
        name: HostName,
        cause: Refusal,
    },
}
