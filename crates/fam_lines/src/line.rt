//! A line of a history whose hosts are numbers. `specs/Lines.antt` says which note each is.

use crate::answer::HostAnswer;
use fam_base::{Entry, HostName, Params};
use fam_history::ToldCommand;
use fam_journal::Refusal;
use uuid::Uuid;

/// A line with what follows it. A host is named by its number, from 0, in the order of the lines that declare hosts.
#[derive(Drop)]
pub enum Line {
    /// A host is declared.
    Host(HostName, Uuid),
    /// It made a file system.
    Made(usize, Params),
    /// It halted in making one, after so many operations.
    Cut(usize, u64),
    /// It begins a command.
    Start(usize, ToldCommand),
    /// Its task dropped the gate's line.
    Mark(usize),
    /// It has found so many entries.
    Found(usize, u64),
    /// It goes on to append this entry.
    Writes { host: usize, seq: u64, entry: Entry },
    /// It was answered.
    Answered(usize, HostAnswer),
    Stop(usize),
    Halt(usize),
    Umount(usize),
    /// A call for the host of this name was refused.
    Refused(HostName, Refusal),
}
