//! A line as a history tells it. `specs/ToldNotes.antt` has what is told of each note.

use crate::answer::ToldAnswer;
use crate::command::ToldCommand;
use crate::refusal::ToldRefusal;
use fam_base::{Entry, HostName};
use uuid::Uuid;

/// A file system that was made, as its note tells it: without the number of slots, and without the master's UUID. Lengths
/// are in bytes.
#[derive(Clone, Copy)]
pub struct ToldParams {
    pub fs: Uuid,
    pub unit: u64,
    pub log_length: u64,
    pub device: u64,
    pub format: u64,
}

/// What a line tells behind its host's name.
#[derive(Drop)]
pub enum LineNote {
    /// The host of this UUID is declared.
    Host(Uuid),
    /// It made a file system.
    Made(ToldParams),
    /// It halted in making one, after so many operations.
    Cut(u64),
    /// It begins a command.
    Start(ToldCommand),
    /// Its task dropped the gate's line.
    Mark,
    /// It has found so many entries.
    Found(u64),
    /// It goes on to append this entry.
    Writes { seq: u64, entry: Entry },
    /// It was answered; the further lines of the answer follow.
    Answered(ToldAnswer),
    Stop,
    Halt,
    Umount,
    /// A call for it was refused.
    Refused(ToldRefusal),
}

/// A line: the name of a host, and what is told of it.
#[derive(Drop)]
pub struct ToldLine {
    pub name: HostName,
    pub note: LineNote,
}
