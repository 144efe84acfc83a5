//! The notes of a mailbox's journal, and why a call is refused.

use crate::ask::Ask;
use crate::record::Records;
use fam_base::{HostName, LineNo};

/// A note of the journal, of the host of this name.
#[derive(Drop)]
pub enum MailNote {
    /// A host is declared that may post and take.
    Writer(HostName),
    /// A host is declared that may take.
    Reader(HostName),
    /// A task begins.
    Start(HostName, Ask),
    /// The gate's line was dropped: every record that was answered by now will be read.
    Mark(HostName),
    /// A post has found so many records.
    Found(HostName, u64),
    /// The record of this number is posted.
    Posted(HostName, u64),
    /// The box has room for so many records, and holds them.
    Full(HostName, u64),
    /// So many records, and which.
    Taken(HostName, u64, Records),
    /// The gate counts more records than the box has room for.
    BadBox {
        name: HostName,
        gate: u64,
        capacity: u64,
    },
    /// Record `i` is none: this is the first of its line's words that makes it none.
    BadRecord {
        name: HostName,
        i: u64,
        word: u64,
    },
    /// A task is dropped.
    Stop(HostName),
    /// A host's task and its cache are lost.
    Halt(HostName),
    /// The media failed at this line, and the task is gone.
    MediaFault(HostName, LineNo),
    /// A call is refused.
    Refused(HostName, MailRefusal),
}

/// Why a call is refused.
#[derive(Clone, Copy)]
pub enum MailRefusal {
    /// No host has the name.
    NoHost,
    /// The host of this name is declared already.
    SameHost(HostName),
    /// There are 64 hosts.
    TooManyHosts,
    /// The host of this name is the writer.
    SecondWriter(HostName),
    /// The host has a task.
    Busy,
    /// A reader is to post.
    NotWriter,
    /// The host has no task.
    Idle,
    /// The file has so many lines, and none of this number.
    NoLine { line: u64, lines: u64 },
    /// The media failed at this line of the image.
    MediaFault(LineNo),
}

/// Why a call did nothing.
#[derive(Clone, Copy)]
pub enum MailFault {
    /// The call is refused, and the journal says so.
    Refused(MailRefusal),
    /// No memory was left. But for `finish` nothing was done.
    OutOfMemory,
}
