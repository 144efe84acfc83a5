//! The events of a mailbox's script.

use crate::ask::Ask;
use fam_base::{HostName, Mask};

/// What happens next in a run. Lines are counted in the file, from 0.
#[derive(Clone, Copy)]
pub enum MailEvent {
    /// A host is declared that may post and take.
    Writer(HostName),
    /// A host is declared that may take.
    Reader(HostName),
    /// A host begins a post or a take.
    Begin(HostName, Ask),
    /// A host begins one and runs it to its answer.
    Run(HostName, Ask),
    /// A host's task does so many operations, or fewer where it answers.
    Step(HostName, u64),
    /// A host's task runs to its answer.
    Finish(HostName),
    /// A host's task is dropped.
    Stop(HostName),
    /// A host's task and cache are lost.
    Halt(HostName),
    /// A host's cache sends a line that memory may lack, and drops it.
    Evict(HostName, u64),
    /// A host's cache sends the masked words of a line that memory may lack.
    Leak(HostName, u64, Mask),
    /// A host's cache brings a line, or refreshes its masked words.
    Fetch(HostName, u64, Mask),
}
