//! The operations on a host's cache.

use fam_base::LineNo;

/// What a task does next, on its host's cache and the one memory.
#[derive(Clone, Copy, Debug, PartialEq, Eq)]
pub enum Op {
    /// Reads a word of a line, 0 to 7.
    Load(LineNo, u8),
    /// Sets a word of a line.
    Store(LineNo, u8, u64),
    /// Asks for a line to be sent where it is dirty, and touches no memory.
    WriteBack(LineNo),
    /// Sends all lines that were asked for, in the order of their numbers, and keeps them.
    Fence,
    /// Sends a line to memory where it is dirty, asked for or not, and drops it.
    Invalidate(LineNo),
    /// Thinks about the words that it has, and touches no line.
    Digest,
}
