//! One host's copy of one line.

use fam_base::Line;

/// A host's copy of a line of memory.
#[derive(Clone, Copy)]
pub enum Cell {
    /// The host has no copy.
    Absent,
    /// Words that were brought from memory or sent to it. Memory may have others by now.
    Clean(Line),
    /// Words that the host stored into since they were brought or sent, so that memory may lack them; and whether it
    /// has asked for them to be sent since its last store.
    Dirty { asked: bool, words: Line },
}
