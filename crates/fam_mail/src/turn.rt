//! What comes of an operation for its task.

use crate::record::Records;

/// What comes of an operation for its task.
#[derive(Drop)]
pub enum Turn {
    /// The task goes on.
    Go,
    /// The gate's line was dropped: every record that was answered by now will be read. The task goes on.
    Mark,
    /// A post has found so many records, and goes on.
    Found(u64),
    /// The record of this number is posted.
    Posted(u64),
    /// The box has room for so many records, and the gate counts as many.
    Full(u64),
    /// All records that the gate counts.
    Taken(Records),
    /// The gate counts more records than the box has room for.
    BadBox { gate: u64, capacity: u64 },
    /// The line of record `i` is none: this is the first of its words that makes it none.
    BadRecord { i: u64, word: u64 },
}
