//! The phases of a post and of a take.

/// Where a task stands: which operation it does next. Records are counted from 0, and words from 0 in their line.
#[derive(Clone, Copy)]
pub enum Phase {
    /// Drop the gate's line.
    DropGate,
    /// Load the gate.
    LoadGate,
    /// Store a word of the record's line.
    StoreRecord(u8),
    /// Ask for that line to be sent.
    SendRecord,
    /// Send it.
    FenceRecord,
    /// Store the gate, one higher.
    StoreGate,
    /// Ask for the gate's line to be sent.
    SendGate,
    /// Send it.
    FenceGate,
    /// Make room for as many records as the gate counts.
    Count,
    /// Drop a record's line.
    DropRecord(u64),
    /// Load a word of it.
    LoadRecord(u64, u8),
}
