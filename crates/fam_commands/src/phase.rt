//! The phases of a task, and the parts of an image that it reads.

/// Whole lines that a task reads together, before it looks at their words.
#[derive(Clone, Copy, Debug, PartialEq, Eq)]
pub enum Part {
    /// Lines 1 and 2.
    Superblock,
    /// Line 0 of the log.
    Header,
    /// The lines of a slot.
    Slot(u64),
    /// The lines of a file, or those of them that hold a wanted byte.
    File,
}

/// Where a task stands: which operation it does next. Lines are counted from 0 in their part or file, words from 0
/// in their line.
#[derive(Clone, Copy, Debug, PartialEq, Eq)]
pub enum Phase {
    /// Drop line 0.
    DropMagic,
    /// Load the magic, word 0 of line 0.
    Magic,
    /// Drop a line of a part.
    Drop { part: Part, line: u64 },
    /// Load a word of a line of a part.
    Word { part: Part, line: u64, word: u8 },
    /// Drop the gate's line.
    DropGate,
    /// Load the gate.
    Gate,
    /// Look at the words of a slot.
    Check { slot: u64 },
    /// Decide, with all slots read.
    Decide,
    /// Store a word of a line of the new file.
    StoreData { line: u64, word: u8 },
    /// Send that line.
    SendData { line: u64 },
    /// Store a word of a line of the new slot.
    StoreSlot { line: u64, word: u8 },
    /// Ask for that line to be sent.
    SendSlot { line: u64 },
    /// Send the lines of the slot.
    FenceSlot,
    /// Store the gate, one higher.
    StoreGate,
    /// Ask for the gate to be sent.
    SendGate,
    /// Send the gate.
    FenceGate,
}
