//! Where superblock, log and slots stand on the media, and how large their parts are.

/// The bytes of a line.
pub const LINE_BYTES: u64 = 64;

/// The words of a line.
pub const LINE_WORDS: usize = 8;

/// The last word of a line, counted from 0.
pub const LAST_WORD: u8 = 7;

/// The words of a slot of the first format, its checksum included.
pub const SLOT_WORDS: usize = 64;

/// The lines of a slot of the first format, and of the log before its first slot.
pub const SLOT_LINES: u64 = 8;

/// Where the log begins, in bytes from the front of the image.
pub const LOG_OFFSET: u64 = 2_097_152;

/// The log's header, in lines from the front of the image.
pub const LOG_LINE: u64 = 32_768;

/// The line whose word 0 is the gate.
pub const GATE_LINE: u64 = 32_769;

/// The fewest lines of an image that has a gate.
pub const LEAST_LINES: u64 = 32_770;
