//! Where a slot and the log's header have their words, and the numbers that stand there for kinds and limits.

/// The slot's own number.
pub(crate) const SEQ_WORD: usize = 0;

/// `FILE_KIND` or `DIRECTORY_KIND`.
pub(crate) const KIND_WORD: usize = 1;

/// The bytes of the file.
pub(crate) const SIZE_WORD: usize = 2;

/// The mode, at most `MODE_LIMIT`.
pub(crate) const MODE_WORD: usize = 3;

/// The owner's number, at most `ID_LIMIT`.
pub(crate) const UID_WORD: usize = 4;

/// The group's number, at most `ID_LIMIT`.
pub(crate) const GID_WORD: usize = 5;

/// The bytes of the path, at most as many as the format allows.
pub(crate) const PATH_LENGTH_WORD: usize = 6;

/// `EMPTY_MAP`, `SIMPLE_MAP` or `STRIPED_MAP`.
pub(crate) const MAP_WORD: usize = 7;

/// The bytes of a chunk, 0 unless the map is striped.
pub(crate) const CHUNK_WORD: usize = 8;

/// How many extents are used, at most `EXTENT_LIMIT`.
pub(crate) const COUNT_WORD: usize = 9;

/// The first word of the extents, of two words each.
pub(crate) const EXTENTS_WORD: usize = 10;

/// The first word of the path.
pub(crate) const PATH_WORD: usize = 42;

/// The checksum of the log's header, behind all other words.
pub(crate) const HEADER_CRC_WORD: usize = 7;

pub(crate) const FILE_KIND: u64 = 1;

pub(crate) const DIRECTORY_KIND: u64 = 2;

pub(crate) const EMPTY_MAP: u64 = 0;

pub(crate) const SIMPLE_MAP: u64 = 1;

pub(crate) const STRIPED_MAP: u64 = 2;

/// The most extents of a file.
pub(crate) const EXTENT_LIMIT: u64 = 16;

/// The most that a mode is: four octal digits.
pub(crate) const MODE_LIMIT: u64 = 0o7777;

/// The most that a uid or a gid is.
pub(crate) const ID_LIMIT: u64 = 0xffff_ffff;
