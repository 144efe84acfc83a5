//! What is taken where no option says more.

/// The bytes of a unit.
pub const DEFAULT_UNIT: u64 = 2_097_152;

/// The bytes of a log.
pub const DEFAULT_LOG: u64 = 8_388_608;

/// The mode of a directory.
pub const DIRECTORY_MODE: u32 = 0o755;

/// The mode of a file.
pub const FILE_MODE: u32 = 0o644;
