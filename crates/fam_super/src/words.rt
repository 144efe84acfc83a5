//! The superblock's lines as one list of words, and its numbers.

ghost use Rattle.std.specs.Prelude.{◌≡◌, ◌++◌};
ghost use Rattle.fam_base.specs.Image.{line_at};

use fam_base::Line;
use fam_format::SECOND_FORMAT;

/// Word 0 of line 0: the bytes `famfs-01`.
pub const MAGIC: u64 = 0x3130_2d73_666d_6166;

/// The greatest version that is read: the version is the format of the slots.
pub const LAST_VERSION: u64 = SECOND_FORMAT;

/// The words of lines 1 and 2, one after the other. The constants below say where each field stands.
pub type SuperWords = [u64; 16];

/// The version.
pub const VERSION_WORD: usize = 0;
/// Where the log begins, in bytes.
pub const OFFSET_WORD: usize = 1;
/// The bytes of the log.
pub const LENGTH_WORD: usize = 2;
/// The bytes of a unit.
pub const UNIT_WORD: usize = 3;
/// The bytes of the device.
pub const DEVICE_WORD: usize = 4;
/// The first of the two words of the file system's UUID.
pub const FS_WORD: usize = 5;
/// The first of the two words of the master's UUID.
pub const MASTER_WORD: usize = 7;
/// The first of six zeros.
pub const REST_WORD: usize = 9;
/// The CRC-32 of the words before it.
pub const CRC_WORD: usize = 15;

/// The words of lines 1 and 2.
pub fn words_of(lines: &[Line; 3]) -> SuperWords
    ensures { result ≡ line_at lines.now 1 ++ line_at lines.now 2 }
{
    let mut words = [0; 16];
    words[..8].copy_from_slice(&lines[1]);
    words[8..].copy_from_slice(&lines[2]);
    words
}
