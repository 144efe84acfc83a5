//! The checksum of bytes that come after others, a byte at a time.

ghost use Rattle.std.specs.Prelude.{◌≡◌, ◌++◌, List, ℕ};
ghost use Rattle.fam_crc.specs.Crc.{after_byte, crc32};

use crate::tables::after_8;

/// The CRC-32 of any bytes whose CRC-32 is `crc`, followed by `bytes`. The CRC-32 of no bytes is 0, so with
/// `crc` 0 it is that of `bytes` alone.
pub fn crc_more(crc: u32, bytes: &[u8]) -> u32
    ensures more { (before : List ℕ) → crc32 before ≡ crc → result ≡ crc32 (before ++ bytes.now) }
    ensures solo { crc ≡ 0 → result ≡ crc32 bytes.now }
{
    let mut register = crc ^ u32::MAX;
    for byte in bytes {
        register = byte_step(register, *byte);
    }
    register ^ u32::MAX
}

/// The register after a byte.
fn byte_step(register: u32, byte: u8) -> u32
    ensures { result ≡ after_byte register byte }
{
    let low = ((register ^ byte as u32) % 256) as u8;
    after_8(low) ^ (register >> 8)
}
