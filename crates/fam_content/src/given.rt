//! Lines of given bytes.

ghost use Rattle.std.specs.Prelude.{◌≡◌, ◌+◌, ◌<◌, ◌≤◌, ℕ, length, slice_index};
ghost use Rattle.fam_rules.specs.Content.{byte_in};

use byteorder::{ByteOrder, LittleEndian};
use fam_base::Line;

/// The bytes from byte `start` on: none where there are fewer.
fn rest_from(bytes: &[u8], start: u64) -> &[u8]
    ensures { (b : ℕ) → slice_index result.now b ≡ slice_index bytes.now (start + b) }
{
    if start < bytes.len() as u64 {
        &bytes[start as usize..]
    } else {
        &[]
    }
}

/// The first 64 bytes as words.
fn whole_line(bytes: &[u8]) -> Line
    requires { 64 ≤ length bytes.now }
    ensures { (b : ℕ) → b < 64 → byte_in result b ≡ slice_index bytes.now b }
{
    let mut words = [0; 8];
    LittleEndian::read_u64_into(&bytes[..64], &mut words);
    words
}

/// The 64 bytes from byte `start` on as words, with zeros behind the last byte.
pub(crate) fn given_line(bytes: &[u8], start: u64) -> Line
    ensures { (b : ℕ) → b < 64 → byte_in result b ≡ slice_index bytes.now (start + b) }
{
    let rest = rest_from(bytes, start);
    if rest.len() >= 64 {
        whole_line(rest)
    } else {
        let mut padded = [0; 64];
        padded[..rest.len()].copy_from_slice(rest);
        whole_line(&padded)
    }
}
