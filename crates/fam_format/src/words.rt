//! Bytes in little-endian words, and words of bytes.

ghost use Rattle.std.specs.Prelude.{◌≡◌, ◌+◌, ◌*◌, ◌^◌, ◌<◌, slice_index};
ghost use Rattle.fam_base.specs.Image as image;
ghost use Rattle.fam_format.specs.Words as words;

fn byte_or_zero(bytes: &[u8], i: usize) -> u8
    ensures { result ≡ slice_index bytes.now i }
{
    if i < bytes.len() { bytes[i] } else { 0 }
}

/// Word `k` of a list of bytes: bytes `8 k` to `8 k + 7`, the low one first, zeros past the list's end.
#[tactic(auto, unfolding(crate::specs::Words::word_of_bytes))]
pub fn word_of_bytes(bytes: &[u8], k: usize) -> u64
    requires { k < 2 ^ 32 }
    ensures { result ≡ words.word_of_bytes bytes.now k }
{
    let at = 8 * k;
    u64::from_le_bytes([
        byte_or_zero(bytes, at),
        byte_or_zero(bytes, at + 1),
        byte_or_zero(bytes, at + 2),
        byte_or_zero(bytes, at + 3),
        byte_or_zero(bytes, at + 4),
        byte_or_zero(bytes, at + 5),
        byte_or_zero(bytes, at + 6),
        byte_or_zero(bytes, at + 7),
    ])
}

/// Byte `b` of a word, from the low end.
pub fn byte_of(word: u64, b: usize) -> u8
    requires { b < 8 }
    ensures { result ≡ image.byte_of word b }
{
    ((word >> (8 * b)) % 256) as u8
}
