//! CRC-32 as zlib, PNG and ISO-HDLC have it, a bit at a time and with no table.

ghost use Rattle.std.specs.Prelude.{◌≡◌, bit_xor, fold};
ghost use Rattle.std.specs.Int.{to_le_bytes, w64};
ghost use Rattle.fam_crc.specs.Crc as crc;

/// The generator without its highest power, the other powers from the highest bit down.
const POLYNOMIAL: u32 = 0xedb8_8320;

/// The bits of a byte.
const BITS: usize = 8;

/// The register after one bit of zero.
fn step(register: u32) -> u32
    ensures { result ≡ crc.step register }
{
    if register % 2 == 1 {
        (register >> 1) ^ POLYNOMIAL
    } else {
        register >> 1
    }
}

/// The register after eight bits of zero.
fn eight_steps(register: u32) -> u32
    ensures { result ≡ crc.steps 8 register }
{
    let mut register = register;
    for _bit in 0..BITS {
        register = step(register);
    }
    register
}

/// The register after a byte.
fn after_byte(register: u32, byte: u8) -> u32
    ensures { result ≡ crc.after_byte register byte }
{
    eight_steps(register ^ byte as u32)
}

/// The register after the eight bytes of a word, the lowest first.
fn after_word(register: u32, word: u64) -> u32
    ensures { result ≡ fold crc.after_byte register (to_le_bytes w64 word) }
{
    let bytes = word.to_le_bytes();
    let mut register = register;
    for byte in &bytes {
        register = after_byte(register, *byte);
    }
    register
}

/// The checksum that a register stands for.
fn inverted(register: u32) -> u32
    ensures { result ≡ bit_xor register crc.all_ones }
{
    register ^ u32::MAX
}

/// The CRC-32 of bytes. That of no bytes is 0.
#[tactic(auto, unfolding(fam_crc::specs::Crc::crc32))]
pub fn plain_crc(bytes: &[u8]) -> u32
    ensures { result ≡ crc.crc32 bytes.now }
{
    let mut register = u32::MAX;
    for byte in bytes {
        register = after_byte(register, *byte);
    }
    inverted(register)
}

/// The CRC-32 of the words' bytes, each word by its eight bytes with the lowest first.
#[tactic(auto, unfolding(fam_crc::specs::Crc::crc32))]
pub fn plain_crc_words(words: &[u64]) -> u32
    ensures { result ≡ crc.crc32 (crc.bytes_of_words words.now) }
{
    let mut register = u32::MAX;
    for word in words {
        register = after_word(register, *word);
    }
    inverted(register)
}
