//! What CRC-32 means: the remainder of a polynomial by the generator, over the field of two elements.
//!
//! A law has an empty body: its clause is a fact about the definitions of `specs/`, at all values.

ghost use Rattle.std.specs.Prelude.{◌≡◌, ◌<◌, List, slice_index, ℕ};
ghost use Rattle.fam_crc.specs.Crc.{bytes_of_words, crc32};
ghost use Rattle.fam_crc.specs.Polynomial.{IsRemainder};

/// The CRC-32 of bytes, inverted and with its bits in the other order, is the remainder of their dividend by
/// the generator.
pub fn is_remainder()
    ensures { (bytes : List ℕ) → ((i : ℕ) → slice_index bytes i < 256) → IsRemainder bytes (crc32 bytes) }
{}

/// No other number is that remainder.
pub fn is_only_remainder()
    ensures { (bytes : List ℕ) → ((i : ℕ) → slice_index bytes i < 256)
        → (crc : ℕ) → IsRemainder bytes crc → crc ≡ crc32 bytes }
{}

/// What `crc_words` gives is the remainder of the words' bytes, and so below 2 ^ 32, whatever the words.
pub fn is_remainder_of_words()
    ensures { (words : List ℕ) → IsRemainder (bytes_of_words words) (crc32 (bytes_of_words words)) }
{}
