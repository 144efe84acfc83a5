//! The checksum of words, eight bytes at a time: CRC-32 sliced by eight.
//!
//! The register's steps are linear, so each byte of a word goes through its remaining steps by itself, by a
//! look-up, and the eight results are added. Words of zero change nothing but by their steps, so where three or
//! sixteen of them stand the register's own four bytes are looked up, and all their steps are done at once. The words
//! of a head are most of them zero, and all are done at once.

ghost use Rattle.std.specs.Prelude.{◌≡◌, ◌∷◌, ◌<◌, ◌≤◌, List, ℕ, IfNone, IfSome, IsTrue, fold, length, slice_index};
ghost use Rattle.std.specs.Int.{to_le_bytes, w64};
ghost use Rattle.fam_crc.specs.Crc.{after_byte, all_ones, bytes_of_words, crc32, steps};
ghost use Rattle.fam_crc.specs.Zeros.{EndsWith, IsBehindZeros, IsSeen};

use crate::head::after_head;
use crate::tables::{
    after_8, after_16, after_24, after_32, after_40, after_48, after_56, after_64, after_168,
    after_176, after_184, after_192, after_1000, after_1008, after_1016, after_1024,
};
use crate::zeros::{behind_thirteen, behind_three};

/// The first number above those of the lower half of a word.
const HALF: u64 = 0x1_0000_0000;

/// What a pass over words tells.
#[derive(Clone, Copy)]
pub struct Summed {
    /// The CRC-32 of their bytes, each word by its eight bytes with the lowest first. That of no words is 0.
    pub crc: u32,
    /// Whether they begin as a slot that has no extents may: then the words from place 7 to place 41 are 0.
    pub has_gap: bool,
    /// A place from which on all words are 0.
    pub end: usize,
}

/// The CRC-32 of the words' bytes, each word by its eight bytes with the lowest first. That of no words is 0.
pub fn crc_words(words: &[u64]) -> u32
    ensures { result ≡ crc32 (bytes_of_words words.now) }
{
    sum_words(words).crc
}

/// The CRC-32 of the words' bytes, and which words the pass over them saw to be 0.
pub fn sum_words(words: &[u64]) -> Summed
    ensures crc { result.crc ≡ crc32 (bytes_of_words words.now) }
    ensures gap { IsTrue result.has_gap → (k : ℕ) → 7 ≤ k → k < 42 → slice_index words.now k ≡ 0 }
    ensures end { (k : ℕ) → result.end ≤ k → slice_index words.now k ≡ 0 }
{
    let begun = begin(words);
    let mut pass = Pass {
        register: begun.register,
        tail: begun.rest,
        rest: begun.rest,
    };
    while let Some(next) = advance(pass) {
        pass = next;
    }
    Summed {
        crc: pass.register ^ u32::MAX,
        has_gap: begun.has_gap,
        end: words.len() - pass.tail.len(),
    }
}

/// A pass over words: the register behind those that were seen, the words behind the last of these that isn't 0, and those
/// that are left.
#[derive(Clone, Copy)]
struct Pass<'a> {
    register: u32,
    tail: &'a [u64],
    rest: &'a [u64],
}

/// Goes on by a word or by words of zero, where any are left.
#[inline(always)]
fn advance(pass: Pass<'_>) -> Option<Pass<'_>>
    ensures after { IfSome result (λ next. fold after_byte next.register (bytes_of_words next.rest.now)
        ≡ fold after_byte pass.entry.register (bytes_of_words pass.entry.rest.now)) }
    ensures seen { IfSome result (λ next. (words : List ℕ) → IsSeen words pass.entry.tail.now pass.entry.rest.now
        → IsSeen words next.tail.now next.rest.now) }
    ensures less { IfSome result (λ next. length next.rest.now < length pass.entry.rest.now) }
    ensures none { IfNone result (length pass.entry.rest.now < 1) }
{
    match pass.rest {
        [0, more @ ..] => Some(pass_zeros(pass, more)),
        [word, more @ ..] => Some(Pass {
            register: word_step(pass.register, *word),
            tail: more,
            rest: more,
        }),
        [] => None,
    }
}

/// Goes on by words of zero, of which one is left or more.
#[inline(always)]
fn pass_zeros<'a>(pass: Pass<'a>, more: &'a [u64]) -> Pass<'a>
    requires { pass.rest.now ≡ 0 ∷ more.now }
    ensures after { fold after_byte result.register (bytes_of_words result.rest.now)
        ≡ fold after_byte pass.entry.register (bytes_of_words pass.entry.rest.now) }
    ensures seen { (words : List ℕ) → IsSeen words pass.entry.tail.now pass.entry.rest.now
        → IsSeen words result.tail.now result.rest.now }
    ensures less { length result.rest.now < length pass.entry.rest.now }
{
    match after_zeros(pass.register, pass.rest) {
        Some((register, rest)) => Pass {
            register,
            tail: pass.tail,
            rest,
        },
        None => Pass {
            register: word_step(pass.register, 0),
            tail: pass.tail,
            rest: more,
        },
    }
}

/// The register behind some words, whether these are a head, and the rest.
#[derive(Clone, Copy)]
struct Begun<'a> {
    register: u32,
    has_gap: bool,
    rest: &'a [u64],
}

/// The register behind a head, or behind no words, where they begin with none.
#[inline(always)]
fn begin(words: &[u64]) -> Begun<'_>
    ensures after { fold after_byte result.register (bytes_of_words result.rest.now)
        ≡ fold after_byte all_ones (bytes_of_words words.now) }
    ensures gap { IsTrue result.has_gap → (k : ℕ) → 7 ≤ k → k < 42 → slice_index words.now k ≡ 0 }
    ensures rest { EndsWith words.now result.rest.now }
{
    match after_head(words) {
        Some((register, rest)) => Begun {
            register,
            has_gap: true,
            rest,
        },
        None => Begun {
            register: u32::MAX,
            has_gap: false,
            rest: words,
        },
    }
}

/// The register after sixteen or three words of zero and what stands behind it, where the words begin with these.
#[inline(always)]
fn after_zeros(register: u32, words: &[u64]) -> Option<(u32, &[u64])>
    ensures after { IfSome result (λ more. fold after_byte more.0 (bytes_of_words more.1.now)
        ≡ fold after_byte register (bytes_of_words words.now)) }
    ensures zeros { IfSome result (λ more. IsBehindZeros words.now more.1.now) }
    ensures less { IfSome result (λ more. length more.1.now < length words.now) }
{
    let behind = behind_three(words)?;
    match behind_thirteen(behind) {
        Some(behind) => Some((sixteen_step(register), behind)),
        None => Some((three_step(register), behind)),
    }
}

/// The register after sixteen words of zero.
#[inline(always)]
fn sixteen_step(register: u32) -> u32
    ensures { result ≡ steps 1024 register }
{
    after_1024((register % 256) as u8)
        ^ after_1016(((register >> 8) % 256) as u8)
        ^ after_1008(((register >> 16) % 256) as u8)
        ^ after_1000((register >> 24) as u8)
}

/// The register after three words of zero.
#[inline(always)]
fn three_step(register: u32) -> u32
    ensures { result ≡ steps 192 register }
{
    after_192((register % 256) as u8)
        ^ after_184(((register >> 8) % 256) as u8)
        ^ after_176(((register >> 16) % 256) as u8)
        ^ after_168((register >> 24) as u8)
}

/// The register after the eight bytes of a word, the lowest first.
#[inline(always)]
fn word_step(register: u32, word: u64) -> u32
    ensures { result ≡ fold after_byte register (to_le_bytes w64 word) }
{
    let x = word ^ register as u64;
    let low = after_64((x % 256) as u8)
        ^ after_56(((x >> 8) % 256) as u8)
        ^ after_48(((x >> 16) % 256) as u8)
        ^ after_40(((x >> 24) % 256) as u8);
    if x < HALF {
        return low;
    }
    low ^ after_32(((x >> 32) % 256) as u8)
        ^ after_24(((x >> 40) % 256) as u8)
        ^ after_16(((x >> 48) % 256) as u8)
        ^ after_8((x >> 56) as u8)
}
