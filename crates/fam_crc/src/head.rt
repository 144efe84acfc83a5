//! The checksum of a head: 42 words of which all but the first, the second and the fourth to the seventh are 0, and these
//! are small. A slot that has no extents begins so, unless its owner's number is large.
//!
//! A byte comes through the steps of all words from its own on by one look-up, so that a head takes a look-up for each
//! byte that may stand in it, and none for its zeros.

ghost use Rattle.std.specs.Prelude.{◌≡◌, ◌∷◌, ◌++◌, ◌<◌, ◌≤◌, ℕ, IfSome, IsTrue, fold, replicate, slice_index};
ghost use Rattle.fam_crc.specs.Crc.{after_byte, all_ones, bytes_of_words};
ghost use Rattle.fam_crc.specs.Heads.{AreSmall, head_steps};
ghost use Rattle.fam_crc.specs.Zeros.{EndsWith};

use crate::tables::{
    after_2304, after_2360, after_2368, after_2424, after_2432, after_2488, after_2496, after_2624,
    after_2672, after_2680, after_2688,
};
use crate::zeros::{behind_sixteen, behind_three};

/// The register that held all ones, after the 2,688 bits of zero of 42 words.
const AFTER_ONES: u32 = 0xd2d7_576e;

/// The first number above those of one byte, of two and of three.
const ABOVE_ONE: u64 = 0x100;

const ABOVE_TWO: u64 = 0x1_0000;

const ABOVE_THREE: u64 = 0x100_0000;

/// The words of a head that may be other than 0, and what stands behind the last of them.
#[derive(Clone, Copy)]
struct Head<'a> {
    first: u64,
    second: u64,
    fourth: u64,
    fifth: u64,
    sixth: u64,
    seventh: u64,
    more: &'a [u64],
}

/// The same of words that begin as a head does, whatever their size.
#[inline(always)]
fn head_of(words: &[u64]) -> Option<Head<'_>>
    ensures { IfSome result (λ head. words.now ≡
        head.first ∷ head.second ∷ 0 ∷ head.fourth ∷ head.fifth ∷ head.sixth ∷ head.seventh ∷ head.more.now) }
{
    match words {
        [first, second, 0, fourth, fifth, sixth, seventh, more @ ..] => Some(Head {
            first: *first,
            second: *second,
            fourth: *fourth,
            fifth: *fifth,
            sixth: *sixth,
            seventh: *seventh,
            more,
        }),
        _ => None,
    }
}

/// Whether they are small.
#[inline(always)]
fn are_small(head: Head<'_>) -> bool
    ensures { IsTrue result → AreSmall head.entry.first head.entry.second head.entry.fourth head.entry.fifth
        head.entry.sixth head.entry.seventh }
{
    head.first < ABOVE_THREE
        && head.second < ABOVE_ONE
        && head.fourth < ABOVE_TWO
        && head.fifth < ABOVE_TWO
        && head.sixth < ABOVE_TWO
        && head.seventh < ABOVE_ONE
}

/// The register after a head and what stands behind it, where the words begin with one.
#[inline(always)]
pub(crate) fn after_head(words: &[u64]) -> Option<(u32, &[u64])>
    ensures after { IfSome result (λ more. fold after_byte more.0 (bytes_of_words more.1.now)
        ≡ fold after_byte all_ones (bytes_of_words words.now)) }
    ensures gap { IfSome result (λ _. (k : ℕ) → 7 ≤ k → k < 42 → slice_index words.now k ≡ 0) }
    ensures rest { IfSome result (λ more. EndsWith words.now more.1.now) }
{
    let head = head_of(words)?;
    if !are_small(head) {
        return None;
    }
    let behind = behind_thirty_five(head.more)?;
    Some((head_register(head), behind))
}

/// What stands behind thirty-five words of zero, where the words begin with these.
#[inline(always)]
fn behind_thirty_five(words: &[u64]) -> Option<&[u64]>
    ensures { IfSome result (λ behind. words.now ≡ replicate 35 0 ++ behind.now) }
{
    behind_three(behind_sixteen(behind_sixteen(words)?)?)
}

/// The register after a head, whose words are small.
#[inline(always)]
fn head_register(head: Head<'_>) -> u32
    requires { AreSmall head.first head.second head.fourth head.fifth head.sixth head.seventh }
    ensures { result ≡ head_steps head.entry.first head.entry.second head.entry.fourth head.entry.fifth head.entry.sixth
        head.entry.seventh }
{
    AFTER_ONES
        ^ after_2688((head.first % 256) as u8)
        ^ after_2680(((head.first >> 8) % 256) as u8)
        ^ after_2672((head.first >> 16) as u8)
        ^ after_2624(head.second as u8)
        ^ after_2496((head.fourth % 256) as u8)
        ^ after_2488((head.fourth >> 8) as u8)
        ^ after_2432((head.fifth % 256) as u8)
        ^ after_2424((head.fifth >> 8) as u8)
        ^ after_2368((head.sixth % 256) as u8)
        ^ after_2360((head.sixth >> 8) as u8)
        ^ after_2304(head.seventh as u8)
}
