//! A bitmap of units: bit `u % 64` of word `u / 64` is unit `u`.

ghost use Rattle.std.specs.Prelude.{◌≡◌, ℕ, true, not, ◌+◌, ◌*◌, ◌<◌, ◌≤◌, ◌||◌, nat_lt, replicate, vec_len, IfOk};
ghost use Rattle.fam_alloc.specs.Next.{has_bit, is_bit_set, is_between, IsNext};

use fam_base::OutOfMemory;
use std::alloc::Global;

/// The most units of a device.
pub const MOST_UNITS: u64 = 268_435_456;

/// A bitmap of so many words in which no unit is used.
pub fn zeros(alloc: Global, words: usize) -> Result<Vec<u64>, OutOfMemory>
    ensures { IfOk result (λ v. v.items ≡ replicate words 0) }
{
    match vec![in alloc; 0; words] {
        Ok(zeros) => Ok(zeros),
        Err(_) => Err(OutOfMemory),
    }
}

/// The first bit from `from` on that is 1, or 64.
fn first_one(word: u64, from: u64) -> u64
    requires { from < 64 }
    ensures { IsNext (has_bit word) true from 64 result }
{
    let rest = word >> from;
    if rest == 0 {
        return 64;
    }
    from + rest.trailing_zeros() as u64
}

/// The other bits.
fn flipped(word: u64) -> u64
    ensures { (i : ℕ) → i < 64 → has_bit result i ≡ not (has_bit word i) }
{
    !word
}

/// The first bit from `from` on that stands for a used unit, or for a free one, or 64.
fn first_bit(word: u64, used: bool, from: u64) -> u64
    requires { from < 64 }
    ensures { IsNext (has_bit word) used from 64 result }
{
    if used {
        first_one(word, from)
    } else {
        first_one(flipped(word), from)
    }
}

/// The first unit from `from` on that is used, or that is free, or `to`. Looks at each word once.
pub fn next(words: &Vec<u64>, used: bool, from: u64, to: u64) -> u64
    requires order { from ≤ to }
    requires within { to ≤ 64 * vec_len words.now }
    requires few { to ≤ MOST_UNITS }
    ensures { IsNext (is_bit_set words.now.items) used from to result }
{
    let mut unit = from;
    while unit < to {
        let first = unit - unit % 64;
        let bit = first_bit(words[(unit / 64) as usize], used, unit % 64);
        if bit < 64 {
            return to.min(first + bit);
        }
        unit = first + 64;
    }
    to
}

/// The bits below `count`.
fn low_ones(count: u64) -> u64
    ensures { (i : ℕ) → i < 64 → has_bit result i ≡ nat_lt i count }
{
    if count < 64 {
        (1 << count) - 1
    } else {
        u64::MAX
    }
}

/// The bits of a word that stand for units from `from` on and below `to`.
fn span(word: u64, from: u64, to: u64) -> u64
    requires { 64 * word ≤ MOST_UNITS }
    ensures { (i : ℕ) → i < 64 → has_bit result i ≡ is_between from to (64 * word + i) }
{
    let first = 64 * word;
    low_ones(to.saturating_sub(first)) & flipped(low_ones(from.saturating_sub(first)))
}

/// Marks the units from `from` on and below `to` as used.
pub fn mark(words: &mut Vec<u64>, from: u64, to: u64)
    requires order { from ≤ to }
    requires within { to ≤ 64 * vec_len words.old }
    requires few { to ≤ MOST_UNITS }
    ensures marked { (u : ℕ) →
        is_bit_set words.new.items u ≡ (is_bit_set words.old.items u || is_between from to u) }
    ensures len { vec_len words.new ≡ vec_len words.old }
{
    for word in from / 64..to.div_ceil(64) {
        words[word as usize] |= span(word, from, to);
    }
}
