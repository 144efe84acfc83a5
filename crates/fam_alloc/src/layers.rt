//! A bitmap with hints above it, so that units which are used already are skipped in a few steps.
//!
//! A check of a whole file system marks units that are used already, and extents may overlap as often as they like.
//! Three bitmaps of hints say which words are full. A contract sees the words of the bitmap alone: no answer hangs on a
//! hint, only the time that it takes. Free runs would skip used units too, but then answers would hang on them.

ghost use Rattle.std.specs.Prelude.{◌≡◌, ℕ, true, false, ◌+◌, ◌*◌, ◌/◌, ◌<◌, ◌≤◌, ◌||◌, length, replicate, vec_len, IfOk};
ghost use Rattle.fam_alloc.specs.Full.{AreFull};
ghost use Rattle.fam_alloc.specs.Next.{is_bit_set, is_between, IsNext};

use crate::bits::{MOST_UNITS, mark, next, zeros};
use fam_base::OutOfMemory;
use std::alloc::Global;
use std::marker::Model;

/// A bitmap of units, and three bitmaps of hints, each a 64th of the one that it tells of.
#[derive(Drop)]
pub struct Layers {
    /// Bit `u % 64` of word `u / 64` is unit `u`.
    words: Vec<u64>,
    /// Bit `w % 64` of word `w / 64` says that word `w` of `words` is full. One that is 0 says nothing.
    full: Vec<u64>,
    /// The same of the words of `full`.
    blocks: Vec<u64>,
    /// The same of the words of `blocks`: 16 words for the largest device.
    tops: Vec<u64>,
}

impl Model for Layers {
    ghost use Rattle.std.specs.Prelude.{ℕ, List};
    ghost use Rattle.fam_alloc.specs.Full.{AreLayers};

    ghost Value = { List ℕ };

    ghost view = { λ l. l.words.items };

    ghost invariant = { λ l. AreLayers l.words.items l.full.items l.blocks.items l.tops.items };
}

/// The first free unit from `from` on, or `to`, where each word that begins at `from` or behind it is full, up to word
/// `past`.
fn next_behind(words: &Vec<u64>, from: u64, past: u64, to: u64) -> u64
    requires order { from ≤ to }
    requires within { to ≤ 64 * vec_len words.now }
    requires few { to ≤ MOST_UNITS }
    requires past { past ≤ MOST_UNITS }
    requires full { (u : ℕ) → from ≤ 64 * (u / 64) → u / 64 < past → is_bit_set words.now.items u ≡ true }
    ensures { IsNext (is_bit_set words.now.items) false from to result }
{
    let edge = to.min(64 * from.div_ceil(64));
    let first = next(words, false, from, edge);
    if first < edge {
        return first;
    }
    next(words, false, edge.max(to.min(64 * past)), to)
}

/// Marks a word in the hints where it is full.
fn hint(words: &Vec<u64>, full: &mut Vec<u64>, word: u64)
    requires within { word < vec_len words.now }
    requires room { vec_len words.now ≤ 64 * vec_len full.old }
    requires few { word < MOST_UNITS }
    requires sound { AreFull words.now.items full.old.items }
    ensures sound { AreFull words.now.items full.new.items }
    ensures more { (w : ℕ) → is_bit_set full.old.items w ≡ true → is_bit_set full.new.items w ≡ true }
    ensures len { vec_len full.new ≡ vec_len full.old }
{
    if words[word as usize] != u64::MAX {
        return;
    }
    mark(full, word, word + 1);
}

/// Marks the words from `from` on and below `to` in the hints, those that are full.
fn hint_all(words: &Vec<u64>, full: &mut Vec<u64>, from: u64, to: u64)
    requires within { to ≤ vec_len words.now }
    requires room { vec_len words.now ≤ 64 * vec_len full.old }
    requires few { to ≤ MOST_UNITS }
    requires sound { AreFull words.now.items full.old.items }
    ensures sound { AreFull words.now.items full.new.items }
    ensures more { (w : ℕ) → is_bit_set full.old.items w ≡ true → is_bit_set full.new.items w ≡ true }
    ensures len { vec_len full.new ≡ vec_len full.old }
{
    for word in from..to {
        hint(words, full, word);
    }
}

impl Layers {
    /// So many words in which no unit is used.
    pub fn new(alloc: Global, words: u64) -> Result<Layers, OutOfMemory>
        ensures { IfOk result (λ layers. layers ≡ replicate words 0) }
    {
        let full = words.div_ceil(64);
        let blocks = full.div_ceil(64);
        let tops = blocks.div_ceil(64);
        Ok(Layers {
            words: zeros(alloc, words as usize)?,
            full: zeros(alloc, full as usize)?,
            blocks: zeros(alloc, blocks as usize)?,
            tops: zeros(alloc, tops as usize)?,
        })
    }

    /// The words of the bitmap.
    pub fn words(&self) -> &Vec<u64>
        ensures { result.now.items ≡ self.now }
    {
        &self.words
    }

    /// The first free unit from `from` on, or `to`. It takes few steps, however many units are skipped.
    fn next_free(&self, from: u64, to: u64) -> u64
        requires order { from ≤ to }
        requires within { to ≤ 64 * length self.now }
        requires few { to ≤ MOST_UNITS }
        ensures { IsNext (is_bit_set self.now) false from to result }
    {
        let (word, last_word) = (from.div_ceil(64), to.div_ceil(64));
        let (block, last_block) = (word.div_ceil(64), last_word.div_ceil(64));
        let past_tops = next(
            &self.tops,
            false,
            block.div_ceil(64),
            last_block.div_ceil(64),
        );
        let past_blocks = next_behind(&self.blocks, block, past_tops, last_block);
        let past_words = next_behind(&self.full, word, past_blocks, last_word);
        next_behind(&self.words, from, past_words, to)
    }

    /// Marks the units from `from` on and below `to` as used, one step a word.
    fn mark(&mut self, from: u64, to: u64)
        requires order { from ≤ to }
        requires within { to ≤ 64 * length self.old }
        requires few { to ≤ MOST_UNITS }
        ensures marked { (u : ℕ) → is_bit_set self.new u ≡ (is_bit_set self.old u || is_between from to u) }
        ensures len { length self.new ≡ length self.old }
    {
        let (word, last_word) = (from / 64, to.div_ceil(64));
        let (block, last_block) = (word / 64, last_word.div_ceil(64));
        mark(&mut self.words, from, to);
        hint_all(&self.words, &mut self.full, word, last_word);
        hint_all(&self.full, &mut self.blocks, block, last_block);
        hint_all(
            &self.blocks,
            &mut self.tops,
            block / 64,
            last_block.div_ceil(64),
        );
    }

    /// Marks the units from `from` on and below `to` as used, whether they were or not: each run of free ones in turn.
    pub fn cover(&mut self, from: u64, to: u64)
        requires order { from ≤ to }
        requires within { to ≤ 64 * length self.old }
        requires few { to ≤ MOST_UNITS }
        ensures marked { (u : ℕ) → is_bit_set self.new u ≡ (is_bit_set self.old u || is_between from to u) }
        ensures len { length self.new ≡ length self.old }
    {
        let mut unit = from;
        while unit < to {
            let start = self.next_free(unit, to);
            let end = next(self.words(), true, start, to);
            self.mark(start, end);
            unit = end;
        }
    }
}
