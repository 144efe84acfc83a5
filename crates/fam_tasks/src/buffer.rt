//! Words that were loaded and not yet looked at, or that are to be stored.
//!
//! They stand in a place of fixed size: the 4,096 bytes that a read gives at most touch no more than 65 lines. The room
//! for the answer's bytes is taken when the command decides, so no load wants memory.

ghost use Rattle.std.specs.Prelude.{◌≡◌, ◌+◌, ◌*◌, ◌<◌, ◌≤◌, ℕ, [], ◌∷◌, ◌++◌, length, slice_index, slice_range};
ghost use Rattle.fam_base.specs.Image.{eight};
ghost use Rattle.fam_rules.specs.Content.{byte_in};
ghost use Rattle.fam_tasks.specs.SlotLines.{words_in};

use fam_base::Line;
use fam_format::{LINE_WORDS, MOST_SLOT_WORDS, byte_of};
use std::marker::Model;

/// The most words that are held: those of 65 lines, which hold any 4,096 bytes of a file.
pub(crate) const MOST_WORDS: usize = 520;

/// At most `MOST_WORDS` words. A contract sees a list.
#[derive(Drop)]
pub(crate) struct Buffer {
    words: [u64; MOST_WORDS],
    len: usize,
}

impl Model for Buffer {
    ghost use Rattle.std.specs.Prelude.{ℕ, ◌≤◌, List, take};

    ghost Value = { List ℕ };

    ghost view = { λ b. take b.len b.words };

    ghost invariant = { λ b. b.len ≤ 520 };
}

impl Buffer {
    /// No words.
    pub(crate) fn new() -> Buffer
        ensures { result ≡ [] }
    {
        Buffer {
            words: [0; MOST_WORDS],
            len: 0,
        }
    }

    /// Holds the words of a slot, and no others.
    #[tactic(auto, using(std::proofs::lemmas::List::take_all))]
    pub(crate) fn hold(&mut self, slot: &[u64])
        requires { length slot.now ≤ MOST_SLOT_WORDS }
        ensures { self.new ≡ slot.now }
    {
        let count = slot.len();
        self.words[..count].copy_from_slice(slot);
        self.len = count;
    }

    /// Adds a word.
    pub(crate) fn push(&mut self, word: u64)
        requires { length self.old < MOST_WORDS }
        ensures { self.new ≡ self.old ++ word ∷ [] }
    {
        self.words[self.len] = word;
        self.len += 1;
    }

    /// How many words there are.
    #[inline(always)]
    pub(crate) fn count(&self) -> usize
        ensures { result ≡ length self.now }
    {
        self.as_slice().len()
    }

    /// Adds a word behind the others, whose count this is. Of some in a row only the last one's count is written.
    #[inline(always)]
    pub(crate) fn push_behind(&mut self, count: usize, word: u64)
        requires count { count ≡ length self.old }
        requires room { count < MOST_WORDS }
        ensures { self.new ≡ self.old ++ word ∷ [] }
    {
        self.words[count] = word;
        self.len = count + 1;
    }

    /// Adds the words of a line.
    #[inline(always)]
    pub(crate) fn push_line(&mut self, words: &Line)
        requires { length self.old + LINE_WORDS ≤ MOST_WORDS }
        ensures same { self.new ≡ self.old ++ eight words.now }
        ensures count { length self.new ≡ length self.old + LINE_WORDS }
    {
        let count = self.count();
        self.words[count..count + LINE_WORDS].copy_from_slice(words);
        self.len = count + LINE_WORDS;
    }

    /// Adds the words of so many lines.
    #[inline(always)]
    pub(crate) fn push_lines(&mut self, lines: &[Line], count: usize)
        requires has { count ≤ length lines.now }
        requires room { length self.old + LINE_WORDS * count ≤ MOST_WORDS }
        ensures { self.new ≡ self.old ++ words_in lines.now count }
    {
        let words = lines[..count].as_flattened();
        let start = self.count();
        let end = start + words.len();
        self.words[start..end].copy_from_slice(words);
        self.len = end;
    }

    /// Forgets the words.
    pub(crate) fn clear(&mut self)
        ensures { self.new ≡ [] }
    {
        self.len = 0;
    }

    /// The words in their order.
    #[inline(always)]
    pub(crate) fn as_slice(&self) -> &[u64]
        ensures same { result.now ≡ self.now }
        ensures few { length self.now ≤ MOST_WORDS }
    {
        &self.words[..self.len]
    }

    /// Word `i`.
    pub(crate) fn at(&self, i: usize) -> u64
        requires { i < length self.now }
        ensures { result ≡ slice_index self.now i }
    {
        self.as_slice()[i]
    }

    /// The words of a line, from word `first` on.
    #[tactic(auto, using(crate::proofs::Lines::eight_of))]
    pub(crate) fn line(&self, first: usize) -> Line
        requires { first + LINE_WORDS ≤ length self.now }
        ensures { result ≡ slice_range self.now first (first + LINE_WORDS) }
    {
        let words = self.as_slice();
        let mut line = [0; LINE_WORDS];
        line.copy_from_slice(&words[first..first + LINE_WORDS]);
        line
    }

    /// Byte `b` of the words.
    fn byte(&self, b: usize) -> u8
        requires { b < 8 * length self.now }
        ensures { result ≡ byte_in self.now b }
    {
        byte_of(self.at(b / 8), b % 8)
    }

    /// Copies bytes of the words, from byte `first` on.
    pub(crate) fn copy_bytes(&self, first: usize, bytes: &mut [u8])
        requires { first + length bytes.old ≤ 8 * length self.now }
        ensures count { length bytes.new ≡ length bytes.old }
        ensures each { (i : ℕ) → i < length bytes.old → slice_index bytes.new i ≡ byte_in self.now (first + i) }
    {
        let _words = self.as_slice();
        'bytes: for i in 0..bytes.len() {
            bytes[i] = self.byte(first + i);
        }
    }
}
