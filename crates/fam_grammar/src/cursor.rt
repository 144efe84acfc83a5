//! Reading a line from the left, word by word. `specs/Cursor.antt` says what each call gives.

ghost use Rattle.std.specs.Prelude.{◌≡◌, ◌≤◌, ◌+◌, ◌^◌, ◌<◌, ◌∷◌, length, List, Option};
ghost use Rattle.fam_grammar.specs.Cursor.{words_left, seen, BeginsWithWord, IsShort, IsNext, IsExpected, Tells, prefix_length};
ghost use Rattle.fam_grammar.specs.Reading.{fitting_word, ends_with, word_of};
ghost use Rattle.fam_grammar.specs.Keywords.{event_word, command_word};
ghost use Rattle.fam_grammar.specs.Numbers.{number_of_text, size_of_text};
ghost use Rattle.fam_grammar.specs.Spellings.{count_of, file_of, mask_of, name_of, path_of, steps_of, uuid_of};
ghost use Rattle.fam_grammar.specs.Words.{Word as SharedState, is_blank};

use crate::fault::LineFault;
use crate::keywords::{CommandWord, EventWord, command_word, event_word};
use crate::numbers::{number, size};
use crate::spellings::{count_of, file_of, mask_of, name_of, path_of, steps_of, uuid_of};
use crate::words::{Line, Word, Words};
use fam_base::{HostName, NameText, Path};
use std::alloc::Global;
use uuid::Uuid;

fn is_blank(byte: u8) -> bool
    ensures { result ≡ is_blank byte }
{
    byte == b' ' || byte == b'\t'
}

/// How many bytes stand in front of the first blank.
fn prefix_length(bytes: &[u8]) -> usize
    ensures count { result ≡ prefix_length bytes.now }
    ensures within { result ≤ length bytes.now }
{
    let mut rest = bytes;
    let mut count = 0;
    while let [first, more @ ..] = rest {
        if is_blank(*first) {
            break;
        }
        rest = more;
        count += 1;
    }
    count
}

/// The words without the blanks in front.
fn without_blanks(words: Words<'_>) -> Words<'_>
    requires { IsShort words }
    ensures same { words_left result ≡ words_left words.entry }
    ensures short { IsShort result }
    ensures begins { 0 < length result.bytes.now → BeginsWithWord result.bytes.now }
{
    let mut left = words;
    while let [first, more @ ..] = left.bytes {
        if !is_blank(*first) {
            break;
        }
        left = Words {
            column: left.column + 1,
            bytes: more,
        };
    }
    left
}

/// The first of the words that are left, and those behind it.
fn first_word(words: Words<'_>) -> (Word<'_>, Words<'_>)
    requires short { IsShort words }
    requires begins { BeginsWithWord words.bytes.now }
    ensures first { words_left words.entry ≡ seen result.0 ∷ words_left result.1 }
    ensures short { IsShort result.1 }
{
    let length = prefix_length(words.bytes);
    let word = Word {
        column: words.column,
        text: &words.bytes[..length],
    };
    let rest = Words {
        column: words.column + length as u64,
        bytes: &words.bytes[length..],
    };
    (word, rest)
}

impl<'a> Words<'a> {
    /// The next word, if there is one.
    pub fn next(&mut self) -> Option<Word<'a>>
        requires short { IsShort self.old }
        ensures value { IsNext (words_left self.old) (words_left self.new) result }
        ensures short { IsShort self.new }
    {
        let words = without_blanks(*self);
        if words.bytes.is_empty() {
            *self = words;
            return None;
        }
        let (word, rest) = first_word(words);
        *self = rest;
        Some(word)
    }
}

/// A word's value, where it is spelled so.
pub fn fitting<T: Drop>(line: Line, column: u64, spelled: Option<T>) -> Result<T, LineFault>
    ensures { (rest : List SharedState) → Tells line rest result (fitting_word spelled column rest) }
{
    match spelled {
        Some(value) => Ok(value),
        None => Err(LineFault::BadLine {
            line: line.number,
            column,
        }),
    }
}

impl<'a> Words<'a> {
    /// The next word, which has to be there.
    pub fn expected(&mut self, line: Line) -> Result<Word<'a>, LineFault>
        requires short { IsShort self.old }
        ensures value { IsExpected line (words_left self.old) (words_left self.new) result }
        ensures short { IsShort self.new }
    {
        match self.next() {
            Some(word) => Ok(word),
            None => Err(LineFault::BadLine {
                line: line.number,
                column: line.end,
            }),
        }
    }

    /// A value with no word behind it.
    pub fn ended<T: Drop>(&mut self, line: Line, value: T) -> Result<T, LineFault>
        requires short { IsShort self.old }
        ensures value { Tells line (words_left self.new) result (ends_with value (words_left self.old)) }
        ensures short { IsShort self.new }
    {
        match self.next() {
            None => Ok(value),
            Some(word) => Err(LineFault::BadLine {
                line: line.number,
                column: word.column,
            }),
        }
    }

    /// A host's name.
    pub fn name(&mut self, line: Line) -> Result<HostName, LineFault>
        requires short { IsShort self.old }
        ensures value { Tells line (words_left self.new) result (word_of name_of line.end (words_left self.old)) }
        ensures short { IsShort self.new }
    {
        match self.expected(line) {
            Ok(word) => fitting(line, word.column, name_of(word.text)),
            Err(fault) => Err(fault),
        }
    }

    /// A UUID.
    pub fn uuid(&mut self, line: Line) -> Result<Uuid, LineFault>
        requires short { IsShort self.old }
        ensures value { Tells line (words_left self.new) result (word_of uuid_of line.end (words_left self.old)) }
        ensures short { IsShort self.new }
    {
        match self.expected(line) {
            Ok(word) => fitting(line, word.column, uuid_of(word.text)),
            Err(fault) => Err(fault),
        }
    }

    /// A path.
    pub fn path(&mut self, line: Line) -> Result<Path, LineFault>
        requires short { IsShort self.old }
        ensures value { Tells line (words_left self.new) result (word_of path_of line.end (words_left self.old)) }
        ensures short { IsShort self.new }
    {
        match self.expected(line) {
            Ok(word) => fitting(line, word.column, path_of(word.text)),
            Err(fault) => Err(fault),
        }
    }

    /// A size in bytes.
    pub fn size(&mut self, line: Line) -> Result<u64, LineFault>
        requires short { IsShort self.old }
        ensures value { Tells line (words_left self.new) result (word_of size_of_text line.end (words_left self.old)) }
        ensures short { IsShort self.new }
    {
        match self.expected(line) {
            Ok(word) => fitting(line, word.column, size(word.text)),
            Err(fault) => Err(fault),
        }
    }

    /// A number.
    pub fn number(&mut self, line: Line) -> Result<u64, LineFault>
        requires short { IsShort self.old }
        ensures value { Tells line (words_left self.new) result (word_of number_of_text line.end (words_left self.old)) }
        ensures short { IsShort self.new }
    {
        match self.expected(line) {
            Ok(word) => fitting(line, word.column, number(word.text)),
            Err(fault) => Err(fault),
        }
    }

    /// The count of a read.
    pub fn count(&mut self, line: Line) -> Result<u64, LineFault>
        requires short { IsShort self.old }
        ensures value { Tells line (words_left self.new) result (word_of count_of line.end (words_left self.old)) }
        ensures short { IsShort self.new }
    {
        match self.expected(line) {
            Ok(word) => fitting(line, word.column, count_of(word.text)),
            Err(fault) => Err(fault),
        }
    }

    /// The count of a step.
    pub fn steps(&mut self, line: Line) -> Result<u64, LineFault>
        requires short { IsShort self.old }
        ensures value { Tells line (words_left self.new) result (word_of steps_of line.end (words_left self.old)) }
        ensures short { IsShort self.new }
    {
        match self.expected(line) {
            Ok(word) => fitting(line, word.column, steps_of(word.text)),
            Err(fault) => Err(fault),
        }
    }

    /// A mask of a line's words.
    pub fn mask(&mut self, line: Line) -> Result<u8, LineFault>
        requires short { IsShort self.old }
        ensures value { Tells line (words_left self.new) result (word_of mask_of line.end (words_left self.old)) }
        ensures short { IsShort self.new }
    {
        match self.expected(line) {
            Ok(word) => fitting(line, word.column, mask_of(word.text)),
            Err(fault) => Err(fault),
        }
    }

    /// The name of an event.
    pub(crate) fn event(&mut self, line: Line) -> Result<EventWord, LineFault>
        requires short { IsShort self.old }
        ensures value { Tells line (words_left self.new) result (word_of event_word line.end (words_left self.old)) }
        ensures short { IsShort self.new }
    {
        match self.expected(line) {
            Ok(word) => fitting(line, word.column, event_word(word.text)),
            Err(fault) => Err(fault),
        }
    }

    /// The name of a command.
    pub fn command(&mut self, line: Line) -> Result<CommandWord, LineFault>
        requires short { IsShort self.old }
        ensures value { Tells line (words_left self.new) result (word_of command_word line.end (words_left self.old)) }
        ensures short { IsShort self.new }
    {
        match self.expected(line) {
            Ok(word) => fitting(line, word.column, command_word(word.text)),
            Err(fault) => Err(fault),
        }
    }

    /// The name of a file.
    pub fn file(&mut self, alloc: Global, line: Line) -> Result<NameText, LineFault>
        requires short { IsShort self.old }
        ensures value { Tells line (words_left self.new) result (word_of file_of line.end (words_left self.old)) }
        ensures short { IsShort self.new }
    {
        let word = self.expected(line)?;
        match file_of(alloc, word.text) {
            Ok(name) => fitting(line, word.column, name),
            Err(_) => Err(LineFault::OutOfMemory),
        }
    }
}
