//! The words of a line, from left to right, and what single words spell.

ghost use Rattle.std.specs.Prelude.{◌≡◌, ◌<◌, ◌≤◌, IfOk, IfSome, OnSome, drop, length};

use crate::bytes::{place_of, push};
use crate::stop::Stop;
use fam_grammar::number as decimal;
use std::alloc::Global;
use uuid::Uuid;

/// A word with its column, as it is written.
#[derive(Clone, Copy)]
pub struct Word<'a> {
    pub column: u64,
    pub text: &'a [u8],
}

/// The words of a line that are left.
#[derive(Clone, Copy)]
pub struct Words<'a> {
    line: u64,
    start: u64,
    column: u64,
    left: &'a [u8],
}

/// The value of a hexadecimal digit.
fn hex_digit(byte: u8) -> Option<u8>
    ensures { IfSome result (λ digit. digit < 16) }
{
    match byte {
        b'0'..=b'9' => Some(byte - b'0'),
        b'a'..=b'f' => Some(byte - b'a' + 10),
        b'A'..=b'F' => Some(byte - b'A' + 10),
        _ => None,
    }
}

/// The byte that two hexadecimal digits spell.
fn hex_byte(high: u8, low: u8) -> Option<u8> {
    Some(hex_digit(high)? * 16 + hex_digit(low)?)
}

/// A number with one more hexadecimal digit behind it, where 64 bits hold it.
fn with_hex_digit(number: u64, byte: u8) -> Option<u64> {
    number.checked_mul(16)?.checked_add(hex_digit(byte)? as u64)
}

/// The number that hexadecimal digits spell.
fn hexadecimal(digits: &[u8]) -> Option<u64> {
    if digits.is_empty() {
        return None;
    }
    let mut number = 0;
    for digit in digits {
        number = with_hex_digit(number, *digit)?;
    }
    Some(number)
}

/// The number that a word spells: decimal digits, or hexadecimal ones behind `0x`.
pub fn number_of(word: &[u8]) -> Option<u64> {
    match word {
        [b'0', b'x', digits @ ..] => hexadecimal(digits),
        _ => decimal(word),
    }
}

/// How many bytes stand in front of the first space.
fn word_length(bytes: &[u8]) -> usize
    ensures { result ≤ length bytes.now }
{
    match place_of(bytes, b' ') {
        Some(at) => at,
        None => bytes.len(),
    }
}

impl<'a> Words<'a> {
    /// The words of a text that begins in this line at this column.
    pub fn new(line: u64, column: u64, text: &'a [u8]) -> Words<'a> {
        Words {
            line,
            start: column,
            column,
            left: text,
        }
    }

    /// Passes so many bytes.
    fn pass(&mut self, count: usize)
        requires { count ≤ length self.old.left.now }
        ensures { self.new.left.now ≡ drop count self.old.left.now }
    {
        self.column = self.column.saturating_add(count as u64);
        self.left = &self.left[count..];
    }

    /// The next word, if there is one.
    pub fn next(&mut self) -> Option<Word<'a>>
        ensures { OnSome result (length self.new.left.now < length self.old.left.now) }
    {
        let Some(spaces) = self.left.iter().position(|byte| *byte != b' ') else {
            self.pass(self.left.len());
            return None;
        };
        self.pass(spaces);
        let [_, behind @ ..] = self.left else {
            return None;
        };
        let count = word_length(behind) + 1;
        let word = Word {
            column: self.column,
            text: &self.left[..count],
        };
        self.pass(count);
        Some(word)
    }

    /// A stop at a column of this line.
    pub fn bad(&self, column: u64) -> Stop {
        Stop::BadCase {
            line: self.line,
            column,
        }
    }

    /// A stop at the line's first word.
    pub fn refused(&self) -> Stop {
        self.bad(self.start)
    }

    /// The next word, which has to be there.
    pub fn expected(&mut self) -> Result<Word<'a>, Stop> {
        match self.next() {
            Some(word) => Ok(word),
            None => Err(self.bad(self.column)),
        }
    }

    /// Nothing is to be left.
    pub fn ended(&mut self) -> Result<(), Stop> {
        match self.next() {
            None => Ok(()),
            Some(word) => Err(self.bad(word.column)),
        }
    }

    /// What stands behind one space, as it is written, to the end of the line.
    pub fn rest(&mut self) -> Word<'a> {
        if !self.left.is_empty() {
            self.pass(1);
        }
        let word = Word {
            column: self.column,
            text: self.left,
        };
        self.pass(self.left.len());
        word
    }

    /// A word's value, where it has one.
    pub fn fitting<T: Drop>(&self, word: Word<'_>, value: Option<T>) -> Result<T, Stop> {
        match value {
            Some(value) => Ok(value),
            None => Err(self.bad(word.column)),
        }
    }

    /// A number.
    pub fn number(&mut self) -> Result<u64, Stop> {
        let word = self.expected()?;
        self.fitting(word, number_of(word.text))
    }

    /// A number, behind which nothing is left.
    pub fn last_number(&mut self) -> Result<u64, Stop> {
        let number = self.number()?;
        self.ended()?;
        Ok(number)
    }

    /// A UUID, behind which nothing is left.
    pub fn last_uuid(&mut self) -> Result<Uuid, Stop> {
        let word = self.expected()?;
        let uuid = self.fitting(word, Uuid::try_parse_ascii(word.text).ok())?;
        self.ended()?;
        Ok(uuid)
    }

    /// A number below a limit.
    pub fn below(&mut self, limit: u64) -> Result<u64, Stop>
        ensures { IfOk result (λ number. number < limit) }
    {
        let word = self.expected()?;
        match number_of(word.text) {
            Some(number) if number < limit => Ok(number),
            _ => Err(self.bad(word.column)),
        }
    }

    /// A number of eight bits.
    pub fn byte(&mut self) -> Result<u8, Stop> {
        Ok(self.below(256)? as u8)
    }

    /// The bytes that a word spells: itself, but for `\xHH`, which is a byte, `\\`, which is a backslash, and `\e`, which
    /// is nothing.
    pub fn bytes(&self, alloc: Global, word: Word<'_>) -> Result<Vec<u8>, Stop> {
        let mut bytes = Vec::new(alloc);
        let mut rest = word.text;
        while let Some((byte, more)) = self.first_byte(word, rest)? {
            if let Some(byte) = byte {
                bytes.push(byte).map_err(|_| Stop::OutOfMemory)?;
            }
            rest = more;
        }
        Ok(bytes)
    }

    /// The first byte that the rest of a word spells, and what stands behind it.
    fn first_byte<'b>(
        &self,
        word: Word<'_>,
        rest: &'b [u8],
    ) -> Result<Option<(Option<u8>, &'b [u8])>, Stop>
        ensures { IfOk result (λ first. IfSome first (λ pair. length pair.1.now < length rest.now)) }
    {
        match rest {
            [] => Ok(None),
            [b'\\', b'x', high, low, more @ ..] => {
                let byte = self.fitting(word, hex_byte(*high, *low))?;
                Ok(Some((Some(byte), more)))
            }
            [b'\\', b'\\', more @ ..] => Ok(Some((Some(b'\\'), more))),
            [b'\\', b'e', more @ ..] => Ok(Some((None, more))),
            [b'\\', ..] => Err(self.bad(word.column)),
            [first, more @ ..] => Ok(Some((Some(*first), more))),
        }
    }

    /// The text of a word, where its bytes are UTF-8.
    pub fn text(&self, alloc: Global, word: Word<'_>) -> Result<String, Stop> {
        match String::from_utf8(self.bytes(alloc, word)?) {
            Ok(text) => Ok(text),
            Err(_) => Err(self.bad(word.column)),
        }
    }

    /// The text of the next word, behind which nothing is left.
    pub fn last_text(&mut self, alloc: Global) -> Result<String, Stop> {
        let word = self.expected()?;
        let text = self.text(alloc, word)?;
        self.ended()?;
        Ok(text)
    }

    /// The words that are left, each with the bytes that it spells.
    pub fn texts(&mut self, alloc: Global) -> Result<Vec<String>, Stop> {
        let mut texts = Vec::new(alloc);
        while let Some(word) = self.next() {
            let text = self.text(alloc, word)?;
            push(&mut texts, text)?;
        }
        Ok(texts)
    }
}
