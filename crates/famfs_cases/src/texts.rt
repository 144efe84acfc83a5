//! Text lines: what stands in a file of the shelf, and what is expected of a run.

ghost use Rattle.std.specs.Prelude.{◌≤◌, IfOk, length};

use crate::bytes::{push, put};
use crate::lines::SourceLine;
use crate::stop::Stop;
use crate::values::{Values, replaced};
use crate::words::{Word, Words};
use std::alloc::Global;

/// The most bytes or lines that one text line repeats.
const MOST_TIMES: u64 = 10_000_000;

/// Puts the bytes that a word spells, and a line feed behind it where that is asked for.
fn put_word(
    alloc: Global,
    words: &Words<'_>,
    word: Word<'_>,
    feed: bool,
    into: &mut Vec<u8>,
) -> Result<(), Stop> {
    let bytes = words.bytes(alloc, word)?;
    put(into, bytes.as_slice())?;
    if feed {
        put(into, b"\n")?;
    }
    Ok(())
}

/// Puts a text so many times, with the number of each time, from 0, for `$i`.
fn put_times(alloc: Global, words: &mut Words<'_>, into: &mut Vec<u8>) -> Result<(), Stop> {
    let count = words.below(MOST_TIMES)?;
    let word = words.rest();
    for i in 0..count {
        let number = format!(in alloc; "{i}")?;
        let text = replaced(alloc, word.text, b"i", number.as_bytes())?;
        let word = Word {
            column: word.column,
            text: text.as_slice(),
        };
        put_word(alloc, words, word, true, into)?;
    }
    Ok(())
}

/// Puts a byte so many times.
fn put_padding(words: &mut Words<'_>, into: &mut Vec<u8>) -> Result<(), Stop> {
    let count = words.below(MOST_TIMES)?;
    let byte = words.byte()?;
    words.ended()?;
    for _ in 0..count {
        push(into, byte)?;
    }
    Ok(())
}

/// Puts what a text line says. Another line is none, and puts nothing.
fn put_text_line(alloc: Global, words: &mut Words<'_>, into: &mut Vec<u8>) -> Result<bool, Stop> {
    let name = words.expected()?;
    match name.text {
        b"|" => {
            let word = words.rest();
            put_word(alloc, words, word, true, into)?;
        }
        b":" => {
            let word = words.rest();
            put_word(alloc, words, word, false, into)?;
        }
        b"times" => put_times(alloc, words, into)?,
        b"pad" => put_padding(words, into)?,
        _ => return Ok(false),
    }
    Ok(true)
}

/// What the text lines in front say, and how many they are.
pub fn text_in_front(
    alloc: Global,
    values: &Values,
    lines: &[SourceLine<'_>],
) -> Result<(Vec<u8>, usize), Stop>
    ensures { IfOk result (λ found. found.1 ≤ length lines.now) }
{
    let mut bytes = Vec::new(alloc);
    for (at, line) in lines.iter().enumerate() {
        let text = values.put_into(alloc, line.text)?;
        let mut words = Words::new(line.number, line.column, text.as_slice());
        if !put_text_line(alloc, &mut words, &mut bytes)? {
            return Ok((bytes, at));
        }
    }
    Ok((bytes, lines.len()))
}
