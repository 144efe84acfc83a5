//! What a loop goes over.

ghost use Rattle.std.specs.Prelude.{◌≤◌, ◌<◌, IfOk, length, vec_len};

use crate::bytes::{copied, push};
use crate::lines::SourceLine;
use crate::stop::Stop;
use crate::values::Values;
use crate::words::Words;
use std::alloc::Global;

/// The most numbers that one loop goes over.
const MOST_NUMBERS: u64 = 1_000_000;

/// The names of a loop, and rows of as many values.
#[derive(Drop)]
pub struct Rows {
    pub names: Vec<Vec<u8>>,
    /// Row behind row.
    pub values: Vec<Vec<u8>>,
    /// How many lines behind the `each` are rows.
    pub lines: usize,
}

/// How a loop's values are given.
enum Source {
    /// Behind `in`.
    Words,
    /// From one number to another.
    Numbers,
    /// Row by row, on lines of their own.
    Lines,
}

/// Where a loop's values are, if a word says so.
fn source_of(word: &[u8]) -> Option<Source> {
    match word {
        b"in" => Some(Source::Words),
        b"from" => Some(Source::Numbers),
        _ => None,
    }
}

/// The names up to the word that says where the values are.
fn names(alloc: Global, words: &mut Words<'_>, names: &mut Vec<Vec<u8>>) -> Result<Source, Stop> {
    while let Some(word) = words.next() {
        if let Some(source) = source_of(word.text) {
            return Ok(source);
        }
        push(names, copied(alloc, word.text)?)?;
    }
    Ok(Source::Lines)
}

/// The words that are left, as they are written.
fn listed(alloc: Global, words: &mut Words<'_>, values: &mut Vec<Vec<u8>>) -> Result<(), Stop> {
    while let Some(word) = words.next() {
        push(values, copied(alloc, word.text)?)?;
    }
    Ok(())
}

/// The numbers from one to another, both among them.
fn numbered(alloc: Global, words: &mut Words<'_>, values: &mut Vec<Vec<u8>>) -> Result<(), Stop> {
    let from = words.below(MOST_NUMBERS)?;
    let word = words.expected()?;
    if word.text != b"to".as_slice() {
        return Err(words.bad(word.column));
    }
    let to = words.below(MOST_NUMBERS)?;
    words.ended()?;
    for number in from..to + 1 {
        push(values, format!(in alloc; "{number}")?.into_bytes())?;
    }
    Ok(())
}

/// The values of one row, with bars between them. One value alone may have bars.
fn row(alloc: Global, text: &[u8], alone: bool, values: &mut Vec<Vec<u8>>) -> Result<(), Stop> {
    if alone {
        return push(values, copied(alloc, text.trim_ascii())?);
    }
    for piece in text.split(|byte| *byte == b'|') {
        push(values, copied(alloc, piece.trim_ascii())?)?;
    }
    Ok(())
}

/// The rows in front of some lines, and how many they are.
fn rows_in_front(
    alloc: Global,
    around: &Values,
    lines: &[SourceLine<'_>],
    alone: bool,
    values: &mut Vec<Vec<u8>>,
) -> Result<usize, Stop>
    ensures { IfOk result (λ count. count ≤ length lines.now) }
{
    for (at, line) in lines.iter().enumerate() {
        if !line.begins_with(b"-") {
            return Ok(at);
        }
        let text = around.put_into(alloc, line.text)?;
        let mut words = Words::new(line.number, line.column, text.as_slice());
        let _dash = words.next();
        row(alloc, words.rest().text, alone, values)?;
    }
    Ok(lines.len())
}

/// The names and values of a loop, of which the words of its `each` are left, and whose body is in front of `lines`.
pub fn rows_of(
    alloc: Global,
    around: &Values,
    words: &mut Words<'_>,
    lines: &[SourceLine<'_>],
) -> Result<Rows, Stop>
    ensures lines { IfOk result (λ rows. rows.lines ≤ length lines.now) }
    ensures names { IfOk result (λ rows. 0 < vec_len rows.names) }
{
    let mut rows = Rows {
        names: Vec::new(alloc),
        values: Vec::new(alloc),
        lines: 0,
    };
    let source = names(alloc, words, &mut rows.names)?;
    let width = rows.names.len();
    match source {
        Source::Words => listed(alloc, words, &mut rows.values)?,
        Source::Numbers => numbered(alloc, words, &mut rows.values)?,
        Source::Lines => {
            rows.lines = rows_in_front(alloc, around, lines, width == 1, &mut rows.values)?;
        }
    }
    if width == 0 || rows.values.len() % width != 0 {
        return Err(words.refused());
    }
    Ok(rows)
}
