//! Calls of single libraries, whose published values and worked rows cases print.

ghost use Rattle.std.specs.Prelude.{◌*◌, ◌<◌};

use crate::bytes::{put, put_number};
use crate::images::listed_entry;
use crate::show::put_words;
use crate::state::State;
use crate::stop::Stop;
use crate::words::Words;
use fam_base::{Content, HostName, Line, Path, strip_units, units_of};
use fam_content::ContentStream;
use fam_crc::crc_more;
use fam_entry::spell;
use fam_format::FIRST_FORMAT;
use fam_grammar::{LineFault, read_line};
use fam_top::image_of;
use fam_tree::{ListingFault, read_listing};
use std::alloc::Global;

/// The most lines of a file's content that are passed to print one.
const MOST_LINES: u64 = 1_000_000;

/// The CRC-32 of bytes.
pub fn crc_of(bytes: &[u8]) -> u32 {
    crc_more(0, bytes)
}

/// The bytes that the rest of a line spells.
fn rest_bytes(alloc: Global, words: &mut Words<'_>) -> Result<Vec<u8>, Stop> {
    let word = words.rest();
    words.bytes(alloc, word)
}

/// The CRC-32 of a text.
fn crc(alloc: Global, words: &mut Words<'_>, into: &mut Vec<u8>) -> Result<(), Stop> {
    let bytes = rest_bytes(alloc, words)?;
    put_number(alloc, into, crc_of(bytes.as_slice()) as u64)?;
    put(into, b"\n")
}

/// A path and its parent in print.
fn path(alloc: Global, words: &mut Words<'_>, into: &mut Vec<u8>) -> Result<(), Stop> {
    let bytes = rest_bytes(alloc, words)?;
    let Ok(path) = Path::read(bytes.as_slice()) else {
        return put(into, b"bad path\n");
    };
    put(into, path.escaped(alloc)?.as_slice())?;
    match path.parent() {
        Some(parent) => {
            put(into, b" in ")?;
            put(into, parent.escaped(alloc)?.as_slice())?;
        }
        None => put(into, b" in the root")?,
    }
    put(into, b"\n")
}

/// The name of a host.
fn name(alloc: Global, words: &mut Words<'_>, into: &mut Vec<u8>) -> Result<(), Stop> {
    let bytes = rest_bytes(alloc, words)?;
    match HostName::read(bytes.as_slice()) {
        Ok(name) => put(into, name.bytes())?,
        Err(_) => put(into, b"bad name")?,
    }
    put(into, b"\n")
}

/// A line of a content, as a file of so many bytes has it.
fn content_line(content: &Content, size: u64, last: u64) -> Line
    requires { 64 * last < size }
{
    let mut stream = ContentStream::new(content);
    'lines: for _given in 0..last {
        let _passed = stream.line(content, size);
    }
    stream.line(content, size)
}

/// A line of the content of a seed.
fn content(alloc: Global, words: &mut Words<'_>, into: &mut Vec<u8>) -> Result<(), Stop> {
    let content = Content::Seed(words.number()?);
    let size = words.number()?;
    let last = words.below(MOST_LINES)?;
    words.ended()?;
    if 64 * last >= size {
        return Err(words.refused());
    }
    put_words(alloc, into, &content_line(&content, size, last))
}

/// The image that the words of a call name.
fn named(alloc: Global, words: &mut Words<'_>, into: &mut Vec<u8>) -> Result<(), Stop> {
    let texts = words.texts(alloc)?;
    match image_of(alloc, &texts)? {
        Some(name) => put(into, name.text().as_bytes())?,
        None => put(into, b"none")?,
    }
    put(into, b"\n")
}

/// Whether a text is a line of a script.
fn script_line(alloc: Global, words: &mut Words<'_>, into: &mut Vec<u8>) -> Result<(), Stop> {
    let bytes = rest_bytes(alloc, words)?;
    match read_line(alloc, bytes.as_slice(), 1) {
        Ok(None) => put(into, b"none\n"),
        Ok(Some(_)) => put(into, b"event\n"),
        Err(LineFault::BadLine { line, column }) => {
            put(into, b"bad line ")?;
            put_number(alloc, into, line)?;
            put(into, b" ")?;
            put_number(alloc, into, column)?;
            put(into, b"\n")
        }
        Err(LineFault::OutOfMemory) => Err(Stop::OutOfMemory),
    }
}

/// How many units hold a size.
fn units(alloc: Global, words: &mut Words<'_>, into: &mut Vec<u8>) -> Result<(), Stop> {
    let size = words.number()?;
    let unit = words.number()?;
    words.ended()?;
    if unit == 0 {
        return Err(words.refused());
    }
    put_number(alloc, into, units_of(size, unit))?;
    put(into, b"\n")
}

/// How many units a strip has.
fn strips(alloc: Global, words: &mut Words<'_>, into: &mut Vec<u8>) -> Result<(), Stop> {
    let size = words.number()?;
    let unit = words.number()?;
    let chunk = words.number()?;
    let count = words.number()?;
    words.ended()?;
    if unit == 0 || chunk == 0 || count == 0 || chunk % unit != 0 {
        return Err(words.refused());
    }
    put_number(alloc, into, strip_units(size, unit, chunk, count))?;
    put(into, b"\n")
}

/// How many entries a file of the shelf lists.
fn listing(
    alloc: Global,
    state: &State,
    words: &mut Words<'_>,
    into: &mut Vec<u8>,
) -> Result<(), Stop> {
    let word = words.expected()?;
    let name = words.text(alloc, word)?;
    words.ended()?;
    let Some(bytes) = state.file(name.as_str()) else {
        return Err(words.bad(word.column));
    };
    match read_listing(alloc, bytes) {
        Ok(entries) => put_number(alloc, into, entries.len() as u64)?,
        Err(ListingFault::BadListing(line)) => {
            put(into, b"bad listing ")?;
            put_number(alloc, into, line)?;
        }
        Err(ListingFault::OutOfMemory) => return Err(Stop::OutOfMemory),
    }
    put(into, b"\n")
}

/// The words of a slot.
fn spelled(alloc: Global, words: &mut Words<'_>, into: &mut Vec<u8>) -> Result<(), Stop> {
    let seq = words.number()?;
    let entry = listed_entry(alloc, words)?;
    let spelling = spell(&entry, seq, FIRST_FORMAT);
    for line in spelling.words().chunks(8) {
        put_words(alloc, into, line)?;
    }
    Ok(())
}

/// Puts what a call of a library gives, and answers whether the name is one.
pub fn leaf(
    alloc: Global,
    state: &State,
    called: &[u8],
    words: &mut Words<'_>,
    into: &mut Vec<u8>,
) -> Result<bool, Stop> {
    match called {
        b"crc" => crc(alloc, words, into)?,
        b"path" => path(alloc, words, into)?,
        b"name" => name(alloc, words, into)?,
        b"content" => content(alloc, words, into)?,
        b"named" => named(alloc, words, into)?,
        b"line" => script_line(alloc, words, into)?,
        b"units" => units(alloc, words, into)?,
        b"strips" => strips(alloc, words, into)?,
        b"listing" => listing(alloc, state, words, into)?,
        b"spell" => spelled(alloc, words, into)?,
        _ => return Ok(false),
    }
    Ok(true)
}
