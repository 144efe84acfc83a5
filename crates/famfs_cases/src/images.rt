//! Statements that change the image.

ghost use Rattle.std.specs.Prelude.{◌<◌, ◌≤◌, ◌^◌};

use crate::bytes::{push, put};
use crate::state::{State, first_lines, line_at, put_line};
use crate::stop::Stop;
use crate::words::Words;
use fam_base::{Entry, LineNo};
use fam_crc::crc_words;
use fam_entry::spell;
use fam_format::{FIRST_FORMAT, LOG_LINE, SECOND_FORMAT, shape_of};
use fam_media::{Media, MemMedia};
use fam_tree::{ListingFault, read_listing};
use std::alloc::Global;
use std::mem;

/// One more than the most lines of a case's image, which are 64 MiB.
const LINE_LIMIT: u64 = 1_048_577;

/// One more than the number of the last slot of any log.
const SLOT_LIMIT: u64 = 131_072;

/// An image of zeros, of so many lines as the words say.
fn blank(alloc: Global, words: &mut Words<'_>) -> Result<MemMedia, Stop> {
    let lines = words.below(LINE_LIMIT)?;
    words.ended()?;
    Ok(MemMedia::new(alloc, lines)?)
}

/// The image and the other one change places.
fn swap(state: &mut State, words: &mut Words<'_>) -> Result<(), Stop> {
    words.ended()?;
    mem::swap(&mut state.media, &mut state.other);
    Ok(())
}

/// One number as each word.
fn fill(state: &mut State, words: &mut Words<'_>) -> Result<(), Stop> {
    let value = words.last_number()?;
    for at in 0..state.media.lines() {
        if !put_line(&mut state.media, at, &[value; 8]) {
            return Err(words.refused());
        }
    }
    Ok(())
}

/// One word of a line.
fn word(state: &mut State, words: &mut Words<'_>) -> Result<(), Stop> {
    let at = words.below(state.media.lines())?;
    let place = words.below(8)? as usize;
    let value = words.number()?;
    words.ended()?;
    let mut line = state.media.line(LineNo(at));
    line[place] = value;
    if put_line(&mut state.media, at, &line) {
        Ok(())
    } else {
        Err(words.refused())
    }
}

/// One byte of the image.
fn byte(state: &mut State, words: &mut Words<'_>) -> Result<(), Stop> {
    let offset = words.number()?;
    let value = words.byte()?;
    words.ended()?;
    let Some(mut line) = line_at(&state.media, offset / 64) else {
        return Err(words.refused());
    };
    let place = (offset % 64 / 8) as usize;
    let mut bytes = line[place].to_le_bytes();
    bytes[(offset % 8) as usize] = value;
    line[place] = u64::from_le_bytes(bytes);
    if put_line(&mut state.media, offset / 64, &line) {
        Ok(())
    } else {
        Err(words.refused())
    }
}

/// The first entry of a listing's line, which is all that stands in the words.
pub fn listed_entry(alloc: Global, words: &mut Words<'_>) -> Result<Entry, Stop> {
    let word = words.rest();
    let mut listing = Vec::new(alloc);
    put(&mut listing, b"played 1\n")?;
    put(&mut listing, word.text)?;
    put(&mut listing, b"\n")?;
    match read_listing(alloc, listing.as_slice()) {
        Ok(entries) => words.fitting(word, entries.first().copied()),
        Err(ListingFault::BadListing(_)) => Err(words.bad(word.column)),
        Err(ListingFault::OutOfMemory) => Err(Stop::OutOfMemory),
    }
}

/// The format that the superblock's version names, the first one where it names none.
fn format_of(media: &MemMedia) -> u64 {
    match line_at(media, 1) {
        Some(line) if line[0] == SECOND_FORMAT => SECOND_FORMAT,
        _ => FIRST_FORMAT,
    }
}

/// The first line of a slot.
fn slot_line(slot: u64, lines: u64) -> u64
    requires slot { slot < SLOT_LIMIT }
    requires few { lines ≤ 16 }
    ensures { result < 2 ^ 32 }
{
    LOG_LINE + lines + lines * slot
}

/// Writes the words of a slot, which has so many lines.
fn put_slot(media: &mut MemMedia, slot: u64, lines: u64, words: &[u64]) -> bool
    requires slot { slot < SLOT_LIMIT }
    requires few { lines ≤ 16 }
{
    for j in 0..lines {
        let first = 8 * j as usize;
        let mut line = [0; 8];
        if let Some(part) = words.get(first..first + 8) {
            line.copy_from_slice(part);
        }
        if !put_line(media, slot_line(slot, lines) + j, &line) {
            return false;
        }
    }
    true
}

/// A slot that holds an entry.
fn entry(alloc: Global, state: &mut State, words: &mut Words<'_>) -> Result<(), Stop> {
    let slot = words.below(SLOT_LIMIT)?;
    let seq = words.number()?;
    let entry = listed_entry(alloc, words)?;
    let format = format_of(&state.media);
    let spelling = spell(&entry, seq, format);
    let lines = shape_of(format).lines;
    if put_slot(&mut state.media, slot, lines, spelling.words()) {
        Ok(())
    } else {
        Err(words.refused())
    }
}

/// Puts the checksum of all words of some lines but the last one there, where the image has them.
fn put_checksum(alloc: Global, media: &mut MemMedia, first: u64, count: u64) -> Result<bool, Stop> {
    let mut all = Vec::new(alloc);
    let mut last = [0; 8];
    for i in 0..count {
        let Some(line) = line_at(media, first.saturating_add(i)) else {
            return Ok(false);
        };
        for word in line {
            push(&mut all, word)?;
        }
        last = line;
    }
    let Some((_, summed)) = all.as_slice().split_last() else {
        return Ok(false);
    };
    last[7] = crc_words(summed) as u64;
    Ok(put_line(media, first.saturating_add(count.saturating_sub(1)), &last))
}

/// A checksum that fits again.
fn mend(alloc: Global, state: &mut State, words: &mut Words<'_>) -> Result<(), Stop> {
    let part = words.expected()?;
    let (first, count) = match part.text {
        b"super" => (1, 2),
        b"log" => (LOG_LINE, 1),
        b"slot" => {
            let slot = words.below(SLOT_LIMIT)?;
            let lines = shape_of(format_of(&state.media)).lines;
            (slot_line(slot, lines), lines)
        }
        _ => return Err(words.bad(part.column)),
    };
    words.ended()?;
    if put_checksum(alloc, &mut state.media, first, count)? {
        Ok(())
    } else {
        Err(words.refused())
    }
}

/// Does a statement on the image, and answers whether the name is one.
pub fn change_image(
    alloc: Global,
    state: &mut State,
    name: &[u8],
    words: &mut Words<'_>,
) -> Result<bool, Stop> {
    match name {
        b"image" => state.media = blank(alloc, words)?,
        b"other" => state.other = blank(alloc, words)?,
        b"swap" => swap(state, words)?,
        b"fill" => fill(state, words)?,
        b"shorten" => state.media = first_lines(alloc, &state.media, words.last_number()?)?,
        b"word" => word(state, words)?,
        b"byte" => byte(state, words)?,
        b"entry" => entry(alloc, state, words)?,
        b"mend" => mend(alloc, state, words)?,
        _ => return Ok(false),
    }
    Ok(true)
}
