//! What is printed of an image.

use crate::bytes::{push, put, put_number};
use crate::state::line_at;
use crate::stop::Stop;
use fam_base::Line;
use fam_media::{Media, MemMedia};
use std::alloc::Global;

/// Puts words in hexadecimal digits, each behind a space, and a line feed.
pub fn put_words(alloc: Global, into: &mut Vec<u8>, words: &[u64]) -> Result<(), Stop> {
    for (i, word) in words.iter().enumerate() {
        if i != 0 {
            put(into, b" ")?;
        }
        let text = format!(in alloc; "{word:x}")?;
        put(into, text.as_bytes())?;
    }
    put(into, b"\n")
}

/// Puts so many lines of an image from one on, each with its number.
pub fn put_lines(
    alloc: Global,
    into: &mut Vec<u8>,
    media: &MemMedia,
    first: u64,
    count: u64,
) -> Result<(), Stop> {
    for i in 0..count {
        let at = first.saturating_add(i);
        let Some(line) = line_at(media, at) else {
            return Ok(());
        };
        put_number(alloc, into, at)?;
        put(into, b": ")?;
        put_words(alloc, into, &line)?;
    }
    Ok(())
}

/// All lines of an image.
pub fn all_lines(alloc: Global, media: &MemMedia) -> Result<Vec<Line>, Stop> {
    let mut lines = Vec::new(alloc);
    for at in 0..media.lines() {
        if let Some(line) = line_at(media, at) {
            push(&mut lines, line)?;
        }
    }
    Ok(lines)
}

/// Whether a line of an image isn't the marked one, or only one of both is there.
fn is_changed(marked: &[Line], media: &MemMedia, at: u64) -> bool {
    marked.get(at as usize).copied() != line_at(media, at)
}

/// Puts a range of lines behind a space, the last of which stands in front of `end`.
fn put_range(alloc: Global, into: &mut Vec<u8>, first: u64, end: u64) -> Result<(), Stop> {
    put(into, b" ")?;
    put_number(alloc, into, first)?;
    let last = end.saturating_sub(1);
    if first < last {
        put(into, b"-")?;
        put_number(alloc, into, last)?;
    }
    Ok(())
}

/// Puts the ranges of the lines that changed since the mark, each behind a space, or that there are none.
pub fn put_changes(
    alloc: Global,
    into: &mut Vec<u8>,
    marked: &[Line],
    media: &MemMedia,
) -> Result<(), Stop> {
    put(into, b"changed")?;
    let before = into.len();
    let end = media.lines().max(marked.len() as u64);
    let mut first = None;
    for at in 0..end {
        if !is_changed(marked, media, at) {
            if let Some(first) = first.take() {
                put_range(alloc, into, first, at)?;
            }
        } else if first.is_none() {
            first = Some(at);
        }
    }
    if let Some(first) = first {
        put_range(alloc, into, first, end)?;
    }
    put(
        into,
        if into.len() == before {
            b" none\n"
        } else {
            b"\n"
        },
    )
}
