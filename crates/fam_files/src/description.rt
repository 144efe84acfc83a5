//! Whether a file is the description of one in a tree, as a shadow writes it.

use std::fs::File;
use std::os::unix::fs::FileExt;

/// The bytes that every description begins with: its first line, and the kind of the entry.
const START: &[u8] = b"famfs shadow 1\nf ";

/// The words behind the kind: mode, user, group, size, map and path.
const WORDS: u32 = 6;

/// More bytes than any description has: a path has at most 512, each of which is printed as up to four, and a map at most
/// sixteen extents of two numbers.
const ROOM_BYTES: usize = 4096;

/// Whether a byte may stand in this word behind the kind: four numbers, a map, and a path.
fn is_of_word(word: u32, byte: u8) -> bool {
    match word {
        0..=3 => byte.is_ascii_digit(),
        4 => byte.is_ascii_digit() || matches!(byte, b'+' | b',' | b':' | b'-'),
        5 => byte.is_ascii_graphic(),
        _ => false,
    }
}

/// How many words these are, where they are the first ones behind the kind.
fn words_of(text: &[u8]) -> Option<u32> {
    let mut word = 0u32;
    for byte in text {
        if *byte == b' ' {
            word = word.saturating_add(1);
        } else if !is_of_word(word, *byte) {
            return None;
        }
    }
    Some(word.saturating_add(1))
}

/// Whether bytes are a description or the front of one, as a run that stopped leaves it: the first line, and an entry's
/// line with nothing behind it.
fn is_front(bytes: &[u8]) -> bool {
    let known = bytes.len().min(START.len());
    if bytes[..known] != START[..known] {
        return false;
    }
    match bytes[known..].strip_suffix(b"\n") {
        Some(line) => words_of(line) == Some(WORDS),
        None => match words_of(&bytes[known..]) {
            Some(words) => words <= WORDS,
            None => false,
        },
    }
}

/// Whether a file of so many bytes holds a description or the front of one, as an empty file does. One that can't be read
/// doesn't.
pub fn is_description(file: &File, length: u64) -> bool {
    let mut room = [0u8; ROOM_BYTES];
    if length > ROOM_BYTES as u64 {
        return false;
    }
    let bytes = &mut room[..length as usize];
    file.read_exact_at(bytes, 0).is_ok() && is_front(bytes)
}
