//! The words of an entry in print. `specs/ListedEntries.antt` has them from left to right.

ghost use Rattle.std.specs.Prelude.{◌≡◌, option_map};
ghost use Rattle.fam_base.specs.declared.entry.MapKind.TheVariants.{Simple};
ghost use Rattle.fam_tree.specs.Cuts.{back, front};
ghost use Rattle.fam_grammar.specs.Cursor.{words_left, IsShort, Tells};
ghost use Rattle.fam_grammar.specs.Reading.{word_of};
ghost use Rattle.fam_grammar.specs.Spellings.{id_of, mode_of};
ghost use Rattle.fam_history.specs.ListedEntries.{entry_with, extent_with, first_extent, kind_line, listed_entry, listed_extent, listed_extents, listed_kind, listed_map, striped_with};

use crate::literals::is;
use fam_base::{Attr, Entry, Extent, Extents, Kind, MapKind, Path};
use fam_grammar::{Line, LineFault, Words, fitting, id_of, mode_of, number};

/// What stands in front of the first such byte, or all where there is none, and what stands behind it.
fn cut(bytes: &[u8], mark: u8) -> (&[u8], &[u8])
    ensures front { result.0.now ≡ front mark bytes.now }
    ensures back { result.1.now ≡ back mark bytes.now }
{
    for (i, byte) in bytes.iter().enumerate() {
        if *byte == mark {
            return (&bytes[..i], &bytes[i + 1..]);
        }
    }
    (bytes, &[])
}

/// A kind, by its letter.
fn kind_of(word: &[u8]) -> Option<Kind>
    ensures { result ≡ listed_kind word.now }
{
    if is(word, "d") {
        Some(Kind::Directory)
    } else if is(word, "f") {
        Some(Kind::File)
    } else {
        None
    }
}

/// An offset and a length, where both are there.
fn extent_with(offset: Option<u64>, length: Option<u64>) -> Option<Extent>
    ensures { result ≡ extent_with offset length }
{
    let Some(offset) = offset else {
        return None;
    };
    let Some(length) = length else {
        return None;
    };
    Some(Extent { offset, length })
}

/// An offset and a length, with a plus between.
fn extent_of(word: &[u8]) -> Option<Extent>
    ensures { result ≡ listed_extent word.now }
{
    let (offset, length) = cut(word, b'+');
    extent_with(number(offset), number(length))
}

/// The first extent, and what stands behind its comma, where there is one.
fn first_extent(word: &[u8]) -> Option<(Extent, Option<&[u8]>)>
    ensures { option_map (λ p. (p.0, option_map (λ rest. rest.now) p.1)) result ≡ first_extent word.now }
{
    let (first, rest) = cut(word, b',');
    let Some(extent) = extent_of(first) else {
        return None;
    };
    if first.len() == word.len() {
        return Some((extent, None));
    }
    Some((extent, Some(rest)))
}

/// At least one extent and at most sixteen, with commas between.
fn extents_of(word: &[u8]) -> Option<Extents>
    ensures { result ≡ listed_extents word.now }
{
    let mut extents = Extents::new();
    let mut left = Some(word);
    while let Some(text) = left {
        let Some((extent, rest)) = first_extent(text) else {
            return None;
        };
        if !extents.push(extent) {
            return None;
        }
        left = rest;
    }
    Some(extents)
}

/// The extents of a map that isn't striped.
fn simple(extents: Option<Extents>) -> Option<(MapKind, Extents)>
    ensures { result ≡ option_map (λ xs. (Simple, xs)) extents }
{
    match extents {
        Some(extents) => Some((MapKind::Simple, extents)),
        None => None,
    }
}

/// A chunk and strips, where both are there.
fn striped(chunk: Option<u64>, extents: Option<Extents>) -> Option<(MapKind, Extents)>
    ensures { result ≡ striped_with chunk extents }
{
    let Some(chunk) = chunk else {
        return None;
    };
    let Some(extents) = extents else {
        return None;
    };
    Some((MapKind::Striped { chunk }, extents))
}

/// No map, or one with its extents, behind the chunk and a colon where it is striped.
fn map_of(word: &[u8]) -> Option<(MapKind, Extents)>
    ensures { result ≡ listed_map word.now }
{
    if is(word, "-") {
        return Some((MapKind::Empty, Extents::new()));
    }
    let (chunk, strips) = cut(word, b':');
    if chunk.len() == word.len() {
        return simple(extents_of(word));
    }
    striped(number(chunk), extents_of(strips))
}

/// A kind.
fn next_kind(words: &mut Words<'_>, line: Line) -> Result<Kind, LineFault>
    requires short { IsShort words.old }
    ensures value { Tells line (words_left words.new) result (word_of listed_kind line.end (words_left words.old)) }
    ensures short { IsShort words.new }
{
    match words.expected(line) {
        Ok(word) => fitting(line, word.column, kind_of(word.text)),
        Err(fault) => Err(fault),
    }
}

/// A mode of at most four octal digits.
fn next_mode(words: &mut Words<'_>, line: Line) -> Result<u32, LineFault>
    requires short { IsShort words.old }
    ensures value { Tells line (words_left words.new) result (word_of mode_of line.end (words_left words.old)) }
    ensures short { IsShort words.new }
{
    match words.expected(line) {
        Ok(word) => fitting(line, word.column, mode_of(word.text)),
        Err(fault) => Err(fault),
    }
}

/// A user or a group.
fn next_id(words: &mut Words<'_>, line: Line) -> Result<u32, LineFault>
    requires short { IsShort words.old }
    ensures value { Tells line (words_left words.new) result (word_of id_of line.end (words_left words.old)) }
    ensures short { IsShort words.new }
{
    match words.expected(line) {
        Ok(word) => fitting(line, word.column, id_of(word.text)),
        Err(fault) => Err(fault),
    }
}

/// A map.
fn next_map(words: &mut Words<'_>, line: Line) -> Result<(MapKind, Extents), LineFault>
    requires short { IsShort words.old }
    ensures value { Tells line (words_left words.new) result (word_of listed_map line.end (words_left words.old)) }
    ensures short { IsShort words.new }
{
    match words.expected(line) {
        Ok(word) => fitting(line, word.column, map_of(word.text)),
        Err(fault) => Err(fault),
    }
}

/// Kind, mode, user and group.
fn kind_and_attr(words: &mut Words<'_>, line: Line) -> Result<(Kind, Attr), LineFault>
    requires short { IsShort words.old }
    ensures value { Tells line (words_left words.new) result (kind_line line.end (words_left words.old)) }
    ensures short { IsShort words.new }
{
    let kind = next_kind(words, line)?;
    let mode = next_mode(words, line)?;
    let uid = next_id(words, line)?;
    let gid = next_id(words, line)?;
    Ok((kind, Attr { mode, uid, gid }))
}

fn entry_with(first: (Kind, Attr), size: u64, map: (MapKind, Extents), path: Path) -> Entry
    ensures { result ≡ entry_with first size map path }
{
    Entry {
        kind: first.0,
        path,
        size,
        mode: first.1.mode,
        uid: first.1.uid,
        gid: first.1.gid,
        map: map.0,
        extents: map.1,
    }
}

/// An entry in print, of all words that are left of a line. A bad line is named by the column of the first word that doesn't
/// fit, which is the line's end where one is missing. It takes no memory.
#[tactic(auto, unfolding(crate::specs::ListedEntries::listed_entry))]
pub fn told_entry(words: &mut Words<'_>, line: Line) -> Result<Entry, LineFault>
    requires short { IsShort words.old }
    ensures value { Tells line (words_left words.new) result (listed_entry line.end (words_left words.old)) }
    ensures short { IsShort words.new }
{
    let first = kind_and_attr(words, line)?;
    let size = words.number(line)?;
    let map = next_map(words, line)?;
    let path = words.path(line)?;
    words.ended(line, entry_with(first, size, map, path))
}
