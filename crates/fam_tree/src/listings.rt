//! Listings as they are read: exactly those that could have been printed. `specs/Listings.antt` has the rules.

ghost use Rattle.std.specs.Prelude.{◌≡◌, ◌↔◌, ◌+◌, ◌^◌, ◌<◌, ◌≤◌, IfErr, IfOk, IsTrue, length};
ghost use Rattle.fam_base.specs.Commands.{IsListing};
ghost use Rattle.fam_base.specs.PathOrder.{path_eq};
ghost use Rattle.fam_tree.specs.Lines.{entry_line};
ghost use Rattle.fam_tree.specs.Listings.{ComesBehind, LinesSay, ListingSays, played_line, text_lines};
ghost use Rattle.fam_tree.specs.Said.{IsRead, NamesBad};

use crate::entry_ref::EntryRef;
use crate::fault::ListingFault;
use crate::line_words::{cut, entry_of};
use crate::lines::{put_decimal, put_entry};
use fam_base::{Entry, OutOfMemory, Path};
use std::alloc::Global;

/// Whether a path may stand behind the one before it.
fn is_behind(before: &Option<Path>, path: &Path) -> bool
    ensures { IsTrue result ↔ ComesBehind before.now path.now }
{
    match before {
        Some(before) => *before < *path,
        None => true,
    }
}

/// Whether a line is the one that is printed of an entry. `text` is where it is printed.
fn is_printed(entry: &Entry, line: &[u8], text: &mut Vec<u8>) -> Result<bool, OutOfMemory>
    ensures { IfOk result (λ b. IsTrue b ↔ (line.now ≡ entry_line entry.now)) }
{
    text.clear();
    put_entry(&EntryRef::of(entry), text)?;
    Ok(text.as_slice() == line)
}

/// The entry of a line, and `None` exactly where the line is no entry's that may stand behind the path before it.
fn read_line(
    before: &Option<Path>,
    line: &[u8],
    text: &mut Vec<u8>,
) -> Result<Option<Entry>, OutOfMemory>
    ensures { IfOk result (λ entry. IsRead before.now line.now entry) }
{
    let Some(entry) = entry_of(line) else {
        return Ok(None);
    };
    if !is_behind(before, &entry.path) {
        return Ok(None);
    }
    if !is_printed(&entry, line, text)? {
        return Ok(None);
    }
    Ok(Some(entry))
}

/// The entries of lines, of which the first has this number.
fn read_lines(alloc: Global, first: u64, bytes: &[u8]) -> Result<Vec<Entry>, ListingFault>
    requires { first + length bytes.now < 2 ^ 64 }
    ensures read { IfOk result (λ entries. LinesSay first None (text_lines bytes.now) (Ok entries.items)) }
    ensures bad { IfErr result (λ fault. NamesBad (LinesSay first None (text_lines bytes.now)) fault) }
{
    let mut entries = Vec::new(alloc);
    let mut text = Vec::new(alloc);
    let mut before = None;
    let mut number = first;
    let mut rest = bytes;
    while !rest.is_empty() {
        let (line, more) = cut(rest, b'\n');
        let Some(entry) = read_line(&before, line, &mut text)? else {
            return Err(ListingFault::BadListing(number));
        };
        before = Some(entry.path);
        let Ok(()) = entries.push(entry) else {
            return Err(ListingFault::OutOfMemory);
        };
        number += 1;
        rest = more;
    }
    Ok(entries)
}

/// How many lines a text has.
fn count_lines(bytes: &[u8]) -> u64
    ensures count { result ≡ length (text_lines bytes.now) }
    ensures few { result ≤ length bytes.now }
{
    let mut count = 0;
    let mut rest = bytes;
    while !rest.is_empty() {
        let (_, more) = cut(rest, b'\n');
        count += 1;
        rest = more;
    }
    count
}

/// Whether a line counts so many lines behind it.
fn is_count(alloc: Global, line: &[u8], lines: u64) -> Result<bool, OutOfMemory>
    ensures { IfOk result (λ b. b ≡ path_eq line.now (played_line lines)) }
{
    let mut text = Vec::new(alloc);
    let Ok(()) = text.extend_from_slice(b"played ") else {
        return Err(OutOfMemory);
    };
    put_decimal(lines, &mut text)?;
    Ok(line == text.as_slice())
}

/// The entries of a listing, in byte order of their paths: a line for each, as [`crate::print_entry`] has it, with
/// line feeds between. One more line feed may stand at the end, and a line `played N` in front, where N is the number
/// of lines behind it.
///
/// `BadListing` comes exactly where the bytes are no listing, and has the number, from 1, of the first line that is no
/// entry's, that repeats a path or that breaks the order.
pub fn read_listing(alloc: Global, bytes: &[u8]) -> Result<Vec<Entry>, ListingFault>
    ensures read { IfOk result (λ entries. ListingSays bytes.now (Ok entries.items)) }
    ensures order { IfOk result (λ entries. IsListing entries.items) }
    ensures bad { IfErr result (λ fault. NamesBad (ListingSays bytes.now) fault) }
{
    if bytes.is_empty() {
        return Ok(Vec::new(alloc));
    }
    let (first, rest) = cut(bytes, b'\n');
    if is_count(alloc, first, count_lines(rest))? {
        return read_lines(alloc, 2, rest);
    }
    read_lines(alloc, 1, bytes)
}
