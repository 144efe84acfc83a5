//! How words are spelled. `specs/Spellings.antt` has each spelling as a function of one word.

ghost use Rattle.std.specs.Prelude.{◌≡◌, ◌<◌, ◌≤◌, IfOk, IfSome, IsTrue, MatchOption, fold, length, option_map, position, ◌==◌};
ghost use Rattle.fam_base.specs.Commands.{mode_limit, read_limit};
ghost use Rattle.fam_base.specs.Escapes.{is_plain};
ghost use Rattle.fam_format.specs.Params.{is_format};
ghost use Rattle.fam_grammar.specs.Spellings.{name_of, uuid_of, unescaped, in_prefix, byte_of, with_octal, path_of, file_of, id_of, mask_of, count_of, steps_of, halted_of, format_of, is_octal, mode_of, at_comma, stripe_of, stripe_with, value_behind};
ghost use Rattle.fam_grammar.specs.Numbers.{number_of_text, size_of_text};
ghost use Rattle.uuid.specs.Text.{hex_digit_value, parsed};
ghost use Rattle.std.specs.List.{list_all};

use crate::numbers::{number, size};
use fam_base::{HostName, Mask, NameText, OutOfMemory, PATH_LIMIT, Path, Stripe};
use fam_format::is_format;
use std::alloc::Global;
use std::str::from_utf8;
use uuid::Uuid;

/// A host's name.
pub(crate) fn name_of(word: &[u8]) -> Option<HostName>
    ensures { result ≡ name_of word.now }
{
    match HostName::read(word) {
        Ok(name) => Some(name),
        Err(_) => None,
    }
}

fn parsed(text: &str) -> Option<Uuid>
    ensures { result ≡ parsed text.now }
{
    match Uuid::parse_str(text) {
        Ok(uuid) => Some(uuid),
        Err(_) => None,
    }
}

/// A UUID in any form that reads as one.
#[tactic(auto, unfolding(crate::specs::Spellings::uuid_of))]
pub(crate) fn uuid_of(word: &[u8]) -> Option<Uuid>
    ensures { result ≡ uuid_of word.now }
{
    match from_utf8(word) {
        Ok(text) => parsed(text),
        Err(_) => None,
    }
}

/// The value of a digit of sixteen, in either case.
fn hex_value(digit: u8) -> Option<u8>
    ensures value { result ≡ hex_digit_value digit }
    ensures small { IfSome result (λ n. n < 16) }
{
    match digit {
        b'0'..=b'9' => Some(digit - b'0'),
        b'a'..=b'f' => Some(digit - b'a' + 10),
        b'A'..=b'F' => Some(digit - b'A' + 10),
        _ => None,
    }
}

fn is_plain(byte: u8) -> bool
    ensures { result ≡ is_plain byte }
{
    (0x21..=0x7e).contains(&byte) && byte != b'\\'
}

/// The byte that two digits of sixteen stand for.
fn byte_of(high: u8, low: u8) -> Option<u8>
    ensures { result ≡ byte_of high low }
{
    Some(16 * hex_value(high)? + hex_value(low)?)
}

/// The byte that stands in front of a word, and the rest of the word.
fn first_byte(word: &[u8]) -> Option<(u8, &[u8])>
    requires { 0 < length word.now }
    ensures cases { MatchOption result (unescaped word.now ≡ None) (λ p. unescaped word.now ≡ in_prefix p.0 (unescaped p.1.now)) }
    ensures shorter { IfSome result (λ p. length p.1.now < length word.now) }
{
    match word {
        [first, rest @ ..] if is_plain(*first) => Some((*first, rest)),
        [b'\\', b'x', high, low, rest @ ..] => Some((byte_of(*high, *low)?, rest)),
        _ => None,
    }
}

/// A path: the word's bytes, with escapes read.
pub(crate) fn path_of(word: &[u8]) -> Option<Path>
    ensures { result ≡ path_of word.now }
{
    let mut field = [0u8; PATH_LIMIT];
    let mut count = 0;
    let mut rest = word;
    while !rest.is_empty() {
        let (byte, more) = first_byte(rest)?;
        if count == PATH_LIMIT {
            return None;
        }
        field[count] = byte;
        count += 1;
        rest = more;
    }
    match Path::read(&field[..count]) {
        Ok(path) => Some(path),
        Err(_) => None,
    }
}

/// The bytes that a word stands for, with escapes read.
fn unescaped(alloc: Global, word: &[u8]) -> Result<Option<Vec<u8>>, OutOfMemory>
    ensures { IfOk result (λ o. option_map (λ v. v.items) o ≡ unescaped word.now) }
{
    let mut bytes = Vec::new(alloc);
    let mut rest = word;
    while !rest.is_empty() {
        let Some((byte, more)) = first_byte(rest) else {
            return Ok(None);
        };
        if bytes.push(byte).is_err() {
            return Err(OutOfMemory);
        }
        rest = more;
    }
    Ok(Some(bytes))
}

/// The name of a file: the word's bytes, with escapes read.
pub(crate) fn file_of(alloc: Global, word: &[u8]) -> Result<Option<NameText>, OutOfMemory>
    ensures { IfOk result (λ name. name ≡ file_of word.now) }
{
    let Some(bytes) = unescaped(alloc, word)? else {
        return Ok(None);
    };
    if bytes.is_empty() {
        return Ok(None);
    }
    match from_utf8(bytes.as_slice()) {
        Ok(name) => Ok(Some(NameText::new(alloc, name)?)),
        Err(_) => Ok(None),
    }
}

/// A number below 2^32.
pub fn id_of(word: &[u8]) -> Option<u32>
    ensures { result ≡ id_of word.now }
{
    match number(word) {
        Some(n) if n < 0x1_0000_0000 => Some(n as u32),
        _ => None,
    }
}

/// A number below 256.
pub(crate) fn mask_of(word: &[u8]) -> Option<u8>
    ensures { result ≡ mask_of word.now }
{
    match number(word) {
        Some(n) if n < 256 => Some(n as u8),
        _ => None,
    }
}

/// A number of at most 4,096.
pub fn count_of(word: &[u8]) -> Option<u64>
    ensures value { result ≡ count_of word.now }
    ensures small { IfSome result (λ count. count ≤ read_limit) }
{
    match number(word) {
        Some(n) if n < 4097 => Some(n),
        _ => None,
    }
}

/// A number from 1 to 1,000,000,000.
pub(crate) fn steps_of(word: &[u8]) -> Option<u64>
    ensures { result ≡ steps_of word.now }
{
    match number(word) {
        Some(0) => None,
        Some(n) if n < 1_000_000_001 => Some(n),
        _ => None,
    }
}

/// A number from 1 to 80: after how many operations of a mkfs its maker halts.
pub(crate) fn halted_of(word: &[u8]) -> Option<u64>
    ensures { result ≡ halted_of word.now }
{
    match number(word) {
        Some(0) => None,
        Some(n) if n < 81 => Some(n),
        _ => None,
    }
}

/// The number of a format in which file systems are made.
pub fn format_of(word: &[u8]) -> Option<u64>
    ensures value { result ≡ format_of word.now }
    ensures sound { IfSome result (λ format. IsTrue (is_format format)) }
{
    match number(word) {
        Some(n) if is_format(n) => Some(n),
        _ => None,
    }
}

fn is_octal(byte: u8) -> bool
    ensures { result ≡ is_octal byte }
{
    (b'0'..=b'7').contains(&byte)
}

fn are_octal(digits: &[u8]) -> bool
    ensures { result ≡ list_all is_octal digits.now }
{
    digits.iter().all(|digit| is_octal(*digit))
}

/// A mode: 1 to 4 octal digits.
#[tactic(auto, unfolding(crate::specs::Spellings::mode_of))]
pub fn mode_of(word: &[u8]) -> Option<u32>
    ensures value { result ≡ mode_of word.now }
    ensures small { IfSome result (λ mode. mode ≤ mode_limit) }
{
    if word.is_empty() {
        return None;
    }
    if word.len() > 4 {
        return None;
    }
    if !are_octal(word) {
        return None;
    }
    Some(octal_value(word))
}

/// The value of at most four octal digits.
fn octal_value(digits: &[u8]) -> u32
    requires short { length digits.now ≤ 4 }
    requires octal { IsTrue (list_all is_octal digits.now) }
    ensures value { result ≡ fold with_octal 0 digits.now }
    ensures small { result ≤ mode_limit }
{
    let mut value = 0;
    for digit in digits {
        value = value * 8 + u32::from(*digit - b'0');
    }
    value
}

/// Where the first comma of a word stands.
fn comma(word: &[u8]) -> Option<usize>
    ensures value { result ≡ position (λ byte. byte == 44) word.now }
    ensures within { IfSome result (λ i. i < length word.now) }
{
    word.iter().position(|byte| *byte == b',')
}

/// The parts of a word before and behind its first comma.
fn at_comma(word: &[u8]) -> Option<(&[u8], &[u8])>
    ensures { option_map (λ p. (p.0.now, p.1.now)) result ≡ at_comma word.now }
{
    let comma = comma(word)?;
    let (prefix, back) = word.split_at(comma);
    Some((prefix, &back[1..]))
}

/// Two numbers and a size.
fn stripe_with(nstrips: &[u8], nbuckets: &[u8], chunk: &[u8]) -> Option<Stripe>
    ensures { result ≡ stripe_with (number_of_text nstrips.now) (number_of_text nbuckets.now) (size_of_text chunk.now) }
{
    let Some(nstrips) = number(nstrips) else {
        return None;
    };
    let Some(nbuckets) = number(nbuckets) else {
        return None;
    };
    let Some(chunk) = size(chunk) else {
        return None;
    };
    Some(Stripe {
        nstrips,
        nbuckets,
        chunk,
    })
}

/// Two numbers and a size, with commas between.
#[tactic(auto, unfolding(crate::specs::Spellings::stripe_of))]
pub(crate) fn stripe_of(word: &[u8]) -> Option<Stripe>
    ensures { result ≡ stripe_of word.now }
{
    let (nstrips, rest) = at_comma(word)?;
    let (nbuckets, chunk) = at_comma(rest)?;
    stripe_with(nstrips, nbuckets, chunk)
}

/// What stands behind a key in front of a word.
pub fn value_behind<'a>(key: &str, word: &'a [u8]) -> Option<&'a [u8]>
    ensures { option_map (λ v. v.now) result ≡ value_behind key.now word.now }
{
    word.strip_prefix(key.as_bytes())
}
