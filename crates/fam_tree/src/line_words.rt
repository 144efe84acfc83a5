//! The words of an entry's line, read back as they are printed. `specs/Lines.antt` has the forms.
//!
//! A word in another form may be read as anything. So whoever reads a line prints what was read, and compares.

ghost use Rattle.std.specs.Prelude.{◌≡◌, ℕ, ◌+◌, ◌*◌, ◌%◌, ◌^◌, ◌<◌, ◌≤◌, ◌++◌, ◌==◌, IfSome, IsTrue, List, MatchOption, true, length, slice_index};
ghost use Rattle.std.specs.Fmt.{decimal};
ghost use Rattle.fam_base.specs.declared.entry.Kind.{Kind};
ghost use Rattle.fam_base.specs.declared.entry.MapKind.{MapKind};
ghost use Rattle.fam_base.specs.declared.entry.Entry.{Entry};
ghost use Rattle.fam_base.specs.declared.extents.Extent.{Extent};
ghost use Rattle.fam_base.specs.Commands.{mode_limit};
ghost use Rattle.fam_base.specs.ExtentLists.{extent_limit};
ghost use Rattle.fam_base.specs.Escapes.{escaped, escaped_byte, hex_digit};
ghost use Rattle.fam_base.specs.Paths.{is_path};
ghost use Rattle.fam_tree.specs.Cuts.{AreOf, back, front};
ghost use Rattle.fam_tree.specs.Lines.{entry_line, extent_text, extents_text, kind_letter, map_text, mode_text};
ghost use Rattle.fam_tree.specs.Listings.{AreWordExtents, IsListed, IsWord, IsWordExtent, MapListed};

use fam_base::{Entry, Extent, Extents, Kind, MapKind, PATH_LIMIT, Path};
use std::str::from_utf8;

/// What stands in front of the first such byte, or all where there is none, and what stands behind it.
pub(crate) fn cut(bytes: &[u8], mark: u8) -> (&[u8], &[u8])
    ensures front { result.0.now ≡ front mark bytes.now }
    ensures back { result.1.now ≡ back mark bytes.now }
{
    for (i, byte) in bytes.iter().enumerate() {
        if *byte == mark {
            return (&bytes[..i], &bytes[i + 1..]);
        }
    }
    (bytes, &[])
}

/// The kind that its letter stands for.
fn kind_of(word: &[u8]) -> Kind
    ensures { (k : Kind) → word.now ≡ kind_letter k → result ≡ k }
{
    match word {
        [b'd'] => Kind::Directory,
        _ => Kind::File,
    }
}

/// The value of an octal digit: its three low bits.
fn octal(digit: u8) -> u32
    ensures { result ≡ digit % 8 }
{
    (digit % 8) as u32
}

/// A mode of four octal digits.
fn mode_of(word: &[u8]) -> Option<u32>
    ensures read { (m : ℕ) → m ≤ mode_limit → word.now ≡ mode_text m → result ≡ Some m }
    ensures fits { IfSome result (λ m. m ≤ mode_limit) }
{
    match word {
        [first, second, third, fourth] => Some(
            octal(*first) * 512 + octal(*second) * 64 + octal(*third) * 8 + octal(*fourth),
        ),
        _ => None,
    }
}

/// A decimal number.
fn number_of(word: &[u8]) -> Option<u64>
    ensures read { (n : ℕ) → IsWord n → word.now ≡ decimal n → result ≡ Some n }
    ensures fits { IfSome result (λ n. IsWord n) }
{
    match from_utf8(word) {
        Ok(text) => match text.parse::<u64>() {
            Ok(number) => Some(number),
            Err(_) => None,
        },
        Err(_) => None,
    }
}

/// A decimal number of 32 bits.
fn id_of(word: &[u8]) -> Option<u32>
    ensures read { (n : ℕ) → n < 2 ^ 32 → word.now ≡ decimal n → result ≡ Some n }
    ensures fits { IfSome result (λ n. n < 2 ^ 32) }
{
    match number_of(word) {
        Some(number) if number < 0x1_0000_0000 => Some(number as u32),
        _ => None,
    }
}

/// An offset and a length, with a plus between.
fn extent_of(word: &[u8]) -> Option<Extent>
    ensures read { (x : Extent) → IsWordExtent x → word.now ≡ extent_text x → result ≡ Some x }
    ensures fits { IfSome result (λ x. IsWordExtent x) }
{
    let (offset, length) = cut(word, b'+');
    let offset = number_of(offset)?;
    let length = number_of(length)?;
    Some(Extent { offset, length })
}

/// At least one extent and at most sixteen, with commas between.
fn extents_of(word: &[u8]) -> Option<Extents>
    ensures read { (xs : List Extent) → length xs ≤ extent_limit → AreWordExtents xs → word.now ≡ extents_text xs
        → 1 ≤ length xs → result ≡ Some xs }
    ensures some { IfSome result (λ xs. 1 ≤ length xs) }
    ensures few { IfSome result (λ xs. length xs ≤ extent_limit) }
    ensures fits { IfSome result (λ xs. AreWordExtents xs) }
{
    let mut extents = Extents::new();
    let mut rest = word;
    while !rest.is_empty() {
        let (first, more) = cut(rest, b',');
        let extent = extent_of(first)?;
        if !extents.push(extent) {
            return None;
        }
        rest = more;
    }
    if extents.len() == 0 {
        return None;
    }
    Some(extents)
}

/// Whether a word begins with the sign of no map.
fn is_no_map(word: &[u8]) -> bool
    ensures { result ≡ (slice_index word.now 0 == 0x2d) }
{
    match word.first() {
        Some(first) => *first == b'-',
        None => false,
    }
}

/// No map, or one with its extents, behind the chunk and a colon where it is striped.
fn map_of(word: &[u8]) -> Option<(MapKind, Extents)>
    ensures read { (m : MapKind) (xs : List Extent) → MapListed m xs → AreWordExtents xs → word.now ≡ map_text m xs
        → result ≡ Some (m, xs) }
    ensures listed { IfSome result (λ p. MapListed p.0 p.1) }
    ensures fits { IfSome result (λ p. AreWordExtents p.1) }
{
    if is_no_map(word) {
        return Some((MapKind::Empty, Extents::new()));
    }
    let (chunk, rest) = cut(word, b':');
    if chunk.len() == word.len() {
        let extents = extents_of(word)?;
        return Some((MapKind::Simple, extents));
    }
    let chunk = number_of(chunk)?;
    let extents = extents_of(rest)?;
    Some((MapKind::Striped { chunk }, extents))
}

/// The value of a digit of sixteen.
fn hex_value(digit: u8) -> u8
    ensures read { (n : ℕ) → n < 16 → digit ≡ hex_digit n → result ≡ n }
    ensures small { result < 16 }
{
    match digit {
        b'0'..=b'9' => digit - b'0',
        b'a'..=b'f' => digit - b'a' + 10,
        _ => 0,
    }
}

/// The byte that stands in front of a name in print, and what stands behind it.
fn first_byte(word: &[u8]) -> Option<(u8, &[u8])>
    ensures read { (b : ℕ) (more : List ℕ) → b < 256 → word.now ≡ escaped_byte b ++ more
        → MatchOption result ⊥ (λ p. (p.0 ≡ b) × (p.1.now ≡ more)) }
    ensures shorter { IfSome result (λ p. length p.1.now < length word.now) }
{
    match word {
        [b'\\', b'x', high, low, rest @ ..] => {
            Some((16 * hex_value(*high) + hex_value(*low), rest))
        }
        [first, rest @ ..] => Some((*first, rest)),
        [] => None,
    }
}

/// A path in print.
fn path_of(word: &[u8]) -> Option<Path>
    ensures read { (p : List ℕ) → is_path p ≡ true → word.now ≡ escaped p → result ≡ Some p }
    ensures path { IfSome result (λ p. IsTrue (is_path p)) }
{
    let mut field = [0u8; PATH_LIMIT];
    let mut count = 0;
    let mut rest = word;
    while !rest.is_empty() {
        let (byte, more) = first_byte(rest)?;
        if count == PATH_LIMIT {
            return None;
        }
        field[count] = byte;
        count += 1;
        rest = more;
    }
    match Path::read(&field[..count]) {
        Ok(path) => Some(path),
        Err(_) => None,
    }
}

/// The words of a line.
#[derive(Clone, Copy)]
struct Words<'a> {
    kind: &'a [u8],
    mode: &'a [u8],
    uid: &'a [u8],
    gid: &'a [u8],
    size: &'a [u8],
    map: &'a [u8],
    path: &'a [u8],
}

/// The first six words of a line, and what stands behind them.
fn words_of(line: &[u8]) -> Words<'_>
    ensures { (e : Entry) → IsListed e → line.now ≡ entry_line e → AreOf e result }
{
    let (kind, rest) = cut(line, b' ');
    let (mode, rest) = cut(rest, b' ');
    let (uid, rest) = cut(rest, b' ');
    let (gid, rest) = cut(rest, b' ');
    let (size, rest) = cut(rest, b' ');
    let (map, path) = cut(rest, b' ');
    Words {
        kind,
        mode,
        uid,
        gid,
        size,
        map,
        path,
    }
}

/// The entry whose line this is, if it is one's. Of another line it may be any entry that a listing may have.
pub(crate) fn entry_of(line: &[u8]) -> Option<Entry>
    ensures read { (e : Entry) → IsListed e → line.now ≡ entry_line e → result ≡ Some e }
    ensures listed { IfSome result (λ e. IsListed e) }
{
    let words = words_of(line);
    let mode = mode_of(words.mode)?;
    let uid = id_of(words.uid)?;
    let gid = id_of(words.gid)?;
    let size = number_of(words.size)?;
    let (map, extents) = map_of(words.map)?;
    let path = path_of(words.path)?;
    Some(Entry {
        kind: kind_of(words.kind),
        path,
        size,
        mode,
        uid,
        gid,
        map,
        extents,
    })
}
