//! The fields that the words of a slot tell, whatever its checksum and its unused words are.

ghost use Rattle.std.specs.Prelude.{◌≡◌, ◌≢◌, ◌+◌, ◌*◌, ◌<◌, ◌≤◌, ◌^◌, ℕ, length, slice_index, true, IfSome, OnOk};
ghost use Rattle.std.specs.Bool.{OnTrue};
ghost use Rattle.fam_base.specs.Paths.{is_path, slash};
ghost use Rattle.fam_format.specs.Layout.{Geometry};
ghost use Rattle.fam_format.specs.Words.{byte_from};
ghost use Rattle.fam_format.specs.Slot as slots;
ghost use Rattle.fam_entry.specs.Tests.{HasFields, HasPath, NamesFault};

use crate::places::{
    CHUNK_WORD, COUNT_WORD, EMPTY_MAP, EXTENT_LIMIT, EXTENTS_WORD, FILE_KIND, GID_WORD, KIND_WORD,
    MAP_WORD, MODE_WORD, PATH_LENGTH_WORD, PATH_WORD, SIMPLE_MAP, SIZE_WORD, UID_WORD,
};
use fam_base::{Entry, Extent, Extents, Kind, MapKind, PATH_LIMIT, Path};
use fam_format::Reason;
use fam_tree::EntryRef;

pub(crate) fn kind_of(word: u64) -> Kind
    ensures { result ≡ slots.kind_of word }
{
    if word == FILE_KIND {
        Kind::File
    } else {
        Kind::Directory
    }
}

fn map_of(word: u64, chunk: u64) -> MapKind
    ensures { result ≡ slots.map_of word chunk }
{
    match word {
        EMPTY_MAP => MapKind::Empty,
        SIMPLE_MAP => MapKind::Simple,
        _ => MapKind::Striped { chunk },
    }
}

fn extents_of(words: &[u64], count: usize) -> Extents
    requires long { slots.path_word ≤ length words.now }
    requires few { count ≤ EXTENT_LIMIT }
    ensures { result ≡ slots.extents_of words.now count }
{
    let mut extents = Extents::new();
    for i in 0..count {
        let _room = extents.push(Extent {
            offset: words[EXTENTS_WORD + 2 * i],
            length: words[EXTENTS_WORD + 1 + 2 * i],
        });
    }
    extents
}

/// Puts so many whole words of the path into its field.
fn put_words(words: &[u64], count: usize, field: &mut [u8; PATH_LIMIT])
    requires few { 8 * count ≤ PATH_LIMIT }
    requires room { slots.path_word + count ≤ length words.now }
    ensures bytes { (k : ℕ) → k < 8 * count → slice_index field.new k ≡ byte_from slots.path_word words.now k }
    ensures behind { (k : ℕ) → 8 * count ≤ k → slice_index field.new k ≡ slice_index field.old k }
{
    for i in 0..count {
        let bytes = words[PATH_WORD + i].to_le_bytes();
        field[8 * i..8 * i + 8].copy_from_slice(&bytes);
    }
}

/// Puts the bytes of the path into a field of zeros. Where the last word has zeros behind them, it is put whole.
fn put_path(words: &[u64], len: usize, field: &mut [u8; PATH_LIMIT])
    requires few { len ≤ PATH_LIMIT }
    requires room { 8 * slots.path_word + len + 8 ≤ 8 * length words.now }
    requires empty { (k : ℕ) → slice_index field.old k ≡ 0 }
    ensures bytes { (k : ℕ) → k < len → slice_index field.new k ≡ byte_from slots.path_word words.now k }
    ensures behind { (k : ℕ) → len ≤ k → slice_index field.new k ≡ 0 }
{
    let whole = 8 * (len / 8);
    let word = words[PATH_WORD + len / 8];
    if whole < PATH_LIMIT && word >> (8 * (len - whole)) == 0 {
        put_words(words, len / 8 + 1, field);
        return;
    }
    put_words(words, len / 8, field);
    let bytes = word.to_le_bytes();
    field[whole..len].copy_from_slice(&bytes[..len - whole]);
}

/// Whether bytes begin with eight that are other than one. No test waits for the one before it, so that they are made
/// together.
#[inline(always)]
fn begin_without(bytes: &[u8], mark: u8) -> bool
    ensures long { OnTrue result (8 ≤ length bytes.now) }
    ensures none { OnTrue result ((k : ℕ) → k < 8 → slice_index bytes.now k ≢ mark) }
{
    match bytes {
        [a, b, c, d, e, f, g, h, ..] => {
            (*a != mark)
                & (*b != mark)
                & (*c != mark)
                & (*d != mark)
                & (*e != mark)
                & (*f != mark)
                & (*g != mark)
                & (*h != mark)
        }
        _ => false,
    }
}

/// Whether bytes begin with eight that may stand in a name.
#[inline(always)]
fn begin_in_name(bytes: &[u8]) -> bool
    ensures long { OnTrue result (8 ≤ length bytes.now) }
    ensures some { OnTrue result ((k : ℕ) → k < 8 → slice_index bytes.now k ≢ 0) }
    ensures none { OnTrue result ((k : ℕ) → k < 8 → slice_index bytes.now k ≢ slash) }
{
    begin_without(bytes, b'/') && begin_without(bytes, 0)
}

/// Whether bytes are one name of eight bytes or more. The last eight are looked at together, with some of those before
/// them.
#[inline(always)]
fn is_long_name(bytes: &[u8]) -> bool
    ensures { OnTrue result (is_path bytes.now ≡ true) }
{
    let len = bytes.len();
    if len < 8 || len > PATH_LIMIT {
        return false;
    }
    let last = len - 8;
    let mut at = 0;
    while at < last {
        if !begin_in_name(&bytes[at..]) {
            return false;
        }
        at += 8;
    }
    if !begin_in_name(&bytes[last..]) {
        return false;
    }
    true
}

/// Whether bytes are a path. Most are one long name, and that is seen eight bytes at a time.
#[inline(always)]
pub(crate) fn are_path(bytes: &[u8]) -> bool
    ensures { result ≡ is_path bytes.now }
{
    is_long_name(bytes) || Path::is_path(bytes)
}

/// Whether the length is within the limit of the format and the bytes are a path, which are put into a field of zeros.
pub(crate) fn check_path(
    words: &[u64],
    limit: usize,
    field: &mut [u8; PATH_LIMIT],
) -> Result<(), Reason>
    requires few { limit ≤ PATH_LIMIT }
    requires room { 8 * slots.path_word + limit + 8 ≤ 8 * length words.now }
    requires empty { (k : ℕ) → slice_index field.old k ≡ 0 }
    ensures first { (g : Geometry) → g.path_limit ≡ limit → NamesFault result (slots.path_fault g words.now) }
    ensures field { OnOk result (HasPath words.now field.new) }
{
    let len = words[PATH_LENGTH_WORD];
    if len > limit as u64 {
        return Err(Reason::BadPath);
    }
    put_path(words, len as usize, field);
    if are_path(&field[..len as usize]) {
        Ok(())
    } else {
        Err(Reason::BadPath)
    }
}

/// The entry of a slot whose words were checked, and whose path lies in a field: the one that these words tell.
#[tactic(auto, unfolding(fam_format::specs::Slot::fields_of))]
pub fn checked_entry(words: &[u64], field: &[u8; PATH_LIMIT]) -> Entry
    requires long { 64 ≤ length words.now }
    requires fields { HasFields words.now field.now }
    ensures { result ≡ slots.fields_of words.now }
{
    Entry {
        kind: kind_of(words[KIND_WORD]),
        path: Path::in_field(field, words[PATH_LENGTH_WORD] as usize),
        size: words[SIZE_WORD],
        mode: words[MODE_WORD] as u32,
        uid: words[UID_WORD] as u32,
        gid: words[GID_WORD] as u32,
        map: map_of(words[MAP_WORD], words[CHUNK_WORD]),
        extents: extents_of(words, words[COUNT_WORD] as usize),
    }
}

/// The extents of a slot whose words were checked.
pub fn checked_extents(words: &[u64]) -> Extents
    requires long { 64 ≤ length words.now }
    requires few { slice_index words.now COUNT_WORD ≤ EXTENT_LIMIT }
    ensures { result ≡ slots.extents_of words.now (slice_index words.now COUNT_WORD) }
{
    extents_of(words, words[COUNT_WORD] as usize)
}

/// The entry of a slot whose words were checked, borrowed: its path lies in a field, and its extents were read by
/// `checked_extents`. It is the one of `checked_entry`.
#[tactic(auto, unfolding(fam_format::specs::Slot::fields_of))]
pub fn borrowed_entry<'a>(
    words: &[u64],
    field: &'a [u8; PATH_LIMIT],
    extents: &'a [Extent],
) -> EntryRef<'a>
    requires long { 64 ≤ length words.now }
    requires fields { HasFields words.now field.now }
    requires extents { extents.now ≡ slots.extents_of words.now (slice_index words.now COUNT_WORD) }
    ensures { result ≡ slots.fields_of words.now }
{
    EntryRef {
        kind: kind_of(words[KIND_WORD]),
        map: map_of(words[MAP_WORD], words[CHUNK_WORD]),
        size: words[SIZE_WORD],
        mode: words[MODE_WORD] as u32,
        uid: words[UID_WORD] as u32,
        gid: words[GID_WORD] as u32,
        path: &field[..words[PATH_LENGTH_WORD] as usize],
        extents,
    }
}

/// The same of a slot whose words count no extents, for which none are held. Most slots are such.
#[tactic(auto, unfolding(fam_format::specs::Slot::extents_of))]
pub fn bare_entry<'a>(words: &[u64], field: &'a [u8; PATH_LIMIT]) -> Option<EntryRef<'a>>
    requires long { 64 ≤ length words.now }
    requires fields { HasFields words.now field.now }
    ensures { IfSome result (λ entry. entry ≡ slots.fields_of words.now) }
{
    if words[COUNT_WORD] == 0 {
        return Some(borrowed_entry(words, field, &[]));
    }
    None
}
