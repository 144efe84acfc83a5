//! Reading of a slot: a test for each reason, in the order of the reasons. The first that fails decides.

ghost use Rattle.std.specs.Prelude.{◌≡◌, ◌+◌, ◌-◌, ◌<◌, ◌≤◌, ◌^◌, ℕ, false, MatchResult, IfErr, IfOk, OnOk, Ok, Err, length, slice_index};
ghost use Rattle.std.specs.Bool.{OnTrue};
ghost use Rattle.std.specs.List.{list_any, range_with_len};
ghost use Rattle.fam_format.specs.Layout.{Geometry, geometry};
ghost use Rattle.fam_format.specs.Params.{SoundParams};
ghost use Rattle.fam_format.specs.Slot as slots;
ghost use Rattle.fam_format.specs.SuperLaws.{IsWords};
ghost use Rattle.fam_base.specs.declared.entry.Entry.{Entry};
ghost use Rattle.fam_entry.specs.Tests.{HasFields, HasZeros, NamesFault, PassFront, read_as};

use crate::fields::{borrowed_entry, check_path, checked_entry, checked_extents};
use crate::map_rule::is_map;
use crate::places::{
    CHUNK_WORD, COUNT_WORD, DIRECTORY_KIND, EMPTY_MAP, EXTENT_LIMIT, EXTENTS_WORD, FILE_KIND,
    GID_WORD, ID_LIMIT, KIND_WORD, MAP_WORD, MODE_LIMIT, MODE_WORD, PATH_LENGTH_WORD, PATH_WORD,
    SEQ_WORD, SIZE_WORD, STRIPED_MAP, UID_WORD,
};
use crate::slot::sum_before;
use fam_base::{Entry, PATH_LIMIT, Params};
use fam_crc::Summed;
use fam_format::{Reason, byte_of, shape_of};

fn check_crc(words: &[u64]) -> Result<Summed, Reason>
    requires { 64 ≤ length words.now }
    ensures first { (g : Geometry) → length words.now ≡ g.words → NamesFault result (slots.crc_fault g words.now) }
    ensures words { IsWords (length words.now) words.now }
    ensures zeros { IfOk result (λ seen. HasZeros words.now seen.has_gap seen.end) }
{
    let found = words[words.len() - 1];
    let summed = sum_before(words);
    let wanted = summed.crc as u64;
    if found == wanted {
        return Ok(summed);
    }
    Err(Reason::Crc { found, wanted })
}

fn check_seq(words: &[u64], wanted: u64) -> Result<(), Reason>
    requires { 64 ≤ length words.now }
    ensures { NamesFault result (slots.seq_fault words.now wanted) }
{
    let found = words[SEQ_WORD];
    if found == wanted {
        return Ok(());
    }
    Err(Reason::Seq { found, wanted })
}

fn check_kind(words: &[u64]) -> Result<(), Reason>
    requires { 64 ≤ length words.now }
    ensures { NamesFault result (slots.kind_fault words.now) }
{
    match words[KIND_WORD] {
        FILE_KIND | DIRECTORY_KIND => Ok(()),
        word => Err(Reason::BadKind(word)),
    }
}

fn check_attributes(words: &[u64]) -> Result<(), Reason>
    requires { 64 ≤ length words.now }
    ensures first { NamesFault result (slots.attribute_fault words.now) }
    ensures mode { OnOk result (slice_index words.now MODE_WORD < 2 ^ 32) }
    ensures uid { OnOk result (slice_index words.now UID_WORD < 2 ^ 32) }
    ensures gid { OnOk result (slice_index words.now GID_WORD < 2 ^ 32) }
{
    if words[MODE_WORD] > MODE_LIMIT {
        return Err(Reason::Attribute(MODE_WORD as u64));
    }
    if words[UID_WORD] > ID_LIMIT {
        return Err(Reason::Attribute(UID_WORD as u64));
    }
    if words[GID_WORD] > ID_LIMIT {
        return Err(Reason::Attribute(GID_WORD as u64));
    }
    Ok(())
}

fn are_map_words(words: &[u64]) -> bool
    requires { 64 ≤ length words.now }
    ensures value { result ≡ slots.is_map_words words.now }
    ensures few { OnTrue result (slice_index words.now COUNT_WORD ≤ EXTENT_LIMIT) }
{
    if words[MAP_WORD] > STRIPED_MAP {
        return false;
    }
    if words[COUNT_WORD] > EXTENT_LIMIT {
        return false;
    }
    if words[MAP_WORD] == STRIPED_MAP {
        return true;
    }
    words[CHUNK_WORD] == 0
}

fn is_stray_byte(words: &[u64], i: usize, b: usize) -> bool
    requires from { slots.path_word ≤ i }
    requires below { i + 1 < length words.now }
    requires byte { b < 8 }
    ensures { result ≡ slots.is_stray_byte words.now i b }
{
    let place = 8 * (i - PATH_WORD) + b;
    words[PATH_LENGTH_WORD] <= place as u64 && byte_of(words[i], b) != 0
}

fn has_stray_byte(words: &[u64], i: usize) -> bool
    requires from { slots.path_word ≤ i }
    requires below { i + 1 < length words.now }
    ensures { result ≡ list_any (slots.is_stray_byte words.now i) (range_with_len 0 8) }
{
    let from = 8 * (i - PATH_WORD) as u64;
    let len = words[PATH_LENGTH_WORD];
    if len >= from + 8 {
        return false;
    }
    let used = len.saturating_sub(from);
    if words[i] >> (8 * used) == 0 {
        return false;
    }
    for b in 0..8 {
        if is_stray_byte(words, i, b) {
            return true;
        }
    }
    false
}

/// Whether a word is one. Most words are 0, and those are none.
#[inline(always)]
fn is_stray(words: &[u64], i: usize) -> bool
    requires from { slots.extents_word ≤ i }
    requires below { i + 1 < length words.now }
    ensures { result ≡ slots.is_stray words.now i }
{
    let word = words[i];
    if word == 0 {
        return false;
    }
    is_stray_there(words, i)
}

/// Whether a word is one, by its place.
fn is_stray_there(words: &[u64], i: usize) -> bool
    requires from { slots.extents_word ≤ i }
    requires below { i + 1 < length words.now }
    ensures { result ≡ slots.is_stray words.now i }
{
    if i < PATH_WORD {
        let extent = (i - EXTENTS_WORD) / 2;
        return words[COUNT_WORD] <= extent as u64 && words[i] != 0;
    }
    has_stray_byte(words, i)
}

/// Whether words begin with sixteen of 0. They are looked at as those of `begin_with_zeros`.
#[inline(always)]
fn begin_with_sixteen(words: &[u64]) -> bool
    ensures long { OnTrue result (16 ≤ length words.now) }
    ensures zeros { OnTrue result ((k : ℕ) → k < 16 → slice_index words.now k ≡ 0) }
{
    match words {
        [0, b, c, d, e, f, g, h, i, j, k, l, m, n, o, p, ..] => {
            (*b == 0)
                & (*c == 0)
                & (*d == 0)
                & (*e == 0)
                & (*f == 0)
                & (*g == 0)
                & (*h == 0)
                & (*i == 0)
                & (*j == 0)
                & (*k == 0)
                & (*l == 0)
                & (*m == 0)
                & (*n == 0)
                & (*o == 0)
                & (*p == 0)
        }
        _ => false,
    }
}

/// Whether words begin with eight of 0. The first is looked at alone, and then no test waits for the one before it, so that
/// they are made together.
#[inline(always)]
fn begin_with_zeros(words: &[u64]) -> bool
    ensures long { OnTrue result (8 ≤ length words.now) }
    ensures zeros { OnTrue result ((k : ℕ) → k < 8 → slice_index words.now k ≡ 0) }
{
    match words {
        [0, b, c, d, e, f, g, h, ..] => {
            (*b == 0) & (*c == 0) & (*d == 0) & (*e == 0) & (*f == 0) & (*g == 0) & (*h == 0)
        }
        _ => false,
    }
}

/// Whether a pass over the words saw all to be 0 that no extent and no byte of the path uses. Where it didn't, they may
/// be so all the same.
#[inline(always)]
fn saw_rest(words: &[u64], seen: &Summed) -> bool
    requires long { 64 ≤ length words.now }
    requires seen { HasZeros words.now seen.now.has_gap seen.now.end }
    ensures { OnTrue result ((k : ℕ) → slots.extents_word ≤ k → k < length words.now - 1
        → slots.is_stray words.now k ≡ false) }
{
    if !seen.has_gap {
        return false;
    }
    let full = PATH_WORD + (words[PATH_LENGTH_WORD] / 8) as usize;
    if seen.end <= full {
        return true;
    }
    if seen.end > full + 1 || seen.end >= words.len() {
        return false;
    }
    if has_stray_byte(words, full) {
        return false;
    }
    true
}

pub(crate) fn check_rest(words: &[u64], seen: &Summed) -> Result<(), Reason>
    requires long { 64 ≤ length words.now }
    requires seen { HasZeros words.now seen.now.has_gap seen.now.end }
    ensures { (g : Geometry) → length words.now ≡ g.words → NamesFault result (slots.rest_fault g words.now) }
{
    if saw_rest(words, seen) {
        return Ok(());
    }
    find_stray(words)
}

/// Whether no word holds what no extent and no byte of the path uses, or the first that does.
fn find_stray(words: &[u64]) -> Result<(), Reason>
    requires { 64 ≤ length words.now }
    ensures { (g : Geometry) → length words.now ≡ g.words → NamesFault result (slots.rest_fault g words.now) }
{
    let last = words.len() - 1;
    let mut i = EXTENTS_WORD;
    while i < last {
        if begin_with_sixteen(&words[i..last]) {
            i += 16;
        } else if begin_with_zeros(&words[i..last]) {
            i += 8;
        } else if is_stray(words, i) {
            return Err(Reason::Rest(i as u64));
        } else {
            i += 1;
        }
    }
    Ok(())
}

/// Whether the map fits, where its words can be one's. Most entries have none, and that is seen in the words.
fn fits_map(words: &[u64], field: &[u8; PATH_LIMIT], params: &Params) -> bool
    requires sound { SoundParams params.now }
    requires long { 64 ≤ length words.now }
    requires fields { HasFields words.now field.now }
    ensures { result ≡ slots.is_map params.now (slots.fields_of words.now) }
{
    if words[MAP_WORD] == EMPTY_MAP {
        return words[SIZE_WORD] == 0 && words[COUNT_WORD] == 0;
    }
    let extents = checked_extents(words);
    is_map(params, &borrowed_entry(words, field, extents.as_slice()))
}

/// The tests before that of the path: checksum, number, kind, and mode, uid and gid.
pub(crate) fn check_front(words: &[u64], seq: u64, params: &Params) -> Result<Summed, Reason>
    requires { length words.now ≡ (geometry params.now).words }
    ensures passed { OnOk result (PassFront params.now words.now seq) }
    ensures fault { IfErr result (λ reason. slots.entry_of params.now words.now seq ≡ Err reason) }
    ensures words { IsWords (geometry params.now).words words.now }
    ensures zeros { IfOk result (λ seen. HasZeros words.now seen.has_gap seen.end) }
{
    // The contract alone speaks of them.
    let _ = params;
    let seen = check_crc(words)?;
    check_seq(words, seq)?;
    check_kind(words)?;
    check_attributes(words)?;
    Ok(seen)
}

/// Whether the words have an entry with this number, whose path is put into a field of zeros.
#[tactic(auto, unfolding(fam_format::specs::Slot::entry_of))]
fn check(
    words: &[u64],
    seq: u64,
    params: &Params,
    field: &mut [u8; PATH_LIMIT],
) -> Result<(), Reason>
    requires sound { SoundParams params.now }
    requires count { length words.now ≡ (geometry params.now).words }
    requires empty { (k : ℕ) → slice_index field.old k ≡ 0 }
    ensures value { MatchResult result
        (λ _. slots.entry_of params.now words.now seq ≡ Ok (slots.fields_of words.now))
        (λ reason. slots.entry_of params.now words.now seq ≡ Err reason) }
    ensures fields { OnOk result (HasFields words.now field.new) }
    ensures words { IsWords (geometry params.now).words words.now }
{
    let seen = check_front(words, seq, params)?;
    check_path(words, shape_of(params.format).path_limit, field)?;
    if !are_map_words(words) {
        return Err(Reason::Map);
    }
    if !fits_map(words, field, params) {
        return Err(Reason::Map);
    }
    check_rest(words, &seen)
}

/// Whether the words of slot `seq` are the spelling of an entry that these parameters allow, whose path is put into a
/// field of zeros; `checked_entry` then gives the entry. If they are no such spelling, the first reason against them, in
/// the order of `Reason`.
pub fn check_entry(
    words: &[u64],
    seq: u64,
    params: &Params,
    field: &mut [u8; PATH_LIMIT],
) -> Result<(), Reason>
    requires sound { SoundParams params.now }
    requires count { length words.now ≡ (geometry params.now).words }
    requires empty { (k : ℕ) → slice_index field.old k ≡ 0 }
    ensures value { read_as words.now result ≡ slots.entry_of params.now words.now seq }
    ensures proper { OnOk result (slots.Proper params.now (slots.fields_of words.now)) }
    ensures fields { OnOk result (HasFields words.now field.new) }
{
    check(words, seq, params, field)
}

/// The entry of which the words of slot `seq` are the spelling, where these parameters allow it; if they are no such
/// spelling, the first reason against them. The reasons come in the order of `Reason`, from `Crc` to `Rest`.
pub fn read_entry(words: &[u64], seq: u64, params: &Params) -> Result<Entry, Reason>
    requires sound { SoundParams params.now }
    requires count { length words.now ≡ (geometry params.now).words }

    ensures value { result ≡ slots.entry_of params.now words.now seq }

    ensures found { IfOk result (λ e.
        slots.Proper params.now e × (words.now ≡ slots.spelling (geometry params.now) e seq)) }
    ensures only { (e : Entry) → slots.Proper params.now e
        → words.now ≡ slots.spelling (geometry params.now) e seq → result ≡ Ok e }
{
    let mut field = [0; PATH_LIMIT];
    match check(words, seq, params, &mut field) {
        Ok(()) => Ok(checked_entry(words, &field)),
        Err(reason) => Err(reason),
    }
}
