//! Reading of a slot whose path is short and which has no map, as most have none. Its path needs no field that has room
//! for the longest one, and is looked at where the words put it.

ghost use Rattle.std.specs.Prelude.{◌≡◌, ◌<◌, ◌≤◌, ◌^◌, ℕ, IsTrue, MatchResult, IfOk, Ok, Err, length, slice_index};
ghost use Rattle.fam_base.specs.Paths.{is_path};
ghost use Rattle.std.specs.Bool.{OnTrue};
ghost use Rattle.fam_format.specs.Layout.{geometry};
ghost use Rattle.fam_format.specs.Params.{SoundParams};
ghost use Rattle.fam_format.specs.Slot as slots;
ghost use Rattle.fam_format.specs.Words.{byte_from};
ghost use Rattle.fam_entry.specs.Short.{IsShort};

use crate::fields::{are_path, kind_of};
use crate::places::{
    CHUNK_WORD, COUNT_WORD, GID_WORD, KIND_WORD, MAP_WORD, MODE_WORD, PATH_LENGTH_WORD, PATH_WORD,
    SIZE_WORD, UID_WORD,
};
use crate::reading::{check_front, check_rest};
use fam_base::{MapKind, Params};
use fam_format::Reason;
use fam_tree::EntryRef;

/// The most bytes of a short path.
const SHORT_PATH: usize = 32;

/// How many words that is.
const SHORT_WORDS: usize = 4;

/// Whether the words tell a short path, and neither bytes nor a map.
#[inline(always)]
pub fn is_short(words: &[u64]) -> bool
    requires { 64 ≤ length words.now }
    ensures { OnTrue result (IsShort words.now) }
{
    (words[PATH_LENGTH_WORD] <= SHORT_PATH as u64)
        & (words[SIZE_WORD] == 0)
        & (words[MAP_WORD] == 0)
        & (words[CHUNK_WORD] == 0)
        & (words[COUNT_WORD] == 0)
}

/// The bytes of a short path, and behind it what else its words hold.
#[inline(always)]
pub fn short_path(words: &[u64]) -> [u8; SHORT_PATH]
    requires { 64 ≤ length words.now }
    ensures { (k : ℕ) → k < SHORT_PATH → slice_index result k ≡ byte_from slots.path_word words.now k }
{
    let mut field = [0; SHORT_PATH];
    for i in 0..SHORT_WORDS {
        let bytes = words[PATH_WORD + i].to_le_bytes();
        field[8 * i..8 * i + 8].copy_from_slice(&bytes);
    }
    field
}

/// The entry of a slot whose words were checked, borrowed from its path.
#[inline(always)]
#[tactic(auto, unfolding(fam_format::specs::Slot::fields_of))]
fn short_entry<'a>(words: &[u64], path: &'a [u8]) -> EntryRef<'a>
    requires long { 64 ≤ length words.now }
    requires short { IsShort words.now }
    requires path { path.now ≡ slots.path_of words.now }
    requires name { IsTrue (is_path path.now) }
    requires mode { slice_index words.now MODE_WORD < 2 ^ 32 }
    requires uid { slice_index words.now UID_WORD < 2 ^ 32 }
    requires gid { slice_index words.now GID_WORD < 2 ^ 32 }
    ensures { result ≡ slots.fields_of words.now }
{
    EntryRef {
        kind: kind_of(words[KIND_WORD]),
        map: MapKind::Empty,
        size: 0,
        mode: words[MODE_WORD] as u32,
        uid: words[UID_WORD] as u32,
        gid: words[GID_WORD] as u32,
        path,
        extents: &[],
    }
}

/// The entry of which the words of slot `seq` are the spelling, as `read_entry` finds it, borrowed: the words tell a
/// short path and no map, and `short_path` gave the bytes.
#[inline(always)]
pub fn read_short<'a>(
    words: &[u64],
    seq: u64,
    params: &Params,
    bytes: &'a [u8; SHORT_PATH],
) -> Result<EntryRef<'a>, Reason>
    requires sound { SoundParams params.now }
    requires count { length words.now ≡ (geometry params.now).words }
    requires long { 64 ≤ length words.now }
    requires short { IsShort words.now }
    requires bytes { (k : ℕ) → k < SHORT_PATH → slice_index bytes.now k ≡ byte_from slots.path_word words.now k }
    ensures value { MatchResult result
        (λ entry. slots.entry_of params.now words.now seq ≡ Ok entry)
        (λ reason. slots.entry_of params.now words.now seq ≡ Err reason) }
    ensures proper { IfOk result (slots.Proper params.now) }
{
    let seen = check_front(words, seq, params)?;
    let path = &bytes[..words[PATH_LENGTH_WORD] as usize];
    if !are_path(path) {
        return Err(Reason::BadPath);
    }
    check_rest(words, &seen)?;
    Ok(short_entry(words, path))
}
