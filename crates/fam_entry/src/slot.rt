//! Entries as the words of a slot: one function a field, and `word_of` for the table of the words.

ghost use Rattle.std.specs.Prelude.{◌≡◌, ◌<◌, ◌≤◌, length, slice_index_or};
ghost use Rattle.fam_base.specs.ExtentLists.{no_extent};
ghost use Rattle.fam_format.specs.Layout as layout;
ghost use Rattle.fam_format.specs.Layout.{Geometry};
ghost use Rattle.fam_format.specs.Slot as slots;
ghost use Rattle.fam_entry.specs.Tests.{HasZeros};

use crate::places::{
    CHUNK_WORD, COUNT_WORD, DIRECTORY_KIND, EMPTY_MAP, EXTENTS_WORD, FILE_KIND, GID_WORD,
    KIND_WORD, MAP_WORD, MODE_WORD, PATH_LENGTH_WORD, PATH_WORD, SEQ_WORD, SIMPLE_MAP, SIZE_WORD,
    STRIPED_MAP, UID_WORD,
};
use fam_base::{Entry, Extent, Extents, Kind, MapKind};
use fam_crc::{Summed, crc_words, sum_words};
use fam_format::{MOST_SLOT_WORDS, shape_of, word_of_bytes};
use std::marker::Model;

/// What stands in the words past the last extent.
const NO_EXTENT: Extent = Extent {
    offset: 0,
    length: 0,
};

fn extent_or_none(extents: &Extents, i: u64) -> Extent
    ensures { result ≡ slice_index_or extents.now i no_extent }
{
    match extents.at(i) {
        Some(extent) => extent,
        None => NO_EXTENT,
    }
}

fn word_of_extents(extents: &Extents, j: usize) -> u64
    ensures { result ≡ slots.extent_word extents.now j }
{
    let extent = extent_or_none(extents, j as u64 / 2);
    if j % 2 == 0 {
        extent.offset
    } else {
        extent.length
    }
}

fn word_of_kind(kind: Kind) -> u64
    ensures { result ≡ slots.kind_word kind }
{
    match kind {
        Kind::File => FILE_KIND,
        Kind::Directory => DIRECTORY_KIND,
    }
}

fn word_of_map(map: MapKind) -> u64
    ensures { result ≡ slots.map_word map }
{
    match map {
        MapKind::Empty => EMPTY_MAP,
        MapKind::Simple => SIMPLE_MAP,
        MapKind::Striped { .. } => STRIPED_MAP,
    }
}

fn word_of_chunk(map: MapKind) -> u64
    ensures { result ≡ slots.chunk_word map }
{
    match map {
        MapKind::Empty | MapKind::Simple => 0,
        MapKind::Striped { chunk } => chunk,
    }
}

#[tactic(auto, unfolding(fam_format::specs::Slot::slot_word_at))]
fn word_of(entry: &Entry, seq: u64, i: usize) -> u64
    requires { i < MOST_SLOT_WORDS }
    ensures { result ≡ slots.slot_word_at entry.now seq i }
{
    match i {
        SEQ_WORD => seq,
        KIND_WORD => word_of_kind(entry.kind),
        SIZE_WORD => entry.size,
        MODE_WORD => entry.mode as u64,
        UID_WORD => entry.uid as u64,
        GID_WORD => entry.gid as u64,
        PATH_LENGTH_WORD => entry.path.bytes().len() as u64,
        MAP_WORD => word_of_map(entry.map),
        CHUNK_WORD => word_of_chunk(entry.map),
        COUNT_WORD => entry.extents.len(),
        EXTENTS_WORD..PATH_WORD => word_of_extents(&entry.extents, i - EXTENTS_WORD),
        _ => word_of_bytes(entry.path.bytes(), i - PATH_WORD),
    }
}

/// What the checksum of these words should be, and which of them are 0.
pub(crate) fn sum_before(words: &[u64]) -> Summed
    requires { 64 ≤ length words.now }
    ensures value { (g : Geometry) → length words.now ≡ g.words → result.crc ≡ slots.slot_crc g words.now }
    ensures zeros { HasZeros words.now result.has_gap result.end }
{
    sum_words(&words[..words.len() - 1])
}

/// The words of a slot.
///
/// A contract sees a `Slot` as the list of its words: 64 in the first format, 128 in the second.
#[derive(Drop)]
pub struct Slot {
    words: [u64; MOST_SLOT_WORDS],
    len: usize,
}

impl Model for Slot {
    ghost use Rattle.std.specs.Prelude.{List, ℕ, ◌≤◌, take};
    ghost use Rattle.fam_format.specs.declared.shape.TheConstants.{MOST_SLOT_WORDS};

    ghost Value = { List ℕ };

    ghost view = { λ s. take s.len s.words };

    ghost invariant = { λ s. s.len ≤ MOST_SLOT_WORDS };
}

impl Slot {
    /// The words.
    pub fn words(&self) -> &[u64]
        ensures same { result.now ≡ self.now }
        ensures few { length self.now ≤ MOST_SLOT_WORDS }
    {
        &self.words[..self.len]
    }
}

/// The words of the slot that holds entry number `seq` in a log of this format: its fields, zeros in all unused parts, and
/// the checksum.
pub fn spell(entry: &Entry, seq: u64, format: u64) -> Slot
    ensures { result ≡ slots.spelling (layout.shape_of format) entry.now seq }
{
    let shape = shape_of(format);
    let last = shape.words - 1;
    let mut words = [0; MOST_SLOT_WORDS];
    for i in 0..last {
        words[i] = word_of(entry, seq, i);
    }
    words[last] = crc_words(&words[..last]) as u64;
    Slot {
        words,
        len: shape.words,
    }
}
