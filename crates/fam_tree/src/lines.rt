//! Entries and trees in print. `specs/Lines.antt` has the forms.

ghost use Rattle.std.specs.Prelude.{◌≡◌, [], ◌∷◌, ◌++◌, OnOk, IfOk, IfSome, length};
ghost use Rattle.std.specs.Fmt.{decimal};
ghost use Rattle.std.specs.List.{flat_map};
ghost use Rattle.std.specs.Bool.{OnTrue};
ghost use Rattle.fam_base.specs.declared.entry.Entry.{Entry};
ghost use Rattle.fam_tree.specs.FirstWords.{IsToldBy, first_words};
ghost use Rattle.fam_tree.specs.Lines.{kind_letter, octal_digit, mode_text, space, extent_text, extents_text, map_text, entry_line, listing_line, listing};
ghost use Rattle.fam_tree.specs.NextExtent.{next_text};
ghost use Rattle.fam_tree.specs.Runs.{AreWithin, run_of};

use crate::chunks::Chunks;
use crate::entry_ref::EntryRef;
use crate::tree::Tree;
use fam_base::{Entry, Extent, Kind, MapKind, OutOfMemory, escape, put_bytes};
use std::alloc::Global;
use std::marker::Model;

fn put_byte(byte: u8, into: &mut Vec<u8>) -> Result<(), OutOfMemory>
    ensures { OnOk result (into.new.items ≡ into.old.items ++ byte ∷ []) }
{
    match into.push(byte) {
        Ok(()) => Ok(()),
        Err(_) => Err(OutOfMemory),
    }
}

fn put_digits(n: u64, into: &mut Vec<u8>) -> Result<(), OutOfMemory>
    ensures { OnOk result (into.new.items ≡ into.old.items ++ decimal n) }
{
    let digit = b'0' + (n % 10) as u8;
    if n < 10 {
        return put_byte(digit, into);
    }
    put_digits(n / 10, into)?;
    put_byte(digit, into)
}

/// Puts a number's digits. Most numbers have one.
#[inline(always)]
pub(crate) fn put_decimal(n: u64, into: &mut Vec<u8>) -> Result<(), OutOfMemory>
    ensures { OnOk result (into.new.items ≡ into.old.items ++ decimal n) }
{
    if n < 10 {
        return put_byte(b'0' + (n % 10) as u8, into);
    }
    put_digits(n, into)
}

fn kind_letter(kind: Kind) -> u8
    ensures { result ∷ [] ≡ kind_letter kind }
{
    match kind {
        Kind::Directory => b'd',
        Kind::File => b'f',
    }
}

fn octal_digit(n: u32) -> u8
    ensures { result ≡ octal_digit n }
{
    b'0' + (n % 8) as u8
}

/// Puts the two words of fixed length, which come first, each with a space behind it.
fn put_kind_and_mode(kind: Kind, mode: u32, into: &mut Vec<u8>) -> Result<(), OutOfMemory>
    ensures { OnOk result (into.new.items
        ≡ into.old.items ++ (kind_letter kind ++ space ∷ (mode_text mode ++ space ∷ []))) }
{
    let words = [
        kind_letter(kind),
        b' ',
        octal_digit(mode / 512),
        octal_digit(mode / 64),
        octal_digit(mode / 8),
        octal_digit(mode),
        b' ',
    ];
    match into.extend_from_slice(&words) {
        Ok(()) => Ok(()),
        Err(_) => Err(OutOfMemory),
    }
}

fn put_extent(extent: Extent, into: &mut Vec<u8>) -> Result<(), OutOfMemory>
    ensures { OnOk result (into.new.items ≡ into.old.items ++ extent_text extent) }
{
    put_decimal(extent.offset, into)?;
    put_byte(b'+', into)?;
    put_decimal(extent.length, into)
}

fn put_next(extents: &[Extent], i: usize, into: &mut Vec<u8>) -> Result<(), OutOfMemory>
    ensures { OnOk result (into.new.items ≡ into.old.items ++ next_text extents.now i) }
{
    let Some(extent) = extents.get(i) else {
        return Ok(());
    };
    if i == 0 {
        return put_extent(*extent, into);
    }
    put_byte(b',', into)?;
    put_extent(*extent, into)
}

fn put_extents(extents: &[Extent], into: &mut Vec<u8>) -> Result<(), OutOfMemory>
    ensures { OnOk result (into.new.items ≡ into.old.items ++ extents_text extents.now) }
{
    for i in 0..extents.len() {
        put_next(extents, i, into)?;
    }
    Ok(())
}

fn put_map(map: MapKind, extents: &[Extent], into: &mut Vec<u8>) -> Result<(), OutOfMemory>
    ensures { OnOk result (into.new.items ≡ into.old.items ++ map_text map extents.now) }
{
    match map {
        MapKind::Empty => put_byte(b'-', into),
        MapKind::Simple => put_extents(extents, into),
        MapKind::Striped { chunk } => {
            put_decimal(chunk, into)?;
            put_byte(b':', into)?;
            put_extents(extents, into)
        }
    }
}

/// Puts the words in front of a path, each with a space behind it.
fn put_first_words(entry: &EntryRef<'_>, into: &mut Vec<u8>) -> Result<(), OutOfMemory>
    ensures { OnOk result (into.new.items ≡ into.old.items ++ first_words entry.now) }
{
    put_kind_and_mode(entry.kind(), entry.mode(), into)?;
    put_decimal(entry.uid() as u64, into)?;
    put_byte(b' ', into)?;
    put_decimal(entry.gid() as u64, into)?;
    put_byte(b' ', into)?;
    put_decimal(entry.size(), into)?;
    put_byte(b' ', into)?;
    put_map(entry.map(), entry.extents(), into)?;
    put_byte(b' ', into)
}

pub(crate) fn put_entry(entry: &EntryRef<'_>, into: &mut Vec<u8>) -> Result<(), OutOfMemory>
    ensures { OnOk result (into.new.items ≡ into.old.items ++ entry_line entry.now) }
{
    put_first_words(entry, into)?;
    escape(entry.path(), into)
}

/// What the words in front of a path tell of an entry without a map.
#[derive(Clone, Copy)]
struct Told {
    kind: Kind,
    size: u64,
    mode: u32,
    uid: u32,
    gid: u32,
}

/// What the words in front of an entry's path tell, where it has no map.
#[inline(always)]
fn told_of(entry: &EntryRef<'_>) -> Option<Told>
    ensures { IfSome result (λ told. IsToldBy entry.now told) }
{
    match entry.map() {
        MapKind::Empty => Some(Told {
            kind: entry.kind(),
            size: entry.size(),
            mode: entry.mode(),
            uid: entry.uid(),
            gid: entry.gid(),
        }),
        MapKind::Simple | MapKind::Striped { .. } => None,
    }
}

/// Whether two are the same.
#[inline(always)]
fn are_same(left: &Told, right: &Told) -> bool
    ensures { OnTrue result (left.now ≡ right.now) }
{
    left.kind == right.kind
        && left.size == right.size
        && left.mode == right.mode
        && left.uid == right.uid
        && left.gid == right.gid
}

/// The words in front of a path as they were printed last, of an entry without a map: the next line often begins with
/// the same ones, which are copied then. A contract sees their bytes.
#[derive(Drop)]
struct FirstWords {
    told: Option<Told>,
    text: Vec<u8>,
}

impl Model for FirstWords {
    ghost use Rattle.std.specs.Prelude.{List, ℕ};
    ghost use Rattle.fam_tree.specs.FirstWords.{AreTold};

    ghost Value = { List ℕ };

    ghost view = { λ w. w.text.items };

    ghost invariant = { λ w. AreTold w.told w.text.items };
}

impl FirstWords {
    /// None so far.
    fn new(alloc: Global) -> FirstWords {
        FirstWords {
            told: None,
            text: Vec::new(alloc),
        }
    }

    /// Whether they are those that tell this.
    #[inline(always)]
    fn tell(&self, told: &Told) -> bool
        ensures { OnTrue result ((e : Entry) → IsToldBy e told.now → self.now ≡ first_words e) }
    {
        match &self.told {
            Some(own) => are_same(own, told),
            None => false,
        }
    }

    /// Prints those of an entry, and puts them.
    #[inline(never)]
    fn put_anew(
        &mut self,
        entry: &EntryRef<'_>,
        told: &Told,
        into: &mut Vec<u8>,
    ) -> Result<(), OutOfMemory>
        requires { IsToldBy entry.now told.now }
        ensures { OnOk result (into.new.items ≡ into.old.items ++ first_words entry.now) }
    {
        self.told = None;
        self.text.clear();
        put_first_words(entry, &mut self.text)?;
        self.told = Some(*told);
        put_bytes(self.text.as_slice(), into)
    }

    /// Puts those of an entry.
    #[inline(always)]
    fn put(&mut self, entry: &EntryRef<'_>, into: &mut Vec<u8>) -> Result<(), OutOfMemory>
        ensures { OnOk result (into.new.items ≡ into.old.items ++ first_words entry.now) }
    {
        let Some(told) = told_of(entry) else {
            return put_first_words(entry, into);
        };
        if !self.tell(&told) {
            return self.put_anew(entry, &told, into);
        }
        put_bytes(self.text.as_slice(), into)
    }
}

/// Puts an entry's line. The words in front of its path are copied where they are those of the line before.
fn put_line(
    entry: &EntryRef<'_>,
    first: &mut FirstWords,
    into: &mut Vec<u8>,
) -> Result<(), OutOfMemory>
    ensures { OnOk result (into.new.items ≡ into.old.items ++ listing_line entry.now) }
{
    first.put(entry, into)?;
    escape(entry.path(), into)?;
    put_byte(b'\n', into)
}

/// Puts the lines of the entries at some places. No entry is built for it.
fn put_lines(
    entries: &Chunks,
    places: &[u32],
    first: &mut FirstWords,
    into: &mut Vec<u8>,
) -> Result<(), OutOfMemory>
    requires { AreWithin (length entries.now) places.now }
    ensures { OnOk result (into.new.items
        ≡ into.old.items ++ flat_map listing_line (run_of entries.now places.now)) }
{
    for place in places {
        put_line(&entries.borrowed_at(*place as usize), first, into)?;
    }
    Ok(())
}

/// An entry as a line of a listing, without the line feed: `KIND MODE UID GID SIZE MAP PATH`, with one space
/// between words. The mode has four octal digits, the last four of one above 4,095. The other numbers are
/// decimal; size, offsets, lengths and chunk are bytes. The path is printed as [`escape`] has it.
pub fn print_entry(alloc: Global, entry: &Entry) -> Result<Vec<u8>, OutOfMemory>
    ensures { IfOk result (λ text. text.items ≡ entry_line entry.now) }
{
    let mut text = Vec::new(alloc);
    put_entry(&EntryRef::of(entry), &mut text)?;
    Ok(text)
}

/// The lines of all entries of a tree, in byte order of their paths, each with a line feed behind it.
pub fn print_listing(alloc: Global, tree: &Tree) -> Result<Vec<u8>, OutOfMemory>
    ensures { IfOk result (λ text. text.items ≡ listing tree.now) }
{
    let mut text = Vec::new(alloc);
    let mut first = FirstWords::new(alloc);
    let (entries, runs) = tree.parts();
    for run in runs {
        put_lines(entries, run.places(), &mut first, &mut text)?;
    }
    Ok(text)
}
