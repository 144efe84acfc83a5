//! An entry that reads, how many there are of each kind, and the first that shares a unit with another.

ghost use Rattle.std.specs.Prelude.{◌≡◌, ◌||◌, ℕ, ◌<◌, ◌≤◌, length, [], ◌∷◌, ◌++◌, find, option_map, count_by, List, Option};
ghost use Rattle.std.specs.List.{All};
ghost use Rattle.fam_base.specs.declared.entry.Params.{Params};
ghost use Rattle.fam_format.specs.Units.{first_overlap, is_used, units_in};
ghost use Rattle.fam_format.specs.declared.faults.Reason.{Reason};
ghost use Rattle.fam_alloc.specs.Taken.{holds, is_taken, LieWithin};
ghost use Rattle.fam_rules.specs.Reports.{is_file, is_directory, overlap_of, overlaps};
ghost use Rattle.fam_fsck.specs.declared.found.Found.{Found};
ghost use Rattle.fam_fsck.specs.Found.{found_entries, found_as, LiesWithin, pair_of, pairs_of};

use crate::found_list::FoundList;
use fam_alloc::{MOST_UNITS, UsedUnits, repeats_unit, shares_unit};
use fam_base::{Entry, Kind};
use fam_tree::EntryRef;

/// An entry that reads, with its number.
#[derive(Clone, Copy)]
pub struct Found {
    pub number: u64,
    pub entry: Entry,
    /// Whether it applied to the tree of the entries that applied before it.
    pub applies: bool,
}

/// Whether a unit stands in the extents of an earlier entry and of the last one; for the last beside itself, whether
/// one stands there twice.
fn overlap(earlier: &Found, number: u64, last: &Entry, unit: u64, units: u64) -> bool
    requires unit { 0 < unit }
    requires first { LiesWithin unit units earlier.now }
    requires second { LieWithin unit units last.now.extents }
    requires few { units ≤ MOST_UNITS }
    ensures { result ≡ overlaps unit (pair_of earlier.now, (number, last.now)) }
{
    if earlier.number == number {
        return repeats_unit(&last.extents, unit, units);
    }
    shares_unit(&earlier.entry.extents, &last.extents, unit, units)
}

/// The number of the first entry that shares a unit with the last one.
fn partner(found: &FoundList, number: u64, last: &Entry, unit: u64, units: u64) -> Option<u64>
    requires unit { 0 < unit }
    requires first { All (LiesWithin unit units) found.now }
    requires second { LieWithin unit units last.now.extents }
    requires few { units ≤ MOST_UNITS }
    ensures { result ≡ option_map (λ f. f.number)
        (find (λ f. overlaps unit (pair_of f, (number, last.now))) found.now) }
{
    for place in 0..found.len() {
        let earlier = found.at(place);
        if overlap(&earlier, number, last, unit, units) {
            return Some(earlier.number);
        }
    }
    None
}

/// The same of an entry that is borrowed. It stands apart, since it is rare.
#[inline(never)]
fn partner_of(
    found: &FoundList,
    number: u64,
    last: &EntryRef<'_>,
    unit: u64,
    units: u64,
) -> Option<u64>
    requires unit { 0 < unit }
    requires first { All (LiesWithin unit units) found.now }
    requires second { LieWithin unit units last.now.extents }
    requires few { units ≤ MOST_UNITS }
    ensures { result ≡ option_map (λ f. f.number)
        (find (λ f. overlaps unit (pair_of f, (number, last.now))) found.now) }
{
    partner(found, number, &last.to_entry(), unit, units)
}

/// The first unit of an entry that is used, or that stands twice in it. Most entries have no extents.
fn first_shared(used: &UsedUnits, last: &EntryRef<'_>, unit: u64) -> Option<u64>
    requires unit { 0 < unit }
    requires within { LieWithin unit (length used.now) last.now.extents }
    ensures { result ≡ first_overlap (is_taken used.now) (units_in unit last.now.extents) }
{
    if last.extents().is_empty() {
        return None;
    }
    used.first_overlap(&last.to_extents(), unit)
}

/// Marks the units of an entry as used, whether they were or not.
pub fn cover(used: &mut UsedUnits, entry: &EntryRef<'_>, unit: u64)
    requires unit { 0 < unit }
    requires within { LieWithin unit (length used.old) entry.now.extents }
    ensures value { (u : ℕ) → is_taken used.new u
        ≡ (is_taken used.old u || holds (units_in unit entry.now.extents) u) }
    ensures units { length used.new ≡ length used.old }
{
    if entry.extents().is_empty() {
        return;
    }
    used.cover(&entry.to_extents(), unit);
}

/// The least pair of entries that overlap, where `last`, of this number, came behind entries whose least pair and whose
/// units are known. Only the first entry that overlaps is looked at beside each one before it.
pub fn least_overlap(
    known: Option<(u64, u64)>,
    used: &UsedUnits,
    found: &FoundList,
    number: u64,
    last: &EntryRef<'_>,
    unit: u64,
) -> Option<(u64, u64)>
    requires unit { 0 < unit }
    requires first { All (LiesWithin unit (length used.now)) found.now }
    requires second { LieWithin unit (length used.now) last.now.extents }
    ensures { (p : Params) (before : List Found) (fault : Option Reason) → p.unit ≡ unit
        → found.now ≡ before ++ found_as number last.now fault ∷ []
        → ((u : ℕ) → is_taken used.now u ≡ is_used p (found_entries before) u)
        → known ≡ overlap_of unit (pairs_of before) → result ≡ overlap_of unit (pairs_of found.now) }
{
    if let Some(pair) = known {
        return Some(pair);
    }
    if first_shared(used, last, unit).is_none() {
        return None;
    }
    match partner_of(found, number, last, unit, used.units()) {
        Some(earlier) => Some((earlier, number)),
        None => None,
    }
}

/// Whether this is the kind of a file.
fn is_file(kind: Kind) -> bool
    ensures { result ≡ is_file kind }
{
    matches!(kind, Kind::File)
}

/// Whether this is the kind of a directory.
fn is_directory(kind: Kind) -> bool
    ensures { result ≡ is_directory kind }
{
    matches!(kind, Kind::Directory)
}

/// How many of the entries are files.
pub fn count_files(found: &FoundList) -> u64
    ensures { result ≡ count_by (λ e. is_file e.kind) (found_entries found.now) }
{
    let mut count = 0;
    for place in 0..found.len() {
        if is_file(found.kind_at(place)) {
            count += 1;
        }
    }
    count
}

/// How many of them are directories.
pub fn count_directories(found: &FoundList) -> u64
    ensures { result ≡ count_by (λ e. is_directory e.kind) (found_entries found.now) }
{
    let mut count = 0;
    for place in 0..found.len() {
        if is_directory(found.kind_at(place)) {
            count += 1;
        }
    }
    count
}
