//! The device's byte of a file's byte.

ghost use Rattle.std.specs.Prelude.{◌≡◌, ◌+◌, ◌^◌, ◌<◌, ℕ, length};
ghost use Rattle.fam_base.specs.declared.entry.Params.{Params};
ghost use Rattle.fam_format.specs.Params.{SoundParams};
ghost use Rattle.fam_format.specs.Slot.{Proper};
ghost use Rattle.fam_format.specs.Units.{units_in};
ghost use Rattle.fam_rules.specs.Place as places;

use fam_base::{Entry, Extent, MapKind};

/// The byte at place `offset` of the extents laid end to end.
fn simple_place(extents: &[Extent], offset: u64) -> u64
    requires { places.simple_place extents.now offset < 2 ^ 64 }
    ensures { result ≡ places.simple_place extents.now offset }
{
    let mut left = offset;
    for extent in extents {
        if left < extent.length {
            return extent.offset + left;
        }
        left -= extent.length;
    }
    0
}

/// The byte at place `offset` of the chunks that are dealt to the strips in turn.
fn striped_place(strips: &[Extent], chunk: u64, offset: u64) -> u64
    requires some { 0 < length strips.now }
    requires chunk { 0 < chunk }
    requires fits { places.striped_place strips.now chunk offset < 2 ^ 64 }
    ensures { result ≡ places.striped_place strips.now chunk offset }
{
    let count = strips.len() as u64;
    let number = offset / chunk;
    let strip = strips[(number % count) as usize];
    strip.offset + (number / count * chunk + offset % chunk)
}

/// The device's byte that holds byte `offset` of the file. It lies in one of the file's extents, and so behind the
/// log and within the device. Where no unit stands twice in these extents, it holds no other byte of the file.
pub fn place(entry: &Entry, offset: u64) -> u64
    requires file { places.IsProperEntry entry.now }
    requires below { offset < entry.now.size }

    ensures value { result ≡ places.place entry.now offset }
    ensures within { places.IsIn entry.now.extents result }
    ensures apart { (p : Params) (other : ℕ) → SoundParams p → Proper p entry.now
        → places.IsOnce (units_in p.unit entry.now.extents) → other < entry.now.size
        → places.place entry.now other ≡ result → other ≡ offset }
{
    match entry.map {
        MapKind::Empty => 0,
        MapKind::Simple => simple_place(entry.extents.as_slice(), offset),
        MapKind::Striped { chunk } => striped_place(entry.extents.as_slice(), chunk, offset),
    }
}

/// How many bytes from byte `offset` on stand one behind another in the extents laid end to end.
fn simple_row(extents: &[Extent], offset: u64) -> u64
    ensures { (d : ℕ) → d < result
        → places.simple_place extents.now (offset + d) ≡ places.simple_place extents.now offset + d }
{
    let mut left = offset;
    for extent in extents {
        if left < extent.length {
            return extent.length - left;
        }
        left -= extent.length;
    }
    0
}

/// How many bytes of the file from byte `offset` on stand one behind another on the device, as far as its extent or its
/// chunk goes.
pub(crate) fn bytes_in_row(entry: &Entry, offset: u64) -> u64
    requires file { places.IsProperEntry entry.now }
    requires below { offset < entry.now.size }

    ensures { (d : ℕ) → d < result → places.place entry.now (offset + d) ≡ places.place entry.now offset + d }
{
    match entry.map {
        MapKind::Empty => 0,
        MapKind::Simple => simple_row(entry.extents.as_slice(), offset),
        MapKind::Striped { chunk } => chunk - offset % chunk,
    }
}
