//! Lines of a file that stand one behind another on the device. A run ends where an extent ends, or a chunk of a
//! striped file; a copy's file has one extent.

ghost use Rattle.std.specs.Prelude.{◌≡◌, ◌+◌, ◌*◌, ◌/◌, ◌%◌, ◌<◌, ◌≤◌, ℕ};
ghost use Rattle.fam_rules.specs.Place as places;
ghost use Rattle.fam_dup.specs.Runs.{AreTogether};

use fam_base::{Entry, Extent, MapKind};
use fam_format::LINE_BYTES;

/// How many bytes from place `offset` of the extents on stand one behind another: those that its extent has left.
fn simple_run(extents: &[Extent], offset: u64) -> u64
    ensures { (d : ℕ) → d < result → places.simple_place extents.now (offset + d) ≡ places.simple_place extents.now offset + d }
{
    let mut left = offset;
    for extent in extents {
        if left < extent.length {
            return extent.length - left;
        }
        left -= extent.length;
    }
    0
}

/// How many bytes from place `offset` on lie in one chunk.
fn chunk_run(chunk: u64, offset: u64) -> u64
    requires { 0 < chunk }
    ensures chunk { (d : ℕ) → d < result → (offset + d) / chunk ≡ offset / chunk }
    ensures place { (d : ℕ) → d < result → (offset + d) % chunk ≡ offset % chunk + d }
{
    chunk - offset % chunk
}

/// How many bytes of the file from byte `offset` on stand one behind another on the device.
fn bytes_together(entry: &Entry, offset: u64) -> u64
    requires file { places.IsProperEntry entry.now }
    requires below { offset < entry.now.size }
    ensures { (d : ℕ) → d < result → places.place entry.now (offset + d) ≡ places.place entry.now offset + d }
{
    match entry.map {
        MapKind::Empty => 0,
        MapKind::Simple => simple_run(entry.extents.as_slice(), offset),
        MapKind::Striped { chunk } => chunk_run(chunk, offset),
    }
}

/// How many lines of the file from line `j` on stand one behind another on the device: one at least, and no more than
/// `most`.
pub(crate) fn lines_together(entry: &Entry, j: u64, most: u64) -> u64
    requires file { places.IsProperEntry entry.now }
    requires below { places.line_bytes * j < entry.now.size }
    requires some { 0 < most }
    ensures some { 0 < result }
    ensures most { result ≤ most }
    ensures together { AreTogether entry.now j result }
{
    let lines = bytes_together(entry, LINE_BYTES * j) / LINE_BYTES;
    lines.min(most).max(1)
}
