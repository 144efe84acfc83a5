//! The lines of a file: line `j` has its bytes `64 j` to `64 j + 63`.

ghost use Rattle.std.specs.Prelude.{◌≡◌, ◌↔◌, ◌+◌, ◌*◌, ◌/◌, ◌<◌, ◌≤◌, ℕ};
ghost use Rattle.std.specs.Int.{div_ceil};
ghost use Rattle.fam_rules.specs.Place as places;

use crate::places::{bytes_in_row, place};
use fam_base::{Entry, LineNo};
use fam_format::LINE_BYTES;

/// The device's line that holds line `j` of the file, all of its 64 bytes in their order.
pub fn file_line(entry: &Entry, j: u64) -> LineNo
    requires file { places.IsProperEntry entry.now }
    requires below { places.line_bytes * j < entry.now.size }

    ensures value { result.0 ≡ places.place entry.now (places.line_bytes * j) / places.line_bytes }
    ensures bytes { (b : ℕ) → b < places.line_bytes
        → places.place entry.now (places.line_bytes * j + b) ≡ places.line_bytes * result.0 + b }
{
    LineNo(place(entry, LINE_BYTES * j) / LINE_BYTES)
}

/// How many lines hold `size` bytes: `size / 64`, rounded up.
pub fn lines_of(size: u64) -> u64
    ensures value { result ≡ div_ceil size places.line_bytes }
    ensures each { (j : ℕ) → (places.line_bytes * j < size) ↔ (j < result) }
{
    size.div_ceil(LINE_BYTES)
}

/// How many lines of the file from line `j` on stand one behind another on the device, as far as line `j`'s extent or chunk
/// goes, but no more than `most`.
pub fn lines_in_row(entry: &Entry, j: u64, most: u64) -> u64
    requires file { places.IsProperEntry entry.now }
    requires below { places.line_bytes * j < entry.now.size }

    ensures most { result ≤ most }
    ensures below { (k : ℕ) → k < result → places.line_bytes * (j + k) < entry.now.size }
    ensures each { (k : ℕ) → k < result → places.place entry.now (places.line_bytes * (j + k)) / places.line_bytes
        ≡ places.place entry.now (places.line_bytes * j) / places.line_bytes + k }
{
    let start = LINE_BYTES * j;
    let bytes = bytes_in_row(entry, start).min(entry.size - start);
    lines_of(bytes).min(most)
}
