//! The first difference of two lines.

ghost use Rattle.std.specs.Prelude.{◌≡◌, ◌+◌, ◌*◌, ◌%◌, ◌^◌, ◌<◌, ◌≤◌, length, true};
ghost use Rattle.fam_rules.specs.Content.{byte_in};
ghost use Rattle.fam_content.specs.Difference.{IsFirstDifference, IsFirstOfRun};

use fam_base::Line;
use fam_format::{LINE_WORDS, byte_of};

/// Byte `b` of a line.
fn byte_at(line: &Line, b: usize) -> u8
    requires { b < 64 }
    ensures { result ≡ byte_in line.now b }
{
    byte_of(line[b / 8], b % 8)
}

/// Whether two lines have the same words. No test waits for the one before it, so that they are made together.
#[inline(always)]
fn are_same(found: &Line, wanted: &Line) -> bool
    ensures { result ≡ true → found.now ≡ wanted.now }
{
    // The bits in which any two of the words differ.
    let mut differences = 0;
    for k in 0..LINE_WORDS {
        differences |= found[k] ^ wanted[k];
    }
    differences == 0
}

/// The first byte of the file at which the line that was found differs from the one that was wanted: its offset, the
/// byte found and the byte wanted. `start` is the file offset of the line, a multiple of 64. Bytes at or past `size`
/// are not looked at.
pub fn compare(found: &Line, wanted: &Line, start: u64, size: u64) -> Option<(u64, u8, u8)>
    requires { start % 64 ≡ 0 }
    ensures { IsFirstDifference found.now wanted.now start size result }
{
    if are_same(found, wanted) {
        return None;
    }
    'bytes: for b in 0..64 {
        let offset = start + b as u64;
        if offset >= size {
            return None;
        }
        let (is, should_be) = (byte_at(found, b), byte_at(wanted, b));
        if is != should_be {
            return Some((offset, is, should_be));
        }
    }
    None
}

/// The first of lines that stand one behind another in the file, as many as are wanted, which differs from the one that was
/// wanted in its place, and where: as `compare` of each of them tells. `start` is the file offset of the first line.
pub fn compare_lines(
    found: &[Line],
    wanted: &[Line],
    start: u64,
    size: u64,
) -> Option<(usize, (u64, u8, u8))>
    requires aligned { start % 64 ≡ 0 }
    requires few { length wanted.now ≤ length found.now }
    requires fits { start + 64 * length wanted.now < 2 ^ 64 }
    ensures { IsFirstOfRun found.now wanted.now start size result }
{
    'lines: for k in 0..wanted.len() {
        if let Some(difference) = compare(&found[k], &wanted[k], start + 64 * k as u64, size) {
            return Some((k, difference));
        }
    }
    None
}
