//! The bytes of fills beside others, as far as the first that differs.

ghost use Rattle.std.specs.Prelude.{◌≡◌, ◌↔◌, ◌+◌, ◌-◌, ◌*◌, ◌%◌, ◌<◌, ◌≤◌, ℕ, IsTrue, length, slice_index};
ghost use Rattle.fam_rules.specs.Content.{byte_in, content_byte};

use fam_base::{Content, Line};
use fam_content::{ContentStream, compare, holds_bytes, lines_of};
use fam_format::byte_of;

/// Whether two contents have the same bytes below an offset.
pub(crate) fn have_same(a: &Content, b: &Content, end: u64) -> bool
    ensures { IsTrue result ↔ ((i : ℕ) → i < end → content_byte a.now i ≡ content_byte b.now i) }
{
    holds_bytes(a);
    holds_bytes(b);
    let mut first = ContentStream::new(a);
    let mut second = ContentStream::new(b);
    'lines: for j in 0..lines_of(end) {
        let found = first.line(a, end);
        let wanted = second.line(b, end);
        match compare(&found, &wanted, 64 * j, end) {
            Some(_) => return false,
            None => {}
        }
    }
    true
}

/// Byte `b` of a line.
fn byte_at(line: &Line, b: usize) -> u8
    requires { b < 64 }
    ensures { result ≡ byte_in line.now b }
{
    byte_of(line[b / 8], b % 8)
}

/// Whether byte `b` of a line, which is the file's byte `at`, is the one given of the file, where one is.
fn byte_has(line: &Line, b: usize, at: u64, offset: u64, given: &[u8]) -> bool
    requires { b < 64 }
    ensures { IsTrue result ↔ ((i : ℕ) → i < length given.now → offset + i ≡ at
        → byte_in line.now b ≡ slice_index given.now i) }
{
    if at < offset || at - offset >= given.len() as u64 {
        return true;
    }
    byte_at(line, b) == given[(at - offset) as usize]
}

/// Whether the bytes of a line of a file, which begins at byte `start`, are those given of the file from byte `offset` on.
fn line_has(line: &Line, start: u64, offset: u64, given: &[u8]) -> bool
    requires { start % 64 ≡ 0 }
    ensures { IsTrue result ↔ ((i : ℕ) → i < length given.now → start ≤ offset + i → offset + i < start + 64
        → byte_in line.now (offset + i - start) ≡ slice_index given.now i) }
{
    if offset > start && offset - start >= 64 {
        return true;
    }
    'bytes: for b in 0..64 {
        if !byte_has(line, b, start + b as u64, offset, given) {
            return false;
        }
    }
    true
}

/// Whether a content of a file of `size` bytes has these from byte `offset` on.
pub(crate) fn content_has(content: &Content, size: u64, offset: u64, given: &[u8]) -> bool
    requires { offset + length given.now ≤ size }
    ensures { IsTrue result ↔ ((i : ℕ) → i < length given.now
        → content_byte content.now (offset + i) ≡ slice_index given.now i) }
{
    holds_bytes(content);
    let mut stream = ContentStream::new(content);
    'lines: for j in 0..lines_of(offset + given.len() as u64) {
        let line = stream.line(content, size);
        if !line_has(&line, 64 * j, offset, given) {
            return false;
        }
    }
    true
}
