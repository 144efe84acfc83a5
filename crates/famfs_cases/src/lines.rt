//! The lines of a case file that say something.

ghost use Rattle.std.specs.Prelude.{◌<◌, IfSome, length};

use crate::stop::Stop;
use std::alloc::Global;

/// A line that is neither blank nor a comment.
#[derive(Clone, Copy)]
pub struct SourceLine<'a> {
    /// Its number in the file, from 1.
    pub number: u64,
    /// The column of the first byte of `text`, from 1.
    pub column: u64,
    /// What stands in it, without the spaces in front.
    pub text: &'a [u8],
}

impl SourceLine<'_> {
    /// Whether the line's first word is this one.
    pub fn begins_with(&self, word: &[u8]) -> bool {
        match self.text.strip_prefix(word) {
            Some(rest) => rest.is_empty() || rest[0] == b' ',
            None => false,
        }
    }
}

/// The lines of a case file, without those that are blank and those that begin with `#`.
pub fn source_lines(alloc: Global, text: &str) -> Result<Vec<SourceLine<'_>>, Stop> {
    let mut lines = Vec::new(alloc);
    let mut number = 0u64;
    for line in text.lines() {
        number = number.saturating_add(1);
        let whole = line.as_bytes();
        let text = whole.trim_ascii_start();
        if text.is_empty() || text[0] == b'#' {
            continue;
        }
        let column = (whole.len().saturating_sub(text.len()) as u64).saturating_add(1);
        if lines
            .push(SourceLine {
                number,
                column,
                text,
            })
            .is_err()
        {
            return Err(Stop::OutOfMemory);
        }
    }
    Ok(lines)
}

/// The place of the `end` of the loop whose `each` stands in front of these lines.
pub fn end_of_loop(lines: &[SourceLine<'_>]) -> Option<usize>
    ensures { IfSome result (λ at. at < length lines.now) }
{
    let mut inner = 0u64;
    for (at, line) in lines.iter().enumerate() {
        if line.begins_with(b"each") {
            inner = inner.saturating_add(1);
        }
        if line.begins_with(b"end") {
            if inner == 0 {
                return Some(at);
            }
            inner -= 1;
        }
    }
    None
}
