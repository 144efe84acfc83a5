//! A line of a script and its words, read from the left.

ghost use Rattle.std.specs.Prelude.{◌+◌, ◌^◌, ◌<◌};

/// Which line it is, counted from 1, and the column behind its end.
#[derive(Clone, Copy)]
pub struct Line {
    pub number: u64,
    pub end: u64,
}

/// A word, and the column of its first byte, counted from 1.
#[derive(Clone, Copy)]
pub struct Word<'a> {
    pub column: u64,
    pub text: &'a [u8],
}

/// What is left of a line, and the column at which it begins.
#[derive(Clone, Copy)]
pub struct Words<'a> {
    pub column: u64,
    pub bytes: &'a [u8],
}
