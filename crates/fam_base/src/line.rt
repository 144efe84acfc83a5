//! Lines of the image. A line is 64 bytes, eight little-endian words, and line `L` begins at byte `64 L`.

/// The eight words of a line, lowest address first.
pub type Line = [u64; 8];

/// The number of a line, from 0: lines, not bytes.
#[derive(Clone, Copy, Debug, PartialEq, Eq)]
pub struct LineNo(pub u64);

/// Some of the eight words of a line: bit `w` stands for word `w`.
#[derive(Clone, Copy, Debug, PartialEq, Eq)]
pub struct Mask(pub u8);

/// No memory is left. A call that answers so changed nothing but spare room, unless it says otherwise.
#[derive(Clone, Copy, Debug, PartialEq, Eq)]
pub struct OutOfMemory;
