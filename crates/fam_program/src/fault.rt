//! Why notes were not put, and why a script isn't run.

use fam_sources::SourceEnd;

/// Why notes were not put.
#[derive(Clone, Copy, Debug, PartialEq, Eq)]
pub enum PutFault {
    /// The output could not be written.
    Sink,
    /// No memory was left for their text.
    OutOfMemory,
}

/// Why no event of a file's script is run.
#[derive(Clone, Copy, Debug, PartialEq, Eq)]
pub enum ScriptFault {
    /// No file has the name.
    NoFile,
    /// It has so many bytes, which are too many.
    TooLong(u64),
    /// It could not be read to its end.
    Ended(SourceEnd),
    /// Line and column, both counted from 1, of the first word that doesn't fit.
    BadLine { line: u64, column: u64 },
    /// No memory was left for it.
    OutOfMemory,
}
