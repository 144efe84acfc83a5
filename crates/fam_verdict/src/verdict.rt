//! Verdicts. `specs/Verdicts.antt` has what each says of a history.

use fam_causes::Cause;

/// What is known of a legal history.
#[derive(Clone, Copy)]
pub struct Known {
    /// How many lines its text has, with those that are passed over.
    pub lines: u64,
    /// How many entries are settled, where all states agree.
    pub settled: Option<u64>,
    /// Whether one more pends, where all states agree.
    pub pending: Option<bool>,
    /// How many states are possible.
    pub states: u64,
}

/// What is said of a history.
#[derive(Drop)]
pub enum Verdict {
    /// Hosts that keep the promise could have had it.
    Legal(Known),
    /// They could not have had its lines up to the note whose first line this is, counted from 1; and why.
    Illegal { line: u64, cause: Cause },
    /// This line is none of a note, from this column on, counted from 1.
    BadLine { line: u64, column: u64 },
}
