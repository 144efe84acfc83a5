//! A note as a history tells it. `specs/Records.antt` has what is read of its lines.

use fam_base::Entry;
use fam_history::ToldLine;
use fam_rules::Report;

/// A note.
#[derive(Drop)]
pub struct Record {
    /// The number of its first line, from 1.
    pub line: u64,
    /// What that line tells.
    pub told: ToldLine,
    /// The entries of a listing that was played.
    pub entries: Vec<Entry>,
    /// What a check of the file system found.
    pub report: Option<Report>,
}

/// The lines that follow a note's first one.
#[derive(Clone, Copy)]
pub(crate) enum Further {
    Nothing,
    /// So many, an entry each.
    Entries(u64),
    /// The seven others of a report.
    Report,
}
