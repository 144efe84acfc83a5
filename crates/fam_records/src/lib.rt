//! A recorded history, read from its text note by note.
//!
//! `specs/Lines.antt` has the lines that tell something, `specs/Records.antt` a note with the lines behind its first one, and
//! `specs/Histories.antt` the history as a whole; `specs/ToldRecords.antt` says what a journal's text tells. The words of each line are
//! read by fam_history.
#![tactic(auto)]

mod laws;
mod record;
mod records;

pub use laws::a_printed_journal_reads;
pub use record::Record;
pub use records::Records;
