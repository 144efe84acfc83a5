//! A recorded history of hosts: the words of its lines, read back as what a journal's text tells.
//!
//! `specs/ToldNotes.antt`, `Told.antt`, `ToldRefusals.antt` and `ToldAnswers.antt` say what a text tells. `specs/Notes.antt` is
//! the grammar of a note's first line; `specs/Commands.antt`, `ListedEntries.antt`, `Refusals.antt`, `Answers.antt` and
//! `ReportLines.antt` are those of a command as it starts, of an entry that a task writes, of a refusal, of an answer's first
//! line and of a report's other lines. Lines are cut into words as those of every script, by fam_grammar.
#![tactic(auto)]

mod answer;
mod answers;
mod byte_words;
mod command;
mod commands;
mod entries;
mod faults;
mod laws;
mod literals;
mod note;
mod notes;
mod refusal;
mod refusals;
mod report_lines;

pub use answer::ToldAnswer;
pub use answers::told_answer;
pub use command::ToldCommand;
pub use commands::told_command;
pub use entries::told_entry;
pub use laws::{
    a_host_has_its_number, a_printed_answer_reads, a_printed_command_reads, a_printed_entry_reads,
    a_printed_note_reads, a_printed_refusal_reads, a_printed_report_reads,
};
pub use note::{LineNote, ToldLine, ToldParams};
pub use notes::{host_number, told_history_line};
pub use refusal::ToldRefusal;
pub use refusals::told_refusal;
pub use report_lines::{
    told_bad_entry, told_files, told_log, told_overlap, told_past, told_superblock, told_units,
};
