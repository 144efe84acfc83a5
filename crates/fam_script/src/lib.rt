//! What comes of a run: of the notes that a world keeps, their text, their counts and the status that they end with; the
//! directories along a path; and lines of scripts, since `read_line` is that of fam_grammar.
//!
//! A contract sees kept notes as notes of a journal (`fam_notes/specs/Notes.antt`), and cites what fam_outcomes says of
//! those, in its `specs/Texts.antt`, `Statuses.antt` and `Programs.antt`, and fam_journal in its `specs/Ends.antt`.
#![tactic(auto)]

mod answers;
mod commands;
mod components;
mod counts;
mod digits;
mod faults;
mod laws;
mod lines;
mod notes;
mod refusals;
mod reports;
mod statuses;
mod texts;

pub use answers::answer_text;
pub use components::prefixes;
pub use counts::{Counts, count_notes};
pub use fam_grammar::{LineFault, read_line};
pub use fam_journal::{Ask, Event};
pub use laws::a_printed_command_reads_as_itself;
pub use lines::{line, line_of, line_with, line_with_last_name};
pub use notes::{note_text, print_note};
pub use refusals::refusal_line;
pub use reports::is_sound;
pub use statuses::{
    is_done, is_good, last_status, last_stops, note_status, note_stops, parents_status,
};
pub use texts::{note_line, shown, storm_line, text_crc};
