//! The notes of a journal, as values that a run keeps: what a host is told, what its task says, what comes of it, and
//! why a call is refused.
//!
//! `specs/Notes.antt` reads a `Note` as the note of `fam_journal/specs/Notes.antt` that it stands for, and
//! `specs/Commands.antt` a `NotedCommand` as the command that it is.
#![tactic(auto)]

mod note;
mod noted_command;
mod path_text;

pub use note::Note;
pub use noted_command::NotedCommand;
pub use path_text::PathText;
