//! Scripts over a mailbox: their lines read as events, and what comes of them in print.
//!
//! `specs/Lines.antt` is the grammar, `specs/Texts.antt` has the lines of the notes, and `specs/Statuses.antt` what they count
//! for. Lines are cut into words as those of every script, by fam_grammar.
#![tactic(auto)]

mod events;
mod keywords;
mod numbers;
mod script;
mod statuses;
mod texts;

pub use script::{read_mail_line, read_mail_script};
pub use statuses::{is_good, note_status};
pub use texts::note_line;
