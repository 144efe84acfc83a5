//! The words of a call, read as one of the program's commands.
//!
//! The first word is the command's name. The others are read as a simple command of `clap`, whose published definition
//! says what they mean (`specs/Simple.antt`, `specs/Apps.antt`); `specs/Values.antt` has the spellings of values, and
//! `specs/Calls.antt` what each command makes of them.
#![tactic(auto)]

mod apps;
mod dups;
mod invocations;
mod judges;
mod laws;
mod mails;
mod shadows;
mod shots;
mod simple;
mod values;
mod wanted;

pub use dups::read_dup_words;
pub use invocations::read_words;
pub use judges::read_judge_words;
pub use laws::uuids_of_words_are_uuids;
pub use mails::read_mail_words;
pub use shadows::read_shadow_words;
pub use wanted::{Call, DupCall, Invocation, JudgeCall, MailCall, ShadowCall, Shot};
