//! Lines of scripts, read as events. `specs/Lines.antt` is the grammar: what each event and each command has for words.
//! `specs/Words.antt` cuts a line into words, `specs/Spellings.antt` and `Numbers.antt` spell single words, `specs/Options.antt`
//! has the options, and `specs/Scripts.antt` the line and the script as a whole.
#![tactic(auto)]

mod commands;
mod cursor;
mod defaults;
mod events;
mod fault;
mod keywords;
mod laws;
mod numbers;
mod options;
mod script;
mod spellings;
mod words;

pub use commands::{attr_of, file_options, fill_of};
pub use cursor::fitting;
pub use defaults::{DEFAULT_LOG, DEFAULT_UNIT, DIRECTORY_MODE, FILE_MODE};
pub use fault::LineFault;
pub use keywords::{CommandWord, Keyword, meaning};
pub use laws::{uuids_of_a_script_are_uuids, what_reads_is_sound};
pub use numbers::{number, size};
pub use options::{FileOptions, Takes};
pub use script::{read_line, words_of};
pub use spellings::{count_of, format_of, id_of, mode_of, value_behind};
pub use words::{Line, Word, Words};
