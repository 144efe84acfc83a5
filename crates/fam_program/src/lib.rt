//! Runs of events, with what is put of them.
//!
//! `specs/Far.antt` says how far a run has come, `specs/Runs.antt` how it has ended, `specs/Scripts.antt` what a script
//! puts of it, `specs/Files.antt` what a file's script is, and `specs/Shots.antt` what a command of its own puts; the
//! definitions are those of fam_outcomes, as is `TopEnds`, which says it of each of the program's commands.
#![tactic(auto)]

mod dups;
mod fault;
mod laws;
mod line_by_line;
mod lines;
mod no_files;
mod numbers;
mod parents;
mod puts;
mod read;
mod script;
mod script_file;
mod shadows;
mod shots;
mod storms;
mod unprinted;

pub use dups::{copy_file_system, put_made};
pub use fault::{PutFault, ScriptFault};
pub use laws::a_shadow_is_of_a_logplay;
pub use puts::{put_line, put_memory, put_usage};
pub use read::read_script;
pub use script::{is_image, run_script};
pub use script_file::{SCRIPT_LIMIT, put_unread, run_script_file, script_bytes};
pub use shadows::write_shadow;
pub use shots::{make_file_system, make_parents, run_command};
pub use storms::run_storm;
