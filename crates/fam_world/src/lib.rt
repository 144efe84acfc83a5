//! Any number of hosts over one media, operation by operation, and their journal.
//!
//! A contract sees a `World` as its hosts, each with its cache and the task that it runs, and the notes of its journal
//! (`fam_journal/specs/View.antt`). Each call promises the record that `fam_journal/specs/CallRecords.antt` has for it, and
//! `steps` that of each of its steps (`specs/Counted.antt`).
#![tactic(auto)]

mod concluding;
mod fault;
mod find;
mod hosts;
mod notes;
mod run;
mod world;

pub use fam_journal::{HostId, Refusal, is_command};
pub use fam_notes::Note;
pub use fault::{Moved, WorldFault};
pub use world::World;
