//! A mailbox in a file: one host posts records into the file's lines, and others take them, through caches that
//! need not agree.
//!
//! `specs/Records.antt` and `specs/Boxes.antt` say what a record and a box are, `specs/Tasks.antt` which operations a
//! post and a take do, and `specs/Mail.antt` what is settled and what a task may say. `specs/Calls.antt` has what each call
//! of a world makes of it, and `specs/Standing.antt` what holds of image, hosts and tasks behind each.
//!
//! Of a run of events `specs/Legal.antt` says what its journal settles and which notes are legal, and `specs/Machines.antt`
//! and `specs/Follows.antt` what follows from the events; `specs/Happens.antt` how a run stands.
#![tactic(auto)]

mod ask;
mod check;
mod event;
mod hosts;
mod laws;
mod note;
mod notes;
mod phase;
mod record;
mod run;
mod runs;
mod task;
mod turn;
mod world;

pub use ask::Ask;
pub use check::{BoxFault, WrongBox, check_box};
pub use event::MailEvent;
pub use laws::{
    a_box_begins_a_run, a_box_reads_as_what_is_settled, a_file_has_no_line_twice,
    a_task_that_is_finished_says_what_it_may, a_world_is_ready_behind_its_calls,
    a_world_stands_behind_its_calls, every_operation_says_what_it_may,
};
pub use note::{MailFault, MailNote, MailRefusal};
pub use phase::Phase;
pub use record::{MOST_NUMBERS, Record, Records};
pub use runs::{
    a_box_begins_a_script, a_fault_that_is_noted_was_counted, a_held_box_reads_as_its_journal,
    a_legal_journal_allows_each_note, a_run_leaves_its_box, a_taken_list_holds_what_was_settled,
    a_task_that_is_run_answers, every_run_of_events_is_held, no_box_is_found_bad,
};
pub use task::Task;
pub use turn::Turn;
pub use world::MailWorld;
