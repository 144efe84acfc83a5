//! What a run of hosts tells: the notes of its journal, what they settle, which journals are legal, and which journals
//! follow a list of events.
//!
//! `specs/Notes.antt` has the notes, `specs/Past.antt` what they settle, `specs/Legal.antt` which of them the history
//! before them allows. `specs/Shapes.antt` and `EventShapes.antt` say which notes a call and an event may add whatever
//! memory holds. `specs/Machines.antt`, `Calls.antt` and `Events.antt` have the machine of all hosts and what each call
//! of the world and each event of a script does on it; `specs/Follows.antt` puts events one after another.
//! `specs/Ends.antt` has how the run of a script ends. `specs/Kept.antt` is what a world keeps, and
//! `specs/CallRecords.antt` what its calls promise: the crate's page says which record is which call's.
#![tactic(auto)]

mod event;
mod host_id;
mod laws;
mod refusal;

pub use event::{Ask, Event};
pub use fam_protocol::is_command;
pub use host_id::HostId;
pub use laws::{
    a_call_without_media_does_its_row, a_call_without_media_has_its_shape,
    a_clean_run_is_the_only_one, a_damaged_image_stays, a_held_image_reads_as_its_journal,
    a_new_world_is_held, a_refusal_is_told_by_the_world, a_row_has_its_shape,
    a_row_keeps_what_is_held, a_run_has_its_shape, a_run_is_settled, an_operation_does_its_row,
    an_operation_has_its_shape, at_most_one_entry_is_pending, every_answer_is_of_the_rules,
    the_history_only_grows, what_a_task_says_is_legal,
};
pub use refusal::Refusal;
