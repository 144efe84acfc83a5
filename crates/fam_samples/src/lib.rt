//! Samples of what fam_journal's definitions say, three definitions with a mistake, each refuted, and a model of those who
//! call the world: what the world's calls promise is enough to chain them, and can be met. All are laws with empty bodies:
//! for each row of a definition a case that goes through, and one that doesn't.
//!
//! `specs/Scene.antt` has the scene of the samples, `specs/Wrong.antt` the definitions with a mistake, `specs/Caller.antt`
//! what a caller sees, and `specs/Bodies.antt` worlds before and after calls.
#![tactic(auto)]

mod callers;
mod legal;
mod machine;
mod settled;
mod shapes;
mod wrong;

pub use callers::{a_body_meets_what_calls_promise, a_caller_chains_what_calls_promise};
pub use legal::{
    answers_of_a_damaged_image, answers_of_appends, answers_of_questions, notes_of_the_master,
    reports,
};
pub use machine::{calls_without_operations, events, moves_and_operations, refusals_in_order};
pub use settled::{what_a_damaged_image_settles, what_hosts_leave, what_notes_settle};
pub use shapes::shapes_of_notes;
pub use wrong::{
    a_floor_at_found_forbids_each_listing, a_found_that_drops_loses_an_entry,
    an_ok_of_any_entry_loses_a_command,
};
