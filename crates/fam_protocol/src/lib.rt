//! The protocol of publishing and replaying, over any number of hosts whose caches needn't agree.
#![tactic(auto)]

mod command;
mod findings;
mod hosted;
mod run;

pub use command::is_command;
pub use findings::{
    a_damaged_gate_is_found, a_damaged_image_names_its_fault, a_loaded_gate_is_current,
    an_answer_is_of_a_settled_prefix, loaded_bytes_are_those_put_there,
    loaded_slots_are_the_history, the_master_finds_what_is_settled,
};
pub use hosted::{a_host_acts_on_its_machine, a_task_asks_for_lines_of_the_image};
pub use run::{
    an_image_at_rest_begins_a_run, an_image_begins_a_run, every_step_keeps_the_protocol,
};
