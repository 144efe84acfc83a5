//! Five protocols that fail: each has one change to the operations of the table of fam_commands, and a run that shows
//! what goes wrong.
#![tactic(auto)]

mod refused;

pub use refused::{
    a_gate_before_its_slot_tears_the_entry, an_answer_before_its_fence_is_missed,
    an_early_drop_reads_an_old_slot, each_scene_begins, without_a_drop_an_old_gate_is_read,
    without_a_drop_an_old_slot_is_read,
};
