//! What the protocol comes to for a command that runs alone: one host, on an image that nobody else touches meanwhile.
#![tactic(auto)]

mod solo;

pub use solo::{
    a_reader_leaves_the_image, a_solo_command_answers_by_the_image, a_solo_command_reads_the_image,
    an_append_leaves_the_image_up_to_its_first_store, the_operations_of_a_solo_command_are_counted,
};
