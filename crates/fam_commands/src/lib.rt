//! Commands as tasks: a task is a command on its way, which does one operation after another on the machine of
//! fam_machine.
//!
//! `specs/Task.antt` says which operation a task does next and `specs/Turns.antt` what comes of it; `specs/Table.antt`
//! says the same of a command as one table, which is made from the words that its loads gave, and `specs/Counts.antt`
//! how many operations it takes.
#![tactic(auto)]

mod counts;
mod phase;
mod solo;
mod table;

pub use counts::{each_shape_takes_these_counts, the_first_format_takes_these_counts};
pub use phase::{Part, Phase};
pub use solo::a_solo_command_is_a_run_of_operations;
pub use table::{
    a_task_keeps_what_its_host_kept, the_number_of_operations, the_table_has_the_next_operation,
    the_table_has_the_note, the_words_tell_what_is_kept,
};
