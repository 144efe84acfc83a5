//! Tasks: commands on their way over the cache of a host. A task says which operation it does next, takes the word
//! that a load gave, and knows nothing else of memory.
//!
//! A contract sees a `Task` as the record of `fam_commands/specs/Task.antt`. What comes next is `op_of` of it, and
//! what comes of that is `turn_of` in `fam_commands/specs/Turns.antt`. `specs/` says how a `Turn` and an `Answer`
//! tell these, and which tasks there are.
#![tactic(auto)]

mod answer;
mod boxed_report;
mod buffer;
mod commands;
mod contents;
mod history;
mod kept;
mod replies;
mod survey;
mod task;
mod wanted;

pub use answer::{Answer, TaskNote, Turn};
pub use boxed_report::BoxedReport;
pub use fam_base::ByteText;
pub use fam_machine::Op;
pub use fam_replay::Replica;
pub use kept::Kept;
pub use task::{Due, MOST_COMPARED, SlotDue, Task};
