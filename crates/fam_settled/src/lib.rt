//! What a history has settled, and which answers fit it.
//!
//! A contract sees a `Log` as the record of `specs/Settled.antt`, which stands for a state of a journal. Which answers fit it
//! is said by fam_judge, `specs/Fitting.antt`: a byte that isn't told may be any.
#![tactic(auto)]

mod acknowledged;
mod against;
mod agree;
mod among;
mod bytes;
mod checks;
mod contents;
mod held;
mod laws;
mod listed;
mod log;
mod notes;
mod questions;
mod reports;
mod same;
mod told;
mod verified;

pub use bytes::{Bytes, Filed};
pub use held::HeldBytes;
pub use laws::{a_told_command_is_untold, held_bytes_are_those_of_their_file};
pub use log::Log;
pub use told::bytes_told;
