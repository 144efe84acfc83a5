//! Large scripts of random events, for storms.
//!
//! A storm's script is fixed by its seed and its size: `specs/Storm.antt` has each line by its words.
#![tactic(auto)]

mod draw;
mod laws;
mod lines;
mod rounds;
mod script;

pub use laws::{
    a_storm_is_an_event_for_each_line, a_storm_reads_no_source, each_line_of_a_storm_is_an_event,
};
pub use script::storm;
