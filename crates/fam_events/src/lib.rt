//! Events of a run, done one by one on a world, with the files of a shelf.
//!
//! `specs/Happens.antt` says what comes of an event: the journal's rules where the media's image and the shelf's files
//! are modelled, and the shape of its notes on every media.
#![tactic(auto)]

mod asks;
mod calls;
mod doing;
mod fault;
mod steps;

pub use doing::{happen, run_last};
pub use fault::EventFault;
