//! A file system copied onto another image, with another unit and log.
//!
//! `specs/Copies.antt` says which entries a copy has, `specs/Findings.antt` what is against a copy before anything is
//! written, `specs/Lines.antt` which lines it writes and in which order, and `specs/Ends.antt` how it ends and what each
//! end leaves.
#![tactic(auto)]

mod copies;
mod copy;
mod fault;
mod files;
mod laws;
mod lines;
mod runs;
mod source;
mod target;
mod writes;

pub use copy::dup;
pub use fault::{DupFault, DupRefusal};
pub use laws::{a_cut_copy_is_old_none_or_whole, a_whole_copy_is_read, only_room_stops_a_copy};
