//! The image on which a recorded history begins, read from a media as the first state of a judge.
//!
//! `open` reads a file system as a settled log whose files have the bytes of the image, and any other image as what its damage
//! tells. `specs/Opened.antt` says what was read, by fam_journal's `first_state`.
#![tactic(auto)]

mod damage;
mod fault;
mod files;
mod found;
mod lines;
mod opened;
mod slots;
mod sound;

pub use fault::OpenFault;
pub use opened::{Opened, open};
