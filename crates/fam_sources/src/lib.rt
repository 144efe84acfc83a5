//! Sources: files outside the image, read whole, and the commands that hold their bytes.
//!
//! `specs/Whole.antt` says what comes of reading a file, and `specs/Sourced.antt` what comes of an ask.
#![tactic(auto)]

mod sourced;
mod whole;

pub use sourced::{COPY_LIMIT, Resolved, SourceEnd, Sourced, resolve};
pub use whole::{WholeFault, read_whole};
