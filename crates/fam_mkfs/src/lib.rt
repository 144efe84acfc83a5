//! Making a file system: through one host's cache, operation by operation.
//!
//! `mkfs` reads lines 0, 1 and 2, and then puts six lines, of which line 0 is cleared first and has the magic last.
//! `specs/Mkfs.antt` of fam_machine has the 81 operations, `specs/Ends.antt` what each end says.
#![tactic(auto)]

mod lines;
mod make;

pub use make::{MkfsEnd, asked, mkfs, refusal};
