//! The superblock, lines 0 to 2 of the image: what mkfs writes, what a reader says of any three lines, and which
//! host may write.
//!
//! The definitions stand in fam_format: `specs/Super.antt` has the words and the tests in their order.
#![tactic(auto)]

mod hosts;
mod master;
mod read;
mod spell;
mod words;

pub use fam_format::{SuperFault, SuperField};
pub use hosts::Role;
pub use master::role;
pub use read::{LOG_LIMIT, is_unit, read_super};
pub use spell::Super;
pub use words::MAGIC;
