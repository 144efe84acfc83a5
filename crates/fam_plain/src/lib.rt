//! Checksums and reports, computed the plain and slow way: bit by bit, and by scans over whole lists. Each function is
//! proved equal to the definition of `fam_crc` or `fam_rules` that it computes.
//!
//! Tests call them on real bytes, so that the definitions themselves meet numbers from outside. Crates with
//! fast bodies for the same definitions can be compared with these. Slots are read by the crate that spells them, whose
//! reader is proved equal to the definition too.
#![tactic(auto)]

mod crc;
mod join;
mod overlaps;
mod report;
mod survey;
mod units;

pub use crate::crc::{plain_crc, plain_crc_words};
pub use crate::report::plain_report;
