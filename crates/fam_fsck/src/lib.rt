//! What is wrong with a file system: a report over the words of all slots of its log.
//!
//! `specs/Scan.antt` says what a contract sees of a `Fsck`. The report is the one of fam_rules, `specs/Reports.antt`.
#![tactic(auto)]

mod findings;
mod found;
mod found_list;
mod fsck;
mod joining;
mod merge;

pub use fam_rules::{Checked, LogState, Report, SuperState};
pub use fsck::Fsck;
pub use merge::check;
