//! The entries of a log, and what a host appends behind them.
//!
//! A contract sees a `Plan` as the parameters of the file system and the list of the entries that were added, in order
//! (`specs/State.antt`). Each entry of the list joins those before it, by the rules of `fam_format`. What a command
//! appends is `decide` of `fam_rules` over that list: the path's length is tested, and then the plan decides
//! (`specs/Decisions.antt`).
#![tactic(auto)]

mod among;
mod decide;
mod fault;
mod first;
mod laws;
mod ledger;
mod order;
mod part;
mod paths;
mod plan;
mod room;
mod used;
mod wish;

pub use decide::{check_early, decide_with_length};
pub use fam_rules::Refused;
pub use fault::AddFault;
pub use first::{first_entry_fault, first_entry_refusal};
pub use laws::{
    a_decided_entry_may_be_added, a_plan_decides_behind_the_length, no_unit_stands_twice,
};
pub use plan::Plan;
