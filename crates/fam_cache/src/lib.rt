//! The cache of one host over the shared memory.
//!
//! A host loads and stores in copies of its own. Another host sees a store only once the line was sent to
//! memory and that host has dropped its older copy. Lines are sent by `invalidate` and, where `write_back` asked for it,
//! by `fence`, which a task asks for, and by `evict` and `leak`, which the machine does at any time.
//!
//! A contract sees a finite map from line number to eight words and a mark, and how many more lines fit with
//! no allocation. Each call is one operation of `fam_machine/specs/OneLine.antt` at its line, and `perform` does any of
//! those that a task asks for.
#![tactic(auto)]

mod blocks;
mod cache;
mod copies;
mod fault;
mod own_moves;
mod perform;
mod renewal;
mod sending;

pub use cache::HostCache;
pub use fault::{CacheFault, FenceFailed, OperationFault};
pub use own_moves::OwnMove;
