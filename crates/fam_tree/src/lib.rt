//! Trees of entries: what stands at each path of a file system, and the listings that are printed of it.
//!
//! A contract sees a `Tree` as a finite map from path to entry, the `Tree` of fam_format's `specs/Tree.antt`.
//! Every entry of a tree stands under its own path. An entry joins a tree where nothing stands at its path and
//! its parent is the root or a directory of the tree. `specs/Lines.antt` says how an entry is printed.
#![tactic(auto)]

mod beside;
mod byte_order;
mod chunk;
mod chunk_view;
mod chunks;
mod entry_list;
mod entry_ref;
mod fault;
mod line_words;
mod lines;
mod listings;
mod packed;
mod parent;
mod row;
mod run;
mod runs;
mod tree;
mod tree_iter;

pub use beside::{Beside, Nothing};
pub use entry_list::EntryList;
pub use entry_ref::EntryRef;
pub use fault::{ApplyFault, ListingFault};
pub use lines::{print_entry, print_listing};
pub use listings::read_listing;
pub use tree::Tree;
pub use tree_iter::TreeIter;
