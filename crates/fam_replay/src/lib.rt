//! What the words of a log come to: its parameters, and the entries of its slots.
//!
//! A reader hands in the words as it loads them, and a `Replay` keeps the entries that they told. What it read may be
//! kept, as a `Replica`: a later reading finds a slot again by its words, and doesn't judge it anew. A contract sees
//! the entries that were found so far (`specs/Replay.antt`), and behind them those that are kept
//! (`specs/Replica.antt`). How words are loaded is the caller's business, but for the log of a media that is read
//! without a cache (`read_source`, by `specs/Sources.antt`).
#![tactic(auto)]

mod fault;
mod head;
mod kept_slot;
mod replay;
mod replica;
mod same;
mod source;

pub use fault::ReadFault;
pub use head::{line_of_slot, read_gate, read_header, read_superblock};
pub use replay::{Replay, reason_behind};
pub use replica::Replica;
pub use source::{read_behind, read_source};
