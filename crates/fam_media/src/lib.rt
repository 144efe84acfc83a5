//! The outside, as traits: a media of lines, a sink for output and a shelf of files to read. Beside each
//! trait stands a form in memory, of which chosen calls fail.
//!
//! Each has a count of faults, which never falls, and fails only where that count rises during the call. So
//! a program that answers with a fault has had one. Content may be modelled or not: forms in memory tell it,
//! files and streams don't, and a contract speaks of content only where it is modelled. A form in memory gives
//! the laws of `Media` by `specs/Modelled.antt`.
#![tactic(auto)]

mod frail;
mod media;
mod memory_media;
mod memory_shelf;
mod memory_sink;
mod plan;
mod shelf;
mod sink;

pub use frail::Frail;
pub use media::{Failed, MOST_LINES, Media, RunFailed};
pub use memory_media::MemMedia;
pub use memory_shelf::MemShelf;
pub use memory_sink::MemSink;
pub use plan::find_planned;
pub use shelf::Shelf;
pub use sink::Sink;
