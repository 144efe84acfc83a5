//! The bytes of files: what they are, line by line, and where they stand on the device.
//!
//! A content is zeros, the stream of a seed, or given bytes. `ContentStream` gives the lines of a file of such a
//! content from the front, and `compare` finds the first byte at which a line that was read differs from them. The
//! definitions of contents and of a file's lines stand in fam_rules, `specs/Content.antt`.
//!
//! `place` gives the device's byte of a file's byte, and `file_line` the device's line of a file's line. Both are
//! told by `place` of fam_rules, which also has the laws on two files' bytes.
#![tactic(auto)]

mod bytes;
mod difference;
mod file_lines;
mod given;
mod places;
mod prefix;
mod stream;

pub use bytes::{are_bytes, holds_bytes};
pub use difference::{compare, compare_lines};
pub use file_lines::{file_line, lines_in_row, lines_of};
pub use places::place;
pub use prefix::first_bytes;
pub use stream::ContentStream;
