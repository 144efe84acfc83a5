//! CRC-32, as zlib, PNG, Ethernet and ISO-HDLC have it: the reflected polynomial is 0xEDB88320, the register
//! begins with all ones, and it is inverted at the end.
//!
//! The checksum of words goes eight bytes at a time, or many words where most are zero, and that of bytes one
//! at a time, all by tables. A contract sees the bitwise definition alone, `crc32` of `specs/Crc.antt`. The laws
//! say that it is the remainder of the message by the generator polynomial, and the only one.
#![tactic(auto)]

mod bytes;
mod head;
mod laws;
mod tables;
mod words;
mod zeros;

pub use crate::bytes::crc_more;
pub use crate::laws::{is_only_remainder, is_remainder, is_remainder_of_words};
pub use crate::words::{Summed, crc_words, sum_words};
