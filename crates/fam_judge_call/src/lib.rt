//! The call of the judge: a recorded history of a shelf is read and judged, on the image of a media or on a blank one, and its
//! verdict is put to a sink.
//!
//! `specs/Endings.antt` says how a call ends, and `specs/Texts.antt` has the texts and statuses.
#![tactic(auto)]

mod call;
mod images;
mod puts;
mod texts;

pub use call::{famfs_judge, judged_image};
