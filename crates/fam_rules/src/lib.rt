//! The rules of the file system that stand above its formats: where a new file finds room, where the bytes of a
//! file stand, which bytes a content gives it, which entry a command appends, what it answers, and what it leaves
//! in an image.
//!
//! `specs/Room.antt` has room, strips and the units of extents, over numbers and a test of used units.
//! `specs/Place.antt` has the place of a file's byte, `specs/Content.antt` the bytes of a content and the lines that
//! hold them, `specs/Decide.antt` what a command appends and `specs/Written.antt` what that leaves. The functions of
//! this crate are laws about these definitions and do nothing when they are called.
#![tactic(auto)]

mod answers;
mod ask;
mod content;
mod decide;
mod place;
mod report;
mod room;
mod written;

pub use answers::{Checked, LogState, Refused, Report, SuperState};
pub use ask::a_question_finds_the_entry_of_the_tree;
pub use content::{contents_fill_the_size, lines_hold_the_bytes, seeded_lines_are_the_stream};
pub use decide::{a_decided_entry_joins, the_first_cause_refuses};
pub use place::{
    a_line_of_a_file_is_a_line, bytes_lie_in_extents, bytes_of_a_file_are_apart,
    bytes_of_files_are_apart, laid_out_files_are_apart, simple_bytes_lie_end_to_end,
};
pub use report::a_sound_image_is_reported_sound;
pub use room::{buckets_once, room_law, strips_law};
pub use written::{a_new_file_system_is_empty, an_appended_entry_is_read};
