//! The media layout: which words the superblock, the log's header and a slot have, and what a reader says of
//! any words. `specs/` holds the definitions, which every reader and writer cites; here are the names of the
//! fields and faults, the places, and the laws that tie the definitions to the subject's own words.
#![tactic(auto)]

mod entry_laws;
mod faults;
mod layout;
mod reading_laws;
mod shape;
mod super_laws;
mod words;

pub use entry_laws::{
    a_proper_entry_fits_its_words, a_refused_slot_is_no_spelling, a_spelling_is_read,
    extents_lie_inside, one_spelling_each, what_is_read_is_spelled,
};
pub use faults::{LogFault, LogField, Reason, SuperFault, SuperField};
pub use layout::{
    GATE_LINE, LAST_WORD, LEAST_LINES, LINE_BYTES, LINE_WORDS, LOG_LINE, LOG_OFFSET, SLOT_LINES,
    SLOT_WORDS,
};
pub use reading_laws::{
    a_sound_image_holds_its_entries, an_entry_joins, one_entry_more, the_first_bad_slot_is_named,
    the_first_overlap_is_named, used_units_are_tested,
};
pub use shape::{FIRST_FORMAT, MOST_SLOT_WORDS, SECOND_FORMAT, Shape, is_format, shape_of};
pub use super_laws::{
    gate_is_within, header_is_read, header_is_unique, superblock_is_read, superblock_is_spelled,
    superblock_is_unique, unit_is_power_of_two,
};
pub use words::{byte_of, word_of_bytes};
