//! The log's header and its slots. `spell` and `spell_log` give the words, `read_entry`, `check_entry` and
//! `read_log` tell what words are: exactly the spelling of a proper entry, or of the header of these parameters, and else the
//! first thing that is wrong with them.
//!
//! The definitions stand in `fam_format`: `specs/Slot.antt` has the words of a slot, the proper entries and the
//! reasons, `specs/Log.antt` the header and its faults. A reader asks that unused words are zero, as `spell`
//! leaves them: an entry has one spelling with a number, and nothing else reads as it.
#![tactic(auto)]

mod fields;
mod log;
mod map_rule;
mod places;
mod reading;
mod short;
mod slot;

pub use fam_format::{LogFault, LogField, Reason};
pub use fields::{bare_entry, borrowed_entry, checked_entry, checked_extents};
pub use log::{read_log, spell_log};
pub use reading::{check_entry, read_entry};
pub use short::{is_short, read_short, short_path};
pub use slot::{Slot, spell};
