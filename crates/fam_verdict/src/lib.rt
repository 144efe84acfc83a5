//! Whether a recorded history is legal: note by note, by the states in which its hosts may be.
//!
//! `specs/Verdicts.antt` has what a verdict says, and `specs/Blank.antt` the image on which a history is judged where none is given.
#![tactic(auto)]

mod begins;
mod blank;
mod counting;
mod histories;
mod judged;
mod known;
mod laws;
mod marks;
mod verdict;

pub use histories::{judge_on_blank, judge_on_damaged, judge_on_log};
pub use laws::a_printed_history_is_judged;
pub use verdict::{Known, Verdict};
