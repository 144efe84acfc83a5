//! Why a line of a recorded history can't be next, where no state is left.
//!
//! `specs/Causes.antt` says of each cause when it holds, and `specs/CauseTexts.antt` how it is printed.
#![tactic(auto)]

mod acknowledged;
mod answered;
mod answers;
mod asking;
mod bounds;
mod damages;
mod decided;
mod fitting;
mod hosts;
mod kinds;
mod line_causes;
mod notes;
mod printed;
mod refusals;
mod told;
mod trees;

pub use kinds::Cause;
pub use line_causes::cause;
pub use printed::cause_text;
