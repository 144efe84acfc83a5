//! The lines of a recorded history with hosts by their numbers, and which of them may stand next by what is seen of the hosts.
//!
//! `specs/Lines.antt` says which note a line is, and `specs/Hosts.antt` what is seen of the hosts. `specs/Behind.antt` says what a
//! line that is resolved has to be, and `specs/Resolved.antt` has that case by case.
#![tactic(auto)]

mod answer;
mod commands;
mod further;
mod host;
mod laws;
mod line;
mod lines;
mod making;
mod refused;
mod resolving;
mod standing;

pub use answer::HostAnswer;
pub use host::SeenHost;
pub use laws::what_stands_and_fits_is_whole;
pub use line::Line;
pub use resolving::resolve;
pub use standing::stands;
