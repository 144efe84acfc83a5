//! Running tasks over a host's cache and the one memory: one operation at a time, or those on a line or a slot as a whole.
//!
//! `specs/Operation.antt` says what one operation does, by the machine of `fam_machine/specs/Operations.antt`, and
//! `specs/Led.antt` and `specs/Cached.antt` what several are that come one behind another.
#![tactic(auto)]

mod advancing;
mod checking;
mod comparing;
mod comparing_run;
mod operation;
mod rest;
mod rows;
mod slot_run;
mod slots;
mod storing;
mod storing_run;

pub use advancing::advance;
pub use operation::operate;
pub use rest::operate_cached;
