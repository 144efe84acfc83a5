//! Which units of a device are used, and where a new file finds room.
//!
//! A contract sees an `AllocMap` as a list that says of each unit whether it is used (`specs/Taken.antt`).
//! Room and strips are defined in `fam_rules`, free runs in `specs/FreeRuns.antt`.
#![tactic(auto)]

mod alloc_map;
mod bits;
mod cut;
mod layers;
mod overlap;
mod run;
mod runs;
mod starts;
mod used_units;

pub use alloc_map::{AllocMap, TakeFault};
pub use bits::MOST_UNITS;
pub use overlap::{
    Run, first_below, first_held, first_shared, overlap_behind, repeats_unit, run_at, shares_unit,
};
pub use starts::Starts;
pub use used_units::UsedUnits;
