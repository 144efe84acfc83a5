//! The states in which hosts may be behind the lines of a history.
//!
//! `specs/Candidates.antt` says which state of fam_judge (`Possible`) a candidate is.
#![tactic(auto)]

mod behind;
mod below;
mod candidate;
mod candidates;
mod commands;
mod elsewhere;
mod given;
mod going;
mod hosts;
mod lead;
mod lefts;
mod naming;
mod plain;
mod replies;
mod replies_appended;
mod replies_damage;
mod replies_decided;
mod replies_kinds;
mod replies_plain;
mod replies_put;
mod replies_refused;
mod replies_reported;
mod replies_shown;
mod replies_told;
mod settled;
mod steps;
mod tasks;
mod tracks;

pub use behind::written;
pub use candidate::{Candidate, Settled, Stage, Track, Wrote};
pub use given::{Damage, GivenImage};
pub use going::go_on;
pub use hosts::Hosts;
pub use lead::step;
