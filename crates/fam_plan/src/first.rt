//! What is against the first entry of a log, and against the first wish for one. It is told without a map of units, so
//! that it is known also where no memory is left to make one.

ghost use Rattle.std.specs.Prelude.{◌≡◌, [], Err, IfErr, IsSome, MatchResult, None, OnOk, Some, nat_lt};
ghost use Rattle.fam_base.specs.Paths.{parent_of};
ghost use Rattle.fam_format.specs.Layout.{head_units};
ghost use Rattle.fam_format.specs.Params.{SoundParams};
ghost use Rattle.fam_format.specs.Slot.{Proper};
ghost use Rattle.fam_format.specs.Tree.{join_fault, replay};
ghost use Rattle.fam_format.specs.Units.{first_overlap, units_in};
ghost use Rattle.fam_rules.specs.Decide.{decide, decide_wish, parent_refusal, wish_of};
ghost use Rattle.fam_plan.specs.Needs.{NeedsUnits, NeedsRoom};
ghost use Rattle.fam_plan.specs.Wishes.{wish_in};

use crate::decide::{check_early, check_stripe};
use crate::wish::Wish;
use fam_alloc::overlap_behind;
use fam_base::{Cmd, Entry, Params, Path};
use fam_format::{LOG_OFFSET, Reason};
use fam_rules::Refused;
use uuid::Uuid;

/// The first unit of an entry that superblock and log use, or that stands twice in it.
fn overlap_alone(params: &Params, entry: &Entry) -> Option<u64>
    requires sound { SoundParams params.now }
    requires proper { Proper params.now entry.now }
    ensures { result ≡ first_overlap (λ u. nat_lt u (head_units params.now))
        (units_in params.now.unit entry.now.extents) }
{
    let units = params.device / params.unit;
    let head = (LOG_OFFSET + params.log_length) / params.unit;
    overlap_behind(head, &entry.extents, params.unit, units)
}

/// Why a proper entry doesn't join a log of no entries.
pub fn first_entry_fault(params: &Params, entry: &Entry) -> Option<Reason>
    requires sound { SoundParams params.now }
    requires proper { Proper params.now entry.now }
    ensures { result ≡ join_fault params.now [] entry.now }
{
    if entry.path.parent().is_some() {
        return Some(Reason::NoParent);
    }
    match overlap_alone(params, entry) {
        Some(unit) => Some(Reason::Overlap(unit)),
        None => None,
    }
}

/// Whether a path lies right below the root: no other directory stands in a log of no entries.
fn check_root(path: &Path) -> Result<(), Refused>
    ensures { MatchResult result (λ _. parent_refusal (replay []) (parent_of path.now) ≡ None)
        (λ refused. parent_refusal (replay []) (parent_of path.now) ≡ Some refused) }
{
    match path.parent() {
        None => Ok(()),
        Some(_) => Err(Refused::NoParent),
    }
}

/// The first refusal against a wish that a log of no entries shall hold, but for want of room.
#[tactic(auto, unfolding(fam_rules::specs::Decide::decide_wish))]
fn check_wish(params: &Params, wish: &Wish, me: &Uuid) -> Result<(), Refused>
    requires { SoundParams params.now }
    ensures refused { IfErr result (λ refused.
        decide_wish params.now me.now [] (wish_in wish.now) ≡ Err refused) }
    ensures room { OnOk result (NeedsRoom (decide_wish params.now me.now [] (wish_in wish.now))) }
{
    check_early(params, me, &wish.path)?;
    check_stripe(params, &wish.stripe)?;
    check_root(&wish.path)
}

/// The first refusal against the entry that a host's mkdir, creat or cp appends to a log of no entries, but for want of
/// room.
pub fn first_entry_refusal(params: &Params, cmd: &Cmd, me: &Uuid) -> Result<(), Refused>
    requires sound { SoundParams params.now }
    requires wish { IsSome (wish_of cmd.now) }
    ensures refused { IfErr result (λ refused. decide params.now me.now [] cmd.now ≡ Some (Err refused)) }
    ensures room { OnOk result (NeedsUnits (decide params.now me.now [] cmd.now)) }
{
    match Wish::of(cmd) {
        Some(wish) => check_wish(params, &wish, me),
        None => unreachable!(),
    }
}
