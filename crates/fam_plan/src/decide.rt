//! What a command appends behind the entries of a plan, or why nothing.

ghost use Rattle.std.specs.Prelude.{◌≡◌, ◌<◌, true, Some, None, IfSome, IsSome, IfOk, MatchResult};
ghost use Rattle.std.specs.FinMap as map;
ghost use Rattle.fam_base.specs.Paths.{parent_of};
ghost use Rattle.fam_format.specs.Tree.{replay};
ghost use Rattle.fam_rules.specs.Decide.{decide, decide_wish, is_stripe, path_fits, wish_of};
ghost use Rattle.fam_rules.specs.Decide.{early_refusal, length_refusal, master_refusal, stripe_refusal, exists_refusal, parent_refusal, full_refusal};
ghost use Rattle.fam_base.specs.Commands.{IsSoundCmd};
ghost use Rattle.fam_plan.specs.Decisions.{plan_decide, plan_decide_wish};
ghost use Rattle.fam_plan.specs.State.{MayBeAdded};
ghost use Rattle.fam_plan.specs.Wishes.{wish_in};

use crate::plan::Plan;
use crate::wish::Wish;
use fam_base::{Cmd, EXTENT_LIMIT, Entry, Kind, Params, Path, Stripe};
use fam_format::{FIRST_FORMAT, shape_of};
use fam_rules::Refused;
use uuid::Uuid;

/// The most buckets of a stripe.
const BUCKET_LIMIT: u64 = 64;

/// Whether a host appends to a log.
fn check_master(params: &Params, me: &Uuid) -> Result<(), Refused>
    ensures { MatchResult result (λ _. master_refusal params.now me.now ≡ None)
        (λ refused. master_refusal params.now me.now ≡ Some refused) }
{
    if *me == params.master {
        Ok(())
    } else {
        Err(Refused::NotMaster {
            me: *me,
            master: params.master,
        })
    }
}

/// Whether a slot of the log's format has room for a path: in the first format up to a limit, in others for every path.
fn check_length(params: &Params, path: &Path) -> Result<(), Refused>
    ensures { MatchResult result (λ _. length_refusal params.now path.now ≡ None)
        (λ refused. length_refusal params.now path.now ≡ Some refused) }
{
    let limit = shape_of(params.format).path_limit;
    if params.format != FIRST_FORMAT || path.bytes().len() <= limit {
        Ok(())
    } else {
        Err(Refused::LongPath(limit as u64))
    }
}

/// Whether a host appends to a log, and a slot has room for the path: this is known as soon as the superblock is read.
pub fn check_early(params: &Params, me: &Uuid, path: &Path) -> Result<(), Refused>
    ensures { MatchResult result (λ _. early_refusal params.now me.now path.now ≡ None)
        (λ refused. early_refusal params.now me.now path.now ≡ Some refused) }
{
    check_master(params, me)?;
    check_length(params, path)
}

/// Whether a stripe has a chunk of whole units, and no more strips than a file has extents and the device buckets.
fn is_stripe(params: &Params, stripe: &Stripe) -> bool
    requires { 0 < params.now.unit }
    ensures { result ≡ is_stripe params.now stripe.now }
{
    1 <= stripe.chunk
        && stripe.chunk % params.unit == 0
        && 1 <= stripe.nstrips
        && stripe.nstrips <= EXTENT_LIMIT as u64
        && stripe.nstrips <= stripe.nbuckets
        && stripe.nbuckets <= BUCKET_LIMIT
}

/// Whether a stripe may be asked for, where there is one.
pub(crate) fn check_stripe(params: &Params, stripe: &Option<Stripe>) -> Result<(), Refused>
    requires { 0 < params.now.unit }
    ensures { MatchResult result (λ _. stripe_refusal params.now stripe.now ≡ None)
        (λ refused. stripe_refusal params.now stripe.now ≡ Some refused) }
{
    let Some(stripe) = stripe else {
        return Ok(());
    };
    if is_stripe(params, stripe) {
        Ok(())
    } else {
        Err(Refused::BadStripe)
    }
}

impl Plan {
    /// Whether nothing stands at a path.
    fn check_free(&self, path: &Path) -> Result<(), Refused>
        ensures { MatchResult result
            (λ _. exists_refusal (map.get (replay self.now.entries) path.now) ≡ None)
            (λ refused. exists_refusal (map.get (replay self.now.entries) path.now) ≡ Some refused) }
    {
        match self.tree.get(path) {
            Some(old) => Err(Refused::Exists(old.kind)),
            None => Ok(()),
        }
    }

    /// Whether a path's parent is the root or a directory.
    fn check_parent(&self, path: &Path) -> Result<(), Refused>
        ensures { MatchResult result
            (λ _. parent_refusal (replay self.now.entries) (parent_of path.now) ≡ None)
            (λ refused. parent_refusal (replay self.now.entries) (parent_of path.now) ≡ Some refused) }
    {
        match self.tree.parent_kind(path) {
            None => Err(Refused::NoParent),
            Some(Kind::File) => Err(Refused::ParentIsFile),
            Some(Kind::Directory) => Ok(()),
        }
    }

    /// Whether the log has a slot for one more entry.
    fn check_slots(&self) -> Result<(), Refused>
        ensures { MatchResult result (λ _. full_refusal self.now.params self.now.entries ≡ None)
            (λ refused. full_refusal self.now.params self.now.entries ≡ Some refused) }
    {
        if self.params.slots <= self.count() {
            Err(Refused::LogFull(self.params.slots))
        } else {
            Ok(())
        }
    }

    /// What a host appends for a wish, or the first refusal.
    #[tactic(auto, unfolding(crate::specs::Decisions::plan_decide_wish))]
    fn decide_wish(&self, wish: &Wish, me: &Uuid) -> Result<Entry, Refused>
        ensures { result ≡ plan_decide_wish self.now.params me.now self.now.entries (wish_in wish.now) }
    {
        check_master(&self.params, me)?;
        check_stripe(&self.params, &wish.stripe)?;
        self.check_free(&wish.path)?;
        self.check_parent(&wish.path)?;
        self.check_slots()?;
        Ok(wish.entry_in(self.room_for(wish)?))
    }

    /// The entry that a host's mkdir, creat or cp appends behind the entries added, or the first refusal against it. The
    /// length of the path isn't looked at: `decide_with_length` does that first. It takes no memory, and adds nothing.
    pub fn decide(&self, cmd: &Cmd, me: Uuid) -> Result<Entry, Refused>
        requires { IsSome (wish_of cmd.now) }
        ensures value { plan_decide self.now.params me self.now.entries cmd.now ≡ Some result }

        // The entry may be added, where a slot has room for its path: a slot is left for it, it is proper, and it joins.
        ensures may { IsSoundCmd cmd.now → IfSome (wish_of cmd.now) (λ w. path_fits self.now.params w.path ≡ true)
            → IfOk result (λ entry. MayBeAdded self.now entry) }
    {
        self.each_entry_joins();
        match Wish::of(cmd) {
            Some(wish) => self.decide_wish(&wish, &me),
            None => unreachable!(),
        }
    }
}

/// What a host appends behind the entries of a plan for a wish, or the first refusal, with a test of the path's length.
fn decide_wish_with_length(plan: &Plan, wish: &Wish, me: &Uuid) -> Result<Entry, Refused>
    ensures { result ≡ decide_wish plan.now.params me.now plan.now.entries (wish_in wish.now) }
{
    match check_early(plan.params(), me, &wish.path) {
        Ok(()) => plan.decide_wish(wish, me),
        Err(refused) => Err(refused),
    }
}

/// What a host's mkdir, creat or cp appends behind the entries of a plan, or the first refusal against it. The length of
/// the path is tested behind the master, and then the plan decides. It takes no memory.
pub fn decide_with_length(plan: &Plan, cmd: &Cmd, me: Uuid) -> Result<Entry, Refused>
    requires { IsSome (wish_of cmd.now) }
    ensures value { decide plan.now.params me plan.now.entries cmd.now ≡ Some result }

    // The entry may be added: a slot is left for it, it is proper, and it joins.
    ensures may { IsSoundCmd cmd.now → IfOk result (λ entry. MayBeAdded plan.now entry) }
{
    plan.each_entry_joins();
    match Wish::of(cmd) {
        Some(wish) => decide_wish_with_length(plan, &wish, &me),
        None => unreachable!(),
    }
}
