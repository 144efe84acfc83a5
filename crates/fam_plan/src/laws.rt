//! The laws of plans.

ghost use Rattle.std.specs.Prelude.{◌≡◌, ◌↔◌, ℕ, true, List, Some, Ok, Err};
ghost use Rattle.fam_base.specs.declared.cmd.Cmd.{Cmd};
ghost use Rattle.fam_base.specs.declared.entry.Entry.{Entry};
ghost use Rattle.fam_base.specs.declared.entry.Params.{Params};
ghost use Rattle.fam_format.specs.Stop.{stop};
ghost use Rattle.fam_format.specs.Units.{list_units};
ghost use Rattle.fam_rules.specs.declared.answers.Refused.{Refused};
ghost use Rattle.fam_rules.specs.Decide.{Wish, decide, decide_wish, early_refusal, path_fits, wish_of};
ghost use Rattle.fam_rules.specs.DecideLaws.{IsFirstRefusal, IsSoundWish};
ghost use Rattle.fam_rules.specs.Place.{IsOnce};
ghost use Rattle.fam_plan.specs.Decisions.{plan_decide_wish, roomy};
ghost use Rattle.fam_plan.specs.State.{PlanState, IsHistory, MayBeAdded};

/// In a list in which each entry joins those before it no unit stands twice.
pub fn no_unit_stands_twice()
    ensures { (s : PlanState) → IsHistory s → IsOnce (list_units s.params.unit s.entries) }
{}

/// The entry that is decided for a sound wish may be added to the entries for which it was decided: a slot is left, it
/// is proper, and it joins them.
pub fn a_decided_entry_may_be_added()
    ensures { (s : PlanState) (me : List ℕ) (cmd : Cmd) (w : Wish) (e : Entry) → IsHistory s → wish_of cmd ≡ Some w
        → IsSoundWish w → decide s.params me s.entries cmd ≡ Some (Ok e) → MayBeAdded s e }
{}

/// What the rules decide is what a plan decides behind the tests of the master and of the path's length (`behind`). So both
/// are one where a slot has room for the path (`fits`). A plan refuses where a cause is the first of all, in the order of
/// `Refused`, as for a slot that has room for every path: never for a length (`first`).
pub fn a_plan_decides_behind_the_length()
    ensures behind { (p : Params) (me : List ℕ) (list : List Entry) (w : Wish)
        → decide_wish p me list w ≡ stop (early_refusal p me w.path) (plan_decide_wish p me list w) }
    ensures fits { (p : Params) (me : List ℕ) (list : List Entry) (w : Wish) → path_fits p w.path ≡ true
        → decide_wish p me list w ≡ plan_decide_wish p me list w }
    ensures first { (p : Params) (me : List ℕ) (list : List Entry) (w : Wish) (refused : Refused)
        → (plan_decide_wish p me list w ≡ Err refused) ↔ IsFirstRefusal (roomy p) me list w refused }
{}
