//! The laws of what a command appends.

ghost use Rattle.std.specs.Prelude.{◌≡◌, ◌↔◌, ℕ, List, Ok, Err};
ghost use Rattle.fam_base.specs.declared.entry.Params.{Params};
ghost use Rattle.fam_base.specs.declared.entry.Entry.{Entry};
ghost use Rattle.fam_format.specs.Params.{SoundParams};
ghost use Rattle.fam_rules.specs.declared.answers.Refused.{Refused};
ghost use Rattle.fam_rules.specs.Decide.{Wish, decide_wish};
ghost use Rattle.fam_rules.specs.DecideLaws.{IsSoundWish, IsAsWished, MayAppend, IsFirstRefusal};

/// The entry that is decided for a sound wish has what was wished for (`wished`). Its host is the master, the log
/// has a slot for it, it is proper and it joins the entries of the list (`appended`): its path is new, its parent
/// is a directory, and its units are free and stand once.
pub fn a_decided_entry_joins()
    ensures wished { (p : Params) (me : List ℕ) (list : List Entry) (w : Wish) (e : Entry) → SoundParams p
        → IsSoundWish w → decide_wish p me list w ≡ Ok e → IsAsWished w e }
    ensures appended { (p : Params) (me : List ℕ) (list : List Entry) (w : Wish) (e : Entry) → SoundParams p
        → IsSoundWish w → decide_wish p me list w ≡ Ok e → MayAppend p me list e }
{}

/// Each refusal comes exactly where its cause is the first of all, in the order of `Refused`.
pub fn the_first_cause_refuses()
    ensures { (p : Params) (me : List ℕ) (list : List Entry) (w : Wish) (refused : Refused)
        → (decide_wish p me list w ≡ Err refused) ↔ IsFirstRefusal p me list w refused }
{}
