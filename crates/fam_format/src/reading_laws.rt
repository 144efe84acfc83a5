//! Units, joining, and a whole reading in plain words. A law has an empty body: its clauses are facts about the
//! definitions of `specs/`, at all values.

ghost use Rattle.std.specs.Prelude.{◌≡◌, ◌↔◌, ◌++◌, [], ◌∷◌, ℕ, Bool, List, None, MatchOption, IsTrue};
ghost use Rattle.fam_base.specs.declared.entry.Params.{Params};
ghost use Rattle.fam_base.specs.declared.entry.Entry.{Entry};
ghost use Rattle.fam_format.specs.declared.faults.Reason.{Reason};
ghost use Rattle.fam_format.specs.Units.{Used, is_used, first_overlap};
ghost use Rattle.fam_format.specs.Tree.{replay, with_entry, join_fault};
ghost use Rattle.fam_format.specs.Reading.{Lines, Sound, BadSlot, reading_of};
ghost use Rattle.fam_format.specs.ReadingLaws.{AreFree, IsFirstOverlap, Joins, HasWords, Holds, IsBadSlot};

/// The test for used units finds exactly those of superblock, log and the list's extents.
pub fn used_units_are_tested()
    ensures { (p : Params) (list : List Entry) (u : ℕ) → IsTrue (is_used p list u) ↔ Used p list u }
{}

/// The overlap that is named is the first unit that is used or stands twice, and none is named exactly where no
/// unit is.
pub fn the_first_overlap_is_named()
    ensures { (used : ℕ → Bool) (units : List ℕ)
        → MatchOption (first_overlap used units) (AreFree used units) (IsFirstOverlap used units) }
{}

/// No fault keeps an entry from joining a list exactly where its path is new, its parent stands and its units are
/// free.
pub fn an_entry_joins()
    ensures { (p : Params) (list : List Entry) (e : Entry) → (join_fault p list e ≡ None) ↔ Joins p list e }
{}

/// The tree of a list with one entry more is the tree with that entry at its path.
pub fn one_entry_more()
    ensures { (list : List Entry) (e : Entry) → replay (list ++ e ∷ []) ≡ with_entry (replay list) e }
{}

/// A sound reading has exactly the entries of the slots below the gate: each slot is the spelling of its entry,
/// which is proper and joins the ones before.
pub fn a_sound_image_holds_its_entries()
    ensures { (line : Lines) (have : ℕ) (p : Params) (entries : List Entry) → HasWords line
        → (reading_of line have ≡ Sound p entries) ↔ Holds line have p entries }
{}

/// The bad slot is the least one below the gate that is no such spelling, with the first reason against it.
pub fn the_first_bad_slot_is_named()
    ensures { (line : Lines) (have : ℕ) (i : ℕ) (reason : Reason) → HasWords line
        → (reading_of line have ≡ BadSlot i reason) ↔ IsBadSlot line have i reason }
{}
