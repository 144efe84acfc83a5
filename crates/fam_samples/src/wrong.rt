//! Three definitions that look right and aren't. Each differs from the right one in one place, which `specs/Wrong.antt`
//! shows, and each law has what goes wrong.

ghost use Rattle.std.specs.Prelude.{◌≡◌, ◌+◌, ◌++◌, ℕ, List, [], ◌∷◌, Option, None, length};
ghost use Rattle.fam_base.specs.declared.entry.Params.{Params};
ghost use Rattle.fam_base.specs.declared.cmd.Cmd.TheVariants.{Logplay};
ghost use Rattle.fam_base.specs.Image.{Image};
ghost use Rattle.fam_journal.specs.Ends.{ReadsAs};
ghost use Rattle.fam_journal.specs.Kept.{Held};
ghost use Rattle.fam_journal.specs.View.{WorldView};
ghost use Rattle.fam_journal.specs.Legal.{Allowed, Legal};
ghost use Rattle.fam_journal.specs.Machines.{Machines};
ghost use Rattle.fam_journal.specs.Notes.{Answered, Found, Mark, Note, Replied, Start, Stop};
ghost use Rattle.fam_journal.specs.Past.{Sound, past_after, past_of};
ghost use Rattle.fam_samples.specs.Scene.{done, held, made, mkdir, no_tree, params, state_behind, writing, x, y};
ghost use Rattle.fam_samples.specs.Wrong.{AnyOkAllowed, LegalBy, drops_any, dropping_after, late_floor_after, past_by};
ghost use Rattle.fam_journal.specs.Past.{first_past};
ghost use Rattle.fam_rules.specs.Asks.{File};
ghost use Rattle.fam_rules.specs.Reply.{Appended, Played};

/// Where the floor is taken at Found in place of the mark, a client's listing is never allowed: a client finds nothing,
/// it only asks. The journal is one of a host that makes a file system and a client that lists it.
pub fn a_floor_at_found_forbids_each_listing()
    ensures right { Legal [] (made ++ Start 1 Logplay ∷ Mark 1 ∷ Answered 1 (Replied (Played 0 no_tree)) ∷ []) }
    ensures wrong { LegalBy Allowed late_floor_after (first_past []) (made ++ Start 1 Logplay ∷ Mark 1 ∷ Answered 1 (Replied (Played 0 no_tree)) ∷ []) → ⊥ }
{}

/// Where a master that finds one entry more than is settled drops what is pending, an entry is lost that stands in
/// memory: in every world that is held, behind such a note, the image doesn't read as what is said to be settled
/// (`misread`). The other clauses have a journal with such a note, and what both definitions make of it.
pub fn a_found_that_drops_loses_an_entry()
    ensures misread { (start : Image) (state : Machines) (world : WorldView) (image : Image) (notes : List Note) (host : ℕ)
        (p : Params) (history : List File) (pending : Option File) → Held start state world image
        → (past_of start notes).state ≡ Sound p history pending → world.journal ≡ notes ++ Found host (length history + 1) ∷ []
        → ReadsAs (drops_any (length history + 1) (Sound p history pending)) image → ⊥ }
    ensures legal { Legal [] (writing ++ Stop 0 ∷ Start 0 (mkdir y) ∷ Mark 0 ∷ Found 0 1 ∷ []) }
    ensures right { state_behind (writing ++ Stop 0 ∷ Start 0 (mkdir y) ∷ Mark 0 ∷ Found 0 1 ∷ []) ≡ Sound params (held x ∷ []) None }
    ensures wrong { (past_by dropping_after (first_past []) (writing ++ Stop 0 ∷ Start 0 (mkdir y) ∷ Mark 0 ∷ Found 0 1 ∷ [])).state
        ≡ Sound params [] None }
{}

/// Where an Ok doesn't ask that the entry is its task's own, a command is acknowledged of which no entry is ever
/// written: its master was stopped behind the first entry's publication, and the next command answers Ok with that
/// entry's number.
pub fn an_ok_of_any_entry_loses_a_command()
    ensures wrong { LegalBy AnyOkAllowed past_after (first_past []) (done ++ Start 0 (mkdir y) ∷ Mark 0 ∷ Found 0 1 ∷ Answered 0 (Replied (Appended 0)) ∷ []) }
    ensures lost { state_behind (done ++ Start 0 (mkdir y) ∷ Mark 0 ∷ Found 0 1 ∷ Answered 0 (Replied (Appended 0)) ∷ [])
        ≡ Sound params (held x ∷ []) None }
    ensures right { Legal [] (done ++ Start 0 (mkdir y) ∷ Mark 0 ∷ Found 0 1 ∷ Answered 0 (Replied (Appended 0)) ∷ []) → ⊥ }
{}
