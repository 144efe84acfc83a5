//! A law of shadows.

ghost use Rattle.std.specs.Prelude.{List, Some, ℕ};
ghost use Rattle.fam_outcomes.specs.declared.status.Status.{Status};
ghost use Rattle.fam_outcomes.specs.Runs.{Outside};
ghost use Rattle.fam_program.specs.Shadows.{IsOfLogplay, ShadowTop};
ghost use Rattle.fam_shadow.specs.Nodes.{ShadeChange};

/// logplay with a folder does with the media what logplay by itself does, and leaves the same image. Where that shows no
/// tree the two put the same text with the same status, and the folder is as it was; else the tree that is written is
/// the one that logplay shows.
pub fn a_shadow_is_of_a_logplay()
    ensures { (me : List ℕ) (out : Outside) (shade : ShadeChange) (given : Status) → ShadowTop (Some me) out shade given
        → IsOfLogplay me out shade given }
{}
