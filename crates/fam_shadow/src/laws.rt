//! A law of shadows.

ghost use Rattle.fam_shadow.specs.Nodes.{Nodes};
ghost use Rattle.fam_shadow.specs.Shadows.{IsLeftInPart, Runs};
ghost use Rattle.fam_format.specs.Tree.{Tree};
ghost use Rattle.std.specs.Prelude.{◌≡◌};

/// A run that stopped, and behind it one without fault, end with what one run without fault would have ended with.
pub fn a_later_run_ends_alike()
    ensures { (tree : Tree) (old left one later : Nodes) → IsLeftInPart tree old left → Runs tree old one → Runs tree left later → later ≡ one }
{}
