//! The laws of questions.

ghost use Rattle.std.specs.Prelude.{◌≡◌, ℕ, List, option_map};
ghost use Rattle.std.specs.FinMap as finmap;
ghost use Rattle.fam_base.specs.declared.entry.Params.{Params};
ghost use Rattle.fam_format.specs.Tree.{replay};
ghost use Rattle.fam_rules.specs.Asks.{AreJoined, File, entries_of, file_at};

/// A question about a path finds the entry that the tree has there, and none where the tree has none: for any entries
/// of which each joins those before it, as those of a sound image do.
pub fn a_question_finds_the_entry_of_the_tree()
    ensures { (p : Params) (files : List File) (path : List ℕ) → AreJoined p files
        → option_map (λ f. f.entry) (file_at files path) ≡ finmap.get (replay (entries_of files)) path }
{}
