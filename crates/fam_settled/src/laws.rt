//! Laws: of told commands, and of bytes that are held.

ghost use Rattle.std.specs.Prelude.{◌≡◌, ℕ, List, length};
ghost use Rattle.fam_base.specs.declared.cmd.Cmd.{Cmd};
ghost use Rattle.fam_base.specs.declared.cmd.Content.TheVariants as content;
ghost use Rattle.fam_history.specs.Told.{told_of_command};
ghost use Rattle.fam_judge.specs.Untold.{untold_cmd};
ghost use Rattle.fam_rules.specs.Content.{fill};
ghost use Rattle.fam_settled.specs.Told.{bare_cmd};

/// What is told of a command is the command without what isn't told.
pub fn a_told_command_is_untold()
    ensures { (c : Cmd) → bare_cmd (told_of_command c) ≡ untold_cmd c }
{}

/// A file of as many bytes as are held has these.
pub fn held_bytes_are_those_of_their_file()
    ensures { (bytes : List ℕ) (size : ℕ) → length bytes ≡ size → fill (content.Bytes bytes) size ≡ bytes }
{}
