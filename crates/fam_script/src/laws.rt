//! The law of what is printed, with an empty body.

ghost use Rattle.std.specs.Prelude.{◌≡◌, [], ℕ};
ghost use Rattle.fam_base.specs.declared.cmd.Cmd.{Cmd};
ghost use Rattle.fam_journal.specs.declared.event.Ask.TheVariants as ask;
ghost use Rattle.fam_outcomes.specs.Texts.{cmd_text};
ghost use Rattle.fam_grammar.specs.Lines.{ask_line};
ghost use Rattle.fam_grammar.specs.Reading.{Reads};
ghost use Rattle.fam_grammar.specs.Words.{words_from};
ghost use Rattle.fam_script.specs.Spelled.{HasSpelling};

/// What is printed of a command, where it starts, reads as that command, at any column of a line: for every command that
/// a script can spell. Commands with given bytes or a listing are none, since a script names their source.
pub fn a_printed_command_reads_as_itself()
    ensures { (c : Cmd) (column end : ℕ) → HasSpelling c
        → ask_line end (words_from column (cmd_text c)) ≡ Reads (ask.Plain c) [] }
{}
