//! Laws of what a history tells, with empty bodies.

ghost use Rattle.std.specs.Prelude.{◌≡◌, ◌++◌, ◌<◌, ◌^◌, ℕ, [], List, Option, Some, codes, length};
ghost use Rattle.fam_base.specs.declared.cmd.Cmd.{Cmd};
ghost use Rattle.fam_base.specs.declared.entry.Entry.{Entry};
ghost use Rattle.fam_format.specs.Tree.{Tree};
ghost use Rattle.fam_tree.specs.Lines.{entry_line};
ghost use Rattle.fam_tree.specs.Listings.{IsListed};
ghost use Rattle.fam_rules.specs.Checks.{checked};
ghost use Rattle.fam_grammar.specs.Reading.{Reads};
ghost use Rattle.fam_grammar.specs.Words.{words_from};
ghost use Rattle.fam_history.specs.Commands.{told_line};
ghost use Rattle.fam_history.specs.Told.{AreAlikeCommands, IsTelling, told_of_command, told_text};
ghost use Rattle.fam_history.specs.Answers.{answer_line};
ghost use Rattle.fam_history.specs.Refusals.{refusal_line};
ghost use Rattle.fam_history.specs.ToldAnswers.{IsTellingAnswer, answer_lines, answer_told, checked_told, told_answer_text};
ghost use Rattle.fam_history.specs.ToldRefusals.{IsTellingRefusal, told_of_refusal};
ghost use Rattle.fam_history.specs.declared.answer.ToldAnswer.{ToldAnswer};
ghost use Rattle.fam_history.specs.ListedEntries.{listed_entry};
ghost use Rattle.fam_history.specs.Notes.{history_line, host_number};
ghost use Rattle.fam_history.specs.ToldNotes.{AreDistinctNames, IsTellingNote, further_lines, head_line, line_told};
ghost use Rattle.fam_journal.specs.Notes.{Answer, Note};
ghost use Rattle.fam_journal.specs.declared.refusal.Refusal.{Refusal};
ghost use Rattle.fam_format.specs.declared.faults.Reason.{Reason};
ghost use Rattle.fam_history.specs.ReportLines.{bad_entry_line, files_line, log_state_line, overlap_line, past_line, superblock_line, units_line};
ghost use Rattle.fam_history.specs.ToldReports.{IfTellingPair, IfTellingSlot, IsTellingLogState, IsTellingSuperState};
ghost use Rattle.fam_outcomes.specs.Texts.{answer_text, bad_text, cmd_text, host_name, line, log_state_text, note_line, number, overlap_text, refusal_text, super_state_text};
ghost use Rattle.fam_rules.specs.declared.answers.LogState.{LogState};
ghost use Rattle.fam_rules.specs.declared.answers.SuperState.{SuperState};

/// A command whose numbers are those of the code reads, from its text, as what is told of it (`reads`); and what is told
/// of it prints as that text (`prints`). So commands of one text are the same but for bytes (`alike`), and a text tells no
/// more.
pub fn a_printed_command_reads()
    ensures reads { (cmd : Cmd) (column end : ℕ) → IsTelling cmd
        → told_line end (words_from column (cmd_text cmd)) ≡ Reads (told_of_command cmd) [] }
    ensures prints { (cmd : Cmd) → told_text (told_of_command cmd) ≡ cmd_text cmd }
    ensures alike { (a b : Cmd) → IsTelling a → IsTelling b → cmd_text a ≡ cmd_text b → AreAlikeCommands a b }
{}

/// A refusal whose numbers are those of the code reads, from its text, as what is told of it.
pub fn a_printed_refusal_reads()
    ensures { (names : List (List ℕ)) (cause : Refusal) (column end : ℕ) → IsTellingRefusal names cause
        → refusal_line end (words_from column (refusal_text names cause)) ≡ Reads (told_of_refusal names cause) [] }
{}

/// The first line of an answer reads as what it tells (`reads`); and an answer's text is the line of what is told of it,
/// and behind it those of a listing or of a report (`prints`). All is told of what a check answers (`whole`).
pub fn a_printed_answer_reads()
    ensures reads { (given : ToldAnswer) (column end : ℕ) → IsTellingAnswer given
        → answer_line end (words_from column (told_answer_text given)) ≡ Reads given [] }
    ensures prints { (answer : Answer)
        → answer_text answer ≡ line (told_answer_text (answer_told answer)) ++ answer_lines answer }
    ensures whole { (tree : Tree) (listing : List Entry) → checked_told (checked tree listing) ≡ checked tree listing }
{}

/// Each line of a report behind the first reads, from its text, as what it tells.
pub fn a_printed_report_reads()
    ensures superblock { (s : SuperState) (column end : ℕ) → IsTellingSuperState s
        → superblock_line end (words_from column (super_state_text s)) ≡ Reads s [] }
    ensures log { (s : LogState) (column end : ℕ) → IsTellingLogState s
        → log_state_line end (words_from column (log_state_text s)) ≡ Reads s [] }
    ensures files { (files directories : ℕ) (column end : ℕ) → files < 2 ^ 64 → directories < 2 ^ 64
        → files_line end (words_from column (codes "files" ++ number files ++ codes " directories" ++ number directories)) ≡ Reads (files, directories) [] }
    ensures units { (used unused : ℕ) (column end : ℕ) → used < 2 ^ 64 → unused < 2 ^ 64
        → units_line end (words_from column (codes "units used" ++ number used ++ codes " free" ++ number unused)) ≡ Reads (used, unused) [] }
    ensures overlap { (pair : Option (ℕ × ℕ)) (column end : ℕ) → IfTellingPair pair
        → overlap_line end (words_from column (overlap_text pair)) ≡ Reads pair [] }
    ensures bad { (slot : Option (ℕ × Reason)) (column end : ℕ) → IfTellingSlot slot
        → bad_entry_line end (words_from column (bad_text slot)) ≡ Reads slot [] }
    ensures past { (n : ℕ) (column end : ℕ) → n < 2 ^ 64
        → past_line end (words_from column (codes "past gate" ++ number n)) ≡ Reads n [] }
{}

/// An entry in print reads as it is.
pub fn a_printed_entry_reads()
    ensures { (entry : Entry) (column end : ℕ) → IsListed entry
        → listed_entry end (words_from column (entry_line entry)) ≡ Reads entry [] }
{}

/// The first line of a note reads as what is told of it (`reads`); and a note's lines are that line, and behind it those of an
/// answer's listing or report (`prints`).
pub fn a_printed_note_reads()
    ensures reads { (names : List (List ℕ)) (note : Note) (column end : ℕ) → IsTellingNote names note
        → history_line end (words_from column (head_line names note)) ≡ Reads (line_told names note) [] }
    ensures prints { (names : List (List ℕ)) (note : Note)
        → note_line names note ≡ line (head_line names note) ++ further_lines note }
{}

/// Where no two hosts have one name, a host's name gives its number.
pub fn a_host_has_its_number()
    ensures { (names : List (List ℕ)) (host : ℕ) → host < length names → AreDistinctNames names
        → host_number names (host_name names host) ≡ Some host }
{}
