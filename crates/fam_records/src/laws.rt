//! Laws of histories that are read, with empty bodies.

ghost use Rattle.std.specs.Prelude.{◌≡◌, [], List, None, Ok};
ghost use Rattle.fam_journal.specs.Notes.{Note};
ghost use Rattle.fam_outcomes.specs.Texts.{render};
ghost use Rattle.fam_records.specs.Histories.{history_in, recorded};
ghost use Rattle.fam_records.specs.ToldRecords.{AreTellingRecords, records_told};

/// The text of a journal reads as what is told of its notes, each with the number of its first line: no line of it is bad
/// (`whole`). So they are all that is recorded in it (`notes`).
pub fn a_printed_journal_reads()
    ensures whole { (journal : List Note) → AreTellingRecords [] journal
        → history_in (render journal) ≡ record { records = records_told 1 [] journal; bad = None } }
    ensures notes { (journal : List Note) → AreTellingRecords [] journal → recorded (render journal) ≡ Ok (records_told 1 [] journal) }
{}
