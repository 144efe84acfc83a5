//! Laws of the grammar, with empty bodies.

ghost use Rattle.std.specs.Prelude.{◌≡◌, ℕ, List, Ok, Option};
ghost use Rattle.fam_journal.specs.declared.event.Event.{Event};
ghost use Rattle.fam_journal.specs.Laws.{AreSound};
ghost use Rattle.fam_grammar.specs.Scripts.{line_reads, script_events};
ghost use Rattle.fam_grammar.specs.Sound.{IfEvent};

/// What reads is within its limits: a mode has at most four octal digits, a count of bytes is at most 4,096, a step does
/// at least one operation, and a file system is made in a format that there is.
pub fn what_reads_is_sound()
    ensures { (line : List ℕ) (event : Option Event) → line_reads line ≡ Ok event → IfEvent event }
{}

/// The UUIDs that a script's lines name are UUIDs: sixteen bytes, each below 256; and the formats are such.
pub fn uuids_of_a_script_are_uuids()
    ensures { (bytes : List ℕ) (events : List Event) → script_events bytes ≡ Ok events → AreSound events }
{}
