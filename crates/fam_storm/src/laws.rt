//! Laws of storms.

ghost use Rattle.std.specs.Prelude.{ℕ, ◌≤◌, All, IfOk, length};
ghost use Rattle.fam_grammar.specs.Scripts.{script_events};
ghost use Rattle.fam_storm.specs.Events.{IsEventLine, IsSoManyEvents, ReadNoSource};
ghost use Rattle.fam_storm.specs.Storm.{Words, storm, storm_lines};

/// Each line of a storm is an event, as scripts have them.
pub fn each_line_of_a_storm_is_an_event()
    ensures { (seed size : ℕ) → size ≤ 100000 → All (λ (words : Words). IsEventLine words) (storm_lines seed size) }
{}

/// A storm's script reads as events, one for each of its lines.
pub fn a_storm_is_an_event_for_each_line()
    ensures { (seed size : ℕ) → size ≤ 100000
        → IsSoManyEvents (length (storm_lines seed size)) (script_events (storm seed size)) }
{}

/// No event of a storm reads a source.
pub fn a_storm_reads_no_source()
    ensures { (seed size : ℕ) → size ≤ 100000 → IfOk (script_events (storm seed size)) (λ events. ReadNoSource events) }
{}
