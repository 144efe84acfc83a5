//! Laws that tie a task to the table of operations: by operation, by note, and by the number of operations.

ghost use Rattle.std.specs.Prelude.{◌≡◌, ◌+◌, ℕ, List, Option, Some, option_map, slice_get};
ghost use Rattle.fam_base.specs.declared.cmd.Cmd.{Cmd};
ghost use Rattle.fam_commands.specs.Counts.{steps_of};
ghost use Rattle.fam_commands.specs.Keeping.{kept_after, kept_behind, read_told};
ghost use Rattle.fam_commands.specs.Kept.{IsKept, Kept};
ghost use Rattle.fam_commands.specs.Stands.{StandsFor, note_of, turn_given, with_given};
ghost use Rattle.fam_machine.specs.Operations.{given_by};
ghost use Rattle.fam_commands.specs.Table.{Row, table};
ghost use Rattle.fam_commands.specs.Task.{Task, op_of};
ghost use Rattle.fam_commands.specs.Turns.{Ends};
ghost use Rattle.fam_rules.specs.Reply.{Reply};

/// A task that stands for a command, after the words that its loads gave and so many operations, does the
/// operation that the command's table has next. The table is made from these words alone, and from what
/// the host kept.
pub fn the_table_has_the_next_operation()
    ensures { (kept : Option Kept) (cmd : Cmd) (me : List ℕ) (lines : ℕ) (t : Task) (words : List ℕ) (made : ℕ) →
        IsKept kept → StandsFor kept cmd me lines t words made →
        option_map (λ (r : Row). r.op) (slice_get (table kept cmd me lines words) made) ≡ Some (op_of t) }
{}

/// What comes of that operation for the task is noted in the same row of the table that is made from these words
/// and the one that the operation gives, where it gives one: nothing, a mark, what was found, what is written, or
/// the answer.
pub fn the_table_has_the_note()
    ensures { (kept : Option Kept) (cmd : Cmd) (me : List ℕ) (lines : ℕ) (t : Task) (words : List ℕ) (made : ℕ) →
        IsKept kept → StandsFor kept cmd me lines t words made → (word : ℕ) →
        option_map (λ (r : Row). r.note)
        (slice_get (table kept cmd me lines (with_given words (given_by (op_of t) word))) made)
        ≡ Some (note_of (turn_given t word)) }
{}

/// A task keeps what its host kept when it began.
pub fn a_task_keeps_what_its_host_kept()
    ensures { (kept : Option Kept) (cmd : Cmd) (me : List ℕ) (lines : ℕ) (t : Task) (words : List ℕ) (made : ℕ) →
        IsKept kept → StandsFor kept cmd me lines t words made → t.kept ≡ kept }
{}

/// What a host keeps behind an operation of its command is told by the words that the command's loads gave (`told`). It
/// is a history, where what it kept was one (`joined`).
pub fn the_words_tell_what_is_kept()
    ensures told { (kept : Option Kept) (cmd : Cmd) (me : List ℕ) (lines : ℕ) (t : Task) (words : List ℕ) (made : ℕ) →
        IsKept kept → StandsFor kept cmd me lines t words made → (word : ℕ) (before : Option Kept) →
        kept_behind (note_of (turn_given t word)) (read_told kept cmd (with_given words (given_by (op_of t) word)) lines) before
        ≡ kept_after (turn_given t word) t before }
    ensures joined { (kept : Option Kept) (cmd : Cmd) (me : List ℕ) (lines : ℕ) (t : Task) (words : List ℕ) (made : ℕ) →
        IsKept kept → StandsFor kept cmd me lines t words made → (word : ℕ) (before : Option Kept) →
        IsKept before → IsKept (kept_after (turn_given t word) t before) }
{}

/// Where a task ends, the operations that it made, with the last one, are as many as its answer says: by the gate
/// that was loaded, the lines of the file, and where the answer comes of a fault, by the phase of the fault.
pub fn the_number_of_operations()
    ensures { (kept : Option Kept) (cmd : Cmd) (me : List ℕ) (lines : ℕ) (t : Task) (words : List ℕ) (made : ℕ) →
        IsKept kept → StandsFor kept cmd me lines t words made → (word : ℕ) (reply : Reply) →
        turn_given t word ≡ Ends reply →
        made + 1 ≡ steps_of kept cmd lines (with_given words (given_by (op_of t) word)) reply }
{}
