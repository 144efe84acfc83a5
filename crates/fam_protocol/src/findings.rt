//! What tasks load and what they say, in terms of what was put there. `all` are the entries of the history, with the
//! bytes of their files, and then the one that the master is appending, where there is one; `settled` is how many
//! entries the history has. A law has an empty body.

ghost use Rattle.std.specs.Prelude.{◌≡◌, ◌<◌, ◌*◌, ℕ, List, Ok, Some, length};
ghost use Rattle.fam_base.specs.declared.entry.Entry.{Entry};
ghost use Rattle.fam_base.specs.declared.entry.Params.{Params};
ghost use Rattle.fam_format.specs.Reading.{BadSlot, Lines, gate_in, reading_of, super_in};
ghost use Rattle.fam_format.specs.declared.faults.Reason.{Reason};
ghost use Rattle.fam_commands.specs.Stands.{turn_given};
ghost use Rattle.fam_commands.specs.Task.{Task};
ghost use Rattle.fam_commands.specs.Turns.{Ends, Finds, Writes, gate_loaded};
ghost use Rattle.fam_commands.specs.declared.phase.Part.{Part};
ghost use Rattle.fam_commands.specs.declared.phase.Phase.{Phase};
ghost use Rattle.fam_protocol.specs.After.{HasNamed, AppendsNamed, AnswersPrefix, RefusesWhole, ReportsPrefix, IsClient, NamesLongPath};
ghost use Rattle.fam_protocol.specs.Bad.{FindsBad, IsBadClient, NamesBadLongPath, Still, fault_of};
ghost use Rattle.fam_protocol.specs.Findings.{
  DamagedStep,
  HasLoadedGate,
  IsCurrent,
  IsFoundCount,
  IsLoadedSlot,
  IsLoadedWord,
  IsOfDecision,
  IsOfEntries,
  IsOfFault,
  SoundStep,
  SoundTask,
};
ghost use Rattle.fam_rules.specs.Asks.{File, entries_of};
ghost use Rattle.fam_rules.specs.Decide.{Wish, decide, wish_of};
ghost use Rattle.fam_rules.specs.Place.{line_bytes};
ghost use Rattle.fam_rules.specs.Reply.{Appended, NotAppended, Reply, Reports};
ghost use Rattle.fam_rules.specs.Reports.{report_of};
ghost use Rattle.fam_rules.specs.declared.answers.Refused.{Refused};
ghost use Rattle.fam_rules.specs.declared.answers.Report.{Report};

/// A gate that a task has loaded counts at least the entries that were settled at its mark, which is when it dropped
/// the gate's line, and at most those that there are (`loaded`). Where a task writes, the entry and the number that
/// its own note named are those of the last one, which comes right behind those that its gate counts (`named`).
pub fn a_loaded_gate_is_current()
    ensures loaded { (p : Params) (all : List File) (settled : ℕ) (at : SoundTask p all settled)
        → HasLoadedGate at.run.task.phase → IsCurrent at.run.floor at.run.task all }
    ensures named { (p : Params) (all : List File) (settled : ℕ) (at : SoundTask p all settled)
        → HasNamed at.run.task.phase → AppendsNamed at.run all at.run.task.gate }
{}

/// A slot below the loaded gate, once it is loaded whole, reads as the entry of the history that has its number; and
/// the slots before it gave the entries before that one.
pub fn loaded_slots_are_the_history()
    ensures { (p : Params) (all : List File) (settled i : ℕ) (at : SoundTask p all settled)
        → at.run.task.phase ≡ Phase.Check i → i < at.run.task.gate
        → IsLoadedSlot p i at.run.task all at.shared.memory }
{}

/// A word of a file's line that a task loads has the bytes that were put there, as far as they are below the file's
/// size. The file is the one of the command's path among the entries below the task's gate.
pub fn loaded_bytes_are_those_put_there()
    ensures { (p : Params) (all : List File) (settled j k : ℕ) (step : SoundStep p all settled)
        → step.run.task.phase ≡ Phase.Word Part.File j k
        → IsLoadedWord j k step.word step.run.task all }
{}

/// A command of the master that appends finds the settled entries, or one more that was stored and never
/// acknowledged (`found`). The entry that it goes on to append comes behind all that there are, and is the one that
/// the rules decide of them (`named`).
pub fn the_master_finds_what_is_settled()
    ensures found { (p : Params) (all : List File) (settled n : ℕ) (t : Task)
        (step : SoundStep p all settled) → turn_given step.run.task step.word ≡ Finds n t
        → IsFoundCount n all settled }
    ensures named { (p : Params) (all : List File) (settled seq : ℕ) (e : Entry) (t : Task)
        (step : SoundStep p all settled) → turn_given step.run.task step.word ≡ Writes seq e t
        → (seq ≡ settled) × (seq ≡ length all)
        × (decide p step.run.task.me (entries_of all) step.run.task.cmd ≡ Some (Ok e)) }
{}

/// What a command answers on a sound file system.
pub fn an_answer_is_of_a_settled_prefix()
    // An answer made of entries and bytes is the question's answer on a prefix of the history, which has all that was
    // settled at the task's mark.
    ensures asked { (p : Params) (all : List File) (settled : ℕ) (reply : Reply)
        (step : SoundStep p all settled) → turn_given step.run.task step.word ≡ Ends reply
        → IsOfEntries reply → AnswersPrefix step.run.task step.run.floor all reply }

    // So is the report of a check of the whole file system.
    ensures reported { (p : Params) (all : List File) (settled : ℕ) (report : Report)
        (step : SoundStep p all settled) → turn_given step.run.task step.word ≡ Ends (Reports report)
        → ReportsPrefix p step.run.floor all report }

    // An entry that is appended is the last of all, and the one that the task's own note named, with that number.
    ensures appended { (p : Params) (all : List File) (settled seq : ℕ) (step : SoundStep p all settled)
        → turn_given step.run.task step.word ≡ Ends (Appended seq)
        → AppendsNamed step.run all seq }

    // A refusal is the one that the rules decide of the whole history, with nothing pending; or the host is another
    // one than the master; or it is the master, and a slot has no room for its path.
    ensures refused { (p : Params) (all : List File) (settled : ℕ) (refused : Refused)
        (step : SoundStep p all settled)
        → turn_given step.run.task step.word ≡ Ends (NotAppended refused)
        → IsOfDecision refused → RefusesWhole p step.run.task all settled refused }
    ensures client { (p : Params) (all : List File) (settled : ℕ) (me master : List ℕ)
        (step : SoundStep p all settled)
        → turn_given step.run.task step.word ≡ Ends (NotAppended (Refused.NotMaster me master))
        → IsClient p step.run.task me master }
    ensures long { (p : Params) (all : List File) (settled limit : ℕ) (step : SoundStep p all settled)
        → turn_given step.run.task step.word ≡ Ends (NotAppended (Refused.LongPath limit))
        → NamesLongPath p step.run.task limit }

    // No task names a fault.
    ensures no_fault { (p : Params) (all : List File) (settled : ℕ) (reply : Reply)
        (step : SoundStep p all settled) → turn_given step.run.task step.word ≡ Ends reply
        → ¬ (IsOfFault reply) }
{}

/// What a command answers on a damaged image.
pub fn a_damaged_image_names_its_fault()
    // A fault that is named is the one of the image's reading: the first there is.
    ensures fault { (image : Lines) (lines : ℕ) (reply : Reply) (step : DamagedStep image lines)
        → turn_given step.run.task step.word ≡ Ends reply → IsOfFault reply
        → fault_of (reading_of image (line_bytes * lines)) ≡ Some reply }

    // A report is the image's.
    ensures reported { (image : Lines) (lines : ℕ) (report : Report) (step : DamagedStep image lines)
        → turn_given step.run.task step.word ≡ Ends (Reports report)
        → report ≡ report_of image (line_bytes * lines) }

    // There is no answer made of entries, and nothing is appended. A refusal is that of another host than the one
    // that the superblock names, or of this one's path, for which a slot has no room.
    ensures no_entries { (image : Lines) (lines : ℕ) (reply : Reply) (step : DamagedStep image lines)
        → turn_given step.run.task step.word ≡ Ends reply → ¬ (IsOfEntries reply) }
    ensures not_appended { (image : Lines) (lines seq : ℕ) (step : DamagedStep image lines)
        → ¬ (turn_given step.run.task step.word ≡ Ends (Appended seq)) }
    ensures not_refused { (image : Lines) (lines : ℕ) (refused : Refused) (step : DamagedStep image lines)
        → turn_given step.run.task step.word ≡ Ends (NotAppended refused) → ¬ (IsOfDecision refused) }
    ensures client { (image : Lines) (lines : ℕ) (me master : List ℕ) (step : DamagedStep image lines)
        → turn_given step.run.task step.word ≡ Ends (NotAppended (Refused.NotMaster me master))
        → IsBadClient image (line_bytes * lines) step.run.task me master }
    ensures long { (image : Lines) (lines limit : ℕ) (step : DamagedStep image lines)
        → turn_given step.run.task step.word ≡ Ends (NotAppended (Refused.LongPath limit))
        → NamesBadLongPath image (line_bytes * lines) step.run.task limit }

    // Memory stays what it was, and nobody has anything to send.
    ensures same { (image : Lines) (lines : ℕ) (step : DamagedStep image lines)
        → Still image (line_bytes * lines) step.after }
{}

/// On an image of which a slot below the gate is bad, a command that appends, of any host that passed the master's
/// test, finds the image's gate.
pub fn a_damaged_gate_is_found()
    // What a task finds on a damaged image is the image's gate, and a slot is bad.
    ensures found { (image : Lines) (lines n : ℕ) (t : Task) (step : DamagedStep image lines)
        → turn_given step.run.task step.word ≡ Finds n t → FindsBad image (line_bytes * lines) n }

    // It is noted as soon as the gate is loaded. Only the master comes so far, as the superblock names it.
    ensures noted { (image : Lines) (lines slot : ℕ) (reason : Reason) (wish : Wish) (step : DamagedStep image lines)
        → reading_of image (line_bytes * lines) ≡ BadSlot slot reason → wish_of step.run.task.cmd ≡ Some wish
        → step.run.task.phase ≡ Phase.Gate
        → turn_given step.run.task step.word ≡ Finds (gate_in image) (gate_loaded step.run.task (gate_in image)) }
    ensures master { (image : Lines) (lines : ℕ) (wish : Wish) (step : DamagedStep image lines)
        → wish_of step.run.task.cmd ≡ Some wish → step.run.task.phase ≡ Phase.Gate
        → (params : Params) × (super_in image (line_bytes * lines) ≡ Ok params) × (step.run.task.me ≡ params.master) }
{}
