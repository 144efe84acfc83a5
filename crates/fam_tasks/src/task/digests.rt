//! Turns of a task that looks at the words of a slot.

ghost use Rattle.std.specs.Prelude.{◌≡◌, ◌≢◌, None, IfOk, OnErr, false, true};
ghost use Rattle.fam_base.specs.declared.line.LineNo.{LineNo};
ghost use Rattle.fam_format.specs.Slot.{entry_of};
ghost use Rattle.fam_commands.specs.declared.phase.Phase.TheVariants as at;
ghost use Rattle.fam_commands.specs.Turns as turns;
ghost use Rattle.fam_commands.specs.Turns.{turn_of};
ghost use Rattle.fam_commands.specs.Classes.{is_fsck};
ghost use Rattle.fam_tasks.specs.Survey.{ShowWants};
ghost use Rattle.fam_tasks.specs.declared.answer.Answer.TheVariants.{MediaFault};
ghost use Rattle.fam_tasks.specs.declared.answer.Turn.TheVariants.{Done};
ghost use Rattle.fam_tasks.specs.Tells.{Keeps, Tells, WantsMemory, slot_turn_by};

use super::{Task, slot_or_decide};
use crate::answer::{Answer, Turn};
use crate::commands::{is_fsck, plays_out};
use crate::survey::show;
use fam_base::OutOfMemory;
use fam_format::Reason;

impl Task {
    /// Does the Digest of a slot.
    pub(super) fn digest_slot(&mut self, slot: u64) -> Result<Turn, OutOfMemory>
        requires { self.old.phase ≡ at.Check slot }
        ensures turn { IfOk result (λ turn. Tells (turn_of self.old None) turn self.new) }
        ensures kept { self.new.kept ≡ self.old.kept }
        ensures own { (line : LineNo) → IfOk result (λ turn. turn ≢ Done (MediaFault line)) }
        ensures err { OnErr result (self.new ≡ self.old) }
        ensures want { OnErr result (WantsMemory self.old (turn_of self.old None)) }
        ensures shows { OnErr result (is_fsck self.old.cmd ≡ true
            → ShowWants self.old.params self.old.gate slot self.old.words) }
    {
        match self.check_slot(slot) {
            Ok(None) => Ok(Turn::Go),
            Ok(Some(reason)) => Ok(Turn::Done(Answer::BadEntry { seq: slot, reason })),
            Err(full) => Err(full),
        }
    }

    /// Does what `digest` does with the words of a slot, which is the next operation, and says why the task ends with
    /// it: where it doesn't, it goes on. A task that has no memory for it answers so, and is unchanged.
    pub fn check_slot(&mut self, slot: u64) -> Result<Option<Reason>, OutOfMemory>
        requires { self.old.phase ≡ at.Check slot }
        ensures turn { IfOk result (λ reason.
            Tells (turn_of self.old None) (slot_turn_by slot reason) self.new) }
        ensures kept { Keeps self.old (turn_of self.old None) self.new }
        ensures err { OnErr result (self.new ≡ self.old) }
        ensures want { OnErr result (WantsMemory self.old (turn_of self.old None)) }

        // A fsck goes on behind any slot. It wants memory for the first one, and for entries below the gate.
        ensures shows { OnErr result (is_fsck self.old.cmd ≡ true
            → ShowWants self.old.params self.old.gate slot self.old.words) }
    {
        if is_fsck(self.command()) {
            return self.show_slot(slot);
        }
        self.read_slot(slot)
    }

    /// Reads the words of a slot: its entry joins those before it, or not. With the last one a logplay has its tree.
    fn read_slot(&mut self, slot: u64) -> Result<Option<Reason>, OutOfMemory>
        requires phase { self.old.phase ≡ at.Check slot }
        requires other { is_fsck self.old.cmd ≡ false }
        ensures turn { IfOk result (λ reason. Tells (turns.slot_turn self.old slot
            (entry_of self.old.params self.old.words slot)) (slot_turn_by slot reason) self.new) }
        ensures kept { self.new.kept ≡ self.old.kept }
        ensures err { OnErr result (self.new ≡ self.old) }
        ensures want { OnErr result (WantsMemory self.old (turns.slot_turn self.old slot
            (entry_of self.old.params self.old.words slot))) }
    {
        let last = plays_out(&self.cmd, slot + 1, self.gate);
        let words = self.buffer.as_slice();
        match self
            .history
            .read_slot_of(last, &self.params, self.gate, words)?
        {
            Some(reason) => Ok(Some(reason)),
            None => {
                self.buffer.clear();
                self.phase = slot_or_decide(slot + 1, self.gate);
                Ok(None)
            }
        }
    }

    /// Shows the words of a slot to the check of the whole file system.
    fn show_slot(&mut self, slot: u64) -> Result<Option<Reason>, OutOfMemory>
        requires phase { self.old.phase ≡ at.Check slot }
        requires fsck { is_fsck self.old.cmd ≡ true }
        ensures turn { IfOk result (λ reason.
            Tells (turns.survey_turn self.old slot) (slot_turn_by slot reason) self.new) }
        ensures kept { self.new.kept ≡ self.old.kept }
        ensures err { OnErr result (self.new ≡ self.old) }
        ensures want { OnErr result (ShowWants self.old.params self.old.gate slot self.old.words) }
    {
        let words = self.buffer.as_slice();
        show(self.alloc, &mut self.scan, &self.params, self.gate, words)?;
        self.buffer.clear();
        self.phase = slot_or_decide(slot + 1, self.params.slots);
        Ok(None)
    }
}
