//! What comes next of a task, told apart by how it is done.

ghost use Rattle.std.specs.Prelude.{◌≡◌};
ghost use Rattle.fam_commands.specs.declared.phase.Part.TheVariants as part;
ghost use Rattle.fam_commands.specs.declared.phase.Phase.TheVariants as at;
ghost use Rattle.fam_tasks.specs.Due.{IsDue};

use super::{SlotDue, Task, lines_of_a_slot};
use fam_base::{Cmd, LineNo};
use fam_commands::{Part, Phase};

/// What comes next of a task: an operation, or those on a line that may be done as a whole.
#[derive(Clone, Copy)]
pub enum Due {
    /// This line of a slot is dropped, and its words are loaded.
    Slot(SlotDue),
    /// The words of the line of this number of the new file are stored, and the line is sent.
    Stored(u64),
    /// This line of a file is dropped, and its words are loaded and compared.
    Compared(LineNo),
    /// The words of this slot are looked at: a Digest.
    Checked(u64),
    /// Any other operation.
    Other,
}

impl Task {
    /// What comes next of a task that has not answered.
    #[inline(always)]
    pub fn due(&self) -> Due
        ensures { IsDue result self.now }
    {
        match self.phase {
            Phase::Drop {
                part: Part::Slot(slot),
                line,
            } => self.slot_due(slot, line),
            Phase::Check { slot } => Due::Checked(slot),
            Phase::StoreData { line, word: 0 } => Due::Stored(line),
            Phase::Drop {
                part: Part::File,
                line,
            } => self.file_due(line),
            _ => Due::Other,
        }
    }

    /// A line of a slot, which is dropped next.
    #[inline(always)]
    fn slot_due(&self, slot: u64, line: u64) -> Due
        requires { self.now.phase ≡ at.Drop (part.Slot slot) line }
        ensures { IsDue result self.now }
    {
        self.is_sound();
        let at = self.part_line(Part::Slot(slot), line);
        Due::Slot(SlotDue {
            slot,
            first: at.0 - line,
            line,
            lines: lines_of_a_slot(&self.params),
        })
    }

    /// A line of a file, which is dropped next, and may be compared.
    #[inline(always)]
    fn file_due(&self, line: u64) -> Due
        requires { self.now.phase ≡ at.Drop part.File line }
        ensures { IsDue result self.now }
    {
        self.is_sound();
        match self.cmd {
            Cmd::Verify { .. } => Due::Compared(self.wanted_line(line)),
            _ => Due::Other,
        }
    }
}
