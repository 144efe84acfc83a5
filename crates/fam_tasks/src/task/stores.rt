//! Turns of a task that appends: the words of the new file and of its slot are stored, and their lines are sent.

ghost use Rattle.std.specs.Prelude.{◌≡◌, ◌<◌, IfSome, None, false, is_some, true};
ghost use Rattle.fam_commands.specs.declared.phase.Phase.TheVariants as at;
ghost use Rattle.fam_commands.specs.FirstStore.{IsFirstStore};
ghost use Rattle.fam_commands.specs.Task.{op_of};
ghost use Rattle.fam_commands.specs.Turns.{turn_of};
ghost use Rattle.fam_machine.specs.Operations.{IsWithin};
ghost use Rattle.fam_tasks.specs.declared.answer.Turn.TheVariants.{Go};
ghost use Rattle.fam_tasks.specs.Tells.{Tells};

use super::{Task, last_line};
use crate::answer::Turn;
use fam_commands::Phase;
use fam_content::lines_of;
use fam_format::{LAST_WORD, LINE_WORDS};
use fam_machine::Op;
use fam_replay::line_of_slot;

impl Task {
    /// Whether the first store of an append comes next.
    #[inline(always)]
    pub fn stores_first(&self) -> bool
        ensures first { result ≡ true → IsFirstStore self.now }
        ensures other { result ≡ false → ¬ (IsFirstStore self.now) }
    {
        self.is_sound();
        match self.phase {
            Phase::StoreData { line: 0, word: 0 } => true,
            Phase::StoreSlot { line: 0, word: 0 } => self.is_bare(),
            _ => false,
        }
    }

    /// Whether there is an entry, and its file has no bytes.
    fn is_bare(&self) -> bool
        ensures bare { result ≡ true → IfSome self.now.entry (λ e. e.size ≡ 0) }
        ensures some { result ≡ true → is_some self.now.entry ≡ true }
        ensures other { result ≡ false → IfSome self.now.entry (λ e. 0 < e.size) }
    {
        match &self.entry {
            Some(entry) => entry.size == 0,
            None => false,
        }
    }

    /// The store of a word of a line of the new file.
    pub(super) fn data_store(&self, line: u64, word: u8) -> Op
        requires { self.now.phase ≡ at.StoreData line word }
        ensures op { result ≡ op_of self.now }
        ensures within { IsWithin self.now.lines result }
    {
        let value = self.contents.line()[word as usize];
        Op::Store(self.file_line(line), word, value)
    }

    /// A word of a line of the new file was stored.
    #[inline(always)]
    pub(super) fn data_stored(&mut self, line: u64, k: u8)
        requires { self.old.phase ≡ at.StoreData line k }
        ensures { Tells (turn_of self.old None) Go self.new }
    {
        self.phase = if k < LAST_WORD {
            Phase::StoreData { line, word: k + 1 }
        } else {
            Phase::SendData { line }
        };
    }

    /// A line of the new file was sent: the next one is stored, or the slot.
    #[inline(always)]
    pub(super) fn data_sent(&mut self, line: u64)
        requires { self.old.phase ≡ at.SendData line }
        ensures { Tells (turn_of self.old None) Go self.new }
    {
        let size = self.file_size();
        if line + 1 < lines_of(size) {
            self.contents.take(size);
            self.phase = Phase::StoreData {
                line: line + 1,
                word: 0,
            };
        } else {
            self.phase = Phase::StoreSlot { line: 0, word: 0 };
        }
    }

    /// The store of a word of the new slot.
    pub(super) fn slot_store(&self, line: u64, word: u8) -> Op
        requires { self.now.phase ≡ at.StoreSlot line word }
        ensures op { result ≡ op_of self.now }
        ensures within { IsWithin self.now.lines result }
    {
        let value = self.buffer.at(LINE_WORDS * line as usize + word as usize);
        Op::Store(line_of_slot(&self.params, self.gate, line), word, value)
    }

    /// A word of the new slot was stored.
    #[inline(always)]
    pub(super) fn slot_stored(&mut self, line: u64, k: u8)
        requires { self.old.phase ≡ at.StoreSlot line k }
        ensures { Tells (turn_of self.old None) Go self.new }
    {
        self.phase = if k < LAST_WORD {
            Phase::StoreSlot { line, word: k + 1 }
        } else {
            Phase::SendSlot { line }
        };
    }

    /// It was asked for a line of the new slot to be sent.
    #[inline(always)]
    pub(super) fn slot_sent(&mut self, line: u64)
        requires { self.old.phase ≡ at.SendSlot line }
        ensures { Tells (turn_of self.old None) Go self.new }
    {
        self.phase = if line < last_line(&self.params) {
            Phase::StoreSlot {
                line: line + 1,
                word: 0,
            }
        } else {
            Phase::FenceSlot
        };
    }

    /// The new slot was sent.
    pub(super) fn fence_slot(&mut self) -> Turn
        requires { self.old.phase ≡ at.FenceSlot }
        ensures { Tells (turn_of self.old None) result self.new }
    {
        self.phase = Phase::StoreGate;
        Turn::Go
    }

    /// It was asked for the gate to be sent.
    pub(super) fn send_gate(&mut self) -> Turn
        requires { self.old.phase ≡ at.SendGate }
        ensures { Tells (turn_of self.old None) result self.new }
    {
        self.phase = Phase::FenceGate;
        Turn::Go
    }

    /// The gate was stored.
    #[inline(always)]
    pub(super) fn gate_stored(&mut self)
        requires { self.old.phase ≡ at.StoreGate }
        ensures { Tells (turn_of self.old None) Go self.new }
    {
        self.phase = Phase::SendGate;
    }
}
