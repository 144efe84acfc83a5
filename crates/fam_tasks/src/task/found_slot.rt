//! A slot that has the words which an earlier task of the host found in it. Its lines were read; nothing of it is read again as
//! an entry's, and its words are copied nowhere.

ghost use Rattle.std.specs.Prelude.{◌≡◌, ◌+◌, ◌^◌, ◌<◌, ◌≤◌, nat_lt, if◌then◌else◌, length, false, true};
ghost use Rattle.fam_format.specs.Layout.{geometry, slot_line};
ghost use Rattle.fam_commands.specs.declared.phase.Part.TheVariants as part;
ghost use Rattle.fam_commands.specs.declared.phase.Phase.TheVariants as at;
ghost use Rattle.fam_tasks.specs.SlotLines.{FindsSlot};

use super::{SlotDue, Task, slot_or_decide};
use crate::commands::{is_fsck, is_logplay, plays_out};
use fam_base::Line;

impl Task {
    /// How many slots from this one on may have the words that an earlier task of the host found in them, of those that the
    /// gate counts, and but for the last one of a logplay. No contract hangs on more of it: it tells how far it is worth to look.
    #[inline(always)]
    pub fn kept_ahead(&self, slot: u64) -> u64
        ensures gate { 0 < result → slot + result ≤ self.now.gate }
        ensures small { slot + result < 2 ^ 64 }
    {
        let left = self.gate.saturating_sub(slot);
        let found = if is_logplay(&self.cmd) {
            left.saturating_sub(1)
        } else {
            left
        };
        self.history.kept_ahead().min(found)
    }

    /// Takes a slot that has the words which an earlier task of the host found in it, and says whether it has. Its lines were
    /// dropped, all their words were loaded, which are these, and they were looked at: its entry joins those before it. Where
    /// it has others nothing changes, and so with the last slot of a logplay, whose Digest makes the tree.
    #[inline(always)]
    pub fn find_slot(&mut self, due: SlotDue, lines: &[Line]) -> bool
        requires due { self.old.phase ≡ at.Drop (part.Slot due.slot) 0 }
        requires lines { due.lines ≡ (geometry self.old.params).lines }
        requires first { due.first ≡ slot_line self.old.params due.slot 0 }
        requires all { length lines.now ≡ due.lines }
        ensures found { result ≡ true → FindsSlot due.first lines.now due.lines due.slot self.old self.new }
        ensures next { result ≡ true → self.new.phase
            ≡ (if nat_lt (due.slot + 1) self.old.gate then at.Drop (part.Slot (due.slot + 1)) 0 else at.Decide) }
        ensures params { self.new.params ≡ self.old.params }
        ensures gate { self.new.gate ≡ self.old.gate }
        ensures other { result ≡ false → self.new ≡ self.old }
    {
        if is_fsck(&self.cmd) {
            return false;
        }
        if plays_out(&self.cmd, due.slot + 1, self.gate) {
            return false;
        }
        let words = lines.as_flattened();
        if !self.history.find_slot(&self.params, self.gate, words) {
            return false;
        }
        self.phase = slot_or_decide(due.slot + 1, self.gate);
        true
    }
}
