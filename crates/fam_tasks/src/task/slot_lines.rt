//! A line of a slot, which is dropped and whose words are all taken at once: of a long log nearly all operations are such.

ghost use Rattle.std.specs.Prelude.{◌≡◌, ◌+◌, ◌^◌, ◌<◌, ◌≤◌, ◌++◌, length, nat_lt, if◌then◌else◌};
ghost use Rattle.fam_base.specs.Image.{eight};
ghost use Rattle.fam_format.specs.Layout.{geometry, slot_line};
ghost use Rattle.fam_commands.specs.declared.phase.Part.TheVariants as part;
ghost use Rattle.fam_commands.specs.declared.phase.Phase.TheVariants as at;
ghost use Rattle.fam_tasks.specs.Rest.{DropsLine};
ghost use Rattle.fam_tasks.specs.SlotLines.{IsSlotLine, LoadsSlotLine, LoadsSlotLines, words_in};

use super::Task;
use fam_base::{Line, LineNo};
use fam_commands::{Part, Phase};
use fam_replay::line_of_slot;

/// Which line of which slot a task drops next, before it loads the line's words.
#[derive(Clone, Copy)]
pub struct SlotDue {
    pub slot: u64,
    /// The number in the image of the slot's first line.
    pub first: u64,
    /// Counted from 0 in the slot.
    pub line: u64,
    /// How many lines each slot has.
    pub lines: u64,
}

/// Moves from a line that is dropped next to the one behind it.
#[inline(always)]
fn move_on(phase: &mut Phase, part: Part, number: u64)
    requires phase { phase.old ≡ at.Drop part number }
    requires fits { number + 1 < 2 ^ 64 }
    ensures { phase.new ≡ at.Drop part (number + 1) }
{
    let _ = part;
    match phase {
        Phase::Drop { line, .. } => *line = number + 1,
        _ => unreachable!(),
    }
}

impl Task {
    /// The number in the image of the line of a slot that the task drops next.
    #[inline(always)]
    pub fn line_of_slot_due(&self, due: SlotDue) -> LineNo
        requires due { self.now.phase ≡ at.Drop (part.Slot due.slot) due.line }
        requires first { due.first ≡ slot_line self.now.params due.slot 0 }
        ensures { IsSlotLine result self.now }
    {
        self.is_sound();
        LineNo(due.first + due.line)
    }

    /// The line that is dropped next was dropped: its first word is loaded next.
    pub fn drop_line_of_slot(&mut self, line: LineNo)
        requires { IsSlotLine line self.old }
        ensures { DropsLine line self.old self.new }
    {
        let _ = line;
        self.is_sound();
        match self.phase {
            Phase::Drop { part, line: number } => self.begin_line(part, number),
            _ => unreachable!(),
        }
    }

    /// The line that is dropped next was dropped, and all its words were loaded, which are these.
    #[inline(always)]
    pub fn load_line_of_slot(&mut self, due: SlotDue, line: LineNo, words: &Line)
        requires due { self.old.phase ≡ at.Drop (part.Slot due.slot) due.line }
        requires lines { due.lines ≡ (geometry self.old.params).lines }
        requires line { IsSlotLine line self.old }
        ensures loads { LoadsSlotLine line (eight words.now) self.old self.new }
        ensures params { self.new.params ≡ self.old.params }
        ensures next { due.line + 1 < due.lines → self.new.phase ≡ at.Drop (part.Slot due.slot) (due.line + 1) }
    {
        let _ = line;
        self.is_sound();
        self.take_line_of_slot(due.slot, due.line, due.lines, words);
    }

    /// The first so many lines of a slot were dropped, and all their words were loaded, which are these.
    #[inline(always)]
    pub fn load_lines_of_slot(&mut self, due: SlotDue, lines: &[Line], count: usize)
        requires due { self.old.phase ≡ at.Drop (part.Slot due.slot) 0 }
        requires lines { due.lines ≡ (geometry self.old.params).lines }
        requires first { due.first ≡ slot_line self.old.params due.slot 0 }
        requires few { count ≤ due.lines }
        requires has { count ≤ length lines.now }
        ensures loads { LoadsSlotLines due.first lines.now self.old self.new count }
        ensures params { self.new.params ≡ self.old.params }
        ensures next { count < due.lines → self.new.phase ≡ at.Drop (part.Slot due.slot) count }
    {
        self.is_sound();
        self.take_lines_of_slot(due.slot, due.lines, lines, count);
    }

    /// All words of the first so many lines of a slot were loaded.
    #[inline(always)]
    fn take_lines_of_slot(&mut self, slot: u64, most: u64, lines: &[Line], count: usize)
        requires due { self.old.phase ≡ at.Drop (part.Slot slot) 0 }
        requires most { most ≡ (geometry self.old.params).lines }
        requires few { count ≤ most }
        requires has { count ≤ length lines.now }
        ensures { self.new ≡ record self.old {
          words = self.old.words ++ words_in lines.now count;
          phase = if nat_lt count (geometry self.old.params).lines then at.Drop (part.Slot slot) count
              else at.Check slot;
        } }
    {
        self.buffer.push_lines(lines, count);
        let line = count as u64;
        if line < most {
            self.phase = Phase::Drop {
                part: Part::Slot(slot),
                line,
            };
        } else {
            self.phase = Phase::Check { slot };
        }
    }

    /// All words of a line of a slot were loaded.
    #[inline(always)]
    fn take_line_of_slot(&mut self, slot: u64, number: u64, lines: u64, words: &Line)
        requires due { self.old.phase ≡ at.Drop (part.Slot slot) number }
        requires lines { lines ≡ (geometry self.old.params).lines }
        ensures { self.new ≡ record self.old {
          words = self.old.words ++ eight words.now;
          phase = if nat_lt (number + 1) (geometry self.old.params).lines then at.Drop (part.Slot slot) (number + 1)
              else at.Check slot;
        } }
    {
        self.buffer.push_line(words);
        if number + 1 < lines {
            move_on(&mut self.phase, Part::Slot(slot), number);
        } else {
            self.phase = Phase::Check { slot };
        }
    }
}
