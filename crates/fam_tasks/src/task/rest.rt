//! The rest of a line of which a task has loaded or stored the first word: the operations on its other words as a whole.
//! And lines of a file of which none was: all operations on one that is stored, or compared.

ghost use Rattle.std.specs.Prelude.{ℕ, suc, ◌≡◌, ◌+◌, ◌<◌, IfSome, length};
ghost use Rattle.fam_base.specs.Image.{eight};
ghost use Rattle.fam_base.specs.declared.line.LineNo.{LineNo};
ghost use Rattle.fam_commands.specs.declared.phase.Phase.TheVariants as at;
ghost use Rattle.fam_commands.specs.Task as spec;
ghost use Rattle.fam_tasks.specs.declared.answer.Turn.TheVariants.{Go};
ghost use Rattle.fam_tasks.specs.Rest.{ComparesLine, DropsLine, IsComparedLine, IsFileLineDue, IsFileRest, IsRest, IsSlotRest, IsStoreRest, Loads, Stored, Stores, StoresFileLine, StoresFileRest, Taken};

use super::Task;
use crate::answer::Turn;
use fam_base::{Line, LineNo};
use fam_commands::{Part, Phase};
use fam_format::{LAST_WORD, LINE_WORDS};
use fam_replay::line_of_slot;

impl Task {
    /// The line of which the task loads word 1 next, if it does.
    #[inline(always)]
    pub fn rest(&self) -> Option<LineNo>
        ensures { IfSome result (λ line. IsRest line self.now) }
    {
        match self.phase {
            Phase::Word {
                part,
                line,
                word: 1,
            } => Some(self.part_line(part, line)),
            _ => None,
        }
    }

    /// Takes the words of the line of which word 1 is loaded next, from that one on: up to the last one of a slot's
    /// line, and else up to the one before, behind which a task may end. It says how many these are.
    #[inline(always)]
    pub fn take_rest(&mut self, line: LineNo, words: &Line) -> u64
        requires rest { IsRest line self.old }
        ensures loads { Loads line words.now self.old self.new result }
        ensures most { result < LINE_WORDS }
    {
        match self.phase {
            Phase::Word {
                part,
                line: number,
                ..
            } => self.load_rest(line, part, number, words),
            _ => unreachable!(),
        }
    }

    /// Takes the words of a line of a part from word 1 on, and says how many these are.
    #[inline(always)]
    fn load_rest(&mut self, line: LineNo, part: Part, number: u64, words: &Line) -> u64
        requires phase { self.old.phase ≡ at.Word part number 1 }
        requires rest { IsRest line self.old }
        ensures loads { Loads line words.now self.old self.new result }
        ensures most { result < LINE_WORDS }
    {
        self.load_six(line, part, number, words);
        if let Part::Slot(slot) = part {
            self.is_sound();
            self.load_slot(slot, number, words[7]);
            return 7;
        }
        6
    }

    /// Takes words 1 to 6 of a line of a part.
    #[inline(always)]
    fn load_six(&mut self, line: LineNo, part: Part, number: u64, words: &Line)
        requires phase { self.old.phase ≡ at.Word part number 1 }
        requires rest { IsRest line self.old }
        ensures { Taken line words.now part number self.old self.new 7 }
    {
        let count = self.buffer.count();
        self.load_one(line, part, number, 1, count, words);
        self.load_one(line, part, number, 2, count + 1, words);
        self.load_one(line, part, number, 3, count + 2, words);
        self.load_one(line, part, number, 4, count + 3, words);
        self.load_one(line, part, number, 5, count + 4, words);
        self.load_one(line, part, number, 6, count + 5, words);
    }

    /// Takes word `k` of a line of a part, which isn't the last. So many words are held.
    #[inline(always)]
    fn load_one(&mut self, line: LineNo, part: Part, number: u64, k: u8, count: usize, words: &Line)
        requires phase { self.old.phase ≡ at.Word part number k }
        requires within { k < LAST_WORD }
        requires count { count ≡ length self.old.words }
        ensures phase { self.new.phase ≡ at.Word part number (k + 1) }
        ensures count { length self.new.words ≡ count + 1 }
        ensures taken { (t : spec.Task) → Taken line words.now part number t self.old k
            → Taken line words.now part number t self.new (k + 1) }
    {
        let _ = line;
        self.is_sound();
        self.load_behind(part, number, k, count, words[k as usize]);
    }

    /// The line that is dropped next was dropped: its first word is loaded next.
    pub fn drop_compared(&mut self, line: LineNo)
        requires compared { IsComparedLine line self.old }
        ensures { DropsLine line self.old self.new }
    {
        let _ = line;
        match self.phase {
            Phase::Drop { part, line: number } => self.begin_line(part, number),
            _ => unreachable!(),
        }
    }

    /// The line that is dropped next was dropped, and all its words were loaded. Where the task is done with it, `turn`
    /// says so.
    #[inline(always)]
    pub fn compare_whole(&mut self, line: LineNo, words: &Line, turn: &mut Turn)
        requires go { turn.old ≡ Go }
        requires compared { IsComparedLine line self.old }
        ensures { ComparesLine line (eight words.now) self.old self.new turn.new }
    {
        let _ = line;
        self.is_sound();
        let found = [
            words[0], words[1], words[2], words[3], words[4], words[5], words[6], words[7],
        ];
        match self.phase {
            Phase::Drop { line: number, .. } => self.compare_found(number, &found, turn),
            _ => unreachable!(),
        }
    }

    /// The line of which the task stores word 1 next, if it does, and all words of that line.
    #[inline(always)]
    pub fn rest_stored(&self) -> Option<(LineNo, Line)>
        ensures { IfSome result (λ rest. IsStoreRest rest.0 rest.1 self.now) }
    {
        match self.phase {
            Phase::StoreData { line, word: 1 } => Some(self.file_rest(line)),
            Phase::StoreSlot { line, word: 1 } => Some(self.slot_rest(line)),
            _ => None,
        }
    }

    /// A line of the new file, of which word 1 is stored next, and its words.
    fn file_rest(&self, line: u64) -> (LineNo, Line)
        requires { self.now.phase ≡ at.StoreData line 1 }
        ensures { IsFileRest result.0 result.1 self.now }
    {
        self.is_sound();
        (self.file_line(line), *self.contents.line())
    }

    /// A line of the new slot, of which word 1 is stored next, and its words.
    fn slot_rest(&self, line: u64) -> (LineNo, Line)
        requires { self.now.phase ≡ at.StoreSlot line 1 }
        ensures { IsSlotRest result.0 result.1 self.now }
    {
        self.is_sound();
        let words = self.buffer.line(LINE_WORDS * line as usize);
        (line_of_slot(&self.params, self.gate, line), words)
    }

    /// The words of the line of which word 1 is stored next were stored, from that one on: the line is sent next.
    #[inline(always)]
    pub fn store_rest(&mut self, line: LineNo, words: &Line)
        requires rest { IsStoreRest line words.now self.old }
        ensures { Stores line words.now self.old self.new 7 }
    {
        match self.phase {
            Phase::StoreData { line: number, .. } => self.store_file_rest(line, number, words),
            Phase::StoreSlot { line: number, .. } => self.store_slot_rest(line, number, words),
            _ => unreachable!(),
        }
    }

    /// The words of a line of the new file were stored, from word 1 on.
    #[inline(always)]
    fn store_file_rest(&mut self, line: LineNo, number: u64, words: &Line)
        requires phase { self.old.phase ≡ at.StoreData number 1 }
        requires rest { IsStoreRest line words.now self.old }
        ensures { StoresFileRest line words.now number self.old self.new }
    {
        self.store_file_word(line, number, 1, words);
        self.store_file_word(line, number, 2, words);
        self.store_file_word(line, number, 3, words);
        self.store_file_word(line, number, 4, words);
        self.store_file_word(line, number, 5, words);
        self.store_file_word(line, number, 6, words);
        self.is_sound();
        self.data_stored(number, LAST_WORD);
    }

    /// A line of the new file, of which word 0 is stored next, and its words.
    #[inline(always)]
    pub fn line_due(&self, line: u64) -> (LineNo, Line)
        requires { self.now.phase ≡ at.StoreData line 0 }
        ensures { IsFileLineDue result.0 result.1 self.now }
    {
        self.is_sound();
        (self.file_line(line), *self.contents.line())
    }

    /// All words of the line of which word 0 is stored next were stored: the line is sent next.
    #[inline(always)]
    pub fn store_line(&mut self, line: LineNo, words: &Line)
        requires due { IsFileLineDue line words.now self.old }
        ensures { StoresFileLine line words.now self.old self.new }
    {
        match self.phase {
            Phase::StoreData { line: number, .. } => {
                self.data_stored(number, 0);
                self.store_file_rest(line, number, words);
            }
            _ => unreachable!(),
        }
    }

    /// Word `k` of a line of the new file was stored, which isn't the last.
    #[inline(always)]
    fn store_file_word(&mut self, line: LineNo, number: u64, k: u8, words: &Line)
        requires phase { self.old.phase ≡ at.StoreData number k }
        requires within { k < LAST_WORD }
        ensures phase { self.new.phase ≡ at.StoreData number (k + 1) }
        ensures stored { (t : spec.Task) (n : ℕ) → k ≡ suc n → t.phase ≡ at.StoreData number 1
            → IsStoreRest line words.now t → Stored line words.now (at.StoreData number) t self.old n
            → Stored line words.now (at.StoreData number) t self.new (suc n) }
    {
        let _ = line;
        let _ = words;
        self.is_sound();
        self.data_stored(number, k);
    }

    /// The words of a line of the new slot were stored, from word 1 on.
    #[inline(always)]
    fn store_slot_rest(&mut self, line: LineNo, number: u64, words: &Line)
        requires phase { self.old.phase ≡ at.StoreSlot number 1 }
        requires rest { IsStoreRest line words.now self.old }
        ensures { Stores line words.now self.old self.new 7 }
    {
        self.store_slot_word(line, number, 1, words);
        self.store_slot_word(line, number, 2, words);
        self.store_slot_word(line, number, 3, words);
        self.store_slot_word(line, number, 4, words);
        self.store_slot_word(line, number, 5, words);
        self.store_slot_word(line, number, 6, words);
        self.is_sound();
        self.slot_stored(number, LAST_WORD);
    }

    /// Word `k` of a line of the new slot was stored, which isn't the last.
    #[inline(always)]
    fn store_slot_word(&mut self, line: LineNo, number: u64, k: u8, words: &Line)
        requires phase { self.old.phase ≡ at.StoreSlot number k }
        requires within { k < LAST_WORD }
        ensures phase { self.new.phase ≡ at.StoreSlot number (k + 1) }
        ensures stored { (t : spec.Task) (n : ℕ) → k ≡ suc n → t.phase ≡ at.StoreSlot number 1
            → IsStoreRest line words.now t → Stored line words.now (at.StoreSlot number) t self.old n
            → Stored line words.now (at.StoreSlot number) t self.new (suc n) }
    {
        let _ = line;
        let _ = words;
        self.is_sound();
        self.slot_stored(number, k);
    }
}
