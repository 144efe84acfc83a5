//! Turns of a task that read: what comes of the words that its loads gave.

ghost use Rattle.std.specs.Prelude.{◌≡◌, ◌+◌, ◌*◌, ◌<◌, ◌≤◌, None, IfOk, length, true};
ghost use Rattle.fam_format.specs.Layout.{device_limit};
ghost use Rattle.fam_format.specs.Log.{gate_fault};
ghost use Rattle.fam_format.specs.Params.{SoundParams};
ghost use Rattle.fam_format.specs.Super.{magic_fault, super_body_of};
ghost use Rattle.fam_commands.specs.declared.phase.Part.TheVariants as part;
ghost use Rattle.fam_commands.specs.declared.phase.Phase.TheVariants as at;
ghost use Rattle.fam_commands.specs.Turns as turns;
ghost use Rattle.fam_commands.specs.Kept.{first_slot, used};
ghost use Rattle.fam_commands.specs.Turns.{turn_of};
ghost use Rattle.fam_replay.specs.Replay.{entries_in, IsReplayOf};
ghost use Rattle.fam_tasks.specs.Commands.{slots_told};
ghost use Rattle.fam_tasks.specs.declared.answer.TaskNote.TheVariants.{Mark};
ghost use Rattle.fam_tasks.specs.declared.answer.Turn.TheVariants.{Go, Note};
ghost use Rattle.fam_tasks.specs.Tells.{Tells, is_reading};

use super::{Task, done, last_line, slot_or_decide};
use crate::answer::{Answer, TaskNote, Turn};
use crate::buffer::Buffer;
use crate::commands::{appends, check_host, is_fsck, slots_told};
use crate::history::History;
use crate::replies::{log_answer, refusal_answer, super_answer};
use fam_base::{Cmd, Params};
use fam_commands::{Part, Phase};
use fam_format::{LAST_WORD, LINE_BYTES, LINE_WORDS, SuperFault};
use fam_replay::{read_gate, read_header, read_superblock};
use fam_super::MAGIC;

/// The parameters that lines 1 and 2 tell, or the first fault. `have` is the image's bytes.
fn read_body(words: &Buffer, have: u64) -> Result<Params, SuperFault>
    requires count { length words.now ≡ 2 * LINE_WORDS }
    requires have { have ≤ device_limit }
    ensures value { result ≡ super_body_of words.now have }
    ensures sound { IfOk result (λ p. SoundParams p) }
    ensures device { IfOk result (λ p. p.device ≤ have) }
{
    read_superblock(&words.line(0), &words.line(LINE_WORDS), have)
}

/// Begins with the entries that the host keeps, where they serve the command, and says how many these are.
fn begin_history(history: &mut History, cmd: &Cmd, params: &Params, gate: u64) -> u64
    requires { history.old.replay ≡ None }
    ensures entries { entries_in history.new.replay ≡ used history.old.kept cmd.now params.now gate }
    ensures count { result ≡ first_slot history.old.kept cmd.now params.now gate }
    ensures within { result ≤ slots_told cmd.now params.now gate }
    ensures fits { IsReplayOf params.now gate history.new.replay }
    ensures kept { history.new.kept ≡ history.old.kept }
{
    if is_fsck(cmd) {
        return 0;
    }
    history.begin(params, gate)
}

impl Task {
    /// Line 0 was dropped.
    pub(super) fn drop_magic(&mut self) -> Turn
        requires { self.old.phase ≡ at.DropMagic }
        ensures { Tells (turn_of self.old None) result self.new }
    {
        self.phase = Phase::Magic;
        Turn::Go
    }

    /// Word 0 of line 0 was loaded.
    pub(super) fn load_magic(&mut self, word: u64) -> Turn
        requires { self.old.phase ≡ at.Magic }
        ensures turn { Tells (turns.magic_turn self.old (magic_fault word)) result self.new }
        ensures kept { self.new.kept ≡ self.old.kept }
    {
        if word != MAGIC {
            let answer = super_answer(&self.cmd, SuperFault::NoSuper(word));
            return done(&mut self.phase, answer);
        }
        self.buffer.clear();
        self.phase = Phase::Drop {
            part: Part::Superblock,
            line: 0,
        };
        Turn::Go
    }

    /// A line of a part was dropped: its first word is loaded next.
    #[inline(always)]
    pub(super) fn begin_line(&mut self, part: Part, line: u64)
        requires { self.old.phase ≡ at.Drop part line }
        ensures { self.new ≡ record self.old { phase = at.Word part line 0 } }
    {
        self.phase = Phase::Word {
            part,
            line,
            word: 0,
        };
    }

    /// Word `k` of a line of a part was loaded.
    pub(super) fn load_word(&mut self, part: Part, line: u64, k: u8, word: u64) -> Turn
        requires { self.old.phase ≡ at.Word part line k }
        ensures turn { Tells (turns.word_turn (turns.with_word self.old word) part line k)
            result self.new }
        ensures kept { self.new.kept ≡ self.old.kept }
    {
        self.is_sound();
        if k < LAST_WORD {
            self.load_within(part, line, k, word);
            return Turn::Go;
        }
        match part {
            Part::Superblock => self.load_superblock(line, word),
            Part::Header => self.load_header(word),
            Part::Slot(slot) => {
                self.load_slot(slot, line, word);
                Turn::Go
            }
            Part::File => self.load_file(line, word),
        }
    }

    /// A word was loaded that isn't the last of its line.
    #[inline(always)]
    pub(super) fn load_within(&mut self, part: Part, line: u64, k: u8, word: u64)
        requires phase { self.old.phase ≡ at.Word part line k }
        requires within { k < LAST_WORD }
        ensures { Tells (turns.word_turn (turns.with_word self.old word) part line k) Go self.new }
    {
        let count = self.buffer.count();
        self.load_behind(part, line, k, count, word);
    }

    /// The same, where so many words are held.
    #[inline(always)]
    pub(super) fn load_behind(&mut self, part: Part, line: u64, k: u8, count: usize, word: u64)
        requires phase { self.old.phase ≡ at.Word part line k }
        requires within { k < LAST_WORD }
        requires count { count ≡ length self.old.words }
        ensures turn { Tells (turns.word_turn (turns.with_word self.old word) part line k) Go self.new }
        ensures count { length self.new.words ≡ count + 1 }
    {
        self.buffer.push_behind(count, word);
        self.phase = Phase::Word {
            part,
            line,
            word: k + 1,
        };
    }

    /// A word was loaded that leads on among the lines that are read.
    #[inline(always)]
    pub(super) fn load_on(&mut self, part: Part, line: u64, k: u8, word: u64)
        requires phase { self.old.phase ≡ at.Word part line k }
        requires reading { is_reading self.old.phase ≡ true }
        ensures { Tells (turns.word_turn (turns.with_word self.old word) part line k) Go self.new }
    {
        self.is_sound();
        if k < LAST_WORD {
            return self.load_within(part, line, k, word);
        }
        match part {
            Part::Slot(slot) => self.load_slot(slot, line, word),
            _ => unreachable!(),
        }
    }

    /// The last word of line 1 or 2 was loaded.
    fn load_superblock(&mut self, line: u64, word: u64) -> Turn
        requires { self.old.phase ≡ at.Word part.Superblock line LAST_WORD }
        ensures turn { Tells (turns.line_turn (turns.with_word self.old word) part.Superblock line)
            result self.new }
        ensures kept { self.new.kept ≡ self.old.kept }
    {
        self.buffer.push(word);
        if line == 0 {
            self.phase = Phase::Drop {
                part: Part::Superblock,
                line: 1,
            };
            return Turn::Go;
        }
        match read_body(&self.buffer, LINE_BYTES * self.lines) {
            Err(fault) => {
                let answer = super_answer(&self.cmd, fault);
                done(&mut self.phase, answer)
            }
            Ok(params) => {
                if let Err(refused) = check_host(&self.cmd, &params, &self.me) {
                    return done(&mut self.phase, refusal_answer(refused));
                }
                self.params = params;
                self.buffer.clear();
                self.phase = Phase::Drop {
                    part: Part::Header,
                    line: 0,
                };
                Turn::Go
            }
        }
    }

    /// The last word of the header was loaded.
    fn load_header(&mut self, word: u64) -> Turn
        requires { self.old.phase ≡ at.Word part.Header 0 LAST_WORD }
        ensures turn { Tells (turns.line_turn (turns.with_word self.old word) part.Header 0)
            result self.new }
        ensures kept { self.new.kept ≡ self.old.kept }
    {
        self.buffer.push(word);
        match read_header(&self.buffer.line(0), &self.params) {
            Err(fault) => {
                let answer = log_answer(&self.cmd, fault);
                done(&mut self.phase, answer)
            }
            Ok(()) => {
                self.buffer.clear();
                self.phase = Phase::DropGate;
                Turn::Go
            }
        }
    }

    /// The last word of a line of a slot was loaded.
    #[inline(always)]
    pub(super) fn load_slot(&mut self, slot: u64, line: u64, word: u64)
        requires { self.old.phase ≡ at.Word (part.Slot slot) line LAST_WORD }
        ensures { Tells (turns.line_turn (turns.with_word self.old word) (part.Slot slot) line)
            Go self.new }
    {
        self.buffer.push(word);
        if line < last_line(&self.params) {
            self.phase = Phase::Drop {
                part: Part::Slot(slot),
                line: line + 1,
            };
        } else {
            self.phase = Phase::Check { slot };
        }
    }

    /// The gate's line was dropped.
    pub(super) fn mark(&mut self) -> Turn
        requires { self.old.phase ≡ at.DropGate }
        ensures turn { result ≡ Note Mark }
        ensures new { self.new ≡ record self.old { phase = at.Gate } }
    {
        self.phase = Phase::Gate;
        Turn::Note(TaskNote::Mark)
    }

    /// The gate was loaded.
    pub(super) fn load_gate(&mut self, gate: u64) -> Turn
        requires { self.old.phase ≡ at.Gate }
        ensures turn { Tells (turns.gate_turn self.old gate (gate_fault gate self.old.params))
            result self.new }
        ensures kept { self.new.kept ≡ self.old.kept }
    {
        match read_gate(gate, &self.params) {
            Err(fault) => {
                let answer = log_answer(&self.cmd, fault);
                done(&mut self.phase, answer)
            }
            Ok(()) => self.begin_slots(gate),
        }
    }

    /// Goes on to the first slot behind the entries that the host keeps, or to the decision.
    fn begin_slots(&mut self, gate: u64) -> Turn
        requires phase { self.old.phase ≡ at.Gate }
        requires within { gate ≤ self.old.params.slots }
        ensures turn { Tells (turns.gate_turn self.old gate None) result self.new }
        ensures kept { self.new.kept ≡ self.old.kept }
    {
        let first = begin_history(&mut self.history, &self.cmd, &self.params, gate);
        self.gate = gate;
        self.phase = slot_or_decide(first, slots_told(&self.cmd, &self.params, gate));
        if appends(&self.cmd) {
            Turn::Note(TaskNote::Found(gate))
        } else {
            Turn::Go
        }
    }
}
