//! Turns of a task that read the lines of a file.

ghost use Rattle.std.specs.Prelude.{◌≡◌};
ghost use Rattle.fam_format.specs.Line.{last_word};
ghost use Rattle.fam_commands.specs.declared.phase.Part.TheVariants as part;
ghost use Rattle.fam_commands.specs.declared.phase.Phase.{Phase};
ghost use Rattle.fam_commands.specs.declared.phase.Phase.TheVariants as at;
ghost use Rattle.fam_commands.specs.Task as spec;
ghost use Rattle.fam_commands.specs.Turns as turns;
ghost use Rattle.fam_commands.specs.Classes.{IsRead, IsVerify};
ghost use Rattle.fam_tasks.specs.declared.answer.Turn.TheVariants.{Go};
ghost use Rattle.fam_tasks.specs.Tells.{Tells};

use super::{Task, done, end};
use crate::answer::{Answer, Turn};
use crate::wanted::{wanted_lines, wanted_start};
use fam_base::{ByteText, Cmd, Line};
use fam_commands::{Part, Phase};
use fam_content::compare;
use fam_format::{LAST_WORD, LINE_BYTES};
use std::mem::replace;

impl Task {
    /// The bytes of the file of the entry, none where there is no entry.
    pub(super) fn file_size(&self) -> u64
        ensures { result ≡ spec.size_of self.now.entry }
    {
        match &self.entry {
            Some(entry) => entry.size,
            None => 0,
        }
    }

    /// The last word of a line of the file was loaded.
    pub(super) fn load_file(&mut self, line: u64, word: u64) -> Turn
        requires { self.old.phase ≡ at.Word part.File line last_word }
        ensures turn { Tells (turns.file_turn self.old.cmd (turns.with_word self.old word) line)
            result self.new }
        ensures kept { self.new.kept ≡ self.old.kept }
    {
        self.is_sound();
        match self.cmd {
            Cmd::Verify { .. } => self.compare_line(line, word),
            Cmd::Read { .. } => self.read_line(line, word),
            _ => unreachable!(),
        }
    }

    /// The last word of a line of a file that is compared was loaded.
    fn compare_line(&mut self, line: u64, word: u64) -> Turn
        requires phase { self.old.phase ≡ at.Word part.File line last_word }
        requires verify { IsVerify self.old.cmd }
        ensures turn { Tells (turns.file_turn self.old.cmd (turns.with_word self.old word) line)
            result self.new }
        ensures kept { self.new.kept ≡ self.old.kept }
    {
        self.buffer.push(word);
        let found = self.buffer.line(0);
        self.buffer.clear();
        self.phase = Phase::Drop {
            part: Part::File,
            line,
        };
        let mut turn = Turn::Go;
        self.compare_found(line, &found, &mut turn);
        turn
    }

    /// Compares these words of a line, of which none is held. Where the task is done with it, `turn` says so.
    #[inline(always)]
    pub(super) fn compare_found(&mut self, line: u64, found: &Line, turn: &mut Turn)
        requires go { turn.old ≡ Go }
        requires phase { self.old.phase ≡ at.Drop part.File line }
        requires verify { IsVerify self.old.cmd }
        ensures turn { (phase : Phase) → Tells (turns.file_turn self.old.cmd
            (record self.old { phase = phase; words = found.now }) line) turn.new self.new }
        ensures kept { self.new.kept ≡ self.old.kept }
    {
        let size = self.file_size();
        let lines = wanted_lines(&self.cmd, size);
        let m = self.history.count();
        self.contents.take(size);
        match compare(found, self.contents.line(), LINE_BYTES * line, size) {
            Some((offset, found, wanted)) => {
                let answer = Answer::Differs {
                    m,
                    offset,
                    found,
                    wanted,
                };
                end(&mut self.phase, answer, turn);
            }
            None => {
                if line + 1 < lines {
                    self.phase = Phase::Drop {
                        part: Part::File,
                        line: line + 1,
                    };
                } else {
                    end(&mut self.phase, Answer::Same { m }, turn);
                }
            }
        }
    }

    /// A line of a file whose bytes are wanted was loaded.
    fn read_line(&mut self, line: u64, word: u64) -> Turn
        requires phase { self.old.phase ≡ at.Word part.File line last_word }
        requires read { IsRead self.old.cmd }
        ensures turn { Tells (turns.file_turn self.old.cmd (turns.with_word self.old word) line)
            result self.new }
        ensures kept { self.new.kept ≡ self.old.kept }
    {
        let lines = wanted_lines(&self.cmd, self.file_size());
        let m = self.history.count();
        let first = wanted_start(&self.cmd) % LINE_BYTES;
        self.buffer.push(word);
        if line + 1 < lines {
            self.phase = Phase::Drop {
                part: Part::File,
                line: line + 1,
            };
            return Turn::Go;
        }
        let mut bytes = replace(&mut self.room, Vec::new(self.alloc));
        self.buffer.copy_bytes(first as usize, bytes.as_mut_slice());
        let answer = Answer::Bytes {
            m,
            bytes: ByteText::new(bytes),
        };
        done(&mut self.phase, answer)
    }
}
