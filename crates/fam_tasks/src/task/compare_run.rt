//! Lines of a file that is compared, which stand one behind another on the device and are compared as a whole.

ghost use Rattle.std.specs.Prelude.{◌≡◌, ◌+◌, ◌<◌, ◌≤◌, IfSome, None, length};
ghost use Rattle.fam_machine.specs.Operations.{line_no};
ghost use Rattle.fam_tasks.specs.CompareRuns.{ComparesRun, IsComparedRow};
ghost use Rattle.fam_tasks.specs.Rest.{IsComparedLine};
ghost use Rattle.fam_tasks.specs.declared.answer.Turn.TheVariants.{Go};

use super::{Task, end};
use crate::answer::{Answer, Turn};
use crate::wanted::wanted_lines;
use fam_base::{Line, LineNo};
use fam_commands::{Part, Phase};
use fam_content::{compare_lines, lines_in_row};
use fam_format::LINE_BYTES;

/// The most lines that are compared at once.
pub const MOST_COMPARED: usize = 16;

impl Task {
    /// How many lines of a file that is compared, from the one on that is dropped next, stand one behind another before the last
    /// one that is wanted, but no more than `most`.
    #[inline(always)]
    pub fn compared_row(&self, line: LineNo, most: u64) -> u64
        requires { IsComparedLine line self.now }
        ensures most { result ≤ most }
        ensures row { IsComparedRow line.0 result self.now }
    {
        let _ = line;
        self.is_sound();
        let left = wanted_lines(&self.cmd, self.file_size()) - 1;
        let Phase::Drop { line: number, .. } = self.phase else {
            unreachable!();
        };
        match &self.entry {
            Some(entry) => lines_in_row(entry, number, most.min(left - number)),
            None => unreachable!(),
        }
    }

    /// The first so many of these lines of a file that is compared were dropped and loaded, from the one on that is dropped next.
    /// Where one differs, the task is done with it, `turn` says so, and the answer is how many were compared up to it.
    #[inline(always)]
    pub fn compare_run(
        &mut self,
        first: LineNo,
        found: &[Line],
        count: usize,
        turn: &mut Turn,
    ) -> Option<usize>
        requires go { turn.old ≡ Go }
        requires row { IsComparedRow first.0 (length found.now) self.old }
        requires has { count ≤ length found.now }
        requires few { count ≤ MOST_COMPARED }
        ensures some { IfSome result (λ compared. 0 < compared) }
        ensures most { IfSome result (λ compared. compared ≤ count) }
        ensures ends { IfSome result (λ compared. ComparesRun first.0 found.now self.old self.new compared turn.new) }
        ensures goes { result ≡ None → ComparesRun first.0 found.now self.old self.new count turn.new }
        ensures go { result ≡ None → turn.new ≡ Go }
        ensures next { result ≡ None → count < length found.now → IsComparedLine (line_no (first.0 + count)) self.new }
    {
        let _ = first;
        self.is_sound();
        let Phase::Drop { line, .. } = self.phase else {
            unreachable!();
        };
        let size = self.file_size();
        let m = self.history.count();
        let mut room = [[0; 8]; MOST_COMPARED];
        let wanted = &mut room[..count];
        self.contents.take_lines(size, wanted);
        match compare_lines(found, wanted, LINE_BYTES * line, size) {
            Some((k, (offset, found, wanted))) => {
                let answer = Answer::Differs {
                    m,
                    offset,
                    found,
                    wanted,
                };
                end(&mut self.phase, answer, turn);
                Some(k + 1)
            }
            None => {
                self.phase = Phase::Drop {
                    part: Part::File,
                    line: line + count as u64,
                };
                None
            }
        }
    }
}
