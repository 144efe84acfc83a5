//! Lines of the new file that stand one behind another on the device, and are stored and sent as a whole.

ghost use Rattle.std.specs.Prelude.{◌≡◌, ◌<◌, ◌≤◌, length};
ghost use Rattle.fam_commands.specs.declared.phase.Phase.TheVariants as at;
ghost use Rattle.fam_tasks.specs.StoreRuns.{IsRow, StoresRun};

use super::Task;
use fam_base::{Line, LineNo};
use fam_commands::Phase;
use fam_content::{file_line, lines_in_row, lines_of};

impl Task {
    /// Where the line of this number of the new file stands, of which word 0 is stored next, and how many lines from it on
    /// stand one behind another, but no more than `most`.
    #[inline(always)]
    pub fn row_due(&self, number: u64, most: u64) -> (LineNo, u64)
        requires { self.now.phase ≡ at.StoreData number 0 }
        ensures most { result.1 ≤ most }
        ensures row { IsRow result.0.0 number result.1 self.now }
        ensures within { result.0.0 < self.now.lines }
    {
        self.is_sound();
        match &self.entry {
            Some(entry) => (file_line(entry, number), lines_in_row(entry, number, most)),
            None => unreachable!(),
        }
    }

    /// As many lines of the new file as `lines` has were stored and sent, from this one on, of which word 0 is stored next.
    /// They stand one behind another, and their words are put there.
    #[inline(always)]
    pub fn store_run(&mut self, first: LineNo, number: u64, lines: &mut [Line])
        requires due { self.old.phase ≡ at.StoreData number 0 }
        requires some { 0 < length lines.old }
        requires row { IsRow first.0 number (length lines.old) self.old }
        ensures { StoresRun first.0 lines.new self.old self.new (length lines.old) }
    {
        let _ = first;
        self.is_sound();
        let size = self.file_size();
        self.contents.hand_out(size, lines);
        let line = number + lines.len() as u64;
        if line < lines_of(size) {
            self.contents.take(size);
            self.phase = Phase::StoreData { line, word: 0 };
        } else {
            self.phase = Phase::StoreSlot { line: 0, word: 0 };
        }
    }
}
