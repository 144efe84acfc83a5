//! Rows of lines that stand one behind another, over several blocks, of which the host holds clean copies: whoever has read
//! their words puts them at once, without a call of the media for each block.

ghost use Rattle.std.specs.Prelude.{◌≡◌, ◌+◌, ◌%◌, ◌^◌, ◌<◌, ◌≤◌, length, true};
ghost use Rattle.fam_machine.specs.Caches.{cell_at, with_cell};
ghost use Rattle.fam_machine.specs.OneLine.{IsDirty};
ghost use Rattle.fam_machine.specs.declared.cell.Cell.{Cell};
ghost use Rattle.fam_cache.specs.Blocks.{IsKept, lines_of};
ghost use Rattle.fam_cache.specs.BroughtRuns.{AreClean, brought_run};

use super::HostCache;
use crate::blocks::{Blocks, are_clean, drop_copy, seek, set_run};
use fam_base::{Line, LineNo};

/// How many of so many lines from this one on stand in its block.
#[inline(always)]
fn part_of(line: u64, count: usize) -> usize
    ensures some { 0 < count → 0 < result }
    ensures most { result ≤ count }
    ensures within { line % 16 + result ≤ 16 }
{
    count.min(16 - (line % 16) as usize)
}

/// Whether the host holds clean copies of so many lines, from this one on. Their blocks are looked for at `last` first.
fn all_clean(places: &Blocks, last: usize, first: u64, count: usize) -> bool
    requires kept { IsKept places.now }
    requires within { first + count < 2 ^ 64 }
    ensures { result ≡ true → AreClean (lines_of places.now) first count }
{
    let mut last = last;
    let mut done = 0;
    while done < count {
        let line = first + done as u64;
        let part = part_of(line, count - done);
        match seek(places, last, line) {
            Some(at) => {
                if !are_clean(places, at, line, part) {
                    return false;
                }
                last = at;
            }
            None => return false,
        }
        done += part;
    }
    true
}

/// Puts clean copies of the first so many of these lines in place of others, from this line on, and returns the place of the
/// last block.
fn put_all(places: &mut Blocks, last: usize, first: u64, lines: &[Line], count: usize) -> usize
    requires kept { IsKept places.old }
    requires within { first + count < 2 ^ 64 }
    requires few { count ≤ length lines.now }
    requires clean { AreClean (lines_of places.old) first count }
    ensures kept { IsKept places.new }
    ensures cache { lines_of places.new ≡ brought_run first lines.now count (lines_of places.old) }
    ensures room { places.new.room ≡ places.old.room }
{
    let mut last = last;
    let mut done = 0;
    while done < count {
        let line = first + done as u64;
        let part = part_of(line, count - done);
        match seek(places, last, line) {
            Some(at) => {
                set_run(places, at, line, &lines[done..done + part]);
                last = at;
            }
            None => unreachable!(),
        }
        done += part;
    }
    last
}

impl HostCache {
    /// Whether it holds copies of so many lines, from this one on, of which memory lacks no word. A row of these may be renewed.
    pub fn holds_clean(&self, first: LineNo, count: usize) -> bool
        requires within { first.0 + count < 2 ^ 64 }
        ensures { result ≡ true → AreClean self.now.lines first.0 count }
    {
        all_clean(&self.places, self.last, first.0, count)
    }

    /// Drops the first so many of these lines, from this line on, and brings them anew, as drops and loads of each of them do.
    /// Their words were read from memory. It holds clean copies of all of them, so it takes no room and can't fail.
    pub fn renew_row(&mut self, first: LineNo, lines: &[Line], count: usize)
        requires within { first.0 + count < 2 ^ 64 }
        requires few { count ≤ length lines.now }
        requires clean { AreClean self.old.lines first.0 count }
        ensures { self.new ≡ record self.old { lines = brought_run first.0 lines.now count self.old.lines } }
    {
        self.last = put_all(&mut self.places, self.last, first.0, lines, count);
    }

    /// Drops a line of which memory lacks no word: it asks nothing of the media.
    pub fn drop_clean(&mut self, line: LineNo)
        requires { ¬ (IsDirty (cell_at self.old.lines line.0)) }
        ensures { self.new ≡ record self.old { lines = with_cell line.0 Cell.Absent self.old.lines } }
    {
        let spot = seek(&self.places, self.last, line.0);
        drop_copy(&mut self.places, spot, line.0);
    }
}
