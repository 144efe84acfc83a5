//! Lines that stand one behind another, of which memory lacks no word, dropped and brought anew by one call of the media.

ghost use Rattle.std.specs.Prelude.{◌≡◌, ◌+◌, ◌/◌, ◌%◌, ◌<◌, ◌≤◌, IfErr, IfOk, IfSome, OnErr, None, length, false, true};
ghost use Rattle.fam_machine.specs.Caches.{with_cell};
ghost use Rattle.fam_machine.specs.declared.cell.Cell.{Cell};
ghost use Rattle.fam_media.specs.Causes.{IsSteady, Rose};
ghost use Rattle.fam_media.specs.Outside.{IfModelled};
ghost use Rattle.fam_media.specs.Runs.{AreRead};
ghost use Rattle.fam_cache.specs.Blocks.{IsBlockOf, IsKept, lines_of};
ghost use Rattle.fam_cache.specs.BroughtRuns.{LacksNone, brought_run};

use super::HostCache;
use crate::blocks::{Blocks, drop_copy, empty_block, lacks_none, make_room, seek, set_run};
use fam_base::{Line, LineNo};
use fam_media::{Media, RunFailed};

/// The place of the block of so many lines from this one on, of which none is dirty. A block that isn't there is added. None
/// where the lines aren't those of one block, where one is dirty, or where there is no room.
#[inline(always)]
fn place_of_run(places: &mut Blocks, last: usize, first: u64, count: usize) -> Option<usize>
    requires kept { IsKept places.old }
    ensures stands { IfSome result (λ at. IsBlockOf places.new.blocks.items at (first / 16)) }
    ensures within { IfSome result (λ at. first % 16 + count ≤ 16) }
    ensures none { IfSome result (λ at. LacksNone (lines_of places.new) first count) }
    ensures same { lines_of places.new ≡ lines_of places.old }
    ensures kept { IsKept places.new }
    ensures one { places.old.room ≤ places.new.room + 1 }
    ensures other { result ≡ None → places.new.room ≡ places.old.room }
{
    if count > 16 - (first % 16) as usize {
        return None;
    }
    match seek(places, last, first) {
        Some(at) if lacks_none(places, at, first, count) => Some(at),
        Some(_) => None,
        None => {
            let Ok(()) = make_room(places, None) else {
                return None;
            };
            Some(empty_block(places, first / 16))
        }
    }
}

/// Puts clean copies of the first so many of these lines into a block, from this line on.
fn put_lines(places: &mut Blocks, at: usize, first: u64, lines: &[Line], count: usize)
    requires kept { IsKept places.old }
    requires stands { IsBlockOf places.old.blocks.items at (first / 16) }
    requires within { first % 16 + count ≤ 16 }
    requires few { count ≤ length lines.now }
    ensures kept { IsKept places.new }
    ensures cache { lines_of places.new ≡ brought_run first lines.now count (lines_of places.old) }
    ensures stands { IsBlockOf places.new.blocks.items at (first / 16) }
    ensures room { places.new.room ≡ places.old.room }
{
    set_run(places, at, first, &lines[..count]);
}

impl HostCache {
    /// Drops lines that stand one behind another, of which memory lacks no word, and brings them anew by one call of the media,
    /// as drops and loads of each of them do, and gives their words; and says whether it did. It did nothing where one is dirty,
    /// where they aren't those of one block, or where there is no room for them.
    ///
    /// Where the media fails at a line, those before it are brought anew, the host doesn't hold it, and those behind it are as
    /// before.
    #[inline(always)]
    pub fn bring_run<M: Media>(
        &mut self,
        media: &mut M,
        first: LineNo,
        lines: &mut [Line],
    ) -> Result<bool, RunFailed>
        requires within { first.0 + length lines.old ≤ M.size media.old }

        ensures len { length lines.new ≡ length lines.old }
        ensures clean { IfOk result (λ done. done ≡ true → LacksNone self.old.lines first.0 (length lines.old)) }
        ensures words { IfOk result (λ done. done ≡ true → IfModelled (M.state media.old).image
            (λ image. AreRead image first.0 lines.new (length lines.old))) }
        ensures brought { IfOk result (λ done. done ≡ true
            → self.new.lines ≡ brought_run first.0 lines.new (length lines.old) self.old.lines) }
        ensures other { IfOk result (λ done. done ≡ false → self.new ≡ self.old) }
        ensures same { IfOk result (λ done. done ≡ false → media.new ≡ media.old) }

        ensures failed { OnErr result (Rose (M.state media.old).faults (M.state media.new).faults) }
        ensures before { IfErr result (λ failed. failed.done < length lines.old) }
        ensures failed_clean { OnErr result (LacksNone self.old.lines first.0 (length lines.old)) }
        ensures failed_words { IfErr result (λ failed. IfModelled (M.state media.old).image
            (λ image. AreRead image first.0 lines.new failed.done)) }
        ensures failed_lines { IfErr result (λ failed. self.new.lines
            ≡ with_cell (first.0 + failed.done) Cell.Absent (brought_run first.0 lines.new failed.done self.old.lines)) }

        ensures image { (M.state media.new).image ≡ (M.state media.old).image }
        ensures steady { IsSteady M.size M.state media.old media.new }
        ensures spare { self.old.spare ≤ self.new.spare + 1 }
    {
        let Some(at) = place_of_run(&mut self.places, self.last, first.0, lines.len()) else {
            return Ok(false);
        };
        self.last = at;
        match media.read_run(first, lines) {
            Ok(()) => {
                put_lines(&mut self.places, at, first.0, lines, lines.len());
                Ok(true)
            }
            Err(failed) => {
                put_lines(&mut self.places, at, first.0, lines, failed.done);
                drop_copy(&mut self.places, Some(at), first.0 + failed.done as u64);
                Err(failed)
            }
        }
    }
}
