//! A host's cache, as a task and the machine use it.
//!
//! Calls for a whole line or several stand beside those for one operation, so that a line is looked up once. Most
//! faults name no line, since their caller knows it. No count of dirty lines is kept, which every call would have to
//! keep right.

ghost use Rattle.std.specs.Prelude.{ℕ, ◌≡◌, ◌==◌, ◌+◌, ◌/◌, ◌<◌, ◌≤◌, IsOk, IfErr, IfOk, IfSome, OnOk, OnErr, IsErrOf, None, is_err, length, slice_index, true, false};
ghost use Rattle.std.specs.Option.{option_map};
ghost use Rattle.std.specs.FinMap as map;
ghost use Rattle.fam_base.specs.Image.{eight, line_at, with_line};
ghost use Rattle.fam_machine.specs.declared.cell.Cell.{Cell};
ghost use Rattle.fam_machine.specs.Caches.{asked_lines, cell_at, cell_changed, dirty_count, line_changed, with_cell};
ghost use Rattle.fam_machine.specs.OneLine.{IsAsked, IsDirty, IsHeld, asked_for, brought, failed_leak, failed_send, fetched, leaked, sent, stored, words_of};
ghost use Rattle.fam_machine.specs.declared.op.Op.{Op};
ghost use Rattle.fam_machine.specs.Cuts.{HasFailed, IsMachine};
ghost use Rattle.fam_machine.specs.Operations.{machine, operated};
ghost use Rattle.fam_media.specs.Causes.{HasCause, IsSteady, Rose};
ghost use Rattle.fam_media.specs.Outside.{IfModelled, IsTorn};
ghost use Rattle.fam_media.specs.Plans.{count_if};
ghost use Rattle.fam_media.specs.Runs.{IsRunTorn, line_in, run_written};
ghost use Rattle.fam_cache.specs.Effects.{FailsTo, FromMemory};
ghost use Rattle.fam_cache.specs.Faults.{is_failed};
ghost use Rattle.fam_cache.specs.Operations.{CleansSome, cleaned_lines, rest_stored};
ghost use Rattle.fam_cache.specs.Blocks.{AskedWithin, IsBlockOf, IsKept, IsSpot, lines_of};
ghost use Rattle.fam_cache.specs.Shed.{IsShed};

mod bringing;
mod dropping;
mod rows;

use crate::blocks::{
    Blocks, absent_lines, ask_copy, copy, dirty_lines_of, empty, has_room, held_at, held_line,
    held_word, lose_all, make_room, next_place, put_copy, reserve, seek, set_rest, set_word,
    word_at,
};
use crate::copies::fetch_copy;
use crate::fault::{CacheFault, FenceFailed};
use crate::renewal::{bring_block, renew_in_place};
use crate::sending::send_asked;
use dropping::{drop_line, leak_line};
use fam_base::{Line, LineNo, Mask, OutOfMemory};
use fam_machine::Cell;
use fam_media::{Failed, Media, RunFailed};
use std::alloc::Global;
use std::marker::Model;

/// A cache that has so many blocks is large: those of one area.
const MANY_BLOCKS: usize = 64;

/// Makes every line absent where none is dirty, and says whether none is. This looks at all blocks.
fn lose_clean(places: &mut Blocks) -> bool
    requires { IsKept places.old }
    ensures clean { result ≡ (dirty_count (lines_of places.old) == 0) }
    ensures kept { IsKept places.new }
    ensures lines { result ≡ true → lines_of places.new ≡ map.empty }
    ensures other { result ≡ false → places.new ≡ places.old }
    ensures room { places.new.room ≡ places.old.room }
{
    if dirty_lines_of(places) > 0 {
        return false;
    }
    lose_all(places);
    true
}

/// The place of an absent line, which is brought from memory. Room is taken first.
#[inline(always)]
fn bring_absent<M: Media>(
    places: &mut Blocks,
    spot: Option<usize>,
    media: &mut M,
    line: LineNo,
) -> Result<usize, CacheFault>
    requires kept { IsKept places.old }
    requires spot { IsSpot places.old.blocks.items spot (line.0 / 16) }
    requires absent { cell_at (lines_of places.old) line.0 ≡ Cell.Absent }
    requires within { line.0 < M.size media.old }

    ensures cache { OnOk result (FromMemory (M.state media.old).image line.0
        (λ memory. lines_of places.new ≡ cell_changed line.0 (brought memory) (lines_of places.old))) }
    ensures stands { IfOk result (λ at. IsBlockOf places.new.blocks.items at (line.0 / 16)) }
    ensures held { OnOk result (IsHeld (cell_at (lines_of places.new) line.0)) }
    ensures err { OnErr result (lines_of places.new ≡ lines_of places.old) }

    ensures failed { IsErrOf result CacheFault.Failed → Rose (M.state media.old).faults (M.state media.new).faults }
    ensures full { IsErrOf result CacheFault.OutOfMemory → places.old.room ≡ 0 }
    ensures undone { IsErrOf result CacheFault.OutOfMemory → media.new ≡ media.old }
    ensures unmoved { IsErrOf result CacheFault.OutOfMemory → places.new.room ≡ places.old.room }

    ensures image { (M.state media.new).image ≡ (M.state media.old).image }
    ensures steady { IsSteady M.size M.state media.old media.new }
    ensures counted { M.exact ≡ true → (M.state media.new).faults ≡ count_if (is_failed result) (M.state media.old).faults }
    ensures kept { IsKept places.new }
    ensures one { places.old.room ≤ places.new.room + 1 }
    ensures kept_room { OnErr result (places.new.room ≡ places.old.room) }
{
    let Ok(()) = make_room(places, spot) else {
        return Err(CacheFault::OutOfMemory);
    };
    match media.read(line) {
        Ok(words) => Ok(put_copy(places, spot, line.0, Cell::Clean(words))),
        Err(_) => Err(CacheFault::Failed),
    }
}

/// The place of a line, which is brought from memory where it is absent. Room is taken first.
fn bring<M: Media>(
    places: &mut Blocks,
    last: usize,
    media: &mut M,
    line: LineNo,
) -> Result<usize, CacheFault>
    requires kept { IsKept places.old }
    requires within { line.0 < M.size media.old }

    ensures cache { OnOk result (FromMemory (M.state media.old).image line.0
        (λ memory. lines_of places.new ≡ cell_changed line.0 (brought memory) (lines_of places.old))) }
    ensures stands { IfOk result (λ at. IsBlockOf places.new.blocks.items at (line.0 / 16)) }
    ensures held { OnOk result (IsHeld (cell_at (lines_of places.new) line.0)) }
    ensures err { OnErr result (lines_of places.new ≡ lines_of places.old) }

    ensures idle { IsHeld (cell_at (lines_of places.old) line.0) → IsOk result }
    ensures same { IsHeld (cell_at (lines_of places.old) line.0) → media.new ≡ media.old }
    ensures failed { IsErrOf result CacheFault.Failed → Rose (M.state media.old).faults (M.state media.new).faults }
    ensures full { IsErrOf result CacheFault.OutOfMemory → places.old.room ≡ 0 }
    ensures undone { IsErrOf result CacheFault.OutOfMemory → media.new ≡ media.old }
    ensures unmoved { IsErrOf result CacheFault.OutOfMemory → places.new.room ≡ places.old.room }

    ensures image { (M.state media.new).image ≡ (M.state media.old).image }
    ensures steady { IsSteady M.size M.state media.old media.new }
    ensures counted { M.exact ≡ true → (M.state media.new).faults ≡ count_if (is_failed result) (M.state media.old).faults }
    ensures kept { IsKept places.new }
    ensures one { places.old.room ≤ places.new.room + 1 }
    ensures none { IsHeld (cell_at (lines_of places.old) line.0) → places.new.room ≡ places.old.room }
    ensures kept_room { OnErr result (places.new.room ≡ places.old.room) }
{
    let spot = seek(places, last, line.0);
    match held_at(places, spot, line.0) {
        Some(at) => Ok(at),
        None => bring_absent(places, spot, media, line),
    }
}

/// The place of a line after an early fetch. Room is taken first.
fn refresh<M: Media>(
    places: &mut Blocks,
    last: usize,
    media: &mut M,
    line: LineNo,
    mask: Mask,
) -> Result<usize, CacheFault>
    requires kept { IsKept places.old }
    requires within { line.0 < M.size media.old }

    ensures cache { OnOk result (FromMemory (M.state media.old).image line.0
        (λ memory. lines_of places.new ≡ cell_changed line.0 (fetched mask.0 memory) (lines_of places.old))) }
    ensures err { OnErr result (lines_of places.new ≡ lines_of places.old) }

    ensures idle { IsDirty (cell_at (lines_of places.old) line.0) → IsOk result }
    ensures same { IsDirty (cell_at (lines_of places.old) line.0) → media.new ≡ media.old }
    ensures failed { IsErrOf result CacheFault.Failed → Rose (M.state media.old).faults (M.state media.new).faults }
    ensures full { IsErrOf result CacheFault.OutOfMemory → places.old.room ≡ 0 }
    ensures absent { IsErrOf result CacheFault.OutOfMemory →
        ¬ (IsHeld (cell_at (lines_of places.old) line.0)) }
    ensures undone { IsErrOf result CacheFault.OutOfMemory → media.new ≡ media.old }
    ensures unmoved { IsErrOf result CacheFault.OutOfMemory → places.new.room ≡ places.old.room }

    ensures image { (M.state media.new).image ≡ (M.state media.old).image }
    ensures steady { IsSteady M.size M.state media.old media.new }
    ensures counted { M.exact ≡ true → (M.state media.new).faults ≡ count_if (is_failed result) (M.state media.old).faults }
    ensures kept { IsKept places.new }
    ensures one { places.old.room ≤ places.new.room + 1 }
    ensures none { IsHeld (cell_at (lines_of places.old) line.0) → places.new.room ≡ places.old.room }
    ensures kept_room { OnErr result (places.new.room ≡ places.old.room) }
{
    let spot = seek(places, last, line.0);
    let Ok(()) = make_room(places, spot) else {
        return Err(CacheFault::OutOfMemory);
    };
    let held = copy(places, spot, line.0);
    match fetch_copy(held, media, line, mask) {
        Ok(fetched) => Ok(put_copy(places, spot, line.0, fetched)),
        Err(_) => Err(CacheFault::Failed),
    }
}

/// A host's cache: copies of lines, in blocks.
#[derive(Drop)]
pub struct HostCache {
    places: Blocks,
    /// The place of the block of the last access, or any number: the next line is looked for there first.
    last: usize,
    /// No line before this one is asked for, and none behind the other one.
    first_asked: u64,
    last_asked: u64,
}

impl Model for HostCache {
    ghost use Rattle.fam_cache.specs.Blocks.{AskedWithin, IsKept, lines_of};
    ghost use Rattle.fam_cache.specs.States.{CacheState, state_code};

    ghost Value = { CacheState };

    ghost coded = { state_code };

    ghost view = { λ c. record { lines = lines_of c.places; spare = c.places.room } };

    ghost invariant = { λ c. (IsKept c.places) × (AskedWithin c.first_asked c.last_asked (lines_of c.places)) };
}

impl HostCache {
    /// A cache that holds no line.
    pub fn new(alloc: Global) -> HostCache
        ensures lines { result.lines ≡ map.empty }
    {
        HostCache {
            places: empty(alloc),
            last: 0,
            first_asked: u64::MAX,
            last_asked: 0,
        }
    }

    /// Makes room for that many lines more.
    pub fn reserve(&mut self, lines: u64) -> Result<(), OutOfMemory>
        ensures spare { OnOk result (lines ≤ self.new.spare) }
        ensures full { OnErr result (self.old.spare < lines) }
        ensures err { OnErr result (self.new ≡ self.old) }
        ensures lines { self.new.lines ≡ self.old.lines }
        ensures kept { self.old.spare ≤ self.new.spare }
    {
        reserve(&mut self.places, lines as usize)
    }

    /// Makes every line absent. Words that memory lacks are lost.
    pub fn lose(&mut self)
        ensures lines { self.new.lines ≡ map.empty }
        ensures spare { self.old.spare ≤ self.new.spare }
    {
        lose_all(&mut self.places);
    }

    /// Whether it may hold so many lines that their memory is worth using again. No contract hangs on it.
    #[inline]
    pub fn is_large(&self) -> bool {
        next_place(&self.places) >= MANY_BLOCKS
    }

    /// Makes every line absent where none is dirty, and says whether none is: memory lacks none of their words. The cache
    /// keeps what they took for other lines. This looks at each place, so it is no call for every step.
    pub fn forget(&mut self) -> bool
        ensures clean { result ≡ (dirty_count self.old.lines == 0) }
        ensures lines { result ≡ true → self.new.lines ≡ map.empty }
        ensures other { result ≡ false → self.new ≡ self.old }

        // What a host reads through the cache from there on it may have read through the one before.
        ensures shed { IsShed self.new.lines self.old.lines }
        ensures spare { self.old.spare ≤ self.new.spare }
    {
        lose_clean(&mut self.places)
    }

    /// Gives a word of a line. An absent line is brought from memory.
    #[inline]
    pub fn load<M: Media>(
        &mut self,
        media: &mut M,
        line: LineNo,
        word: u8,
    ) -> Result<u64, CacheFault>
        requires within { line.0 < M.size media.old }
        requires word { word < 8 }

        // The word is that of the copy that the host now has.
        ensures value { IfOk result
            (λ value. value ≡ slice_index (words_of (cell_at self.new.lines line.0)) word) }
        ensures cache { OnOk result (FromMemory (M.state media.old).image line.0
            (λ memory. self.new.lines ≡ cell_changed line.0 (brought memory) self.old.lines)) }
        ensures err { OnErr result (self.new.lines ≡ self.old.lines) }

        // A line that is held asks nothing of memory.
        ensures ok { IsHeld (cell_at self.old.lines line.0) → IsOk result }
        ensures same { IsHeld (cell_at self.old.lines line.0) → media.new ≡ media.old }

        // Room is taken first, so where it is missing nothing was done.
        ensures failed { IsErrOf result CacheFault.Failed → Rose (M.state media.old).faults (M.state media.new).faults }
        ensures room { IsErrOf result CacheFault.OutOfMemory → self.old.spare ≡ 0 }
        ensures undone { IsErrOf result CacheFault.OutOfMemory → media.new ≡ media.old }
        ensures unchanged { IsErrOf result CacheFault.OutOfMemory → self.new ≡ self.old }

        ensures image { (M.state media.new).image ≡ (M.state media.old).image }
        ensures steady { IsSteady M.size M.state media.old media.new }
        ensures counted { M.exact ≡ true → (M.state media.new).faults ≡ count_if (is_failed result) (M.state media.old).faults }

        // Only a line that was brought takes a place.
        ensures spare { self.old.spare ≤ self.new.spare + 1 }
        ensures held_spare { IsHeld (cell_at self.old.lines line.0) → self.old.spare ≤ self.new.spare }
        ensures err_spare { OnErr result (self.old.spare ≤ self.new.spare) }
    {
        if let Some(value) = held_word(&self.places, self.last, line.0, word) {
            return Ok(value);
        }
        match bring(&mut self.places, self.last, media, line) {
            Ok(at) => {
                self.last = at;
                Ok(word_at(&self.places, at, line.0, word))
            }
            Err(fault) => Err(fault),
        }
    }

    /// Sets a word of a line, which is dirty then. An absent line is brought from memory first.
    pub fn store<M: Media>(
        &mut self,
        media: &mut M,
        line: LineNo,
        word: u8,
        value: u64,
    ) -> Result<(), CacheFault>
        requires within { line.0 < M.size media.old }
        requires word { word < 8 }

        ensures cache { OnOk result (FromMemory (M.state media.old).image line.0
            (λ memory. self.new.lines ≡ cell_changed line.0 (stored word value memory) self.old.lines)) }
        ensures err { OnErr result (self.new.lines ≡ self.old.lines) }

        // A line that is held asks nothing of memory.
        ensures ok { IsHeld (cell_at self.old.lines line.0) → IsOk result }
        ensures same { IsHeld (cell_at self.old.lines line.0) → media.new ≡ media.old }

        // Room is taken first, so where it is missing nothing was done.
        ensures failed { IsErrOf result CacheFault.Failed → Rose (M.state media.old).faults (M.state media.new).faults }
        ensures room { IsErrOf result CacheFault.OutOfMemory → self.old.spare ≡ 0 }
        ensures undone { IsErrOf result CacheFault.OutOfMemory → media.new ≡ media.old }
        ensures unchanged { IsErrOf result CacheFault.OutOfMemory → self.new ≡ self.old }

        ensures image { (M.state media.new).image ≡ (M.state media.old).image }
        ensures steady { IsSteady M.size M.state media.old media.new }
        ensures counted { M.exact ≡ true → (M.state media.new).faults ≡ count_if (is_failed result) (M.state media.old).faults }

        // Only a line that was brought takes a place.
        ensures spare { self.old.spare ≤ self.new.spare + 1 }
        ensures held_spare { IsHeld (cell_at self.old.lines line.0) → self.old.spare ≤ self.new.spare }
        ensures err_spare { OnErr result (self.old.spare ≤ self.new.spare) }
    {
        match bring(&mut self.places, self.last, media, line) {
            Ok(at) => {
                self.last = at;
                set_word(&mut self.places, at, line.0, word, value);
                Ok(())
            }
            Err(fault) => Err(fault),
        }
    }

    /// The words of a line, where it is held and lies in the block of the last access. It asks nothing of memory.
    #[inline]
    pub fn held(&self, line: LineNo) -> Option<Line>
        ensures held { IfSome result (λ words. IsHeld (cell_at self.now.lines line.0)) }
        ensures value { IfSome result (λ words. words ≡ words_of (cell_at self.now.lines line.0)) }
    {
        held_line(&self.places, self.last, line.0)
    }

    /// Sets the words behind the first one of a line, where it is held and lies in the block of the last access: the line
    /// is dirty then. It asks nothing of memory. Of another line nothing is done, and the answer is that.
    #[inline]
    pub fn store_rest(&mut self, line: LineNo, words: &Line) -> bool
        ensures held { result ≡ true → IsHeld (cell_at self.old.lines line.0) }
        ensures whole { result ≡ true → length (words_of (cell_at self.old.lines line.0)) ≡ 8 }
        ensures stored { result ≡ true → self.new.lines ≡ with_cell line.0
            (Cell.Dirty false (rest_stored words.now (words_of (cell_at self.old.lines line.0)))) self.old.lines }
        ensures other { result ≡ false → self.new ≡ self.old }
        ensures spare { self.new.spare ≡ self.old.spare }
    {
        match held_line(&self.places, self.last, line.0) {
            Some(old) => {
                set_rest(&mut self.places, self.last, line.0, &old, words);
                true
            }
            None => false,
        }
    }

    /// Makes a line absent and brings it anew from memory, where memory lacks no word of it, and gives its words: the copy
    /// is clean. Of a dirty line nothing is done, and the answer is None.
    ///
    /// Room is taken first, so where it is missing nothing was done. Where the read fails the line is absent.
    #[inline(always)]
    pub fn renew_line<M: Media>(
        &mut self,
        media: &mut M,
        line: LineNo,
    ) -> Result<Option<Line>, CacheFault>
        requires within { line.0 < M.size media.old }

        ensures clean { IfOk result (λ renewed. IfSome renewed (λ words.
            ¬ (IsDirty (cell_at self.old.lines line.0)))) }
        ensures words { IfOk result (λ renewed. IfSome renewed (λ words.
            IfModelled (M.state media.old).image (λ image. eight words ≡ line_at image line.0))) }
        ensures cache { IfOk result (λ renewed. IfSome renewed (λ words.
            self.new.lines ≡ with_cell line.0 (Cell.Clean (eight words)) self.old.lines)) }
        ensures other { IfOk result (λ renewed. renewed ≡ None → self.new ≡ self.old) }
        ensures same { IfOk result (λ renewed. renewed ≡ None → media.new ≡ media.old) }
        ensures dirty { IfOk result (λ renewed. renewed ≡ None → IsDirty (cell_at self.old.lines line.0)) }

        ensures failed { IsErrOf result CacheFault.Failed → Rose (M.state media.old).faults (M.state media.new).faults }
        ensures failed_clean { IsErrOf result CacheFault.Failed → ¬ (IsDirty (cell_at self.old.lines line.0)) }
        ensures failed_lines { IsErrOf result CacheFault.Failed →
            self.new.lines ≡ with_cell line.0 Cell.Absent self.old.lines }
        ensures room { IsErrOf result CacheFault.OutOfMemory → self.old.spare ≡ 0 }
        ensures room_absent { IsErrOf result CacheFault.OutOfMemory →
            ¬ (IsHeld (cell_at self.old.lines line.0)) }
        ensures undone { IsErrOf result CacheFault.OutOfMemory → media.new ≡ media.old }
        ensures unchanged { IsErrOf result CacheFault.OutOfMemory → self.new ≡ self.old }

        ensures image { (M.state media.new).image ≡ (M.state media.old).image }
        ensures steady { IsSteady M.size M.state media.old media.new }
        ensures spare { self.old.spare ≤ self.new.spare + 1 }
        ensures err_spare { OnErr result (self.old.spare ≤ self.new.spare) }
    {
        match seek(&self.places, self.last, line.0) {
            Some(at) => {
                self.last = at;
                match renew_in_place(&mut self.places, at, media, line) {
                    Ok(words) => Ok(words),
                    Err(_) => Err(CacheFault::Failed),
                }
            }
            None => {
                self.last = next_place(&self.places);
                match bring_block(&mut self.places, media, line) {
                    Ok(words) => Ok(Some(words)),
                    Err(fault) => Err(fault),
                }
            }
        }
    }

    /// Writes all words of a line to memory, where the host holds no copy of it, and the host holds none then: what
    /// stores of its eight words and its invalidation do. Of a line that is held nothing is done, and the answer is that.
    ///
    /// Room for a copy is taken first, so where it is missing nothing was done. A write that fails leaves each word of
    /// this line old or new, and the host has a dirty copy.
    #[inline]
    pub fn put_line<M: Media>(
        &mut self,
        media: &mut M,
        line: LineNo,
        words: &Line,
    ) -> Result<bool, CacheFault>
        requires within { line.0 < M.size media.old }

        ensures absent { IfOk result (λ put. put ≡ true → cell_at self.old.lines line.0 ≡ Cell.Absent) }
        ensures lines { OnOk result (self.new.lines ≡ self.old.lines) }
        ensures memory { IfOk result (λ put. put ≡ true →
            (M.state media.new).image ≡ option_map (with_line line.0 words.now) (M.state media.old).image) }
        ensures other { IfOk result (λ put. put ≡ false → self.new ≡ self.old) }
        ensures same { IfOk result (λ put. put ≡ false → media.new ≡ media.old) }
        ensures held { IfOk result (λ put. put ≡ false → IsHeld (cell_at self.old.lines line.0)) }

        // No place is taken.
        ensures ok_spare { OnOk result (self.old.spare ≤ self.new.spare) }

        ensures failed { IsErrOf result CacheFault.Failed → Rose (M.state media.old).faults (M.state media.new).faults }
        ensures failed_absent { IsErrOf result CacheFault.Failed → cell_at self.old.lines line.0 ≡ Cell.Absent }
        ensures failed_lines { IsErrOf result CacheFault.Failed →
            self.new.lines ≡ with_cell line.0 (Cell.Dirty false (eight words.now)) self.old.lines }
        ensures torn { IsErrOf result CacheFault.Failed →
            IsTorn (M.state media.old).image (M.state media.new).image line.0 words.now }

        ensures room { IsErrOf result CacheFault.OutOfMemory → self.old.spare ≡ 0 }
        ensures room_absent { IsErrOf result CacheFault.OutOfMemory →
            ¬ (IsHeld (cell_at self.old.lines line.0)) }
        ensures undone { IsErrOf result CacheFault.OutOfMemory → media.new ≡ media.old }
        ensures unchanged { IsErrOf result CacheFault.OutOfMemory → self.new ≡ self.old }

        ensures steady { IsSteady M.size M.state media.old media.new }
        ensures spare { self.old.spare ≤ self.new.spare + 1 }
    {
        let spot = seek(&self.places, self.last, line.0);
        let None = held_at(&self.places, spot, line.0) else {
            return Ok(false);
        };
        let Ok(()) = make_room(&mut self.places, spot) else {
            return Err(CacheFault::OutOfMemory);
        };
        match media.write(line, words) {
            Ok(()) => {
                self.last = spot.unwrap_or(self.last);
                Ok(true)
            }
            Err(_) => {
                self.last = put_copy(
                    &mut self.places,
                    spot,
                    line.0,
                    Cell::Dirty {
                        asked: false,
                        words: *words,
                    },
                );
                Err(CacheFault::Failed)
            }
        }
    }

    /// Whether one more line fits with no allocation.
    #[inline]
    pub fn has_room(&self) -> bool
        ensures { result ≡ true → 1 ≤ self.now.spare }
    {
        has_room(&self.places)
    }

    /// How many lines from this one on, but no more than `most`, the host is known to hold no copy of, by one look-up.
    #[inline]
    pub fn absent_run(&self, first: LineNo, most: u64) -> u64
        ensures most { result ≤ most }
        ensures absent { (k : ℕ) → k < result → cell_at self.now.lines (first.0 + k) ≡ Cell.Absent }
    {
        absent_lines(&self.places, self.last, first.0, most)
    }

    /// Writes all words of lines that stand one behind another, of which the host holds no copy, and it holds none then: what
    /// stores of their words and their invalidations do, line by line, by one call of the media.
    ///
    /// Where the media fails at a line, those before it are sent, each word of this line is old or new, and the host has a
    /// dirty copy of it; those behind it are as before.
    #[inline]
    pub fn put_run<M: Media>(
        &mut self,
        media: &mut M,
        first: LineNo,
        lines: &[Line],
    ) -> Result<(), RunFailed>
        requires within { first.0 + length lines.now ≤ M.size media.old }
        requires room { 1 ≤ self.old.spare }

        ensures lines { OnOk result (self.new.lines ≡ self.old.lines) }
        ensures memory { OnOk result ((M.state media.new).image
            ≡ run_written first.0 lines.now (length lines.now) (M.state media.old).image) }

        ensures failed { OnErr result (Rose (M.state media.old).faults (M.state media.new).faults) }
        ensures before { IfErr result (λ failed. failed.done < length lines.now) }
        ensures failed_lines { IfErr result (λ failed. self.new.lines ≡ with_cell (first.0 + failed.done)
            (Cell.Dirty false (eight (line_in lines.now failed.done))) self.old.lines) }
        ensures torn { IfErr result (λ failed.
            IsRunTorn (M.state media.old).image (M.state media.new).image first.0 lines.now failed.done) }

        ensures steady { IsSteady M.size M.state media.old media.new }

        // No place is taken, but where the media fails.
        ensures ok_spare { OnOk result (self.old.spare ≤ self.new.spare) }
        ensures spare { self.old.spare ≤ self.new.spare + 1 }
    {
        // How many lines there are at most.
        let _ = media.lines();
        match media.write_run(first, lines) {
            Ok(()) => Ok(()),
            Err(failed) => {
                let line = first.0 + failed.done as u64;
                let spot = seek(&self.places, self.last, line);
                let copy = Cell::Dirty {
                    asked: false,
                    words: lines[failed.done],
                };
                self.last = put_copy(&mut self.places, spot, line, copy);
                Err(failed)
            }
        }
    }

    /// Fetches a line early, as the machine may: an absent line is brought whole, and a clean one has its
    /// masked words refreshed from memory.
    pub fn fetch<M: Media>(
        &mut self,
        media: &mut M,
        line: LineNo,
        mask: Mask,
    ) -> Result<(), CacheFault>
        requires within { line.0 < M.size media.old }

        ensures cache { OnOk result (FromMemory (M.state media.old).image line.0
            (λ memory. self.new.lines ≡ cell_changed line.0 (fetched mask.0 memory) self.old.lines)) }
        ensures err { OnErr result (self.new.lines ≡ self.old.lines) }

        // A dirty line stays, and asks nothing of memory.
        ensures ok { IsDirty (cell_at self.old.lines line.0) → IsOk result }
        ensures same { IsDirty (cell_at self.old.lines line.0) → media.new ≡ media.old }

        // Room is taken first, so where it is missing nothing was done.
        ensures failed { IsErrOf result CacheFault.Failed → Rose (M.state media.old).faults (M.state media.new).faults }
        ensures room { IsErrOf result CacheFault.OutOfMemory → self.old.spare ≡ 0 }
        ensures absent { IsErrOf result CacheFault.OutOfMemory →
            ¬ (IsHeld (cell_at self.old.lines line.0)) }
        ensures undone { IsErrOf result CacheFault.OutOfMemory → media.new ≡ media.old }
        ensures unchanged { IsErrOf result CacheFault.OutOfMemory → self.new ≡ self.old }

        ensures image { (M.state media.new).image ≡ (M.state media.old).image }
        ensures steady { IsSteady M.size M.state media.old media.new }
        ensures counted { M.exact ≡ true → (M.state media.new).faults ≡ count_if (is_failed result) (M.state media.old).faults }

        // Only a line that was brought takes a place.
        ensures spare { self.old.spare ≤ self.new.spare + 1 }
        ensures held_spare { IsHeld (cell_at self.old.lines line.0) → self.old.spare ≤ self.new.spare }
        ensures err_spare { OnErr result (self.old.spare ≤ self.new.spare) }
    {
        match refresh(&mut self.places, self.last, media, line, mask) {
            Ok(at) => {
                self.last = at;
                Ok(())
            }
            Err(fault) => Err(fault),
        }
    }

    /// Asks for a dirty line to be sent, and touches no memory.
    pub fn write_back(&mut self, line: LineNo)
        ensures cache { self.new.lines ≡ cell_changed line.0 asked_for self.old.lines }
        ensures spare { self.old.spare ≤ self.new.spare }
    {
        let spot = seek(&self.places, self.last, line.0);
        ask_copy(&mut self.places, spot, line.0);
        self.last = spot.unwrap_or(self.last);
        self.first_asked = self.first_asked.min(line.0);
        self.last_asked = self.last_asked.max(line.0);
    }

    /// Sends each line that was asked for whole to memory, in the order of their numbers, and makes it clean.
    ///
    /// A send that fails leaves each word of its line old or new. The lines before it were sent, and the host keeps its
    /// copies of it and of those behind it, which are still asked for.
    pub fn fence<M: Media>(&mut self, media: &mut M) -> Result<(), FenceFailed>
        requires within { (line : ℕ) → IsAsked (cell_at self.old.lines line) → line < M.size media.old }

        // Where the image is modelled, it and the cache are those of the machine.
        ensures operated { OnOk result (IfModelled (M.state media.old).image (λ image. IsMachine
            (operated Op.Fence (machine image self.old.lines)) (M.state media.new).image self.new.lines)) }
        ensures failed { IfErr result (λ fault. IfModelled (M.state media.old).image (λ image. HasFailed Op.Fence
            (machine image self.old.lines) fault.0 (M.state media.new).image self.new.lines)) }

        ensures cache { OnOk result (self.new.lines ≡ cleaned_lines (asked_lines self.old.lines) self.old.lines) }
        ensures err { OnErr result (CleansSome self.old.lines self.new.lines) }
        ensures line { IfErr result (λ fault. IsAsked (cell_at self.old.lines fault.0.0)) }

        // Where no line was asked for, it asks nothing of memory.
        ensures ok { ((line : ℕ) → ¬ (IsAsked (cell_at self.old.lines line))) → IsOk result }
        ensures same { ((line : ℕ) → ¬ (IsAsked (cell_at self.old.lines line))) → media.new ≡ media.old }

        ensures cause { HasCause (M.state media.old).faults (M.state media.new).faults result }
        ensures counted { M.exact ≡ true → (M.state media.new).faults ≡ count_if (is_err result) (M.state media.old).faults }
        ensures size { M.size media.new ≡ M.size media.old }
        ensures spare { self.new.spare ≡ self.old.spare }
    {
        match send_asked(&mut self.places, media, self.first_asked, self.last_asked) {
            Ok(()) => {
                self.first_asked = u64::MAX;
                self.last_asked = 0;
                Ok(())
            }
            Err(fault) => Err(fault),
        }
    }

    /// Sends a dirty line whole to memory, and makes the line absent: no copy from before is read again.
    pub fn invalidate<M: Media>(&mut self, media: &mut M, line: LineNo) -> Result<(), Failed>
        requires within { line.0 < M.size media.old }

        ensures cache { OnOk result (self.new.lines ≡ with_cell line.0 Cell.Absent self.old.lines) }
        ensures memory { OnOk result ((M.state media.new).image ≡ option_map
            (line_changed line.0 (λ memory. sent memory (cell_at self.old.lines line.0)))
            (M.state media.old).image) }

        // A send that fails leaves each word of this line old or new, and the host keeps its copy.
        ensures err { OnErr result (self.new.lines ≡ self.old.lines) }
        ensures torn { OnErr result (IfModelled (M.state media.old).image (λ image. FailsTo line.0
            (λ through memory. failed_send through memory (cell_at self.old.lines line.0))
            image (M.state media.new).image)) }

        // Only a dirty line is sent.
        ensures ok { ¬ (IsDirty (cell_at self.old.lines line.0)) → IsOk result }
        ensures same { ¬ (IsDirty (cell_at self.old.lines line.0)) → media.new ≡ media.old }

        ensures cause { HasCause (M.state media.old).faults (M.state media.new).faults result }
        ensures counted { M.exact ≡ true → (M.state media.new).faults ≡ count_if (is_err result) (M.state media.old).faults }
        ensures size { M.size media.new ≡ M.size media.old }
        ensures spare { self.old.spare ≤ self.new.spare }
    {
        self.last = drop_line(&mut self.places, self.last, media, line)?;
        Ok(())
    }

    /// Drops a line, as the machine may: a dirty one is sent whole to memory first.
    pub fn evict<M: Media>(&mut self, media: &mut M, line: LineNo) -> Result<(), Failed>
        requires within { line.0 < M.size media.old }

        ensures cache { OnOk result (self.new.lines ≡ with_cell line.0 Cell.Absent self.old.lines) }
        ensures memory { OnOk result ((M.state media.new).image ≡ option_map
            (line_changed line.0 (λ memory. sent memory (cell_at self.old.lines line.0)))
            (M.state media.old).image) }

        // A send that fails leaves each word of this line old or new, and the host keeps its copy.
        ensures err { OnErr result (self.new.lines ≡ self.old.lines) }
        ensures torn { OnErr result (IfModelled (M.state media.old).image (λ image. FailsTo line.0
            (λ through memory. failed_send through memory (cell_at self.old.lines line.0))
            image (M.state media.new).image)) }

        // Only a dirty line is sent.
        ensures ok { ¬ (IsDirty (cell_at self.old.lines line.0)) → IsOk result }
        ensures same { ¬ (IsDirty (cell_at self.old.lines line.0)) → media.new ≡ media.old }

        ensures cause { HasCause (M.state media.old).faults (M.state media.new).faults result }
        ensures counted { M.exact ≡ true → (M.state media.new).faults ≡ count_if (is_err result) (M.state media.old).faults }
        ensures size { M.size media.new ≡ M.size media.old }
        ensures spare { self.old.spare ≤ self.new.spare }
    {
        self.invalidate(media, line)
    }

    /// Sends the masked words of a dirty line to memory, as the machine may. The line stays dirty.
    pub fn leak<M: Media>(&mut self, media: &mut M, line: LineNo, mask: Mask) -> Result<(), Failed>
        requires within { line.0 < M.size media.old }

        ensures cache { self.new ≡ self.old }
        ensures memory { OnOk result ((M.state media.new).image ≡ option_map
            (line_changed line.0 (λ memory. leaked mask.0 memory (cell_at self.old.lines line.0)))
            (M.state media.old).image) }

        // A send that fails leaves each of the masked words old or new, and every other word as it was.
        ensures torn { OnErr result (IfModelled (M.state media.old).image (λ image. FailsTo line.0
            (λ through memory. failed_leak mask.0 through memory (cell_at self.old.lines line.0))
            image (M.state media.new).image)) }

        // Only a dirty line is sent.
        ensures ok { ¬ (IsDirty (cell_at self.old.lines line.0)) → IsOk result }
        ensures same { ¬ (IsDirty (cell_at self.old.lines line.0)) → media.new ≡ media.old }

        ensures cause { HasCause (M.state media.old).faults (M.state media.new).faults result }
        ensures counted { M.exact ≡ true → (M.state media.new).faults ≡ count_if (is_err result) (M.state media.old).faults }
        ensures size { M.size media.new ≡ M.size media.old }
    {
        self.last = leak_line(&self.places, self.last, media, line, mask)?;
        Ok(())
    }

    /// How many lines memory lacks words of. This looks at each place, so it is no call for every step.
    pub fn dirty_lines(&self) -> u64
        ensures { result ≡ dirty_count self.now.lines }
    {
        dirty_lines_of(&self.places)
    }
}
