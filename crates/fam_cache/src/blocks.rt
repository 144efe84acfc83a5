//! The lines of a cache, in blocks of sixteen neighbouring ones, each line with a mark and its words.
//!
//! Blocks stand in the order in which they were first needed, and stay until all is lost: a line that is brought again
//! finds its block, moves nothing and takes no room. A block takes 1,048 bytes, also for one line. An area has the
//! places of sixty-four neighbouring blocks, and areas stand in the order of their numbers: a new area moves those
//! behind it, once for 1,024 lines, where a place for each line would have each line of a file over several extents
//! move those behind it. What an area says of a block that isn't there is any place, and the number of the block that
//! stands in that place tells.

ghost use Rattle.std.specs.Prelude.{◌≡◌, ◌==◌, ◌≢◌, ℕ, ◌+◌, ◌*◌, ◌/◌, ◌%◌, ◌-◌, ◌<◌, ◌≤◌, IsTrue, ◌↔◌, IfSome, None, OnOk, OnErr, List, length, count_by, slice_index, slice_set, vec_len, vec_capacity, true, false};
ghost use Rattle.std.specs.Ordering.{nat_cmp};
ghost use Rattle.std.specs.FinMap as map;
ghost use Rattle.std.specs.FinMap.{is_sorted};
ghost use Rattle.fam_base.specs.Image.{eight};
ghost use Rattle.fam_machine.specs.Caches.{cell_at, dirty_count, with_cell};
ghost use Rattle.fam_machine.specs.OneLine.{IsAsked, IsHeld, asked_for, cleaned, is_asked, is_dirty, is_held, words_of};
ghost use Rattle.fam_machine.specs.declared.cell.Cell.{Cell};
ghost use Rattle.fam_cache.specs.Blocks.{Before, HasNone, IsBlockOf, IsKept, IsSpot, area_at, cell_in, is_gap, lines_of, marked, normal, number_at, words_there, HasRoom, is_dirty_by, IsEnlisted, IsFirstAsked, NoneAsked};
ghost use Rattle.fam_cache.specs.Operations.{rest_stored};

mod asked;
mod runs;

pub(crate) use asked::asked_run;
use fam_base::{Line, OutOfMemory};
use fam_machine::Cell;
pub(crate) use runs::{are_clean, empty_block, lacks_none, set_run};
use std::alloc::Global;

/// So many blocks at most, so that all their lines can be counted: more than any memory has.
const MOST_BLOCKS: usize = 576_460_752_303_423_488;

/// What the host has of a line.
#[derive(Clone, Copy)]
pub enum Mark {
    /// No copy.
    Empty,
    /// Words that were brought from memory or sent to it.
    Fresh,
    /// Words that the host stored into since then.
    Stored,
    /// Words that the host stored into, and has asked to be sent since its last store.
    Asked,
}

/// Sixteen neighbouring lines.
#[derive(Clone, Copy)]
pub struct Block {
    /// The number of its first line, by sixteen.
    number: u64,
    marks: [Mark; 16],
    words: [Line; 16],
}

/// The lines that a cache holds.
#[derive(Drop)]
pub struct Blocks {
    blocks: Vec<Block>,
    /// Areas by their numbers, each with the places of its blocks.
    areas: Vec<(u64, [usize; 64])>,
    /// So many more lines fit with no allocation, if not more of them.
    room: usize,
    /// No block has a number above this one, so that a line behind all others is looked for nowhere.
    greatest: u64,
}

/// Blocks that hold no line.
pub(crate) fn empty(alloc: Global) -> Blocks
    ensures kept { IsKept result }
    ensures lines { lines_of result ≡ map.empty }
{
    Blocks {
        blocks: Vec::new(alloc),
        areas: Vec::new(alloc),
        room: 0,
        greatest: 0,
    }
}

/// Makes every line absent.
pub(crate) fn lose_all(cache: &mut Blocks)
    requires { IsKept cache.old }
    ensures kept { IsKept cache.new }
    ensures lines { lines_of cache.new ≡ map.empty }
    ensures room { cache.new.room ≡ cache.old.room }
{
    cache.blocks.clear();
    cache.areas.clear();
}

/// The place that the next block would stand in.
#[inline(always)]
pub(crate) fn next_place(cache: &Blocks) -> usize {
    cache.blocks.len()
}

/// How many areas at least come before this number: all, all but the last, or any number of them. Most look-ups are at the end.
#[inline(always)]
fn passed(areas: &[(u64, [usize; 64])], number: u64) -> usize
    requires { IsTrue (is_sorted nat_cmp areas.now) }
    ensures within { result ≤ length areas.now }
    ensures before { Before areas.now result number }
{
    let count = areas.len();
    if count < 2 {
        return 0;
    }
    if areas[count - 1].0 < number {
        return count;
    }
    if areas[count - 2].0 < number {
        return count - 1;
    }
    0
}

/// The first area whose number isn't below this one, by bisection.
fn bisect(areas: &[(u64, [usize; 64])], number: u64) -> usize
    requires { IsTrue (is_sorted nat_cmp areas.now) }
    ensures within { result ≤ length areas.now }
    ensures before { Before areas.now result number }
    ensures from { (j : ℕ) → result ≤ j → j < length areas.now → number ≤ area_at areas.now j }
{
    let mut low = passed(areas, number);
    let mut high = areas.len();
    while low < high {
        let mid = low + (high - low) / 2;
        if areas[mid].0 < number {
            low = mid + 1;
        } else {
            high = mid;
        }
    }
    low
}

/// Whether the block with this number stands there.
#[inline(always)]
fn stands(blocks: &[Block], at: usize, number: u64) -> bool
    ensures yes { IsTrue result → IsBlockOf blocks.now at number }
    ensures no { result ≡ false → at < length blocks.now → number_at blocks.now at ≢ number }
{
    if at < blocks.len() {
        blocks[at].number == number
    } else {
        false
    }
}

/// The place of the block with this number, by its area.
#[inline(never)]
fn find(cache: &Blocks, number: u64) -> Option<usize>
    requires { IsKept cache.now }
    ensures { IsSpot cache.now.blocks.items result number }
{
    let at = bisect(&cache.areas, number / 64);
    if at >= cache.areas.len() {
        return None;
    }
    if cache.areas[at].0 != number / 64 {
        return None;
    }
    let place = cache.areas[at].1[(number % 64) as usize];
    if stands(&cache.blocks, place, number) {
        Some(place)
    } else {
        None
    }
}

/// The place of the block of a line, which is looked for at the place of the last access first, and behind it.
#[inline(always)]
pub(crate) fn seek(cache: &Blocks, last: usize, line: u64) -> Option<usize>
    requires { IsKept cache.now }
    ensures { IsSpot cache.now.blocks.items result (line / 16) }
{
    let number = line / 16;
    if stands(&cache.blocks, last, number) {
        return Some(last);
    }
    if number > cache.greatest {
        return None;
    }
    let next = last.wrapping_add(1);
    if stands(&cache.blocks, next, number) {
        return Some(next);
    }
    find(cache, number)
}

/// How many lines from this one on, but no more than `most`, stand in no block: all of them behind the last block's, or else
/// those up to the end of a block that isn't there.
#[inline]
pub(crate) fn absent_lines(cache: &Blocks, last: usize, first: u64, most: u64) -> u64
    requires { IsKept cache.now }
    ensures most { result ≤ most }
    ensures absent { (k : ℕ) → k < result → cell_at (lines_of cache.now) (first + k) ≡ Cell.Absent }
{
    if first / 16 > cache.greatest {
        return most;
    }
    match seek(cache, last, first) {
        Some(_) => 0,
        None => most.min(16 - first % 16),
    }
}

/// Whether there is room for one more line with no allocation.
#[inline(always)]
pub(crate) fn has_room(cache: &Blocks) -> bool
    ensures { result ≡ true → 1 ≤ cache.now.room }
{
    cache.room > 0
}

/// Sets a line of a block.
#[inline(always)]
fn set_line(cache: &mut Blocks, at: usize, line: u64, mark: Mark, words: Line)
    requires kept { IsKept cache.old }
    requires stands { IsBlockOf cache.old.blocks.items at (line / 16) }
    ensures kept { IsKept cache.new }
    ensures cache { lines_of cache.new ≡ with_cell line (marked mark words) (lines_of cache.old) }
    ensures stands { IsBlockOf cache.new.blocks.items at (line / 16) }
    ensures room { cache.new.room ≡ cache.old.room }
{
    let block = &mut cache.blocks[at];
    block.marks[(line % 16) as usize] = mark;
    block.words[(line % 16) as usize] = words;
}

/// Sets the mark of a line, and leaves its words.
#[inline(always)]
fn set_mark(cache: &mut Blocks, at: usize, line: u64, mark: Mark)
    requires kept { IsKept cache.old }
    requires stands { IsBlockOf cache.old.blocks.items at (line / 16) }
    ensures kept { IsKept cache.new }
    ensures cache { lines_of cache.new
        ≡ with_cell line (marked mark (words_there cache.old.blocks.items at line)) (lines_of cache.old) }
    ensures stands { IsBlockOf cache.new.blocks.items at (line / 16) }
    ensures room { cache.new.room ≡ cache.old.room }
{
    let block = &mut cache.blocks[at];
    block.marks[(line % 16) as usize] = mark;
}

/// The mark of a line.
#[inline(always)]
fn mark_at(cache: &Blocks, at: usize, line: u64) -> Mark
    requires kept { IsKept cache.now }
    requires stands { IsBlockOf cache.now.blocks.items at (line / 16) }
    ensures { cell_at (lines_of cache.now) line ≡ marked result (words_there cache.now.blocks.items at line) }
{
    let block = &cache.blocks[at];
    block.marks[(line % 16) as usize]
}

/// The words that stand in a line's place, which are its own where it is held.
#[inline(always)]
fn words_at(cache: &Blocks, at: usize, line: u64) -> Line
    requires kept { IsKept cache.now }
    requires stands { IsBlockOf cache.now.blocks.items at (line / 16) }
    ensures { result ≡ words_there cache.now.blocks.items at line }
{
    let block = &cache.blocks[at];
    block.words[(line % 16) as usize]
}

/// The copy with this mark and these words.
#[inline(always)]
fn copy_of(mark: Mark, words: Line) -> Cell
    ensures { normal result ≡ marked mark words }
{
    match mark {
        Mark::Empty => Cell::Absent,
        Mark::Fresh => Cell::Clean(words),
        Mark::Stored => Cell::Dirty {
            asked: false,
            words,
        },
        Mark::Asked => Cell::Dirty { asked: true, words },
    }
}

/// The copy at a spot.
#[inline(always)]
pub(crate) fn copy(cache: &Blocks, spot: Option<usize>, line: u64) -> Cell
    requires kept { IsKept cache.now }
    requires spot { IsSpot cache.now.blocks.items spot (line / 16) }
    ensures { normal result ≡ cell_at (lines_of cache.now) line }
{
    match spot {
        Some(at) => copy_of(mark_at(cache, at, line), words_at(cache, at, line)),
        None => Cell::Absent,
    }
}

/// Whether a line with this mark is held.
#[inline(always)]
fn is_held_mark(mark: Mark) -> bool
    ensures { (words : List ℕ) → is_held (marked mark words) ≡ result }
{
    match mark {
        Mark::Empty => false,
        _ => true,
    }
}

/// Whether a line with this mark is dirty.
#[inline(always)]
fn is_dirty_mark(mark: Mark) -> bool
    ensures by { result ≡ is_dirty_by mark }
    ensures is { (words : List ℕ) → is_dirty (marked mark words) ≡ result }
{
    match mark {
        Mark::Stored => true,
        Mark::Asked => true,
        _ => false,
    }
}

/// Whether the next fence sends a line with this mark.
#[inline(always)]
fn is_asked_mark(mark: Mark) -> bool
    ensures { (words : List ℕ) → is_asked (marked mark words) ≡ result }
{
    match mark {
        Mark::Asked => true,
        _ => false,
    }
}

/// The place of the block at a spot, where the line is held.
#[inline(always)]
pub(crate) fn held_at(cache: &Blocks, spot: Option<usize>, line: u64) -> Option<usize>
    requires kept { IsKept cache.now }
    requires spot { IsSpot cache.now.blocks.items spot (line / 16) }
    ensures stands { IfSome result (λ at. IsBlockOf cache.now.blocks.items at (line / 16)) }
    ensures held { IfSome result (λ at. IsHeld (cell_at (lines_of cache.now) line)) }
    ensures absent { result ≡ None → cell_at (lines_of cache.now) line ≡ Cell.Absent }
{
    match spot {
        Some(at) => {
            if is_held_mark(mark_at(cache, at, line)) {
                Some(at)
            } else {
                None
            }
        }
        None => None,
    }
}

/// Makes room for one more block, where the spot needs it.
#[inline(always)]
pub(crate) fn make_room(cache: &mut Blocks, spot: Option<usize>) -> Result<(), OutOfMemory>
    requires kept { IsKept cache.old }
    ensures kept { IsKept cache.new }
    ensures room { OnOk result (is_gap spot ≡ true → HasRoom cache.new) }

    // It fails only where that room was missing, and changes no line.
    ensures full { OnErr result (cache.old.room ≡ 0) }
    ensures gap { OnErr result (is_gap spot ≡ true) }
    ensures same { cache.new.blocks.items ≡ cache.old.blocks.items }
    ensures spare { cache.new.room ≡ cache.old.room }
{
    match spot {
        Some(_) => Ok(()),
        None => take_room(cache),
    }
}

/// Makes room for one more block and one more area.
fn take_room(cache: &mut Blocks) -> Result<(), OutOfMemory>
    requires kept { IsKept cache.old }
    ensures kept { IsKept cache.new }
    ensures room { OnOk result (HasRoom cache.new) }
    ensures full { OnErr result (cache.old.room ≡ 0) }
    ensures same { cache.new.blocks.items ≡ cache.old.blocks.items }
    ensures spare { cache.new.room ≡ cache.old.room }
{
    if cache.room > 0 {
        return Ok(());
    }
    if cache.blocks.len() >= MOST_BLOCKS {
        return Err(OutOfMemory);
    }
    let Ok(()) = cache.blocks.reserve(1) else {
        return Err(OutOfMemory);
    };
    let Ok(()) = cache.areas.reserve(1) else {
        return Err(OutOfMemory);
    };
    Ok(())
}

/// Makes room for that many blocks and areas more.
pub(crate) fn reserve(cache: &mut Blocks, lines: usize) -> Result<(), OutOfMemory>
    requires kept { IsKept cache.old }
    ensures kept { IsKept cache.new }
    ensures spare { OnOk result (lines ≤ cache.new.room) }
    ensures full { OnErr result (cache.old.room < lines) }
    ensures err { OnErr result (cache.new.room ≡ cache.old.room) }
    ensures same { cache.new.blocks.items ≡ cache.old.blocks.items }
    ensures more { cache.old.room ≤ cache.new.room }
{
    if lines <= cache.room {
        return Ok(());
    }
    if lines > MOST_BLOCKS - cache.blocks.len() {
        return Err(OutOfMemory);
    }
    let Ok(()) = cache.blocks.reserve(lines) else {
        return Err(OutOfMemory);
    };
    let Ok(()) = cache.areas.reserve(lines) else {
        return Err(OutOfMemory);
    };
    cache.room = lines;
    Ok(())
}

/// Tells the areas where the block with this number stands.
fn enlist(cache: &mut Blocks, number: u64, place: usize)
    requires kept { IsKept cache.old }
    requires room { vec_len cache.old.areas < vec_capacity cache.old.areas }
    ensures put { IsEnlisted cache.old.areas.items cache.new.areas.items number place }
    ensures one { vec_len cache.new.areas ≤ vec_len cache.old.areas + 1 }
    ensures capacity { vec_capacity cache.old.areas ≤ vec_capacity cache.new.areas }
    ensures blocks { cache.new.blocks ≡ cache.old.blocks }
    ensures same_room { cache.new.room ≡ cache.old.room }
    ensures same_greatest { cache.new.greatest ≡ cache.old.greatest }
{
    let at = bisect(&cache.areas, number / 64);
    if at < cache.areas.len() {
        if cache.areas[at].0 == number / 64 {
            cache.areas[at].1[(number % 64) as usize] = place;
            return;
        }
    }
    let mut places = [0; 64];
    places[(number % 64) as usize] = place;
    let _ = cache.areas.insert(at, (number / 64, places));
}

/// Adds a block that holds no line, and returns its place.
fn add_block(cache: &mut Blocks, number: u64) -> usize
    requires kept { IsKept cache.old }
    requires none { HasNone cache.old.blocks.items number }
    requires room { HasRoom cache.old }
    ensures kept { IsKept cache.new }
    ensures same { lines_of cache.new ≡ lines_of cache.old }
    ensures stands { IsBlockOf cache.new.blocks.items result number }
    ensures spare { cache.old.room ≤ cache.new.room + 1 }
{
    let place = cache.blocks.len();
    enlist(cache, number, place);
    cache.blocks.push_reserved(Block {
        number,
        marks: [Mark::Empty; 16],
        words: [[0; 8]; 16],
    });
    cache.room = cache.room.saturating_sub(1);
    cache.greatest = cache.greatest.max(number);
    place
}

/// Puts a copy into a line's block.
#[inline(always)]
pub(crate) fn set_copy(cache: &mut Blocks, at: usize, line: u64, copy: Cell)
    requires kept { IsKept cache.old }
    requires stands { IsBlockOf cache.old.blocks.items at (line / 16) }
    ensures kept { IsKept cache.new }
    ensures cache { lines_of cache.new ≡ with_cell line (normal copy) (lines_of cache.old) }
    ensures stands { IsBlockOf cache.new.blocks.items at (line / 16) }
    ensures room { cache.new.room ≡ cache.old.room }
{
    match copy {
        Cell::Absent => set_mark(cache, at, line, Mark::Empty),
        Cell::Clean(words) => set_line(cache, at, line, Mark::Fresh, words),
        Cell::Dirty { asked, words } => {
            if asked {
                set_line(cache, at, line, Mark::Asked, words)
            } else {
                set_line(cache, at, line, Mark::Stored, words)
            }
        }
    }
}

/// Puts a copy of a line in at its spot, and returns the place of its block.
#[inline(always)]
pub(crate) fn put_copy(cache: &mut Blocks, spot: Option<usize>, line: u64, copy: Cell) -> usize
    requires kept { IsKept cache.old }
    requires spot { IsSpot cache.old.blocks.items spot (line / 16) }
    requires room { is_gap spot ≡ true → HasRoom cache.old }
    ensures kept { IsKept cache.new }
    ensures cache { lines_of cache.new ≡ with_cell line (normal copy) (lines_of cache.old) }
    ensures stands { IsBlockOf cache.new.blocks.items result (line / 16) }
    ensures one { cache.old.room ≤ cache.new.room + 1 }
    ensures none { is_gap spot ≡ false → cache.new.room ≡ cache.old.room }
{
    match spot {
        Some(at) => {
            set_copy(cache, at, line, copy);
            at
        }
        None => {
            let at = add_block(cache, line / 16);
            set_copy(cache, at, line, copy);
            at
        }
    }
}

/// Makes a line absent.
#[inline(always)]
pub(crate) fn drop_copy(cache: &mut Blocks, spot: Option<usize>, line: u64)
    requires kept { IsKept cache.old }
    requires spot { IsSpot cache.old.blocks.items spot (line / 16) }
    ensures kept { IsKept cache.new }
    ensures cache { lines_of cache.new ≡ with_cell line Cell.Absent (lines_of cache.old) }
    ensures room { cache.new.room ≡ cache.old.room }
{
    match spot {
        Some(at) => set_mark(cache, at, line, Mark::Empty),
        None => {}
    }
}

/// The mark of a line after it was sent whole.
#[inline(always)]
fn cleaned_mark(mark: Mark) -> Mark
    ensures { (words : List ℕ) → marked result words ≡ cleaned (marked mark words) }
{
    match mark {
        Mark::Empty => Mark::Empty,
        _ => Mark::Fresh,
    }
}

/// Makes a line clean, in its block.
#[inline(always)]
pub(crate) fn clean_line(cache: &mut Blocks, at: usize, line: u64)
    requires kept { IsKept cache.old }
    requires stands { IsBlockOf cache.old.blocks.items at (line / 16) }
    ensures kept { IsKept cache.new }
    ensures cache { lines_of cache.new
        ≡ with_cell line (cleaned (cell_at (lines_of cache.old) line)) (lines_of cache.old) }
    ensures stands { IsBlockOf cache.new.blocks.items at (line / 16) }
    ensures room { cache.new.room ≡ cache.old.room }
{
    let mark = cleaned_mark(mark_at(cache, at, line));
    set_mark(cache, at, line, mark);
}

/// The mark of a line after it was asked for it to be sent.
#[inline(always)]
fn asked_mark(mark: Mark) -> Mark
    ensures { (words : List ℕ) → marked result words ≡ asked_for (marked mark words) }
{
    match mark {
        Mark::Empty => Mark::Empty,
        Mark::Fresh => Mark::Fresh,
        _ => Mark::Asked,
    }
}

/// Asks for a dirty line to be sent.
#[inline(always)]
pub(crate) fn ask_copy(cache: &mut Blocks, spot: Option<usize>, line: u64)
    requires kept { IsKept cache.old }
    requires spot { IsSpot cache.old.blocks.items spot (line / 16) }
    ensures kept { IsKept cache.new }
    ensures cache { lines_of cache.new
        ≡ with_cell line (asked_for (cell_at (lines_of cache.old) line)) (lines_of cache.old) }
    ensures room { cache.new.room ≡ cache.old.room }
{
    match spot {
        Some(at) => {
            let mark = asked_mark(mark_at(cache, at, line));
            set_mark(cache, at, line, mark);
        }
        None => {}
    }
}

/// A word of the line's copy, where the line is held and its block is that of the last access.
#[inline]
pub(crate) fn held_word(cache: &Blocks, last: usize, line: u64, word: u8) -> Option<u64>
    requires kept { IsKept cache.now }
    requires word { word < 8 }
    ensures held { IfSome result (λ value. IsHeld (cell_at (lines_of cache.now) line)) }
    ensures value { IfSome result
        (λ value. value ≡ slice_index (words_of (cell_at (lines_of cache.now) line)) word) }
{
    if !stands(&cache.blocks, last, line / 16) {
        return None;
    }
    if !is_held_mark(mark_at(cache, last, line)) {
        return None;
    }
    Some(word_at(cache, last, line, word))
}

/// The words of the line's copy, where the line is held and its block is that of the last access.
#[inline]
pub(crate) fn held_line(cache: &Blocks, last: usize, line: u64) -> Option<Line>
    requires kept { IsKept cache.now }
    ensures stands { IfSome result (λ words. IsBlockOf cache.now.blocks.items last (line / 16)) }
    ensures held { IfSome result (λ words. IsHeld (cell_at (lines_of cache.now) line)) }
    ensures value { IfSome result
        (λ words. eight words ≡ words_of (cell_at (lines_of cache.now) line)) }
{
    if !stands(&cache.blocks, last, line / 16) {
        return None;
    }
    if !is_held_mark(mark_at(cache, last, line)) {
        return None;
    }
    Some(words_at(cache, last, line))
}

/// A line with other words behind its first one.
fn with_rest(old: &Line, words: &Line) -> Line
    ensures { result ≡ rest_stored words.now (eight old.now) }
{
    [
        old[0], words[1], words[2], words[3], words[4], words[5], words[6], words[7],
    ]
}

/// Sets the words behind the first one of a line, whose words are these. The line is dirty then.
pub(crate) fn set_rest(cache: &mut Blocks, at: usize, line: u64, old: &Line, words: &Line)
    requires kept { IsKept cache.old }
    requires stands { IsBlockOf cache.old.blocks.items at (line / 16) }
    ensures kept { IsKept cache.new }
    ensures cache { lines_of cache.new
        ≡ with_cell line (Cell.Dirty false (rest_stored words.now (eight old.now))) (lines_of cache.old) }
    ensures room { cache.new.room ≡ cache.old.room }
{
    let stored = with_rest(old, words);
    set_line(cache, at, line, Mark::Stored, stored);
}

/// A word of a line that is held.
#[inline(always)]
pub(crate) fn word_at(cache: &Blocks, at: usize, line: u64, word: u8) -> u64
    requires kept { IsKept cache.now }
    requires stands { IsBlockOf cache.now.blocks.items at (line / 16) }
    requires held { IsHeld (cell_at (lines_of cache.now) line) }
    requires word { word < 8 }
    ensures { result ≡ slice_index (words_of (cell_at (lines_of cache.now) line)) word }
{
    let words = words_at(cache, at, line);
    words[word as usize]
}

/// A line with another word in one place.
fn with_word(words: &Line, word: u8, value: u64) -> Line
    requires word { word < 8 }
    ensures { result ≡ slice_set (eight words.now) word value }
{
    let mut new = [
        words[0], words[1], words[2], words[3], words[4], words[5], words[6], words[7],
    ];
    new[word as usize] = value;
    new
}

/// Sets a word of a line that is held, which is dirty then.
pub(crate) fn set_word(cache: &mut Blocks, at: usize, line: u64, word: u8, value: u64)
    requires kept { IsKept cache.old }
    requires stands { IsBlockOf cache.old.blocks.items at (line / 16) }
    requires held { IsHeld (cell_at (lines_of cache.old) line) }
    requires word { word < 8 }
    ensures kept { IsKept cache.new }
    ensures cache { lines_of cache.new ≡ with_cell line
        (Cell.Dirty false (slice_set (words_of (cell_at (lines_of cache.old) line)) word value))
        (lines_of cache.old) }
    ensures room { cache.new.room ≡ cache.old.room }
{
    let words = words_at(cache, at, line);
    let stored = with_word(&words, word, value);
    set_line(cache, at, line, Mark::Stored, stored);
}

/// Whether a line of a block that is there is dirty.
#[inline(always)]
pub(crate) fn is_dirty_at(cache: &Blocks, at: usize, line: u64) -> bool
    requires kept { IsKept cache.now }
    requires stands { IsBlockOf cache.now.blocks.items at (line / 16) }
    ensures { result ≡ is_dirty (cell_at (lines_of cache.now) line) }
{
    is_dirty_mark(mark_at(cache, at, line))
}

/// The first asked line of a block from there on.
#[inline(always)]
fn asked_in(block: &Block, from: usize) -> Option<usize>
    ensures within { IfSome result (λ at. at < 16) }
    ensures from_there { IfSome result (λ at. from ≤ at) }
    ensures asked { IfSome result (λ at. IsAsked (cell_in block.now at)) }
    ensures before { IfSome result (λ at. (i : ℕ) → from ≤ i → i < at → ¬ (IsAsked (cell_in block.now i))) }
    ensures none { result ≡ None → (i : ℕ) → from ≤ i → i < 16 → ¬ (IsAsked (cell_in block.now i)) }
{
    let mut at = from;
    while at < 16 {
        if is_asked_mark(block.marks[at]) {
            return Some(at);
        }
        at += 1;
    }
    None
}

/// A number from this one on, before which no block has one that isn't below this one.
fn next_number(cache: &Blocks, number: u64) -> Option<u64>
    requires { IsKept cache.now }
    ensures from_there { IfSome result (λ next. number ≤ next) }
    ensures skipped { IfSome result
        (λ next. (n : ℕ) → number ≤ n → n < next → HasNone cache.now.blocks.items n) }
    ensures none { result ≡ None → (n : ℕ) → number ≤ n → HasNone cache.now.blocks.items n }
{
    let at = bisect(&cache.areas, number / 64);
    if at >= cache.areas.len() {
        return None;
    }
    let area = cache.areas[at].0;
    if area == number / 64 {
        Some(number)
    } else {
        Some(area.saturating_mul(64))
    }
}

/// Where a walk from this line on begins in the block with this number.
#[inline(always)]
fn start_in(first: u64, number: u64) -> usize
    ensures here { number ≡ first / 16 → result ≡ first % 16 }
    ensures later { number ≢ first / 16 → result ≡ 0 }
{
    if number == first / 16 {
        (first % 16) as usize
    } else {
        0
    }
}

/// The first asked line from `first` to `last`, with the place of its block.
pub(crate) fn next_asked(cache: &Blocks, first: u64, last: u64) -> Option<(usize, u64)>
    requires { IsKept cache.now }
    ensures stands { IfSome result (λ found. IsBlockOf cache.now.blocks.items found.0 (found.1 / 16)) }
    ensures asked { IfSome result (λ found. IsFirstAsked (lines_of cache.now) first found.1) }
    ensures none { result ≡ None → NoneAsked first (last + 1) (lines_of cache.now) }
{
    let mut number = first / 16;
    while let Some(next) = next_number(cache, number) {
        if last / 16 < next {
            return None;
        }
        if let Some(at) = find(cache, next) {
            if let Some(offset) = asked_in(&cache.blocks[at], start_in(first, next)) {
                return Some((at, next * 16 + offset as u64));
            }
        }
        number = next + 1;
    }
    None
}

/// How many lines of a block are dirty. All marks are looked at together.
#[inline(always)]
fn dirty_in(block: &Block) -> usize
    ensures count { result ≡ count_by is_dirty_by block.now.marks }
    ensures few { result ≤ length block.now.marks }
{
    let mut count: u8 = 0;
    for i in 0..16 {
        count += is_dirty_mark(block.marks[i]) as u8;
    }
    count as usize
}

/// How many lines are dirty. This looks at all blocks.
pub(crate) fn dirty_lines_of(cache: &Blocks) -> u64
    requires { IsKept cache.now }
    ensures { result ≡ dirty_count (lines_of cache.now) }
{
    let mut count: u64 = 0;
    for block in &cache.blocks {
        count += dirty_in(block) as u64;
    }
    count
}
