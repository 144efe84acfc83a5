//! Lines of one block that stand one behind another.

ghost use Rattle.std.specs.Prelude.{ℕ, List, ◌≡◌, ◌+◌, ◌/◌, ◌%◌, ◌<◌, ◌≤◌, length, true};
ghost use Rattle.fam_machine.specs.OneLine.{IsDirty};
ghost use Rattle.fam_cache.specs.Blocks.{HasNone, HasRoom, IsBlockOf, IsKept, cell_in, lines_of, marked};
ghost use Rattle.fam_cache.specs.BroughtRuns.{AreClean, IsClean, LacksNone, brought_run};

use super::{Block, Blocks, Mark, add_block, dirty_in, is_dirty_mark};
use fam_base::Line;

/// Whether none of so many lines of a block is dirty, from this place on, where one of the block is.
#[inline(never)]
fn is_clean(block: &Block, from: usize, count: usize) -> bool
    requires { from + count ≤ 16 }
    ensures { result ≡ true → (i : ℕ) → from ≤ i → i < from + count → ¬ (IsDirty (cell_in block.now i)) }
{
    for i in from..from + count {
        if is_dirty_mark(block.marks[i]) {
            return false;
        }
    }
    true
}

/// Whether none of so many lines is dirty, from this one on, whose block stands there.
#[inline(always)]
pub(crate) fn lacks_none(cache: &Blocks, at: usize, first: u64, count: usize) -> bool
    requires kept { IsKept cache.now }
    requires stands { IsBlockOf cache.now.blocks.items at (first / 16) }
    requires within { first % 16 + count ≤ 16 }
    ensures { result ≡ true → LacksNone (lines_of cache.now) first count }
{
    let block = &cache.blocks[at];
    dirty_in(block) == 0 || is_clean(block, (first % 16) as usize, count)
}

/// Whether a line with this mark is a copy of which memory lacks no word.
#[inline(always)]
fn is_fresh_mark(mark: Mark) -> bool
    ensures { result ≡ true → (words : List ℕ) → IsClean (marked mark words) }
{
    matches!(mark, Mark::Fresh)
}

/// 0 for such a mark, and 1 for another.
#[inline(always)]
fn other_mark(mark: Mark) -> u8
    ensures few { result ≤ 1 }
    ensures none { result ≡ 0 → (words : List ℕ) → IsClean (marked mark words) }
{
    if is_fresh_mark(mark) { 0 } else { 1 }
}

/// How many lines of a block aren't clean copies. All marks are looked at together.
#[inline(always)]
fn others_in(block: &Block) -> u8
    ensures { result ≡ 0 → (i : ℕ) → i < 16 → IsClean (cell_in block.now i) }
{
    let mut count: u8 = 0;
    for i in 0..16 {
        count += other_mark(block.marks[i]);
    }
    count
}

/// Whether each of so many lines of a block is a clean copy, from this place on, where another of the block isn't.
#[inline(never)]
fn are_fresh(block: &Block, from: usize, count: usize) -> bool
    requires { from + count ≤ 16 }
    ensures { result ≡ true → (i : ℕ) → from ≤ i → i < from + count → IsClean (cell_in block.now i) }
{
    for i in from..from + count {
        if !is_fresh_mark(block.marks[i]) {
            return false;
        }
    }
    true
}

/// Whether the host holds clean copies of so many lines, from this one on, whose block stands there.
#[inline(always)]
pub(crate) fn are_clean(cache: &Blocks, at: usize, first: u64, count: usize) -> bool
    requires kept { IsKept cache.now }
    requires stands { IsBlockOf cache.now.blocks.items at (first / 16) }
    requires within { first % 16 + count ≤ 16 }
    ensures { result ≡ true → AreClean (lines_of cache.now) first count }
{
    let block = &cache.blocks[at];
    others_in(block) == 0 || are_fresh(block, (first % 16) as usize, count)
}

/// Adds a block that holds no line, and returns its place.
#[inline(never)]
pub(crate) fn empty_block(cache: &mut Blocks, number: u64) -> usize
    requires kept { IsKept cache.old }
    requires none { HasNone cache.old.blocks.items number }
    requires room { HasRoom cache.old }
    ensures kept { IsKept cache.new }
    ensures same { lines_of cache.new ≡ lines_of cache.old }
    ensures stands { IsBlockOf cache.new.blocks.items result number }
    ensures spare { cache.old.room ≤ cache.new.room + 1 }
{
    add_block(cache, number)
}

/// Puts clean copies of lines into their block, from this line on.
#[inline(always)]
pub(crate) fn set_run(cache: &mut Blocks, at: usize, first: u64, lines: &[Line])
    requires kept { IsKept cache.old }
    requires stands { IsBlockOf cache.old.blocks.items at (first / 16) }
    requires within { first % 16 + length lines.now ≤ 16 }
    ensures kept { IsKept cache.new }
    ensures cache { lines_of cache.new ≡ brought_run first lines.now (length lines.now) (lines_of cache.old) }
    ensures stands { IsBlockOf cache.new.blocks.items at (first / 16) }
    ensures room { cache.new.room ≡ cache.old.room }
{
    let from = (first % 16) as usize;
    let end = from + lines.len();
    let block = &mut cache.blocks[at];
    block.marks[from..end].fill(Mark::Fresh);
    block.words[from..end].copy_from_slice(lines);
}
