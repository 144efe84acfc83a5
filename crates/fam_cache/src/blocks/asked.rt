//! Lines that were asked for and stand one behind another.

ghost use Rattle.std.specs.Prelude.{ℕ, ◌≡◌, ◌+◌, ◌/◌, ◌%◌, ◌<◌, ◌≤◌, length, true, false};
ghost use Rattle.fam_base.specs.Image.{eight};
ghost use Rattle.fam_machine.specs.Caches.{cell_at};
ghost use Rattle.fam_machine.specs.OneLine.{IsAsked};
ghost use Rattle.fam_cache.specs.Blocks.{IsBlockOf, IsKept, cell_in, lines_of};
ghost use Rattle.fam_cache.specs.SentRuns.{IsAskedCopy, IsAskedLine};

use super::{Block, Blocks, is_asked_mark};
use fam_base::Line;

/// A line has eight words.
#[inline(always)]
fn are_eight(words: &Line)
    ensures { eight words.now ≡ words.now }
{
    let _ = words;
}

/// Whether the line that stands there in a block was asked for.
#[inline(always)]
fn is_asked_there(block: &Block, at: usize) -> bool
    requires at { at < 16 }
    ensures asked { result ≡ true → IsAskedCopy (cell_in block.now at) block.now.words at }
    ensures other { result ≡ false → ¬ (IsAsked (cell_in block.now at)) }
{
    are_eight(&block.words[at]);
    is_asked_mark(block.marks[at])
}

/// The words of the lines that were asked for from this one on, as far as they stand one behind another in its block.
pub(crate) fn asked_run(cache: &Blocks, at: usize, line: u64) -> &[Line]
    requires kept { IsKept cache.now }
    requires stands { IsBlockOf cache.now.blocks.items at (line / 16) }
    requires asked { IsAsked (cell_at (lines_of cache.now) line) }
    ensures some { 0 < length result.now }
    ensures within { line % 16 + length result.now ≤ 16 }
    ensures asked { (k : ℕ) → k < length result.now → IsAskedLine (lines_of cache.now) line result.now k }
{
    let block = &cache.blocks[at];
    let from = (line % 16) as usize;
    let mut end = from;
    while end < 16 && is_asked_there(block, end) {
        end += 1;
    }
    &block.words[from..end]
}
