//! Whole lines through a cache: a line is dropped and read, or written and sent.

ghost use Rattle.std.specs.Prelude.{◌≡◌, ◌≢◌, ◌∷◌, ◌+◌, ◌<◌, ◌≤◌, ℕ, [], IfOk, IfErr, OnErr, OnOk, Some, take};
ghost use Rattle.fam_base.specs.Image.{eight};
ghost use Rattle.fam_machine.specs.Caches.{cell_at};
ghost use Rattle.fam_machine.specs.OneLine.{IsHeld, words_of};
ghost use Rattle.fam_machine.specs.Operations.{IsWithin, line_no, load_ops, op_line};
ghost use Rattle.fam_machine.specs.Mkfs.{put_ops};
ghost use Rattle.fam_mkfs.specs.Parts.{stores};
ghost use Rattle.fam_media.specs.Causes.{IsSteady, Rose};
ghost use Rattle.fam_cache.specs.Operations.{BringsNone, IsOneLine, LeavesCache, word_of};
ghost use Rattle.fam_cache.specs.Runs.{AreCut, AreDone, over};

use fam_base::{Line, LineNo};
use fam_cache::{HostCache, OperationFault};
use fam_machine::Op;
use fam_media::Media;

/// The media failed at this line.
#[derive(Clone, Copy, Debug, PartialEq, Eq)]
pub struct FailedAt(pub LineNo);

/// Does an operation at one line, where the cache has room for the line that it brings.
fn operate<M: Media>(cache: &mut HostCache, media: &mut M, op: Op) -> Result<Option<u64>, FailedAt>
    requires within { IsWithin (M.size media.old) op }
    requires one { IsOneLine op }
    requires room { ¬ (BringsNone op cache.old.lines) → 0 < cache.old.spare }

    ensures done { OnOk result (AreDone (op ∷ [])
        (over (M.state media.old).image cache.old.lines) (over (M.state media.new).image cache.new.lines)) }
    ensures cut { IfErr result (λ at. AreCut (op ∷ []) at.0
        (over (M.state media.old).image cache.old.lines) (over (M.state media.new).image cache.new.lines)) }
    ensures cache { OnOk result (LeavesCache op (M.state media.old).image cache.old.lines cache.new.lines) }
    ensures word { IfOk result (λ word. word ≡ word_of op cache.new.lines) }
    ensures others { (other : ℕ) → op_line op ≢ Some (line_no other)
        → cell_at cache.new.lines other ≡ cell_at cache.old.lines other }
    ensures spare { cache.old.spare ≤ cache.new.spare + 1 }
    ensures held_spare { BringsNone op cache.old.lines → cache.old.spare ≤ cache.new.spare }
    ensures err_spare { OnErr result (cache.old.spare ≤ cache.new.spare) }
    ensures within { IfErr result (λ at. at.0.0 < M.size media.old) }
    ensures rose { OnErr result (Rose (M.state media.old).faults (M.state media.new).faults) }
    ensures steady { IsSteady M.size M.state media.old media.new }
{
    match cache.perform(media, op) {
        Ok(word) => Ok(word),
        Err(OperationFault::MediaFault(line)) => Err(FailedAt(line)),
        Err(OperationFault::OutOfMemory) => unreachable!(),
    }
}

/// The words of a line as memory has them: a copy from before isn't read.
pub(crate) fn read_line<M: Media>(
    cache: &mut HostCache,
    media: &mut M,
    line: LineNo,
) -> Result<Line, FailedAt>
    requires within { line.0 < M.size media.old }
    requires room { 0 < cache.old.spare }

    ensures done { OnOk result (AreDone (load_ops line.0 8)
        (over (M.state media.old).image cache.old.lines) (over (M.state media.new).image cache.new.lines)) }
    ensures cut { IfErr result (λ at. AreCut (load_ops line.0 8) at.0
        (over (M.state media.old).image cache.old.lines) (over (M.state media.new).image cache.new.lines)) }
    ensures words { IfOk result
        (λ words. words ≡ eight (words_of (cell_at cache.new.lines line.0))) }
    ensures held { OnOk result (IsHeld (cell_at cache.new.lines line.0)) }
    ensures others { (other : ℕ) → other ≢ line.0
        → cell_at cache.new.lines other ≡ cell_at cache.old.lines other }
    ensures spare { cache.old.spare ≤ cache.new.spare + 1 }
    ensures within { IfErr result (λ at. at.0.0 < M.size media.old) }
    ensures rose { OnErr result (Rose (M.state media.old).faults (M.state media.new).faults) }
    ensures steady { IsSteady M.size M.state media.old media.new }
{
    operate(cache, media, Op::Invalidate(line))?;
    let mut words = [0; 8];
    for word in 0..8 {
        let loaded = operate(cache, media, Op::Load(line, word))?;
        words[word as usize] = loaded.unwrap_or(0);
    }
    Ok(words)
}

/// Stores the first so many of a line's words.
fn store_words<M: Media>(
    cache: &mut HostCache,
    media: &mut M,
    line: LineNo,
    words: &Line,
    count: u8,
) -> Result<(), FailedAt>
    requires few { count ≤ 8 }
    requires within { line.0 < M.size media.old }
    requires room { ¬ (IsHeld (cell_at cache.old.lines line.0)) → 0 < cache.old.spare }

    ensures done { OnOk result (AreDone (stores line.0 words.now count)
        (over (M.state media.old).image cache.old.lines) (over (M.state media.new).image cache.new.lines)) }
    ensures cut { IfErr result (λ at. AreCut (stores line.0 words.now count) at.0
        (over (M.state media.old).image cache.old.lines) (over (M.state media.new).image cache.new.lines)) }
    ensures held { OnOk result (0 < count → IsHeld (cell_at cache.new.lines line.0)) }
    ensures others { (other : ℕ) → other ≢ line.0
        → cell_at cache.new.lines other ≡ cell_at cache.old.lines other }
    ensures spare { cache.old.spare ≤ cache.new.spare + 1 }
    ensures held_spare { IsHeld (cell_at cache.old.lines line.0)
        → cache.old.spare ≤ cache.new.spare }
    ensures within { IfErr result (λ at. at.0.0 < M.size media.old) }
    ensures rose { OnErr result (Rose (M.state media.old).faults (M.state media.new).faults) }
    ensures steady { IsSteady M.size M.state media.old media.new }
{
    for word in 0..count {
        operate(cache, media, Op::Store(line, word, words[word as usize]))?;
    }
    Ok(())
}

/// Puts a line, by the first so many of nine operations: its words are stored, and it is sent and dropped.
pub(crate) fn write_line<M: Media>(
    cache: &mut HostCache,
    media: &mut M,
    line: LineNo,
    words: &Line,
    most: u64,
) -> Result<(), FailedAt>
    requires within { line.0 < M.size media.old }
    requires room { ¬ (IsHeld (cell_at cache.old.lines line.0)) → 0 < cache.old.spare }

    ensures done { OnOk result (AreDone (take most (put_ops (line.0, words.now)))
        (over (M.state media.old).image cache.old.lines) (over (M.state media.new).image cache.new.lines)) }
    ensures cut { IfErr result (λ at. AreCut (take most (put_ops (line.0, words.now))) at.0
        (over (M.state media.old).image cache.old.lines) (over (M.state media.new).image cache.new.lines)) }
    ensures others { (other : ℕ) → other ≢ line.0
        → cell_at cache.new.lines other ≡ cell_at cache.old.lines other }
    ensures spare { cache.old.spare ≤ cache.new.spare + 1 }
    ensures held_spare { IsHeld (cell_at cache.old.lines line.0)
        → cache.old.spare ≤ cache.new.spare }
    ensures within { IfErr result (λ at. at.0.0 < M.size media.old) }
    ensures rose { OnErr result (Rose (M.state media.old).faults (M.state media.new).faults) }
    ensures steady { IsSteady M.size M.state media.old media.new }
{
    if most <= 8 {
        return store_words(cache, media, line, words, most as u8);
    }
    store_words(cache, media, line, words, 8)?;
    operate(cache, media, Op::Invalidate(line))?;
    Ok(())
}
