//! Runs of a tree, whose paths rise over all of them. `specs/Runs.antt` says how.

ghost use Rattle.std.specs.Prelude.{◌≡◌, ◌+◌, ◌<◌, [], IfSome, IfNone, None, length, option_map};
ghost use Rattle.std.specs.Bool.{OnTrue, OnFalse};
ghost use Rattle.std.specs.FinMap as map;
ghost use Rattle.fam_format.specs.Tree.{with_entry};
ghost use Rattle.fam_tree.specs.Runs.{AreRunsOf, IsRunFor, entry_at, listed, runs_of, tree_of};

use crate::beside::Beside;
use crate::byte_order::ends_of;
use crate::chunks::Chunks;
use crate::entry_ref::EntryRef;
use crate::run::Run;
use std::alloc::Global;

/// The most entries of a run, where there is memory to cut it.
const MOST: usize = 256;

/// The run that has a path or would have it, and `None` where there is no run. While paths rise it is the last one.
#[inline(always)]
fn run_for(entries: &Chunks, runs: &[Run], path: &[u8]) -> Option<usize>
    requires { AreRunsOf entries.now runs.now }
    ensures some { IfSome result (λ k. IsRunFor (runs_of entries.now runs.now) path.now k) }
    ensures within { IfSome result (λ k. k < length runs.now) }
    ensures none { IfNone result (runs.now ≡ []) }
{
    let last = runs.len().checked_sub(1)?;
    let view = entries.view();
    let ends = ends_of(path);
    if 0 < last && runs[last].rises(entries) && runs[last - 1].is_below(&view, path, ends) {
        return Some(last);
    }
    let mut low = 0;
    let mut high = last;
    while low < high {
        let middle = low + (high - low) / 2;
        if runs[middle].is_below(&view, path, ends) {
            low = middle + 1;
        } else {
            high = middle;
        }
    }
    Some(low)
}

/// Where the entry at a path stands in the list of all entries.
pub(crate) fn place_in(entries: &Chunks, runs: &[Run], path: &[u8]) -> Option<usize>
    requires { AreRunsOf entries.now runs.now }
    ensures value { option_map (entry_at entries.now) result
        ≡ map.get (tree_of (listed entries.now runs.now)) path.now }
    ensures own { IfSome result (λ place. (entry_at entries.now place).path ≡ path.now) }
    ensures within { IfSome result (λ place. place < length entries.now) }
{
    match run_for(entries, runs, path) {
        Some(k) => runs[k].place_of(entries, path),
        None => None,
    }
}

/// Cuts a long run, if there is memory for it.
#[inline(always)]
fn split(entries: &Chunks, runs: &mut Vec<Run>, alloc: Global, k: usize)
    requires runs { AreRunsOf entries.now runs.old.items }
    requires within { k < length runs.old.items }
    ensures runs { AreRunsOf entries.now runs.new.items }
    ensures entries { listed entries.now runs.new.items ≡ listed entries.now runs.old.items }
{
    // The contract alone speaks of them.
    let _ = entries;
    if runs[k].len() <= MOST {
        return;
    }
    let Ok(()) = runs.reserve(1) else {
        return;
    };
    if let Ok(upper) = runs[k].split(alloc) {
        let _ = runs.insert(k + 1, upper);
    }
}

/// A first run, of one entry. If there is no memory, or the other part doesn't grow, there is none. It stands apart, since
/// it is done once.
#[inline(never)]
fn begin<B: Beside>(
    entries: &mut Chunks,
    runs: &mut Vec<Run>,
    alloc: Global,
    entry: &EntryRef<'_>,
    beside: &mut B,
) -> bool
    requires none { runs.old.items ≡ [] }
    requires beside { B.may_grow beside.old entry.now }
    ensures runs { AreRunsOf entries.new runs.new.items }
    ensures added { OnTrue result
        (tree_of (listed entries.new runs.new.items) ≡ with_entry map.empty entry.now) }
    ensures count { OnTrue result (length (listed entries.new runs.new.items) ≡ 1) }
    ensures grown { OnTrue result (B.grown beside.old entry.now beside.new) }
    ensures kept { OnFalse result (runs.new.items ≡ runs.old.items) }
    ensures same { OnFalse result (beside.new ≡ beside.old) }
{
    let Ok(mut run) = Run::new(alloc) else {
        return false;
    };
    let Ok(()) = runs.reserve(1) else {
        return false;
    };
    if !run.add(entries, entry, beside) {
        return false;
    }
    let _ = runs.push(run);
    true
}

/// Adds an entry where none has its path and something else grows by it. Else, and if there is no memory, the tree is as
/// before.
pub(crate) fn put<B: Beside>(
    entries: &mut Chunks,
    runs: &mut Vec<Run>,
    alloc: Global,
    entry: &EntryRef<'_>,
    beside: &mut B,
) -> bool
    requires runs { AreRunsOf entries.old runs.old.items }
    requires beside { B.may_grow beside.old entry.now }
    ensures runs { AreRunsOf entries.new runs.new.items }
    ensures free { OnTrue result (map.get (tree_of (listed entries.old runs.old.items)) entry.now.path ≡ None) }
    ensures added { OnTrue result (tree_of (listed entries.new runs.new.items)
        ≡ with_entry (tree_of (listed entries.old runs.old.items)) entry.now) }
    ensures count { OnTrue result (length (listed entries.new runs.new.items)
        ≡ length (listed entries.old runs.old.items) + 1) }
    ensures grown { OnTrue result (B.grown beside.old entry.now beside.new) }
    ensures kept { OnFalse result (listed entries.new runs.new.items ≡ listed entries.old runs.old.items) }
    ensures same { OnFalse result (beside.new ≡ beside.old) }
{
    let Some(k) = run_for(entries, runs, entry.path()) else {
        return begin(entries, runs, alloc, entry, beside);
    };
    if !runs[k].add(entries, entry, beside) {
        return false;
    }
    split(entries, runs, alloc, k);
    true
}
