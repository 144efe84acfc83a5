//! Which answers fit a check. Of its listing it is told how many entries there are, and no more.

ghost use Rattle.std.specs.Prelude.{◌≡◌, ◌↔◌, ◌≤◌, IfOk, IsTrue, MatchOption, length, replicate, take};
ghost use Rattle.std.specs.FinMap as map;
ghost use Rattle.fam_base.specs.declared.cmd.Cmd.TheVariants as cmd;
ghost use Rattle.fam_judge.specs.Counting.{CountsFit, FirstCounts, PathCounts, count_behind};
ghost use Rattle.fam_judge.specs.Untold.{untold_entry};
ghost use Rattle.fam_settled.specs.Checking.{CheckTold};
ghost use Rattle.fam_settled.specs.Settled.{settled_and_pending};
ghost use Rattle.fam_settled.specs.Told.{IsNoCheck, bare_cmd};

use crate::log::Log;
use fam_base::{Cmd, OutOfMemory, Path};
use fam_history::{ToldAnswer, ToldCommand};
use fam_rules::Checked;
use fam_tree::Tree;
use std::alloc::Global;

/// How many entries the listing of a check has. None: the command is another one.
pub(crate) fn listing_count(told: &ToldCommand) -> Option<u64>
    ensures { MatchOption result (IsNoCheck (bare_cmd told.now)) (λ count. bare_cmd told.now ≡ cmd.Check (replicate count untold_entry)) }
{
    match told {
        ToldCommand::Plain(Cmd::Check { listing }) => Some(listing.as_slice().len() as u64),
        ToldCommand::Check { count } => Some(*count),
        _ => None,
    }
}

/// How many entries of a tree stand behind a path.
fn count_behind(tree: &Tree, path: &Path) -> u64
    ensures { result ≡ count_behind path.now (map.keys tree.now) }
{
    // No more than there are.
    let _most = tree.len();
    let mut count = 0;
    for entry in tree.iter() {
        if path.cmp(&entry.path).is_lt() {
            count += 1;
        }
    }
    count
}

/// Whether so many paths may differ: by whether the tree has the first of them, and how many of its entries stand behind it.
fn first_fits(has: bool, behind: u64, counts: &Checked) -> bool
    ensures { IsTrue result ↔ FirstCounts has behind counts.now }
{
    let lost = counts.missing as u128 + counts.changed as u128;
    if has {
        lost >= 1 && lost <= behind as u128 + 1
    } else {
        counts.extra >= 1 && lost <= behind as u128
    }
}

/// Whether so many may by the first path that differs.
fn path_fits(tree: &Tree, counts: &Checked) -> bool
    ensures { IsTrue result ↔ PathCounts tree.now counts.now counts.now.first }
{
    match &counts.first {
        None => counts.missing == 0 && counts.extra == 0 && counts.changed == 0,
        Some(path) => first_fits(tree.get(path).is_some(), count_behind(tree, path), counts),
    }
}

/// Whether a check of a tree against a listing of so many entries may count so.
fn counts_fit(tree: &Tree, count: u64, counts: &Checked) -> bool
    ensures { IsTrue result ↔ CountsFit tree.now count counts.now }
{
    if count as u128 + counts.missing as u128 != tree.len() as u128 + counts.extra as u128 {
        return false;
    }
    path_fits(tree, counts)
}

impl Log {
    /// Whether a check of the first `m` entries against a listing of so many entries may be answered so. It takes memory for
    /// their tree.
    pub(crate) fn check_fits(
        &self,
        alloc: Global,
        m: u64,
        count: u64,
        answer: &ToldAnswer,
    ) -> Result<bool, OutOfMemory>
        requires { m ≤ length (settled_and_pending self.now) }
        ensures { IfOk result (λ b. IsTrue b ↔ CheckTold m (take m (settled_and_pending self.now)) count answer.now) }
    {
        let ToldAnswer::Checked(n, counts) = answer else {
            return Ok(false);
        };
        if *n != m {
            return Ok(false);
        }
        let plan = self.first(alloc, m)?;
        Ok(counts_fit(plan.tree(), count, counts))
    }
}
