//! Where a listing first differs from the tree that was wanted.

ghost use Rattle.std.specs.Prelude.{◌≡◌, ◌∷◌, ℕ, Bool, IfOk, IfSome, List, MatchOption, Some, slice_get};
ghost use Rattle.std.specs.FinMap as map;
ghost use Rattle.fam_base.specs.declared.entry.Entry.{Entry};
ghost use Rattle.fam_lines.specs.declared.answer.HostAnswer.TheVariants as answer;
ghost use Rattle.fam_lines.specs.declared.line.Line.TheVariants as line;
ghost use Rattle.fam_judging.specs.declared.given.GivenImage.{GivenImage};
ghost use Rattle.fam_judging.specs.declared.hosts.Hosts.{Hosts};
ghost use Rattle.fam_causes.specs.Asked.{asked};
ghost use Rattle.fam_causes.specs.Causes.{IsCause};
ghost use Rattle.fam_causes.specs.Differing.{FirstDiffer};

use crate::bounds::first_to_show;
use crate::kinds::Cause;
use fam_base::{Entry, OutOfMemory};
use fam_judging::Candidate;
use fam_tree::Tree;
use std::alloc::Global;

/// What follows an entry, where entries begin with it.
fn behind<'a>(entry: &Entry, listed: &'a [Entry]) -> Option<&'a [Entry]>
    ensures { MatchOption result ((more : List Entry) → listed.now ≡ entry.now ∷ more → ⊥) (λ more. listed.now ≡ entry.now ∷ more.now) }
{
    match listed {
        [first, more @ ..] if entry.is_same(first) => Some(more),
        _ => None,
    }
}

/// The first of some entries.
fn first_of(entries: &[Entry]) -> Option<Entry>
    ensures { result ≡ slice_get entries.now 0 }
{
    entries.first().copied()
}

/// What a listing has, and what the tree has, behind what the two have in common; none where nothing stands there.
fn first_other(tree: &Tree, listed: &[Entry]) -> Option<(Option<Entry>, Option<Entry>)>
    ensures { IfSome result (λ p. FirstDiffer listed.now (map.values tree.now) p.0 p.1) }
{
    let mut rest = listed;
    for entry in tree.iter() {
        match behind(&entry, rest) {
            Some(more) => rest = more,
            None => return Some((first_of(rest), Some(entry))),
        }
    }
    match first_of(rest) {
        Some(more) => Some((Some(more), None)),
        None => None,
    }
}

/// Why a listing of `m` entries can't stand, in the first candidate in which so many may be shown.
pub(crate) fn tree_cause(
    alloc: Global,
    candidates: &Vec<Candidate>,
    at: usize,
    m: u64,
    entries: &Vec<Entry>,
) -> Result<Option<Cause>, OutOfMemory>
    ensures { (given : GivenImage) (hosts : Hosts) (marks : List ℕ) (name : List ℕ) (answers : Bool) → IfOk result (λ found. IfSome found
        (IsCause (asked given hosts candidates.now.items marks name answers (Some (line.Answered at (answer.Played m entries.now)))))) }
{
    let Some(log) = first_to_show(candidates, at, m) else {
        return Ok(None);
    };
    let plan = log.first(alloc, m)?;
    match first_other(plan.tree(), entries.as_slice()) {
        Some((found, wanted)) => Ok(Some(Cause::OtherTree { found, wanted })),
        None => Ok(None),
    }
}
