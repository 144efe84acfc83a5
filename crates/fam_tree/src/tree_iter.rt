//! The entries of a tree one by one.

ghost use Rattle.std.specs.Prelude.{length};
ghost use Rattle.std.specs.Iterator.{YieldsFirst, item_count};
ghost use Rattle.std.proofs.Props.{props};
ghost use Rattle.fam_tree.specs.Runs.{AreFilled, AreWithin, RunsWithin, runs_of};

use crate::chunks::Chunks;
use crate::run::Run;
use fam_base::Entry;

/// The entries of a tree, in byte order of their paths.
#[derive(Drop)]
pub struct TreeIter<'a> {
    pub(crate) entries: &'a Chunks,
    pub(crate) run: &'a [u32],
    pub(crate) runs: &'a [Run],
    ghost filled: { AreFilled (runs_of entries.now runs.now) } by { Prim.hlevel props },
    ghost inside: { AreWithin (length entries.now) run.now } by { Prim.hlevel props },
    ghost within: { RunsWithin (length entries.now) runs.now } by { Prim.hlevel props },
}

impl<'a> Iterator for TreeIter<'a> {
    ghost use Rattle.fam_tree.specs.Iter.{tree_iter_rest};

    type Item = Entry;

    ghost next_gives = { YieldsFirst tree_iter_rest };

    ghost remaining = { item_count tree_iter_rest };

    fn next(&mut self) -> Option<Entry> {
        if let [run, runs @ ..] = self.runs
            && self.run.is_empty()
        {
            self.run = run.places();
            self.runs = runs;
        }
        let [first, rest @ ..] = self.run else {
            return None;
        };
        self.run = rest;
        Some(self.entries.at(*first as usize))
    }
}
