//! Trees of entries. `specs/Runs.antt` says how entries stand in a tree, and fam_format's `specs/Tree.antt` which
//! entries join it.
//!
//! A tree keeps copies of entries, since a reader owns none of the image. They lie in one list, in the order in which
//! they were added, and the tree holds their places in sorted runs of at most 256. The list is cut into chunks of as
//! many. A copy of a tree costs a count for each run and two for all chunks, which the copies share until an entry
//! joins one of them; that entry costs a copy of one chunk and one run. Longer runs would be fewer counts, but each
//! insert would move more places than a copy saves.
//!
//! An `Entry` is 824 bytes large, with room for the longest path and for sixteen extents, and most entries need a tenth
//! of that. So a chunk has a row of 48 bytes for each entry, and the bytes of all paths and all extents end to end.
//! What reads an entry builds it anew, which costs less than a search for it. A search looks behind all others first
//! while paths rise.
//!
//! With entries, or paths as keys, in the nodes of a search tree, an insert would move and a drop visit several of
//! them; each alone on the heap would cost an allocation and a release. Nothing is ever taken back: an entry joins
//! tree, order and map of units at once, when all memory is found.

ghost use Rattle.std.specs.Prelude.{◌≡◌, ◌<◌, ◌++◌, None, Some, OnOk, OnErr, IfOk, IfErr, IfSome, length, option_map};
ghost use Rattle.std.specs.List.Sorted.{IsStrictlySortedBy};
ghost use Rattle.std.specs.FinMap as map;
ghost use Rattle.fam_base.specs.PathOrder.{path_cmp};
ghost use Rattle.fam_base.specs.Paths.{parent_of};
ghost use Rattle.fam_format.specs.Stop.{or_else};
ghost use Rattle.fam_format.specs.Tree.{exists_fault, root_fault, with_entry, tree_fault};
ghost use Rattle.fam_tree.specs.Faults.{reason_of};
ghost use Rattle.fam_tree.specs.Iter.{tree_iter_rest};
ghost use Rattle.fam_tree.specs.Keyed.{IsKeyed, paths_of};
ghost use Rattle.fam_tree.specs.Parents as parents;
ghost use Rattle.fam_tree.specs.Runs.{RunsWithin, listed};

use crate::beside::{Beside, Nothing};
use crate::chunks::Chunks;
use crate::entry_ref::EntryRef;
use crate::fault::ApplyFault;
use crate::parent::parent_in;
use crate::run::Run;
use crate::runs::{place_in, put};
use crate::tree_iter::TreeIter;
use fam_base::{Entry, Kind, OutOfMemory, Path};
use std::alloc::Global;
use std::marker::Model;

/// The entries of a file system by their paths. Runs tell their order, so that one more moves no entry but where the list
/// grows.
#[derive(Drop)]
pub struct Tree {
    alloc: Global,
    /// In the order in which they were added.
    entries: Chunks,
    runs: Vec<Run>,
    count: u64,
}

impl Model for Tree {
    ghost use Rattle.std.specs.Prelude.{◌≡◌, length};
    ghost use Rattle.std.specs.FinMap as map;
    ghost use Rattle.fam_base.specs.PathOrder.{path_cmp};
    ghost use Rattle.fam_base.specs.declared.entry.Entry.{Entry};
    ghost use Rattle.std.specs.Coded.{coded_list, coded_ℕ};
    ghost use Rattle.fam_base.specs.contracts.entry.Entry as entry_type;
    ghost use Rattle.fam_tree.specs.Runs.{IsTree, listed, tree_of};

    ghost Value = { map.FinMap path_cmp Entry };

    ghost coded = { map.code (coded_list coded_ℕ) entry_type.the_row.coded };

    ghost view = { λ t. tree_of (listed t.entries t.runs.items) };

    ghost invariant = { λ t. IsTree t.entries t.runs.items t.count };
}

impl Tree {
    /// A tree with no entries. The root always exists, and is no entry.
    pub fn new(alloc: Global) -> Tree
        ensures { result ≡ map.empty }
    {
        Tree {
            alloc,
            entries: Chunks::new(alloc),
            runs: Vec::new(alloc),
            count: 0,
        }
    }

    /// What stands at a path.
    pub fn get(&self, path: &Path) -> Option<Entry>
        ensures value { result ≡ map.get self.now path.now }
        ensures own { IfSome result (λ entry. entry.path ≡ path.now) }
    {
        match place_in(&self.entries, &self.runs, path.bytes()) {
            Some(place) => Some(self.entries.at(place)),
            None => None,
        }
    }

    /// How many entries there are.
    pub fn len(&self) -> u64
        ensures { result ≡ map.len self.now }
    {
        self.count
    }

    /// The entries in byte order of their paths.
    pub fn iter(&self) -> TreeIter<'_>
        ensures rest { tree_iter_rest result ≡ map.values self.now }

        // Each stands under its own path, so the order is that of the paths of the entries.
        ensures own { IsKeyed self.now }
        ensures order { IsStrictlySortedBy path_cmp (paths_of self.now) }
    {
        TreeIter {
            entries: &self.entries,
            run: &[],
            runs: &self.runs,
        }
    }

    /// The list of the entries, and the runs that tell their order.
    pub(crate) fn parts(&self) -> (&Chunks, &[Run])
        ensures listed { listed result.0.now result.1.now ≡ map.values self.now }
        ensures within { RunsWithin (length result.0.now) result.1.now }
    {
        (&self.entries, &self.runs)
    }

    /// The kind of what stands at a path.
    fn kind_at(&self, path: &[u8]) -> Option<Kind>
        ensures { result ≡ option_map (λ e. e.kind) (map.get self.now path.now) }
    {
        match place_in(&self.entries, &self.runs, path) {
            Some(place) => Some(self.entries.kind_at(place)),
            None => None,
        }
    }

    /// What stands at a path, as a fault, or else this one.
    fn fault_at(&self, path: &[u8], fault: ApplyFault) -> ApplyFault
        ensures { reason_of result ≡ or_else (exists_fault (map.get self.now path.now)) (reason_of fault) }
    {
        match self.kind_at(path) {
            Some(kind) => ApplyFault::Exists(kind),
            None => fault,
        }
    }

    /// The kind of a path's parent, and `None` where the parent isn't in the tree. The root is a directory.
    pub fn parent_kind(&self, path: &Path) -> Option<Kind>
        ensures { result ≡ parents.parent_kind self.now (parent_of path.now) }
    {
        self.kind_above(path.bytes())
    }

    /// The same, of the bytes of a path.
    fn kind_above(&self, path: &[u8]) -> Option<Kind>
        ensures { result ≡ parents.parent_kind self.now (parent_of path.now) }
    {
        match parent_in(path) {
            Some(parent) => self.kind_at(parent),
            None => Some(Kind::Directory),
        }
    }

    /// Why the parent of a path has no entry below it.
    fn parent_fault(&self, path: &[u8]) -> Option<ApplyFault>
        ensures none { result ≡ None → root_fault self.now (parent_of path.now) ≡ None }
        ensures fault { IfSome result (λ e. (reason_of e ≡ root_fault self.now (parent_of path.now))) }
    {
        match self.kind_above(path) {
            None => Some(ApplyFault::NoParent),
            Some(Kind::File) => Some(ApplyFault::ParentIsFile),
            Some(Kind::Directory) => None,
        }
    }

    /// Adds an entry. It has to be new at its path, below the root or a directory of the tree.
    pub fn apply(&mut self, entry: &Entry) -> Result<(), ApplyFault>
        ensures joins { OnOk result (tree_fault self.old entry.now ≡ None) }
        ensures added { OnOk result (self.new ≡ with_entry self.old entry.now) }

        // Every fault but out of memory comes exactly where the entry doesn't join.
        ensures cause { IfErr result (λ fault. reason_of fault ≡ tree_fault self.old entry.now) }
        ensures same { OnErr result (self.new ≡ self.old) }
    {
        self.apply_beside(&EntryRef::of(entry), &mut Nothing)
    }

    /// Adds an entry as `apply` does, where something else grows by it, and else says that memory is out. What the tree wants
    /// of memory is found before the other part grows, so that either both change or neither.
    pub fn apply_beside<B: Beside>(
        &mut self,
        entry: &EntryRef<'_>,
        beside: &mut B,
    ) -> Result<(), ApplyFault>
        requires { B.may_grow beside.old entry.now }
        ensures joins { OnOk result (tree_fault self.old entry.now ≡ None) }
        ensures added { OnOk result (self.new ≡ with_entry self.old entry.now) }
        ensures grown { OnOk result (B.grown beside.old entry.now beside.new) }

        ensures cause { IfErr result (λ fault. reason_of fault ≡ tree_fault self.old entry.now) }
        ensures same { OnErr result (self.new ≡ self.old) }
        ensures beside { OnErr result (beside.new ≡ beside.old) }
    {
        let path = entry.path();
        // What stands at the path is found out first.
        if let Some(fault) = self.parent_fault(path) {
            return Err(self.fault_at(path, fault));
        }
        let Some(count) = self.count.checked_add(1) else {
            return Err(self.fault_at(path, ApplyFault::OutOfMemory));
        };
        if put(&mut self.entries, &mut self.runs, self.alloc, entry, beside) {
            self.count = count;
            return Ok(());
        }
        Err(self.fault_at(path, ApplyFault::OutOfMemory))
    }

    /// An equal tree. The two share all entries, until one joins either of them.
    pub fn copy(&self, alloc: Global) -> Result<Tree, OutOfMemory>
        ensures { IfOk result (λ tree. tree ≡ self.now) }
    {
        let entries = self.entries.copy(alloc)?;
        match self.runs.clone() {
            Ok(runs) => Ok(Tree {
                alloc,
                entries,
                runs,
                count: self.count,
            }),
            Err(_) => Err(OutOfMemory),
        }
    }
}
