//! How an entry that reads joins the tree where it applies.

ghost use Rattle.std.specs.Prelude.{◌≡◌, None, Some, IfOk, OnErr};
ghost use Rattle.std.specs.FinMap as map;
ghost use Rattle.fam_format.specs.Tree.{tree_fault};
ghost use Rattle.fam_tree.specs.Faults.{reason_of};
ghost use Rattle.fam_fsck.specs.Found.{tree_after};

use fam_base::OutOfMemory;
use fam_format::Reason;
use fam_tree::{ApplyFault, Beside, EntryRef, Nothing, Tree};
use std::alloc::Global;

/// Why an entry doesn't join, if memory didn't run out.
fn reason_against(fault: ApplyFault) -> Result<Reason, OutOfMemory>
    ensures reason { IfOk result (λ reason. reason_of fault ≡ Some reason) }
    ensures none { OnErr result (reason_of fault ≡ None) }
{
    match fault {
        ApplyFault::Exists(kind) => Ok(Reason::Exists(kind)),
        ApplyFault::NoParent => Ok(Reason::NoParent),
        ApplyFault::ParentIsFile => Ok(Reason::ParentIsFile),
        ApplyFault::OutOfMemory => Err(OutOfMemory),
    }
}

/// Adds an entry to the tree where it applies, and says why it doesn't.
fn apply(tree: &mut Tree, entry: &EntryRef<'_>) -> Result<Option<Reason>, OutOfMemory>
    ensures fault { IfOk result (λ fault. fault ≡ tree_fault tree.old entry.now) }
    ensures after { IfOk result (λ fault. tree.new ≡ tree_after fault tree.old entry.now) }
    ensures err { OnErr result (tree.new ≡ tree.old) }

    // Memory is wanted only for an entry that applies.
    ensures want { OnErr result (tree_fault tree.old entry.now ≡ None) }
{
    match tree.apply_beside(entry, &mut Nothing) {
        Ok(()) => Ok(None),
        Err(fault) => match reason_against(fault) {
            Ok(reason) => Ok(Some(reason)),
            Err(full) => Err(full),
        },
    }
}

/// The tree of the entries that applied, and why the last one that was looked at didn't.
#[derive(Drop)]
pub struct Joined {
    pub tree: Tree,
    pub fault: Option<Reason>,
}

impl Joined {
    /// No entries.
    pub fn new(alloc: Global) -> Joined
        ensures { result.tree ≡ map.empty }
    {
        Joined {
            tree: Tree::new(alloc),
            fault: None,
        }
    }
}

impl Beside for Joined {
    ghost use Rattle.std.specs.Prelude.{⊤};
    ghost use Rattle.fam_fsck.specs.Found.{HasJoined};

    ghost may_grow = { λ _ _. ⊤ };

    ghost grown = { HasJoined };

    fn grow(&mut self, entry: &EntryRef<'_>) -> bool {
        match apply(&mut self.tree, entry) {
            Ok(fault) => {
                self.fault = fault;
                true
            }
            Err(_) => false,
        }
    }
}
