//! Whether an entry joins the tree of a list, by scans over the whole list.

ghost use Rattle.std.specs.Prelude.{◌≡◌};
ghost use Rattle.std.specs.FinMap as map;
ghost use Rattle.fam_format.specs.Tree as tree;
ghost use Rattle.fam_format.specs.Tree.{replay};
ghost use Rattle.fam_base.specs.Paths.{parent_of};

use fam_base::{Entry, Kind, Path};
use fam_format::Reason;

/// The last entry of the list at the path.
fn entry_at(entries: &[Entry], path: &Path) -> Option<Entry>
    ensures { result ≡ map.get (replay entries.now) path.now }
{
    let mut found = None;
    for entry in entries {
        if entry.path == *path {
            found = Some(*entry);
        }
    }
    found
}

fn exists_fault(entries: &[Entry], entry: &Entry) -> Option<Reason>
    ensures { result ≡ tree.exists_fault (map.get (replay entries.now) entry.now.path) }
{
    match entry_at(entries, &entry.path) {
        Some(old) => Some(Reason::Exists(old.kind)),
        None => None,
    }
}

fn below_fault(entries: &[Entry], path: &Path) -> Option<Reason>
    ensures { result ≡ tree.parent_fault (map.get (replay entries.now) path.now) }
{
    match entry_at(entries, path) {
        None => Some(Reason::NoParent),
        Some(parent) => match parent.kind {
            Kind::File => Some(Reason::ParentIsFile),
            Kind::Directory => None,
        },
    }
}

fn parent_fault(entries: &[Entry], entry: &Entry) -> Option<Reason>
    ensures { result ≡ tree.root_fault (replay entries.now) (parent_of entry.now.path) }
{
    match entry.path.parent() {
        Some(parent) => below_fault(entries, &parent),
        None => None,
    }
}

/// Why an entry can't be put into the tree of a list, or nothing where it can.
pub(crate) fn tree_fault(entries: &[Entry], entry: &Entry) -> Option<Reason>
    ensures { result ≡ tree.tree_fault (replay entries.now) entry.now }
{
    match exists_fault(entries, entry) {
        Some(fault) => Some(fault),
        None => parent_fault(entries, entry),
    }
}
