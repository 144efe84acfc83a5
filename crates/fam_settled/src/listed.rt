//! A tree beside the entries of a listing.

ghost use Rattle.std.specs.Prelude.{◌≡◌, ◌↔◌, ◌∷◌, IsTrue, List, MatchOption};
ghost use Rattle.std.specs.FinMap as map;
ghost use Rattle.fam_base.specs.declared.entry.Entry.{Entry};

use fam_base::Entry;
use fam_tree::Tree;

/// What follows an entry, where entries begin with it.
fn behind<'a>(entry: &Entry, listed: &'a [Entry]) -> Option<&'a [Entry]>
    ensures { MatchOption result ((more : List Entry) → listed.now ≡ entry.now ∷ more → ⊥) (λ more. listed.now ≡ entry.now ∷ more.now) }
{
    match listed {
        [first, more @ ..] if entry.is_same(first) => Some(more),
        _ => None,
    }
}

/// Whether the entries of a tree are these, in the order of their paths.
pub(crate) fn lists(tree: &Tree, listed: &[Entry]) -> bool
    ensures { IsTrue result ↔ (map.values tree.now ≡ listed.now) }
{
    let mut rest = listed;
    for entry in tree.iter() {
        match behind(&entry, rest) {
            Some(more) => rest = more,
            None => return false,
        }
    }
    rest.is_empty()
}
