//! How a tree differs from a listing. Both are in byte order of their paths, so one pass over the two tells it.
//! `specs/Merge.antt` says what each step adds; the answer is the one of fam_rules, `specs/Checks.antt`.

ghost use Rattle.std.specs.Prelude.{◌≡◌, ◌+◌, ◌^◌, ◌<◌, fold, length};
ghost use Rattle.fam_base.specs.Commands.{IsListing};
ghost use Rattle.fam_rules.specs.Checks.{checked};
ghost use Rattle.fam_fsck.specs.Merge.{listing_after, first_path, left, met, passed, with_extra, with_missing, with_pair};

use fam_base::{Entry, Path};
use fam_rules::Checked;
use fam_tree::Tree;

/// Keeps the path of an entry that differs, if none is kept yet.
fn keep_first(first: &mut Option<Path>, entry: &Entry)
    ensures { first.new ≡ first_path first.old entry.now }
{
    if first.is_none() {
        *first = Some(entry.path);
    }
}

/// Counts an entry of the tree that the listing lacks.
fn add_missing(checked: &mut Checked, entry: &Entry)
    requires { checked.old.missing + 1 < 2 ^ 64 }
    ensures { checked.new ≡ with_missing checked.old entry.now }
{
    checked.missing += 1;
    keep_first(&mut checked.first, entry);
}

/// Counts an entry of the listing that the tree lacks.
fn add_extra(checked: &mut Checked, entry: &Entry)
    requires { checked.old.extra + 1 < 2 ^ 64 }
    ensures { checked.new ≡ with_extra checked.old entry.now }
{
    checked.extra += 1;
    keep_first(&mut checked.first, entry);
}

/// Counts the listing's entry at a path of the tree, where it differs from the tree's.
fn add_pair(checked: &mut Checked, entry: &Entry, listed: &Entry)
    requires { checked.old.changed + 1 < 2 ^ 64 }
    ensures { checked.new ≡ with_pair checked.old entry.now listed.now }
{
    if !entry.is_same(listed) {
        checked.changed += 1;
        keep_first(&mut checked.first, listed);
    }
}

/// Counts the entries of a listing before a path, which are extra, and gives the others.
fn pass<'a>(checked: &mut Checked, path: &Path, listing: &'a [Entry]) -> &'a [Entry]
    requires { checked.old.extra + length listing.now < 2 ^ 64 }
    ensures counted { checked.new ≡ passed path.now checked.old listing.now }
    ensures rest { result.now ≡ left path.now listing.now }
{
    let mut rest = listing;
    while let [listed, more @ ..] = rest {
        if listed.path >= *path {
            break;
        }
        add_extra(checked, listed);
        rest = more;
    }
    rest
}

/// Looks at an entry of the tree beside the first of a listing, which has none before it, and gives the listing
/// behind it.
fn meet<'a>(checked: &mut Checked, entry: &Entry, listing: &'a [Entry]) -> &'a [Entry]
    requires missing { checked.old.missing + 1 < 2 ^ 64 }
    requires changed { checked.old.changed + length listing.now < 2 ^ 64 }
    ensures counted { checked.new ≡ met entry.now checked.old listing.now }
    ensures rest { result.now ≡ listing_after entry.now listing.now }
{
    match listing {
        [listed, more @ ..] if listed.path == entry.path => {
            add_pair(checked, entry, listed);
            more
        }
        _ => {
            add_missing(checked, entry);
            listing
        }
    }
}

/// Counts the entries of a listing behind the last of the tree, which are extra.
fn pass_all(checked: &mut Checked, listing: &[Entry])
    requires { checked.old.extra + length listing.now < 2 ^ 64 }
    ensures { checked.new ≡ fold with_extra checked.old listing.now }
{
    for listed in listing {
        add_extra(checked, listed);
    }
}

/// How a tree differs from a listing: how many paths each has that the other lacks, how many stand in both with
/// entries that differ in some field, and the least of all these paths. It takes no memory.
pub fn check(tree: &Tree, listing: &[Entry]) -> Checked
    requires { IsListing listing.now }
    ensures { result ≡ checked tree.now listing.now }
{
    let _most = tree.len();
    let mut checked = Checked {
        missing: 0,
        extra: 0,
        changed: 0,
        first: None,
    };
    let mut rest = listing;
    for entry in tree.iter() {
        rest = pass(&mut checked, &entry.path, rest);
        rest = meet(&mut checked, &entry, rest);
    }
    pass_all(&mut checked, rest);
    checked
}
