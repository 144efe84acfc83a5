//! Names and descriptions of entries.

ghost use Rattle.std.specs.Prelude.{◌≡◌, ◌++◌, ◌∷◌, IfOk, [], true};
ghost use Rattle.fam_base.specs.Paths.{is_path};
ghost use Rattle.fam_shadow.specs.Shadows as spec;

use fam_base::{Entry, NameText, OutOfMemory, escape, put_bytes};
use fam_tree::print_entry;
use std::alloc::Global;
use std::str::from_utf8;

/// The first line of a description.
const FORM: &[u8] = b"famfs shadow 1\n";

/// The name under which an entry stands: the printed form of its path.
#[tactic(auto, using(crate::proofs::OwnNames::name_is_text))]
pub(crate) fn name_of(alloc: Global, entry: &Entry) -> Result<NameText, OutOfMemory>
    ensures name { IfOk result (λ name. name ≡ spec.name_of entry.now) }
    ensures path { is_path entry.now.path ≡ true }
{
    let mut bytes = Vec::new(alloc);
    escape(entry.path.bytes(), &mut bytes)?;
    let Ok(name) = from_utf8(bytes.as_slice()) else {
        unreachable!()
    };
    NameText::new(alloc, name)
}

/// A file's description: the line `famfs shadow 1`, and the file's line of a listing.
#[tactic(auto, unfolding(crate::specs::Shadows::description))]
pub(crate) fn description(alloc: Global, entry: &Entry) -> Result<Vec<u8>, OutOfMemory>
    ensures { IfOk result (λ text. text.items ≡ spec.description entry.now) }
{
    let line = print_entry(alloc, entry)?;
    let mut text = Vec::new(alloc);
    put_bytes(FORM, &mut text)?;
    put_bytes(line.as_slice(), &mut text)?;
    put_bytes(b"\n", &mut text)?;
    Ok(text)
}
