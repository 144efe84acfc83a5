//! The directories along a path. fam_outcomes' `specs/Programs.antt` has them.

ghost use Rattle.std.specs.Prelude.{◌≡◌, ◌++◌, ◌∷◌, [], IfOk, OnOk};
ghost use Rattle.fam_outcomes.specs.Programs.{path_prefixes};

use fam_base::{OutOfMemory, Path};
use std::alloc::Global;

/// Adds a path.
fn put(path: Path, into: &mut Vec<Path>) -> Result<(), OutOfMemory>
    ensures { OnOk result (into.new.items ≡ into.old.items ++ path ∷ []) }
{
    match into.push(path) {
        Ok(()) => Ok(()),
        Err(_) => Err(OutOfMemory),
    }
}

/// The paths of the directories along a path, the shortest first, and last the path itself.
pub fn prefixes(alloc: Global, path: &Path) -> Result<Vec<Path>, OutOfMemory>
    ensures { IfOk result (λ paths. paths.items ≡ path_prefixes path.now) }
{
    let bytes = path.bytes();
    let mut paths = Vec::new(alloc);
    'bytes: for i in 0..bytes.len() {
        if bytes[i] == b'/' {
            let Ok(prefix) = Path::read(&bytes[..i]) else {
                unreachable!()
            };
            put(prefix, &mut paths)?;
        }
    }
    put(*path, &mut paths)?;
    Ok(paths)
}
