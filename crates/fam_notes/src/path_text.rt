//! Paths that take only the memory of their bytes.

ghost use Rattle.std.specs.Prelude.{◌≡◌, IfOk, IsTrue};
ghost use Rattle.fam_base.specs.Paths.{is_path};

use fam_base::{ByteText, OutOfMemory, PATH_LIMIT, Path};
use std::alloc::Global;
use std::marker::Model;

/// A path on the heap, in as many bytes as it has. A contract sees the list of its bytes.
#[derive(Drop)]
pub struct PathText {
    text: ByteText,
}

impl Model for PathText {
    ghost use Rattle.std.specs.Prelude.{List, ℕ, IsTrue};
    ghost use Rattle.fam_base.specs.Paths.{is_path};

    ghost Value = { List ℕ };

    ghost view = { λ p. p.text };

    ghost invariant = { λ p. IsTrue (is_path p.text) };
}

/// The path of these bytes, in its field.
#[tactic(auto, unfolding(fam_base::specs::Paths::is_path))]
fn path_of(bytes: &[u8]) -> Path
    requires { IsTrue (is_path bytes.now) }
    ensures { result ≡ bytes.now }
{
    let len = bytes.len();
    let mut field = [0; PATH_LIMIT];
    field[..len].copy_from_slice(bytes);
    Path::in_field(&field, len)
}

impl PathText {
    /// A copy of the path. `OutOfMemory` comes where there is no room for it.
    pub fn of(alloc: Global, path: &Path) -> Result<PathText, OutOfMemory>
        ensures { IfOk result (λ p. p ≡ path.now) }
    {
        match Vec::from_slice(alloc, path.bytes()) {
            Ok(bytes) => Ok(PathText {
                text: ByteText::new(bytes),
            }),
            Err(_) => Err(OutOfMemory),
        }
    }

    /// The path.
    pub fn to_path(&self) -> Path
        ensures { result ≡ self.now }
    {
        path_of(self.text.bytes())
    }
}
