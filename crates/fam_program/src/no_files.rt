//! A shelf on which no file is.

ghost use Rattle.std.specs.Prelude.{◌≡◌, Some};
ghost use Rattle.std.specs.FinMap as map;

use fam_media::{Failed, Shelf};

/// No files, for a run that reads none.
#[derive(Drop)]
pub(crate) struct NoFiles;

impl Shelf for NoFiles {
    ghost state = { λ _. record { files = Some map.empty; faults = 0; shorts = 0 } };

    fn size(&mut self, _name: &str) -> Result<Option<u64>, Failed> {
        Ok(None)
    }

    fn read_at(&mut self, _name: &str, _offset: u64, _into: &mut [u8]) -> Result<usize, Failed> {
        Ok(0)
    }
}
