//! Paths that follow one another in an order, shared by its copies.

ghost use Rattle.std.specs.Prelude.{◌≡◌, IfOk, IfErr};

use crate::paths::Paths;
use std::alloc::{AllocError, Global};
use std::marker::Model;
use std::rc::Rc;

/// Paths that several orders may have at once.
#[derive(Drop)]
pub(crate) struct Part {
    paths: Rc<Paths>,
}

impl Model for Part {
    ghost use Rattle.std.specs.Prelude.{ℕ, List};
    ghost use Rattle.std.specs.Coded.{coded_list, coded_ℕ};

    ghost Value = { List (List ℕ) };

    ghost coded = { coded_list (coded_list coded_ℕ) };

    ghost view = { λ p. p.paths.value };
}

impl Clone for Part {
    ghost is_clone = { λ part copy. copy ≡ part };

    fn clone(&self) -> Result<Part, AllocError> {
        let paths = self.paths.clone()?;
        Ok(Part { paths })
    }
}

impl Part {
    /// The same paths, to be shared from here on. If there is no memory, they come back.
    pub(crate) fn new(alloc: Global, paths: Paths) -> Result<Part, Paths>
        ensures part { IfOk result (λ part. part ≡ paths) }
        ensures back { IfErr result (λ back. back ≡ paths) }
    {
        match Rc::new(alloc, paths) {
            Ok(paths) => Ok(Part { paths }),
            Err(full) => Err(full.value),
        }
    }

    /// The paths.
    pub(crate) fn paths(&self) -> &Paths
        ensures { result.now ≡ self.now }
    {
        &self.paths
    }
}
