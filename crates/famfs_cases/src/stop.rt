//! Why a case file isn't run to its end.

ghost use Rattle.std.specs.Prelude.{◌≡◌};
ghost use Rattle.famfs_cases.specs.declared.stop.Stop.TheVariants as stop;

use fam_base::OutOfMemory;
use std::alloc::AllocError;

/// Why a case file isn't run to its end.
#[derive(Clone, Copy, Debug, PartialEq, Eq)]
pub enum Stop {
    /// A word at this line and column, both from 1, doesn't fit, or is missing there.
    BadCase { line: u64, column: u64 },
    /// A run gave something else than a case expects. The runner's report says what.
    Unexpected,
    /// No memory is left.
    OutOfMemory,
}

impl From<OutOfMemory> for Stop {
    ghost from_gives = { λ _ stopped. stopped ≡ stop.OutOfMemory };

    fn from(_full: OutOfMemory) -> Stop {
        Stop::OutOfMemory
    }
}

impl From<AllocError> for Stop {
    ghost from_gives = { λ _ stopped. stopped ≡ stop.OutOfMemory };

    fn from(_full: AllocError) -> Stop {
        Stop::OutOfMemory
    }
}
