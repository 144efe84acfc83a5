//! Why an image isn't opened.

ghost use Rattle.std.specs.Prelude.{◌≡◌};
ghost use Rattle.fam_opening.specs.declared.fault.OpenFault.TheVariants as fault;

use fam_base::OutOfMemory;

/// Why an image isn't opened.
#[derive(Clone, Copy, Debug, PartialEq, Eq)]
pub enum OpenFault {
    /// The media failed at this line.
    MediaFault(u64),
    OutOfMemory,
}

impl From<OutOfMemory> for OpenFault {
    ghost from_gives = { λ _ given. given ≡ fault.OutOfMemory };

    fn from(_full: OutOfMemory) -> OpenFault {
        OpenFault::OutOfMemory
    }
}
