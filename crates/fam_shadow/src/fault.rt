//! Why a shadow isn't written.

ghost use Rattle.std.specs.Prelude.{◌≡◌};
ghost use Rattle.fam_shadow.specs.declared.fault.ShadowFault.TheVariants as fault;

use fam_base::{NameText, OutOfMemory};

/// Why a shadow isn't written whole. A name is the printed form of a path.
#[derive(Drop)]
pub enum ShadowFault {
    /// At this name, the first one in byte order of the paths, a file stands where a directory is to be, or a directory
    /// where a file is to be. Nothing was changed.
    Clash(NameText),
    /// The folder failed at this name. What was written by then stands.
    ShadeFault(NameText),
    /// No memory was left. What was written by then stands.
    OutOfMemory,
}

impl From<OutOfMemory> for ShadowFault {
    ghost from_gives = { λ _ given. given ≡ fault.OutOfMemory };

    fn from(_full: OutOfMemory) -> ShadowFault {
        ShadowFault::OutOfMemory
    }
}
