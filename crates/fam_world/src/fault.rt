//! Why a call did nothing, and what came of a step.

ghost use Rattle.std.specs.Prelude.{◌≡◌};
ghost use Rattle.fam_world.specs.Counted.{told_of};

use fam_base::OutOfMemory;
use fam_journal::Refusal;

/// Why a call did nothing.
#[derive(Drop)]
pub enum WorldFault {
    /// The call is refused, and the journal says so.
    Refused(Refusal),
    /// No memory was left. But for `steps` and `finish` nothing was done.
    OutOfMemory,
}

/// What came of a step, or of several.
#[derive(Clone, Copy)]
pub enum Moved {
    /// The task goes on.
    Going,
    /// The task has answered, or the media failed in the operation: the host has no task now.
    Answered,
}

/// What was done, or that there was no memory for it.
pub(crate) fn or_fault<T>(done: Result<T, OutOfMemory>) -> Result<T, WorldFault>
    ensures { result ≡ told_of done }
{
    match done {
        Ok(done) => Ok(done),
        Err(_) => Err(WorldFault::OutOfMemory),
    }
}
