//! Copies of candidates, and candidates behind others.

ghost use Rattle.std.specs.Prelude.{◌≡◌, ◌++◌, ◌∷◌, [], IfOk, OnOk};

use crate::candidate::Candidate;
use crate::settled::copy_settled;
use crate::tracks::copy_tracks;
use fam_base::OutOfMemory;
use std::alloc::Global;

/// The same. The two share most of what is settled.
pub(crate) fn copy(alloc: Global, candidate: &Candidate) -> Result<Candidate, OutOfMemory>
    ensures settled { IfOk result (λ d. d.settled ≡ candidate.now.settled) }
    ensures tracks { IfOk result (λ d. d.tracks.items ≡ candidate.now.tracks.items) }
{
    let tracks = copy_tracks(&candidate.tracks)?;
    let settled = copy_settled(alloc, &candidate.settled)?;
    Ok(Candidate { settled, tracks })
}

/// Lets a candidate go.
pub(crate) fn let_go(_candidate: Candidate) {}

/// One candidate more.
pub(crate) fn push(out: &mut Vec<Candidate>, candidate: Candidate) -> Result<(), OutOfMemory>
    ensures { OnOk result (out.new.items ≡ out.old.items ++ candidate ∷ []) }
{
    match out.push(candidate) {
        Ok(()) => Ok(()),
        Err(refused) => {
            let_go(refused.value);
            Err(OutOfMemory)
        }
    }
}
