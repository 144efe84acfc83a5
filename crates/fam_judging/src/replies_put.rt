//! Candidates behind an answer.

ghost use Rattle.std.specs.Prelude.{OnOk};
ghost use Rattle.fam_judging.specs.AnsweredHosts.{AllPut, ArePutBehind, IsPutBehind};

use crate::candidate::Candidate;
use crate::candidates::push;
use crate::lefts::{Left, Lefts};
use crate::tracks::{copy_tracks, put_track};
use fam_base::OutOfMemory;

/// A candidate with what is left of a host's command is put behind others.
fn put(
    candidate: &Candidate,
    at: usize,
    left: Left,
    out: &mut Vec<Candidate>,
) -> Result<(), OutOfMemory>
    ensures { OnOk result (IsPutBehind candidate.now at left out.old.items out.new.items) }
{
    let mut tracks = copy_tracks(&candidate.tracks)?;
    put_track(&mut tracks, at, &left.track);
    push(
        out,
        Candidate {
            settled: left.settled,
            tracks,
        },
    )
}

/// So it is where something is left.
fn put_some(
    candidate: &Candidate,
    at: usize,
    left: Option<Left>,
    out: &mut Vec<Candidate>,
) -> Result<(), OutOfMemory>
    ensures { OnOk result (ArePutBehind candidate.now at left out.old.items out.new.items) }
{
    match left {
        Some(left) => put(candidate, at, left, out),
        None => Ok(()),
    }
}

/// All candidates that keep what is left of a host's command are put behind others.
pub(crate) fn put_all(
    candidate: &Candidate,
    at: usize,
    lefts: Lefts,
    out: &mut Vec<Candidate>,
) -> Result<(), OutOfMemory>
    ensures { OnOk result (AllPut candidate.now at lefts out.old.items out.new.items) }
{
    put_some(candidate, at, lefts.first, out)?;
    put_some(candidate, at, lefts.second, out)
}
