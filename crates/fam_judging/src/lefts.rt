//! What is left behind an answer, of what is settled and of what is known of its host.

ghost use Rattle.std.specs.Prelude.{◌≡◌, IfOk, None};
ghost use Rattle.fam_judging.specs.Lefts.{only};

use crate::candidate::{Settled, Track};
use crate::settled::copy_settled;
use fam_base::OutOfMemory;
use std::alloc::Global;

/// What is settled behind an answer, and what is known of its host's last command.
#[derive(Drop)]
pub(crate) struct Left {
    pub settled: Settled,
    pub track: Track,
}

/// At most two of them.
#[derive(Drop)]
pub(crate) struct Lefts {
    pub first: Option<Left>,
    pub second: Option<Left>,
}

/// None.
pub(crate) fn none() -> Lefts
    ensures first { result.first ≡ None }
    ensures second { result.second ≡ None }
{
    Lefts {
        first: None,
        second: None,
    }
}

/// What is settled stays, where the answer may stand.
pub(crate) fn kept(
    alloc: Global,
    stands: bool,
    settled: &Settled,
    track: Track,
) -> Result<Lefts, OutOfMemory>
    ensures { IfOk result (λ lefts. lefts ≡ only stands settled.now track) }
{
    if !stands {
        return Ok(none());
    }
    let settled = copy_settled(alloc, settled)?;
    Ok(Lefts {
        first: Some(Left { settled, track }),
        second: None,
    })
}

/// One, where there is one.
pub(crate) fn one(left: Option<Left>) -> Lefts
    ensures first { result.first ≡ left }
    ensures second { result.second ≡ None }
{
    Lefts {
        first: left,
        second: None,
    }
}
