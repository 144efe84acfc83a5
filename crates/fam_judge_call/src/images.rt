//! A history judged on the image of a media.

ghost use Rattle.std.specs.Prelude.{◌≡◌, ◌≤◌, IfErr, IfOk};
ghost use Rattle.fam_media.specs.Causes.{IsSteady};
ghost use Rattle.fam_media.specs.Outside.{IfModelled};
ghost use Rattle.fam_opening.specs.Opening.{IsOpenCaused};
ghost use Rattle.fam_verdict.specs.Verdicts.{Says};

use fam_media::Media;
use fam_opening::{OpenFault, Opened, open};
use fam_verdict::{Verdict, judge_on_damaged, judge_on_log};
use std::alloc::Global;

/// Judges a history's text on the image that a media holds, as it reads.
pub(crate) fn judge_on<M: Media>(
    alloc: Global,
    media: &mut M,
    history: &[u8],
) -> Result<Verdict, OpenFault>
    ensures verdict { IfOk result (λ verdict. IfModelled (M.state media.old).image (λ image. Says image history.now verdict)) }
    ensures cause { IfErr result (IsOpenCaused (M.size media.old) (M.state media.old).faults (M.state media.new).faults) }
    ensures same { (M.state media.new).image ≡ (M.state media.old).image }
    ensures steady { IsSteady M.size M.state media.old media.new }
{
    let lines = media.lines();
    let verdict = match open(alloc, media)? {
        Opened::Sound(log) => judge_on_log(alloc, lines, log, history)?,
        Opened::Damaged(given) => judge_on_damaged(alloc, lines, &given, history)?,
    };
    Ok(verdict)
}
