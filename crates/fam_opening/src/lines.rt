//! Single lines of a media, and its superblock.

ghost use Rattle.std.specs.Prelude.{◌≡◌, ◌*◌, ◌<◌, ◌≤◌, IfErr, IfOk};
ghost use Rattle.fam_base.specs.Image.{line_at};
ghost use Rattle.fam_format.specs.Params.{SoundParams};
ghost use Rattle.fam_format.specs.Reading.{super_in};
ghost use Rattle.fam_media.specs.Causes.{IsSteady};
ghost use Rattle.fam_media.specs.Outside.{IfModelled};
ghost use Rattle.fam_rules.specs.Place.{line_bytes};
ghost use Rattle.fam_opening.specs.Opening.{IsOpenCaused};

use crate::fault::OpenFault;
use fam_base::{Line, LineNo, Params};
use fam_format::{LINE_BYTES, SuperFault};
use fam_media::Media;
use fam_super::{MAGIC, read_super};

/// Reads a line.
pub(crate) fn read_line<M: Media>(media: &mut M, line: LineNo) -> Result<Line, OpenFault>
    requires within { line.0 < M.size media.old }
    ensures words { IfOk result (λ words. IfModelled (M.state media.old).image (λ image. words ≡ line_at image line.0)) }
    ensures cause { IfErr result (IsOpenCaused (M.size media.old) (M.state media.old).faults (M.state media.new).faults) }
    ensures same { (M.state media.new).image ≡ (M.state media.old).image }
    ensures steady { IsSteady M.size M.state media.old media.new }
{
    match media.read(line) {
        Ok(words) => Ok(words),
        Err(_) => Err(OpenFault::MediaFault(line.0)),
    }
}

/// Reads a line, where there is one. An image has zeros behind its last line.
fn read_line_or_zeros<M: Media>(media: &mut M, line: LineNo) -> Result<Line, OpenFault>
    ensures words { IfOk result (λ words. IfModelled (M.state media.old).image (λ image. words ≡ line_at image line.0)) }
    ensures cause { IfErr result (IsOpenCaused (M.size media.old) (M.state media.old).faults (M.state media.new).faults) }
    ensures same { (M.state media.new).image ≡ (M.state media.old).image }
    ensures steady { IsSteady M.size M.state media.old media.new }
{
    if line.0 < media.lines() {
        return read_line(media, line);
    }
    Ok([0; 8])
}

/// What the superblock tells: its parameters, or its first fault. Lines 1 and 2 are read behind the magic alone.
#[tactic(auto, unfolding(fam_format::specs::Super::super_of))]
pub(crate) fn read_superblock<M: Media>(
    media: &mut M,
) -> Result<Result<Params, SuperFault>, OpenFault>
    ensures found { IfOk result (λ found. IfModelled (M.state media.old).image (λ image.
        super_in (line_at image) (line_bytes * M.size media.old) ≡ found)) }
    ensures sound { IfOk result (λ found. IfOk found (λ p. SoundParams p)) }
    ensures device { IfOk result (λ found. IfOk found (λ p. p.device ≤ line_bytes * M.size media.old)) }
    ensures cause { IfErr result (IsOpenCaused (M.size media.old) (M.state media.old).faults (M.state media.new).faults) }
    ensures same { (M.state media.new).image ≡ (M.state media.old).image }
    ensures steady { IsSteady M.size M.state media.old media.new }
{
    let magic = read_line_or_zeros(media, LineNo(0))?;
    if magic[0] != MAGIC {
        return Ok(Err(SuperFault::NoSuper(magic[0])));
    }
    let first = read_line_or_zeros(media, LineNo(1))?;
    let second = read_line_or_zeros(media, LineNo(2))?;
    Ok(read_super(&[magic, first, second], LINE_BYTES * media.lines()))
}
