//! An image that was opened.

ghost use Rattle.std.specs.Prelude.{◌≡◌, ◌*◌, ◌≤◌, Err, IfErr, IfOk, Ok};
ghost use Rattle.fam_base.specs.Image.{line_at};
ghost use Rattle.fam_format.specs.Layout.{least_lines};
ghost use Rattle.fam_format.specs.Params.{SoundParams};
ghost use Rattle.fam_format.specs.Reading as read;
ghost use Rattle.fam_format.specs.Reading.{gate_in, reading, super_in};
ghost use Rattle.fam_judging.specs.Candidates.{IsGivenImage};
ghost use Rattle.fam_media.specs.Causes.{IsSteady};
ghost use Rattle.fam_media.specs.Outside.{IfModelled};
ghost use Rattle.fam_rules.specs.Place.{line_bytes};
ghost use Rattle.fam_opening.specs.Opened.{IsOpened};
ghost use Rattle.fam_opening.specs.Opening.{IsOpenCaused};

use crate::damage::{bad_header, bad_slot, bad_superblock, few_lines};
use crate::fault::OpenFault;
use crate::found::{Found, found_by};
use crate::lines::{read_line, read_superblock};
use crate::slots::report_slots;
use crate::sound::hold_all;
use fam_base::{LineNo, Params};
use fam_format::{GATE_LINE, LEAST_LINES, LogFault, Reason, SuperFault};
use fam_judging::GivenImage;
use fam_media::Media;
use fam_replay::read_behind;
use fam_settled::Log;
use std::alloc::Global;

/// The state in which a history begins.
#[derive(Drop)]
pub enum Opened {
    /// A file system: its entries are settled, each with the bytes that its file has, and none pends.
    Sound(Log),
    /// An image that is damaged, or none.
    Damaged(GivenImage),
}

/// What the gate says.
fn read_gate<M: Media>(media: &mut M) -> Result<u64, OpenFault>
    requires within { least_lines ≤ M.size media.old }
    ensures gate { IfOk result (λ gate. IfModelled (M.state media.old).image (λ image. gate_in (line_at image) ≡ gate)) }
    ensures cause { IfErr result (IsOpenCaused (M.size media.old) (M.state media.old).faults (M.state media.new).faults) }
    ensures same { (M.state media.new).image ≡ (M.state media.old).image }
    ensures steady { IsSteady M.size M.state media.old media.new }
{
    Ok(read_line(media, LineNo(GATE_LINE))?[0])
}

/// An image whose superblock has a fault.
fn open_without_superblock<M: Media>(
    media: &mut M,
    fault: SuperFault,
) -> Result<GivenImage, OpenFault>
    requires superblock { IfModelled (M.state media.old).image (λ image. super_in (line_at image) (line_bytes * M.size media.old) ≡ Err fault) }
    ensures given { IfOk result (λ given. IfModelled (M.state media.old).image (λ image. IsGivenImage image given)) }
    ensures cause { IfErr result (IsOpenCaused (M.size media.old) (M.state media.old).faults (M.state media.new).faults) }
    ensures same { (M.state media.new).image ≡ (M.state media.old).image }
    ensures steady { IsSteady M.size M.state media.old media.new }
{
    let lines = media.lines();
    if lines < LEAST_LINES {
        return Ok(few_lines(lines, fault));
    }
    let gate = read_gate(media)?;
    Ok(bad_superblock(gate, fault))
}

/// An image whose header or gate has a fault.
fn open_with_header<M: Media>(
    media: &mut M,
    params: &Params,
    fault: LogFault,
) -> Result<GivenImage, OpenFault>
    requires within { least_lines ≤ M.size media.old }
    requires superblock { IfModelled (M.state media.old).image (λ image. super_in (line_at image) (line_bytes * M.size media.old) ≡ Ok params.now) }
    requires header { IfModelled (M.state media.old).image (λ image. reading image ≡ read.BadHeader fault) }
    ensures given { IfOk result (λ given. IfModelled (M.state media.old).image (λ image. IsGivenImage image given)) }
    ensures cause { IfErr result (IsOpenCaused (M.size media.old) (M.state media.old).faults (M.state media.new).faults) }
    ensures same { (M.state media.new).image ≡ (M.state media.old).image }
    ensures steady { IsSteady M.size M.state media.old media.new }
{
    let gate = read_gate(media)?;
    Ok(bad_header(gate, params, fault))
}

/// An image whose least bad slot is this one. All slots are read.
fn open_with_slot<M: Media>(
    alloc: Global,
    media: &mut M,
    params: &Params,
    seq: u64,
    reason: Reason,
) -> Result<GivenImage, OpenFault>
    requires within { least_lines ≤ M.size media.old }
    requires sound { SoundParams params.now }
    requires device { params.now.device ≤ line_bytes * M.size media.old }
    requires superblock { IfModelled (M.state media.old).image (λ image. super_in (line_at image) (line_bytes * M.size media.old) ≡ Ok params.now) }
    requires slot { IfModelled (M.state media.old).image (λ image. reading image ≡ read.BadSlot seq reason) }
    ensures given { IfOk result (λ given. IfModelled (M.state media.old).image (λ image. IsGivenImage image given)) }
    ensures cause { IfErr result (IsOpenCaused (M.size media.old) (M.state media.old).faults (M.state media.new).faults) }
    ensures same { (M.state media.new).image ≡ (M.state media.old).image }
    ensures steady { IsSteady M.size M.state media.old media.new }
{
    let gate = read_gate(media)?;
    let report = report_slots(alloc, media, params, gate)?;
    Ok(bad_slot(gate, params, seq, reason, report))
}

/// An image whose superblock has these parameters.
fn open_behind<M: Media>(alloc: Global, media: &mut M, params: &Params) -> Result<Opened, OpenFault>
    requires within { least_lines ≤ M.size media.old }
    requires sound { SoundParams params.now }
    requires device { params.now.device ≤ line_bytes * M.size media.old }
    requires superblock { IfModelled (M.state media.old).image (λ image. super_in (line_at image) (line_bytes * M.size media.old) ≡ Ok params.now) }
    ensures opened { IfOk result (λ o. IfModelled (M.state media.old).image (λ image. IsOpened image o)) }
    ensures cause { IfErr result (IsOpenCaused (M.size media.old) (M.state media.old).faults (M.state media.new).faults) }
    ensures same { (M.state media.new).image ≡ (M.state media.old).image }
    ensures steady { IsSteady M.size M.state media.old media.new }
{
    let fault = match read_behind(alloc, media, params) {
        Ok(plan) => return Ok(Opened::Sound(hold_all(alloc, media, &plan)?)),
        Err(fault) => fault,
    };
    let given = match found_by(fault) {
        Found::Superblock(fault) => open_without_superblock(media, fault)?,
        Found::Header(fault) => open_with_header(media, params, fault)?,
        Found::Slot(seq, reason) => open_with_slot(alloc, media, params, seq, reason)?,
        Found::Unread(fault) => return Err(fault),
    };
    Ok(Opened::Damaged(given))
}

/// Reads an image as the state in which a history begins on it. Out of memory may come of any image.
pub fn open<M: Media>(alloc: Global, media: &mut M) -> Result<Opened, OpenFault>
    ensures opened { IfOk result (λ o. IfModelled (M.state media.old).image (λ image. IsOpened image o)) }
    ensures cause { IfErr result (IsOpenCaused (M.size media.old) (M.state media.old).faults (M.state media.new).faults) }
    ensures same { (M.state media.new).image ≡ (M.state media.old).image }
    ensures steady { IsSteady M.size M.state media.old media.new }
{
    match read_superblock(media)? {
        Ok(params) => open_behind(alloc, media, &params),
        Err(fault) => Ok(Opened::Damaged(open_without_superblock(media, fault)?)),
    }
}
