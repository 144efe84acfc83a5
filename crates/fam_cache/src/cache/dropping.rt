//! A line that is sent to memory by itself, whole or its masked words.

ghost use Rattle.std.specs.Prelude.{◌≡◌, ◌<◌, IsOk, OnOk, OnErr, is_err, true};
ghost use Rattle.std.specs.Option.{option_map};
ghost use Rattle.fam_machine.specs.declared.cell.Cell.{Cell};
ghost use Rattle.fam_machine.specs.Caches.{cell_at, line_changed, with_cell};
ghost use Rattle.fam_machine.specs.OneLine.{IsDirty, failed_leak, failed_send, leaked, sent};
ghost use Rattle.fam_media.specs.Causes.{HasCause};
ghost use Rattle.fam_media.specs.Plans.{count_if};
ghost use Rattle.fam_media.specs.Outside.{IfModelled};
ghost use Rattle.fam_cache.specs.Effects.{FailsTo};
ghost use Rattle.fam_cache.specs.Blocks.{IsKept, lines_of};

use crate::blocks::{Blocks, copy, drop_copy, seek};
use crate::copies::{leak_copy, send_copy};
use fam_base::{LineNo, Mask};
use fam_media::{Failed, Media};

/// Sends a dirty line to memory, and makes the line absent. Returns the place to remember.
pub(crate) fn drop_line<M: Media>(
    places: &mut Blocks,
    last: usize,
    media: &mut M,
    line: LineNo,
) -> Result<usize, Failed>
    requires kept { IsKept places.old }
    requires within { line.0 < M.size media.old }

    ensures cache { OnOk result
        (lines_of places.new ≡ with_cell line.0 Cell.Absent (lines_of places.old)) }
    ensures memory { OnOk result ((M.state media.new).image ≡ option_map
        (line_changed line.0 (λ memory. sent memory (cell_at (lines_of places.old) line.0)))
        (M.state media.old).image) }
    ensures err { OnErr result (lines_of places.new ≡ lines_of places.old) }
    ensures torn { OnErr result (IfModelled (M.state media.old).image (λ image. FailsTo line.0
        (λ through memory. failed_send through memory (cell_at (lines_of places.old) line.0))
        image (M.state media.new).image)) }

    ensures idle { ¬ (IsDirty (cell_at (lines_of places.old) line.0)) → IsOk result }
    ensures same { ¬ (IsDirty (cell_at (lines_of places.old) line.0)) → media.new ≡ media.old }
    ensures cause { HasCause (M.state media.old).faults (M.state media.new).faults result }
    ensures counted { M.exact ≡ true → (M.state media.new).faults ≡ count_if (is_err result) (M.state media.old).faults }
    ensures size { M.size media.new ≡ M.size media.old }
    ensures kept { IsKept places.new }
    ensures room { places.new.room ≡ places.old.room }
{
    let spot = seek(places, last, line.0);
    let held = copy(places, spot, line.0);
    match send_copy(held, media, line) {
        Ok(()) => {
            drop_copy(places, spot, line.0);
            Ok(spot.unwrap_or(last))
        }
        Err(fault) => Err(fault),
    }
}

/// Sends masked words of a dirty line to memory. Returns the place to remember.
pub(crate) fn leak_line<M: Media>(
    places: &Blocks,
    last: usize,
    media: &mut M,
    line: LineNo,
    mask: Mask,
) -> Result<usize, Failed>
    requires kept { IsKept places.now }
    requires within { line.0 < M.size media.old }

    ensures memory { OnOk result ((M.state media.new).image ≡ option_map
        (line_changed line.0 (λ memory. leaked mask.0 memory (cell_at (lines_of places.now) line.0)))
        (M.state media.old).image) }
    ensures torn { OnErr result (IfModelled (M.state media.old).image (λ image. FailsTo line.0
        (λ through memory. failed_leak mask.0 through memory (cell_at (lines_of places.now) line.0))
        image (M.state media.new).image)) }

    ensures idle { ¬ (IsDirty (cell_at (lines_of places.now) line.0)) → IsOk result }
    ensures same { ¬ (IsDirty (cell_at (lines_of places.now) line.0)) → media.new ≡ media.old }
    ensures cause { HasCause (M.state media.old).faults (M.state media.new).faults result }
    ensures counted { M.exact ≡ true → (M.state media.new).faults ≡ count_if (is_err result) (M.state media.old).faults }
    ensures size { M.size media.new ≡ M.size media.old }
{
    let spot = seek(places, last, line.0);
    let held = copy(places, spot, line.0);
    match leak_copy(held, media, line, mask) {
        Ok(()) => Ok(spot.unwrap_or(last)),
        Err(fault) => Err(fault),
    }
}
