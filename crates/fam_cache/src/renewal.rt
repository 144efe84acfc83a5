//! A line that is dropped and brought anew, where memory lacks no word of it: one look-up of its place and one write there.
//! Of a long log nearly all operations are such.

ghost use Rattle.std.specs.Prelude.{◌≡◌, ◌+◌, ◌/◌, ◌<◌, ◌≤◌, IfOk, IfSome, OnErr, IsErrOf, None};
ghost use Rattle.fam_base.specs.Image.{eight, line_at};
ghost use Rattle.fam_machine.specs.declared.cell.Cell.{Cell};
ghost use Rattle.fam_machine.specs.Caches.{cell_at, with_cell};
ghost use Rattle.fam_machine.specs.OneLine.{IsDirty};
ghost use Rattle.fam_media.specs.Causes.{HasCause, IsSteady, Rose};
ghost use Rattle.fam_media.specs.Outside.{IfModelled};
ghost use Rattle.fam_cache.specs.Blocks.{HasNone, IsBlockOf, IsKept, lines_of};

use crate::blocks::{Blocks, drop_copy, is_dirty_at, make_room, put_copy, set_copy};
use crate::fault::CacheFault;
use fam_base::{Line, LineNo};
use fam_machine::Cell;
use fam_media::{Failed, Media};

/// Of a line whose block is there. Where the read fails the line is absent.
#[inline(always)]
pub(crate) fn renew_in_place<M: Media>(
    places: &mut Blocks,
    at: usize,
    media: &mut M,
    line: LineNo,
) -> Result<Option<Line>, Failed>
    requires kept { IsKept places.old }
    requires stands { IsBlockOf places.old.blocks.items at (line.0 / 16) }
    requires within { line.0 < M.size media.old }

    ensures clean { IfOk result (λ renewed. IfSome renewed (λ words.
        ¬ (IsDirty (cell_at (lines_of places.old) line.0)))) }
    ensures words { IfOk result (λ renewed. IfSome renewed (λ words.
        IfModelled (M.state media.old).image (λ image. eight words ≡ line_at image line.0))) }
    ensures cache { IfOk result (λ renewed. IfSome renewed (λ words.
        lines_of places.new ≡ with_cell line.0 (Cell.Clean (eight words)) (lines_of places.old))) }
    ensures other { IfOk result (λ renewed. renewed ≡ None → places.new ≡ places.old) }
    ensures same { IfOk result (λ renewed. renewed ≡ None → media.new ≡ media.old) }
    ensures dirty { IfOk result (λ renewed. renewed ≡ None →
        IsDirty (cell_at (lines_of places.old) line.0)) }

    ensures failed_clean { OnErr result (¬ (IsDirty (cell_at (lines_of places.old) line.0))) }
    ensures failed_lines { OnErr result
        (lines_of places.new ≡ with_cell line.0 Cell.Absent (lines_of places.old)) }
    ensures cause { HasCause (M.state media.old).faults (M.state media.new).faults result }

    ensures image { (M.state media.new).image ≡ (M.state media.old).image }
    ensures size { M.size media.new ≡ M.size media.old }
    ensures kept { IsKept places.new }
    ensures room { places.new.room ≡ places.old.room }
{
    if is_dirty_at(places, at, line.0) {
        return Ok(None);
    }
    match media.read(line) {
        Ok(words) => {
            set_copy(places, at, line.0, Cell::Clean(words));
            Ok(Some(words))
        }
        Err(fault) => {
            drop_copy(places, Some(at), line.0);
            Err(fault)
        }
    }
}

/// Of a line whose block isn't there. Room is taken first.
#[inline(always)]
pub(crate) fn bring_block<M: Media>(
    places: &mut Blocks,
    media: &mut M,
    line: LineNo,
) -> Result<Line, CacheFault>
    requires kept { IsKept places.old }
    requires gap { HasNone places.old.blocks.items (line.0 / 16) }
    requires within { line.0 < M.size media.old }

    ensures absent { cell_at (lines_of places.old) line.0 ≡ Cell.Absent }
    ensures words { IfOk result (λ words.
        IfModelled (M.state media.old).image (λ image. eight words ≡ line_at image line.0)) }
    ensures cache { IfOk result (λ words.
        lines_of places.new ≡ with_cell line.0 (Cell.Clean (eight words)) (lines_of places.old)) }

    ensures failed { IsErrOf result CacheFault.Failed → Rose (M.state media.old).faults (M.state media.new).faults }
    ensures failed_lines { OnErr result
        (lines_of places.new ≡ with_cell line.0 Cell.Absent (lines_of places.old)) }
    ensures full { IsErrOf result CacheFault.OutOfMemory → places.old.room ≡ 0 }
    ensures undone { IsErrOf result CacheFault.OutOfMemory → media.new ≡ media.old }
    ensures unmoved { IsErrOf result CacheFault.OutOfMemory → places.new.room ≡ places.old.room }
    ensures unchanged { IsErrOf result CacheFault.OutOfMemory → lines_of places.new ≡ lines_of places.old }

    ensures image { (M.state media.new).image ≡ (M.state media.old).image }
    ensures steady { IsSteady M.size M.state media.old media.new }
    ensures kept { IsKept places.new }
    ensures one { places.old.room ≤ places.new.room + 1 }
    ensures kept_room { OnErr result (places.new.room ≡ places.old.room) }
{
    let Ok(()) = make_room(places, None) else {
        return Err(CacheFault::OutOfMemory);
    };
    match media.read(line) {
        Ok(words) => {
            put_copy(places, None, line.0, Cell::Clean(words));
            Ok(words)
        }
        Err(_) => Err(CacheFault::Failed),
    }
}
