//! What a fence sends: the lines that were asked for.
//!
//! `write_back` can't fail, so no list of asked lines is kept, which would take memory. But the first and the last line
//! that may be asked are (`AskedWithin`): a fence begins at the first one's block and finds the next by its area. A
//! look at every line would make an append on a long log dearer. Asked lines of a block that stand one behind another,
//! such as a slot's, are sent by one call.

ghost use Rattle.std.specs.Prelude.{ℕ, ◌≡◌, ◌+◌, ◌/◌, ◌%◌, ◌<◌, ◌≤◌, IsOk, IfOk, IfErr, OnOk, OnErr, is_err, true};
ghost use Rattle.fam_machine.specs.Caches.{asked_lines, cell_at};
ghost use Rattle.fam_machine.specs.OneLine.{IsAsked};
ghost use Rattle.fam_machine.specs.declared.op.Op.{Op};
ghost use Rattle.fam_machine.specs.Cuts.{HasFailed, IsMachine};
ghost use Rattle.fam_machine.specs.Operations.{machine, operated};
ghost use Rattle.fam_media.specs.Causes.{HasCause};
ghost use Rattle.fam_media.specs.Outside.{IfModelled};
ghost use Rattle.fam_media.specs.Plans.{count_if};
ghost use Rattle.fam_cache.specs.Operations.{CleansSome, cleaned_lines};
ghost use Rattle.fam_cache.specs.Blocks.{AskedWithin, IsBlockOf, IsKept, lines_of};
ghost use Rattle.fam_cache.specs.Runs.{over};
ghost use Rattle.fam_cache.specs.SentRuns.{BreaksOff, SendsRun, cleaned_run};

use crate::blocks::{Blocks, asked_run, clean_line, next_asked};
use crate::fault::FenceFailed;
use fam_base::LineNo;
use fam_media::Media;

/// Makes so many lines of a block clean, from this one on.
fn clean_lines(places: &mut Blocks, at: usize, line: u64, count: usize)
    requires kept { IsKept places.old }
    requires stands { IsBlockOf places.old.blocks.items at (line / 16) }
    requires within { line % 16 + count ≤ 16 }
    ensures kept { IsKept places.new }
    ensures cache { lines_of places.new ≡ cleaned_run line count (lines_of places.old) }
    ensures room { places.new.room ≡ places.old.room }
{
    for k in 0..count {
        clean_line(places, at, line + k as u64);
    }
}

/// Sends the lines that were asked for from this one on, as far as they stand one behind another in its block, by one call,
/// and says how many these are. They are clean then. Where the media fails at one of them, those before it were sent.
fn send_run<M: Media>(
    places: &mut Blocks,
    at: usize,
    media: &mut M,
    first: LineNo,
) -> Result<u64, FenceFailed>
    requires kept { IsKept places.old }
    requires stands { IsBlockOf places.old.blocks.items at (first.0 / 16) }
    requires asked { IsAsked (cell_at (lines_of places.old) first.0) }
    requires within { (line : ℕ) → IsAsked (cell_at (lines_of places.old) line) → line < M.size media.old }

    ensures sent { IfOk result (λ count. SendsRun first.0 count
        (over (M.state media.old).image (lines_of places.old)) (over (M.state media.new).image (lines_of places.new))) }
    ensures some { IfOk result (λ count. 0 < count) }
    ensures inside { IfOk result (λ count. first.0 + count ≤ M.size media.old) }
    ensures failed { IfErr result (λ fault. BreaksOff first.0 fault.0.0
        (over (M.state media.old).image (lines_of places.old)) (over (M.state media.new).image (lines_of places.new))) }
    ensures cause { HasCause (M.state media.old).faults (M.state media.new).faults result }
    ensures counted { M.exact ≡ true → (M.state media.new).faults ≡ count_if (is_err result) (M.state media.old).faults }
    ensures size { M.size media.new ≡ M.size media.old }
    ensures kept { IsKept places.new }
    ensures room { places.new.room ≡ places.old.room }
{
    let lines = asked_run(places, at, first.0);
    let count = lines.len();
    match media.write_run(first, lines) {
        Ok(()) => {
            clean_lines(places, at, first.0, count);
            Ok(count as u64)
        }
        Err(failed) => {
            clean_lines(places, at, first.0, failed.done);
            Err(FenceFailed(LineNo(first.0 + failed.done as u64)))
        }
    }
}

/// Sends each line that was asked for, in the order of their numbers, those of one block that stand one behind another by one
/// call: none of them lies before `first` or behind `last`. Where the media fails, those before that line were sent.
pub(crate) fn send_asked<M: Media>(
    places: &mut Blocks,
    media: &mut M,
    first: u64,
    last: u64,
) -> Result<(), FenceFailed>
    requires kept { IsKept places.old }
    requires range { AskedWithin first last (lines_of places.old) }
    requires within { (line : ℕ) → IsAsked (cell_at (lines_of places.old) line) → line < M.size media.old }

    ensures operated { OnOk result (IfModelled (M.state media.old).image (λ image. IsMachine
        (operated Op.Fence (machine image (lines_of places.old)))
        (M.state media.new).image (lines_of places.new))) }
    ensures cache { OnOk result (lines_of places.new
        ≡ cleaned_lines (asked_lines (lines_of places.old)) (lines_of places.old)) }
    ensures failed { IfErr result (λ fault. IfModelled (M.state media.old).image (λ image. HasFailed Op.Fence
        (machine image (lines_of places.old)) fault.0 (M.state media.new).image (lines_of places.new))) }
    ensures err { OnErr result (CleansSome (lines_of places.old) (lines_of places.new)) }
    ensures line { IfErr result (λ fault. IsAsked (cell_at (lines_of places.old) fault.0.0)) }

    ensures idle { ((line : ℕ) → ¬ (IsAsked (cell_at (lines_of places.old) line))) → IsOk result }
    ensures same { ((line : ℕ) → ¬ (IsAsked (cell_at (lines_of places.old) line))) →
        media.new ≡ media.old }
    ensures cause { HasCause (M.state media.old).faults (M.state media.new).faults result }
    ensures counted { M.exact ≡ true → (M.state media.new).faults ≡ count_if (is_err result) (M.state media.old).faults }
    ensures size { M.size media.new ≡ M.size media.old }
    ensures kept { IsKept places.new }
    ensures room { places.new.room ≡ places.old.room }
{
    // How many lines there are at most.
    let _ = media.lines();
    let mut from = first;
    while let Some((at, number)) = next_asked(places, from, last) {
        match send_run(places, at, media, LineNo(number)) {
            Ok(count) => from = number + count,
            Err(fault) => return Err(fault),
        }
    }
    Ok(())
}
