//! Lines of the new file that stand one behind another, stored and sent by one call of the media: of a large file
//! nearly all operations are such, and a call of the system for each line would cost several times its bytes.
//!
//! They are at most 1,024 lines, of which one look-up tells that the cache holds none. The law is the table's, line by
//! line (`HasAdvanced`). Where the call fails, the line that it names is torn and the host has a dirty copy of it, as
//! where it was written alone. The task has gone further, but it has ended, and nobody sees that. The lines' words
//! stand in room of 64 KiB, which is taken when it is first needed; without that memory each line goes alone.

ghost use Rattle.std.specs.Prelude.{◌≡◌, ◌+◌, ◌<◌, ◌≤◌, IfErr, IsErrOf, OnOk, ℕ, length, true};
ghost use Rattle.fam_cache.specs.Operations.{SendsWithin};
ghost use Rattle.fam_commands.specs.Task.{op_of};
ghost use Rattle.fam_commands.specs.declared.phase.Phase.TheVariants as at;
ghost use Rattle.fam_machine.specs.Caches.{cell_at};
ghost use Rattle.fam_machine.specs.declared.cell.Cell.{Cell};
ghost use Rattle.fam_media.specs.Causes.{IsSteady};
ghost use Rattle.fam_run.specs.Operation.{said_of};
ghost use Rattle.fam_run.specs.Places.{KeepsPlaces, PlacesKept};
ghost use Rattle.fam_run.specs.Room.{WantsRoom};
ghost use Rattle.fam_run.specs.Runs.{HasAdvanced, HasRun, HasRunOff};
ghost use Rattle.fam_run.specs.TaskChange.{task_change};
ghost use Rattle.fam_tasks.specs.StoreRuns.{IsRow};
ghost use Rattle.fam_tasks.specs.declared.answer.Turn.TheVariants.{Go};

use crate::slot_run::has_lines;
use crate::storing::store_line;
use fam_base::{Line, LineNo};
use fam_cache::{HostCache, OperationFault};
use fam_media::Media;
use fam_tasks::{Task, Turn};

/// The most lines that are sent by one call: those of 64 KiB.
const MOST_LINES: u64 = 1024;

/// Stores and sends lines of the new file that stand one behind another, from this one on, as many as `lines` has, by one call.
/// The host holds none of them, and has room for one more line. `lines` is where their words are put.
fn store_run<M: Media>(
    cache: &mut HostCache,
    task: &mut Task,
    media: &mut M,
    first: LineNo,
    number: u64,
    lines: &mut [Line],
) -> Result<(), LineNo>
    requires lines { task.old.lines ≡ M.size media.old }
    requires fits { first.0 + length lines.old ≤ M.size media.old }
    requires room { 1 ≤ cache.old.spare }
    requires absent { (k : ℕ) → k < length lines.old → cell_at cache.old.lines (first.0 + k) ≡ Cell.Absent }
    requires due { task.old.phase ≡ at.StoreData number 0 }
    requires some { 0 < length lines.old }
    requires row { IsRow first.0 number (length lines.old) task.old }

    ensures stored { OnOk result (HasRun
        (task_change M.size M.state task.old task.new cache.old cache.new media.old media.new) Go) }
    ensures failed { IfErr result (HasRunOff
        (task_change M.size M.state task.old task.new cache.old cache.new media.old media.new)) }
    ensures places { OnOk result (KeepsPlaces task.old cache.old task.new cache.new) }
    ensures steady { IsSteady M.size M.state media.old media.new }
{
    // How many lines there are at most.
    let _ = media.lines();
    task.store_run(first, number, lines);
    match cache.put_run(media, first, lines) {
        Ok(()) => Ok(()),
        Err(failed) => Err(LineNo(first.0 + failed.done as u64)),
    }
}

/// Whether lines from this one on, of a row of so many, may be sent by one call: the host is known to hold none of them, there
/// is room in the cache for one more line, and room for their words, which is made in `lines`: it has as many. Not so where one
/// alone may be, or where memory lacks.
fn makes_run<M: Media>(
    cache: &HostCache,
    media: &M,
    first: LineNo,
    row: u64,
    lines: &mut Vec<Line>,
) -> bool
    requires within { first.0 < M.size media.now }
    ensures fits { result ≡ true → first.0 + length lines.new.items ≤ M.size media.now }
    ensures room { result ≡ true → 1 ≤ cache.now.spare }
    ensures absent { result ≡ true → (k : ℕ) → k < length lines.new.items
        → cell_at cache.now.lines (first.0 + k) ≡ Cell.Absent }
    ensures some { result ≡ true → 0 < length lines.new.items }
    ensures row { result ≡ true → length lines.new.items ≤ row }
{
    if !cache.has_room() {
        return false;
    }
    let left = media.lines() - first.0;
    let count = cache.absent_run(first, left.min(row)) as usize;
    count > 1 && has_lines(lines, count)
}

/// Stores all words of lines of the new file, of which the task stores word 0 of the first one next, and sends the lines: those
/// that stand one behind another by one call, where the host holds none of them, or else the first one alone, as `store_line`.
///
/// `lines` is room for their words, which is taken where it is missing; what it held is lost.
#[inline(always)]
pub(crate) fn store_lines<M: Media>(
    cache: &mut HostCache,
    task: &mut Task,
    media: &mut M,
    turn: &mut Turn,
    number: u64,
    lines: &mut Vec<Line>,
) -> Result<(), OperationFault>
    requires go { turn.old ≡ Go }
    requires lines { task.old.lines ≡ M.size media.old }
    requires asked { SendsWithin (op_of task.old) (M.size media.old) cache.old.lines }
    requires due { task.old.phase ≡ at.StoreData number 0 }

    ensures advanced { HasAdvanced
        (task_change M.size M.state task.old task.new cache.old cache.new media.old media.new) (said_of result turn.new) }
    ensures want { IsErrOf result OperationFault.OutOfMemory → WantsRoom task.old cache.old }
    ensures places { PlacesKept task.old cache.old task.new cache.new (said_of result turn.new) }
    ensures steady { IsSteady M.size M.state media.old media.new }
{
    let (first, row) = task.row_due(number, MOST_LINES);
    if !makes_run(cache, media, first, row, lines) {
        return store_line(cache, task, media, turn, number);
    }
    match store_run(cache, task, media, first, number, lines.as_mut_slice()) {
        Ok(()) => Ok(()),
        Err(line) => Err(OperationFault::MediaFault(line)),
    }
}
