//! Lines of a file that is compared which stand one behind another, dropped and brought by one call of the media and compared
//! at once: of a large file nearly all operations are such.
//!
//! They are lines of one block of the cache, of which the host holds none. So those behind the first one that differs are
//! dropped again, and the cache holds what the table's drops and loads leave. The law is the table's, line by line
//! (`Advanced`). Where the call fails, those before the line that it names are compared, and that line is dropped.

ghost use Rattle.std.specs.Prelude.{◌≡◌, ◌+◌, ◌^◌, ◌<◌, ◌≤◌, IsErrOf, List, length, ℕ};
ghost use Rattle.fam_cache.specs.BroughtRuns.{LacksNone, brought_run};
ghost use Rattle.fam_cache.specs.Operations.{SendsWithin};
ghost use Rattle.fam_commands.specs.Task.{op_of};
ghost use Rattle.fam_machine.specs.Caches.{Cache};
ghost use Rattle.fam_media.specs.Causes.{IsSteady};
ghost use Rattle.fam_tasks.specs.CompareRuns.{IsComparedRow};
ghost use Rattle.fam_tasks.specs.Rest.{IsComparedLine};
ghost use Rattle.fam_tasks.specs.declared.answer.Turn.TheVariants.{Go};
ghost use Rattle.fam_run.specs.Led.{Advanced};
ghost use Rattle.fam_run.specs.Operation.{said_of};
ghost use Rattle.fam_run.specs.Room.{WantsRoom};
ghost use Rattle.fam_run.specs.Runs.{AreAbsent};
ghost use Rattle.fam_run.specs.TaskChange.{task_change};

use crate::comparing::compare_line;
use crate::slot_run::has_lines;
use fam_base::{Line, LineNo};
use fam_cache::{HostCache, OperationFault};
use fam_media::Media;
use fam_tasks::{MOST_COMPARED, Task, Turn};

/// Drops lines that were brought, of which the host held none before: those from place `from` of a run on.
fn drop_behind(cache: &mut HostCache, first: LineNo, from: usize, end: usize)
    requires within { first.0 + end < 2 ^ 64 }
    requires few { from ≤ end }
    requires clean { LacksNone cache.old.lines first.0 end }
    ensures { (lines : List (List ℕ)) (before : Cache) → AreAbsent before first.0 end
        → cache.old.lines ≡ brought_run first.0 lines end before → cache.new.lines ≡ brought_run first.0 lines from before }
{
    let mut at = end;
    'lines: while at > from {
        at -= 1;
        cache.drop_clean(LineNo(first.0 + at as u64));
    }
}

/// Drops lines of a file that is compared, of which the host holds none, and brings them by one call, and compares them. Where
/// they aren't those of one block, or there is no room for them, the first one is compared alone, as by `compare_line`.
fn compare_run<M: Media>(
    cache: &mut HostCache,
    task: &mut Task,
    media: &mut M,
    turn: &mut Turn,
    first: LineNo,
    lines: &mut [Line],
) -> Result<(), OperationFault>
    requires go { turn.old ≡ Go }
    requires lines { task.old.lines ≡ M.size media.old }
    requires asked { SendsWithin (op_of task.old) (M.size media.old) cache.old.lines }
    requires due { IsComparedLine first task.old }
    requires row { IsComparedRow first.0 (length lines.old) task.old }
    requires fits { first.0 + length lines.old ≤ M.size media.old }
    requires absent { AreAbsent cache.old.lines first.0 (length lines.old) }
    requires some { 0 < length lines.old }
    requires few { length lines.old ≤ MOST_COMPARED }

    ensures advanced { Advanced
        (task_change M.size M.state task.old task.new cache.old cache.new media.old media.new) (said_of result turn.new) }
    ensures want { IsErrOf result OperationFault.OutOfMemory → WantsRoom task.old cache.old }
    ensures steady { IsSteady M.size M.state media.old media.new }
{
    // How many lines there are at most.
    let _ = media.lines();
    task.is_sound();
    match cache.bring_run(media, first, lines) {
        Ok(true) => match task.compare_run(first, lines, lines.len(), turn) {
            Some(compared) => {
                drop_behind(cache, first, compared, lines.len());
                Ok(())
            }
            None => Ok(()),
        },
        Ok(false) => compare_line(cache, task, media, turn, first),
        Err(failed) => match task.compare_run(first, lines, failed.done, turn) {
            Some(compared) => {
                drop_behind(cache, first, compared, failed.done);
                Ok(())
            }
            None => {
                let line = LineNo(first.0 + failed.done as u64);
                task.is_sound();
                task.drop_compared(line);
                task.is_sound();
                Err(OperationFault::MediaFault(line))
            }
        },
    }
}

/// As `compare_line`, of as many lines as stand one behind another in a block of the cache where the host holds none of them,
/// before the last line of the file.
///
/// `lines` is room for their words, which is taken where it is missing; what it held is lost.
#[inline(always)]
pub(crate) fn compare_lines<M: Media>(
    cache: &mut HostCache,
    task: &mut Task,
    media: &mut M,
    turn: &mut Turn,
    first: LineNo,
    lines: &mut Vec<Line>,
) -> Result<(), OperationFault>
    requires go { turn.old ≡ Go }
    requires lines { task.old.lines ≡ M.size media.old }
    requires asked { SendsWithin (op_of task.old) (M.size media.old) cache.old.lines }
    requires due { IsComparedLine first task.old }

    ensures advanced { Advanced
        (task_change M.size M.state task.old task.new cache.old cache.new media.old media.new) (said_of result turn.new) }
    ensures want { IsErrOf result OperationFault.OutOfMemory → WantsRoom task.old cache.old }
    ensures steady { IsSteady M.size M.state media.old media.new }
{
    let most = MOST_COMPARED as u64;
    let row = task.compared_row(first, most - first.0 % most);
    let left = media.lines() - first.0;
    let count = cache.absent_run(first, left.min(row)) as usize;
    if count > 1 && has_lines(lines, count) {
        return compare_run(cache, task, media, turn, first, lines.as_mut_slice());
    }
    compare_line(cache, task, media, turn, first)
}
