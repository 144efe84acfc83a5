//! Lines of a slot that are loaded whole: of each line its drop and its eight loads by one read. Of a long log nearly
//! all operations are such.
//!
//! None of these changes memory's image, so they may be done in a row: a fault in a later line, or want of memory
//! there, leaves what those before it did. A line whose copy is dirty is left to the single operations, since its drop
//! sends it.

ghost use Rattle.std.specs.Prelude.{◌≡◌, ◌+◌, ◌<◌, IfErr, IfOk, IsErrOf, false, true};
ghost use Rattle.fam_format.specs.Layout.{geometry, slot_line};
ghost use Rattle.fam_commands.specs.declared.phase.Part.TheVariants as part;
ghost use Rattle.fam_commands.specs.declared.phase.Phase.TheVariants as at;
ghost use Rattle.fam_media.specs.Causes.{IsSteady};
ghost use Rattle.fam_cache.specs.Faults.{IfMediaFault};
ghost use Rattle.fam_cache.specs.Operations.{SendsWithin};
ghost use Rattle.fam_commands.specs.Task.{op_of};
ghost use Rattle.fam_tasks.specs.declared.answer.Turn.TheVariants.{Go};
ghost use Rattle.fam_run.specs.Led.{Advanced, HasBrokenOff, HasDone};
ghost use Rattle.fam_run.specs.Operation.{said_of};
ghost use Rattle.fam_run.specs.TaskChange.{task_change};
ghost use Rattle.fam_run.specs.Room.{LacksRoomWhole, WantsRoom};

use crate::checking::check_loaded;
use crate::operation::operate;
use crate::rows::{ROW_LINES, load_row, row_from};
use crate::slot_run::{has_lines, load_run};
use fam_base::Line;
use fam_cache::{CacheFault, HostCache, OperationFault};
use fam_media::Media;
use fam_tasks::{SlotDue, Task, Turn};

/// Drops the line of a slot that the task drops next, and loads all its words, and says whether it did. Where the host's
/// copy is dirty, nothing is done.
///
/// `MediaFault` names the line: it was dropped, and the task stands before its first word. `OutOfMemory` comes where the
/// cache has no room for one more line, and then nothing was done.
#[inline(always)]
fn load_line<M: Media>(
    cache: &mut HostCache,
    task: &mut Task,
    media: &mut M,
    due: SlotDue,
) -> Result<bool, OperationFault>
    requires lines { task.old.lines ≡ M.size media.old }
    requires due { task.old.phase ≡ at.Drop (part.Slot due.slot) due.line }
    requires count { due.lines ≡ (geometry task.old.params).lines }
    requires first { due.first ≡ slot_line task.old.params due.slot 0 }

    ensures loaded { IfOk result (λ loaded. loaded ≡ true → HasDone
        (task_change M.size M.state task.old task.new cache.old cache.new media.old media.new) Go) }
    ensures next { IfOk result (λ loaded. loaded ≡ true → due.line + 1 < due.lines
        → task.new.phase ≡ at.Drop (part.Slot due.slot) (due.line + 1)) }
    ensures params { IfOk result (λ loaded. loaded ≡ true → task.new.params ≡ task.old.params) }
    ensures failed { IfErr result (λ fault. IfMediaFault fault (HasBrokenOff
        (task_change M.size M.state task.old task.new cache.old cache.new media.old media.new))) }

    ensures other { IfOk result (λ loaded. loaded ≡ false → media.new ≡ media.old) }
    ensures other_cache { IfOk result (λ loaded. loaded ≡ false → cache.new ≡ cache.old) }
    ensures other_task { IfOk result (λ loaded. loaded ≡ false → task.new ≡ task.old) }

    ensures undone { IsErrOf result OperationFault.OutOfMemory → media.new ≡ media.old }
    ensures unchanged { IsErrOf result OperationFault.OutOfMemory → cache.new ≡ cache.old }
    ensures unmoved { IsErrOf result OperationFault.OutOfMemory → task.new ≡ task.old }
    ensures want { IsErrOf result OperationFault.OutOfMemory → LacksRoomWhole task.old cache.old }
    ensures image { (M.state media.new).image ≡ (M.state media.old).image }
    ensures steady { IsSteady M.size M.state media.old media.new }
{
    task.is_sound();
    let line = task.line_of_slot_due(due);
    match cache.renew_line(media, line) {
        Ok(None) => Ok(false),
        Ok(Some(words)) => {
            task.load_line_of_slot(due, line, &words);
            Ok(true)
        }
        Err(CacheFault::Failed) => {
            task.drop_line_of_slot(line);
            task.is_sound();
            Err(OperationFault::MediaFault(line))
        }
        Err(CacheFault::OutOfMemory) => Err(OperationFault::OutOfMemory),
    }
}

/// Drops and loads the lines of a slot from the one on that the task drops next, up to the slot's last one. It stops at a
/// line of which the host's copy is dirty, and behind the first one also where the cache has no room for the next. Where
/// the host's copy of the first one is dirty, one operation is done.
///
/// `MediaFault` names the line: those before it were loaded, it was dropped, and the task stands before its first word.
/// `OutOfMemory` comes where the cache has no room for the first of them, and then nothing was done.
#[inline(never)]
fn load_each<M: Media>(
    cache: &mut HostCache,
    task: &mut Task,
    media: &mut M,
    turn: &mut Turn,
    due: SlotDue,
) -> Result<(), OperationFault>
    requires go { turn.old ≡ Go }
    requires lines { task.old.lines ≡ M.size media.old }
    requires asked { SendsWithin (op_of task.old) (M.size media.old) cache.old.lines }
    requires due { task.old.phase ≡ at.Drop (part.Slot due.slot) due.line }
    requires below { due.line < due.lines }
    requires count { due.lines ≡ (geometry task.old.params).lines }
    requires first { due.first ≡ slot_line task.old.params due.slot 0 }

    ensures advanced { Advanced
        (task_change M.size M.state task.old task.new cache.old cache.new media.old media.new) (said_of result turn.new) }
    ensures want { IsErrOf result OperationFault.OutOfMemory → WantsRoom task.old cache.old }
    ensures steady { IsSteady M.size M.state media.old media.new }
{
    match load_line(cache, task, media, due) {
        Ok(true) => {}
        Ok(false) => return operate(cache, task, media, turn),
        Err(fault) => return Err(fault),
    }
    'lines: for line in due.line + 1..due.lines {
        let next = SlotDue {
            slot: due.slot,
            first: due.first,
            line,
            lines: due.lines,
        };
        match load_line(cache, task, media, next) {
            Ok(true) => {}
            Ok(false) => return Ok(()),
            Err(OperationFault::OutOfMemory) => return Ok(()),
            Err(OperationFault::MediaFault(failed)) => return Err(OperationFault::MediaFault(
                failed,
            )),
        }
    }
    Ok(())
}

/// Drops and loads the lines of a slot from the one on that the task drops next, up to the slot's last one: all of them by one
/// call of the media, where memory lacks no word of them, behind which the slot's words are looked at, and else as `load_each`.
/// Where an earlier task of the host found words in the slots that come next, those of many slots by one call (`load_row`).
/// `lines` is lent as room for their words.
///
/// `MediaFault` names the line: those before it were loaded, it was dropped, and the task stands before its first word.
/// `OutOfMemory` comes where the cache has no room for the first of them, and then nothing was done.
#[inline(always)]
pub(crate) fn load_slot<M: Media>(
    cache: &mut HostCache,
    task: &mut Task,
    media: &mut M,
    turn: &mut Turn,
    due: SlotDue,
    lines: &mut Vec<Line>,
) -> Result<(), OperationFault>
    requires go { turn.old ≡ Go }
    requires lines { task.old.lines ≡ M.size media.old }
    requires asked { SendsWithin (op_of task.old) (M.size media.old) cache.old.lines }
    requires due { task.old.phase ≡ at.Drop (part.Slot due.slot) due.line }
    requires below { due.line < due.lines }
    requires count { due.lines ≡ (geometry task.old.params).lines }
    requires first { due.first ≡ slot_line task.old.params due.slot 0 }

    ensures advanced { Advanced
        (task_change M.size M.state task.old task.new cache.old cache.new media.old media.new) (said_of result turn.new) }
    ensures want { IsErrOf result OperationFault.OutOfMemory → WantsRoom task.old cache.old }
    ensures steady { IsSteady M.size M.state media.old media.new }
{
    if due.line == 0 && due.lines <= ROW_LINES as u64 && has_lines(lines, ROW_LINES) {
        let row = row_from(cache, task, media, due);
        if row.1 > 0 {
            return load_row(cache, task, media, turn, due, row.0, &mut lines[..row.1]);
        }
        match load_run(cache, task, media, due, &mut lines[..due.lines as usize]) {
            Ok(true) => {
                check_loaded(task, turn);
                return Ok(());
            }
            Ok(false) => {}
            Err(line) => return Err(OperationFault::MediaFault(line)),
        }
    }
    load_each(cache, task, media, turn, due)
}
