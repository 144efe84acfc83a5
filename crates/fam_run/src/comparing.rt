//! A line of a file that is compared, all of it: its drop and the loads of its eight words by one read. Of a verify
//! nearly all operations are such.
//!
//! To drop a line that the host didn't store into asks nothing of memory, and once it is brought anew its loads can't
//! fail. So both are done and the words compared, with none held by the task in between.

ghost use Rattle.std.specs.Prelude.{◌≡◌, IsErrOf};
ghost use Rattle.fam_media.specs.Causes.{IsSteady};
ghost use Rattle.fam_cache.specs.Operations.{SendsWithin};
ghost use Rattle.fam_commands.specs.Task.{op_of};
ghost use Rattle.fam_tasks.specs.Rest.{IsComparedLine};
ghost use Rattle.fam_tasks.specs.declared.answer.Turn.TheVariants.{Go};
ghost use Rattle.fam_run.specs.Led.{Advanced};
ghost use Rattle.fam_run.specs.Operation.{said_of};
ghost use Rattle.fam_run.specs.Room.{WantsRoom};
ghost use Rattle.fam_run.specs.TaskChange.{task_change};

use crate::operation::operate;
use fam_base::LineNo;
use fam_cache::{CacheFault, HostCache, OperationFault};
use fam_media::Media;
use fam_tasks::{Task, Turn};

/// Drops the line of a file that is compared which the task drops next, loads its words, and compares them. Where the
/// host's copy is dirty, one operation is done.
///
/// `MediaFault` names the line: it was dropped, and the task stands before its first load. `OutOfMemory` comes where the
/// cache has no room for one more line, and then nothing was done.
#[inline(always)]
pub(crate) fn compare_line<M: Media>(
    cache: &mut HostCache,
    task: &mut Task,
    media: &mut M,
    turn: &mut Turn,
    line: LineNo,
) -> Result<(), OperationFault>
    requires go { turn.old ≡ Go }
    requires lines { task.old.lines ≡ M.size media.old }
    requires asked { SendsWithin (op_of task.old) (M.size media.old) cache.old.lines }
    requires due { IsComparedLine line task.old }

    ensures advanced { Advanced
        (task_change M.size M.state task.old task.new cache.old cache.new media.old media.new) (said_of result turn.new) }
    ensures want { IsErrOf result OperationFault.OutOfMemory → WantsRoom task.old cache.old }
    ensures steady { IsSteady M.size M.state media.old media.new }
{
    task.is_sound();
    match cache.renew_line(media, line) {
        Ok(None) => operate(cache, task, media, turn),
        Ok(Some(words)) => {
            task.compare_whole(line, &words, turn);
            Ok(())
        }
        Err(CacheFault::Failed) => {
            task.drop_compared(line);
            task.is_sound();
            Err(OperationFault::MediaFault(line))
        }
        Err(CacheFault::OutOfMemory) => Err(OperationFault::OutOfMemory),
    }
}
