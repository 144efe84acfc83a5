//! A line of the new file that is stored whole: its eight stores and its sending by one write, with no read before it.
//! Of a creat and a copy nearly all operations are such.
//!
//! The table's first store would bring the line, only for all its words to be overwritten. The law is the table's
//! (`HasDone`, `HasBrokenOff`). Room for the copy is taken first, so want of it changes nothing; and where the write
//! fails the copy is there, dirty. A read in which the media could have failed isn't made: no clause says that a fault
//! must come.

ghost use Rattle.std.specs.Prelude.{◌≡◌, IsErrOf};
ghost use Rattle.fam_media.specs.Causes.{IsSteady};
ghost use Rattle.fam_cache.specs.Operations.{SendsWithin};
ghost use Rattle.fam_commands.specs.declared.phase.Phase.TheVariants as at;
ghost use Rattle.fam_commands.specs.Task.{op_of};
ghost use Rattle.fam_tasks.specs.declared.answer.Turn.TheVariants.{Go};
ghost use Rattle.fam_run.specs.Led.{Advanced};
ghost use Rattle.fam_run.specs.Operation.{said_of};
ghost use Rattle.fam_run.specs.Places.{PlacesKept};
ghost use Rattle.fam_run.specs.Room.{WantsRoom};
ghost use Rattle.fam_run.specs.TaskChange.{task_change};

use crate::operation::operate;
use fam_cache::{CacheFault, HostCache, OperationFault};
use fam_media::Media;
use fam_tasks::{Task, Turn};

/// Stores all words of a line of the new file, of which the task stores word 0 next, and sends the line. Where the cache
/// holds the line, one operation is done.
///
/// `MediaFault` names the line: its words are stored and not sent, and the task stands before the sending. `OutOfMemory`
/// comes where the cache has no room for one more line, and then nothing was done.
#[inline(always)]
pub(crate) fn store_line<M: Media>(
    cache: &mut HostCache,
    task: &mut Task,
    media: &mut M,
    turn: &mut Turn,
    number: u64,
) -> Result<(), OperationFault>
    requires go { turn.old ≡ Go }
    requires lines { task.old.lines ≡ M.size media.old }
    requires asked { SendsWithin (op_of task.old) (M.size media.old) cache.old.lines }
    requires due { task.old.phase ≡ at.StoreData number 0 }

    ensures advanced { Advanced
        (task_change M.size M.state task.old task.new cache.old cache.new media.old media.new) (said_of result turn.new) }
    ensures want { IsErrOf result OperationFault.OutOfMemory → WantsRoom task.old cache.old }
    ensures places { PlacesKept task.old cache.old task.new cache.new (said_of result turn.new) }
    ensures steady { IsSteady M.size M.state media.old media.new }
{
    task.is_sound();
    let due = task.line_due(number);
    match cache.put_line(media, due.0, &due.1) {
        Ok(true) => {
            task.store_line(due.0, &due.1);
            task.is_sound();
            task.read_on(None);
            Ok(())
        }
        Ok(false) => operate(cache, task, media, turn),
        Err(CacheFault::Failed) => {
            task.store_line(due.0, &due.1);
            task.is_sound();
            Err(OperationFault::MediaFault(due.0))
        }
        Err(CacheFault::OutOfMemory) => Err(OperationFault::OutOfMemory),
    }
}
