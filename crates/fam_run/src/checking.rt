//! The Digest of a slot: its words are looked at, and an entry joins those before it.

ghost use Rattle.std.specs.Prelude.{◌≡◌, ℕ, IsErrOf};
ghost use Rattle.fam_commands.specs.declared.phase.Phase.TheVariants as at;
ghost use Rattle.fam_commands.specs.Task.{op_of};
ghost use Rattle.fam_machine.specs.Caches.{Cache};
ghost use Rattle.fam_media.specs.States.{MediaState};
ghost use Rattle.fam_cache.specs.States.{CacheState};
ghost use Rattle.fam_tasks.specs.declared.answer.Answer.TheVariants.{BadEntry};
ghost use Rattle.fam_tasks.specs.declared.answer.Turn.TheVariants.{Done, Go};
ghost use Rattle.fam_run.specs.Checked.{IsChecked};
ghost use Rattle.fam_run.specs.Operation.{Operated, said_of};
ghost use Rattle.fam_run.specs.Room.{LacksRoom, WantsRoom};

use crate::operation::say;
use fam_cache::OperationFault;
use fam_format::Reason;
use fam_tasks::{Answer, Due, Task, Turn};

/// The answer that a slot is no entry. It stands apart, since it is rare, and an answer may be large.
#[inline(never)]
fn answer_bad(turn: &mut Turn, seq: u64, reason: Reason)
    ensures { turn.new ≡ Done (BadEntry seq reason) }
{
    say(turn, Turn::Done(Answer::BadEntry { seq, reason }));
}

/// Looks at the words of a slot, which is the Digest that comes next, and takes the turn with it. `OutOfMemory` comes where it
/// finds none, and then nothing was done.
#[inline(always)]
pub(crate) fn check_slot(task: &mut Task, turn: &mut Turn, slot: u64) -> Result<(), OperationFault>
    requires go { turn.old ≡ Go }
    requires due { task.old.phase ≡ at.Check slot }

    // Cache and media stay, whatever they are.
    ensures operated { (cache : Cache) (lines : ℕ) (media : MediaState) → Operated (record {
      task = task.old;
      next = task.new;
      old = cache;
      new = cache;
      lines = lines;
      media = record { old = media; new = media };
    }) (said_of result turn.new) }
    ensures want { (cache : CacheState) → IsErrOf result OperationFault.OutOfMemory → WantsRoom task.old cache }
    ensures lacks { (cache : CacheState) → IsErrOf result OperationFault.OutOfMemory
        → LacksRoom (op_of task.old) task.old cache }
{
    task.is_sound();
    match task.check_slot(slot) {
        Ok(None) => Ok(()),
        Ok(Some(reason)) => {
            answer_bad(turn, slot, reason);
            Ok(())
        }
        Err(_) => Err(OperationFault::OutOfMemory),
    }
}

/// As `check_slot`, of a task that has loaded all words of a slot. Where no memory is found, nothing is done, and the task
/// stands before it.
#[inline(always)]
pub(crate) fn check_loaded(task: &mut Task, turn: &mut Turn)
    requires go { turn.old ≡ Go }
    ensures { (cache : Cache) (lines : ℕ) (media : MediaState) → IsChecked (record {
      task = task.old;
      next = task.new;
      old = cache;
      new = cache;
      lines = lines;
      media = record { old = media; new = media };
    }) turn.new }
{
    if let Due::Checked(slot) = task.due() {
        task.is_sound();
        if let Ok(Some(reason)) = task.check_slot(slot) {
            answer_bad(turn, slot, reason);
        }
    }
}
