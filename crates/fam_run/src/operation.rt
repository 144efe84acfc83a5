//! One operation of a task, on its host's cache and the one memory.

ghost use Rattle.std.specs.Prelude.{◌≡◌, ◌≢◌, true, false, IsErrOf, None, OnErr, OnOk};
ghost use Rattle.fam_machine.specs.Operations.{IsWithin};
ghost use Rattle.fam_media.specs.Causes.{IsSteady};
ghost use Rattle.fam_cache.specs.Operations.{SendsWithin};
ghost use Rattle.fam_base.specs.declared.line.LineNo.{LineNo};
ghost use Rattle.fam_commands.specs.Task.{op_of};
ghost use Rattle.fam_commands.specs.Turns.{turn_of};
ghost use Rattle.fam_tasks.specs.declared.answer.Answer.TheVariants.{MediaFault};
ghost use Rattle.fam_tasks.specs.declared.answer.Turn.TheVariants.{Done, Go};
ghost use Rattle.fam_tasks.specs.Tells.{Keeps, Tells, WantsMemory, is_digest};
ghost use Rattle.fam_run.specs.Operation.{Operated, said_of};
ghost use Rattle.fam_run.specs.Places.{ReadyPlacesKept};
ghost use Rattle.fam_run.specs.Room.{LacksRoom};
ghost use Rattle.fam_run.specs.TaskChange.{task_change};

use crate::checking::check_slot;
use fam_base::OutOfMemory;
use fam_cache::{HostCache, OperationFault};
use fam_machine::Op;
use fam_media::Media;
use fam_tasks::{Due, Task, Turn};
use std::mem::replace;

/// Lets a value go. Of a large type that is taken apart here alone.
fn let_go<T: Drop>(_value: T) {}

/// Puts what a task says in the place of what it said before.
pub(crate) fn say(turn: &mut Turn, said: Turn)
    ensures { turn.new ≡ said }
{
    let_go(replace(turn, said));
}

/// Tells a task what an operation gave, and what it says then. It stands apart, since what a task says may be large, and
/// behind most operations it says nothing.
#[inline(never)]
fn take_word(task: &mut Task, word: Option<u64>, turn: &mut Turn)
    requires { is_digest (op_of task.old) ≡ false }
    ensures turn { Tells (turn_of task.old word) turn.new task.new }
    ensures kept { Keeps task.old (turn_of task.old word) task.new }
    ensures own { (line : LineNo) → turn.new ≢ Done (MediaFault line) }
{
    say(turn, task.feed(word));
}

/// Does a task's Digest, and what it says then. It stands apart too. Where no memory was found nothing was done.
#[inline(never)]
fn take_digest(task: &mut Task, turn: &mut Turn) -> Result<(), OutOfMemory>
    requires { is_digest (op_of task.old) ≡ true }
    ensures turn { OnOk result (Tells (turn_of task.old None) turn.new task.new) }
    ensures kept { OnOk result (Keeps task.old (turn_of task.old None) task.new) }
    ensures own { OnOk result ((line : LineNo) → turn.new ≢ Done (MediaFault line)) }
    ensures err { OnErr result (task.new ≡ task.old) }
    ensures want { OnErr result (WantsMemory task.old (turn_of task.old None)) }
{
    say(turn, task.digest()?);
    Ok(())
}

/// Does the next operation of a task that has not answered, and says what the task says of it.
///
/// `turn` is `Go` before, and behind it what the task says, where it says more than that it goes on.
///
/// `MediaFault` names the operation's line, and of a fence the one that it couldn't send: the operation was not done, and
/// the task still stands before it.
/// `OutOfMemory` comes where the cache has no room for one more line, or where a Digest finds no memory. Then nothing
/// was done. After either the operation may be tried again.
pub fn operate<M: Media>(
    cache: &mut HostCache,
    task: &mut Task,
    media: &mut M,
    turn: &mut Turn,
) -> Result<(), OperationFault>
    requires go { turn.old ≡ Go }
    requires lines { task.old.lines ≡ M.size media.old }
    requires asked { SendsWithin (op_of task.old) (M.size media.old) cache.old.lines }

    ensures operated { Operated
        (task_change M.size M.state task.old task.new cache.old cache.new media.old media.new) (said_of result turn.new) }
    ensures within { IsWithin task.old.lines (op_of task.old) }
    ensures undone { IsErrOf result OperationFault.OutOfMemory → media.new ≡ media.old }
    ensures unchanged { IsErrOf result OperationFault.OutOfMemory → cache.new ≡ cache.old }
    ensures want { IsErrOf result OperationFault.OutOfMemory → LacksRoom (op_of task.old) task.old cache.old }

    // An append that has its places keeps them, and finds memory.
    ensures places { ReadyPlacesKept task.old cache.old task.new cache.new (said_of result turn.new) }
    ensures steady { IsSteady M.size M.state media.old media.new }
{
    task.is_sound();
    match task.next() {
        Op::Digest => match task.due() {
            Due::Checked(slot) => check_slot(task, turn, slot),
            _ => match take_digest(task, turn) {
                Ok(()) => Ok(()),
                Err(_) => Err(OperationFault::OutOfMemory),
            },
        },
        op => {
            let word = cache.perform(media, op)?;
            if task.reads_on() {
                task.read_on(word);
            } else {
                take_word(task, word, turn);
            }
            Ok(())
        }
    }
}
