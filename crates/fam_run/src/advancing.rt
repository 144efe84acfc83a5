//! What comes next of a task, as a whole: the lines of a slot, lines of a file, or one operation.
//!
//! One question, `due`, tells which of these comes next, so no calls are tried one behind another. What comes of it is
//! a `Turn`, which nearly always says only that the task goes on. So a turn is lent, and `Go` is written and looked at
//! in place: handed back by value it would be copied some twenty times a slot.

ghost use Rattle.std.specs.Prelude.{◌≡◌, ◌⊎◌, ◌<◌, IsErrOf, OnErr, OnOk};
ghost use Rattle.fam_media.specs.Causes.{IsSteady};
ghost use Rattle.fam_cache.specs.Operations.{SendsWithin};
ghost use Rattle.fam_commands.specs.FirstStore.{IsFirstStore};
ghost use Rattle.fam_commands.specs.Task.{op_of};
ghost use Rattle.fam_tasks.specs.declared.answer.Turn.TheVariants.{Go};
ghost use Rattle.fam_run.specs.Runs.{HasAdvanced};
ghost use Rattle.fam_run.specs.Operation.{said_of};
ghost use Rattle.fam_run.specs.Places.{HasPlaces, PlacesKept, PlacesMade, append_places};
ghost use Rattle.fam_run.specs.Room.{WantsRoom};
ghost use Rattle.fam_run.specs.TaskChange.{task_change};

use crate::checking::check_slot;
use crate::comparing_run::compare_lines;
use crate::operation::operate;
use crate::slots::load_slot;
use crate::storing_run::store_lines;
use fam_base::{Line, OutOfMemory};
use fam_cache::{HostCache, OperationFault};
use fam_media::Media;
use fam_tasks::{Due, Task, Turn};

/// The places that the lines of an append want of its host's cache beside those of its slot: one for the line of its file
/// at hand, and one for the gate.
const OTHER_PLACES: u64 = 2;

/// Makes places in a host's cache for all lines of an append, where its first store comes next.
#[inline(always)]
fn make_places(cache: &mut HostCache, task: &Task) -> Result<(), OutOfMemory>
    ensures lines { cache.new.lines ≡ cache.old.lines }
    ensures err { OnErr result (cache.new ≡ cache.old) }
    ensures first { OnErr result (IsFirstStore task.now) }
    ensures few { OnErr result (cache.old.spare < append_places task.now.params) }
    ensures other { (IsFirstStore task.now → ⊥) → cache.new ≡ cache.old }
    ensures ready { OnOk result (IsFirstStore task.now ⊎ HasPlaces task.now cache.old → HasPlaces task.now cache.new) }
{
    if !task.stores_first() {
        return Ok(());
    }
    cache.reserve(task.slot_lines() + OTHER_PLACES)
}

/// As `advance`, of a task for which places are made.
#[inline(always)]
fn go_on<M: Media>(
    cache: &mut HostCache,
    task: &mut Task,
    media: &mut M,
    turn: &mut Turn,
    lines: &mut Vec<Line>,
) -> Result<(), OperationFault>
    requires go { turn.old ≡ Go }
    requires lines { task.old.lines ≡ M.size media.old }
    requires asked { SendsWithin (op_of task.old) (M.size media.old) cache.old.lines }

    ensures advanced { HasAdvanced
        (task_change M.size M.state task.old task.new cache.old cache.new media.old media.new) (said_of result turn.new) }
    ensures want { IsErrOf result OperationFault.OutOfMemory → WantsRoom task.old cache.old }
    ensures places { PlacesKept task.old cache.old task.new cache.new (said_of result turn.new) }
    ensures steady { IsSteady M.size M.state media.old media.new }
{
    match task.due() {
        Due::Slot(due) => load_slot(cache, task, media, turn, due, lines),
        Due::Checked(slot) => check_slot(task, turn, slot),
        Due::Stored(number) => store_lines(cache, task, media, turn, number, lines),
        Due::Compared(line) => compare_lines(cache, task, media, turn, line, lines),
        Due::Other => operate(cache, task, media, turn),
    }
}

/// Goes on with a task that has not answered, and says what it says of the last operation: it does all operations on the
/// lines of a slot that come next, or on a line of a file, by one call of the media a line, or on lines of the new file that
/// stand one behind another, by one call for all, and else the next operation, as `operate` does. So it does where the host's
/// copy is dirty, or holds any copy of a line that is to be stored.
///
/// Before the first store of an append it makes places in the cache for all lines that the append stores.
///
/// `turn` is `Go` before, and behind them what the task says with the last one. It is lent, since what a task says may be large
/// and it mostly says nothing. `lines` is lent as room for the words of lines that are sent by one call; it takes none before.
///
/// `MediaFault` names the line: the operations before the one that failed were done. `OutOfMemory` comes where the cache
/// has no room for one more line, or for an append's, or where a Digest finds no memory. Then nothing was done.
#[inline(always)]
pub fn advance<M: Media>(
    cache: &mut HostCache,
    task: &mut Task,
    media: &mut M,
    turn: &mut Turn,
    lines: &mut Vec<Line>,
) -> Result<(), OperationFault>
    requires go { turn.old ≡ Go }
    requires lines { task.old.lines ≡ M.size media.old }
    requires asked { SendsWithin (op_of task.old) (M.size media.old) cache.old.lines }

    ensures advanced { HasAdvanced
        (task_change M.size M.state task.old task.new cache.old cache.new media.old media.new) (said_of result turn.new) }
    ensures want { IsErrOf result OperationFault.OutOfMemory → WantsRoom task.old cache.old }

    // An append has its places from its first store on, and finds memory.
    ensures places { PlacesMade task.old cache.old task.new cache.new (said_of result turn.new) }
    ensures steady { IsSteady M.size M.state media.old media.new }
{
    match make_places(cache, task) {
        Ok(()) => go_on(cache, task, media, turn, lines),
        Err(_) => Err(OperationFault::OutOfMemory),
    }
}
