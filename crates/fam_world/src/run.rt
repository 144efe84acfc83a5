//! Operations of a host's task: so many of them, or all up to its answer.
//!
//! So many of them stop at their count, which may be within a line. So they leave the lines of slots and files, which
//! `run_up` does whole, to single operations, and do the rest of a line at once where seven more are wanted.

ghost use Rattle.std.specs.Prelude.{◌≡◌, ◌<◌, Err, IfSome, None, Ok, OnErr, OnOk, Some, is_some, true, vec_capacity, vec_len};
ghost use Rattle.fam_commands.specs.FirstStore.{IsUnstored};
ghost use Rattle.fam_media.specs.Outside.{IfModelled};
ghost use Rattle.fam_tasks.specs.declared.answer.Turn.TheVariants.{Go};
ghost use Rattle.fam_journal.specs.CallRecords.{TaskFits};
ghost use Rattle.fam_journal.specs.View.{HostView};
ghost use Rattle.fam_run.specs.Operation.{said_of};
ghost use Rattle.fam_run.specs.Shows.{OnlyReads};
ghost use Rattle.fam_world.specs.Concluded.{ShownBy};
ghost use Rattle.fam_world.specs.Counted.{HostStepsSay, RunsUp, host_standing, moved_up, task_left, task_standing};
ghost use Rattle.fam_world.specs.Steps.{CacheFits};
ghost use Rattle.fam_world.specs.Turns.{IsNoted, task_note};
ghost use Rattle.fam_world.specs.View.{host_view, kept_in, note_view, notes_view};

use crate::concluding::shed;
use crate::fault::Moved;
use crate::hosts::{Host, MOST_HOSTS, let_go, retire};
use crate::notes::{add, make_room};
use fam_base::{LineNo, OutOfMemory};
use fam_cache::{HostCache, OperationFault};
use fam_journal::HostId;
use fam_media::Media;
use fam_notes::Note;
use fam_run::{advance, operate, operate_cached};
use fam_tasks::{Answer, Kept, Replica, Task, TaskNote, Turn};
use std::alloc::Global;
use std::mem::replace;

/// A note of a host's task.
fn note_of(host: HostId, note: TaskNote) -> Note
    ensures { note_view result ≡ task_note host.0 note }
{
    match note {
        TaskNote::Mark => Note::Mark { host },
        TaskNote::Found(n) => Note::Found { host, n },
        TaskNote::Writes(seq, entry) => Note::Writes { host, seq, entry },
    }
}

/// Notes what a host's task says, for which there is room, and says whether the task is over. `turn` is `Go` again. It stands
/// apart from the loop, which mostly has nothing to note, since it moves what may be large.
#[inline(never)]
fn note_said(journal: &mut Vec<Note>, host: HostId, turn: &mut Turn) -> Moved
    requires room { vec_len journal.old < vec_capacity journal.old }
    ensures noted { IsNoted host.0 (Ok turn.old) (notes_view journal.old.items) (notes_view journal.new.items) (Ok result) }
    ensures quiet { turn.old ≡ Go → journal.new ≡ journal.old }
    ensures go { turn.new ≡ Go }
{
    match replace(turn, Turn::Go) {
        Turn::Go => Moved::Going,
        Turn::Note(note) => {
            add(journal, note_of(host, note));
            Moved::Going
        }
        Turn::Done(answer) => {
            add(journal, Note::Answered { host, answer });
            Moved::Answered
        }
    }
}

/// Notes that the media failed at a line, for which there is room. It stands apart too.
#[inline(never)]
fn note_fault(journal: &mut Vec<Note>, host: HostId, line: LineNo)
    requires room { vec_len journal.old < vec_capacity journal.old }
    ensures noted { IsNoted host.0 (Err (OperationFault.MediaFault line)) (notes_view journal.old.items)
        (notes_view journal.new.items) (Ok Moved.Answered) }
{
    let answer = Answer::MediaFault(line);
    add(journal, Note::Answered { host, answer });
}

/// Notes what came of operations of a host's task, for which there is room, and says whether the task is over. Where it goes
/// on, `turn` is `Go` again.
#[inline(always)]
fn note_turn(
    journal: &mut Vec<Note>,
    host: HostId,
    advanced: Result<(), OperationFault>,
    turn: &mut Turn,
) -> Result<Moved, OutOfMemory>
    requires room { vec_len journal.old < vec_capacity journal.old }
    ensures noted { IsNoted host.0 (said_of advanced turn.old) (notes_view journal.old.items)
        (notes_view journal.new.items) result }
    ensures quiet { said_of advanced turn.old ≡ Ok Go → journal.new ≡ journal.old }
    ensures go { result ≡ Ok Moved.Going → turn.new ≡ Go }
{
    match advanced {
        Ok(()) => match turn {
            Turn::Go => Ok(Moved::Going),
            _ => Ok(note_said(journal, host, turn)),
        },
        Err(OperationFault::MediaFault(line)) => {
            note_fault(journal, host, line);
            Ok(Moved::Answered)
        }
        Err(OperationFault::OutOfMemory) => Err(OutOfMemory),
    }
}

/// Does so many operations of a host's task, or fewer where it answers. Those on a line that the host holds come in a row.
/// Where no memory was found those before stand.
fn run_most<M: Media>(
    cache: &mut HostCache,
    task: &mut Task,
    journal: &mut Vec<Note>,
    media: &mut M,
    host: HostId,
    most: u64,
) -> Result<Moved, OutOfMemory>
    requires fits { task.old.lines ≡ M.size media.old }
    requires cached { CacheFits (M.size media.old) cache.old }
    ensures says { (view : HostView) → HostStepsSay host.0 (M.size media.old) most
        (task_standing M.state media.old view (Some task.old) task.old.kept cache.old (notes_view journal.old.items))
        (task_standing M.state media.new view (task_left result (Some task.new)) task.new.kept cache.new
        (notes_view journal.new.items)) result }
    ensures undone { most ≡ 1 → OnErr result (media.new ≡ media.old) }
    ensures size { M.size media.new ≡ M.size media.old }
{
    let mut turn = Turn::Go;
    let mut done = 0;
    'operations: while done < most {
        if make_room(journal).is_err() {
            let_go(turn);
            return Err(OutOfMemory);
        }
        match note_turn(
            journal,
            host,
            operate(cache, task, media, &mut turn),
            &mut turn,
        ) {
            Ok(Moved::Going) => {
                done += 1;
                done += operate_cached(cache, task, most - done);
            }
            Ok(Moved::Answered) => {
                let_go(turn);
                return Ok(Moved::Answered);
            }
            Err(_) => {
                let_go(turn);
                return Err(OutOfMemory);
            }
        }
    }
    let_go(turn);
    Ok(Moved::Going)
}

/// Does operations of a host's task up to its answer. Where no memory was found those before stand; but where nothing of
/// the task was stored at first, and its host's cache had nothing to send, memory is as it was then.
///
/// Where it `forgets`, the task only reads, and nobody looks at its host's cache behind it: that forgets lines on the way, and
/// what is told is told of one that has all. Both ways are one loop, compiled once, so that `advance` becomes part of it.
#[inline(never)]
pub(crate) fn run_up<M: Media>(
    alloc: Global,
    cache: &mut HostCache,
    task: &mut Task,
    journal: &mut Vec<Note>,
    media: &mut M,
    host: HostId,
    forgets: bool,
) -> Result<(), OutOfMemory>
    requires fits { task.old.lines ≡ M.size media.old }
    requires cached { CacheFits (M.size media.old) cache.old }
    requires reads { forgets ≡ true → OnlyReads task.old }
    ensures runs { (view : HostView) → ShownBy forgets cache.new host.0 (M.size media.old)
        (task_standing M.state media.old view (Some task.old) task.old.kept cache.old (notes_view journal.old.items))
        (λ shown. task_standing M.state media.new view (task_left (moved_up result) (Some task.new)) task.new.kept shown
        (notes_view journal.new.items)) result }
    ensures same { OnErr result (IsUnstored task.old cache.old.lines
        → IfModelled (M.state media.old).image (λ image. (M.state media.new).image ≡ Some image)) }
    ensures size { M.size media.new ≡ M.size media.old }
{
    let mut turn = Turn::Go;
    let mut lines = Vec::new(alloc);
    let mut tries = forgets;
    'operations: loop {
        if make_room(journal).is_err() {
            let_go(turn);
            return Err(OutOfMemory);
        }
        tries = shed(cache, task, tries);
        match note_turn(
            journal,
            host,
            advance(cache, task, media, &mut turn, &mut lines),
            &mut turn,
        ) {
            Ok(Moved::Going) => {
                task.is_sound();
                let _ = operate_cached(cache, task, u64::MAX);
                task.is_sound();
            }
            Ok(Moved::Answered) => {
                let_go(turn);
                return Ok(());
            }
            Err(_) => {
                let_go(turn);
                return Err(OutOfMemory);
            }
        }
    }
}

/// Ends a host's task that has answered.
fn leave(
    task: &mut Option<Task>,
    kept: &mut Option<Kept>,
    replica: &mut Option<Replica>,
    moved: &Result<Moved, OutOfMemory>,
)
    ensures task { task.new ≡ task_left moved.now task.old }
    ensures kept { kept_in task.new kept.new ≡ kept_in task.old kept.old }
{
    if let Ok(Moved::Answered) = moved {
        retire(task, kept, replica);
    }
}

/// As `run_most`, of the task that a host runs, which there is. Behind its answer the host has no task.
pub(crate) fn steps_of<M: Media>(
    host: &mut Host,
    journal: &mut Vec<Note>,
    media: &mut M,
    at: usize,
    most: u64,
) -> Result<Moved, OutOfMemory>
    requires runs { is_some host.old.task ≡ true }
    requires fits { TaskFits (M.size media.old) host.old.task }
    requires cached { CacheFits (M.size media.old) host.old.cache }
    requires few { at < MOST_HOSTS }
    ensures says { HostStepsSay at (M.size media.old) most
        (host_standing M.state media.old (host_view host.old) (notes_view journal.old.items))
        (host_standing M.state media.new (host_view host.new) (notes_view journal.new.items)) result }
    ensures undone { most ≡ 1 → OnErr result (media.new ≡ media.old) }
    ensures size { M.size media.new ≡ M.size media.old }
{
    let Some(task) = &mut host.task else {
        unreachable!();
    };
    let moved = run_most(
        &mut host.cache,
        task,
        journal,
        media,
        HostId(at as u32),
        most,
    );
    leave(&mut host.task, &mut host.kept, &mut host.replica, &moved);
    moved
}

/// As `run_up` that forgets nothing, of the task that a host runs, which there is. Behind its answer the host has no task.
pub(crate) fn finish_of<M: Media>(
    alloc: Global,
    host: &mut Host,
    journal: &mut Vec<Note>,
    media: &mut M,
    at: usize,
) -> Result<(), OutOfMemory>
    requires runs { is_some host.old.task ≡ true }
    requires fits { TaskFits (M.size media.old) host.old.task }
    requires cached { CacheFits (M.size media.old) host.old.cache }
    requires few { at < MOST_HOSTS }
    ensures runs { RunsUp at (M.size media.old)
        (host_standing M.state media.old (host_view host.old) (notes_view journal.old.items))
        (host_standing M.state media.new (host_view host.new) (notes_view journal.new.items)) result }
    ensures over { OnOk result (host.new.task ≡ None) }
    ensures on { OnErr result (is_some host.new.task ≡ true) }
    ensures same { OnErr result (IfSome host.old.task (λ t. IsUnstored t host.old.cache.lines
        → IfModelled (M.state media.old).image (λ image. (M.state media.new).image ≡ Some image))) }
    ensures size { M.size media.new ≡ M.size media.old }
{
    let Some(task) = &mut host.task else {
        unreachable!();
    };
    run_up(
        alloc,
        &mut host.cache,
        task,
        journal,
        media,
        HostId(at as u32),
        false,
    )?;
    retire(&mut host.task, &mut host.kept, &mut host.replica);
    Ok(())
}
