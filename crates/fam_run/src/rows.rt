//! Rows of slots that have the words which an earlier task of the host found in them: the lines of many are read by one call of
//! the media, compared, and put into the cache at once.
//!
//! Only lines of which the host holds clean copies are read so: a drop of these sends nothing, and they take no room. At the
//! first slot that has other words the row ends, and that slot is read as any other. The lines behind it were read and are
//! forgotten: no operation was done on them.

ghost use Rattle.std.specs.Prelude.{◌≡◌, ◌≢◌, ◌+◌, ◌-◌, ◌^◌, ◌<◌, ◌≤◌, Err, false, length, true};
ghost use Rattle.fam_format.specs.Layout.{geometry, slot_line};
ghost use Rattle.fam_commands.specs.declared.phase.Part.TheVariants as part;
ghost use Rattle.fam_commands.specs.declared.phase.Phase.TheVariants as at;
ghost use Rattle.fam_media.specs.Causes.{IsSteady, Rose};
ghost use Rattle.fam_media.specs.Outside.{IfModelled};
ghost use Rattle.fam_media.specs.Runs.{AreRead};
ghost use Rattle.fam_cache.specs.BroughtRuns.{AreClean};
ghost use Rattle.fam_tasks.specs.declared.answer.Turn.TheVariants.{Go};
ghost use Rattle.fam_run.specs.Led.{Advanced};
ghost use Rattle.fam_run.specs.Operation.{said_of};
ghost use Rattle.fam_run.specs.Rows.{BreaksRow, FindsSlots};
ghost use Rattle.fam_run.specs.TaskChange.{task_change};

use crate::checking::check_loaded;
use crate::slot_run::behind;
use fam_base::{Line, LineNo};
use fam_cache::{HostCache, OperationFault};
use fam_media::Media;
use fam_tasks::{SlotDue, Task, Turn};

/// So many lines at most are read by one call.
pub(crate) const ROW_LINES: usize = 128;

/// How many slots from this one on may have the words that were found in them, and how many of their lines are read by one call:
/// no more than there is room for. It says 0 of both where there is no such row, or where it can't be read so.
pub(crate) fn row_from<M: Media>(
    cache: &HostCache,
    task: &Task,
    media: &M,
    due: SlotDue,
) -> (u64, usize)
    ensures few { result.1 ≤ 128 }
    ensures whole { 0 < result.1 → due.lines ≤ result.1 }
    ensures some { 0 < result.1 → 0 < result.0 }
    ensures gate { 0 < result.1 → due.slot + result.0 ≤ task.now.gate }
    ensures small { 0 < result.1 → due.slot + result.0 < 2 ^ 64 }
    ensures within { 0 < result.1 → due.first + result.1 ≤ M.size media.now }
    ensures clean { 0 < result.1 → AreClean cache.now.lines due.first result.1 }
{
    let slots = task.kept_ahead(due.slot);
    let most = (slots as usize)
        .saturating_mul(due.lines as usize)
        .min(ROW_LINES);
    if slots < 2 || (most as u64) < due.lines {
        return (0, 0);
    }
    let size = media.lines();
    if most as u64 > size || due.first > size - most as u64 {
        return (0, 0);
    }
    if !cache.holds_clean(LineNo(due.first), most) {
        return (0, 0);
    }
    (slots, most)
}

/// Reads lines, and says how many were read: all, or those before one at which the media failed.
#[inline(always)]
fn read_lines<M: Media>(media: &mut M, first: u64, lines: &mut [Line]) -> usize
    requires within { first + length lines.old ≤ M.size media.old }
    ensures len { length lines.new ≡ length lines.old }
    ensures most { result ≤ length lines.old }
    ensures words { IfModelled (M.state media.old).image (λ image. AreRead image first lines.new result) }
    ensures failed { result < length lines.old → Rose (M.state media.old).faults (M.state media.new).faults }
    ensures image { (M.state media.new).image ≡ (M.state media.old).image }
    ensures steady { IsSteady M.size M.state media.old media.new }
{
    match media.read_run(LineNo(first), lines) {
        Ok(()) => lines.len(),
        Err(failed) => failed.done,
    }
}

/// Takes the slots from this one on, as many as have the words that were found in them, of so many at most, and of which all
/// lines were read, and says how many these are, and how many lines they have.
fn find_slots(
    task: &mut Task,
    due: SlotDue,
    slots: u64,
    lines: &[Line],
    read: usize,
) -> (u64, usize)
    requires due { task.old.phase ≡ at.Drop (part.Slot due.slot) 0 }
    requires count { due.lines ≡ (geometry task.old.params).lines }
    requires first { due.first ≡ slot_line task.old.params due.slot 0 }
    requires some { 0 < due.lines }
    requires gate { due.slot + slots ≤ task.old.gate }
    requires small { due.slot + slots < 2 ^ 64 }
    requires few { read ≤ length lines.now }
    requires within { due.first + read < 2 ^ 64 }

    ensures found { FindsSlots due.first lines.now due.lines due.slot task.old task.new result.0 result.1 }
    ensures most { result.1 ≤ read }
    ensures none { result.1 ≡ 0 → result.0 ≡ 0 }
    ensures same { result.1 ≡ 0 → task.new ≡ task.old }
    ensures params { task.new.params ≡ task.old.params }
    ensures next { result.0 < slots → task.new.phase ≡ at.Drop (part.Slot (due.slot + result.0)) 0 }
    ensures place { due.first + result.1 ≡ slot_line task.old.params (due.slot + result.0) 0 }
{
    let wide = due.lines as usize;
    let mut at = 0;
    'slots: for k in 0..slots {
        if read - at < wide {
            return (k, at);
        }
        let next = SlotDue {
            slot: due.slot + k,
            first: due.first + at as u64,
            line: 0,
            lines: due.lines,
        };
        if !task.find_slot(next, &lines[at..at + wide]) {
            return (k, at);
        }
        at += wide;
    }
    (slots, at)
}

/// Whether a row breaks off: not all of so many lines were read, a slot comes next, and some line of that wasn't read.
#[inline(always)]
fn breaks_off(read: usize, most: usize, more: bool, lacks: bool) -> bool
    ensures read { result ≡ true → read < most }
    ensures more { result ≡ true → more ≡ true }
    ensures lacks { result ≡ true → lacks ≡ true }
    ensures other { result ≡ false → more ≡ true → read < most → lacks ≡ false }
{
    read < most && more && lacks
}

/// Ends a row from this line on, which was read up to one at which the media failed: the lines before that are brought anew,
/// those of the slot at hand are loaded, which are the ones from `from` on, and the line is dropped. It stands apart, since it is
/// rare.
#[inline(never)]
fn break_row(
    cache: &mut HostCache,
    task: &mut Task,
    start: u64,
    due: SlotDue,
    lines: &[Line],
    from: usize,
    read: usize,
) -> LineNo
    requires due { task.old.phase ≡ at.Drop (part.Slot due.slot) 0 }
    requires count { due.lines ≡ (geometry task.old.params).lines }
    requires first { due.first ≡ slot_line task.old.params due.slot 0 }
    requires place { start + from ≡ due.first }
    requires behind { from ≤ read }
    requires within { read < from + due.lines }
    requires few { read < length lines.now }
    requires small { start + length lines.now < 2 ^ 64 }
    requires clean { AreClean cache.old.lines start (length lines.now) }
    ensures { BreaksRow start lines.now from read result task.old task.new cache.old.lines cache.new.lines }
{
    cache.renew_row(LineNo(start), lines, read);
    task.load_lines_of_slot(due, &lines[from..], read - from);
    task.is_sound();
    let line = task.line_of_slot_due(behind(due, (read - from) as u64));
    cache.drop_clean(line);
    task.drop_line_of_slot(line);
    task.is_sound();
    line
}

/// Reads a row of slots by one call of the media, and takes those that have the words which were found in them; where the first
/// one has others it is loaded and looked at.
///
/// `MediaFault` names the line: those before it were loaded, it was dropped, and the task stands before its first word.
#[inline(never)]
pub(crate) fn load_row<M: Media>(
    cache: &mut HostCache,
    task: &mut Task,
    media: &mut M,
    turn: &mut Turn,
    due: SlotDue,
    slots: u64,
    lines: &mut [Line],
) -> Result<(), OperationFault>
    requires go { turn.old ≡ Go }
    requires lines { task.old.lines ≡ M.size media.old }
    requires due { task.old.phase ≡ at.Drop (part.Slot due.slot) 0 }
    requires count { due.lines ≡ (geometry task.old.params).lines }
    requires first { due.first ≡ slot_line task.old.params due.slot 0 }
    requires some { 0 < due.lines }
    requires whole { due.lines ≤ length lines.old }
    requires slots { 0 < slots }
    requires gate { due.slot + slots ≤ task.old.gate }
    requires small { due.slot + slots < 2 ^ 64 }
    requires within { due.first + length lines.old ≤ M.size media.old }
    requires clean { AreClean cache.old.lines due.first (length lines.old) }

    ensures advanced { Advanced
        (task_change M.size M.state task.old task.new cache.old cache.new media.old media.new) (said_of result turn.new) }
    ensures room { result ≢ Err OperationFault.OutOfMemory }
    ensures image { (M.state media.new).image ≡ (M.state media.old).image }
    ensures steady { IsSteady M.size M.state media.old media.new }
{
    let _ = media.lines();
    let read = read_lines(media, due.first, lines);
    let (found, at) = find_slots(task, due, slots, lines, read);
    let wide = due.lines as usize;
    if breaks_off(read, lines.len(), found < slots, read - at < wide) {
        let next = SlotDue {
            slot: due.slot + found,
            first: due.first + at as u64,
            line: 0,
            lines: due.lines,
        };
        return Err(OperationFault::MediaFault(break_row(
            cache, task, due.first, next, lines, at, read,
        )));
    }
    if at > 0 {
        cache.renew_row(LineNo(due.first), lines, at);
    } else {
        cache.renew_row(LineNo(due.first), lines, wide);
        task.load_lines_of_slot(due, lines, wide);
        check_loaded(task, turn);
    }
    Ok(())
}
