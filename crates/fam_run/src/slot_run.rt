//! All lines of a slot that are loaded by one call of the media, where memory lacks no word of them: nearly every slot
//! is one turn.
//!
//! To drop a line of which memory lacks no word sends nothing. The words of a line behind one that fails aren't put, so
//! its copy stays.

ghost use Rattle.std.specs.Prelude.{◌≡◌, ◌<◌, ◌≤◌, IfErr, IfOk, false, length, true};
ghost use Rattle.fam_format.specs.Layout.{geometry, slot_line};
ghost use Rattle.fam_commands.specs.declared.phase.Part.TheVariants as part;
ghost use Rattle.fam_commands.specs.declared.phase.Phase.TheVariants as at;
ghost use Rattle.fam_media.specs.Causes.{IsSteady};
ghost use Rattle.fam_tasks.specs.declared.answer.Turn.TheVariants.{Go};
ghost use Rattle.fam_run.specs.Led.{HasBrokenOff, HasDone};
ghost use Rattle.fam_run.specs.TaskChange.{task_change};

use fam_base::{Line, LineNo};
use fam_cache::HostCache;
use fam_media::Media;
use fam_tasks::{SlotDue, Task};

/// Makes room for the words of so many lines, and says whether there is memory for that. What was held there is lost.
#[inline(always)]
pub(crate) fn has_lines(lines: &mut Vec<Line>, count: usize) -> bool
    ensures { result ≡ true → length lines.new.items ≡ count }
{
    lines.len() == count || make_lines(lines, count)
}

/// Makes it. It stands apart, since it is done once.
#[inline(never)]
fn make_lines(lines: &mut Vec<Line>, count: usize) -> bool
    ensures { result ≡ true → length lines.new.items ≡ count }
{
    lines.clear();
    if lines.reserve(count).is_err() {
        return false;
    }
    for _ in 0..count {
        lines.push_reserved([0; 8]);
    }
    true
}

/// The line of a slot that comes so many behind its first one.
#[inline(always)]
pub(crate) fn behind(due: SlotDue, line: u64) -> SlotDue
    ensures slot { result.slot ≡ due.slot }
    ensures first { result.first ≡ due.first }
    ensures line { result.line ≡ line }
    ensures lines { result.lines ≡ due.lines }
{
    SlotDue {
        slot: due.slot,
        first: due.first,
        line,
        lines: due.lines,
    }
}

/// Drops all lines of a slot and loads all their words by one call of the media, and says whether it did: it did nothing where
/// one of them is dirty, where there is no room for them, or where the media is too short.
///
/// The line is named at which the media failed: those before it were loaded, it was dropped, and the task stands before its
/// first word.
#[inline(always)]
pub(crate) fn load_run<M: Media>(
    cache: &mut HostCache,
    task: &mut Task,
    media: &mut M,
    due: SlotDue,
    lines: &mut [Line],
) -> Result<bool, LineNo>
    requires lines { task.old.lines ≡ M.size media.old }
    requires due { task.old.phase ≡ at.Drop (part.Slot due.slot) 0 }
    requires all { length lines.old ≡ due.lines }
    requires some { 0 < due.lines }
    requires count { due.lines ≡ (geometry task.old.params).lines }
    requires first { due.first ≡ slot_line task.old.params due.slot 0 }

    ensures loaded { IfOk result (λ loaded. loaded ≡ true → HasDone
        (task_change M.size M.state task.old task.new cache.old cache.new media.old media.new) Go) }
    ensures failed { IfErr result (HasBrokenOff
        (task_change M.size M.state task.old task.new cache.old cache.new media.old media.new)) }

    ensures other { IfOk result (λ loaded. loaded ≡ false → media.new ≡ media.old) }
    ensures other_cache { IfOk result (λ loaded. loaded ≡ false → cache.new ≡ cache.old) }
    ensures other_task { IfOk result (λ loaded. loaded ≡ false → task.new ≡ task.old) }
    ensures image { (M.state media.new).image ≡ (M.state media.old).image }
    ensures steady { IsSteady M.size M.state media.old media.new }
{
    let size = media.lines();
    if due.lines > size || due.first > size - due.lines {
        return Ok(false);
    }
    match cache.bring_run(media, LineNo(due.first), lines) {
        Ok(true) => {
            task.load_lines_of_slot(due, lines, lines.len());
            Ok(true)
        }
        Ok(false) => Ok(false),
        Err(failed) => {
            task.load_lines_of_slot(due, lines, failed.done);
            task.is_sound();
            let line = task.line_of_slot_due(behind(due, failed.done as u64));
            task.drop_line_of_slot(line);
            task.is_sound();
            Err(line)
        }
    }
}
