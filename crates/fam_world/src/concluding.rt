//! The last operations of a world: those of a host's task up to its answer, where it only reads and nobody looks at its
//! host's cache behind them.
//!
//! Kept, the lines of a large file would take more memory than its bytes. So before it drops a line its host may forget
//! all lines that it holds, where none of them is dirty: it loads no line but one that it has just dropped or loaded.
//! All are forgotten at once, when the cache has 64 blocks of lines, which costs a look at each mark; the lines that
//! follow use their memory.

ghost use Rattle.std.specs.Prelude.{◌≡◌, ◌<◌, IfSome, None, OnErr, OnOk, Some, false, is_some, true};
ghost use Rattle.fam_commands.specs.FirstStore.{IsUnstored};
ghost use Rattle.fam_machine.specs.Caches.{Cache};
ghost use Rattle.fam_media.specs.Outside.{IfModelled};
ghost use Rattle.fam_journal.specs.CallRecords.{TaskFits};
ghost use Rattle.fam_run.specs.Shows.{OnlyReads, Shows};
ghost use Rattle.fam_world.specs.Concluded.{ShownUp, with_cache};
ghost use Rattle.fam_world.specs.Counted.{host_standing};
ghost use Rattle.fam_world.specs.Steps.{CacheFits};
ghost use Rattle.fam_world.specs.View.{host_view, notes_view};

use crate::hosts::{Host, MOST_HOSTS, retire};
use crate::run::run_up;
use fam_base::OutOfMemory;
use fam_cache::HostCache;
use fam_journal::HostId;
use fam_machine::Op;
use fam_media::Media;
use fam_notes::Note;
use fam_tasks::Task;
use std::alloc::Global;

/// Forgets what a host's cache holds, where the next operation drops a line, and says whether to try so again: not where a
/// dirty line stands against it. It stands apart, since it comes seldom.
#[inline(never)]
fn shed_large(cache: &mut HostCache, task: &Task) -> bool
    ensures shows { (shown : Cache) → Shows task.now cache.old.lines shown → Shows task.now cache.new.lines shown }
{
    match task.next() {
        Op::Invalidate(_) => cache.forget(),
        _ => true,
    }
}

/// As `shed_large`, where it is to try so, and the cache holds much.
#[inline(always)]
pub(crate) fn shed(cache: &mut HostCache, task: &Task, tries: bool) -> bool
    ensures shows { (shown : Cache) → Shows task.now cache.old.lines shown → Shows task.now cache.new.lines shown }
    ensures still { tries ≡ false → (result ≡ false) × (cache.new ≡ cache.old) }
{
    if tries && cache.is_large() {
        return shed_large(cache, task);
    }
    tries
}

/// As `run_up` that forgets, of the task that a host runs, which there is. Behind its answer the host has no task.
pub(crate) fn conclude_of<M: Media>(
    alloc: Global,
    host: &mut Host,
    journal: &mut Vec<Note>,
    media: &mut M,
    at: usize,
) -> Result<(), OutOfMemory>
    requires runs { is_some host.old.task ≡ true }
    requires fits { TaskFits (M.size media.old) host.old.task }
    requires cached { CacheFits (M.size media.old) host.old.cache }
    requires reads { IfSome host.old.task OnlyReads }
    requires few { at < MOST_HOSTS }
    ensures runs { ShownUp at (M.size media.old)
        (host_standing M.state media.old (host_view host.old) (notes_view journal.old.items))
        (λ shown. host_standing M.state media.new (with_cache (host_view host.new) shown)
        (notes_view journal.new.items)) result }
    ensures over { OnOk result (host.new.task ≡ None) }
    ensures on { OnErr result (is_some host.new.task ≡ true) }
    ensures same { OnErr result (IfSome host.old.task (λ t. IsUnstored t host.old.cache.lines
        → IfModelled (M.state media.old).image (λ image. (M.state media.new).image ≡ Some image))) }
    ensures size { M.size media.new ≡ M.size media.old }
{
    let Some(task) = &mut host.task else {
        unreachable!();
    };
    run_up(
        alloc,
        &mut host.cache,
        task,
        journal,
        media,
        HostId(at as u32),
        true,
    )?;
    retire(&mut host.task, &mut host.kept, &mut host.replica);
    Ok(())
}
