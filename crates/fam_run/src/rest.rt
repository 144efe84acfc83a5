//! Operations of a task on copies of its host alone: on the line that the host has just brought, the loads of its other
//! words or the stores into them.
//!
//! Once the first word of a line was loaded or stored the cache holds the line, so these ask nothing of the media and
//! can't fail: they are done at once, by one look-up. The law is the table's, operation by operation (`CachedRun`). The
//! first load or store of a line stays single, since it may fail, and so does a send.

ghost use Rattle.std.specs.Prelude.{◌≡◌, ◌<◌, ◌≤◌, IfSome, None};
ghost use Rattle.fam_commands.specs.FirstStore.{IsFirstStore};
ghost use Rattle.fam_run.specs.Cached.{CachedRun};
ghost use Rattle.fam_run.specs.Places.{KeepsPlaces};

use fam_cache::HostCache;
use fam_format::LINE_WORDS;
use fam_tasks::Task;

/// How many operations the rest of a line may be: those on its words but the first.
const REST_OPERATIONS: u64 = 7;

/// Does the operations that come next of a task, as long as they are the rest of a line of which the task has loaded or
/// stored the first word, and which the cache holds: all of a slot's line and of one that is stored, and up to the last
/// load of another, behind which a task may end. They ask nothing of the media and can't fail. It says how many were done:
/// none where none of them comes next, nor where the rest of a line may be more than `most`.
#[inline(always)]
pub fn operate_cached(cache: &mut HostCache, task: &mut Task, most: u64) -> u64
    ensures run { CachedRun task.old cache.old.lines task.new cache.new.lines result }
    ensures most { result ≤ most }
    ensures places { KeepsPlaces task.old cache.old task.new cache.new }
    ensures idle { IsFirstStore task.old → task.new ≡ task.old }
{
    if most < REST_OPERATIONS {
        return 0;
    }
    match load_cached(cache, task) {
        Some(count) => count,
        None => store_cached(cache, task),
    }
}

/// Does those that are loads, and says how many these were, if there were any.
#[inline(always)]
fn load_cached(cache: &HostCache, task: &mut Task) -> Option<u64>
    ensures run { IfSome result (CachedRun task.old cache.now.lines task.new cache.now.lines) }
    ensures most { IfSome result (λ count. count < LINE_WORDS) }
    ensures other { result ≡ None → task.new ≡ task.old }
    ensures idle { IsFirstStore task.old → task.new ≡ task.old }
{
    if let Some(line) = task.rest() {
        if let Some(words) = cache.held(line) {
            return Some(task.take_rest(line, &words));
        }
    }
    None
}

/// Does those that are stores, and says how many these were.
#[inline(always)]
fn store_cached(cache: &mut HostCache, task: &mut Task) -> u64
    ensures run { CachedRun task.old cache.old.lines task.new cache.new.lines result }
    ensures most { result < LINE_WORDS }
    ensures spare { cache.old.spare ≤ cache.new.spare }
    ensures idle { IsFirstStore task.old → task.new ≡ task.old }
{
    if let Some(rest) = task.rest_stored() {
        let line = rest.0;
        let words = rest.1;
        if cache.store_rest(line, &words) {
            task.store_rest(line, &words);
            return REST_OPERATIONS;
        }
    }
    0
}
