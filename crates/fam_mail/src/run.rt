//! One operation of a task, on its host's cache and the one memory.

ghost use Rattle.std.specs.Prelude.{ℕ, ◌≡◌, ◌*◌, ◌<◌, ◌≤◌, IsErrOf, IfOk, OnErr, false, true};
ghost use Rattle.fam_cache.specs.Faults.{is_media_fault};
ghost use Rattle.fam_media.specs.Causes.{IsSteady};
ghost use Rattle.fam_media.specs.Plans.{count_if};
ghost use Rattle.fam_rules.specs.Place.{IsProperEntry, line_bytes};
ghost use Rattle.fam_rules.specs.Written.{file_line};
ghost use Rattle.fam_mail.specs.Running.{LinesFit, TaskOperated, around};
ghost use Rattle.fam_mail.specs.Tasks.{ends_mail_task, left_of};

use crate::task::Task;
use crate::turn::Turn;
use fam_base::Entry;
use fam_cache::{HostCache, OperationFault};
use fam_media::Media;

/// Does the next operation of a task that is not over, on the file of an entry, and says what the task says of it.
///
/// `MediaFault` names the operation's line, and of a fence the one that it couldn't send: the task still stands before it.
/// `OutOfMemory` comes where the cache has no room for one more line, or a take none for its records, and then nothing
/// was done.
pub(crate) fn operate<M: Media>(
    cache: &mut HostCache,
    task: &mut Task,
    media: &mut M,
    entry: &Entry,
) -> Result<Turn, OperationFault>
    requires file { IsProperEntry entry.now }
    requires room { line_bytes * task.old.capacity < entry.now.size }
    requires within { (j : ℕ) → j ≤ task.old.capacity → file_line entry.now j < M.size media.old }
    requires fits { LinesFit (M.size media.old) cache.old.lines }

    ensures operated { TaskOperated (around M.state (file_line entry.now) task.old task.new cache.old cache.new media.old media.new) result }
    ensures undone { IsErrOf result OperationFault.OutOfMemory → media.new ≡ media.old }
    ensures unchanged { IsErrOf result OperationFault.OutOfMemory → cache.new ≡ cache.old }
    ensures kept { OnErr result (task.new ≡ task.old) }
    ensures goes_on { IfOk result (λ turn. ends_mail_task turn ≡ false → task.new.capacity ≡ task.old.capacity) }
    ensures falls { IfOk result (λ turn. ends_mail_task turn ≡ false → left_of task.new < left_of task.old) }
    ensures fits { LinesFit (M.size media.new) cache.new.lines }
    ensures steady { IsSteady M.size M.state media.old media.new }
    ensures counted { M.exact ≡ true → (M.state media.new).faults ≡ count_if (is_media_fault result) (M.state media.old).faults }
{
    task.is_sound();
    if task.counts() {
        return match task.digest() {
            Ok(turn) => Ok(turn),
            Err(_) => Err(OperationFault::OutOfMemory),
        };
    }
    let op = task.next(entry);
    match cache.perform(media, op) {
        Ok(word) => Ok(task.feed(word)),
        Err(fault) => Err(fault),
    }
}
