//! Texts that are put, and their statuses.

ghost use Rattle.std.specs.Prelude.{◌≡◌, ◌≤◌, IfOk, List, ℕ};
ghost use Rattle.fam_media.specs.States.{change};
ghost use Rattle.fam_outcomes.specs.declared.status.Status.TheVariants as status;
ghost use Rattle.fam_outcomes.specs.Programs.{memory_line};
ghost use Rattle.fam_judge_call.specs.Endings.{Puts, PutsMade};
ghost use Rattle.fam_judge_call.specs.Texts.{judge_usage};

use fam_base::OutOfMemory;
use fam_media::Sink;
use fam_outcomes::Status;

/// What is put where no memory is left.
const MEMORY: &str = "out of memory\n";

/// What is put where the words ask for no history.
const USAGE: &str = "usage: famfs-judge HISTORY [IMAGE]\n";

/// Puts a text, and gives its status, or that of a sink that failed.
fn put<K: Sink>(own: Status, text: &[u8], out: &mut K) -> Status
    ensures put { Puts own text.now (change K.state out.old out.new) result }
    ensures later { (K.state out.old).faults ≤ (K.state out.new).faults }
{
    match out.put(text) {
        Ok(()) => own,
        Err(_) => Status::SinkFault,
    }
}

/// Puts that no memory is left.
pub(crate) fn put_memory<K: Sink>(out: &mut K) -> Status
    ensures put { Puts status.OutOfMemory memory_line (change K.state out.old out.new) result }
    ensures later { (K.state out.old).faults ≤ (K.state out.new).faults }
{
    put(Status::OutOfMemory, MEMORY.as_bytes(), out)
}

/// Puts what the words may be.
pub(crate) fn put_usage<K: Sink>(out: &mut K) -> Status
    ensures put { Puts status.Usage judge_usage (change K.state out.old out.new) result }
    ensures later { (K.state out.old).faults ≤ (K.state out.new).faults }
{
    put(Status::Usage, USAGE.as_bytes(), out)
}

/// Puts a text for which memory was wanted, or that none is left.
pub(crate) fn put_made<K: Sink>(
    own: Status,
    made: Result<Vec<u8>, OutOfMemory>,
    out: &mut K,
) -> Status
    ensures put { (want : List ℕ) → IfOk made (λ bytes. bytes.items ≡ want) → PutsMade own want (change K.state out.old out.new) result }
    ensures later { (K.state out.old).faults ≤ (K.state out.new).faults }
{
    match made {
        Ok(text) => put(own, text.as_slice(), out),
        Err(OutOfMemory) => put_memory(out),
    }
}
