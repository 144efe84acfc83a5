//! The lines of a storm. `specs/Storm.antt` has the words of each.

ghost use Rattle.std.specs.Prelude.{◌≡◌, [], ◌∷◌, ◌++◌, ℕ, List, IfOk, OnOk, string_bytes};
ghost use Rattle.fam_storm.specs.Storm.{mkdir_words, creat_words, begun_words, step_words, logplay_words, fetch_words, leak_words, evict_words, begin_words, client_step_words, finish_words, verify_words, end_lines, front_lines, text_of};

use fam_base::{OutOfMemory, put_bytes};
use std::alloc::{AllocError, Global};

/// Adds a line that may have found no memory, and a line feed.
fn put_line(made: Result<String, AllocError>, into: &mut Vec<u8>) -> Result<(), OutOfMemory>
    ensures { (line : List ℕ) → IfOk made (λ s. string_bytes s ≡ line)
        → OnOk result (into.new.items ≡ into.old.items ++ (line ++ 10 ∷ [])) }
{
    let Ok(line) = made else {
        return Err(OutOfMemory);
    };
    put_bytes(line.as_bytes(), into)?;
    put_bytes(b"\n", into)
}

/// The hosts and the file system, before the first round.
pub(crate) fn put_front(into: &mut Vec<u8>) -> Result<(), OutOfMemory>
    ensures { OnOk result (into.new.items ≡ into.old.items ++ text_of front_lines) }
{
    put_bytes(
        b"host m 00000000-0000-0000-0000-000000000001\n\
host c0 00000000-0000-0000-0000-000000000002\n\
host c1 00000000-0000-0000-0000-000000000003\n\
host c2 00000000-0000-0000-0000-000000000004\n\
mkfs m 00000000-0000-0000-0000-0000000000ff unit=4096 log=65536 force\n",
        into,
    )
}

/// How an append that was begun ends.
pub(crate) fn put_end(end: u64, into: &mut Vec<u8>) -> Result<(), OutOfMemory>
    ensures { OnOk result (into.new.items ≡ into.old.items ++ text_of (end_lines end)) }
{
    if end == 0 {
        return put_bytes(b"stop m\n", into);
    }
    if end == 1 {
        return put_bytes(b"halt m\n", into);
    }
    put_bytes(b"evict m 32769\nhalt m\n", into)
}

/// A directory of the root.
pub(crate) fn put_mkdir(alloc: Global, i: u64, into: &mut Vec<u8>) -> Result<(), OutOfMemory>
    ensures { OnOk result (into.new.items ≡ into.old.items ++ text_of (mkdir_words i ∷ [])) }
{
    let made = format!(in alloc; "run m mkdir d{i}");
    put_line(made, into)
}

/// A file of so many bytes of its own seed.
pub(crate) fn put_creat(
    alloc: Global,
    i: u64,
    size: u64,
    into: &mut Vec<u8>,
) -> Result<(), OutOfMemory>
    ensures { OnOk result (into.new.items ≡ into.old.items ++ text_of (creat_words i size ∷ [])) }
{
    let made = format!(in alloc; "run m creat f{i} {size} seed={i}");
    put_line(made, into)
}

/// Such a file that is only begun.
pub(crate) fn put_begun(
    alloc: Global,
    i: u64,
    size: u64,
    into: &mut Vec<u8>,
) -> Result<(), OutOfMemory>
    ensures { OnOk result (into.new.items ≡ into.old.items ++ text_of (begun_words i size ∷ [])) }
{
    let made = format!(in alloc; "begin m creat g{i} {size} seed={i}");
    put_line(made, into)
}

/// So many steps of the master.
pub(crate) fn put_step(alloc: Global, count: u64, into: &mut Vec<u8>) -> Result<(), OutOfMemory>
    ensures { OnOk result (into.new.items ≡ into.old.items ++ text_of (step_words count ∷ [])) }
{
    let made = format!(in alloc; "step m {count}");
    put_line(made, into)
}

/// A client reads the log.
pub(crate) fn put_logplay(alloc: Global, j: u64, into: &mut Vec<u8>) -> Result<(), OutOfMemory>
    ensures { OnOk result (into.new.items ≡ into.old.items ++ text_of (logplay_words j ∷ [])) }
{
    let made = format!(in alloc; "run c{j} logplay");
    put_line(made, into)
}

/// A client's cache brings a line.
pub(crate) fn put_fetch(
    alloc: Global,
    j: u64,
    line: u64,
    mask: u64,
    into: &mut Vec<u8>,
) -> Result<(), OutOfMemory>
    ensures { OnOk result (into.new.items ≡ into.old.items ++ text_of (fetch_words j line mask ∷ [])) }
{
    let made = format!(in alloc; "fetch c{j} {line} {mask}");
    put_line(made, into)
}

/// The master's cache sends words of a line.
pub(crate) fn put_leak(
    alloc: Global,
    line: u64,
    mask: u64,
    into: &mut Vec<u8>,
) -> Result<(), OutOfMemory>
    ensures { OnOk result (into.new.items ≡ into.old.items ++ text_of (leak_words line mask ∷ [])) }
{
    let made = format!(in alloc; "leak m {line} {mask}");
    put_line(made, into)
}

/// The master's cache sends a line and drops it.
pub(crate) fn put_evict(alloc: Global, line: u64, into: &mut Vec<u8>) -> Result<(), OutOfMemory>
    ensures { OnOk result (into.new.items ≡ into.old.items ++ text_of (evict_words line ∷ [])) }
{
    let made = format!(in alloc; "evict m {line}");
    put_line(made, into)
}

/// A client begins to read the log.
pub(crate) fn put_begin(alloc: Global, j: u64, into: &mut Vec<u8>) -> Result<(), OutOfMemory>
    ensures { OnOk result (into.new.items ≡ into.old.items ++ text_of (begin_words j ∷ [])) }
{
    let made = format!(in alloc; "begin c{j} logplay");
    put_line(made, into)
}

/// So many steps of a client.
pub(crate) fn put_client_step(
    alloc: Global,
    j: u64,
    count: u64,
    into: &mut Vec<u8>,
) -> Result<(), OutOfMemory>
    ensures { OnOk result (into.new.items ≡ into.old.items ++ text_of (client_step_words j count ∷ [])) }
{
    let made = format!(in alloc; "step c{j} {count}");
    put_line(made, into)
}

/// A client's task runs to its answer.
pub(crate) fn put_finish(alloc: Global, j: u64, into: &mut Vec<u8>) -> Result<(), OutOfMemory>
    ensures { OnOk result (into.new.items ≡ into.old.items ++ text_of (finish_words j ∷ [])) }
{
    let made = format!(in alloc; "finish c{j}");
    put_line(made, into)
}

/// A client verifies a file against its seed.
pub(crate) fn put_verify(
    alloc: Global,
    j: u64,
    i: u64,
    into: &mut Vec<u8>,
) -> Result<(), OutOfMemory>
    ensures { OnOk result (into.new.items ≡ into.old.items ++ text_of (verify_words j i ∷ [])) }
{
    let made = format!(in alloc; "run c{j} verify f{i} seed={i}");
    put_line(made, into)
}
