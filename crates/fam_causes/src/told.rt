//! What the first line of an answer tells.

ghost use Rattle.std.specs.Prelude.{◌≡◌, IfOk, IfSome};
ghost use Rattle.fam_history.specs.declared.answer.ToldAnswer.TheVariants as told;
ghost use Rattle.fam_history.specs.ToldAnswers.{answer_told};
ghost use Rattle.fam_lines.specs.Lines.{answer_of};

use fam_base::{OutOfMemory, SharedBytes};
use fam_history::ToldAnswer;
use fam_lines::HostAnswer;
use std::alloc::Global;

/// The same bytes, beside the others.
fn copy_bytes(alloc: Global, bytes: &SharedBytes) -> Result<SharedBytes, OutOfMemory>
    ensures { IfOk result (λ copy. copy ≡ bytes.now) }
{
    let mut copy = Vec::new(alloc);
    match copy.extend_from_slice(bytes.as_slice()) {
        Ok(()) => SharedBytes::new(alloc, copy),
        Err(_) => Err(OutOfMemory),
    }
}

/// What is told of bytes that were read.
fn told_bytes(alloc: Global, m: u64, bytes: &SharedBytes) -> Result<Option<ToldAnswer>, OutOfMemory>
    ensures { IfOk result (λ found. IfSome found (λ it. it ≡ told.Bytes m bytes.now)) }
{
    let bytes = copy_bytes(alloc, bytes)?;
    Ok(Some(ToldAnswer::Bytes(m, bytes)))
}

/// What is told of an answer that shows something of a file.
pub(crate) fn told_in(alloc: Global, answer: &HostAnswer) -> Result<Option<ToldAnswer>, OutOfMemory>
    ensures { IfOk result (λ found. IfSome found (λ told. told ≡ answer_told (answer_of answer.now))) }
{
    match answer {
        HostAnswer::Same(m) => Ok(Some(ToldAnswer::Same(*m))),
        HostAnswer::Differs {
            entries,
            offset,
            found,
            wanted,
        } => Ok(Some(ToldAnswer::Differs {
            entries: *entries,
            offset: *offset,
            found: *found,
            wanted: *wanted,
        })),
        HostAnswer::Length {
            entries,
            size,
            wanted,
        } => Ok(Some(ToldAnswer::Length {
            entries: *entries,
            size: *size,
            wanted: *wanted,
        })),
        HostAnswer::Bytes(m, bytes) => told_bytes(alloc, *m, bytes),
        HostAnswer::NotFound(m) => Ok(Some(ToldAnswer::NotFound(*m))),
        HostAnswer::IsDirectory(m) => Ok(Some(ToldAnswer::IsDirectory(*m))),
        _ => Ok(None),
    }
}
