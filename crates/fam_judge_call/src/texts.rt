//! The texts of verdicts, and of histories that can't be read. `specs/Texts.antt` has them.

ghost use Rattle.std.specs.Prelude.{◌≡◌, ◌++◌, IfOk, codes, string_bytes};
ghost use Rattle.fam_causes.specs.CauseTexts.{cause_lines};
ghost use Rattle.fam_outcomes.specs.Texts.{line as the_line, number};
ghost use Rattle.fam_judge_call.specs.Texts as spec;

use fam_base::{OutOfMemory, put_bytes};
use fam_causes::{Cause, cause_text};
use fam_outcomes::Status;
use fam_script::{line_of, line_with_last_name};
use fam_sources::WholeFault;
use fam_verdict::{Known, Verdict};
use std::alloc::{AllocError, Global};

/// A space and a number, or a question mark where the states differ.
fn number_or(alloc: Global, number: Option<u64>) -> Result<String, AllocError>
    ensures { IfOk result (λ s. string_bytes s ≡ spec.number_or number) }
{
    match number {
        Some(number) => format!(in alloc; " {number}"),
        None => format!(in alloc; " ?"),
    }
}

/// So of whether an entry pends.
fn pends_word(pending: Option<bool>) -> &'static str
    ensures { result.now ≡ spec.pends_word pending }
{
    match pending {
        Some(true) => " 1",
        Some(false) => " 0",
        None => " ?",
    }
}

/// What is known of a legal history.
fn known_line(alloc: Global, known: Known) -> Result<Vec<u8>, OutOfMemory>
    ensures { IfOk result (λ bytes. bytes.items ≡ the_line (spec.known_text known)) }
{
    let Ok(settled) = number_or(alloc, known.settled) else {
        return Err(OutOfMemory);
    };
    let lines = known.lines;
    let pending = pends_word(known.pending);
    let states = known.states;
    line_of(
        alloc,
        format!(in alloc; "legal {lines} settled{settled} pending{pending} states {states}"),
    )
}

/// The number of an illegal line, and why it is one.
fn illegal_text(alloc: Global, line: u64, cause: &Cause) -> Result<Vec<u8>, OutOfMemory>
    ensures { IfOk result (λ bytes. bytes.items ≡ codes "illegal" ++ number line ++ codes " " ++ cause_lines cause.now) }
{
    let why = cause_text(alloc, cause)?;
    let Ok(front) = format!(in alloc; "illegal {line} ") else {
        return Err(OutOfMemory);
    };
    let mut text = Vec::new(alloc);
    put_bytes(front.as_bytes(), &mut text)?;
    put_bytes(why.as_slice(), &mut text)?;
    Ok(text)
}

/// A verdict.
pub(crate) fn verdict_text(alloc: Global, verdict: &Verdict) -> Result<Vec<u8>, OutOfMemory>
    ensures { IfOk result (λ bytes. bytes.items ≡ spec.verdict_text verdict.now) }
{
    match verdict {
        Verdict::Legal(known) => known_line(alloc, *known),
        Verdict::Illegal { line, cause } => illegal_text(alloc, *line, cause),
        Verdict::BadLine { line, column } => {
            line_of(alloc, format!(in alloc; "bad line {line} {column}"))
        }
    }
}

/// Its status.
pub(crate) fn verdict_status(verdict: &Verdict) -> Status
    ensures { result ≡ spec.verdict_status verdict.now }
{
    match verdict {
        Verdict::Legal(_) => Status::Done,
        Verdict::Illegal { .. } => Status::Refused,
        Verdict::BadLine { .. } => Status::BadScript,
    }
}

/// Why the history of this name can't be read.
pub(crate) fn unread_text(
    alloc: Global,
    name: &str,
    fault: WholeFault,
) -> Result<Vec<u8>, OutOfMemory>
    ensures { IfOk result (λ bytes. bytes.items ≡ spec.unread_text name.now fault) }
{
    match fault {
        WholeFault::NoFile => line_with_last_name(alloc, "no file", name.as_bytes()),
        WholeFault::TooLong(size) => line_of(alloc, format!(in alloc; "history too long {size}")),
        WholeFault::Faulted => line_of(alloc, format!(in alloc; "source fault")),
        WholeFault::Short { size, got } => {
            line_of(alloc, format!(in alloc; "short source {size} {got}"))
        }
        WholeFault::OutOfMemory => Err(OutOfMemory),
    }
}

/// The status of that.
pub(crate) fn unread_status(fault: WholeFault) -> Status
    ensures { result ≡ spec.unread_status fault }
{
    match fault {
        WholeFault::NoFile => Status::Refused,
        WholeFault::TooLong(_) => Status::BadScript,
        WholeFault::Faulted => Status::SourceFault,
        WholeFault::Short { .. } => Status::SourceFault,
        WholeFault::OutOfMemory => Status::OutOfMemory,
    }
}

/// That the media of the image failed at a line.
pub(crate) fn media_text(alloc: Global, line: u64) -> Result<Vec<u8>, OutOfMemory>
    ensures { IfOk result (λ bytes. bytes.items ≡ spec.media_text line) }
{
    line_of(alloc, format!(in alloc; "media fault {line}"))
}
