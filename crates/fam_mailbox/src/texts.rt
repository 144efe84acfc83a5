//! What is put where no box stands at the path. `specs/Lookups.antt` has the texts and statuses.

ghost use Rattle.std.specs.Prelude.{◌≡◌, ◌≤◌, IfOk};
ghost use Rattle.fam_format.specs.declared.faults.LogFault.TheVariants as log;
ghost use Rattle.fam_format.specs.declared.faults.SuperFault.TheVariants as super;
ghost use Rattle.fam_media.specs.States.{change};
ghost use Rattle.fam_outcomes.specs.Texts as text;
ghost use Rattle.fam_program.specs.Dups.{PutMade};
ghost use Rattle.fam_mailbox.specs.Lookups as spec;

use crate::fault::LookFault;
use fam_base::OutOfMemory;
use fam_format::{LogField, SuperField};
use fam_journal::Refusal;
use fam_media::Sink;
use fam_outcomes::Status;
use fam_program::put_made;
use fam_script::{answer_text, line_of, refusal_line};
use fam_tasks::Answer;
use std::alloc::Global;

/// The line of a field of the superblock.
fn bad_super_line(
    alloc: Global,
    field: SuperField,
    found: u64,
    wanted: u64,
) -> Result<Vec<u8>, OutOfMemory>
    ensures { IfOk result (λ bytes. bytes.items ≡ text.line (text.super_text (super.BadSuper field found wanted))) }
{
    let answer = Answer::BadSuper {
        field,
        found,
        wanted,
    };
    answer_text(alloc, &answer)
}

/// The line of a field of the log's header, or of the gate.
fn bad_log_line(
    alloc: Global,
    field: LogField,
    found: u64,
    wanted: u64,
) -> Result<Vec<u8>, OutOfMemory>
    ensures { IfOk result (λ bytes. bytes.items ≡ text.line (text.log_text (log.BadLog field found wanted))) }
{
    let answer = Answer::BadLog {
        field,
        found,
        wanted,
    };
    answer_text(alloc, &answer)
}

/// The line of a fault; those of the path are a read's.
fn look_line(alloc: Global, fault: LookFault) -> Result<Vec<u8>, OutOfMemory>
    ensures { IfOk result (λ bytes. bytes.items ≡ spec.look_text fault) }
{
    match fault {
        LookFault::ImageSmall(lines) => refusal_line(alloc, &Refusal::ImageSmall(lines), &[]),
        LookFault::NoSuper(word) => answer_text(alloc, &Answer::NoSuper(word)),
        LookFault::BadSuper {
            field,
            found,
            wanted,
        } => bad_super_line(alloc, field, found, wanted),
        LookFault::BadLog {
            field,
            found,
            wanted,
        } => bad_log_line(alloc, field, found, wanted),
        LookFault::BadEntry { seq, reason } => {
            answer_text(alloc, &Answer::BadEntry { seq, reason })
        }
        LookFault::NotFound(m) => answer_text(alloc, &Answer::NotFound { m }),
        LookFault::IsDirectory(m) => answer_text(alloc, &Answer::IsDirectory { m }),
        LookFault::BoxSmall(size) => line_of(alloc, format!(in alloc; "box too small {size}")),
        LookFault::BadBox { gate, capacity } => {
            line_of(alloc, format!(in alloc; "bad box {gate} {capacity}"))
        }
        LookFault::BadRecord(i) => line_of(alloc, format!(in alloc; "bad record {i}")),
        LookFault::MediaFault(line) => answer_text(alloc, &Answer::MediaFault(line)),
        LookFault::OutOfMemory => Err(OutOfMemory),
    }
}

/// The status of a fault.
fn look_status(fault: LookFault) -> Status
    ensures { result ≡ spec.look_status fault }
{
    match fault {
        LookFault::ImageSmall(_) => Status::Damaged,
        LookFault::NoSuper(_) => Status::Damaged,
        LookFault::BadSuper { .. } => Status::Damaged,
        LookFault::BadLog { .. } => Status::Damaged,
        LookFault::BadEntry { .. } => Status::Damaged,
        LookFault::NotFound(_) => Status::Refused,
        LookFault::IsDirectory(_) => Status::Refused,
        LookFault::BoxSmall(_) => Status::Refused,
        LookFault::BadBox { .. } => Status::Damaged,
        LookFault::BadRecord(_) => Status::Damaged,
        LookFault::MediaFault(_) => Status::MediaFault,
        LookFault::OutOfMemory => Status::OutOfMemory,
    }
}

/// Puts why no event is run, or that no memory is left to say so, and gives the status.
pub(crate) fn put_look<K: Sink>(alloc: Global, fault: LookFault, out: &mut K) -> Status
    ensures put { PutMade (spec.look_status fault) (spec.look_text fault) (change K.state out.old out.new) result }
    ensures later { (K.state out.old).faults ≤ (K.state out.new).faults }
{
    put_made(look_line(alloc, fault), look_status(fault), out)
}
