//! A file system copied onto another image, and what is put of that.

ghost use Rattle.std.specs.Prelude.{◌≡◌, ◌≤◌, [], IfOk, IsTrue, List, Some, ℕ};
ghost use Rattle.fam_dup.specs.Findings.{fault_class};
ghost use Rattle.fam_format.specs.Params.{is_format};
ghost use Rattle.fam_format.specs.declared.faults.SuperFault.TheVariants as super;
ghost use Rattle.fam_format.specs.declared.faults.LogFault.TheVariants as log;
ghost use Rattle.fam_journal.specs.Names.{NamesCause};
ghost use Rattle.fam_machine.specs.Mkfs as spec;
ghost use Rattle.fam_media.specs.Causes.{IsSteady};
ghost use Rattle.fam_media.specs.States.{change};
ghost use Rattle.fam_notes.specs.Notes.{answer_view};
ghost use Rattle.fam_outcomes.specs.declared.status.Status.TheVariants as status;
ghost use Rattle.fam_outcomes.specs.Texts as text;
ghost use Rattle.fam_program.specs.Dups as dups;
ghost use Rattle.fam_program.specs.Dups.{DupTop, PutDup, PutFault, PutMade, copy_asked, copy_outside, fault_line};

use crate::numbers::{NumberLine, put_number};
use crate::puts::{put_line, put_memory};
use fam_base::OutOfMemory;
use fam_dup::{DupFault, DupRefusal, dup};
use fam_format::{LogField, SuperField};
use fam_journal::Refusal;
use fam_machine::MkfsRequest;
use fam_media::{Media, Sink};
use fam_mkfs::asked;
use fam_outcomes::Status;
use fam_script::{answer_text, line_of, refusal_line};
use fam_super::{LOG_LIMIT, is_unit};
use fam_tasks::Answer;
use std::alloc::Global;
use uuid::Uuid;

/// Whether a file system can have this unit and a log of so many bytes.
fn is_geometry(unit: u64, log: u64) -> bool
    ensures { result ≡ spec.is_geometry unit log }
{
    is_unit(unit) && log > 0 && log % unit == 0 && log <= LOG_LIMIT
}

/// The line of an entry that has no copy.
fn stopped_line(alloc: Global, seq: u64, refusal: DupRefusal) -> Result<Vec<u8>, OutOfMemory>
    ensures { IfOk result (λ bytes. bytes.items ≡ dups.stopped_line seq refusal) }
{
    match refusal {
        DupRefusal::LongPath(limit) => {
            line_of(
                alloc,
                format!(in alloc; "dup stopped {seq} path too long {limit}"),
            )
        }
        DupRefusal::LogFull(slots) => {
            line_of(
                alloc,
                format!(in alloc; "dup stopped {seq} log full {slots}"),
            )
        }
        DupRefusal::NoSpace(units) => {
            line_of(
                alloc,
                format!(in alloc; "dup stopped {seq} no space {units}"),
            )
        }
    }
}

/// Puts a line that may have found no memory, or says that there is none, and gives the status.
pub fn put_made<K: Sink>(made: Result<Vec<u8>, OutOfMemory>, own: Status, out: &mut K) -> Status
    ensures put { (want : List ℕ) → IfOk made (λ bytes. bytes.items ≡ want)
        → PutMade own want (change K.state out.old out.new) result }
    ensures later { (K.state out.old).faults ≤ (K.state out.new).faults }
{
    match made {
        Ok(line) => put_line(out, own, line.as_slice()),
        Err(OutOfMemory) => put_memory(out),
    }
}

/// Puts a refusal that names no host, and gives its status.
fn put_refusal<K: Sink>(alloc: Global, cause: Refusal, own: Status, out: &mut K) -> Status
    requires { NamesCause 0 cause }
    ensures put { PutMade own (dups.refused_line cause) (change K.state out.old out.new) result }
    ensures later { (K.state out.old).faults ≤ (K.state out.new).faults }
{
    put_made(refusal_line(alloc, &cause, &[]), own, out)
}

/// Puts what is wrong with the image that is copied, as logplay answers it, and gives the status.
fn put_damage<K: Sink>(alloc: Global, answer: Answer, out: &mut K) -> Status
    ensures put { PutMade status.Damaged (text.answer_text (answer_view answer)) (change K.state out.old out.new) result }
    ensures later { (K.state out.old).faults ≤ (K.state out.new).faults }
{
    put_made(answer_text(alloc, &answer), Status::Damaged, out)
}

/// Puts a field of FROM's superblock.
fn put_bad_super<K: Sink>(
    alloc: Global,
    field: SuperField,
    found: u64,
    wanted: u64,
    out: &mut K,
) -> Status
    ensures put { PutMade status.Damaged (text.line (text.super_text (super.BadSuper field found wanted)))
        (change K.state out.old out.new) result }
    ensures later { (K.state out.old).faults ≤ (K.state out.new).faults }
{
    let answer = Answer::BadSuper {
        field,
        found,
        wanted,
    };
    put_damage(alloc, answer, out)
}

/// Puts a field of FROM's log, or its gate.
fn put_bad_log<K: Sink>(
    alloc: Global,
    field: LogField,
    found: u64,
    wanted: u64,
    out: &mut K,
) -> Status
    ensures put { PutMade status.Damaged (text.line (text.log_text (log.BadLog field found wanted)))
        (change K.state out.old out.new) result }
    ensures later { (K.state out.old).faults ≤ (K.state out.new).faults }
{
    let answer = Answer::BadLog {
        field,
        found,
        wanted,
    };
    put_damage(alloc, answer, out)
}

/// Puts why there is no copy, or that no memory is left to say so, and gives the status. That an image failed is put in
/// any case.
fn put_fault<K: Sink>(alloc: Global, fault: DupFault, out: &mut K) -> Status
    ensures put { PutFault (fault_class fault) (fault_line fault) (change K.state out.old out.new) result }
    ensures later { (K.state out.old).faults ≤ (K.state out.new).faults }
{
    match fault {
        DupFault::ImageSmall(lines) => {
            put_refusal(alloc, Refusal::ImageSmall(lines), Status::Damaged, out)
        }
        DupFault::NoSuper(word) => put_damage(alloc, Answer::NoSuper(word), out),
        DupFault::BadSuper {
            field,
            found,
            wanted,
        } => put_bad_super(alloc, field, found, wanted, out),
        DupFault::BadLog {
            field,
            found,
            wanted,
        } => put_bad_log(alloc, field, found, wanted, out),
        DupFault::BadEntry { seq, reason } => {
            put_damage(alloc, Answer::BadEntry { seq, reason }, out)
        }
        DupFault::TooSmall { need, have } => put_refusal(
            alloc,
            Refusal::TooSmall { need, have },
            Status::Refused,
            out,
        ),
        DupFault::HasSuper(fs) => put_refusal(alloc, Refusal::HasSuper(fs), Status::Refused, out),
        DupFault::Stopped { seq, refusal } => {
            put_made(stopped_line(alloc, seq, refusal), Status::Refused, out)
        }
        DupFault::FromFault(at) => {
            put_number(NumberLine::FromFault(at.0), Status::MediaFault, out)
        }
        DupFault::ToFault(at) => put_number(NumberLine::ToFault(at.0), Status::MediaFault, out),
        DupFault::OutOfMemory => put_memory(out),
    }
}

/// Puts how a copy ended, and gives the status. That it is made is put in any case.
fn put_dup<K: Sink>(alloc: Global, ended: Result<u64, DupFault>, out: &mut K) -> Status
    ensures put { PutDup ended (change K.state out.old out.new) result }
    ensures later { (K.state out.old).faults ≤ (K.state out.new).faults }
{
    match ended {
        Ok(count) => put_number(NumberLine::Copied(count), Status::Done, out),
        Err(fault) => put_fault(alloc, fault, out),
    }
}

/// Copies the file system on FROM onto TO, with the parameters of a file system that `request` asks for there, for a host
/// of the UUID `me`, and puts how many entries it has, or why there is no copy.
///
/// A unit or a log of a size that can't be is refused before either image is asked. `OutOfMemory` comes only where TO is
/// as it was; behind `MediaFault` TO reads as before, as no file system, or as the whole copy.
pub fn copy_file_system<M: Media, N: Media, K: Sink>(
    alloc: Global,
    me: Uuid,
    request: MkfsRequest,
    from: &mut M,
    to: &mut N,
    out: &mut K,
) -> Status
    requires { IsTrue (is_format request.format) }
    ensures ends { DupTop (Some (copy_asked me request)) (copy_outside (M.size from.old) (N.size to.old) M.exact N.exact (change M.state from.old from.new)
        (change N.state to.old to.new) (change K.state out.old out.new)) result }
    ensures steady_from { IsSteady M.size M.state from.old from.new }
    ensures steady_to { IsSteady N.size N.state to.old to.new }
    ensures later { (K.state out.old).faults ≤ (K.state out.new).faults }
{
    if !is_geometry(request.unit, request.log) {
        let cause = Refusal::BadGeometry {
            unit: request.unit,
            log: request.log,
        };
        return put_refusal(alloc, cause, Status::Refused, out);
    }
    let params = asked(&request, me, to.lines());
    let ended = dup(alloc, from, to, &params, request.force);
    put_dup(alloc, ended, out)
}
