//! The texts of answers. fam_outcomes' `specs/Texts.antt` has their forms.

ghost use Rattle.std.specs.Prelude.{◌≡◌, ◌<◌, ◌++◌, IfOk, codes, string_bytes};
ghost use Rattle.fam_format.specs.declared.faults.SuperFault.TheVariants as super_fault;
ghost use Rattle.fam_format.specs.declared.faults.LogFault.TheVariants as log_fault;
ghost use Rattle.fam_outcomes.specs.Texts as text;
ghost use Rattle.fam_rules.specs.declared.answers.Refused.TheVariants as refused;
ghost use Rattle.fam_rules.specs.Reply as reply;
ghost use Rattle.fam_notes.specs.Notes.{answer_view};
ghost use Rattle.fam_script.specs.Reports.{checked_prefix};

use crate::digits::{byte_digits, bytes_text};
use crate::faults::{entry_line, kind, log_line, played_lines, super_line};
use crate::lines::{line, line_of, line_with, line_with_last_name, number_line};
use crate::reports::report_lines;
use fam_base::{Kind, OutOfMemory};
use fam_format::{LogFault, LogField, SuperFault, SuperField};
use fam_rules::Checked;
use fam_tasks::Answer;
use std::alloc::{AllocError, Global};
use uuid::Uuid;

/// The line that names this host and the one that appends to the log.
fn not_master_line(alloc: Global, me: Uuid, master: Uuid) -> Result<Vec<u8>, OutOfMemory>
    ensures { IfOk result (λ bytes. bytes.items ≡ text.line (text.cause_text (refused.NotMaster me master))) }
{
    line_of(alloc, format!(in alloc; "not master {me} {master}"))
}

/// The line that names what stands at the path.
fn exists_line(alloc: Global, there: Kind) -> Result<Vec<u8>, OutOfMemory>
    ensures { IfOk result (λ bytes. bytes.items ≡ text.line (text.cause_text (refused.Exists there))) }
{
    let name = kind(there);
    line_of(alloc, format!(in alloc; "exists {name}"))
}

/// The line that names the first offset at which bytes differ, with the bytes there.
fn differs_line(
    alloc: Global,
    m: u64,
    offset: u64,
    found: u8,
    wanted: u8,
) -> Result<Vec<u8>, OutOfMemory>
    ensures { IfOk result (λ bytes. bytes.items ≡ text.reply_text (reply.Differs m offset found wanted)) }
{
    let Ok(prefix) = format!(in alloc; "differs {m} {offset} ") else {
        return Err(OutOfMemory);
    };
    let [high, low] = byte_digits(found);
    let [wanted_high, wanted_low] = byte_digits(wanted);
    let bytes = [high, low, b' ', wanted_high, wanted_low];
    line_with(alloc, prefix.as_str(), &bytes)
}

/// The line of bytes that were read.
fn bytes_line(alloc: Global, m: u64, bytes: &[u8]) -> Result<Vec<u8>, OutOfMemory>
    ensures { IfOk result (λ line. line.items ≡ text.reply_text (reply.Bytes m bytes.now)) }
{
    let Ok(prefix) = format!(in alloc; "bytes {m} ") else {
        return Err(OutOfMemory);
    };
    let digits = bytes_text(alloc, bytes)?;
    line_with(alloc, prefix.as_str(), digits.as_slice())
}

/// How a tree differs from a listing, in front of the first path.
fn checked_text(alloc: Global, m: u64, checked: &Checked) -> Result<String, AllocError>
    ensures { IfOk result (λ s. string_bytes s ≡ checked_prefix m checked.now) }
{
    let missing = checked.missing;
    let extra = checked.extra;
    let changed = checked.changed;
    format!(in alloc; "checked {m} missing {missing} extra {extra} changed {changed} first")
}

/// The line that says how a tree differs from a listing.
fn checked_line(alloc: Global, m: u64, checked: &Checked) -> Result<Vec<u8>, OutOfMemory>
    ensures { IfOk result (λ bytes. bytes.items ≡ text.line (text.checked_text m checked.now)) }
{
    let Ok(prefix) = checked_text(alloc, m, checked) else {
        return Err(OutOfMemory);
    };
    match &checked.first {
        None => line_with(alloc, prefix.as_str(), b" -"),
        Some(path) => line_with_last_name(alloc, prefix.as_str(), path.bytes()),
    }
}

/// The size of a file, and of what it is compared with.
fn length_text(alloc: Global, m: u64, size: u64, wanted: u64) -> Result<String, AllocError>
    ensures { IfOk result (λ s. string_bytes s ≡ codes "length differs" ++ text.number m ++ text.number size ++ text.number wanted) }
{
    format!(in alloc; "length differs {m} {size} {wanted}")
}

/// The line of these sizes.
fn length_line(alloc: Global, m: u64, size: u64, wanted: u64) -> Result<Vec<u8>, OutOfMemory>
    ensures { IfOk result (λ bytes. bytes.items ≡ text.reply_text (reply.Length m size wanted)) }
{
    line_of(alloc, length_text(alloc, m, size, wanted))
}

/// The line of a field of the superblock.
fn bad_super_line(
    alloc: Global,
    field: SuperField,
    found: u64,
    wanted: u64,
) -> Result<Vec<u8>, OutOfMemory>
    ensures { IfOk result (λ bytes. bytes.items ≡ text.line (text.super_text (super_fault.BadSuper field found wanted))) }
{
    super_line(
        alloc,
        SuperFault::BadSuper {
            field,
            found,
            wanted,
        },
    )
}

/// The line of a field of the log's header, or of the gate.
fn bad_log_line(
    alloc: Global,
    field: LogField,
    found: u64,
    wanted: u64,
) -> Result<Vec<u8>, OutOfMemory>
    ensures { IfOk result (λ bytes. bytes.items ≡ text.line (text.log_text (log_fault.BadLog field found wanted))) }
{
    log_line(
        alloc,
        LogFault::BadLog {
            field,
            found,
            wanted,
        },
    )
}

/// The text of an answer: its line, and the further lines of a listing or a report.
pub fn answer_text(alloc: Global, answer: &Answer) -> Result<Vec<u8>, OutOfMemory>
    ensures { IfOk result (λ bytes. bytes.items ≡ text.answer_text (answer_view answer.now)) }
{
    match answer {
        Answer::Ok(seq) => number_line(alloc, "ok", *seq),
        Answer::Played { m, tree } => played_lines(alloc, *m, tree),
        Answer::Mounted { m } => number_line(alloc, "mounted", *m),
        Answer::Same { m } => number_line(alloc, "same", *m),
        Answer::Bytes { m, bytes } => bytes_line(alloc, *m, bytes.bytes()),
        Answer::Checked { m, checked } => checked_line(alloc, *m, checked.get()),
        Answer::Report(report) => report_lines(alloc, &report.get()),
        Answer::NotFound { m } => number_line(alloc, "not found", *m),
        Answer::IsDirectory { m } => number_line(alloc, "is a directory", *m),
        Answer::Differs {
            m,
            offset,
            found,
            wanted,
        } => differs_line(alloc, *m, *offset, *found, *wanted),
        Answer::Length { m, size, wanted } => length_line(alloc, *m, *size, *wanted),
        Answer::MediaFault(at) => number_line(alloc, "media fault", at.0),
        Answer::NoSuper(word) => super_line(alloc, SuperFault::NoSuper(*word)),
        Answer::BadSuper {
            field,
            found,
            wanted,
        } => bad_super_line(alloc, *field, *found, *wanted),
        Answer::BadLog {
            field,
            found,
            wanted,
        } => bad_log_line(alloc, *field, *found, *wanted),
        Answer::BadEntry { seq, reason } => entry_line(alloc, *seq, *reason),
        Answer::NotMaster { me, master } => not_master_line(alloc, *me, *master),
        Answer::LongPath(limit) => number_line(alloc, "path too long", *limit),
        Answer::BadStripe => line(alloc, "bad stripe"),
        Answer::Exists(there) => exists_line(alloc, *there),
        Answer::NoParent => line(alloc, "no parent"),
        Answer::ParentIsFile => line(alloc, "parent is a file"),
        Answer::LogFull(slots) => number_line(alloc, "log full", *slots),
        Answer::NoSpace(units) => number_line(alloc, "no space", *units),
    }
}
