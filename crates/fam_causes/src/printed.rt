//! The text of a cause. `specs/CauseTexts.antt` has its form.

ghost use Rattle.std.specs.Prelude.{◌≡◌, ◌++◌, IfOk, codes, string_bytes};
ghost use Rattle.fam_history.specs.declared.answer.ToldAnswer.TheVariants as told;
ghost use Rattle.fam_history.specs.ToldAnswers.{told_answer_text};
ghost use Rattle.fam_notes.specs.Notes.{answer_view};
ghost use Rattle.fam_outcomes.specs.Texts as text;
ghost use Rattle.fam_script.specs.Reports.{checked_prefix};
ghost use Rattle.fam_causes.specs.declared.kinds.Cause.TheVariants as cause;
ghost use Rattle.fam_causes.specs.CauseTexts.{cause_lines, entry_or_end, wanted_line};

use crate::kinds::Cause;
use fam_base::{ByteText, Entry, LineNo, OutOfMemory, SharedBytes, put_bytes};
use fam_format::{LogFault, Reason, SuperFault};
use fam_history::ToldAnswer;
use fam_rules::{Checked, Refused};
use fam_script::{answer_text, line, line_of, line_with, line_with_last_name};
use fam_tasks::Answer;
use fam_tree::print_entry;
use std::alloc::{AllocError, Global};

/// The text of an answer.
fn printed(alloc: Global, answer: Answer) -> Result<Vec<u8>, OutOfMemory>
    ensures { IfOk result (λ bytes. bytes.items ≡ text.answer_text (answer_view answer)) }
{
    answer_text(alloc, &answer)
}

/// The line of a refusal.
fn refused_line(alloc: Global, why: &Refused) -> Result<Vec<u8>, OutOfMemory>
    ensures { IfOk result (λ bytes. bytes.items ≡ text.line (text.cause_text why.now)) }
{
    let answer = match why {
        Refused::NotMaster { me, master } => Answer::NotMaster {
            me: *me,
            master: *master,
        },
        Refused::LongPath(limit) => Answer::LongPath(*limit),
        Refused::BadStripe => Answer::BadStripe,
        Refused::Exists(there) => Answer::Exists(*there),
        Refused::NoParent => Answer::NoParent,
        Refused::ParentIsFile => Answer::ParentIsFile,
        Refused::LogFull(slots) => Answer::LogFull(*slots),
        Refused::NoSpace(units) => Answer::NoSpace(*units),
    };
    printed(alloc, answer)
}

/// The line of a fault of the superblock.
fn super_line(alloc: Global, fault: &SuperFault) -> Result<Vec<u8>, OutOfMemory>
    ensures { IfOk result (λ bytes. bytes.items ≡ text.line (text.super_text fault.now)) }
{
    match fault {
        SuperFault::NoSuper(word) => printed(alloc, Answer::NoSuper(*word)),
        SuperFault::BadSuper {
            field,
            found,
            wanted,
        } => printed(
            alloc,
            Answer::BadSuper {
                field: *field,
                found: *found,
                wanted: *wanted,
            },
        ),
    }
}

/// The line of a fault of the log.
fn log_line(alloc: Global, fault: &LogFault) -> Result<Vec<u8>, OutOfMemory>
    ensures { IfOk result (λ bytes. bytes.items ≡ text.line (text.log_text fault.now)) }
{
    match fault {
        LogFault::BadLog {
            field,
            found,
            wanted,
        } => printed(
            alloc,
            Answer::BadLog {
                field: *field,
                found: *found,
                wanted: *wanted,
            },
        ),
    }
}

/// The line of bytes that were read.
fn bytes_line(alloc: Global, m: u64, given: &SharedBytes) -> Result<Vec<u8>, OutOfMemory>
    ensures { IfOk result (λ bytes. bytes.items ≡ text.line (told_answer_text (told.Bytes m given.now))) }
{
    let mut copy = Vec::new(alloc);
    put_bytes(given.as_slice(), &mut copy)?;
    let bytes = ByteText::new(copy);
    printed(alloc, Answer::Bytes { m, bytes })
}

/// How a tree differs, in front of the first path.
fn counts_text(alloc: Global, m: u64, checked: &Checked) -> Result<String, AllocError>
    ensures { IfOk result (λ s. string_bytes s ≡ checked_prefix m checked.now) }
{
    let missing = checked.missing;
    let extra = checked.extra;
    let changed = checked.changed;
    format!(in alloc; "checked {m} missing {missing} extra {extra} changed {changed} first")
}

/// The line of how a tree differs.
fn checked_line(alloc: Global, m: u64, checked: &Checked) -> Result<Vec<u8>, OutOfMemory>
    ensures { IfOk result (λ bytes. bytes.items ≡ text.line (told_answer_text (told.Checked m checked.now))) }
{
    let Ok(prefix) = counts_text(alloc, m, checked) else {
        return Err(OutOfMemory);
    };
    match &checked.first {
        None => line_with(alloc, prefix.as_str(), b" -"),
        Some(path) => line_with_last_name(alloc, prefix.as_str(), path.bytes()),
    }
}

/// The first line of a report.
fn report_line(alloc: Global, sound: bool) -> Result<Vec<u8>, OutOfMemory>
    ensures { IfOk result (λ bytes. bytes.items ≡ text.line (told_answer_text (told.Report sound))) }
{
    if sound {
        line(alloc, "fsck sound")
    } else {
        line(alloc, "fsck damaged")
    }
}

/// The line of the first bytes that differ.
fn differs_line(
    alloc: Global,
    m: u64,
    offset: u64,
    found: u8,
    wanted: u8,
) -> Result<Vec<u8>, OutOfMemory>
    ensures { IfOk result (λ bytes. bytes.items ≡ text.line (told_answer_text (told.Differs m offset found wanted))) }
{
    printed(
        alloc,
        Answer::Differs {
            m,
            offset,
            found,
            wanted,
        },
    )
}

/// The line of two sizes.
fn length_line(alloc: Global, m: u64, size: u64, wanted: u64) -> Result<Vec<u8>, OutOfMemory>
    ensures { IfOk result (λ bytes. bytes.items ≡ text.line (told_answer_text (told.Length m size wanted))) }
{
    printed(alloc, Answer::Length { m, size, wanted })
}

/// The line of a bad slot.
fn slot_line(alloc: Global, seq: u64, reason: Reason) -> Result<Vec<u8>, OutOfMemory>
    ensures { IfOk result (λ bytes. bytes.items ≡ text.line (told_answer_text (told.BadSlot seq reason))) }
{
    printed(alloc, Answer::BadEntry { seq, reason })
}

/// The first line of an answer.
fn answer_line(alloc: Global, answer: &ToldAnswer) -> Result<Vec<u8>, OutOfMemory>
    ensures { IfOk result (λ bytes. bytes.items ≡ text.line (told_answer_text answer.now)) }
{
    match answer {
        ToldAnswer::Ok(seq) => printed(alloc, Answer::Ok(*seq)),
        ToldAnswer::NotAppended(why) => refused_line(alloc, why),
        ToldAnswer::Played(m) => line_of(alloc, format!(in alloc; "played {m}")),
        ToldAnswer::Mounted(m) => printed(alloc, Answer::Mounted { m: *m }),
        ToldAnswer::Same(m) => printed(alloc, Answer::Same { m: *m }),
        ToldAnswer::Differs {
            entries,
            offset,
            found,
            wanted,
        } => differs_line(alloc, *entries, *offset, *found, *wanted),
        ToldAnswer::Length {
            entries,
            size,
            wanted,
        } => length_line(alloc, *entries, *size, *wanted),
        ToldAnswer::Bytes(m, bytes) => bytes_line(alloc, *m, bytes),
        ToldAnswer::NotFound(m) => printed(alloc, Answer::NotFound { m: *m }),
        ToldAnswer::IsDirectory(m) => printed(alloc, Answer::IsDirectory { m: *m }),
        ToldAnswer::Checked(m, checked) => checked_line(alloc, *m, checked),
        ToldAnswer::Report(sound) => report_line(alloc, *sound),
        ToldAnswer::NoSuperblock(fault) => super_line(alloc, fault),
        ToldAnswer::BadHeader(fault) => log_line(alloc, fault),
        ToldAnswer::BadSlot(seq, reason) => slot_line(alloc, *seq, *reason),
        ToldAnswer::MediaFault(at) => printed(alloc, Answer::MediaFault(LineNo(*at))),
    }
}

/// An entry as a listing has it, or `-`.
fn entry_line(alloc: Global, entry: &Option<Entry>) -> Result<Vec<u8>, OutOfMemory>
    ensures { IfOk result (λ bytes. bytes.items ≡ entry_or_end entry.now) }
{
    let Some(entry) = entry else {
        return line(alloc, "-");
    };
    let mut bytes = print_entry(alloc, entry)?;
    put_bytes(b"\n", &mut bytes)?;
    Ok(bytes)
}

/// The entry of a listing that differs, and the one that was wanted.
fn tree_lines(
    alloc: Global,
    found: &Option<Entry>,
    wanted: &Option<Entry>,
) -> Result<Vec<u8>, OutOfMemory>
    ensures { IfOk result (λ bytes. bytes.items ≡ cause_lines (cause.OtherTree found.now wanted.now)) }
{
    let mut bytes = line(alloc, "other tree")?;
    let first = entry_line(alloc, found)?;
    let second = entry_line(alloc, wanted)?;
    put_bytes(first.as_slice(), &mut bytes)?;
    put_bytes(second.as_slice(), &mut bytes)?;
    Ok(bytes)
}

/// The answer that was wanted, where it is known.
fn other_lines(alloc: Global, wanted: &Option<ToldAnswer>) -> Result<Vec<u8>, OutOfMemory>
    ensures { IfOk result (λ bytes. bytes.items ≡ cause_lines (cause.OtherAnswer wanted.now)) }
{
    let mut bytes = line(alloc, "other answer")?;
    let Some(wanted) = wanted else {
        return Ok(bytes);
    };
    let behind = answer_line(alloc, wanted)?;
    put_bytes(behind.as_slice(), &mut bytes)?;
    Ok(bytes)
}

/// Too few entries are shown.
fn few_text(alloc: Global, shown: u64, floor: u64, mark: u64) -> Result<String, AllocError>
    ensures { IfOk result (λ s. string_bytes s
        ≡ codes "shown" ++ text.number shown ++ codes " of at least" ++ text.number floor ++ codes " settled at line" ++ text.number mark) }
{
    format!(in alloc; "shown {shown} of at least {floor} settled at line {mark}")
}

/// Too many are shown.
fn many_text(alloc: Global, shown: u64, most: u64) -> Result<String, AllocError>
    ensures { IfOk result (λ s. string_bytes s ≡ codes "shown" ++ text.number shown ++ codes " of at most" ++ text.number most) }
{
    format!(in alloc; "shown {shown} of at most {most}")
}

/// Another count is found.
fn found_text(alloc: Global, found: u64, first: u64, second: u64) -> Result<String, AllocError>
    ensures { IfOk result (λ s. string_bytes s
        ≡ codes "found" ++ text.number found ++ codes " of" ++ text.number first ++ codes " or" ++ text.number second) }
{
    format!(in alloc; "found {found} of {first} or {second}")
}

/// The text of a cause, with its line feed and the lines behind it.
pub fn cause_text(alloc: Global, cause: &Cause) -> Result<Vec<u8>, OutOfMemory>
    ensures { IfOk result (λ text. text.items ≡ cause_lines cause.now) }
{
    match cause {
        Cause::NoSuchHost => line(alloc, "no such host"),
        Cause::SameHost(name) => line_with(alloc, "same host ", name.bytes()),
        Cause::StillRunning(name) => line_with(alloc, "still running ", name.bytes()),
        Cause::NotRunning => line(alloc, "not running"),
        Cause::NoAnswer => line(alloc, "no answer of this command"),
        Cause::ShownFew { shown, floor, mark } => {
            line_of(alloc, few_text(alloc, *shown, *floor, *mark))
        }
        Cause::ShownMany { shown, most } => line_of(alloc, many_text(alloc, *shown, *most)),
        Cause::OtherTree { found, wanted } => tree_lines(alloc, found, wanted),
        Cause::OtherAnswer(wanted) => other_lines(alloc, wanted),
        Cause::NotAcknowledged(seq) => line_of(alloc, format!(in alloc; "not acknowledged {seq}")),
        Cause::OtherEntry => line(alloc, "other entry"),
        Cause::Found {
            found,
            first,
            second,
        } => line_of(alloc, found_text(alloc, *found, *first, *second)),
        Cause::OtherDamage => line(alloc, "other damage"),
    }
}
