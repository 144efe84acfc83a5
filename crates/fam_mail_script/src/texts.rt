//! Notes in print. `specs/Texts.antt` has their lines.

ghost use Rattle.std.specs.Prelude.{◌≡◌, ◌++◌, ◌≤◌, IfOk, OnOk, codes};
ghost use Rattle.fam_mail_script.specs.Texts as text;
ghost use Rattle.fam_outcomes.specs.Texts as lines;

use fam_base::{OutOfMemory, put_bytes};
use fam_mail::{Ask, MailNote, MailRefusal, Record};
use fam_script::{line, line_of, line_with};
use std::alloc::Global;

/// Adds a number, with a space in front.
fn put_number(alloc: Global, number: u64, into: &mut Vec<u8>) -> Result<(), OutOfMemory>
    ensures { OnOk result (into.new.items ≡ into.old.items ++ lines.number number) }
{
    match format!(in alloc; " {number}") {
        Ok(text) => put_bytes(text.as_bytes(), into),
        Err(_) => Err(OutOfMemory),
    }
}

/// Adds numbers, a space in front of each.
fn put_numbers(alloc: Global, numbers: &[u64], into: &mut Vec<u8>) -> Result<(), OutOfMemory>
    ensures { OnOk result (into.new.items ≡ into.old.items ++ text.numbers_text numbers.now) }
{
    for number in numbers {
        put_number(alloc, *number, into)?;
    }
    Ok(())
}

/// Adds the line of a record: its numbers, a space between two of them.
fn put_record(alloc: Global, one: &Record, into: &mut Vec<u8>) -> Result<(), OutOfMemory>
    ensures { OnOk result (into.new.items ≡ into.old.items ++ text.record_text_line one.now) }
{
    if let [first, more @ ..] = one.numbers() {
        match format!(in alloc; "{first}") {
            Ok(text) => put_bytes(text.as_bytes(), into)?,
            Err(_) => return Err(OutOfMemory),
        }
        put_numbers(alloc, more, into)?;
    }
    put_bytes(b"\n", into)
}

/// Adds the lines of records.
fn put_records(alloc: Global, records: &[Record], into: &mut Vec<u8>) -> Result<(), OutOfMemory>
    ensures { OnOk result (into.new.items ≡ into.old.items ++ text.records_text records.now) }
{
    for record in records {
        put_record(alloc, record, into)?;
    }
    Ok(())
}

/// The line that says how many records were taken.
fn count_line(alloc: Global, count: u64) -> Result<Vec<u8>, OutOfMemory>
    ensures { IfOk result (λ bytes. bytes.items ≡ lines.line (codes "taken" ++ lines.number count)) }
{
    line_of(alloc, format!(in alloc; "taken {count}"))
}

/// The lines of records that were taken: how many, and each of them.
fn taken_lines(alloc: Global, count: u64, records: &[Record]) -> Result<Vec<u8>, OutOfMemory>
    ensures { IfOk result (λ bytes. bytes.items ≡
        lines.line (codes "taken" ++ lines.number count) ++ text.records_text records.now) }
{
    let mut bytes = count_line(alloc, count)?;
    put_records(alloc, records, &mut bytes)?;
    Ok(bytes)
}

/// The line of a task that begins.
fn start_line(alloc: Global, ask: &Ask) -> Result<Vec<u8>, OutOfMemory>
    ensures { IfOk result (λ bytes. bytes.items ≡ lines.line (codes "start " ++ text.ask_text ask.now)) }
{
    match ask {
        Ask::Take => line(alloc, "start take"),
        Ask::Post(record) => {
            let mut numbers = Vec::new(alloc);
            put_numbers(alloc, record.numbers(), &mut numbers)?;
            line_with(alloc, "start post", numbers.as_slice())
        }
    }
}

/// The line of a refusal of a call for the host of this name.
fn refusal_line(alloc: Global, name: &[u8], cause: &MailRefusal) -> Result<Vec<u8>, OutOfMemory>
    ensures { IfOk result (λ bytes. bytes.items ≡
        lines.line (codes "refused " ++ text.mail_refusal_text name.now cause.now)) }
{
    match cause {
        MailRefusal::NoHost => line(alloc, "refused no host"),
        MailRefusal::SameHost(other) => line_with(alloc, "refused same host ", other.bytes()),
        MailRefusal::TooManyHosts => line(alloc, "refused too many hosts"),
        MailRefusal::SecondWriter(other) => line_with(
            alloc,
            "refused second writer ",
            other.bytes(),
        ),
        MailRefusal::Busy => line_with(alloc, "refused busy ", name),
        MailRefusal::NotWriter => line(alloc, "refused not writer"),
        MailRefusal::Idle => line(alloc, "refused idle"),
        MailRefusal::NoLine { line, lines } => {
            line_of(alloc, format!(in alloc; "refused no line {line} {lines}"))
        }
        MailRefusal::MediaFault(at) => {
            let at = at.0;
            line_of(alloc, format!(in alloc; "refused media fault {at}"))
        }
    }
}

/// The text of a note without its host's name, with its line feeds.
fn note_text(alloc: Global, note: &MailNote) -> Result<Vec<u8>, OutOfMemory>
    ensures { IfOk result (λ bytes. bytes.items ≡ text.mail_note_text note.now) }
{
    match note {
        MailNote::Writer(_) => line(alloc, "writer"),
        MailNote::Reader(_) => line(alloc, "reader"),
        MailNote::Start(_, ask) => start_line(alloc, ask),
        MailNote::Mark(_) => line(alloc, "mark"),
        MailNote::Found(_, n) => line_of(alloc, format!(in alloc; "found {n}")),
        MailNote::Posted(_, n) => line_of(alloc, format!(in alloc; "posted {n}")),
        MailNote::Full(_, n) => line_of(alloc, format!(in alloc; "full {n}")),
        MailNote::Taken(_, count, records) => taken_lines(alloc, *count, records.as_slice()),
        MailNote::BadBox { gate, capacity, .. } => {
            line_of(alloc, format!(in alloc; "bad box {gate} {capacity}"))
        }
        MailNote::BadRecord { i, .. } => line_of(alloc, format!(in alloc; "bad record {i}")),
        MailNote::Stop(_) => line(alloc, "stop"),
        MailNote::Halt(_) => line(alloc, "halt"),
        MailNote::MediaFault(_, at) => {
            let at = at.0;
            line_of(alloc, format!(in alloc; "media fault {at}"))
        }
        MailNote::Refused(name, cause) => refusal_line(alloc, name.bytes(), cause),
    }
}

/// The name of a note's host.
fn note_name(note: &MailNote) -> &[u8]
    ensures { result.now ≡ text.mail_note_name note.now }
{
    match note {
        MailNote::Writer(name) => name.bytes(),
        MailNote::Reader(name) => name.bytes(),
        MailNote::Start(name, _) => name.bytes(),
        MailNote::Mark(name) => name.bytes(),
        MailNote::Found(name, _) => name.bytes(),
        MailNote::Posted(name, _) => name.bytes(),
        MailNote::Full(name, _) => name.bytes(),
        MailNote::Taken(name, _, _) => name.bytes(),
        MailNote::BadBox { name, .. } => name.bytes(),
        MailNote::BadRecord { name, .. } => name.bytes(),
        MailNote::Stop(name) => name.bytes(),
        MailNote::Halt(name) => name.bytes(),
        MailNote::MediaFault(name, _) => name.bytes(),
        MailNote::Refused(name, _) => name.bytes(),
    }
}

/// A note in print: the name of its host, its text, and the further lines of records that were taken, each with a line
/// feed.
pub fn note_line(alloc: Global, note: &MailNote) -> Result<Vec<u8>, OutOfMemory>
    ensures { IfOk result (λ bytes. bytes.items ≡ text.mail_note_line note.now) }
{
    let rest = note_text(alloc, note)?;
    let mut text = Vec::new(alloc);
    put_bytes(note_name(note), &mut text)?;
    put_bytes(b" ", &mut text)?;
    put_bytes(rest.as_slice(), &mut text)?;
    Ok(text)
}
