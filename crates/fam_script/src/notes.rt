//! Notes in print. fam_outcomes' `specs/Texts.antt` has their lines.

ghost use Rattle.std.specs.Prelude.{◌≡◌, ◌++◌, IfOk, length, codes, string_bytes};
ghost use Rattle.fam_tree.specs.Lines.{entry_line};
ghost use Rattle.fam_outcomes.specs.Texts as text;
ghost use Rattle.fam_journal.specs.Names.{NamesHost};
ghost use Rattle.fam_notes.specs.Notes.{note_view};

use crate::answers::answer_text;
use crate::commands::start_line;
use crate::lines::{line, line_of, line_with, number_line, uuid_line};
use crate::refusals::{host_name, refusal_line};
use fam_base::{Entry, HostName, OutOfMemory, Params, put_bytes};
use fam_format::FIRST_FORMAT;
use fam_notes::Note;
use fam_tree::print_entry;
use std::alloc::{AllocError, Global};

/// The number of a format, where it isn't the first.
fn format_text(alloc: Global, format: u64) -> Result<String, AllocError>
    ensures { IfOk result (λ s. string_bytes s ≡ text.format_text format) }
{
    if format == FIRST_FORMAT {
        return Ok(String::new(alloc));
    }
    format!(in alloc; " format {format}")
}

/// A file system that was made: its UUID, its sizes, and its format where that isn't the first.
fn made_text(alloc: Global, params: &Params) -> Result<String, AllocError>
    ensures { IfOk result (λ s. string_bytes s ≡ text.made_text params.now) }
{
    let fs = params.fs;
    let unit = params.unit;
    let log = params.log_length;
    let device = params.device;
    let format = format_text(alloc, params.format)?;
    format!(in alloc; "made {fs} unit {unit} log {log} device {device}{format}")
}

/// The line of an entry that goes on to be appended.
fn writes_line(alloc: Global, seq: u64, entry: &Entry) -> Result<Vec<u8>, OutOfMemory>
    ensures { IfOk result (λ bytes. bytes.items ≡ text.line (codes "writes" ++ text.number seq ++ codes " " ++ entry_line entry.now)) }
{
    let Ok(prefix) = format!(in alloc; "writes {seq} ") else {
        return Err(OutOfMemory);
    };
    let entry = print_entry(alloc, entry)?;
    line_with(alloc, prefix.as_str(), entry.as_slice())
}

/// The text of a note without its host's name, with its line feeds. `names` are those of the hosts declared so far.
pub fn note_text(alloc: Global, note: &Note, names: &[HostName]) -> Result<Vec<u8>, OutOfMemory>
    requires { NamesHost (length names.now) (note_view note.now) }
    ensures { IfOk result (λ bytes. bytes.items ≡ text.note_text names.now (note_view note.now)) }
{
    match note {
        Note::Host { uuid, .. } => uuid_line(alloc, "host", *uuid),
        Note::Made { params, .. } => line_of(alloc, made_text(alloc, params)),
        Note::Cut { k, .. } => number_line(alloc, "mkfs halted", *k),
        Note::Start { cmd, .. } => start_line(alloc, cmd),
        Note::Mark { .. } => line(alloc, "mark"),
        Note::Found { n, .. } => number_line(alloc, "found", *n),
        Note::Writes { seq, entry, .. } => writes_line(alloc, *seq, entry.get()),
        Note::Answered { answer, .. } => answer_text(alloc, answer),
        Note::Stop { .. } => line(alloc, "stop"),
        Note::Halt { .. } => line(alloc, "halt"),
        Note::Umount { .. } => line(alloc, "umount"),
        Note::Refused { cause, .. } => refusal_line(alloc, cause, names),
    }
}

/// The name of a note's host.
fn note_name<'a>(note: &'a Note, names: &'a [HostName]) -> &'a [u8]
    requires { NamesHost (length names.now) (note_view note.now) }
    ensures { result.now ≡ text.name_of_note names.now (note_view note.now) }
{
    match note {
        Note::Host { name, .. } => name.bytes(),
        Note::Made { host, .. } => host_name(names, *host),
        Note::Cut { host, .. } => host_name(names, *host),
        Note::Start { host, .. } => host_name(names, *host),
        Note::Mark { host } => host_name(names, *host),
        Note::Found { host, .. } => host_name(names, *host),
        Note::Writes { host, .. } => host_name(names, *host),
        Note::Answered { host, .. } => host_name(names, *host),
        Note::Stop { host } => host_name(names, *host),
        Note::Halt { host } => host_name(names, *host),
        Note::Umount { host } => host_name(names, *host),
        Note::Refused { name, .. } => name.bytes(),
    }
}

/// A note in print: the name of its host, its text, and the further lines of a listing or a report, each with a line
/// feed. `names` are those of the hosts declared so far, in their order; a note that declares a host, and a refusal,
/// bring their own.
pub fn print_note(alloc: Global, note: &Note, names: &[HostName]) -> Result<Vec<u8>, OutOfMemory>
    requires named { NamesHost (length names.now) (note_view note.now) }
    ensures value { IfOk result (λ bytes. bytes.items ≡ text.note_line names.now (note_view note.now)) }
{
    let rest = note_text(alloc, note, names)?;
    let mut text = Vec::new(alloc);
    put_bytes(note_name(note, names), &mut text)?;
    put_bytes(b" ", &mut text)?;
    put_bytes(rest.as_slice(), &mut text)?;
    Ok(text)
}
