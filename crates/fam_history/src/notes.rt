//! The words of lines. `specs/Notes.antt` has them from left to right.

ghost use Rattle.std.specs.Prelude.{◌≡◌, ◌<◌, IfSome, length};
ghost use Rattle.fam_base.specs.PathOrder.{path_eq};
ghost use Rattle.fam_grammar.specs.Cursor.{words_left, IsShort, Tells};
ghost use Rattle.fam_history.specs.Notes.{begun_note, behind_begun, format_behind, history_line, host_number, lone_note, made_line, note_behind, note_or_answer, note_word, note_words, setup_line, task_line, writes_line};

use crate::answers::{counted, told_answer};
use crate::commands::told_command;
use crate::entries::told_entry;
use crate::faults::numbered;
use crate::literals::{last_number, meaning, skip};
use crate::note::{LineNote, ToldLine, ToldParams};
use crate::refusals::told_refusal;
use fam_base::HostName;
use fam_format::FIRST_FORMAT;
use fam_grammar::{Line, LineFault, Words, fitting, format_of};
use std::alloc::Global;

/// A note of one word.
#[derive(Clone, Copy)]
pub(crate) enum LoneWord {
    Mark,
    Stop,
    Halt,
    Umount,
}

/// What a note of a host or of a file system begins with.
#[derive(Clone, Copy)]
pub(crate) enum SetupWord {
    Host,
    Made,
    Mkfs,
}

/// What a note of a command begins with.
#[derive(Clone, Copy)]
pub(crate) enum TaskWord {
    Start,
    Found,
    Writes,
    Refused,
}

/// What a note begins with.
#[derive(Clone, Copy)]
pub(crate) enum NoteWord {
    Lone(LoneWord),
    Setup(SetupWord),
    Task(TaskWord),
}

/// The words that notes begin with, but answers.
const NOTES: [(&str, NoteWord); 11] = [
    ("start", NoteWord::Task(TaskWord::Start)),
    ("mark", NoteWord::Lone(LoneWord::Mark)),
    ("found", NoteWord::Task(TaskWord::Found)),
    ("writes", NoteWord::Task(TaskWord::Writes)),
    ("refused", NoteWord::Task(TaskWord::Refused)),
    ("stop", NoteWord::Lone(LoneWord::Stop)),
    ("halt", NoteWord::Lone(LoneWord::Halt)),
    ("umount", NoteWord::Lone(LoneWord::Umount)),
    ("host", NoteWord::Setup(SetupWord::Host)),
    ("made", NoteWord::Setup(SetupWord::Made)),
    ("mkfs", NoteWord::Setup(SetupWord::Mkfs)),
];

/// The note that a word begins.
#[tactic(auto, unfolding(crate::specs::Notes::note_word))]
fn note_word(word: &[u8]) -> Option<NoteWord>
    ensures { result ≡ note_word word.now }
{
    meaning(word, &NOTES)
}

/// The note that the next word begins; then the words behind it are left, and else all.
fn begun(words: &mut Words<'_>) -> Option<NoteWord>
    requires short { IsShort words.old }
    ensures value { result ≡ begun_note (words_left words.old) }
    ensures left { words_left words.new ≡ behind_begun result (words_left words.old) }
    ensures short { IsShort words.new }
{
    let mut ahead = *words;
    let Some(word) = ahead.next() else {
        return None;
    };
    match note_word(word.text) {
        Some(first) => {
            *words = ahead;
            Some(first)
        }
        None => None,
    }
}

/// A note of one word.
fn lone(first: LoneWord) -> LineNote
    ensures { result ≡ lone_note first }
{
    match first {
        LoneWord::Mark => LineNote::Mark,
        LoneWord::Stop => LineNote::Stop,
        LoneWord::Halt => LineNote::Halt,
        LoneWord::Umount => LineNote::Umount,
    }
}

/// The number of a format, which is the first one's where none is told.
fn format_number(words: &mut Words<'_>, line: Line) -> Result<u64, LineFault>
    requires short { IsShort words.old }
    ensures value { Tells line (words_left words.new) result (format_behind line.end (words_left words.old)) }
    ensures short { IsShort words.new }
{
    if !skip(words, "format") {
        return words.ended(line, FIRST_FORMAT);
    }
    let word = words.expected(line)?;
    let number = fitting(line, word.column, format_of(word.text))?;
    words.ended(line, number)
}

/// A file system that was made.
fn made(words: &mut Words<'_>, line: Line) -> Result<ToldParams, LineFault>
    requires short { IsShort words.old }
    ensures value { Tells line (words_left words.new) result (made_line line.end (words_left words.old)) }
    ensures short { IsShort words.new }
{
    let fs = words.uuid(line)?;
    let unit = counted(words, line, "unit")?;
    let log_length = counted(words, line, "log")?;
    let device = counted(words, line, "device")?;
    let format = format_number(words, line)?;
    Ok(ToldParams {
        fs,
        unit,
        log_length,
        device,
        format,
    })
}

/// The words behind the first one, of a host or of a file system.
fn setup(first: SetupWord, words: &mut Words<'_>, line: Line) -> Result<LineNote, LineFault>
    requires short { IsShort words.old }
    ensures value { Tells line (words_left words.new) result (setup_line line.end first (words_left words.old)) }
    ensures short { IsShort words.new }
{
    match first {
        SetupWord::Host => {
            let uuid = words.uuid(line)?;
            words.ended(line, LineNote::Host(uuid))
        }
        SetupWord::Made => made(words, line).map(LineNote::Made),
        SetupWord::Mkfs => numbered(words, line, "halted").map(LineNote::Cut),
    }
}

/// An entry's number, and the entry.
fn writes(words: &mut Words<'_>, line: Line) -> Result<LineNote, LineFault>
    requires short { IsShort words.old }
    ensures value { Tells line (words_left words.new) result (writes_line line.end (words_left words.old)) }
    ensures short { IsShort words.new }
{
    let seq = words.number(line)?;
    let entry = told_entry(words, line)?;
    Ok(LineNote::Writes { seq, entry })
}

/// The words behind the first one, of a command.
fn task(
    alloc: Global,
    first: TaskWord,
    words: &mut Words<'_>,
    line: Line,
) -> Result<LineNote, LineFault>
    requires short { IsShort words.old }
    ensures value { Tells line (words_left words.new) result (task_line line.end first (words_left words.old)) }
    ensures short { IsShort words.new }
{
    match first {
        TaskWord::Start => told_command(words, line).map(LineNote::Start),
        TaskWord::Found => last_number(words, line).map(LineNote::Found),
        TaskWord::Writes => writes(words, line),
        TaskWord::Refused => told_refusal(alloc, words, line).map(LineNote::Refused),
    }
}

/// The words behind the first one.
fn behind(
    alloc: Global,
    first: NoteWord,
    words: &mut Words<'_>,
    line: Line,
) -> Result<LineNote, LineFault>
    requires short { IsShort words.old }
    ensures value { Tells line (words_left words.new) result (note_behind line.end first (words_left words.old)) }
    ensures short { IsShort words.new }
{
    match first {
        NoteWord::Lone(word) => words.ended(line, lone(word)),
        NoteWord::Setup(word) => setup(word, words, line),
        NoteWord::Task(word) => task(alloc, word, words, line),
    }
}

/// The words of a note behind the word that begins it, or of an answer.
fn note_or_answer(
    alloc: Global,
    first: Option<NoteWord>,
    words: &mut Words<'_>,
    line: Line,
) -> Result<LineNote, LineFault>
    requires short { IsShort words.old }
    ensures value { Tells line (words_left words.new) result (note_or_answer line.end first (words_left words.old)) }
    ensures short { IsShort words.new }
{
    match first {
        Some(word) => behind(alloc, word, words, line),
        None => told_answer(alloc, words, line).map(LineNote::Answered),
    }
}

/// A note, or the first line of an answer.
fn next_note(alloc: Global, words: &mut Words<'_>, line: Line) -> Result<LineNote, LineFault>
    requires short { IsShort words.old }
    ensures value { Tells line (words_left words.new) result (note_words line.end (words_left words.old)) }
    ensures short { IsShort words.new }
{
    let first = begun(words);
    note_or_answer(alloc, first, words, line)
}

/// The first line of a note, of all words that are left of it. A bad line is named by the column of the first word that
/// doesn't fit, which is the line's end where one is missing. Only the bytes and the name of a file take memory.
#[tactic(auto, unfolding(crate::specs::Notes::history_line))]
pub fn told_history_line(
    alloc: Global,
    words: &mut Words<'_>,
    line: Line,
) -> Result<ToldLine, LineFault>
    requires short { IsShort words.old }
    ensures value { Tells line (words_left words.new) result (history_line line.end (words_left words.old)) }
    ensures short { IsShort words.new }
{
    let name = words.name(line)?;
    let note = next_note(alloc, words, line)?;
    Ok(ToldLine { name, note })
}

/// Whether a host has this name.
fn is_named(declared: &HostName, name: &HostName) -> bool
    ensures { result ≡ path_eq declared.now name.now }
{
    *declared == *name
}

/// The number of the host of a name, from 0, of those declared so far in their order.
pub fn host_number(names: &[HostName], name: &HostName) -> Option<usize>
    ensures is { result ≡ host_number names.now name.now }
    ensures within { IfSome result (λ at. at < length names.now) }
{
    for (at, declared) in names.iter().enumerate() {
        if is_named(declared, name) {
            return Some(at);
        }
    }
    None
}
