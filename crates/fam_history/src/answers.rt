//! The words of answers. `specs/Answers.antt` has them from left to right.

ghost use Rattle.std.specs.Prelude.{◌≡◌};
ghost use Rattle.fam_grammar.specs.Cursor.{words_left, IsShort, Tells};
ghost use Rattle.fam_grammar.specs.Reading.{word_of};
ghost use Rattle.fam_history.specs.ByteWords.{one_byte};
ghost use Rattle.fam_history.specs.Answers.{answer_behind, answer_line, answer_word, bad_answer, bytes_line, checked_line, checked_words, counted_word, differs_line, entry_line_of, fsck_line, is_line, length_line, no_answer, none_differs, not_line, path_line, path_or_none, some_path};

use crate::answer::ToldAnswer;
use crate::byte_words::{bytes_of, one_byte};
use crate::faults::{is_a_file, last_kind, log_fault, numbered, reason, super_fault};
use crate::literals::{last_number, last_two, last_word, literal, meaning, skip};
use fam_base::Path;
use fam_format::SuperFault;
use fam_grammar::{Line, LineFault, Words, fitting};
use fam_rules::{Checked, Refused};
use std::alloc::Global;

/// What an answer begins with.
#[derive(Clone, Copy)]
pub(crate) enum AnswerWord {
    Done,
    Not,
    Path,
    Bad,
    Exists,
    No,
    Parent,
    Log,
    Played,
    Mounted,
    Same,
    Differs,
    Length,
    Bytes,
    Is,
    Checked,
    Fsck,
    Media,
}

/// The words that answers begin with.
const ANSWERS: [(&str, AnswerWord); 18] = [
    ("ok", AnswerWord::Done),
    ("not", AnswerWord::Not),
    ("path", AnswerWord::Path),
    ("bad", AnswerWord::Bad),
    ("exists", AnswerWord::Exists),
    ("no", AnswerWord::No),
    ("parent", AnswerWord::Parent),
    ("log", AnswerWord::Log),
    ("played", AnswerWord::Played),
    ("mounted", AnswerWord::Mounted),
    ("same", AnswerWord::Same),
    ("differs", AnswerWord::Differs),
    ("length", AnswerWord::Length),
    ("bytes", AnswerWord::Bytes),
    ("is", AnswerWord::Is),
    ("checked", AnswerWord::Checked),
    ("fsck", AnswerWord::Fsck),
    ("media", AnswerWord::Media),
];

/// The answers that a word begins.
#[tactic(auto, unfolding(crate::specs::Answers::answer_word))]
fn answer_word(word: &[u8]) -> Option<AnswerWord>
    ensures { result ≡ answer_word word.now }
{
    meaning(word, &ANSWERS)
}

fn not(words: &mut Words<'_>, line: Line) -> Result<ToldAnswer, LineFault>
    requires short { IsShort words.old }
    ensures value { Tells line (words_left words.new) result (not_line line.end (words_left words.old)) }
    ensures short { IsShort words.new }
{
    if skip(words, "found") {
        return last_number(words, line).map(ToldAnswer::NotFound);
    }
    literal(words, line, "master")?;
    let me = words.uuid(line)?;
    let master = words.uuid(line)?;
    words.ended(
        line,
        ToldAnswer::NotAppended(Refused::NotMaster { me, master }),
    )
}

fn path(words: &mut Words<'_>, line: Line) -> Result<ToldAnswer, LineFault>
    requires short { IsShort words.old }
    ensures value { Tells line (words_left words.new) result (path_line line.end (words_left words.old)) }
    ensures short { IsShort words.new }
{
    literal(words, line, "too")?;
    numbered(words, line, "long")
        .map(Refused::LongPath)
        .map(ToldAnswer::NotAppended)
}

fn entry(words: &mut Words<'_>, line: Line) -> Result<ToldAnswer, LineFault>
    requires short { IsShort words.old }
    ensures value { Tells line (words_left words.new) result (entry_line_of line.end (words_left words.old)) }
    ensures short { IsShort words.new }
{
    let seq = words.number(line)?;
    let why = reason(words, line)?;
    Ok(ToldAnswer::BadSlot(seq, why))
}

fn bad(words: &mut Words<'_>, line: Line) -> Result<ToldAnswer, LineFault>
    requires short { IsShort words.old }
    ensures value { Tells line (words_left words.new) result (bad_answer line.end (words_left words.old)) }
    ensures short { IsShort words.new }
{
    if skip(words, "stripe") {
        return words.ended(line, ToldAnswer::NotAppended(Refused::BadStripe));
    }
    if skip(words, "superblock") {
        return super_fault(words, line).map(ToldAnswer::NoSuperblock);
    }
    if skip(words, "log") {
        return log_fault(words, line).map(ToldAnswer::BadHeader);
    }
    literal(words, line, "entry")?;
    entry(words, line)
}

fn no(words: &mut Words<'_>, line: Line) -> Result<ToldAnswer, LineFault>
    requires short { IsShort words.old }
    ensures value { Tells line (words_left words.new) result (no_answer line.end (words_left words.old)) }
    ensures short { IsShort words.new }
{
    if skip(words, "parent") {
        return words.ended(line, ToldAnswer::NotAppended(Refused::NoParent));
    }
    if skip(words, "superblock") {
        return last_number(words, line)
            .map(SuperFault::NoSuper)
            .map(ToldAnswer::NoSuperblock);
    }
    numbered(words, line, "space")
        .map(Refused::NoSpace)
        .map(ToldAnswer::NotAppended)
}

/// A byte of two digits.
fn byte(words: &mut Words<'_>, line: Line) -> Result<u8, LineFault>
    requires short { IsShort words.old }
    ensures value { Tells line (words_left words.new) result (word_of one_byte line.end (words_left words.old)) }
    ensures short { IsShort words.new }
{
    match words.expected(line) {
        Ok(word) => fitting(line, word.column, one_byte(word.text)),
        Err(fault) => Err(fault),
    }
}

fn differs(words: &mut Words<'_>, line: Line) -> Result<ToldAnswer, LineFault>
    requires short { IsShort words.old }
    ensures value { Tells line (words_left words.new) result (differs_line line.end (words_left words.old)) }
    ensures short { IsShort words.new }
{
    let entries = words.number(line)?;
    let offset = words.number(line)?;
    let found = byte(words, line)?;
    let wanted = byte(words, line)?;
    words.ended(
        line,
        ToldAnswer::Differs {
            entries,
            offset,
            found,
            wanted,
        },
    )
}

fn length(words: &mut Words<'_>, line: Line) -> Result<ToldAnswer, LineFault>
    requires short { IsShort words.old }
    ensures value { Tells line (words_left words.new) result (length_line line.end (words_left words.old)) }
    ensures short { IsShort words.new }
{
    literal(words, line, "differs")?;
    let entries = words.number(line)?;
    let (size, wanted) = last_two(words, line)?;
    Ok(ToldAnswer::Length {
        entries,
        size,
        wanted,
    })
}

fn bytes(alloc: Global, words: &mut Words<'_>, line: Line) -> Result<ToldAnswer, LineFault>
    requires short { IsShort words.old }
    ensures value { Tells line (words_left words.new) result (bytes_line line.end (words_left words.old)) }
    ensures short { IsShort words.new }
{
    let entries = words.number(line)?;
    let word = words.expected(line)?;
    let spelled = bytes_of(alloc, word.text)?;
    let bytes = fitting(line, word.column, spelled)?;
    words.ended(line, ToldAnswer::Bytes(entries, bytes))
}

fn directory(words: &mut Words<'_>, line: Line) -> Result<ToldAnswer, LineFault>
    requires short { IsShort words.old }
    ensures value { Tells line (words_left words.new) result (is_line line.end (words_left words.old)) }
    ensures short { IsShort words.new }
{
    literal(words, line, "a")?;
    numbered(words, line, "directory").map(ToldAnswer::IsDirectory)
}

/// A number behind a word.
pub(crate) fn counted(words: &mut Words<'_>, line: Line, wanted: &str) -> Result<u64, LineFault>
    requires short { IsShort words.old }
    ensures value { Tells line (words_left words.new) result (counted_word line.end wanted.now (words_left words.old)) }
    ensures short { IsShort words.new }
{
    literal(words, line, wanted)?;
    words.number(line)
}

/// Whether no path differs.
fn none_differs(missing: u64, extra: u64, changed: u64) -> bool
    ensures { result ≡ none_differs missing extra changed }
{
    missing == 0 && extra == 0 && changed == 0
}

fn some_path(words: &mut Words<'_>, line: Line) -> Result<Option<Path>, LineFault>
    requires short { IsShort words.old }
    ensures value { Tells line (words_left words.new) result (some_path line.end (words_left words.old)) }
    ensures short { IsShort words.new }
{
    words.path(line).map(Some)
}

/// A path; or `-` for none, where no path differs.
fn path_or_none(words: &mut Words<'_>, line: Line, same: bool) -> Result<Option<Path>, LineFault>
    requires short { IsShort words.old }
    ensures value { Tells line (words_left words.new) result (path_or_none line.end same (words_left words.old)) }
    ensures short { IsShort words.new }
{
    if !same {
        return some_path(words, line);
    }
    if skip(words, "-") {
        return Ok(None);
    }
    some_path(words, line)
}

/// How a tree differs from a listing.
fn differences(words: &mut Words<'_>, line: Line) -> Result<Checked, LineFault>
    requires short { IsShort words.old }
    ensures value { Tells line (words_left words.new) result (checked_words line.end (words_left words.old)) }
    ensures short { IsShort words.new }
{
    let missing = counted(words, line, "missing")?;
    let extra = counted(words, line, "extra")?;
    let changed = counted(words, line, "changed")?;
    literal(words, line, "first")?;
    let first = path_or_none(words, line, none_differs(missing, extra, changed))?;
    words.ended(
        line,
        Checked {
            missing,
            extra,
            changed,
            first,
        },
    )
}

fn checked(words: &mut Words<'_>, line: Line) -> Result<ToldAnswer, LineFault>
    requires short { IsShort words.old }
    ensures value { Tells line (words_left words.new) result (checked_line line.end (words_left words.old)) }
    ensures short { IsShort words.new }
{
    let entries = words.number(line)?;
    let checked = differences(words, line)?;
    Ok(ToldAnswer::Checked(entries, checked))
}

fn fsck(words: &mut Words<'_>, line: Line) -> Result<ToldAnswer, LineFault>
    requires short { IsShort words.old }
    ensures value { Tells line (words_left words.new) result (fsck_line line.end (words_left words.old)) }
    ensures short { IsShort words.new }
{
    if skip(words, "sound") {
        return words.ended(line, ToldAnswer::Report(true));
    }
    last_word(words, line, "damaged", ToldAnswer::Report(false))
}

/// The words behind the first one.
fn behind(
    alloc: Global,
    first: AnswerWord,
    words: &mut Words<'_>,
    line: Line,
) -> Result<ToldAnswer, LineFault>
    requires short { IsShort words.old }
    ensures value { Tells line (words_left words.new) result (answer_behind line.end first (words_left words.old)) }
    ensures short { IsShort words.new }
{
    match first {
        AnswerWord::Done => last_number(words, line).map(ToldAnswer::Ok),
        AnswerWord::Not => not(words, line),
        AnswerWord::Path => path(words, line),
        AnswerWord::Bad => bad(words, line),
        AnswerWord::Exists => last_kind(words, line)
            .map(Refused::Exists)
            .map(ToldAnswer::NotAppended),
        AnswerWord::No => no(words, line),
        AnswerWord::Parent => {
            is_a_file(words, line)?;
            Ok(ToldAnswer::NotAppended(Refused::ParentIsFile))
        }
        AnswerWord::Log => numbered(words, line, "full")
            .map(Refused::LogFull)
            .map(ToldAnswer::NotAppended),
        AnswerWord::Played => last_number(words, line).map(ToldAnswer::Played),
        AnswerWord::Mounted => last_number(words, line).map(ToldAnswer::Mounted),
        AnswerWord::Same => last_number(words, line).map(ToldAnswer::Same),
        AnswerWord::Differs => differs(words, line),
        AnswerWord::Length => length(words, line),
        AnswerWord::Bytes => bytes(alloc, words, line),
        AnswerWord::Is => directory(words, line),
        AnswerWord::Checked => checked(words, line),
        AnswerWord::Fsck => fsck(words, line),
        AnswerWord::Media => numbered(words, line, "fault").map(ToldAnswer::MediaFault),
    }
}

/// The first line of an answer, of all words that are left of it. A bad line is named by the column of the first word that
/// doesn't fit, which is the line's end where one is missing. Only the bytes of a file take memory.
#[tactic(auto, unfolding(crate::specs::Answers::answer_line))]
pub fn told_answer(
    alloc: Global,
    words: &mut Words<'_>,
    line: Line,
) -> Result<ToldAnswer, LineFault>
    requires short { IsShort words.old }
    ensures value { Tells line (words_left words.new) result (answer_line line.end (words_left words.old)) }
    ensures short { IsShort words.new }
{
    let word = words.expected(line)?;
    let first = fitting(line, word.column, answer_word(word.text))?;
    behind(alloc, first, words, line)
}
