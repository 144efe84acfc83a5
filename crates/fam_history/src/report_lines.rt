//! The words of a report's lines behind the first. `specs/ReportLines.antt` has them from left to right.

ghost use Rattle.std.specs.Prelude.{◌≡◌};
ghost use Rattle.fam_grammar.specs.Cursor.{words_left, IsShort, Tells};
ghost use Rattle.fam_history.specs.ReportLines.{bad_entry_line, files_line, bad_log_state, log_behind, log_state_line, one_of, overlap_line, pair_or_none, past_line, slot_or_none, bad_super_state, superblock_line, units_line};

use crate::answers::counted;
use crate::faults::{log_fault, numbered, reason, super_fault};
use crate::literals::{last_two, last_word, literal, skip};
use fam_format::{LogFault, Reason, SuperFault};
use fam_grammar::{Line, LineFault, Words};
use fam_rules::{LogState, SuperState};

/// What a fault says of the superblock.
fn super_state(fault: SuperFault) -> SuperState
    ensures { result ≡ bad_super_state fault }
{
    match fault {
        SuperFault::NoSuper(word) => SuperState::NoSuper(word),
        SuperFault::BadSuper {
            field,
            found,
            wanted,
        } => SuperState::BadSuper {
            field,
            found,
            wanted,
        },
    }
}

/// What a fault says of the log.
fn log_state(fault: LogFault) -> LogState
    ensures { result ≡ bad_log_state fault }
{
    match fault {
        LogFault::BadLog {
            field,
            found,
            wanted,
        } => LogState::BadLog {
            field,
            found,
            wanted,
        },
    }
}

/// What a report says of the superblock.
pub fn told_superblock(words: &mut Words<'_>, line: Line) -> Result<SuperState, LineFault>
    requires short { IsShort words.old }
    ensures value { Tells line (words_left words.new) result (superblock_line line.end (words_left words.old)) }
    ensures short { IsShort words.new }
{
    if skip(words, "superblock") {
        return last_word(words, line, "sound", SuperState::Sound);
    }
    if skip(words, "no") {
        return numbered(words, line, "superblock").map(SuperState::NoSuper);
    }
    literal(words, line, "bad")?;
    literal(words, line, "superblock")?;
    super_fault(words, line).map(super_state)
}

/// A number, `of` and another.
fn one_of(words: &mut Words<'_>, line: Line) -> Result<LogState, LineFault>
    requires short { IsShort words.old }
    ensures value { Tells line (words_left words.new) result (one_of line.end (words_left words.old)) }
    ensures short { IsShort words.new }
{
    let entries = words.number(line)?;
    let slots = numbered(words, line, "of")?;
    Ok(LogState::Sound { entries, slots })
}

fn log_behind(words: &mut Words<'_>, line: Line) -> Result<LogState, LineFault>
    requires short { IsShort words.old }
    ensures value { Tells line (words_left words.new) result (log_behind line.end (words_left words.old)) }
    ensures short { IsShort words.new }
{
    if skip(words, "unread") {
        return words.ended(line, LogState::Unread);
    }
    literal(words, line, "sound")?;
    one_of(words, line)
}

/// What a report says of the log.
pub fn told_log(words: &mut Words<'_>, line: Line) -> Result<LogState, LineFault>
    requires short { IsShort words.old }
    ensures value { Tells line (words_left words.new) result (log_state_line line.end (words_left words.old)) }
    ensures short { IsShort words.new }
{
    if skip(words, "bad") {
        literal(words, line, "log")?;
        return log_fault(words, line).map(log_state);
    }
    literal(words, line, "log")?;
    log_behind(words, line)
}

/// How many files and directories a report has.
pub fn told_files(words: &mut Words<'_>, line: Line) -> Result<(u64, u64), LineFault>
    requires short { IsShort words.old }
    ensures value { Tells line (words_left words.new) result (files_line line.end (words_left words.old)) }
    ensures short { IsShort words.new }
{
    let files = counted(words, line, "files")?;
    let directories = numbered(words, line, "directories")?;
    Ok((files, directories))
}

/// How many units a report has that are used, and that are free.
pub fn told_units(words: &mut Words<'_>, line: Line) -> Result<(u64, u64), LineFault>
    requires short { IsShort words.old }
    ensures value { Tells line (words_left words.new) result (units_line line.end (words_left words.old)) }
    ensures short { IsShort words.new }
{
    literal(words, line, "units")?;
    let used = counted(words, line, "used")?;
    let free = numbered(words, line, "free")?;
    Ok((used, free))
}

/// Two numbers, or `none`.
fn pair_or_none(words: &mut Words<'_>, line: Line) -> Result<Option<(u64, u64)>, LineFault>
    requires short { IsShort words.old }
    ensures value { Tells line (words_left words.new) result (pair_or_none line.end (words_left words.old)) }
    ensures short { IsShort words.new }
{
    if skip(words, "none") {
        return words.ended(line, None);
    }
    last_two(words, line).map(Some)
}

/// The numbers of two entries that overlap, if any do.
pub fn told_overlap(words: &mut Words<'_>, line: Line) -> Result<Option<(u64, u64)>, LineFault>
    requires short { IsShort words.old }
    ensures value { Tells line (words_left words.new) result (overlap_line line.end (words_left words.old)) }
    ensures short { IsShort words.new }
{
    literal(words, line, "overlap")?;
    pair_or_none(words, line)
}

/// An entry's number and why it is bad, or `none`.
fn slot_or_none(words: &mut Words<'_>, line: Line) -> Result<Option<(u64, Reason)>, LineFault>
    requires short { IsShort words.old }
    ensures value { Tells line (words_left words.new) result (slot_or_none line.end (words_left words.old)) }
    ensures short { IsShort words.new }
{
    if skip(words, "none") {
        return words.ended(line, None);
    }
    let seq = words.number(line)?;
    let why = reason(words, line)?;
    Ok(Some((seq, why)))
}

/// The number of the first bad entry, and why it is bad, if one is.
pub fn told_bad_entry(words: &mut Words<'_>, line: Line) -> Result<Option<(u64, Reason)>, LineFault>
    requires short { IsShort words.old }
    ensures value { Tells line (words_left words.new) result (bad_entry_line line.end (words_left words.old)) }
    ensures short { IsShort words.new }
{
    literal(words, line, "bad")?;
    literal(words, line, "entry")?;
    slot_or_none(words, line)
}

/// How many slots past the gate hold entries.
pub fn told_past(words: &mut Words<'_>, line: Line) -> Result<u64, LineFault>
    requires short { IsShort words.old }
    ensures value { Tells line (words_left words.new) result (past_line line.end (words_left words.old)) }
    ensures short { IsShort words.new }
{
    literal(words, line, "past")?;
    numbered(words, line, "gate")
}
