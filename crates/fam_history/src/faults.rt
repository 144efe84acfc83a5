//! The words of faults. `specs/Faults.antt` has them from left to right.

ghost use Rattle.std.specs.Prelude.{◌≡◌};
ghost use Rattle.fam_format.specs.declared.faults.Reason.TheVariants as reason;
ghost use Rattle.fam_grammar.specs.Cursor.{words_left, IsShort, Tells};
ghost use Rattle.fam_history.specs.Faults.{is_a_file, kind_of_word, last_kind, log_field_of, log_fault_line, numbered, reason_behind, reason_line, reason_word, super_field_of, super_line};

use crate::literals::{is, last_number, last_two, last_word, literal, meaning};
use fam_base::Kind;
use fam_format::{LogFault, LogField, Reason, SuperFault, SuperField};
use fam_grammar::{Line, LineFault, Words, fitting};

/// What a reason begins with.
#[derive(Clone, Copy)]
pub(crate) enum ReasonWord {
    Crc,
    Seq,
    Kind,
    Attribute,
    Path,
    Map,
    Rest,
    Exists,
    No,
    Parent,
    Overlap,
}

/// A kind, by its word.
fn kind_of(word: &[u8]) -> Option<Kind>
    ensures { result ≡ kind_of_word word.now }
{
    if is(word, "file") {
        Some(Kind::File)
    } else if is(word, "directory") {
        Some(Kind::Directory)
    } else {
        None
    }
}

/// A kind, and no word behind it.
pub(crate) fn last_kind(words: &mut Words<'_>, line: Line) -> Result<Kind, LineFault>
    requires short { IsShort words.old }
    ensures value { Tells line (words_left words.new) result (last_kind line.end (words_left words.old)) }
    ensures short { IsShort words.new }
{
    let word = words.expected(line)?;
    let kind = fitting(line, word.column, kind_of(word.text))?;
    words.ended(line, kind)
}

/// The words of a superblock's fields.
const SUPER_FIELDS: [(&str, SuperField); 8] = [
    ("crc", SuperField::Crc),
    ("version", SuperField::Version),
    ("offset", SuperField::Offset),
    ("unit", SuperField::Unit),
    ("length", SuperField::Length),
    ("device", SuperField::Device),
    ("small", SuperField::Small),
    ("rest", SuperField::Rest),
];

/// A field of a superblock, by its word.
#[tactic(auto, unfolding(crate::specs::Faults::super_field_of))]
fn super_field_of(word: &[u8]) -> Option<SuperField>
    ensures { result ≡ super_field_of word.now }
{
    meaning(word, &SUPER_FIELDS)
}

/// The words of a log's fields.
const LOG_FIELDS: [(&str, LogField); 7] = [
    ("magic", LogField::Magic),
    ("crc", LogField::Crc),
    ("length", LogField::Length),
    ("slots", LogField::Slots),
    ("uuid", LogField::Uuid),
    ("rest", LogField::Rest),
    ("gate", LogField::Gate),
];

/// A field of a log, by its word.
#[tactic(auto, unfolding(crate::specs::Faults::log_field_of))]
fn log_field_of(word: &[u8]) -> Option<LogField>
    ensures { result ≡ log_field_of word.now }
{
    meaning(word, &LOG_FIELDS)
}

/// The words that reasons begin with.
const REASONS: [(&str, ReasonWord); 11] = [
    ("crc", ReasonWord::Crc),
    ("sequence", ReasonWord::Seq),
    ("kind", ReasonWord::Kind),
    ("attribute", ReasonWord::Attribute),
    ("path", ReasonWord::Path),
    ("map", ReasonWord::Map),
    ("rest", ReasonWord::Rest),
    ("exists", ReasonWord::Exists),
    ("no", ReasonWord::No),
    ("parent", ReasonWord::Parent),
    ("overlap", ReasonWord::Overlap),
];

/// The reasons that a word begins.
#[tactic(auto, unfolding(crate::specs::Faults::reason_word))]
fn reason_word(word: &[u8]) -> Option<ReasonWord>
    ensures { result ≡ reason_word word.now }
{
    meaning(word, &REASONS)
}

/// A superblock's field, what was found and what was wanted.
pub(crate) fn super_fault(words: &mut Words<'_>, line: Line) -> Result<SuperFault, LineFault>
    requires short { IsShort words.old }
    ensures value { Tells line (words_left words.new) result (super_line line.end (words_left words.old)) }
    ensures short { IsShort words.new }
{
    let word = words.expected(line)?;
    let field = fitting(line, word.column, super_field_of(word.text))?;
    let (found, wanted) = last_two(words, line)?;
    Ok(SuperFault::BadSuper {
        field,
        found,
        wanted,
    })
}

/// A log's field, what was found and what was wanted.
pub(crate) fn log_fault(words: &mut Words<'_>, line: Line) -> Result<LogFault, LineFault>
    requires short { IsShort words.old }
    ensures value { Tells line (words_left words.new) result (log_fault_line line.end (words_left words.old)) }
    ensures short { IsShort words.new }
{
    let word = words.expected(line)?;
    let field = fitting(line, word.column, log_field_of(word.text))?;
    let (found, wanted) = last_two(words, line)?;
    Ok(LogFault::BadLog {
        field,
        found,
        wanted,
    })
}

/// A number behind a word, and no word behind it.
pub(crate) fn numbered(words: &mut Words<'_>, line: Line, wanted: &str) -> Result<u64, LineFault>
    requires short { IsShort words.old }
    ensures value { Tells line (words_left words.new) result (numbered line.end wanted.now (words_left words.old)) }
    ensures short { IsShort words.new }
{
    literal(words, line, wanted)?;
    last_number(words, line)
}

/// `is a file`, and no word behind it.
pub(crate) fn is_a_file(words: &mut Words<'_>, line: Line) -> Result<(), LineFault>
    requires short { IsShort words.old }
    ensures value { Tells line (words_left words.new) result (is_a_file line.end (words_left words.old)) }
    ensures short { IsShort words.new }
{
    literal(words, line, "is")?;
    literal(words, line, "a")?;
    last_word(words, line, "file", ())
}

/// A checksum that differs, of what was found and what was wanted.
fn other_crc(pair: (u64, u64)) -> Reason
    ensures { result ≡ reason.Crc pair.0 pair.1 }
{
    Reason::Crc {
        found: pair.0,
        wanted: pair.1,
    }
}

/// So of an entry's number.
fn other_seq(pair: (u64, u64)) -> Reason
    ensures { result ≡ reason.Seq pair.0 pair.1 }
{
    Reason::Seq {
        found: pair.0,
        wanted: pair.1,
    }
}

/// The words behind the first one.
fn behind(first: ReasonWord, words: &mut Words<'_>, line: Line) -> Result<Reason, LineFault>
    requires short { IsShort words.old }
    ensures value { Tells line (words_left words.new) result (reason_behind line.end first (words_left words.old)) }
    ensures short { IsShort words.new }
{
    match first {
        ReasonWord::Crc => last_two(words, line).map(other_crc),
        ReasonWord::Seq => last_two(words, line).map(other_seq),
        ReasonWord::Kind => last_number(words, line).map(Reason::BadKind),
        ReasonWord::Attribute => last_number(words, line).map(Reason::Attribute),
        ReasonWord::Path => words.ended(line, Reason::BadPath),
        ReasonWord::Map => words.ended(line, Reason::Map),
        ReasonWord::Rest => last_number(words, line).map(Reason::Rest),
        ReasonWord::Exists => last_kind(words, line).map(Reason::Exists),
        ReasonWord::No => last_word(words, line, "parent", Reason::NoParent),
        ReasonWord::Parent => {
            is_a_file(words, line)?;
            Ok(Reason::ParentIsFile)
        }
        ReasonWord::Overlap => last_number(words, line).map(Reason::Overlap),
    }
}

/// Why a slot holds no entry that joins, of all words that are left.
#[tactic(auto, unfolding(crate::specs::Faults::reason_line))]
pub(crate) fn reason(words: &mut Words<'_>, line: Line) -> Result<Reason, LineFault>
    requires short { IsShort words.old }
    ensures value { Tells line (words_left words.new) result (reason_line line.end (words_left words.old)) }
    ensures short { IsShort words.new }
{
    let word = words.expected(line)?;
    let first = fitting(line, word.column, reason_word(word.text))?;
    behind(first, words, line)
}
