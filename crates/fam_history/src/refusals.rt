//! The words of refusals. `specs/Refusals.antt` has them from left to right.

ghost use Rattle.std.specs.Prelude.{◌≡◌};
ghost use Rattle.fam_grammar.specs.Cursor.{words_left, IsShort, Tells};
ghost use Rattle.fam_grammar.specs.Reading.{ends_with, then_reads, word_of};
ghost use Rattle.fam_grammar.specs.Spellings.{name_of};
ghost use Rattle.fam_history.specs.Refusals.{bad_line, has_line, image_line, no_line, refusal_behind, refusal_line, refusal_word, same_line, too_line};

use crate::faults::numbered;
use crate::literals::{last_two, last_word, literal, meaning, skip};
use crate::refusal::ToldRefusal;
use fam_base::HostName;
use fam_grammar::{Line, LineFault, Words, fitting};
use std::alloc::Global;

/// What a refusal begins with.
#[derive(Clone, Copy)]
pub(crate) enum RefusalWord {
    No,
    Same,
    Too,
    Bad,
    Image,
    Busy,
    Dirty,
    Has,
    Idle,
    Mounted,
    Not,
    Copy,
    Media,
}

/// The words that refusals begin with.
const REFUSALS: [(&str, RefusalWord); 13] = [
    ("no", RefusalWord::No),
    ("same", RefusalWord::Same),
    ("too", RefusalWord::Too),
    ("bad", RefusalWord::Bad),
    ("image", RefusalWord::Image),
    ("busy", RefusalWord::Busy),
    ("dirty", RefusalWord::Dirty),
    ("has", RefusalWord::Has),
    ("idle", RefusalWord::Idle),
    ("mounted", RefusalWord::Mounted),
    ("not", RefusalWord::Not),
    ("copy", RefusalWord::Copy),
    ("media", RefusalWord::Media),
];

/// The refusals that a word begins.
#[tactic(auto, unfolding(crate::specs::Refusals::refusal_word))]
fn refusal_word(word: &[u8]) -> Option<RefusalWord>
    ensures { result ≡ refusal_word word.now }
{
    meaning(word, &REFUSALS)
}

fn no(alloc: Global, words: &mut Words<'_>, line: Line) -> Result<ToldRefusal, LineFault>
    requires short { IsShort words.old }
    ensures value { Tells line (words_left words.new) result (no_line line.end (words_left words.old)) }
    ensures short { IsShort words.new }
{
    if skip(words, "file") {
        let name = words.file(alloc, line)?;
        return words.ended(line, ToldRefusal::NoFile(name));
    }
    if skip(words, "line") {
        let (line, lines) = last_two(words, line)?;
        return Ok(ToldRefusal::NoLine { line, lines });
    }
    last_word(words, line, "host", ToldRefusal::NoHost)
}

/// A host's name with no word behind it.
fn last_name(words: &mut Words<'_>, line: Line) -> Result<HostName, LineFault>
    requires short { IsShort words.old }
    ensures value { Tells line (words_left words.new) result (then_reads (word_of name_of line.end (words_left words.old)) ends_with) }
    ensures short { IsShort words.new }
{
    let name = words.name(line)?;
    words.ended(line, name)
}

fn same(words: &mut Words<'_>, line: Line) -> Result<ToldRefusal, LineFault>
    requires short { IsShort words.old }
    ensures value { Tells line (words_left words.new) result (same_line line.end (words_left words.old)) }
    ensures short { IsShort words.new }
{
    literal(words, line, "host")?;
    last_name(words, line).map(ToldRefusal::SameHost)
}

fn too(words: &mut Words<'_>, line: Line) -> Result<ToldRefusal, LineFault>
    requires short { IsShort words.old }
    ensures value { Tells line (words_left words.new) result (too_line line.end (words_left words.old)) }
    ensures short { IsShort words.new }
{
    if skip(words, "many") {
        return last_word(words, line, "hosts", ToldRefusal::TooManyHosts);
    }
    literal(words, line, "small")?;
    let (need, have) = last_two(words, line)?;
    Ok(ToldRefusal::TooSmall { need, have })
}

fn bad(words: &mut Words<'_>, line: Line) -> Result<ToldRefusal, LineFault>
    requires short { IsShort words.old }
    ensures value { Tells line (words_left words.new) result (bad_line line.end (words_left words.old)) }
    ensures short { IsShort words.new }
{
    if skip(words, "geometry") {
        let (unit, log) = last_two(words, line)?;
        return Ok(ToldRefusal::BadGeometry { unit, log });
    }
    numbered(words, line, "listing").map(ToldRefusal::BadListing)
}

fn image(words: &mut Words<'_>, line: Line) -> Result<ToldRefusal, LineFault>
    requires short { IsShort words.old }
    ensures value { Tells line (words_left words.new) result (image_line line.end (words_left words.old)) }
    ensures short { IsShort words.new }
{
    literal(words, line, "too")?;
    numbered(words, line, "small").map(ToldRefusal::ImageSmall)
}

fn has(words: &mut Words<'_>, line: Line) -> Result<ToldRefusal, LineFault>
    requires short { IsShort words.old }
    ensures value { Tells line (words_left words.new) result (has_line line.end (words_left words.old)) }
    ensures short { IsShort words.new }
{
    literal(words, line, "superblock")?;
    let uuid = words.uuid(line)?;
    words.ended(line, ToldRefusal::HasSuper(uuid))
}

/// The words behind the first one.
fn behind(
    alloc: Global,
    first: RefusalWord,
    words: &mut Words<'_>,
    line: Line,
) -> Result<ToldRefusal, LineFault>
    requires short { IsShort words.old }
    ensures value { Tells line (words_left words.new) result (refusal_behind line.end first (words_left words.old)) }
    ensures short { IsShort words.new }
{
    match first {
        RefusalWord::No => no(alloc, words, line),
        RefusalWord::Same => same(words, line),
        RefusalWord::Too => too(words, line),
        RefusalWord::Bad => bad(words, line),
        RefusalWord::Image => image(words, line),
        RefusalWord::Busy => last_name(words, line).map(ToldRefusal::Busy),
        RefusalWord::Dirty => last_name(words, line).map(ToldRefusal::Dirty),
        RefusalWord::Has => has(words, line),
        RefusalWord::Idle => words.ended(line, ToldRefusal::Idle),
        RefusalWord::Mounted => words.ended(line, ToldRefusal::Mounted),
        RefusalWord::Not => last_word(words, line, "mounted", ToldRefusal::NotMounted),
        RefusalWord::Copy => numbered(words, line, "limit").map(ToldRefusal::CopyLimit),
        RefusalWord::Media => numbered(words, line, "fault").map(ToldRefusal::MediaFault),
    }
}

/// Why a call was refused, of all words that are left of a line. A bad line is named by the column of the first word that
/// doesn't fit, which is the line's end where one is missing. Only the name of a file takes memory.
#[tactic(auto, unfolding(crate::specs::Refusals::refusal_line))]
pub fn told_refusal(
    alloc: Global,
    words: &mut Words<'_>,
    line: Line,
) -> Result<ToldRefusal, LineFault>
    requires short { IsShort words.old }
    ensures value { Tells line (words_left words.new) result (refusal_line line.end (words_left words.old)) }
    ensures short { IsShort words.new }
{
    let word = words.expected(line)?;
    let first = fitting(line, word.column, refusal_word(word.text))?;
    behind(alloc, first, words, line)
}
