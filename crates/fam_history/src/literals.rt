//! Words of a line that are fixed, and numbers at its end. `specs/Literals.antt` has what each gives.

ghost use Rattle.std.specs.Prelude.{◌≡◌, if◌then◌else◌};
ghost use Rattle.std.specs.Str.{bytes_eq};
ghost use Rattle.fam_grammar.specs.Cursor.{words_left, IsShort, Tells};
ghost use Rattle.fam_grammar.specs.Reading.{ends_with, then_reads, word_of};
ghost use Rattle.fam_history.specs.Literals.{behind_first, begins_with, meaning_by, last_number, last_two, the_word};

use fam_grammar::{Line, LineFault, Words, fitting};

/// Whether a word is this one.
pub(crate) fn is(word: &[u8], wanted: &str) -> bool
    ensures { result ≡ bytes_eq word.now wanted.now }
{
    word == wanted.as_bytes()
}

/// Whether this word stands next; then the words behind it are left, and else all.
pub(crate) fn skip(words: &mut Words<'_>, wanted: &str) -> bool
    requires short { IsShort words.old }
    ensures value { result ≡ begins_with wanted.now (words_left words.old) }
    ensures left { words_left words.new ≡ (if result then behind_first (words_left words.old) else words_left words.old) }
    ensures short { IsShort words.new }
{
    let mut ahead = *words;
    match ahead.next() {
        Some(word) if is(word.text, wanted) => {
            *words = ahead;
            true
        }
        _ => false,
    }
}

/// What the first of these keywords that a word is means.
pub(crate) fn meaning<T: Copy>(word: &[u8], keywords: &[(&str, T)]) -> Option<T>
    ensures { result ≡ meaning_by keywords.now (λ keyword. keyword.0.now) (λ keyword. keyword.1) word.now }
{
    for (text, means) in keywords {
        if is(word, text) {
            return Some(*means);
        }
    }
    None
}

fn the_word(word: &[u8], wanted: &str) -> Option<()>
    ensures { result ≡ the_word wanted.now word.now }
{
    if is(word, wanted) { Some(()) } else { None }
}

/// This word, which has to be there.
pub(crate) fn literal(words: &mut Words<'_>, line: Line, wanted: &str) -> Result<(), LineFault>
    requires short { IsShort words.old }
    ensures value { Tells line (words_left words.new) result (word_of (the_word wanted.now) line.end (words_left words.old)) }
    ensures short { IsShort words.new }
{
    match words.expected(line) {
        Ok(word) => fitting(line, word.column, the_word(word.text, wanted)),
        Err(fault) => Err(fault),
    }
}

/// This word with no word behind it, for which a value stands.
pub(crate) fn last_word<T: Drop>(
    words: &mut Words<'_>,
    line: Line,
    wanted: &str,
    value: T,
) -> Result<T, LineFault>
    requires short { IsShort words.old }
    ensures value { Tells line (words_left words.new) result (then_reads (word_of (the_word wanted.now) line.end (words_left words.old)) (λ it. ends_with value)) }
    ensures short { IsShort words.new }
{
    match literal(words, line, wanted) {
        Ok(()) => words.ended(line, value),
        Err(fault) => Err(fault),
    }
}

/// A number with no word behind it.
pub(crate) fn last_number(words: &mut Words<'_>, line: Line) -> Result<u64, LineFault>
    requires short { IsShort words.old }
    ensures value { Tells line (words_left words.new) result (last_number line.end (words_left words.old)) }
    ensures short { IsShort words.new }
{
    let n = words.number(line)?;
    words.ended(line, n)
}

/// Two numbers with no word behind them.
pub(crate) fn last_two(words: &mut Words<'_>, line: Line) -> Result<(u64, u64), LineFault>
    requires short { IsShort words.old }
    ensures value { Tells line (words_left words.new) result (last_two line.end (words_left words.old)) }
    ensures short { IsShort words.new }
{
    let first = words.number(line)?;
    let second = words.number(line)?;
    words.ended(line, (first, second))
}
