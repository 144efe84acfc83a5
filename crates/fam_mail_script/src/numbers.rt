//! The numbers of a record, as the words of a line. `specs/Lines.antt` has them.

ghost use Rattle.std.specs.Prelude.{◌≡◌, [], ◌∷◌};
ghost use Rattle.fam_grammar.specs.Cursor.{words_left, IsShort, Tells};
ghost use Rattle.fam_mail_script.specs.Lines.{next_number, numbers_behind, numbers_line};

use fam_grammar::{Line, LineFault, Words, number};
use fam_mail::{MOST_NUMBERS, Record};

/// One number more of a record that has so many.
fn next_number(count: usize, text: &[u8]) -> Option<u64>
    ensures { result ≡ next_number count text.now }
{
    if count < MOST_NUMBERS {
        number(text)
    } else {
        None
    }
}

/// A record of this first number, and of all words that are left.
fn record_from(first: u64, words: &mut Words<'_>, line: Line) -> Result<Record, LineFault>
    requires short { IsShort words.old }
    ensures value { Tells line (words_left words.new) result (numbers_behind (first ∷ []) (words_left words.old)) }
    ensures short { IsShort words.new }
{
    let mut numbers = [0; MOST_NUMBERS];
    numbers[0] = first;
    let mut count = 1;
    while let Some(word) = words.next() {
        let Some(more) = next_number(count, word.text) else {
            return Err(LineFault::BadLine {
                line: line.number,
                column: word.column,
            });
        };
        numbers[count] = more;
        count += 1;
    }
    Ok(Record::new(&numbers[..count]))
}

/// A record: all words that are left, 1 to 7 numbers.
pub(crate) fn record(words: &mut Words<'_>, line: Line) -> Result<Record, LineFault>
    requires short { IsShort words.old }
    ensures value { Tells line (words_left words.new) result (numbers_line line.end (words_left words.old)) }
    ensures short { IsShort words.new }
{
    let first = words.number(line)?;
    record_from(first, words, line)
}
