//! A line of a script as an event. `specs/Scripts.antt` has the line and the script as a whole.

ghost use Rattle.std.specs.Prelude.{◌≡◌, ◌≤◌, ◌<◌, ◌^◌, ◌==◌, length, slice_index, Ok, None, IfOk, IfErr, IfSome};
ghost use Rattle.fam_grammar.specs.Cursor.{words_left, IsShort};
ghost use Rattle.fam_grammar.specs.Scripts.{line_reads, AreEvent, AreNoEvent, IsBadLine, end_of_line, words_in};
ghost use Rattle.fam_grammar.specs.Words.{without_return};

use crate::events::event;
use crate::fault::LineFault;
use crate::words::{Line, Words};
use fam_journal::Event;
use std::alloc::Global;

/// The line without the carriage return at its end.
fn without_return(line: &[u8]) -> &[u8]
    ensures value { result.now ≡ without_return line.now }
    ensures shorter { length result.now ≤ length line.now }
{
    match line {
        [prefix @ .., b'\r'] => prefix,
        _ => line,
    }
}

/// Whether a word begins a comment.
fn is_comment(word: &[u8]) -> bool
    ensures { result ≡ (slice_index word.now 0 == 35) }
{
    match word.first() {
        Some(first) => *first == b'#',
        None => false,
    }
}

/// The words of a line of a script, given without its line feed; `None` for a line without words, or whose first word
/// begins with `#`. `number` is the line's, counted from 1.
pub fn words_of(bytes: &[u8], number: u64) -> Option<(Words<'_>, Line)>
    ensures none { result ≡ None → AreNoEvent (words_in bytes.now) }
    ensures words { IfSome result (λ found. AreEvent (words_in bytes.now) × (words_left found.0 ≡ words_in bytes.now)) }
    ensures line { IfSome result (λ found. found.1 ≡ record { number = number; end = end_of_line bytes.now }) }
    ensures short { IfSome result (λ found. IsShort found.0) }
{
    let text = without_return(bytes);
    let line = Line {
        number,
        end: text.len() as u64 + 1,
    };
    let words = Words {
        column: 1,
        bytes: text,
    };
    let mut ahead = words;
    match ahead.next() {
        Some(first) if !is_comment(first.text) => Some((words, line)),
        _ => None,
    }
}

/// The event of a line of a script, given without its line feed; `None` for a line without words, or whose first word
/// begins with `#`. `number` is the line's, counted from 1; a bad line is named by it. Only the name of a file takes
/// memory.
pub fn read_line(alloc: Global, bytes: &[u8], number: u64) -> Result<Option<Event>, LineFault>
    ensures value { IfOk result (λ event. line_reads bytes.now ≡ Ok event) }
    ensures bad { IfErr result (IsBadLine number (line_reads bytes.now)) }
{
    let Some((mut words, line)) = words_of(bytes, number) else {
        return Ok(None);
    };
    Ok(Some(event(alloc, &mut words, line)?))
}
