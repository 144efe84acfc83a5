//! The words of events. `specs/Lines.antt` has them from left to right.

ghost use Rattle.std.specs.Prelude.{◌≡◌};
ghost use Rattle.fam_grammar.specs.Cursor.{words_left, IsShort, Tells};
ghost use Rattle.fam_mail.specs.declared.event.MailEvent.TheVariants as event;
ghost use Rattle.fam_mail_script.specs.Lines.{mail_ask_behind, mail_ask_line, mail_asked_line, mail_words_behind, mail_evict_line, mail_fetch_line, mail_leak_line, mail_line, mail_name_line, mail_step_line};

use crate::keywords::{AskWord, EventWord, ask_word, event_word};
use crate::numbers::record;
use fam_base::Mask;
use fam_grammar::{Line, LineFault, Words, fitting};
use fam_mail::{Ask, MailEvent};

/// The words behind an ask's name.
fn ask_behind(name: AskWord, words: &mut Words<'_>, line: Line) -> Result<Ask, LineFault>
    requires short { IsShort words.old }
    ensures value { Tells line (words_left words.new) result (mail_ask_behind line.end name (words_left words.old)) }
    ensures short { IsShort words.new }
{
    match name {
        AskWord::Take => words.ended(line, Ask::Take),
        AskWord::Post => Ok(Ask::Post(record(words, line)?)),
    }
}

/// What a host is asked for: its name, and its words.
#[tactic(auto, unfolding(crate::specs::Lines::mail_ask_line))]
fn ask(words: &mut Words<'_>, line: Line) -> Result<Ask, LineFault>
    requires short { IsShort words.old }
    ensures value { Tells line (words_left words.new) result (mail_ask_line line.end (words_left words.old)) }
    ensures short { IsShort words.new }
{
    let word = words.expected(line)?;
    let name = fitting(line, word.column, ask_word(word.text))?;
    ask_behind(name, words, line)
}

fn writer(words: &mut Words<'_>, line: Line) -> Result<MailEvent, LineFault>
    requires short { IsShort words.old }
    ensures value { Tells line (words_left words.new) result (mail_name_line event.Writer line.end (words_left words.old)) }
    ensures short { IsShort words.new }
{
    let name = words.name(line)?;
    let named = words.ended(line, name)?;
    Ok(MailEvent::Writer(named))
}

fn reader(words: &mut Words<'_>, line: Line) -> Result<MailEvent, LineFault>
    requires short { IsShort words.old }
    ensures value { Tells line (words_left words.new) result (mail_name_line event.Reader line.end (words_left words.old)) }
    ensures short { IsShort words.new }
{
    let name = words.name(line)?;
    let named = words.ended(line, name)?;
    Ok(MailEvent::Reader(named))
}

fn begin(words: &mut Words<'_>, line: Line) -> Result<MailEvent, LineFault>
    requires short { IsShort words.old }
    ensures value { Tells line (words_left words.new) result (mail_asked_line event.Begin line.end (words_left words.old)) }
    ensures short { IsShort words.new }
{
    let name = words.name(line)?;
    let asked = ask(words, line)?;
    Ok(MailEvent::Begin(name, asked))
}

fn run(words: &mut Words<'_>, line: Line) -> Result<MailEvent, LineFault>
    requires short { IsShort words.old }
    ensures value { Tells line (words_left words.new) result (mail_asked_line event.Run line.end (words_left words.old)) }
    ensures short { IsShort words.new }
{
    let name = words.name(line)?;
    let asked = ask(words, line)?;
    Ok(MailEvent::Run(name, asked))
}

fn step(words: &mut Words<'_>, line: Line) -> Result<MailEvent, LineFault>
    requires short { IsShort words.old }
    ensures value { Tells line (words_left words.new) result (mail_step_line line.end (words_left words.old)) }
    ensures short { IsShort words.new }
{
    let name = words.name(line)?;
    let mut ahead = *words;
    if ahead.next().is_none() {
        *words = ahead;
        return Ok(MailEvent::Step(name, 1));
    }
    let count = words.steps(line)?;
    let most = words.ended(line, count)?;
    Ok(MailEvent::Step(name, most))
}

fn finish(words: &mut Words<'_>, line: Line) -> Result<MailEvent, LineFault>
    requires short { IsShort words.old }
    ensures value { Tells line (words_left words.new) result (mail_name_line event.Finish line.end (words_left words.old)) }
    ensures short { IsShort words.new }
{
    let name = words.name(line)?;
    let named = words.ended(line, name)?;
    Ok(MailEvent::Finish(named))
}

fn stop(words: &mut Words<'_>, line: Line) -> Result<MailEvent, LineFault>
    requires short { IsShort words.old }
    ensures value { Tells line (words_left words.new) result (mail_name_line event.Stop line.end (words_left words.old)) }
    ensures short { IsShort words.new }
{
    let name = words.name(line)?;
    let named = words.ended(line, name)?;
    Ok(MailEvent::Stop(named))
}

fn halt(words: &mut Words<'_>, line: Line) -> Result<MailEvent, LineFault>
    requires short { IsShort words.old }
    ensures value { Tells line (words_left words.new) result (mail_name_line event.Halt line.end (words_left words.old)) }
    ensures short { IsShort words.new }
{
    let name = words.name(line)?;
    let named = words.ended(line, name)?;
    Ok(MailEvent::Halt(named))
}

fn evict(words: &mut Words<'_>, line: Line) -> Result<MailEvent, LineFault>
    requires short { IsShort words.old }
    ensures value { Tells line (words_left words.new) result (mail_evict_line line.end (words_left words.old)) }
    ensures short { IsShort words.new }
{
    let name = words.name(line)?;
    let at = words.number(line)?;
    let at = words.ended(line, at)?;
    Ok(MailEvent::Evict(name, at))
}

fn leak(words: &mut Words<'_>, line: Line) -> Result<MailEvent, LineFault>
    requires short { IsShort words.old }
    ensures value { Tells line (words_left words.new) result (mail_leak_line line.end (words_left words.old)) }
    ensures short { IsShort words.new }
{
    let name = words.name(line)?;
    let at = words.number(line)?;
    let mask = words.mask(line)?;
    let mask = words.ended(line, mask)?;
    Ok(MailEvent::Leak(name, at, Mask(mask)))
}

fn fetch(words: &mut Words<'_>, line: Line) -> Result<MailEvent, LineFault>
    requires short { IsShort words.old }
    ensures value { Tells line (words_left words.new) result (mail_fetch_line line.end (words_left words.old)) }
    ensures short { IsShort words.new }
{
    let name = words.name(line)?;
    let at = words.number(line)?;
    let mask = words.mask(line)?;
    let mask = words.ended(line, mask)?;
    Ok(MailEvent::Fetch(name, at, Mask(mask)))
}

/// The words behind an event's name.
fn event_behind(name: EventWord, words: &mut Words<'_>, line: Line) -> Result<MailEvent, LineFault>
    requires short { IsShort words.old }
    ensures value { Tells line (words_left words.new) result (mail_words_behind line.end name (words_left words.old)) }
    ensures short { IsShort words.new }
{
    match name {
        EventWord::Writer => writer(words, line),
        EventWord::Reader => reader(words, line),
        EventWord::Begin => begin(words, line),
        EventWord::Run => run(words, line),
        EventWord::Step => step(words, line),
        EventWord::Finish => finish(words, line),
        EventWord::Stop => stop(words, line),
        EventWord::Halt => halt(words, line),
        EventWord::Evict => evict(words, line),
        EventWord::Leak => leak(words, line),
        EventWord::Fetch => fetch(words, line),
    }
}

/// An event: its name, and its words.
#[tactic(auto, unfolding(crate::specs::Lines::mail_line))]
pub(crate) fn event(words: &mut Words<'_>, line: Line) -> Result<MailEvent, LineFault>
    requires short { IsShort words.old }
    ensures value { Tells line (words_left words.new) result (mail_line line.end (words_left words.old)) }
    ensures short { IsShort words.new }
{
    let word = words.expected(line)?;
    let name = fitting(line, word.column, event_word(word.text))?;
    event_behind(name, words, line)
}
