//! The words of events. `specs/Lines.antt` has them from left to right.

ghost use Rattle.std.specs.Prelude.{◌≡◌};
ghost use Rattle.fam_grammar.specs.Cursor.{words_left, IsShort, Tells};
ghost use Rattle.fam_grammar.specs.Lines.{host_line, mkfs_line, begin_line, run_line, step_line, name_line, evict_line, leak_line, fetch_line, event_behind, event_line};
ghost use Rattle.fam_grammar.specs.Options.{mkfs_options, no_mkfs_options};
ghost use Rattle.fam_journal.specs.declared.event.Event.TheVariants as event;

use crate::commands::ask;
use crate::defaults::{DEFAULT_LOG, DEFAULT_UNIT};
use crate::fault::LineFault;
use crate::keywords::EventWord;
use crate::options::MkfsOptions;
use crate::words::{Line, Words};
use fam_base::{Boxed, LineNo, Mask};
use fam_format::FIRST_FORMAT;
use fam_journal::Event;
use fam_machine::MkfsRequest;
use std::alloc::Global;

fn host(words: &mut Words<'_>, line: Line) -> Result<Event, LineFault>
    requires short { IsShort words.old }
    ensures value { Tells line (words_left words.new) result (host_line line.end (words_left words.old)) }
    ensures short { IsShort words.new }
{
    let name = words.name(line)?;
    let uuid = words.uuid(line)?;
    words.ended(line, Event::Host(name, uuid))
}

/// The options of mkfs that are left, all of them.
fn mkfs_options(words: &mut Words<'_>, line: Line) -> Result<MkfsOptions, LineFault>
    requires short { IsShort words.old }
    ensures value { Tells line (words_left words.new) result (mkfs_options no_mkfs_options (words_left words.old)) }
    ensures short { IsShort words.new }
{
    let mut given = MkfsOptions::none();
    while let Some(word) = words.next() {
        let Some(more) = given.with_word(word.text) else {
            return Err(LineFault::BadLine {
                line: line.number,
                column: word.column,
            });
        };
        given = more;
    }
    Ok(given)
}

fn mkfs(words: &mut Words<'_>, line: Line) -> Result<Event, LineFault>
    requires short { IsShort words.old }
    ensures value { Tells line (words_left words.new) result (mkfs_line line.end (words_left words.old)) }
    ensures short { IsShort words.new }
{
    let name = words.name(line)?;
    let fs = words.uuid(line)?;
    let options = mkfs_options(words, line)?;
    let request = MkfsRequest {
        fs,
        unit: options.unit.unwrap_or(DEFAULT_UNIT),
        log: options.log.unwrap_or(DEFAULT_LOG),
        format: options.format.unwrap_or(FIRST_FORMAT),
        force: options.force,
        halt: options.halt,
    };
    Ok(Event::Mkfs(name, request))
}

fn begin(alloc: Global, words: &mut Words<'_>, line: Line) -> Result<Event, LineFault>
    requires short { IsShort words.old }
    ensures value { Tells line (words_left words.new) result (begin_line line.end (words_left words.old)) }
    ensures short { IsShort words.new }
{
    let name = words.name(line)?;
    let asked = ask(alloc, words, line)?;
    Ok(Event::Begin(name, Boxed::new(alloc, asked)?))
}

fn run(alloc: Global, words: &mut Words<'_>, line: Line) -> Result<Event, LineFault>
    requires short { IsShort words.old }
    ensures value { Tells line (words_left words.new) result (run_line line.end (words_left words.old)) }
    ensures short { IsShort words.new }
{
    let name = words.name(line)?;
    let asked = ask(alloc, words, line)?;
    Ok(Event::Run(name, Boxed::new(alloc, asked)?))
}

fn step(words: &mut Words<'_>, line: Line) -> Result<Event, LineFault>
    requires short { IsShort words.old }
    ensures value { Tells line (words_left words.new) result (step_line line.end (words_left words.old)) }
    ensures short { IsShort words.new }
{
    let name = words.name(line)?;
    let mut ahead = *words;
    if ahead.next().is_none() {
        return words.ended(line, Event::Step(name, 1));
    }
    let count = words.steps(line)?;
    words.ended(line, Event::Step(name, count))
}

fn finish(words: &mut Words<'_>, line: Line) -> Result<Event, LineFault>
    requires short { IsShort words.old }
    ensures value { Tells line (words_left words.new) result (name_line event.Finish line.end (words_left words.old)) }
    ensures short { IsShort words.new }
{
    match words.name(line) {
        Ok(name) => words.ended(line, Event::Finish(name)),
        Err(fault) => Err(fault),
    }
}

fn stop(words: &mut Words<'_>, line: Line) -> Result<Event, LineFault>
    requires short { IsShort words.old }
    ensures value { Tells line (words_left words.new) result (name_line event.Stop line.end (words_left words.old)) }
    ensures short { IsShort words.new }
{
    match words.name(line) {
        Ok(name) => words.ended(line, Event::Stop(name)),
        Err(fault) => Err(fault),
    }
}

fn halt(words: &mut Words<'_>, line: Line) -> Result<Event, LineFault>
    requires short { IsShort words.old }
    ensures value { Tells line (words_left words.new) result (name_line event.Halt line.end (words_left words.old)) }
    ensures short { IsShort words.new }
{
    match words.name(line) {
        Ok(name) => words.ended(line, Event::Halt(name)),
        Err(fault) => Err(fault),
    }
}

fn umount(words: &mut Words<'_>, line: Line) -> Result<Event, LineFault>
    requires short { IsShort words.old }
    ensures value { Tells line (words_left words.new) result (name_line event.Umount line.end (words_left words.old)) }
    ensures short { IsShort words.new }
{
    match words.name(line) {
        Ok(name) => words.ended(line, Event::Umount(name)),
        Err(fault) => Err(fault),
    }
}

fn evict(words: &mut Words<'_>, line: Line) -> Result<Event, LineFault>
    requires short { IsShort words.old }
    ensures value { Tells line (words_left words.new) result (evict_line line.end (words_left words.old)) }
    ensures short { IsShort words.new }
{
    let name = words.name(line)?;
    let at = words.number(line)?;
    words.ended(line, Event::Evict(name, LineNo(at)))
}

fn leak(words: &mut Words<'_>, line: Line) -> Result<Event, LineFault>
    requires short { IsShort words.old }
    ensures value { Tells line (words_left words.new) result (leak_line line.end (words_left words.old)) }
    ensures short { IsShort words.new }
{
    let name = words.name(line)?;
    let at = words.number(line)?;
    let mask = words.mask(line)?;
    words.ended(line, Event::Leak(name, LineNo(at), Mask(mask)))
}

fn fetch(words: &mut Words<'_>, line: Line) -> Result<Event, LineFault>
    requires short { IsShort words.old }
    ensures value { Tells line (words_left words.new) result (fetch_line line.end (words_left words.old)) }
    ensures short { IsShort words.new }
{
    let name = words.name(line)?;
    let at = words.number(line)?;
    let mask = words.mask(line)?;
    words.ended(line, Event::Fetch(name, LineNo(at), Mask(mask)))
}

/// The words behind an event's name.
fn event_behind(
    alloc: Global,
    name: EventWord,
    words: &mut Words<'_>,
    line: Line,
) -> Result<Event, LineFault>
    requires short { IsShort words.old }
    ensures value { Tells line (words_left words.new) result (event_behind line.end name (words_left words.old)) }
    ensures short { IsShort words.new }
{
    match name {
        EventWord::Host => host(words, line),
        EventWord::Mkfs => mkfs(words, line),
        EventWord::Begin => begin(alloc, words, line),
        EventWord::Run => run(alloc, words, line),
        EventWord::Step => step(words, line),
        EventWord::Finish => finish(words, line),
        EventWord::Stop => stop(words, line),
        EventWord::Halt => halt(words, line),
        EventWord::Umount => umount(words, line),
        EventWord::Evict => evict(words, line),
        EventWord::Leak => leak(words, line),
        EventWord::Fetch => fetch(words, line),
    }
}

/// An event: its name, and its words.
#[tactic(auto, unfolding(crate::specs::Lines::event_line))]
pub(crate) fn event(alloc: Global, words: &mut Words<'_>, line: Line) -> Result<Event, LineFault>
    requires short { IsShort words.old }
    ensures value { Tells line (words_left words.new) result (event_line line.end (words_left words.old)) }
    ensures short { IsShort words.new }
{
    match words.event(line) {
        Ok(name) => event_behind(alloc, name, words, line),
        Err(fault) => Err(fault),
    }
}
