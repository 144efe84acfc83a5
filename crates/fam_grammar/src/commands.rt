//! The words of commands. `specs/Lines.antt` has them from left to right.

ghost use Rattle.std.specs.Prelude.{◌≡◌, IfOk, option_map};
ghost use Rattle.fam_base.specs.declared.cmd.Cmd.TheVariants as cmd;
ghost use Rattle.fam_base.specs.declared.cmd.Content.TheVariants as content;
ghost use Rattle.fam_journal.specs.declared.event.Ask.TheVariants as ask;
ghost use Rattle.fam_grammar.specs.Cursor.{words_left, IsShort, Tells};
ghost use Rattle.fam_grammar.specs.Lines.{attr_of, fill_of, against_of, ask_behind, ask_line, mkdir_line, creat_line, cp_line, verify_line, read_cmd_line, check_line};
ghost use Rattle.fam_grammar.specs.Options.{file_options, no_file_options};

use crate::cursor::fitting;
use crate::defaults::{DIRECTORY_MODE, FILE_MODE};
use crate::fault::LineFault;
use crate::keywords::CommandWord;
use crate::numbers::number;
use crate::options::{FileOptions, Takes};
use crate::spellings::{file_of, value_behind};
use crate::words::{Line, Words};
use fam_base::{Attr, Cmd, Content, NameText, OutOfMemory, Path};
use fam_journal::Ask;
use std::alloc::Global;

/// The options that are left, all of them.
pub fn file_options(
    words: &mut Words<'_>,
    line: Line,
    takes: Takes,
) -> Result<FileOptions, LineFault>
    requires short { IsShort words.old }
    ensures value { Tells line (words_left words.new) result (file_options takes no_file_options (words_left words.old)) }
    ensures short { IsShort words.new }
{
    let mut given = FileOptions::none();
    while let Some(word) = words.next() {
        let Some(more) = given.with_word(takes, word.text) else {
            return Err(LineFault::BadLine {
                line: line.number,
                column: word.column,
            });
        };
        given = more;
    }
    Ok(given)
}

/// Mode, user and group, where they are given.
pub fn attr_of(mode: u32, options: FileOptions) -> Attr
    ensures { result ≡ attr_of mode options }
{
    Attr {
        mode: options.mode.unwrap_or(mode),
        uid: options.uid.unwrap_or(0),
        gid: options.gid.unwrap_or(0),
    }
}

/// The bytes of a new file.
pub fn fill_of(seed: Option<u64>) -> Content
    ensures { result ≡ fill_of seed }
{
    match seed {
        Some(seed) => Content::Seed(seed),
        None => Content::Zero,
    }
}

fn mkdir(words: &mut Words<'_>, line: Line) -> Result<Ask, LineFault>
    requires short { IsShort words.old }
    ensures value { Tells line (words_left words.new) result (mkdir_line line.end (words_left words.old)) }
    ensures short { IsShort words.new }
{
    let takes = Takes {
        seed: false,
        stripe: false,
    };
    let path = words.path(line)?;
    let options = file_options(words, line, takes)?;
    let attr = attr_of(DIRECTORY_MODE, options);
    Ok(Ask::Plain(Cmd::Mkdir { path, attr }))
}

fn creat(words: &mut Words<'_>, line: Line) -> Result<Ask, LineFault>
    requires short { IsShort words.old }
    ensures value { Tells line (words_left words.new) result (creat_line line.end (words_left words.old)) }
    ensures short { IsShort words.new }
{
    let takes = Takes {
        seed: true,
        stripe: true,
    };
    let path = words.path(line)?;
    let size = words.size(line)?;
    let options = file_options(words, line, takes)?;
    Ok(Ask::Plain(Cmd::Creat {
        path,
        size,
        attr: attr_of(FILE_MODE, options),
        stripe: options.stripe,
        fill: fill_of(options.seed),
    }))
}

fn cp(alloc: Global, words: &mut Words<'_>, line: Line) -> Result<Ask, LineFault>
    requires short { IsShort words.old }
    ensures value { Tells line (words_left words.new) result (cp_line line.end (words_left words.old)) }
    ensures short { IsShort words.new }
{
    let takes = Takes {
        seed: false,
        stripe: true,
    };
    let source = words.file(alloc, line)?;
    let path = words.path(line)?;
    let options = file_options(words, line, takes)?;
    Ok(Ask::Cp {
        source,
        path,
        attr: attr_of(FILE_MODE, options),
        stripe: options.stripe,
    })
}

/// What a file is compared with, by a word.
fn against_of(alloc: Global, path: Path, word: &[u8]) -> Result<Option<Ask>, OutOfMemory>
    ensures { IfOk result (λ asked. asked ≡ against_of path word.now) }
{
    if let Some(value) = value_behind("seed=", word) {
        return Ok(seeded(path, number(value)));
    }
    if let Some(value) = value_behind("source=", word) {
        return Ok(sourced(path, file_of(alloc, value)?));
    }
    Ok(None)
}

fn seeded(path: Path, seed: Option<u64>) -> Option<Ask>
    ensures { result ≡ option_map (λ seed. ask.Plain (cmd.Verify path (content.Seed seed))) seed }
{
    Some(Ask::Plain(Cmd::Verify {
        path,
        against: Content::Seed(seed?),
    }))
}

fn sourced(path: Path, source: Option<NameText>) -> Option<Ask>
    ensures { result ≡ option_map (λ source. ask.VerifySource path source) source }
{
    Some(Ask::VerifySource {
        path,
        source: source?,
    })
}

fn verify(alloc: Global, words: &mut Words<'_>, line: Line) -> Result<Ask, LineFault>
    requires short { IsShort words.old }
    ensures value { Tells line (words_left words.new) result (verify_line line.end (words_left words.old)) }
    ensures short { IsShort words.new }
{
    let path = words.path(line)?;
    let Some(word) = words.next() else {
        return Ok(Ask::Plain(Cmd::Verify {
            path,
            against: Content::Zero,
        }));
    };
    match against_of(alloc, path, word.text) {
        Err(_) => Err(LineFault::OutOfMemory),
        Ok(asked) => {
            let asked = fitting(line, word.column, asked)?;
            words.ended(line, asked)
        }
    }
}

fn read(words: &mut Words<'_>, line: Line) -> Result<Ask, LineFault>
    requires short { IsShort words.old }
    ensures value { Tells line (words_left words.new) result (read_cmd_line line.end (words_left words.old)) }
    ensures short { IsShort words.new }
{
    let path = words.path(line)?;
    let offset = words.number(line)?;
    let count = words.count(line)?;
    words.ended(
        line,
        Ask::Plain(Cmd::Read {
            path,
            offset,
            count,
        }),
    )
}

fn check(alloc: Global, words: &mut Words<'_>, line: Line) -> Result<Ask, LineFault>
    requires short { IsShort words.old }
    ensures value { Tells line (words_left words.new) result (check_line line.end (words_left words.old)) }
    ensures short { IsShort words.new }
{
    match words.file(alloc, line) {
        Ok(source) => words.ended(line, Ask::Check { source }),
        Err(fault) => Err(fault),
    }
}

/// The words behind a command's name.
fn ask_behind(
    alloc: Global,
    name: CommandWord,
    words: &mut Words<'_>,
    line: Line,
) -> Result<Ask, LineFault>
    requires short { IsShort words.old }
    ensures value { Tells line (words_left words.new) result (ask_behind line.end name (words_left words.old)) }
    ensures short { IsShort words.new }
{
    match name {
        CommandWord::Logplay => words.ended(line, Ask::Plain(Cmd::Logplay)),
        CommandWord::Mount => words.ended(line, Ask::Plain(Cmd::Mount)),
        CommandWord::Fsck => words.ended(line, Ask::Plain(Cmd::Fsck)),
        CommandWord::Mkdir => mkdir(words, line),
        CommandWord::Creat => creat(words, line),
        CommandWord::Cp => cp(alloc, words, line),
        CommandWord::Verify => verify(alloc, words, line),
        CommandWord::Read => read(words, line),
        CommandWord::Check => check(alloc, words, line),
    }
}

/// A command: its name, and its words.
#[tactic(auto, unfolding(crate::specs::Lines::ask_line))]
pub(crate) fn ask(alloc: Global, words: &mut Words<'_>, line: Line) -> Result<Ask, LineFault>
    requires short { IsShort words.old }
    ensures value { Tells line (words_left words.new) result (ask_line line.end (words_left words.old)) }
    ensures short { IsShort words.new }
{
    match words.command(line) {
        Ok(name) => ask_behind(alloc, name, words, line),
        Err(fault) => Err(fault),
    }
}
