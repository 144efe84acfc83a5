//! The words of commands as they start. `specs/Commands.antt` has them from left to right.

ghost use Rattle.std.specs.Prelude.{◌≡◌, option_map};
ghost use Rattle.fam_base.specs.declared.cmd.Cmd.TheVariants as cmd;
ghost use Rattle.fam_base.specs.declared.cmd.Content.TheVariants as content;
ghost use Rattle.fam_history.specs.declared.command.ToldCommand.TheVariants as told;
ghost use Rattle.fam_grammar.specs.Cursor.{words_left, IsShort, Tells};
ghost use Rattle.fam_history.specs.Commands.{told_against, told_behind, told_check, told_cp, told_creat, told_line, told_mkdir, told_read, told_verify};

use crate::command::ToldCommand;
use fam_base::{Cmd, Content, Path};
use fam_grammar::{
    CommandWord, DIRECTORY_MODE, FILE_MODE, Line, LineFault, Takes, Words, attr_of, file_options,
    fill_of, fitting, number, value_behind,
};

fn mkdir(words: &mut Words<'_>, line: Line) -> Result<ToldCommand, LineFault>
    requires short { IsShort words.old }
    ensures value { Tells line (words_left words.new) result (told_mkdir line.end (words_left words.old)) }
    ensures short { IsShort words.new }
{
    let takes = Takes {
        seed: false,
        stripe: false,
    };
    let path = words.path(line)?;
    let options = file_options(words, line, takes)?;
    let attr = attr_of(DIRECTORY_MODE, options);
    Ok(ToldCommand::Plain(Cmd::Mkdir { path, attr }))
}

fn creat(words: &mut Words<'_>, line: Line) -> Result<ToldCommand, LineFault>
    requires short { IsShort words.old }
    ensures value { Tells line (words_left words.new) result (told_creat line.end (words_left words.old)) }
    ensures short { IsShort words.new }
{
    let takes = Takes {
        seed: true,
        stripe: true,
    };
    let path = words.path(line)?;
    let size = words.size(line)?;
    let options = file_options(words, line, takes)?;
    Ok(ToldCommand::Plain(Cmd::Creat {
        path,
        size,
        attr: attr_of(FILE_MODE, options),
        stripe: options.stripe,
        fill: fill_of(options.seed),
    }))
}

fn cp(words: &mut Words<'_>, line: Line) -> Result<ToldCommand, LineFault>
    requires short { IsShort words.old }
    ensures value { Tells line (words_left words.new) result (told_cp line.end (words_left words.old)) }
    ensures short { IsShort words.new }
{
    let takes = Takes {
        seed: false,
        stripe: true,
    };
    let path = words.path(line)?;
    let size = words.size(line)?;
    let options = file_options(words, line, takes)?;
    Ok(ToldCommand::Cp {
        path,
        size,
        attr: attr_of(FILE_MODE, options),
        stripe: options.stripe,
    })
}

fn seeded(path: Path, seed: Option<u64>) -> Option<ToldCommand>
    ensures { result ≡ option_map (λ seed. told.Plain (cmd.Verify path (content.Seed seed))) seed }
{
    Some(ToldCommand::Plain(Cmd::Verify {
        path,
        against: Content::Seed(seed?),
    }))
}

fn sourced(path: Path, count: Option<u64>) -> Option<ToldCommand>
    ensures { result ≡ option_map (λ count. told.VerifySource path count) count }
{
    Some(ToldCommand::VerifySource {
        path,
        count: count?,
    })
}

/// What a file is compared with, by a word.
fn against(path: Path, word: &[u8]) -> Option<ToldCommand>
    ensures { result ≡ told_against path word.now }
{
    if let Some(value) = value_behind("seed=", word) {
        return seeded(path, number(value));
    }
    if let Some(value) = value_behind("bytes=", word) {
        return sourced(path, number(value));
    }
    None
}

fn verify(words: &mut Words<'_>, line: Line) -> Result<ToldCommand, LineFault>
    requires short { IsShort words.old }
    ensures value { Tells line (words_left words.new) result (told_verify line.end (words_left words.old)) }
    ensures short { IsShort words.new }
{
    let path = words.path(line)?;
    let Some(word) = words.next() else {
        return Ok(ToldCommand::Plain(Cmd::Verify {
            path,
            against: Content::Zero,
        }));
    };
    let told = fitting(line, word.column, against(path, word.text))?;
    words.ended(line, told)
}

fn read(words: &mut Words<'_>, line: Line) -> Result<ToldCommand, LineFault>
    requires short { IsShort words.old }
    ensures value { Tells line (words_left words.new) result (told_read line.end (words_left words.old)) }
    ensures short { IsShort words.new }
{
    let path = words.path(line)?;
    let offset = words.number(line)?;
    let count = words.count(line)?;
    words.ended(
        line,
        ToldCommand::Plain(Cmd::Read {
            path,
            offset,
            count,
        }),
    )
}

fn check(words: &mut Words<'_>, line: Line) -> Result<ToldCommand, LineFault>
    requires short { IsShort words.old }
    ensures value { Tells line (words_left words.new) result (told_check line.end (words_left words.old)) }
    ensures short { IsShort words.new }
{
    let count = words.number(line)?;
    words.ended(line, ToldCommand::Check { count })
}

/// The words behind a command's name.
fn behind(name: CommandWord, words: &mut Words<'_>, line: Line) -> Result<ToldCommand, LineFault>
    requires short { IsShort words.old }
    ensures value { Tells line (words_left words.new) result (told_behind line.end name (words_left words.old)) }
    ensures short { IsShort words.new }
{
    match name {
        CommandWord::Logplay => words.ended(line, ToldCommand::Plain(Cmd::Logplay)),
        CommandWord::Mount => words.ended(line, ToldCommand::Plain(Cmd::Mount)),
        CommandWord::Fsck => words.ended(line, ToldCommand::Plain(Cmd::Fsck)),
        CommandWord::Mkdir => mkdir(words, line),
        CommandWord::Creat => creat(words, line),
        CommandWord::Cp => cp(words, line),
        CommandWord::Verify => verify(words, line),
        CommandWord::Read => read(words, line),
        CommandWord::Check => check(words, line),
    }
}

/// A command as it starts: its name, and its words, of all that are left of a line. A bad line is named by the column of the
/// first word that doesn't fit, which is the line's end where one is missing. It takes no memory.
#[tactic(auto, unfolding(crate::specs::Commands::told_line))]
pub fn told_command(words: &mut Words<'_>, line: Line) -> Result<ToldCommand, LineFault>
    requires short { IsShort words.old }
    ensures value { Tells line (words_left words.new) result (told_line line.end (words_left words.old)) }
    ensures short { IsShort words.new }
{
    match words.command(line) {
        Ok(name) => behind(name, words, line),
        Err(fault) => Err(fault),
    }
}
