//! Arguments of simple commands, and what words mean to them.

ghost use Rattle.std.specs.Prelude.{◌≡◌, fold, map, true, false, IfOk, option_map, string_bytes};
ghost use Rattle.clap.specs.Words.{app_of, found_of, rows_of, rule_of, is_simple_and_free};
ghost use Rattle.fam_words.specs.Arguments.{rule_for, with_argument};
ghost use Rattle.fam_words.specs.Simple.{plain_app, value_in, flag_in, rows_given};

use clap::error::ErrorKind;
use clap::{Arg, ArgAction, ArgMatches, Command};
use fam_base::OutOfMemory;
use std::alloc::Global;

/// An argument of a command. Its id is its name.
#[derive(Clone, Copy)]
pub(crate) enum Argument {
    /// A word that must stand.
    Word(&'static str),
    /// A word that may stand, behind those that must.
    Optional(&'static str),
    /// An option that has a long name alone, and whether it must be given.
    Long(&'static str, bool),
    /// An option that has a letter too, and whether it must be given.
    Short(&'static str, char, bool),
    /// A flag, by its name and its letter.
    Flag(&'static str, char),
}

/// A command without arguments yet, and without help or version words.
#[tactic(auto, unfolding(crate::specs::Simple::plain_app))]
fn plain(alloc: Global, name: &str) -> Command<'_>
    ensures { app_of result ≡ plain_app name.entry.now }
{
    Command::new(alloc, name)
        .no_binary_name(true)
        .disable_help_flag(true)
        .disable_version_flag(true)
}

/// An argument, as clap has it.
#[tactic(auto, unfolding(crate::specs::Simple::word_rule, crate::specs::Simple::optional_rule, crate::specs::Simple::option_rule, crate::specs::Simple::flag_rule))]
fn arg<'a>(alloc: Global, argument: Argument) -> Arg<'a>
    ensures rule { rule_of result ≡ rule_for argument }
    ensures alone { result.global ≡ false }
{
    match argument {
        Argument::Word(id) => Arg::new(alloc, id).required(true).action(ArgAction::Set),
        Argument::Optional(id) => Arg::new(alloc, id).action(ArgAction::Set),
        Argument::Long(id, needed) => Arg::new(alloc, id)
            .long(id)
            .required(needed)
            .action(ArgAction::Set),
        Argument::Short(id, letter, needed) => Arg::new(alloc, id)
            .long(id)
            .short(letter)
            .required(needed)
            .action(ArgAction::Set),
        Argument::Flag(id, letter) => Arg::new(alloc, id)
            .long(id)
            .short(letter)
            .action(ArgAction::SetTrue),
    }
}

/// Adds an argument.
#[tactic(auto, unfolding(crate::specs::Arguments::with_argument))]
fn add<'a>(
    alloc: Global,
    command: Command<'a>,
    argument: Argument,
) -> Result<Command<'a>, OutOfMemory>
    ensures { IfOk result (λ c. app_of c ≡ with_argument (app_of command.entry) argument) }
{
    match command.arg(arg(alloc, argument)) {
        Ok(command) => Ok(command),
        Err(_) => Err(OutOfMemory),
    }
}

/// The command with these arguments, in their order.
fn command<'a>(
    alloc: Global,
    name: &'a str,
    arguments: &[Argument],
) -> Result<Command<'a>, OutOfMemory>
    ensures { IfOk result (λ c. app_of c ≡ fold with_argument (plain_app name.entry.now) arguments.now) }
{
    let mut command = plain(alloc, name);
    for argument in arguments {
        command = add(alloc, command, *argument)?;
    }
    Ok(command)
}

/// The matches of a simple command, and nothing where its words are at fault.
fn matches<'a>(
    command: Command<'a>,
    words: &'a [String],
) -> Result<Option<ArgMatches<'a>>, OutOfMemory>
    requires { is_simple_and_free (app_of command) ≡ true }
    ensures { IfOk result (λ r. option_map (λ m. rows_of (found_of m)) r ≡ rows_given (app_of command.entry) (map string_bytes words.entry.now)) }
{
    match command.try_get_matches_from(words) {
        Ok(matches) => Ok(Some(matches)),
        Err(error) => match error.kind() {
            ErrorKind::OutOfMemory => Err(OutOfMemory),
            _ => Ok(None),
        },
    }
}

/// What a command with these arguments finds among the words, and nothing where they are at fault.
pub(crate) fn found<'a>(
    alloc: Global,
    name: &'a str,
    arguments: &[Argument],
    words: &'a [String],
) -> Result<Option<ArgMatches<'a>>, OutOfMemory>
    requires { is_simple_and_free (fold with_argument (plain_app name.now) arguments.now) ≡ true }
    ensures { IfOk result (λ r. option_map (λ m. rows_of (found_of m)) r ≡ rows_given (fold with_argument (plain_app name.entry.now) arguments.now) (map string_bytes words.entry.now)) }
{
    match command(alloc, name, arguments) {
        Ok(command) => matches(command, words),
        Err(_) => Err(OutOfMemory),
    }
}

/// The value of an option or of a word.
pub(crate) fn value<'a>(found: &ArgMatches<'a>, id: &str) -> Option<&'a str>
    ensures { option_map (λ s. s.now) result ≡ value_in id.now (rows_of (found_of found.now)) }
{
    found.get_str(id)
}

/// Whether a flag stands among the words.
pub(crate) fn is_given(found: &ArgMatches<'_>, id: &str) -> bool
    ensures { result ≡ flag_in id.now (rows_of (found_of found.now)) }
{
    match value(found, id) {
        Some(text) => text == "true",
        None => false,
    }
}
