//! Calls: a command's name, and the words that belong to it.

ghost use Rattle.std.specs.Prelude.{◌≡◌, IfOk, IfSome, map, string_bytes};
ghost use Rattle.clap.specs.Words.{found_of, rows_of};
ghost use Rattle.fam_words.specs.Calls as spec;
ghost use Rattle.fam_words.specs.Calls.{call_behind, call_of};
ghost use Rattle.fam_words.specs.Names.{first_named};
ghost use Rattle.fam_words.specs.Singles.{shot_in};

use crate::apps::words_of;
use crate::shots;
use crate::simple::{found, value};
use crate::values::uuid_if_given;
use crate::wanted::{Call, Invocation, Shot};
use clap::ArgMatches;
use fam_base::{Cmd, NameText, OutOfMemory};
use fam_journal::Ask;
use std::alloc::Global;

/// The commands.
#[derive(Clone, Copy)]
pub(crate) enum Name {
    Mkfs,
    Logplay,
    Mkdir,
    Creat,
    Cp,
    Verify,
    Read,
    Check,
    Fsck,
    Script,
    Storm,
}

/// A command by its name, as words have it.
#[derive(Clone, Copy)]
pub(crate) struct Named {
    text: &'static str,
    name: Name,
}

/// The commands' names.
const NAMES: [Named; 11] = [
    Named {
        text: "mkfs",
        name: Name::Mkfs,
    },
    Named {
        text: "logplay",
        name: Name::Logplay,
    },
    Named {
        text: "mkdir",
        name: Name::Mkdir,
    },
    Named {
        text: "creat",
        name: Name::Creat,
    },
    Named {
        text: "cp",
        name: Name::Cp,
    },
    Named {
        text: "verify",
        name: Name::Verify,
    },
    Named {
        text: "read",
        name: Name::Read,
    },
    Named {
        text: "check",
        name: Name::Check,
    },
    Named {
        text: "fsck",
        name: Name::Fsck,
    },
    Named {
        text: "script",
        name: Name::Script,
    },
    Named {
        text: "storm",
        name: Name::Storm,
    },
];

/// The command of this name.
#[tactic(auto, unfolding(crate::specs::Calls::name_of))]
fn name_of(word: &str) -> Option<Name>
    ensures { result ≡ spec.name_of word.now }
{
    named_in(word, &NAMES)
}

/// The first command of this name among some.
fn named_in(word: &str, names: &[Named]) -> Option<Name>
    ensures { result ≡ first_named word.now names.now }
{
    for named in names {
        if word == named.text {
            return Some(named.name);
        }
    }
    None
}

/// The command of its own that the values of a command's words ask for; the other commands have none.
fn shot_in(alloc: Global, name: Name, found: &ArgMatches<'_>) -> Result<Option<Shot>, OutOfMemory>
    ensures sound { IfOk result (λ shot. IfSome shot spec.IsSoundShot) }
    ensures value { IfOk result (λ shot. shot ≡ shot_in name (rows_of (found_of found.now))) }
{
    match name {
        Name::Mkfs => Ok(shots::mkfs(found)),
        Name::Logplay => Ok(Some(Shot::Run(Ask::Plain(Cmd::Logplay)))),
        Name::Mkdir => Ok(shots::mkdir(found)),
        Name::Creat => Ok(shots::creat(found)),
        Name::Cp => shots::cp(alloc, found),
        Name::Verify => shots::verify(alloc, found),
        Name::Read => Ok(shots::read(found)),
        Name::Check => shots::check(alloc, found),
        Name::Fsck => Ok(Some(Shot::Run(Ask::Plain(Cmd::Fsck)))),
        Name::Script => Ok(None),
        Name::Storm => Ok(None),
    }
}

/// A command of its own, on the host that the words name.
fn single(
    alloc: Global,
    name: Name,
    found: &ArgMatches<'_>,
) -> Result<Option<Invocation>, OutOfMemory>
    ensures sound { IfOk result (λ invocation. IfSome invocation spec.IsSoundInvocation) }
    ensures value { IfOk result (λ invocation. invocation ≡ spec.single_invocation (rows_of (found_of found.now)) (shot_in name (rows_of (found_of found.now)))) }
{
    let Some(system) = uuid_if_given(value(found, "system")) else {
        return Ok(None);
    };
    match shot_in(alloc, name, found) {
        Ok(Some(shot)) => Ok(Some(Invocation::Single { system, shot })),
        Ok(None) => Ok(None),
        Err(_) => Err(OutOfMemory),
    }
}

/// The invocation that the values of a command's words ask for.
fn invocation_in(
    alloc: Global,
    name: Name,
    found: &ArgMatches<'_>,
) -> Result<Option<Invocation>, OutOfMemory>
    ensures sound { IfOk result (λ invocation. IfSome invocation spec.IsSoundInvocation) }
    ensures value { IfOk result (λ invocation. invocation ≡ spec.invocation_in name (rows_of (found_of found.now))) }
{
    match name {
        Name::Script => shots::script(alloc, found),
        Name::Storm => Ok(shots::storm(found)),
        _ => single(alloc, name, found),
    }
}

/// The call that the values of a command's words ask for.
fn call_in(alloc: Global, name: Name, found: &ArgMatches<'_>) -> Result<Option<Call>, OutOfMemory>
    ensures sound { IfOk result (λ call. IfSome call (λ c. spec.IsSoundInvocation c.invocation)) }
    ensures value { IfOk result (λ call. call ≡ spec.invocation_call (rows_of (found_of found.now)) (spec.invocation_in name (rows_of (found_of found.now)))) }
{
    let Some(image) = value(found, "image") else {
        return Ok(None);
    };
    let Ok(image) = NameText::new(alloc, image) else {
        return Err(OutOfMemory);
    };
    match invocation_in(alloc, name, found) {
        Ok(Some(invocation)) => Ok(Some(Call { image, invocation })),
        Ok(None) => Ok(None),
        Err(_) => Err(OutOfMemory),
    }
}

/// The words behind a command's name.
fn behind(alloc: Global, name: Name, words: &[String]) -> Result<Option<Call>, OutOfMemory>
    ensures sound { IfOk result (λ call. IfSome call (λ c. spec.IsSoundInvocation c.invocation)) }
    ensures value { IfOk result (λ call. call ≡ call_behind name (map string_bytes words.now)) }
{
    let (word, arguments) = words_of(name);
    match found(alloc, word, arguments, words) {
        Ok(Some(found)) => call_in(alloc, name, &found),
        Ok(None) => Ok(None),
        Err(_) => Err(OutOfMemory),
    }
}

/// The command that the words after the program's name are, and `None` exactly where they are none.
#[tactic(auto, unfolding(crate::specs::Calls::call_of))]
pub fn read_words(alloc: Global, words: &[String]) -> Result<Option<Call>, OutOfMemory>
    ensures sound { IfOk result (λ call. IfSome call (λ c. spec.IsSoundInvocation c.invocation)) }
    ensures value { IfOk result (λ call. call ≡ call_of (map string_bytes words.now)) }
{
    let [first, rest @ ..] = words else {
        return Ok(None);
    };
    match name_of(first.as_str()) {
        Some(name) => behind(alloc, name, rest),
        None => Ok(None),
    }
}
