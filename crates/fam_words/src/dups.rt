//! Words that ask for a copy of a file system.

ghost use Rattle.std.specs.Prelude.{◌≡◌, IfOk, IfSome, map, string_bytes};
ghost use Rattle.clap.specs.Words.{found_of, rows_of};
ghost use Rattle.fam_words.specs.Makings.{copy_in, dup_from};
ghost use Rattle.fam_words.specs.Dups.{IsSoundDup, dup_behind, dup_call, dup_in};

use crate::apps;
use crate::shots::{Making, making_in};
use crate::simple::{found, value};
use crate::values::uuid_if_given;
use crate::wanted::DupCall;
use clap::ArgMatches;
use fam_base::{NameText, OutOfMemory};
use std::alloc::Global;
use uuid::Uuid;

/// The copy of one image onto another.
fn copy(
    alloc: Global,
    from: &str,
    to: &str,
    making: Making,
    system: Option<Uuid>,
) -> Result<DupCall, OutOfMemory>
    ensures { IfOk result (λ call. call ≡ dup_from from.now to.now making system) }
{
    Ok(DupCall {
        from: NameText::new(alloc, from)?,
        to: NameText::new(alloc, to)?,
        unit: making.unit,
        log: making.log,
        format: making.format,
        fs: making.fs,
        force: making.force,
        system,
    })
}

/// The two images, and what the copy is to have.
#[tactic(auto, unfolding(crate::specs::Makings::copy_in))]
fn copy_in(alloc: Global, found: &ArgMatches<'_>) -> Result<Option<DupCall>, OutOfMemory>
    ensures sound { IfOk result (λ call. IfSome call IsSoundDup) }
    ensures value { IfOk result (λ call. call ≡ copy_in (rows_of (found_of found.now))) }
{
    let Some(from) = value(found, "from") else {
        return Ok(None);
    };
    let Some(to) = value(found, "to") else {
        return Ok(None);
    };
    let Some(making) = making_in(found) else {
        return Ok(None);
    };
    let Some(system) = uuid_if_given(value(found, "system")) else {
        return Ok(None);
    };
    if from == to {
        return Ok(None);
    }
    match copy(alloc, from, to, making, system) {
        Ok(call) => Ok(Some(call)),
        Err(_) => Err(OutOfMemory),
    }
}

/// The copy that the words ask for.
fn named(alloc: Global, found: &ArgMatches<'_>) -> Result<Option<DupCall>, OutOfMemory>
    ensures sound { IfOk result (λ call. IfSome call IsSoundDup) }
    ensures value { IfOk result (λ call. call ≡ dup_in (rows_of (found_of found.now))) }
{
    copy_in(alloc, found)
}

/// The words behind the command's name.
fn behind(alloc: Global, words: &[String]) -> Result<Option<DupCall>, OutOfMemory>
    ensures sound { IfOk result (λ call. IfSome call IsSoundDup) }
    ensures value { IfOk result (λ call. call ≡ dup_behind (map string_bytes words.now)) }
{
    let (word, arguments) = apps::dup();
    match found(alloc, word, arguments, words) {
        Ok(Some(found)) => named(alloc, &found),
        Ok(None) => Ok(None),
        Err(_) => Err(OutOfMemory),
    }
}

/// What the words after the program's name ask for, where that is a copy of a file system, and `None` exactly where it
/// isn't.
#[tactic(auto, unfolding(crate::specs::Dups::dup_call))]
pub fn read_dup_words(alloc: Global, words: &[String]) -> Result<Option<DupCall>, OutOfMemory>
    ensures sound { IfOk result (λ call. IfSome call IsSoundDup) }
    ensures value { IfOk result (λ call. call ≡ dup_call (map string_bytes words.now)) }
{
    let [first, rest @ ..] = words else {
        return Ok(None);
    };
    if first.as_str() == "dup" {
        return behind(alloc, rest);
    }
    Ok(None)
}
