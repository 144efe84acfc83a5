//! What each command makes of its values. `specs/Calls.antt` says so.

ghost use Rattle.std.specs.Prelude.{◌≡◌, ◌≤◌, IfOk, IfSome, Some, option_map};
ghost use Rattle.fam_base.specs.Commands.{IsSoundAttr, mode_limit};
ghost use Rattle.fam_grammar.specs.Sound.{IsSoundAsk};
ghost use Rattle.clap.specs.Words.{found_of, rows_of};
ghost use Rattle.fam_grammar.specs.Lines.{fill_of};
ghost use Rattle.fam_words.specs.Calls as spec;
ghost use Rattle.fam_words.specs.Makings.{making_in};
ghost use Rattle.fam_words.specs.Values.{IsFormat};
ghost use Rattle.fam_base.specs.declared.cmd.Cmd.TheVariants as cmd;
ghost use Rattle.fam_base.specs.declared.cmd.Content.TheVariants as content;
ghost use Rattle.fam_journal.specs.declared.event.Ask.TheVariants as ask;

use crate::simple::{is_given, value};
use crate::values::{
    attr_of, count_of, format_or_first, name_of, number_if_given, number_of, path_of, size_of,
    size_or, storm_size, stripe_of, uuid_if_given,
};
use crate::wanted::{Invocation, Shot};
use clap::ArgMatches;
use fam_base::{Attr, Cmd, Content, NameText, OutOfMemory, Path, Stripe};
use fam_grammar::{DEFAULT_LOG, DEFAULT_UNIT, DIRECTORY_MODE, FILE_MODE};
use fam_journal::Ask;
use std::alloc::Global;
use uuid::Uuid;

/// What a new file system is to have.
#[derive(Clone, Copy)]
pub(crate) struct Making {
    pub(crate) unit: u64,
    pub(crate) log: u64,
    pub(crate) format: u64,
    pub(crate) fs: Option<Uuid>,
    pub(crate) force: bool,
}

/// What a new file system is to have, as the words of mkfs and of dup say it.
#[tactic(auto, unfolding(crate::specs::Makings::making_in))]
pub(crate) fn making_in(found: &ArgMatches<'_>) -> Option<Making>
    ensures sound { IfSome result (λ making. IsFormat making.format) }
    ensures value { result ≡ making_in (rows_of (found_of found.now)) }
{
    let Some(unit) = size_or(DEFAULT_UNIT, value(found, "unit")) else {
        return None;
    };
    let Some(log) = size_or(DEFAULT_LOG, value(found, "loglen")) else {
        return None;
    };
    let Some(format) = format_or_first(value(found, "format")) else {
        return None;
    };
    let Some(fs) = uuid_if_given(value(found, "uuid")) else {
        return None;
    };
    Some(Making {
        unit,
        log,
        format,
        fs,
        force: is_given(found, "force"),
    })
}

/// Make a file system.
pub(crate) fn mkfs(found: &ArgMatches<'_>) -> Option<Shot>
    ensures sound { IfSome result spec.IsSoundShot }
    ensures value { result ≡ spec.mkfs_shot (rows_of (found_of found.now)) }
{
    match making_in(found) {
        Some(making) => Some(Shot::Mkfs {
            fs: making.fs,
            unit: making.unit,
            log: making.log,
            format: making.format,
            force: making.force,
        }),
        None => None,
    }
}

/// Mode, user and group.
#[tactic(auto, unfolding(crate::specs::Calls::attr_in))]
fn attr(default: u32, found: &ArgMatches<'_>) -> Option<Attr>
    requires { default ≤ mode_limit }
    ensures sound { IfSome result IsSoundAttr }
    ensures value { result ≡ spec.attr_in default (rows_of (found_of found.now)) }
{
    attr_of(
        default,
        value(found, "mode"),
        value(found, "uid"),
        value(found, "gid"),
    )
}

/// Strips, buckets and chunk.
#[tactic(auto, unfolding(crate::specs::Calls::stripe_in))]
fn stripe(found: &ArgMatches<'_>) -> Option<Option<Stripe>>
    ensures { result ≡ spec.stripe_in (rows_of (found_of found.now)) }
{
    stripe_of(
        value(found, "nstrips"),
        value(found, "nbuckets"),
        value(found, "chunksize"),
    )
}

/// The path.
#[tactic(auto, unfolding(crate::specs::Calls::path_in))]
fn path(found: &ArgMatches<'_>) -> Option<Path>
    ensures { result ≡ spec.path_in (rows_of (found_of found.now)) }
{
    path_of(value(found, "path"))
}

/// Make a directory, or all of them along the path.
#[tactic(auto, unfolding(crate::specs::Calls::mkdir_shot))]
pub(crate) fn mkdir(found: &ArgMatches<'_>) -> Option<Shot>
    ensures sound { IfSome result spec.IsSoundShot }
    ensures value { result ≡ spec.mkdir_shot (rows_of (found_of found.now)) }
{
    let Some(path) = path(found) else {
        return None;
    };
    let Some(attr) = attr(DIRECTORY_MODE, found) else {
        return None;
    };
    if is_given(found, "parents") {
        Some(Shot::Parents { path, attr })
    } else {
        Some(Shot::Run(Ask::Plain(Cmd::Mkdir { path, attr })))
    }
}

/// The bytes of a new file.
fn fill(seed: Option<u64>) -> Content
    ensures { result ≡ fill_of seed }
{
    match seed {
        Some(seed) => Content::Seed(seed),
        None => Content::Zero,
    }
}

/// Make a file.
#[tactic(auto, unfolding(crate::specs::Calls::creat_shot))]
pub(crate) fn creat(found: &ArgMatches<'_>) -> Option<Shot>
    ensures sound { IfSome result spec.IsSoundShot }
    ensures value { result ≡ spec.creat_shot (rows_of (found_of found.now)) }
{
    let Some(path) = path(found) else {
        return None;
    };
    let Some(size) = size_of(value(found, "size")) else {
        return None;
    };
    let Some(attr) = attr(FILE_MODE, found) else {
        return None;
    };
    let Some(stripe) = stripe(found) else {
        return None;
    };
    let Some(seed) = number_if_given(value(found, "seed")) else {
        return None;
    };
    Some(Shot::Run(Ask::Plain(Cmd::Creat {
        path,
        size,
        attr,
        stripe,
        fill: fill(seed),
    })))
}

/// Append a file that holds the bytes of a source.
fn cp_from(source: NameText, found: &ArgMatches<'_>) -> Option<Shot>
    ensures sound { IfSome result spec.IsSoundShot }
    ensures value { result ≡ spec.cp_with (Some source) (spec.path_in (rows_of (found_of found.now))) (spec.attr_in FILE_MODE (rows_of (found_of found.now))) (spec.stripe_in (rows_of (found_of found.now))) }
{
    let Some(path) = path(found) else {
        return None;
    };
    let Some(attr) = attr(FILE_MODE, found) else {
        return None;
    };
    let Some(stripe) = stripe(found) else {
        return None;
    };
    Some(Shot::Run(Ask::Cp {
        source,
        path,
        attr,
        stripe,
    }))
}

/// Append a file that holds the bytes of a source.
#[tactic(auto, unfolding(crate::specs::Calls::cp_shot))]
pub(crate) fn cp(alloc: Global, found: &ArgMatches<'_>) -> Result<Option<Shot>, OutOfMemory>
    ensures sound { IfOk result (λ shot. IfSome shot spec.IsSoundShot) }
    ensures value { IfOk result (λ shot. shot ≡ spec.cp_shot (rows_of (found_of found.now))) }
{
    match name_of(alloc, value(found, "source")) {
        Ok(Some(source)) => Ok(cp_from(source, found)),
        Ok(None) => Ok(None),
        Err(_) => Err(OutOfMemory),
    }
}

/// Compare a file with the bytes of a seed, or with those of a source; with zeros without either.
fn against(
    alloc: Global,
    path: Path,
    seed: Option<&str>,
    source: Option<&str>,
) -> Result<Option<Ask>, OutOfMemory>
    ensures sound { IfOk result (λ asked. IfSome asked IsSoundAsk) }
    ensures value { IfOk result (λ asked. asked ≡ spec.against_texts path (option_map (λ s. s.now) seed.entry) (option_map (λ s. s.now) source.entry)) }
{
    match (seed, source) {
        (None, None) => Ok(Some(Ask::Plain(Cmd::Verify {
            path,
            against: Content::Zero,
        }))),
        (Some(_), None) => Ok(against_seed(path, number_of(seed))),
        (None, Some(_)) => Ok(against_source(path, name_of(alloc, source)?)),
        (Some(_), Some(_)) => Ok(None),
    }
}

/// Compare a file with the bytes of a seed.
fn against_seed(path: Path, seed: Option<u64>) -> Option<Ask>
    ensures sound { IfSome result IsSoundAsk }
    ensures value { result ≡ option_map (λ n. ask.Plain (cmd.Verify path (content.Seed n))) seed }
{
    Some(Ask::Plain(Cmd::Verify {
        path,
        against: Content::Seed(seed?),
    }))
}

/// Compare a file with the bytes of a source.
fn against_source(path: Path, source: Option<NameText>) -> Option<Ask>
    ensures sound { IfSome result IsSoundAsk }
    ensures value { result ≡ option_map (λ file. ask.VerifySource path file) source }
{
    Some(Ask::VerifySource {
        path,
        source: source?,
    })
}

/// Compare a file.
#[tactic(auto, unfolding(crate::specs::Calls::verify_shot))]
pub(crate) fn verify(alloc: Global, found: &ArgMatches<'_>) -> Result<Option<Shot>, OutOfMemory>
    ensures sound { IfOk result (λ shot. IfSome shot spec.IsSoundShot) }
    ensures value { IfOk result (λ shot. shot ≡ spec.verify_shot (rows_of (found_of found.now))) }
{
    let Some(path) = path(found) else {
        return Ok(None);
    };
    match against(alloc, path, value(found, "seed"), value(found, "source")) {
        Ok(Some(asked)) => Ok(Some(Shot::Run(asked))),
        Ok(None) => Ok(None),
        Err(_) => Err(OutOfMemory),
    }
}

/// Read bytes of a file.
#[tactic(auto, unfolding(crate::specs::Calls::read_shot))]
pub(crate) fn read(found: &ArgMatches<'_>) -> Option<Shot>
    ensures sound { IfSome result spec.IsSoundShot }
    ensures value { result ≡ spec.read_shot (rows_of (found_of found.now)) }
{
    let Some(path) = path(found) else {
        return None;
    };
    let Some(offset) = number_of(value(found, "offset")) else {
        return None;
    };
    let Some(count) = count_of(value(found, "count")) else {
        return None;
    };
    Some(Shot::Run(Ask::Plain(Cmd::Read {
        path,
        offset,
        count,
    })))
}

/// Compare the tree with a listing.
#[tactic(auto, unfolding(crate::specs::Calls::check_shot))]
pub(crate) fn check(alloc: Global, found: &ArgMatches<'_>) -> Result<Option<Shot>, OutOfMemory>
    ensures sound { IfOk result (λ shot. IfSome shot spec.IsSoundShot) }
    ensures value { IfOk result (λ shot. shot ≡ spec.check_shot (rows_of (found_of found.now))) }
{
    match name_of(alloc, value(found, "listing")) {
        Ok(Some(source)) => Ok(Some(Shot::Run(Ask::Check { source }))),
        Ok(None) => Ok(None),
        Err(_) => Err(OutOfMemory),
    }
}

/// Run or print a storm.
#[tactic(auto, unfolding(crate::specs::Calls::storm_invocation))]
pub(crate) fn storm(found: &ArgMatches<'_>) -> Option<Invocation>
    ensures sound { IfSome result spec.IsSoundInvocation }
    ensures value { result ≡ spec.storm_invocation (rows_of (found_of found.now)) }
{
    let Some(seed) = number_of(value(found, "seed")) else {
        return None;
    };
    let Some(size) = storm_size(value(found, "size")) else {
        return None;
    };
    Some(Invocation::Storm {
        seed,
        size,
        prints: is_given(found, "print"),
    })
}

/// Run a script.
#[tactic(auto, unfolding(crate::specs::Calls::script_invocation))]
pub(crate) fn script(
    alloc: Global,
    found: &ArgMatches<'_>,
) -> Result<Option<Invocation>, OutOfMemory>
    ensures sound { IfOk result (λ invocation. IfSome invocation spec.IsSoundInvocation) }
    ensures value { IfOk result (λ invocation. invocation ≡ spec.script_invocation (rows_of (found_of found.now))) }
{
    match name_of(alloc, value(found, "file")) {
        Ok(Some(file)) => Ok(Some(Invocation::Script { file })),
        Ok(None) => Ok(None),
        Err(_) => Err(OutOfMemory),
    }
}
