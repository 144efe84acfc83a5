//! The texts of commands, as they begin. fam_outcomes' `specs/Texts.antt` has their forms.

ghost use Rattle.std.specs.Prelude.{◌≡◌, ◌++◌, IfOk, string_bytes, codes};
ghost use Rattle.fam_base.specs.declared.cmd.Cmd.TheVariants as cmd;
ghost use Rattle.fam_notes.specs.Commands.{command_of};
ghost use Rattle.fam_outcomes.specs.Texts as text;

use crate::lines::{line, line_with_name, number_line};
use fam_base::{Attr, Content, OutOfMemory, Path, Stripe};
use fam_notes::NotedCommand;
use std::alloc::{AllocError, Global};

/// Mode, user and group. The mode has four octal digits.
fn attr_text(alloc: Global, attr: Attr) -> Result<String, AllocError>
    ensures { IfOk result (λ s. string_bytes s ≡ text.attr_text attr) }
{
    let first = attr.mode / 512 % 8;
    let second = attr.mode / 64 % 8;
    let third = attr.mode / 8 % 8;
    let fourth = attr.mode % 8;
    let uid = attr.uid;
    let gid = attr.gid;
    format!(in alloc; " mode={first}{second}{third}{fourth} uid={uid} gid={gid}")
}

/// How a file is striped, where it is.
fn stripe_text(alloc: Global, stripe: Option<Stripe>) -> Result<String, AllocError>
    ensures { IfOk result (λ s. string_bytes s ≡ text.stripe_text stripe) }
{
    match stripe {
        None => Ok(String::new(alloc)),
        Some(stripe) => {
            let nstrips = stripe.nstrips;
            let nbuckets = stripe.nbuckets;
            let chunk = stripe.chunk;
            format!(in alloc; " stripe={nstrips},{nbuckets},{chunk}")
        }
    }
}

/// The seed of a file's bytes, where they have one.
fn seed_text(alloc: Global, fill: &Content) -> Result<String, AllocError>
    ensures { IfOk result (λ s. string_bytes s ≡ text.seed_text fill.now) }
{
    match fill {
        Content::Seed(seed) => format!(in alloc; " seed={seed}"),
        Content::Zero => Ok(String::new(alloc)),
        Content::Bytes(_) => Ok(String::new(alloc)),
    }
}

/// What a file is compared with: the stream of a seed, or so many given bytes.
fn against_text(alloc: Global, against: &Content) -> Result<String, AllocError>
    ensures { IfOk result (λ s. string_bytes s ≡ text.against_text against.now) }
{
    match against {
        Content::Zero => Ok(String::new(alloc)),
        Content::Seed(seed) => format!(in alloc; " seed={seed}"),
        Content::Bytes(bytes) => {
            let count = bytes.as_slice().len();
            format!(in alloc; " bytes={count}")
        }
    }
}

fn mkdir_line(alloc: Global, path: &Path, attr: Attr) -> Result<Vec<u8>, OutOfMemory>
    ensures { IfOk result (λ bytes. bytes.items ≡ text.line (codes "start " ++ text.cmd_text (cmd.Mkdir path.now attr))) }
{
    let Ok(back) = attr_text(alloc, attr) else {
        return Err(OutOfMemory);
    };
    line_with_name(alloc, "start mkdir ", path.bytes(), back.as_str())
}

/// What stands behind the path of a creat or a cp: the size in bytes, the attributes, the seed and the strips.
fn file_text(
    alloc: Global,
    size: u64,
    attr: Attr,
    seed: &str,
    stripe: Option<Stripe>,
) -> Result<String, AllocError>
    ensures { IfOk result (λ s. string_bytes s ≡ text.number size ++ text.attr_text attr ++ seed.now ++ text.stripe_text stripe) }
{
    let attr = attr_text(alloc, attr)?;
    let stripe = stripe_text(alloc, stripe)?;
    format!(in alloc; " {size}{attr}{seed}{stripe}")
}

fn creat_line(
    alloc: Global,
    path: &Path,
    size: u64,
    attr: Attr,
    stripe: Option<Stripe>,
    fill: &Content,
) -> Result<Vec<u8>, OutOfMemory>
    ensures { IfOk result (λ bytes. bytes.items ≡ text.line (codes "start " ++ text.cmd_text (cmd.Creat path.now size attr stripe fill.now))) }
{
    let Ok(seed) = seed_text(alloc, fill) else {
        return Err(OutOfMemory);
    };
    let Ok(back) = file_text(alloc, size, attr, seed.as_str(), stripe) else {
        return Err(OutOfMemory);
    };
    line_with_name(alloc, "start creat ", path.bytes(), back.as_str())
}

fn cp_line(
    alloc: Global,
    path: &Path,
    attr: Attr,
    stripe: Option<Stripe>,
    bytes: &[u8],
) -> Result<Vec<u8>, OutOfMemory>
    ensures { IfOk result (λ line. line.items ≡ text.line (codes "start " ++ text.cmd_text (cmd.Cp path.now attr stripe bytes.now))) }
{
    let count = bytes.len();
    let Ok(back) = file_text(alloc, count as u64, attr, "", stripe) else {
        return Err(OutOfMemory);
    };
    line_with_name(alloc, "start cp ", path.bytes(), back.as_str())
}

fn verify_line(alloc: Global, path: &Path, against: &Content) -> Result<Vec<u8>, OutOfMemory>
    ensures { IfOk result (λ bytes. bytes.items ≡ text.line (codes "start " ++ text.cmd_text (cmd.Verify path.now against.now))) }
{
    let Ok(back) = against_text(alloc, against) else {
        return Err(OutOfMemory);
    };
    line_with_name(alloc, "start verify ", path.bytes(), back.as_str())
}

fn read_line(alloc: Global, path: &Path, offset: u64, count: u64) -> Result<Vec<u8>, OutOfMemory>
    ensures { IfOk result (λ bytes. bytes.items ≡ text.line (codes "start " ++ text.cmd_text (cmd.Read path.now offset count))) }
{
    let Ok(back) = format!(in alloc; " {offset} {count}") else {
        return Err(OutOfMemory);
    };
    line_with_name(alloc, "start read ", path.bytes(), back.as_str())
}

/// The line with which a command begins.
pub(crate) fn start_line(alloc: Global, cmd: &NotedCommand) -> Result<Vec<u8>, OutOfMemory>
    ensures { IfOk result (λ bytes. bytes.items ≡ text.line (codes "start " ++ text.cmd_text (command_of cmd.now))) }
{
    match cmd {
        NotedCommand::Logplay => line(alloc, "start logplay"),
        NotedCommand::Mount => line(alloc, "start mount"),
        NotedCommand::Fsck => line(alloc, "start fsck"),
        NotedCommand::Mkdir { path, attr } => mkdir_line(alloc, &path.to_path(), *attr),
        NotedCommand::Creat {
            path,
            size,
            attr,
            stripe,
            fill,
        } => creat_line(alloc, &path.to_path(), *size, *attr, *stripe, fill),
        NotedCommand::Cp {
            path,
            attr,
            stripe,
            bytes,
        } => cp_line(alloc, &path.to_path(), *attr, *stripe, bytes.as_slice()),
        NotedCommand::Verify { path, against } => verify_line(alloc, &path.to_path(), against),
        NotedCommand::Read {
            path,
            offset,
            count,
        } => read_line(alloc, &path.to_path(), *offset, *count),
        NotedCommand::Check { listing } => {
            let count = listing.as_slice().len();
            number_line(alloc, "start check", count as u64)
        }
    }
}
