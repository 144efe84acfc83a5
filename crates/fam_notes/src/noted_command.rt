//! Commands as notes keep them. `specs/Commands.antt` says which command each one is.
//!
//! A task's command has a field of 512 bytes for its path, since it is copied and compared. A journal keeps each
//! command to the end of its run, and a large script begins tens of thousands. So a note has the command's parts, with
//! the path's bytes on the heap, and a contract sees the command itself (`command_of`).

ghost use Rattle.std.specs.Prelude.{◌≡◌, IfOk};
ghost use Rattle.fam_base.specs.declared.cmd.Cmd.TheVariants as cmd;
ghost use Rattle.fam_notes.specs.Commands.{command_of};

use crate::path_text::PathText;
use fam_base::{Attr, Cmd, Content, OutOfMemory, Path, SharedBytes, SharedEntries, Stripe};
use std::alloc::Global;

/// A command that was begun: a `Cmd`, but its path takes only the memory of its bytes.
#[derive(Drop)]
pub enum NotedCommand {
    Logplay,
    Mount,
    Mkdir {
        path: PathText,
        attr: Attr,
    },
    Creat {
        path: PathText,
        size: u64,
        attr: Attr,
        stripe: Option<Stripe>,
        fill: Content,
    },
    Cp {
        path: PathText,
        attr: Attr,
        stripe: Option<Stripe>,
        bytes: SharedBytes,
    },
    Verify {
        path: PathText,
        against: Content,
    },
    Read {
        path: PathText,
        offset: u64,
        count: u64,
    },
    Check {
        listing: SharedEntries,
    },
    Fsck,
}

/// A creat, with the path on the heap.
fn noted_creat(
    alloc: Global,
    path: &Path,
    size: u64,
    attr: Attr,
    stripe: Option<Stripe>,
    fill: Content,
) -> Result<NotedCommand, OutOfMemory>
    ensures { IfOk result (λ n. command_of n ≡ cmd.Creat path.now size attr stripe fill) }
{
    let path = PathText::of(alloc, path)?;
    Ok(NotedCommand::Creat {
        path,
        size,
        attr,
        stripe,
        fill,
    })
}

/// A cp, with the path on the heap.
fn noted_cp(
    alloc: Global,
    path: &Path,
    attr: Attr,
    stripe: Option<Stripe>,
    bytes: SharedBytes,
) -> Result<NotedCommand, OutOfMemory>
    ensures { IfOk result (λ n. command_of n ≡ cmd.Cp path.now attr stripe bytes) }
{
    let path = PathText::of(alloc, path)?;
    Ok(NotedCommand::Cp {
        path,
        attr,
        stripe,
        bytes,
    })
}

/// A mkdir, with the path on the heap.
fn noted_mkdir(alloc: Global, path: &Path, attr: Attr) -> Result<NotedCommand, OutOfMemory>
    ensures { IfOk result (λ n. command_of n ≡ cmd.Mkdir path.now attr) }
{
    let path = PathText::of(alloc, path)?;
    Ok(NotedCommand::Mkdir { path, attr })
}

/// A verify, with the path on the heap.
fn noted_verify(alloc: Global, path: &Path, against: Content) -> Result<NotedCommand, OutOfMemory>
    ensures { IfOk result (λ n. command_of n ≡ cmd.Verify path.now against) }
{
    let path = PathText::of(alloc, path)?;
    Ok(NotedCommand::Verify { path, against })
}

/// A read, with the path on the heap.
fn noted_read(
    alloc: Global,
    path: &Path,
    offset: u64,
    count: u64,
) -> Result<NotedCommand, OutOfMemory>
    ensures { IfOk result (λ n. command_of n ≡ cmd.Read path.now offset count) }
{
    let path = PathText::of(alloc, path)?;
    Ok(NotedCommand::Read {
        path,
        offset,
        count,
    })
}

impl NotedCommand {
    /// The same command. Bytes and listings are shared, not copied.
    pub fn of(alloc: Global, cmd: &Cmd) -> Result<NotedCommand, OutOfMemory>
        ensures { IfOk result (λ n. command_of n ≡ cmd.now) }
    {
        match cmd.copy()? {
            Cmd::Logplay => Ok(NotedCommand::Logplay),
            Cmd::Mount => Ok(NotedCommand::Mount),
            Cmd::Fsck => Ok(NotedCommand::Fsck),
            Cmd::Mkdir { path, attr } => noted_mkdir(alloc, &path, attr),
            Cmd::Creat {
                path,
                size,
                attr,
                stripe,
                fill,
            } => noted_creat(alloc, &path, size, attr, stripe, fill),
            Cmd::Cp {
                path,
                attr,
                stripe,
                bytes,
            } => noted_cp(alloc, &path, attr, stripe, bytes),
            Cmd::Verify { path, against } => noted_verify(alloc, &path, against),
            Cmd::Read {
                path,
                offset,
                count,
            } => noted_read(alloc, &path, offset, count),
            Cmd::Check { listing } => Ok(NotedCommand::Check { listing }),
        }
    }
}
