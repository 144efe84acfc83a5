//! The commands that a host runs. `specs/Commands.antt` says which of them it may be told.

ghost use Rattle.std.specs.Prelude.{◌≡◌, IfOk};
ghost use Rattle.fam_base.specs.declared.cmd.Cmd.TheVariants as cmd;

use crate::line::OutOfMemory;
use crate::path::Path;
use crate::shared::{SharedBytes, SharedEntries};

/// How a file is to be striped: chunks of `chunk` bytes are dealt in turn to `nstrips` strips, each of which
/// is looked for in another one of the device's `nbuckets` equal parts.
#[derive(Clone, Copy, Debug, PartialEq, Eq)]
pub struct Stripe {
    pub nstrips: u64,
    pub nbuckets: u64,
    pub chunk: u64,
}

/// The bytes of a file: zeros, the pseudo-random bytes of a seed, or the given bytes with zeros behind.
#[derive(Drop)]
pub enum Content {
    Zero,
    /// The stream of this seed.
    Seed(u64),
    Bytes(SharedBytes),
}

/// The mode, at most 4,095 (four octal digits), the user and the group. They are recorded and never
/// enforced.
#[derive(Clone, Copy, Debug, PartialEq, Eq)]
pub struct Attr {
    pub mode: u32,
    pub uid: u32,
    pub gid: u32,
}

/// What a host is told to do.
#[derive(Drop)]
pub enum Cmd {
    /// Replay the log and list its tree.
    Logplay,
    /// Replay the log, so that the host keeps what it read.
    Mount,
    /// Append a directory.
    Mkdir {
        path: Path,
        attr: Attr,
    },
    /// Append a file of `size` bytes and write its content, `fill`.
    Creat {
        path: Path,
        size: u64,
        attr: Attr,
        stripe: Option<Stripe>,
        fill: Content,
    },
    /// Append a file that holds `bytes`.
    Cp {
        path: Path,
        attr: Attr,
        stripe: Option<Stripe>,
        bytes: SharedBytes,
    },
    /// Compare a file's bytes with a content of the file's size.
    Verify {
        path: Path,
        against: Content,
    },
    /// Read at most `count` bytes from byte `offset` on. `count` is at most 4,096.
    Read {
        path: Path,
        offset: u64,
        count: u64,
    },
    /// Compare the tree with a listing, whose paths are distinct and in byte order.
    Check {
        listing: SharedEntries,
    },
    /// Report on superblock, log and all slots.
    Fsck,
}

impl Content {
    /// An equal content.
    fn copy(&self) -> Result<Content, OutOfMemory>
        ensures { IfOk result (λ c. c ≡ self.now) }
    {
        match self {
            Content::Zero => Ok(Content::Zero),
            Content::Seed(seed) => Ok(Content::Seed(*seed)),
            Content::Bytes(bytes) => match bytes.copy() {
                Ok(bytes) => Ok(Content::Bytes(bytes)),
                Err(_) => Err(OutOfMemory),
            },
        }
    }
}

/// A creat with an equal content.
fn copy_creat(
    path: &Path,
    size: u64,
    attr: Attr,
    stripe: Option<Stripe>,
    fill: &Content,
) -> Result<Cmd, OutOfMemory>
    ensures { IfOk result (λ c. c ≡ cmd.Creat path.now size attr stripe fill.now) }
{
    match fill.copy() {
        Ok(fill) => Ok(Cmd::Creat {
            path: *path,
            size,
            attr,
            stripe,
            fill,
        }),
        Err(_) => Err(OutOfMemory),
    }
}

/// A cp with the same bytes.
fn copy_cp(
    path: &Path,
    attr: Attr,
    stripe: Option<Stripe>,
    bytes: &SharedBytes,
) -> Result<Cmd, OutOfMemory>
    ensures { IfOk result (λ c. c ≡ cmd.Cp path.now attr stripe bytes.now) }
{
    match bytes.copy() {
        Ok(bytes) => Ok(Cmd::Cp {
            path: *path,
            attr,
            stripe,
            bytes,
        }),
        Err(_) => Err(OutOfMemory),
    }
}

/// A verify with an equal content.
fn copy_verify(path: &Path, against: &Content) -> Result<Cmd, OutOfMemory>
    ensures { IfOk result (λ c. c ≡ cmd.Verify path.now against.now) }
{
    match against.copy() {
        Ok(against) => Ok(Cmd::Verify {
            path: *path,
            against,
        }),
        Err(_) => Err(OutOfMemory),
    }
}

impl Cmd {
    /// An equal command. Bytes and listings are shared, not copied.
    pub fn copy(&self) -> Result<Cmd, OutOfMemory>
        ensures { IfOk result (λ c. c ≡ self.now) }
    {
        match self {
            Cmd::Logplay => Ok(Cmd::Logplay),
            Cmd::Mount => Ok(Cmd::Mount),
            Cmd::Fsck => Ok(Cmd::Fsck),
            Cmd::Mkdir { path, attr } => Ok(Cmd::Mkdir {
                path: *path,
                attr: *attr,
            }),
            Cmd::Creat {
                path,
                size,
                attr,
                stripe,
                fill,
            } => copy_creat(path, *size, *attr, *stripe, fill),
            Cmd::Cp {
                path,
                attr,
                stripe,
                bytes,
            } => copy_cp(path, *attr, *stripe, bytes),
            Cmd::Verify { path, against } => copy_verify(path, against),
            Cmd::Read {
                path,
                offset,
                count,
            } => Ok(Cmd::Read {
                path: *path,
                offset: *offset,
                count: *count,
            }),
            Cmd::Check { listing } => match listing.copy() {
                Ok(listing) => Ok(Cmd::Check { listing }),
                Err(_) => Err(OutOfMemory),
            },
        }
    }
}
