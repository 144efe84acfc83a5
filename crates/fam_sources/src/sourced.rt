//! Asks, and the commands that they come to.

ghost use Rattle.std.specs.Prelude.{◌≡◌, IfOk, OnErr};
ghost use Rattle.fam_media.specs.Causes.{IsShelfSteady};
ghost use Rattle.fam_media.specs.States.{change};
ghost use Rattle.fam_journal.specs.declared.event.Ask.TheVariants as ask;
ghost use Rattle.fam_sources.specs.Sourced.{IsGiven, ReadsListing, IsSourced, WantsBytes, WantsSource};

use crate::whole::{WholeFault, read_whole};
use fam_base::{
    Attr, Cmd, Content, NameText, OutOfMemory, Path, SharedBytes, SharedEntries, Stripe,
};
use fam_journal::{Ask, Refusal};
use fam_media::Shelf;
use fam_tree::{ListingFault, read_listing};
use std::alloc::Global;

/// The most bytes of sources that one call of the program reads.
pub const COPY_LIMIT: u64 = 268_435_456;

/// How the reading of a source ends early.
#[derive(Clone, Copy, Debug, PartialEq, Eq)]
pub enum SourceEnd {
    /// The shelf failed.
    Faulted,
    /// Of `size` bytes only `got` came.
    Short { size: u64, got: u64 },
}

/// What an ask comes to.
#[derive(Drop)]
pub enum Sourced {
    /// The command, with the bytes of its source.
    Ready(Cmd),
    /// There is no such source, or it is too long, or no listing.
    Unfit(Refusal),
    /// The source could not be read to its end.
    Ended(SourceEnd),
}

/// What an ask comes to, and how many bytes of sources were read by then.
#[derive(Drop)]
pub struct Resolved {
    pub sourced: Sourced,
    pub copied: u64,
}

/// What came of a source.
#[derive(Drop)]
enum Given {
    /// Its bytes.
    Bytes(Vec<u8>),
    /// There is none of its name, or it is too long.
    Unfit(Refusal),
    /// It could not be read to its end.
    Ended(SourceEnd),
}

/// The bytes of a source.
fn bytes_of<S: Shelf>(
    alloc: Global,
    shelf: &mut S,
    source: NameText,
    copied: u64,
) -> Result<Given, OutOfMemory>
    ensures says { IfOk result (IsGiven (change S.state shelf.old shelf.new) copied source) }
    ensures want { OnErr result (WantsBytes (change S.state shelf.old shelf.new) copied source) }
    ensures steady { IsShelfSteady (S.state shelf.old) (S.state shelf.new) }
{
    match read_whole(alloc, shelf, source.text(), copied, COPY_LIMIT) {
        Ok(bytes) => Ok(Given::Bytes(bytes)),
        Err(WholeFault::NoFile) => Ok(Given::Unfit(Refusal::NoFile(source))),
        Err(WholeFault::TooLong(sum)) => Ok(Given::Unfit(Refusal::CopyLimit(sum))),
        Err(WholeFault::Faulted) => Ok(Given::Ended(SourceEnd::Faulted)),
        Err(WholeFault::Short { size, got }) => Ok(Given::Ended(SourceEnd::Short { size, got })),
        Err(WholeFault::OutOfMemory) => Err(OutOfMemory),
    }
}

/// A command that could not be made of its source.
fn without(sourced: Sourced, copied: u64) -> Resolved
    ensures { result ≡ record { sourced = sourced; copied = copied } }
{
    Resolved { sourced, copied }
}

/// Append a file that holds the bytes of a source.
fn cp<S: Shelf>(
    alloc: Global,
    shelf: &mut S,
    source: NameText,
    path: Path,
    attr: Attr,
    stripe: Option<Stripe>,
    copied: u64,
) -> Result<Resolved, OutOfMemory>
    ensures says { IfOk result (λ r. IsSourced (change S.state shelf.old shelf.new)
        copied (ask.Cp source path attr stripe) r.copied r.sourced) }
    ensures want { OnErr result (WantsBytes (change S.state shelf.old shelf.new) copied source) }
    ensures steady { IsShelfSteady (S.state shelf.old) (S.state shelf.new) }
{
    match bytes_of(alloc, shelf, source, copied)? {
        Given::Bytes(bytes) => {
            let now = copied + bytes.len() as u64;
            let bytes = SharedBytes::new(alloc, bytes)?;
            Ok(Resolved {
                sourced: Sourced::Ready(Cmd::Cp {
                    path,
                    attr,
                    stripe,
                    bytes,
                }),
                copied: now,
            })
        }
        Given::Unfit(cause) => Ok(without(Sourced::Unfit(cause), copied)),
        Given::Ended(end) => Ok(without(Sourced::Ended(end), copied)),
    }
}

/// Compare a file with the bytes of a source.
fn verify<S: Shelf>(
    alloc: Global,
    shelf: &mut S,
    path: Path,
    source: NameText,
    copied: u64,
) -> Result<Resolved, OutOfMemory>
    ensures says { IfOk result (λ r. IsSourced (change S.state shelf.old shelf.new)
        copied (ask.VerifySource path source) r.copied r.sourced) }
    ensures want { OnErr result (WantsBytes (change S.state shelf.old shelf.new) copied source) }
    ensures steady { IsShelfSteady (S.state shelf.old) (S.state shelf.new) }
{
    match bytes_of(alloc, shelf, source, copied)? {
        Given::Bytes(bytes) => {
            let now = copied + bytes.len() as u64;
            let against = Content::Bytes(SharedBytes::new(alloc, bytes)?);
            Ok(Resolved {
                sourced: Sourced::Ready(Cmd::Verify { path, against }),
                copied: now,
            })
        }
        Given::Unfit(cause) => Ok(without(Sourced::Unfit(cause), copied)),
        Given::Ended(end) => Ok(without(Sourced::Ended(end), copied)),
    }
}

/// Compare the tree with the listing that these bytes are.
fn listed(alloc: Global, bytes: &[u8]) -> Result<Sourced, OutOfMemory>
    ensures { IfOk result (ReadsListing bytes.now) }
{
    match read_listing(alloc, bytes) {
        Ok(entries) => Ok(Sourced::Ready(Cmd::Check {
            listing: SharedEntries::new(alloc, entries)?,
        })),
        Err(ListingFault::BadListing(line)) => Ok(Sourced::Unfit(Refusal::BadListing(line))),
        Err(ListingFault::OutOfMemory) => Err(OutOfMemory),
    }
}

/// Compare the tree with the listing that a source holds.
fn check<S: Shelf>(
    alloc: Global,
    shelf: &mut S,
    source: NameText,
    copied: u64,
) -> Result<Resolved, OutOfMemory>
    ensures says { IfOk result (λ r. IsSourced (change S.state shelf.old shelf.new)
        copied (ask.Check source) r.copied r.sourced) }
    ensures want { OnErr result (WantsBytes (change S.state shelf.old shelf.new) copied source) }
    ensures steady { IsShelfSteady (S.state shelf.old) (S.state shelf.new) }
{
    match bytes_of(alloc, shelf, source, copied)? {
        Given::Bytes(bytes) => {
            let now = copied + bytes.len() as u64;
            Ok(Resolved {
                sourced: listed(alloc, bytes.as_slice())?,
                copied: now,
            })
        }
        Given::Unfit(cause) => Ok(without(Sourced::Unfit(cause), copied)),
        Given::Ended(end) => Ok(without(Sourced::Ended(end), copied)),
    }
}

/// The command that an ask comes to, where `copied` bytes of sources were read before. A source counts from when it
/// was read, also where it is no listing; one that is too long isn't read.
pub fn resolve<S: Shelf>(
    alloc: Global,
    shelf: &mut S,
    what: Ask,
    copied: u64,
) -> Result<Resolved, OutOfMemory>
    ensures says { IfOk result (λ r. IsSourced (change S.state shelf.old shelf.new)
        copied what r.copied r.sourced) }

    // Memory is wanted only for a source that is there and within the limit.
    ensures want { OnErr result (WantsSource (change S.state shelf.old shelf.new) copied what) }

    ensures steady { IsShelfSteady (S.state shelf.old) (S.state shelf.new) }
{
    match what {
        Ask::Plain(cmd) => Ok(without(Sourced::Ready(cmd), copied)),
        Ask::Cp {
            source,
            path,
            attr,
            stripe,
        } => cp(alloc, shelf, source, path, attr, stripe, copied),
        Ask::VerifySource { path, source } => verify(alloc, shelf, path, source, copied),
        Ask::Check { source } => check(alloc, shelf, source, copied),
    }
}
