//! Commands within their limits.

ghost use Rattle.std.specs.Prelude.{◌≤◌, ◌<◌, None, slice_index, ℕ};
ghost use Rattle.fam_base.specs.Commands.{IsSoundCmd, mode_limit};
ghost use Rattle.fam_protocol.specs.Tasks.{IsCommand};
ghost use Rattle.fam_rules.specs.Content.{HoldsBytes};
ghost use Rattle.fam_rules.specs.DecideLaws.{IsSoundWish};

use fam_base::{Attr, Cmd, Content, Kind, Path, Stripe};

/// A directory may be wished for, where its mode is within its limit. A call does nothing.
fn is_directory_wish(path: &Path, attr: Attr)
    requires mode { attr.mode ≤ mode_limit }
    ensures { IsSoundWish (record { kind = Kind.Directory; path = path.now; size = 0; attr = attr; stripe = None }) }
{
    // They are a path's.
    let _ = path.bytes();
}

/// So may a file of any size. A call does nothing.
fn is_file_wish(path: &Path, size: u64, attr: Attr, stripe: Option<Stripe>)
    requires mode { attr.mode ≤ mode_limit }
    ensures { IsSoundWish (record { kind = Kind.File; path = path.now; size = size; attr = attr; stripe = stripe }) }
{
    // They are a path's.
    let _ = path.bytes();
    let _ = size;
    let _ = stripe;
}

/// Bytes are below 256, which a contract that has them as numbers doesn't see. A call does nothing.
fn are_bytes(bytes: &[u8])
    ensures { (i : ℕ) → slice_index bytes.now i < 256 }
{
    let _ = bytes;
}

/// So are those of a content.
fn holds_bytes(content: &Content)
    ensures { HoldsBytes content.now }
{
    match content {
        Content::Bytes(bytes) => are_bytes(bytes.as_slice()),
        Content::Seed(_) => {}
        Content::Zero => {}
    }
}

/// What a host may be told to do: the path of a sound command is one, its numbers fit their words, and its bytes are bytes.
/// The laws of the protocol and of journals ask that of each command that begins. A call does nothing.
pub fn is_command(cmd: &Cmd)
    requires command { IsSoundCmd cmd.now }
    ensures { IsCommand cmd.now }
{
    match cmd {
        Cmd::Mkdir { path, attr } => is_directory_wish(path, *attr),
        Cmd::Creat {
            path,
            size,
            attr,
            stripe,
            fill,
        } => {
            is_file_wish(path, *size, *attr, *stripe);
            holds_bytes(fill);
        }
        Cmd::Cp {
            path,
            attr,
            stripe,
            bytes,
        } => {
            let bytes = bytes.as_slice();
            is_file_wish(path, bytes.len() as u64, *attr, *stripe);
            are_bytes(bytes);
        }
        Cmd::Logplay => {}
        Cmd::Mount => {}
        Cmd::Verify { .. } => {}
        Cmd::Read { .. } => {}
        Cmd::Check { .. } => {}
        Cmd::Fsck => {}
    }
}
