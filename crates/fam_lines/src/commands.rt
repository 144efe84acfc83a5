//! Commands that may begin.

ghost use Rattle.std.specs.Prelude.{◌≡◌, ◌↔◌, ◌≤◌, ◌&&◌, ◌^◌, ◌<◌, IsTrue, length, option_map, slice_index, ℕ, false};
ghost use Rattle.fam_base.specs.declared.cmd.Cmd.TheVariants as cmd;
ghost use Rattle.fam_base.specs.Commands.{read_limit};
ghost use Rattle.fam_base.specs.Paths.{is_path};
ghost use Rattle.fam_rules.specs.Content.{HoldsBytes};
ghost use Rattle.fam_rules.specs.DecideLaws.{IsAttr, IsStripeOfWords};
ghost use Rattle.fam_history.specs.Told.{told_of_command};
ghost use Rattle.fam_history.specs.declared.command.ToldCommand.TheVariants as told;
ghost use Rattle.fam_judge.specs.Standing.{IsSoundPlain, MayStart, OfFace, SoundTold, is_told_mount};
ghost use Rattle.fam_lines.specs.Hosts.{face_of, faces_of};
ghost use Rattle.fam_lines.specs.Lines.{untold_of};

use crate::host::{SeenHost, host_at};
use fam_base::{Attr, Cmd, Content, Path, Stripe};
use fam_format::LEAST_LINES;
use fam_history::ToldCommand;
use fam_judge::a_listing_may_have_any_length;

/// The most that a mode can be.
const MODE_LIMIT: u32 = 0o7777;

/// The most bytes that one read asks for.
const READ_LIMIT: u64 = 4096;

/// Whether a mode is within its limit.
fn is_attr(attr: Attr) -> bool
    ensures { IsTrue result ↔ IsAttr attr }
{
    attr.mode <= MODE_LIMIT
}

/// Bytes are below 256, which a contract that has them as numbers doesn't see. A call does nothing.
fn are_bytes(bytes: &[u8])
    ensures { (i : ℕ) → slice_index bytes.now i < 256 }
{
    let _ = bytes;
}

/// So are those of a content. A call does nothing.
fn holds_bytes(content: &Content)
    ensures { HoldsBytes content.now }
{
    match content {
        Content::Bytes(bytes) => are_bytes(bytes.as_slice()),
        Content::Seed(_) => {}
        Content::Zero => {}
    }
}

/// Whether a directory may be asked for.
fn is_mkdir(path: &Path, attr: Attr) -> bool
    ensures { IsTrue result ↔ IsSoundPlain (cmd.Mkdir path.now attr) }
{
    // They are a path's.
    let _ = path.bytes();
    is_attr(attr)
}

/// Whether a file may be asked for.
fn is_creat(path: &Path, size: u64, attr: Attr, stripe: Option<Stripe>, fill: &Content) -> bool
    ensures { IsTrue result ↔ IsSoundPlain (cmd.Creat path.now size attr stripe fill.now) }
{
    // They are a path's.
    let _ = path.bytes();
    let _ = size;
    let _ = stripe;
    holds_bytes(fill);
    is_attr(attr)
}

/// Whether a copy may be asked for.
fn is_cp(path: &Path, size: u64, attr: Attr, stripe: Option<Stripe>) -> bool
    ensures { IsTrue result ↔ SoundTold (told.Cp path.now size attr stripe) }
{
    // They are a path's.
    let _ = path.bytes();
    let _ = size;
    let _ = stripe;
    is_attr(attr)
}

/// A listing may have so many entries. A call does nothing.
fn is_check(count: u64)
    ensures { SoundTold (told.Check count) }
{
    a_listing_may_have_any_length();
}

/// Whether a command that is told as a whole is sound.
fn is_sound_plain(cmd: &Cmd) -> bool
    ensures { IsTrue result ↔ SoundTold (told_of_command cmd.now) }
{
    match cmd {
        Cmd::Mkdir { path, attr } => is_mkdir(path, *attr),
        Cmd::Creat {
            path,
            size,
            attr,
            stripe,
            fill,
        } => is_creat(path, *size, *attr, *stripe, fill),
        Cmd::Cp {
            path,
            attr,
            stripe,
            bytes,
        } => is_cp(path, bytes.as_slice().len() as u64, *attr, *stripe),
        Cmd::Read { count, .. } => *count <= READ_LIMIT,
        Cmd::Check { listing } => {
            is_check(listing.as_slice().len() as u64);
            true
        }
        Cmd::Logplay => true,
        Cmd::Mount => true,
        Cmd::Verify { .. } => true,
        Cmd::Fsck => true,
    }
}

/// Whether a command is sound.
fn is_sound(cmd: &ToldCommand) -> bool
    ensures { IsTrue result ↔ SoundTold (told_of_command (untold_of cmd.now)) }
{
    match cmd {
        ToldCommand::Plain(cmd) => is_sound_plain(cmd),
        ToldCommand::Cp {
            path,
            size,
            attr,
            stripe,
        } => is_cp(path, *size, *attr, *stripe),
        ToldCommand::VerifySource { .. } => true,
        ToldCommand::Check { count } => {
            is_check(*count);
            true
        }
    }
}

/// Whether a command is a mount.
fn is_mount(cmd: &ToldCommand) -> bool
    ensures { result ≡ is_told_mount (told_of_command (untold_of cmd.now)) }
{
    match cmd {
        ToldCommand::Plain(Cmd::Mount) => true,
        _ => false,
    }
}

/// Whether a host runs none, and where it mounts keeps nothing.
fn is_free(host: Option<SeenHost>, mount: bool) -> bool
    ensures { IsTrue result ↔ OfFace (option_map face_of host) (λ f. (f.runs ≡ false) × ((mount && f.keeps) ≡ false)) }
{
    match host {
        Some(host) => !host.runs && !(mount && host.keeps),
        None => false,
    }
}

/// Whether host `at` may begin a command.
pub(crate) fn may_start(lines: u64, hosts: &[SeenHost], at: usize, cmd: &ToldCommand) -> bool
    ensures { IsTrue result ↔ MayStart lines (faces_of hosts.now) at (told_of_command (untold_of cmd.now)) }
{
    lines >= LEAST_LINES && is_free(host_at(hosts, at), is_mount(cmd)) && is_sound(cmd)
}
