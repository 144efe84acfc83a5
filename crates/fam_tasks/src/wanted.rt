//! Which lines of a file a command reads.

ghost use Rattle.std.specs.Prelude.{◌≡◌};
ghost use Rattle.fam_commands.specs.Task as spec;

use fam_base::Cmd;
use fam_content::lines_of;
use fam_format::LINE_BYTES;

/// The first byte that a command wants of a file.
pub(crate) fn wanted_start(cmd: &Cmd) -> u64
    ensures { result ≡ spec.wanted_start cmd.now }
{
    match cmd {
        Cmd::Read { offset, .. } => *offset,
        _ => 0,
    }
}

/// The offset behind the last byte that it wants of a file of `size` bytes.
pub(crate) fn wanted_end(cmd: &Cmd, size: u64) -> u64
    ensures { result ≡ spec.wanted_end cmd.now size }
{
    match cmd {
        Cmd::Read { offset, count, .. } => size.min(offset.saturating_add(*count)),
        _ => size,
    }
}

/// The first line that holds a wanted byte.
pub(crate) fn first_line(cmd: &Cmd) -> u64
    ensures { result ≡ spec.first_line cmd.now }
{
    wanted_start(cmd) / LINE_BYTES
}

/// How many lines of a file of `size` bytes hold wanted bytes.
pub(crate) fn wanted_lines(cmd: &Cmd, size: u64) -> u64
    ensures { result ≡ spec.wanted_lines cmd.now size }
{
    let end = wanted_end(cmd, size);
    if end <= wanted_start(cmd) {
        0
    } else {
        lines_of(end) - first_line(cmd)
    }
}
