//! Lines that declare a host or begin a command.

ghost use Rattle.std.specs.Prelude.{◌↔◌, IsTrue};
ghost use Rattle.fam_verdict.specs.Begins.{MayBegin};

use fam_lines::{Line, SeenHost, stands};

/// Whether the line may stand, where it declares a host or begins a command; of other lines nothing is asked yet.
pub(crate) fn may_begin(lines: u64, hosts: &[SeenHost], line: &Line) -> bool
    ensures { IsTrue result ↔ MayBegin lines hosts.now line.now }
{
    match line {
        Line::Host(_, _) => stands(lines, hosts, line),
        Line::Start(_, _) => stands(lines, hosts, line),
        _ => true,
    }
}
