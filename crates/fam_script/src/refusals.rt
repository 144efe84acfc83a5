//! The texts of refusals. fam_outcomes' `specs/Texts.antt` has their forms.

ghost use Rattle.std.specs.Prelude.{◌≡◌, ◌<◌, ◌++◌, IfOk, codes, length};
ghost use Rattle.fam_journal.specs.Names.{NamesCause};
ghost use Rattle.fam_outcomes.specs.Texts as text;

use crate::lines::{line, line_with, line_with_name, number_line, numbers_line, uuid_line};
use fam_base::{HostName, OutOfMemory};
use fam_journal::{HostId, Refusal};
use std::alloc::Global;

/// The name of a declared host.
pub(crate) fn host_name(names: &[HostName], host: HostId) -> &[u8]
    requires { host.0 < length names.now }
    ensures { result.now ≡ text.host_name names.now host.0 }
{
    names[host.0 as usize].bytes()
}

/// The line of a refusal.
pub fn refusal_line(
    alloc: Global,
    cause: &Refusal,
    names: &[HostName],
) -> Result<Vec<u8>, OutOfMemory>
    requires { NamesCause (length names.now) cause.now }
    ensures { IfOk result (λ bytes. bytes.items ≡ text.line (codes "refused " ++ text.refusal_text names.now cause.now)) }
{
    match cause {
        Refusal::NoHost => line(alloc, "refused no host"),
        Refusal::SameHost(host) => {
            line_with(alloc, "refused same host ", host_name(names, *host))
        }
        Refusal::TooManyHosts => line(alloc, "refused too many hosts"),
        Refusal::BadGeometry { unit, log } => {
            numbers_line(alloc, "refused bad geometry", *unit, *log)
        }
        Refusal::TooSmall { need, have } => {
            numbers_line(alloc, "refused too small", *need, *have)
        }
        Refusal::ImageSmall(lines) => number_line(alloc, "refused image too small", *lines),
        Refusal::Busy(host) => line_with(alloc, "refused busy ", host_name(names, *host)),
        Refusal::Dirty(host) => line_with(alloc, "refused dirty ", host_name(names, *host)),
        Refusal::HasSuper(uuid) => uuid_line(alloc, "refused has superblock", *uuid),
        Refusal::Idle => line(alloc, "refused idle"),
        Refusal::Mounted => line(alloc, "refused mounted"),
        Refusal::NotMounted => line(alloc, "refused not mounted"),
        Refusal::NoLine { line, lines } => { numbers_line(alloc, "refused no line", *line, *lines) }
        Refusal::NoFile(name) => {
            line_with_name(alloc, "refused no file ", name.text().as_bytes(), "")
        }
        Refusal::CopyLimit(sum) => number_line(alloc, "refused copy limit", *sum),
        Refusal::BadListing(at) => number_line(alloc, "refused bad listing", *at),
        Refusal::MediaFault(at) => number_line(alloc, "refused media fault", at.0),
    }
}
