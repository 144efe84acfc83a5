//! Which refusals may stand next.

ghost use Rattle.std.specs.Prelude.{◌≡◌, ◌⊎◌, ◌↔◌, ◌≤◌, ◌<◌, ◌≢◌, ◌*◌, Bool, true, false, ℕ, IsTrue, None, Some, length};
ghost use Rattle.fam_format.specs.Layout.{least_lines};
ghost use Rattle.fam_journal.specs.Calls.{host_limit};
ghost use Rattle.fam_journal.specs.declared.refusal.Refusal.TheVariants as why;
ghost use Rattle.fam_rules.specs.Place.{line_bytes};
ghost use Rattle.fam_judge.specs.Standing.{AtNamed, HasSystemRoom, IsDeclaredName, IsNotBefore, MayAsk, MayMake, MayRefuseCall, engaged_in, is_need, host_number_in};
ghost use Rattle.fam_machine.specs.Mkfs as mkfs;
ghost use Rattle.fam_lines.specs.Hosts.{faces_of};

use crate::host::{SeenHost, engaged_in, named, number_in};
use crate::making::{has_bytes, has_room, is_geometry, is_need, may_make};
use fam_base::HostName;
use fam_format::LEAST_LINES;
use fam_journal::Refusal;

/// The most hosts of a run.
const HOST_LIMIT: usize = 64;

/// Whether a host of this name is declared.
fn is_declared(name: &HostName, hosts: &[SeenHost]) -> bool
    ensures { IsTrue result ↔ IsDeclaredName name.now (faces_of hosts.now) }
{
    named(name, hosts).is_some()
}

/// Whether no host of this name is declared.
fn is_new(name: &HostName, hosts: &[SeenHost]) -> bool
    ensures { IsTrue result ↔ (host_number_in name.now (faces_of hosts.now) ≡ None) }
{
    number_in(name, hosts).is_none()
}

/// Whether so many hosts are as many as may be.
fn is_full(hosts: &[SeenHost]) -> bool
    ensures { IsTrue result ↔ (host_limit ≤ length (faces_of hosts.now)) }
{
    hosts.len() >= HOST_LIMIT
}

/// Whether so many hosts are declared that this number is one's.
fn is_number(hosts: &[SeenHost], host: u32) -> bool
    ensures { IsTrue result ↔ (host < length (faces_of hosts.now)) }
{
    (host as usize) < hosts.len()
}

/// Whether the name is of no host before this one.
fn is_not_before(host: u32, name: &HostName, hosts: &[SeenHost]) -> bool
    ensures { IsTrue result ↔ IsNotBefore host (host_number_in name.now (faces_of hosts.now)) }
{
    match number_in(name, hosts) {
        Some(at) => host as usize <= at,
        None => true,
    }
}

/// Whether the host of this name is as it is asked for: it runs a command or not.
fn is_running(name: &HostName, hosts: &[SeenHost], runs: bool) -> bool
    ensures { IsTrue result ↔ AtNamed name.now (faces_of hosts.now) (λ k f. f.runs ≡ runs) }
{
    match named(name, hosts) {
        Some((_, host)) => host.runs == runs,
        None => false,
    }
}

/// Whether the host of this name runs no command, and keeps something or not.
fn is_resting(name: &HostName, hosts: &[SeenHost], keeps: bool) -> bool
    ensures { IsTrue result ↔ AtNamed name.now (faces_of hosts.now) (λ k f. (f.runs ≡ false) × (f.keeps ≡ keeps)) }
{
    match named(name, hosts) {
        Some((_, host)) => !host.runs && host.keeps == keeps,
        None => false,
    }
}

/// Whether the host of this name has this number, and runs a command.
fn is_busy(name: &HostName, hosts: &[SeenHost], at: u32) -> bool
    ensures { IsTrue result ↔ AtNamed name.now (faces_of hosts.now) (λ k f. (k ≡ at) × (f.runs ≡ true)) }
{
    match named(name, hosts) {
        Some((number, host)) => number == at as usize && host.runs,
        None => false,
    }
}

/// Whether the host of this name has another number.
fn is_other(name: &HostName, hosts: &[SeenHost], at: u32) -> bool
    ensures { IsTrue result ↔ AtNamed name.now (faces_of hosts.now) (λ k f. at ≢ k) }
{
    match named(name, hosts) {
        Some((number, _)) => number != at as usize,
        None => false,
    }
}

/// Whether this is the first host that runs a command or keeps something.
fn is_engaged(hosts: &[SeenHost], at: u32) -> bool
    ensures { IsTrue result ↔ (engaged_in (faces_of hosts.now) ≡ Some at) }
{
    match engaged_in(hosts) {
        Some(number) => number == at as usize,
        None => false,
    }
}

/// Whether a command but a mount may begin on the host of this name.
fn may_ask(lines: u64, hosts: &[SeenHost], name: &HostName) -> bool
    ensures { IsTrue result ↔ MayAsk lines (faces_of hosts.now) name.now }
{
    lines >= LEAST_LINES && is_running(name, hosts, false)
}

/// Whether this host has the name or the UUID of one that is to be declared.
fn may_be_same(hosts: &[SeenHost], name: &HostName, host: u32) -> bool
    ensures { IsTrue result ↔ ((host < length (faces_of hosts.now)) × IsNotBefore host (host_number_in name.now (faces_of hosts.now))) }
{
    is_number(hosts, host) && is_not_before(host, name, hosts)
}

/// Whether as many hosts are declared as may be, and none of this name.
fn are_too_many(hosts: &[SeenHost], name: &HostName) -> bool
    ensures { IsTrue result ↔ ((host_number_in name.now (faces_of hosts.now) ≡ None) × (host_limit ≤ length (faces_of hosts.now))) }
{
    is_new(name, hosts) && is_full(hosts)
}

/// Whether unit and log are those of no file system.
fn is_bad_geometry(hosts: &[SeenHost], name: &HostName, unit: u64, log: u64) -> bool
    ensures { IsTrue result ↔ (IsDeclaredName name.now (faces_of hosts.now) × (mkfs.is_geometry unit log ≡ false)) }
{
    is_declared(name, hosts) && !is_geometry(unit, log)
}

/// Whether some file system needs so many bytes, and the media has so many, which are fewer.
fn are_few_bytes(lines: u64, need: u64, have: u64) -> bool
    ensures { IsTrue result ↔ (IsTrue (is_need need) × (have ≡ line_bytes * lines) × (have < need)) }
{
    is_need(need) && has_bytes(lines, have) && have < need
}

/// Whether the media is too small for a file system.
fn is_too_small(lines: u64, hosts: &[SeenHost], name: &HostName, need: u64, have: u64) -> bool
    ensures { IsTrue result ↔ MayRefuseCall lines (faces_of hosts.now) name.now (why.TooSmall need have) }
{
    is_declared(name, hosts) && are_few_bytes(lines, need, have)
}

/// Whether the media has so many lines, which are too few for a gate.
fn is_small(lines: u64, hosts: &[SeenHost], name: &HostName, count: u64) -> bool
    ensures { IsTrue result ↔ MayRefuseCall lines (faces_of hosts.now) name.now (why.ImageSmall count) }
{
    is_declared(name, hosts) && count == lines && lines < LEAST_LINES
}

/// Whether a file system may be asked for, where this is the first host that is busy.
fn stands_in_the_way(lines: u64, hosts: &[SeenHost], name: &HostName, at: u32) -> bool
    ensures { IsTrue result ↔ (IsDeclaredName name.now (faces_of hosts.now) × HasSystemRoom lines × (engaged_in (faces_of hosts.now) ≡ Some at)) }
{
    is_declared(name, hosts) && has_room(lines) && is_engaged(hosts, at)
}

/// Whether this host is busy.
fn may_be_busy(lines: u64, hosts: &[SeenHost], name: &HostName, at: u32) -> bool
    ensures { IsTrue result ↔ MayRefuseCall lines (faces_of hosts.now) name.now (why.Busy (record { 0 = at })) }
{
    is_busy(name, hosts, at) || stands_in_the_way(lines, hosts, name, at)
}

/// Whether this host, which isn't the maker, may hold a line that memory lacks.
fn may_be_dirty(lines: u64, hosts: &[SeenHost], name: &HostName, at: u32) -> bool
    ensures { IsTrue result ↔ MayRefuseCall lines (faces_of hosts.now) name.now (why.Dirty (record { 0 = at })) }
{
    may_make(lines, hosts) && is_number(hosts, at) && is_other(name, hosts, at)
}

/// Whether a superblock may stand there.
fn may_have_super(lines: u64, hosts: &[SeenHost], name: &HostName) -> bool
    ensures { IsTrue result ↔ (MayMake lines (faces_of hosts.now) × IsDeclaredName name.now (faces_of hosts.now)) }
{
    may_make(lines, hosts) && is_declared(name, hosts)
}

/// Whether a mount may be asked for of a host that keeps something.
fn is_mounted(lines: u64, hosts: &[SeenHost], name: &HostName) -> bool
    ensures { IsTrue result ↔ MayRefuseCall lines (faces_of hosts.now) name.now why.Mounted }
{
    lines >= LEAST_LINES && is_resting(name, hosts, true)
}

/// Whether the media has so many lines, and this is none of them.
fn is_no_line(lines: u64, hosts: &[SeenHost], name: &HostName, line: u64, count: u64) -> bool
    ensures { IsTrue result ↔ MayRefuseCall lines (faces_of hosts.now) name.now (why.NoLine line count) }
{
    is_declared(name, hosts) && count == lines && lines <= line
}

/// Whether the media may have failed at this line.
fn is_fault(lines: u64, hosts: &[SeenHost], name: &HostName, line: u64) -> bool
    ensures { IsTrue result ↔ (IsDeclaredName name.now (faces_of hosts.now) × (line < lines)) }
{
    is_declared(name, hosts) && line < lines
}

/// Whether a call for the host of this name may be refused for this cause.
pub(crate) fn may_refuse(lines: u64, hosts: &[SeenHost], name: &HostName, cause: &Refusal) -> bool
    ensures { IsTrue result ↔ MayRefuseCall lines (faces_of hosts.now) name.now cause.now }
{
    match cause {
        Refusal::NoHost => is_new(name, hosts),
        Refusal::SameHost(host) => may_be_same(hosts, name, host.0),
        Refusal::TooManyHosts => are_too_many(hosts, name),
        Refusal::BadGeometry { unit, log } => is_bad_geometry(hosts, name, *unit, *log),
        Refusal::TooSmall { need, have } => is_too_small(lines, hosts, name, *need, *have),
        Refusal::ImageSmall(count) => is_small(lines, hosts, name, *count),
        Refusal::Busy(host) => may_be_busy(lines, hosts, name, host.0),
        Refusal::Dirty(host) => may_be_dirty(lines, hosts, name, host.0),
        Refusal::HasSuper(_) => may_have_super(lines, hosts, name),
        Refusal::Idle => is_running(name, hosts, false),
        Refusal::Mounted => is_mounted(lines, hosts, name),
        Refusal::NotMounted => is_resting(name, hosts, false),
        Refusal::NoLine { line, lines: count } => is_no_line(lines, hosts, name, *line, *count),
        Refusal::NoFile(_) => may_ask(lines, hosts, name),
        Refusal::CopyLimit(_) => may_ask(lines, hosts, name),
        Refusal::BadListing(_) => may_ask(lines, hosts, name),
        Refusal::MediaFault(line) => is_fault(lines, hosts, name, line.0),
    }
}
