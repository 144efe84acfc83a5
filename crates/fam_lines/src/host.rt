//! What is seen of hosts. `specs/Hosts.antt` says it in the words of the table.

ghost use Rattle.std.specs.Prelude.{◌≡◌, ◌<◌, ◌↔◌, ◌||◌, ℕ, IfSome, IsTrue, Some, None, length, option_map, slice_get};
ghost use Rattle.fam_base.specs.PathOrder.{path_eq};
ghost use Rattle.fam_judge.specs.Standing.{IsDeclaredName, engaged_in, host_number_in, same_in};
ghost use Rattle.fam_lines.specs.Hosts.{face_of, faces_of};

use fam_base::HostName;
use uuid::Uuid;

/// What is seen of a declared host.
#[derive(Clone, Copy)]
pub struct SeenHost {
    pub name: HostName,
    pub uuid: Uuid,
    /// It runs a command.
    pub runs: bool,
    /// It keeps something of the log.
    pub keeps: bool,
}

/// Whether these are the same bytes.
fn same_bytes(left: &[u8], right: &[u8]) -> bool
    ensures { result ≡ path_eq left.now right.now }
{
    left == right
}

/// Whether a host has this name.
fn is_named(host: &SeenHost, name: &HostName) -> bool
    ensures { result ≡ path_eq host.now.name name.now }
{
    host.name == *name
}

/// Whether a host has this name or this UUID.
fn is_same(host: &SeenHost, name: &HostName, uuid: &Uuid) -> bool
    ensures { result ≡ (path_eq host.now.name name.now || path_eq host.now.uuid uuid.now) }
{
    is_named(host, name) || same_bytes(host.uuid.as_bytes(), uuid.as_bytes())
}

/// Whether a host runs a command or keeps something of the log.
fn is_engaged(host: &SeenHost) -> bool
    ensures { result ≡ (host.now.runs || host.now.keeps) }
{
    host.runs || host.keeps
}

/// The number of the host of a name.
pub(crate) fn number_in(name: &HostName, hosts: &[SeenHost]) -> Option<usize>
    ensures is { result ≡ host_number_in name.now (faces_of hosts.now) }
    ensures within { IfSome result (λ at. at < length hosts.now) }
{
    for (at, host) in hosts.iter().enumerate() {
        if is_named(host, name) {
            return Some(at);
        }
    }
    None
}

/// The first host that has the name or the UUID.
pub(crate) fn same_in(name: &HostName, uuid: &Uuid, hosts: &[SeenHost]) -> Option<usize>
    ensures { result ≡ same_in name.now uuid.now (faces_of hosts.now) }
{
    for (at, host) in hosts.iter().enumerate() {
        if is_same(host, name, uuid) {
            return Some(at);
        }
    }
    None
}

/// The first host that runs a command or keeps something of the log.
pub(crate) fn engaged_in(hosts: &[SeenHost]) -> Option<usize>
    ensures { result ≡ engaged_in (faces_of hosts.now) }
{
    for (at, host) in hosts.iter().enumerate() {
        if is_engaged(host) {
            return Some(at);
        }
    }
    None
}

/// The host of a number.
pub(crate) fn host_at(hosts: &[SeenHost], at: usize) -> Option<SeenHost>
    ensures { option_map face_of result ≡ slice_get (faces_of hosts.now) at }
{
    hosts.get(at).copied()
}

/// The host of a name, and its number.
pub(crate) fn named(name: &HostName, hosts: &[SeenHost]) -> Option<(usize, SeenHost)>
    ensures number { option_map (λ p. p.0) result ≡ host_number_in name.now (faces_of hosts.now) }
    ensures face { IfSome result (λ p. slice_get (faces_of hosts.now) p.0 ≡ Some (face_of p.1)) }
{
    match number_in(name, hosts) {
        Some(at) => Some((at, hosts[at])),
        None => None,
    }
}
