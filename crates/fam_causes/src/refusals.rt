//! Refusals that a running command rules out.

ghost use Rattle.std.specs.Prelude.{◌≡◌, IfSome};
ghost use Rattle.fam_causes.specs.Asked.{RefusedWhile};
ghost use Rattle.fam_causes.specs.Asking.{is_of_declared, is_of_idle, is_of_making};

use crate::hosts::{own_runs_as, some_runs_as};
use fam_base::HostName;
use fam_journal::Refusal;
use fam_lines::SeenHost;

/// Whether a refusal is of a call for a declared host.
pub(crate) fn is_of_declared(why: &Refusal) -> bool
    ensures { result ≡ is_of_declared why.now }
{
    match why {
        Refusal::NoHost => false,
        Refusal::SameHost(_) => false,
        Refusal::TooManyHosts => false,
        _ => true,
    }
}

/// Whether it is of a call for a host that runs no command.
fn is_of_idle(why: &Refusal) -> bool
    ensures { result ≡ is_of_idle why.now }
{
    match why {
        Refusal::Idle => true,
        Refusal::Mounted => true,
        Refusal::NotMounted => true,
        Refusal::NoFile(_) => true,
        Refusal::CopyLimit(_) => true,
        Refusal::BadListing(_) => true,
        _ => false,
    }
}

/// Whether it comes where a file system would be made.
fn is_of_making(why: &Refusal) -> bool
    ensures { result ≡ is_of_making why.now }
{
    match why {
        Refusal::Dirty(_) => true,
        Refusal::HasSuper(_) => true,
        _ => false,
    }
}

/// The name of a host whose running command rules a refusal out.
pub(crate) fn refused_while(hosts: &[SeenHost], name: &HostName, why: &Refusal) -> Option<HostName>
    ensures { IfSome result (λ named. RefusedWhile hosts.now name.now why.now named) }
{
    if is_of_idle(why) {
        return own_runs_as(hosts, name);
    }
    if is_of_making(why) {
        return some_runs_as(hosts);
    }
    None
}
