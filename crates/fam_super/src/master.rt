//! Which host may write.

ghost use Rattle.std.specs.Prelude.{◌≡◌, ◌↔◌};
ghost use Rattle.fam_super.specs.declared.hosts.Role.TheVariants.{Master};

use crate::hosts::Role;
use fam_base::Params;
use uuid::Uuid;

/// What the host with this UUID is: the master exactly where the superblock names it.
pub fn role(params: &Params, me: Uuid) -> Role
    ensures { (result ≡ Master) ↔ (params.now.master ≡ me) }
{
    if params.master == me {
        Role::Master
    } else {
        Role::Client
    }
}
