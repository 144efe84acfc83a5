//! What stands on TO.

ghost use Rattle.std.specs.Prelude.{◌≡◌, ◌*◌, ◌<◌, ◌≤◌, IfErr, OnOk, false, true};
ghost use Rattle.fam_format.specs.Params.{SoundParams, need};
ghost use Rattle.fam_media.specs.Causes.{IsSteady};
ghost use Rattle.fam_media.specs.Outside.{IfModelled};
ghost use Rattle.fam_rules.specs.Place.{line_bytes};
ghost use Rattle.fam_dup.specs.Ends.{AreAsked, FailsToAt, IsCausedByTo, NamesLine, to_counted};
ghost use Rattle.fam_dup.specs.Findings.{Finding, Names, fault_class, to_or};
ghost use Rattle.fam_format.specs.Params.{IsUuid};

use crate::fault::DupFault;
use crate::lines::{FailedAt, superblock};
use fam_base::Params;
use fam_format::{LINE_BYTES, LOG_OFFSET};
use fam_media::Media;
use uuid::Uuid;

/// Sixteen bytes may be those of a UUID.
fn are_bytes(bytes: [u8; 16])
    ensures { IsUuid bytes }
{
    let _ = bytes[0];
}

/// A UUID has sixteen bytes.
fn is_uuid(id: Uuid)
    ensures { IsUuid id }
{
    are_bytes(id.into_bytes());
}

/// Whether TO has room for these parameters, and no superblock that isn't to be written over.
pub(crate) fn check_target<N: Media>(
    to: &mut N,
    params: &Params,
    force: bool,
) -> Result<(), DupFault>
    requires asked { AreAsked params.now (N.size to.old) }
    ensures free { OnOk result (IfModelled (N.state to.old).image (λ image. (rest : Finding) → to_or image params.now force rest ≡ rest)) }
    ensures sound { OnOk result (SoundParams params.now) }
    ensures fault { IfErr result (λ fault. IfModelled (N.state to.old).image (λ image. (rest : Finding)
        → Names (fault_class fault) (to_or image params.now force rest))) }
    ensures cause { IfErr result (λ fault. IsCausedByTo (N.state to.old).faults (N.state to.new).faults (fault_class fault)) }
    ensures asked { IfErr result (FailsToAt (λ at. (force ≡ false) × (need params.now.log_length params.now.unit ≤ line_bytes * N.size to.old) × (at < 3))) }
    ensures unread { force ≡ true → to.new ≡ to.old }
    ensures quiet { OnOk result (N.exact ≡ true → (N.state to.new).faults ≡ (N.state to.old).faults) }
    ensures counted { IfErr result (λ fault. N.exact ≡ true → (N.state to.new).faults ≡ to_counted (fault_class fault) (N.state to.old).faults) }
    ensures line { IfErr result (λ fault. NamesLine 0 (N.size to.old) fault) }
    ensures same { (N.state to.new).image ≡ (N.state to.old).image }
    ensures steady { IsSteady N.size N.state to.old to.new }
{
    is_uuid(params.fs);
    is_uuid(params.master);
    let need = LOG_OFFSET + params.log_length + params.unit;
    let have = LINE_BYTES * to.lines();
    if have < need {
        return Err(DupFault::TooSmall { need, have });
    }
    if force {
        return Ok(());
    }
    match superblock(to) {
        Ok(Ok(found)) => Err(DupFault::HasSuper(found.fs)),
        Ok(Err(_)) => Ok(()),
        Err(FailedAt(line)) => Err(DupFault::ToFault(line)),
    }
}
