//! UUIDs are bytes, which a contract that has them as numbers doesn't see. A call does nothing.

ghost use Rattle.fam_format.specs.Params.{IsUuid};

use uuid::Uuid;

/// Sixteen bytes may be those of a UUID.
fn are_bytes(bytes: [u8; 16])
    ensures { IsUuid bytes }
{
    let _ = bytes[0];
}

/// A UUID has sixteen bytes, each below 256.
pub fn is_uuid(id: Uuid)
    ensures { IsUuid id }
{
    are_bytes(id.into_bytes());
}
