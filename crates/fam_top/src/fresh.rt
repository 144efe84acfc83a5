//! A UUID from random bytes. `specs/Fresh.antt` has its form.

ghost use Rattle.std.specs.Prelude.{◌≡◌};
ghost use Rattle.fam_format.specs.Params.{IsUuid};
ghost use Rattle.fam_top.specs.Calls as calls;
ghost use Rattle.fam_top.specs.Fresh.{version4_of};

use fam_machine::is_uuid;
use uuid::Uuid;

/// The version 4 UUID of RFC 9562 that has these random bytes.
pub(crate) fn version4(fresh: [u8; 16]) -> Uuid
    ensures { result ≡ version4_of fresh }
{
    let mut bytes = fresh;
    bytes[6] = 0x40 + bytes[6] % 16;
    bytes[8] = 0x80 + bytes[8] % 64;
    Uuid::from_bytes(bytes)
}

/// Sixteen random bytes make a UUID. A call does nothing.
pub(crate) fn has_uuid(random: [u8; 16])
    ensures { IsUuid (version4_of random) }
{
    is_uuid(version4(random));
}

/// The UUID that is asked for, or one of the random bytes.
pub(crate) fn fs_or(random: [u8; 16], fs: Option<Uuid>) -> Uuid
    ensures { result ≡ calls.fs_or random fs }
{
    match fs {
        Some(fs) => fs,
        None => version4(random),
    }
}
