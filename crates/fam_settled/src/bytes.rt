//! Where the bytes of a file are from. `specs/Bytes.antt` says what they are.

ghost use Rattle.std.specs.Prelude.{◌≡◌, IfOk};

use crate::held::HeldBytes;
use fam_base::{Entry, OutOfMemory};
use std::alloc::AllocError;

/// Where the bytes of a file are from.
#[derive(Drop)]
pub enum Bytes {
    Zero,
    /// The stream of this seed.
    Seed(u64),
    /// These bytes, with zeros behind.
    Held(HeldBytes),
    /// A source whose bytes aren't told.
    Untold,
}

/// An entry with its bytes.
#[derive(Drop)]
pub struct Filed {
    pub entry: Entry,
    pub bytes: Bytes,
}

impl Clone for Bytes {
    ghost is_clone = { λ bytes copy. copy ≡ bytes };

    fn clone(&self) -> Result<Bytes, AllocError> {
        match self {
            Bytes::Zero => Ok(Bytes::Zero),
            Bytes::Seed(seed) => Ok(Bytes::Seed(*seed)),
            Bytes::Held(held) => Ok(Bytes::Held(held.clone()?)),
            Bytes::Untold => Ok(Bytes::Untold),
        }
    }
}

impl Bytes {
    /// The same. Bytes that are held are shared, not copied.
    pub fn copy(&self) -> Result<Bytes, OutOfMemory>
        ensures { IfOk result (λ bytes. bytes ≡ self.now) }
    {
        match self.clone() {
            Ok(bytes) => Ok(bytes),
            Err(_) => Err(OutOfMemory),
        }
    }
}

impl Filed {
    /// The same. Bytes that are held are shared, not copied.
    pub fn copy(&self) -> Result<Filed, OutOfMemory>
        ensures { IfOk result (λ filed. filed ≡ self.now) }
    {
        Ok(Filed {
            entry: self.entry,
            bytes: self.bytes.copy()?,
        })
    }
}
