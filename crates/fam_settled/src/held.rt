//! Bytes that are all told.

ghost use Rattle.std.specs.Prelude.{◌≡◌, IfOk};
ghost use Rattle.fam_base.specs.declared.cmd.Content.TheVariants as content;

use fam_base::{Content, OutOfMemory, SharedBytes};
use std::alloc::{AllocError, Global};
use std::marker::Model;
use std::rc::Rc;

/// Bytes that are all told, as those of a file of an image that was handed in. Copies share them.
#[derive(Drop)]
pub struct HeldBytes {
    content: Rc<Content>,
}

impl Model for HeldBytes {
    ghost use Rattle.std.specs.Prelude.{List, ℕ};
    ghost use Rattle.std.specs.Coded.{coded_list, coded_ℕ};
    ghost use Rattle.fam_settled.specs.Held.{AreGiven, given_bytes};

    ghost Value = { List ℕ };

    ghost coded = { coded_list coded_ℕ };

    ghost view = { λ h. given_bytes h.content.value };

    ghost invariant = { λ h. AreGiven h.content.value };
}

impl Clone for HeldBytes {
    ghost is_clone = { λ held copy. copy ≡ held };

    fn clone(&self) -> Result<HeldBytes, AllocError> {
        let content = self.content.clone()?;
        Ok(HeldBytes { content })
    }
}

impl HeldBytes {
    /// The same bytes, to be shared from here on.
    pub fn new(alloc: Global, bytes: Vec<u8>) -> Result<HeldBytes, OutOfMemory>
        ensures { IfOk result (λ held. held ≡ bytes.items) }
    {
        let bytes = SharedBytes::new(alloc, bytes)?;
        match Rc::new(alloc, Content::Bytes(bytes)) {
            Ok(content) => Ok(HeldBytes { content }),
            Err(_) => Err(OutOfMemory),
        }
    }

    /// The same bytes, shared once more.
    pub fn copy(&self) -> Result<HeldBytes, OutOfMemory>
        ensures { IfOk result (λ held. held ≡ self.now) }
    {
        match self.clone() {
            Ok(held) => Ok(held),
            Err(_) => Err(OutOfMemory),
        }
    }

    /// The content that they are.
    pub fn content(&self) -> &Content
        ensures { result.now ≡ content.Bytes self.now }
    {
        &self.content
    }

    /// The bytes.
    pub fn as_slice(&self) -> &[u8]
        ensures { result.now ≡ self.now }
    {
        match self.content() {
            Content::Bytes(bytes) => bytes.as_slice(),
            _ => unreachable!(),
        }
    }
}
