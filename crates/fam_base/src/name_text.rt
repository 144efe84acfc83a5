//! Names of files outside the image. A contract sees a `NameText` as its list of bytes.

ghost use Rattle.std.specs.Prelude.{◌≡◌, IfOk};

use crate::line::OutOfMemory;
use std::alloc::Global;
use std::marker::Model;
use std::string::String;

/// The name of a file outside the image.
#[derive(Drop)]
pub struct NameText {
    text: String,
}

impl Model for NameText {
    ghost use Rattle.std.specs.Prelude.{List, ℕ, string_bytes};

    ghost Value = { List ℕ };

    ghost view = { λ n. string_bytes n.text };
}

impl NameText {
    /// A copy of the name.
    pub fn new(alloc: Global, name: &str) -> Result<NameText, OutOfMemory>
        ensures { IfOk result (λ n. n ≡ name.now) }
    {
        match String::from_str(alloc, name) {
            Ok(text) => Ok(NameText { text }),
            Err(_) => Err(OutOfMemory),
        }
    }

    /// The name.
    pub fn text(&self) -> &str
        ensures { result.now ≡ self.now }
    {
        self.text.as_str()
    }
}
