//! The words of a call.

ghost use Rattle.std.specs.Prelude.{◌≡◌, map, string_bytes, IfOk, IfSome};
ghost use Rattle.fam_words.specs.Calls.{IsSoundInvocation};
ghost use Rattle.fam_top.specs.Words.{image_named, invocation_named};

use crate::mails::mail_of;
use fam_base::{NameText, OutOfMemory};
use fam_words::{Invocation, read_words};
use std::alloc::Global;

/// What the words after the program's name ask for, and `None` exactly where they are no command.
#[tactic(auto, unfolding(crate::specs::Words::invocation_named))]
pub(crate) fn invocation(
    alloc: Global,
    words: &Vec<String>,
) -> Result<Option<Invocation>, OutOfMemory>
    ensures value { IfOk result (λ invocation. invocation ≡ invocation_named (map string_bytes words.now.items)) }
    ensures sound { IfOk result (λ invocation. IfSome invocation IsSoundInvocation) }
{
    match read_words(alloc, words.as_slice())? {
        Some(call) => Ok(Some(call.invocation)),
        None => Ok(None),
    }
}

/// The image that the words name, of a command or of a script over a mailbox, and `None` exactly where they are neither.
#[tactic(auto, unfolding(crate::specs::Words::image_named))]
pub fn image_of(alloc: Global, words: &Vec<String>) -> Result<Option<NameText>, OutOfMemory>
    ensures { IfOk result (λ name. name ≡ image_named (map string_bytes words.now.items)) }
{
    match read_words(alloc, words.as_slice())? {
        Some(call) => Ok(Some(call.image)),
        None => mail_of(alloc, words),
    }
}
