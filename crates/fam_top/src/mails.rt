//! The top call for words that ask for a script over a mailbox.

ghost use Rattle.std.specs.Prelude.{◌≡◌, ◌≤◌, IfOk, map, string_bytes};
ghost use Rattle.fam_media.specs.Causes.{IsShelfSteady, IsSteady};
ghost use Rattle.fam_media.specs.States.{change};
ghost use Rattle.fam_program.specs.Runs.{outside_of};
ghost use Rattle.fam_words.specs.Mails.{mail_call};
ghost use Rattle.fam_top.specs.Mails.{MailEnds};
ghost use Rattle.fam_top.specs.Words.{mail_named};

use fam_base::{NameText, OutOfMemory};
use fam_mailbox::run_mail_file;
use fam_media::{Media, Shelf, Sink};
use fam_outcomes::Status;
use fam_program::{put_memory, put_usage};
use fam_words::{MailCall, read_mail_words};
use std::alloc::Global;

/// What the words ask for, where that is a script over a mailbox.
fn asked(alloc: Global, words: &Vec<String>) -> Result<Option<MailCall>, OutOfMemory>
    ensures { IfOk result (λ call. call ≡ mail_call (map string_bytes words.now.items)) }
{
    read_mail_words(alloc, words.as_slice())
}

/// The image that the words name, and `None` exactly where they ask for no script over a mailbox.
#[tactic(auto, unfolding(crate::specs::Words::mail_named))]
pub fn mail_of(alloc: Global, words: &Vec<String>) -> Result<Option<NameText>, OutOfMemory>
    ensures { IfOk result (λ name. name ≡ mail_named (map string_bytes words.now.items)) }
{
    match asked(alloc, words)? {
        Some(call) => Ok(Some(call.image)),
        None => Ok(None),
    }
}

/// Runs a script of the `shelf` over the mailbox that a file of the image holds, puts its notes to `out`, and gives the
/// status of the program's exit. The image is the one that `media` holds.
///
/// `words` are the words after the program's name. Words that ask for no script over a mailbox are `Usage`, and nothing
/// else is done then.
pub fn famfs_mail<M: Media, S: Shelf, K: Sink>(
    alloc: Global,
    words: &Vec<String>,
    media: &mut M,
    shelf: &mut S,
    out: &mut K,
) -> Status
    ensures ends { MailEnds M.exact (mail_call (map string_bytes words.now.items)) (outside_of M.size M.state
        media.old media.new (change S.state shelf.old shelf.new) (change K.state out.old out.new)) result }
    ensures steady { IsSteady M.size M.state media.old media.new }
    ensures sink { (K.state out.old).faults ≤ (K.state out.new).faults }
    ensures shelf { IsShelfSteady (S.state shelf.old) (S.state shelf.new) }
{
    match asked(alloc, words) {
        Ok(Some(call)) => run_mail_file(alloc, call.script.text(), &call.path, media, shelf, out),
        Ok(None) => put_usage(out),
        Err(OutOfMemory) => put_memory(out),
    }
}
