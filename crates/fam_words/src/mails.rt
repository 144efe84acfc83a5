//! Words that ask for a script over a mailbox.

ghost use Rattle.std.specs.Prelude.{◌≡◌, IfOk, Some, codes, map, string_bytes};
ghost use Rattle.clap.specs.Words.{found_of, rows_of};
ghost use Rattle.fam_words.specs.Mails.{mail_behind, mail_call, mail_in, mail_with};
ghost use Rattle.fam_words.specs.Simple.{value_in};
ghost use Rattle.fam_words.specs.Values.{needed, path_of_text};

use crate::apps;
use crate::simple::{found, value};
use crate::values::{name_of, path_of};
use crate::wanted::MailCall;
use clap::ArgMatches;
use fam_base::{NameText, OutOfMemory};
use std::alloc::Global;

/// A script over the mailbox at a path of an image, which the words name.
fn over(
    alloc: Global,
    script: NameText,
    found: &ArgMatches<'_>,
) -> Result<Option<MailCall>, OutOfMemory>
    ensures { IfOk result (λ call. call ≡ mail_with (Some script) (value_in (codes "image") (rows_of (found_of found.now)))
        (needed path_of_text (value_in (codes "path") (rows_of (found_of found.now))))) }
{
    let Some(image) = value(found, "image") else {
        return Ok(None);
    };
    let Some(path) = path_of(value(found, "path")) else {
        return Ok(None);
    };
    match NameText::new(alloc, image) {
        Ok(image) => Ok(Some(MailCall {
            script,
            image,
            path,
        })),
        Err(_) => Err(OutOfMemory),
    }
}

/// The script, the image and the path that the words name.
#[tactic(auto, unfolding(crate::specs::Mails::mail_in))]
fn named(alloc: Global, found: &ArgMatches<'_>) -> Result<Option<MailCall>, OutOfMemory>
    ensures { IfOk result (λ call. call ≡ mail_in (rows_of (found_of found.now))) }
{
    match name_of(alloc, value(found, "file")) {
        Ok(Some(script)) => over(alloc, script, found),
        Ok(None) => Ok(None),
        Err(_) => Err(OutOfMemory),
    }
}

/// The words behind the command's name.
fn behind(alloc: Global, words: &[String]) -> Result<Option<MailCall>, OutOfMemory>
    ensures { IfOk result (λ call. call ≡ mail_behind (map string_bytes words.now)) }
{
    let (word, arguments) = apps::mail();
    match found(alloc, word, arguments, words) {
        Ok(Some(found)) => named(alloc, &found),
        Ok(None) => Ok(None),
        Err(_) => Err(OutOfMemory),
    }
}

/// What the words after the program's name ask for, where that is a script over a mailbox, and `None` exactly where it
/// isn't.
#[tactic(auto, unfolding(crate::specs::Mails::mail_call))]
pub fn read_mail_words(alloc: Global, words: &[String]) -> Result<Option<MailCall>, OutOfMemory>
    ensures { IfOk result (λ call. call ≡ mail_call (map string_bytes words.now)) }
{
    let [first, rest @ ..] = words else {
        return Ok(None);
    };
    if first.as_str() == "mail" {
        return behind(alloc, rest);
    }
    Ok(None)
}
