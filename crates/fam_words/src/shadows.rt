//! Words that ask for the shadow of a tree.

ghost use Rattle.std.specs.Prelude.{◌≡◌, IfOk, Some, codes, map, string_bytes};
ghost use Rattle.clap.specs.Words.{found_of, rows_of};
ghost use Rattle.fam_words.specs.Shadows.{shadow_behind, shadow_call, shadow_in, shadow_with};
ghost use Rattle.fam_words.specs.Calls.{system_of};
ghost use Rattle.fam_words.specs.Simple.{value_in};

use crate::apps;
use crate::simple::{found, value};
use crate::values::{name_of, uuid_if_given};
use crate::wanted::ShadowCall;
use clap::ArgMatches;
use fam_base::{NameText, OutOfMemory};
use std::alloc::Global;

/// The shadow of an image in a folder, on the host that the words name.
fn within(
    alloc: Global,
    image: &str,
    folder: NameText,
    found: &ArgMatches<'_>,
) -> Result<Option<ShadowCall>, OutOfMemory>
    ensures { IfOk result (λ call. call ≡ shadow_with (Some image.now) (Some folder) (system_of (value_in (codes "system") (rows_of (found_of found.now))))) }
{
    let Some(system) = uuid_if_given(value(found, "system")) else {
        return Ok(None);
    };
    match NameText::new(alloc, image) {
        Ok(image) => Ok(Some(ShadowCall {
            image,
            folder,
            system,
        })),
        Err(_) => Err(OutOfMemory),
    }
}

/// The image, the folder and the host that the words name.
#[tactic(auto, unfolding(crate::specs::Shadows::shadow_in))]
fn named(alloc: Global, found: &ArgMatches<'_>) -> Result<Option<ShadowCall>, OutOfMemory>
    ensures { IfOk result (λ call. call ≡ shadow_in (rows_of (found_of found.now))) }
{
    let Some(image) = value(found, "image") else {
        return Ok(None);
    };
    match name_of(alloc, value(found, "shadow")) {
        Ok(Some(folder)) => within(alloc, image, folder, found),
        Ok(None) => Ok(None),
        Err(_) => Err(OutOfMemory),
    }
}

/// The words behind the command's name.
fn behind(alloc: Global, words: &[String]) -> Result<Option<ShadowCall>, OutOfMemory>
    ensures { IfOk result (λ call. call ≡ shadow_behind (map string_bytes words.now)) }
{
    let (word, arguments) = apps::shadow();
    match found(alloc, word, arguments, words) {
        Ok(Some(found)) => named(alloc, &found),
        Ok(None) => Ok(None),
        Err(_) => Err(OutOfMemory),
    }
}

/// What the words after the program's name ask for, where that is the shadow of a tree, and `None` exactly where it
/// isn't.
#[tactic(auto, unfolding(crate::specs::Shadows::shadow_call))]
pub fn read_shadow_words(alloc: Global, words: &[String]) -> Result<Option<ShadowCall>, OutOfMemory>
    ensures { IfOk result (λ call. call ≡ shadow_call (map string_bytes words.now)) }
{
    let [first, rest @ ..] = words else {
        return Ok(None);
    };
    if first.as_str() == "logplay" {
        return behind(alloc, rest);
    }
    Ok(None)
}
