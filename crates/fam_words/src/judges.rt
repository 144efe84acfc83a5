//! Words that ask for a recorded history to be judged.

ghost use Rattle.std.specs.Prelude.{◌≡◌, IfOk, Some, codes, map, option_map, string_bytes};
ghost use Rattle.clap.specs.Words.{found_of, rows_of};
ghost use Rattle.fam_words.specs.Judges.{judge_call, judge_in, judge_with};
ghost use Rattle.fam_words.specs.Simple.{value_in};

use crate::apps;
use crate::simple::{found, value};
use crate::values::name_of;
use crate::wanted::JudgeCall;
use clap::ArgMatches;
use fam_base::{NameText, OutOfMemory};
use std::alloc::Global;

/// The name of an image, where the words give one.
fn image_of(alloc: Global, text: Option<&str>) -> Result<Option<NameText>, OutOfMemory>
    ensures { IfOk result (λ name. name ≡ option_map (λ s. s.now) text.entry) }
{
    match text {
        Some(text) => Ok(Some(NameText::new(alloc, text)?)),
        None => Ok(None),
    }
}

/// A history, and the image that the words name.
fn behind(
    alloc: Global,
    history: NameText,
    found: &ArgMatches<'_>,
) -> Result<Option<JudgeCall>, OutOfMemory>
    ensures { IfOk result (λ call. call ≡ judge_with (Some history) (value_in (codes "image") (rows_of (found_of found.now)))) }
{
    let image = image_of(alloc, value(found, "image"))?;
    Ok(Some(JudgeCall { history, image }))
}

/// The history and the image that the words name.
#[tactic(auto, unfolding(crate::specs::Judges::judge_in))]
fn named(alloc: Global, found: &ArgMatches<'_>) -> Result<Option<JudgeCall>, OutOfMemory>
    ensures { IfOk result (λ call. call ≡ judge_in (rows_of (found_of found.now))) }
{
    match name_of(alloc, value(found, "history")) {
        Ok(Some(history)) => behind(alloc, history, found),
        Ok(None) => Ok(None),
        Err(_) => Err(OutOfMemory),
    }
}

/// What the words after the program's name ask for, where that is a history to be judged, and `None` exactly where it isn't.
pub fn read_judge_words(alloc: Global, words: &[String]) -> Result<Option<JudgeCall>, OutOfMemory>
    ensures { IfOk result (λ call. call ≡ judge_call (map string_bytes words.now)) }
{
    let (word, arguments) = apps::judge();
    match found(alloc, word, arguments, words) {
        Ok(Some(found)) => named(alloc, &found),
        Ok(None) => Ok(None),
        Err(_) => Err(OutOfMemory),
    }
}
