//! The call of the judge.

ghost use Rattle.std.specs.Prelude.{◌≡◌, ◌≤◌, IfErr, IfOk, Ok, Err, map, option_map, string_bytes};
ghost use Rattle.fam_media.specs.Causes.{IsShelfSteady, IsSteady};
ghost use Rattle.fam_media.specs.States.{change};
ghost use Rattle.fam_sources.specs.Whole.{WholeSays};
ghost use Rattle.fam_words.specs.Judges.{judge_call};
ghost use Rattle.fam_judge_call.specs.Endings.{HistoryEnds, ImageEnds, JudgeEnds, OnImageEnds, around, wanted_history};
ghost use Rattle.fam_judge_call.specs.Texts.{image_named};

use crate::images::judge_on;
use crate::puts::{put_made, put_memory, put_usage};
use crate::texts::{media_text, unread_status, unread_text, verdict_status, verdict_text};
use fam_base::{NameText, OutOfMemory};
use fam_media::{Media, Shelf, Sink};
use fam_opening::OpenFault;
use fam_outcomes::Status;
use fam_sources::{WholeFault, read_whole};
use fam_verdict::judge_on_blank;
use fam_words::{JudgeCall, read_judge_words};
use std::alloc::Global;

/// The most bytes of a history.
const HISTORY_LIMIT: u64 = 1 << 40;

/// The bytes of the history of a name.
fn history_of<S: Shelf>(alloc: Global, name: &str, shelf: &mut S) -> Result<Vec<u8>, WholeFault>
    ensures bytes { IfOk result (λ bytes. WholeSays (change S.state shelf.old shelf.new) (wanted_history name.now) (Ok bytes.items)) }
    ensures fault { IfErr result (λ fault. WholeSays (change S.state shelf.old shelf.new) (wanted_history name.now) (Err fault)) }
    ensures steady { IsShelfSteady (S.state shelf.old) (S.state shelf.new) }
{
    read_whole(alloc, shelf, name, 0, HISTORY_LIMIT)
}

/// Reads the history of a name, judges it on a blank image, and puts the verdict; or why it can't be read.
fn judge_file<S: Shelf, K: Sink>(alloc: Global, name: &str, shelf: &mut S, out: &mut K) -> Status
    ensures ends { HistoryEnds name.now (change S.state shelf.old shelf.new) (change K.state out.old out.new) result }
    ensures shelf { IsShelfSteady (S.state shelf.old) (S.state shelf.new) }
    ensures later { (K.state out.old).faults ≤ (K.state out.new).faults }
{
    let history = match history_of(alloc, name, shelf) {
        Ok(history) => history,
        Err(fault) => return put_made(unread_status(fault), unread_text(alloc, name, fault), out),
    };
    match judge_on_blank(alloc, history.as_slice()) {
        Ok(verdict) => put_made(verdict_status(&verdict), verdict_text(alloc, &verdict), out),
        Err(OutOfMemory) => put_memory(out),
    }
}

/// Reads the history of a name, judges it on the image that `media` holds, and puts the verdict; or why one of them can't be read.
fn judge_file_on<M: Media, S: Shelf, K: Sink>(
    alloc: Global,
    name: &str,
    image: &str,
    media: &mut M,
    shelf: &mut S,
    out: &mut K,
) -> Status
    ensures ends { OnImageEnds name.now image.now (around (M.size media.old) (change M.state media.old media.new) (change S.state shelf.old shelf.new)
        (change K.state out.old out.new)) result }
    ensures same { (M.state media.new).image ≡ (M.state media.old).image }
    ensures steady { IsSteady M.size M.state media.old media.new }
    ensures shelf { IsShelfSteady (S.state shelf.old) (S.state shelf.new) }
    ensures later { (K.state out.old).faults ≤ (K.state out.new).faults }
{
    let history = match history_of(alloc, name, shelf) {
        Ok(history) => history,
        Err(fault) => return put_made(unread_status(fault), unread_text(alloc, name, fault), out),
    };
    if media.lines() == 0 {
        let text = unread_text(alloc, image, WholeFault::NoFile);
        return put_made(Status::Refused, text, out);
    }
    match judge_on(alloc, media, history.as_slice()) {
        Ok(verdict) => put_made(verdict_status(&verdict), verdict_text(alloc, &verdict), out),
        Err(OpenFault::MediaFault(line)) => {
            put_made(Status::MediaFault, media_text(alloc, line), out)
        }
        Err(OpenFault::OutOfMemory) => put_memory(out),
    }
}

/// Judges the history of a call, on the image that it names or on a blank one.
fn judge_call<M: Media, S: Shelf, K: Sink>(
    alloc: Global,
    call: &JudgeCall,
    media: &mut M,
    shelf: &mut S,
    out: &mut K,
) -> Status
    ensures ends { ImageEnds call.now.history call.now.image (around (M.size media.old) (change M.state media.old media.new)
        (change S.state shelf.old shelf.new) (change K.state out.old out.new)) result }
    ensures same { (M.state media.new).image ≡ (M.state media.old).image }
    ensures steady { IsSteady M.size M.state media.old media.new }
    ensures shelf { IsShelfSteady (S.state shelf.old) (S.state shelf.new) }
    ensures later { (K.state out.old).faults ≤ (K.state out.new).faults }
{
    match &call.image {
        Some(image) => {
            judge_file_on(alloc, call.history.text(), image.text(), media, shelf, out)
        }
        None => judge_file(alloc, call.history.text(), shelf, out),
    }
}

/// The image that the words name, where they ask for a history to be judged on one.
pub fn judged_image(alloc: Global, words: &Vec<String>) -> Result<Option<NameText>, OutOfMemory>
    ensures { IfOk result (λ name. name ≡ image_named (judge_call (map string_bytes words.now.items))) }
{
    match read_judge_words(alloc, words.as_slice()) {
        Ok(Some(call)) => Ok(call.image),
        Ok(None) => Ok(None),
        Err(OutOfMemory) => Err(OutOfMemory),
    }
}

/// Judges the recorded history that the words name, puts the verdict to `out`, and gives the status of the program's exit.
///
/// `words` are the words after the program's name. Words that name no history, or more than a history and an image, are `Usage`, and
/// nothing else is done then. The history is read from the `shelf`. It is judged on the image that `media` holds, where the words name
/// one, as it was before the first line; and else on a blank image, of as many lines as the device has on which its first file system
/// was made. It is legal (`Done`) exactly where hosts that keep the promise could have had it, and illegal (`Refused`) at the first line
/// up to which they could not; a line that is none of a note is told (`BadScript`) where those before it are legal. The image is never
/// written: of one without lines it is said that there is none (`Refused`).
pub fn famfs_judge<M: Media, S: Shelf, K: Sink>(
    alloc: Global,
    words: &Vec<String>,
    media: &mut M,
    shelf: &mut S,
    out: &mut K,
) -> Status
    ensures ends { JudgeEnds (judge_call (map string_bytes words.now.items)) (around (M.size media.old) (change M.state media.old media.new)
        (change S.state shelf.old shelf.new) (change K.state out.old out.new)) result }
    ensures steady { IsSteady M.size M.state media.old media.new }
    ensures shelf { IsShelfSteady (S.state shelf.old) (S.state shelf.new) }
    ensures sink { (K.state out.old).faults ≤ (K.state out.new).faults }
{
    match read_judge_words(alloc, words.as_slice()) {
        Ok(Some(call)) => judge_call(alloc, &call, media, shelf, out),
        Ok(None) => put_usage(out),
        Err(OutOfMemory) => put_memory(out),
    }
}
