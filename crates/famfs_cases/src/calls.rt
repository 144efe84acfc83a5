//! Calls of the program.

use crate::bytes::copied;
use crate::state::State;
use crate::stop::Stop;
use crate::words::Words;
use fam_media::{MemShelf, MemSink};
use fam_outcomes::Status;
use fam_top::{dup_of, famfs, famfs_dup, famfs_mail, famfs_shadow, mail_of, shadow_of};
use std::alloc::Global;

/// What came of a call: the text that it put, and its status.
#[derive(Drop)]
pub struct Outcome {
    pub text: Vec<u8>,
    pub status: u8,
}

/// Calls the program with words that name one image alone, and no folder. Some of its lines may fail.
fn call_on_image(
    alloc: Global,
    state: &mut State,
    texts: &Vec<String>,
    shelf: &mut MemShelf,
    sink: &mut MemSink,
) -> Result<Status, Stop> {
    let is_mail = mail_of(alloc, texts)?.is_some();
    let mut media = state.take_frail(alloc)?;
    let status = if is_mail {
        famfs_mail(alloc, texts, &mut media, shelf, sink)
    } else {
        famfs(
            alloc,
            texts,
            state.host,
            state.random,
            &mut media,
            shelf,
            sink,
        )
    };
    state.media = media.into_media();
    Ok(status)
}

/// Calls the program with the words that are left, on the image, the shelf, the folder or the other image, and a new
/// sink.
pub fn call(alloc: Global, state: &mut State, words: &mut Words<'_>) -> Result<Outcome, Stop> {
    let texts = words.texts(alloc)?;
    let mut shelf = state.shelf(alloc)?;
    let mut sink = state.sink(alloc)?;
    state.plan_media()?;
    let status = match (shadow_of(alloc, &texts)?, dup_of(alloc, &texts)?) {
        (Some(_), _) => famfs_shadow(
            alloc,
            &texts,
            state.host,
            &mut state.media,
            &mut state.folder.shade,
            &mut sink,
        ),
        (None, Some(_)) => famfs_dup(
            alloc,
            &texts,
            state.host,
            state.random,
            &mut state.media,
            &mut state.other,
            &mut sink,
        ),
        (None, None) => call_on_image(alloc, state, &texts, &mut shelf, &mut sink)?,
    };
    Ok(Outcome {
        text: copied(alloc, sink.bytes())?,
        status: status.number(),
    })
}
