//! Statements on the shelf's files, on the caller, and on the calls that are to fail.

use crate::state::State;
use crate::stop::Stop;
use crate::words::Words;
use fam_base::{LineNo, Mask};
use std::alloc::Global;

/// The most room of a sink: 64 MiB.
const MOST_ROOM: u64 = 67_108_864;

/// The room of the sinks that follow.
fn room(state: &mut State, words: &mut Words<'_>) -> Result<(), Stop> {
    let room = words.below(MOST_ROOM + 1)?;
    words.ended()?;
    state.room = room;
    Ok(())
}

/// A file of the shelf that is shorter than its size.
fn short(alloc: Global, state: &mut State, words: &mut Words<'_>) -> Result<(), Stop> {
    let word = words.expected()?;
    let name = words.text(alloc, word)?;
    let at = words.number()?;
    words.ended()?;
    state.cut_file(name, at)
}

/// A call that is to fail.
fn fail(state: &mut State, words: &mut Words<'_>) -> Result<(), Stop> {
    let part = words.expected()?;
    let call = words.number()?;
    match part.text {
        b"media" => {
            let mask = words.byte()?;
            state.fail_media(call, Mask(mask))?;
        }
        b"other" => {
            let mask = words.byte()?;
            state.fail_other(call, Mask(mask))?;
        }
        b"shelf" => state.fail_shelf(call)?,
        b"sink" => {
            let kept = words.number()?;
            state.fail_sink(call, kept)?;
        }
        b"shade" => {
            let kept = words.number()?;
            state.folder.fail(call, kept)?;
        }
        _ => return Err(words.bad(part.column)),
    }
    words.ended()
}

/// Does such a statement, and answers whether the name is one.
pub fn plan(
    alloc: Global,
    state: &mut State,
    name: &[u8],
    words: &mut Words<'_>,
) -> Result<bool, Stop> {
    match name {
        b"host" => state.host = words.last_uuid()?,
        b"random" => state.random = words.last_uuid()?.into_bytes(),
        b"room" => room(state, words)?,
        b"short" => short(alloc, state, words)?,
        b"fail" => fail(state, words)?,
        b"poison" => state.poison(LineNo(words.last_number()?))?,
        b"heal" => state.heal(LineNo(words.last_number()?)),
        _ => return Ok(false),
    }
    Ok(true)
}
