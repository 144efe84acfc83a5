//! The top call: it does all that the program does, over any media, shelf and sink.

ghost use Rattle.std.specs.Prelude.{◌≡◌, ◌≤◌, Some, map, string_bytes};
ghost use Rattle.fam_grammar.specs.Scripts.{script_events};
ghost use Rattle.fam_outcomes.specs.Programs.{Single, TopEnds};
ghost use Rattle.fam_media.specs.Causes.{IsShelfSteady, IsSteady};
ghost use Rattle.fam_media.specs.States.{change};
ghost use Rattle.fam_program.specs.Runs.{outside_of};
ghost use Rattle.fam_storm.specs.Storm.{storm};
ghost use Rattle.fam_words.specs.Calls.{IsSoundInvocation, IsSoundShot};
ghost use Rattle.fam_top.specs.Calls as calls;
ghost use Rattle.fam_top.specs.Calls.{CallEnds, invoked_command, shot_of};
ghost use Rattle.fam_top.specs.Words.{invocation_named};

use crate::fresh::{fs_or, has_uuid};
use crate::words::invocation;
use fam_base::OutOfMemory;
use fam_machine::{MkfsRequest, is_uuid};
use fam_media::{Media, Shelf, Sink};
use fam_outcomes::Status;
use fam_program::{
    is_image, make_file_system, make_parents, put_memory, put_usage, run_command, run_script_file,
    run_storm,
};
use fam_words::{Invocation, Shot};
use std::alloc::Global;
use uuid::Uuid;

/// The UUID that is asked for, or this host's.
pub(crate) fn host_or(me: Uuid, system: Option<Uuid>) -> Uuid
    ensures { result ≡ calls.host_or me system }
{
    match system {
        Some(system) => system,
        None => me,
    }
}

/// Runs a command of its own for the host `me`, and puts what comes of it.
fn run_shot<M: Media, S: Shelf, K: Sink>(
    alloc: Global,
    shot: Shot,
    me: Uuid,
    random: [u8; 16],
    media: &mut M,
    shelf: &mut S,
    out: &mut K,
) -> Status
    requires sound { IsSoundShot shot }
    ensures ends { TopEnds script_events storm (Some (Single me (shot_of random shot))) (outside_of M.size M.state
        media.old media.new (change S.state shelf.old shelf.new)
        (change K.state out.old out.new)) result }
    ensures steady { IsSteady M.size M.state media.old media.new }
    ensures sink { (K.state out.old).faults ≤ (K.state out.new).faults }
    ensures shelf { IsShelfSteady (S.state shelf.old) (S.state shelf.new) }
{
    match shot {
        Shot::Run(ask) => run_command(alloc, me, ask, media, shelf, out),
        Shot::Mkfs {
            fs,
            unit,
            log,
            format,
            force,
        } => {
            let request = MkfsRequest {
                fs: fs_or(random, fs),
                unit,
                log,
                format,
                force,
                halt: None,
            };
            make_file_system(alloc, me, request, media, shelf, out)
        }
        Shot::Parents { path, attr } => make_parents(alloc, me, &path, attr, media, shelf, out),
    }
}

/// Does what the words ask for, and puts what comes of it.
fn run_invocation<M: Media, S: Shelf, K: Sink>(
    alloc: Global,
    invocation: Invocation,
    me: Uuid,
    random: [u8; 16],
    media: &mut M,
    shelf: &mut S,
    out: &mut K,
) -> Status
    requires sound { IsSoundInvocation invocation }
    ensures ends { TopEnds script_events storm (Some (invoked_command me random invocation)) (outside_of M.size M.state
        media.old media.new (change S.state shelf.old shelf.new)
        (change K.state out.old out.new)) result }
    ensures steady { IsSteady M.size M.state media.old media.new }
    ensures sink { (K.state out.old).faults ≤ (K.state out.new).faults }
    ensures shelf { IsShelfSteady (S.state shelf.old) (S.state shelf.new) }
{
    match invocation {
        Invocation::Single { system, shot } => {
            run_shot(alloc, shot, host_or(me, system), random, media, shelf, out)
        }
        Invocation::Script { file } => run_script_file(alloc, file.text(), media, shelf, out),
        Invocation::Storm { seed, size, prints } => run_storm(
            alloc, seed, size, prints, media, shelf, out,
        ),
    }
}

/// Runs the command that `words` name on the image that `media` holds, puts its texts to `out`, and gives the status of
/// the program's exit: [`Status`] says which one stands for what.
///
/// `words` are the words after the program's name. `me` is the UUID of this host where the words name no other, and
/// `random` are 16 random bytes, from which `mkfs` makes a UUID where the words give none. Scripts, and the sources of
/// `cp`, `verify` and `check`, are read from the `shelf`.
///
/// Words that are no command are `Usage`, and nothing else is done then. Where no memory is left for the words, nothing
/// is done either; where none is left later, what was done on the media by then stands.
pub fn famfs<M: Media, S: Shelf, K: Sink>(
    alloc: Global,
    words: &Vec<String>,
    me: Uuid,
    random: [u8; 16],
    media: &mut M,
    shelf: &mut S,
    out: &mut K,
) -> Status
    ensures ends { CallEnds (invocation_named (map string_bytes words.now.items)) me random (outside_of M.size M.state
        media.old media.new (change S.state shelf.old shelf.new) (change K.state out.old out.new)) result }
    ensures steady { IsSteady M.size M.state media.old media.new }
    ensures sink { (K.state out.old).faults ≤ (K.state out.new).faults }
    ensures shelf { IsShelfSteady (S.state shelf.old) (S.state shelf.new) }
{
    is_image(media);
    is_uuid(me);
    has_uuid(random);
    match invocation(alloc, words) {
        Ok(Some(invocation)) => run_invocation(alloc, invocation, me, random, media, shelf, out),
        Ok(None) => put_usage(out),
        Err(OutOfMemory) => put_memory(out),
    }
}
