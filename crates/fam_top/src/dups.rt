//! The top call for words that ask for a copy of a file system.

ghost use Rattle.std.specs.Prelude.{◌≡◌, ◌≤◌, IfOk, IfSome, map, string_bytes};
ghost use Rattle.fam_media.specs.Causes.{IsSteady};
ghost use Rattle.fam_media.specs.States.{change};
ghost use Rattle.fam_program.specs.Dups.{DupTop, copy_outside};
ghost use Rattle.fam_words.specs.Dups.{IsSoundDup, dup_call};
ghost use Rattle.fam_top.specs.Words.{copy_named, dup_named, dup_request};

use crate::fresh::fs_or;
use crate::top::host_or;
use fam_base::{NameText, OutOfMemory};
use fam_machine::MkfsRequest;
use fam_media::{Media, Sink};
use fam_outcomes::Status;
use fam_program::{copy_file_system, put_memory, put_usage};
use fam_words::{DupCall, read_dup_words};
use std::alloc::Global;
use uuid::Uuid;

/// What the words ask for, where that is a copy of a file system.
fn asked(alloc: Global, words: &Vec<String>) -> Result<Option<DupCall>, OutOfMemory>
    ensures sound { IfOk result (λ call. IfSome call IsSoundDup) }
    ensures value { IfOk result (λ call. call ≡ dup_call (map string_bytes words.now.items)) }
{
    read_dup_words(alloc, words.as_slice())
}

/// FROM and TO, as the words name them, and `None` exactly where they ask for no copy.
#[tactic(auto, unfolding(crate::specs::Words::dup_named))]
pub fn dup_of(
    alloc: Global,
    words: &Vec<String>,
) -> Result<Option<(NameText, NameText)>, OutOfMemory>
    ensures { IfOk result (λ names. names ≡ dup_named (map string_bytes words.now.items)) }
{
    match asked(alloc, words)? {
        Some(call) => Ok(Some((call.from, call.to))),
        None => Ok(None),
    }
}

/// What a mkfs with the options of a copy asks for.
fn request_of(random: [u8; 16], call: &DupCall) -> MkfsRequest
    ensures { result ≡ dup_request random call.now }
{
    MkfsRequest {
        fs: fs_or(random, call.fs),
        unit: call.unit,
        log: call.log,
        format: call.format,
        force: call.force,
        halt: None,
    }
}

/// Copies the file system on the image that `from` holds onto the one that `to` holds, puts what came of that to `out`,
/// and gives the status of the program's exit.
///
/// `words` are the words after the program's name, `me` is the UUID of this host where they name no other, and of
/// `random` a UUID is made where they give none. Words that ask for no copy are `Usage`, and nothing else is done then.
/// FROM is never written. TO is as it was after `Usage`, `Refused`, `Damaged` and `OutOfMemory`. Behind a fault of either
/// image TO reads as before, as no file system, or as the whole copy.
pub fn famfs_dup<M: Media, N: Media, K: Sink>(
    alloc: Global,
    words: &Vec<String>,
    me: Uuid,
    random: [u8; 16],
    from: &mut M,
    to: &mut N,
    out: &mut K,
) -> Status
    ensures ends { DupTop (copy_named me random (map string_bytes words.now.items)) (copy_outside (M.size from.old) (N.size to.old) M.exact N.exact
        (change M.state from.old from.new) (change N.state to.old to.new) (change K.state out.old out.new)) result }
    ensures steady_from { IsSteady M.size M.state from.old from.new }
    ensures steady_to { IsSteady N.size N.state to.old to.new }
    ensures sink { (K.state out.old).faults ≤ (K.state out.new).faults }
{
    match asked(alloc, words) {
        Ok(Some(call)) => {
            let request = request_of(random, &call);
            copy_file_system(alloc, host_or(me, call.system), request, from, to, out)
        }
        Ok(None) => put_usage(out),
        Err(OutOfMemory) => put_memory(out),
    }
}
