//! The top call for words that ask for the shadow of a tree.

ghost use Rattle.std.specs.Prelude.{◌≡◌, ◌≤◌, IfOk, IfSome, map, string_bytes};
ghost use Rattle.fam_format.specs.Params.{IsUuid};
ghost use Rattle.fam_journal.specs.Laws.{IsImage};
ghost use Rattle.fam_media.specs.Causes.{IsSteady};
ghost use Rattle.fam_media.specs.Outside.{IfModelled};
ghost use Rattle.fam_media.specs.States.{change};
ghost use Rattle.fam_program.specs.Runs.{outside_of};
ghost use Rattle.fam_program.specs.Shadows.{ShadowTop, no_files};
ghost use Rattle.fam_words.specs.Shadows.{shadow_call};
ghost use Rattle.fam_top.specs.Words.{shadow_host, shadow_named};

use crate::top::host_or;
use fam_base::{NameText, OutOfMemory};
use fam_machine::is_uuid;
use fam_media::{Media, Sink};
use fam_outcomes::Status;
use fam_program::{is_image, put_memory, put_usage, write_shadow};
use fam_shadow::Shade;
use fam_words::{ShadowCall, read_shadow_words};
use std::alloc::Global;
use uuid::Uuid;

/// What the words ask for, where that is the shadow of a tree.
fn asked(alloc: Global, words: &Vec<String>) -> Result<Option<ShadowCall>, OutOfMemory>
    ensures { IfOk result (λ call. call ≡ shadow_call (map string_bytes words.now.items)) }
{
    read_shadow_words(alloc, words.as_slice())
}

/// The image and the folder that the words name, and `None` exactly where they ask for no shadow.
#[tactic(auto, unfolding(crate::specs::Words::shadow_named))]
pub fn shadow_of(
    alloc: Global,
    words: &Vec<String>,
) -> Result<Option<(NameText, NameText)>, OutOfMemory>
    ensures { IfOk result (λ names. names ≡ shadow_named (map string_bytes words.now.items)) }
{
    match asked(alloc, words)? {
        Some(call) => Ok(Some((call.image, call.folder))),
        None => Ok(None),
    }
}

/// Runs logplay on the image that `media` holds, writes the shadow of its tree into the folder that `shade` stands for,
/// puts what came of that to `out`, and gives the status of the program's exit.
///
/// `words` are the words after the program's name, and `me` is the UUID of this host where they name no other. Words that
/// ask for no shadow are `Usage`, and nothing else is done then. Where logplay shows no tree, what it answers is put. The
/// folder is as it was where nothing was written: after `Usage`, after `Refused`, and where logplay shows no tree.
pub fn famfs_shadow<M: Media, D: Shade, K: Sink>(
    alloc: Global,
    words: &Vec<String>,
    me: Uuid,
    media: &mut M,
    shade: &mut D,
    out: &mut K,
) -> Status
    ensures ends { ShadowTop (shadow_host me (map string_bytes words.now.items)) (outside_of M.size M.state
        media.old media.new no_files (change K.state out.old out.new))
        (change D.state shade.old shade.new) result }

    // What the laws of runs ask for: an image that is modelled is one, and the host's UUID is one.
    ensures image { IfModelled (M.state media.old).image IsImage }
    ensures uuid { IfSome (shadow_host me (map string_bytes words.now.items)) IsUuid }
    ensures steady { IsSteady M.size M.state media.old media.new }
    ensures shade { (D.state shade.old).faults ≤ (D.state shade.new).faults }
    ensures sink { (K.state out.old).faults ≤ (K.state out.new).faults }
{
    is_image(media);
    is_uuid(me);
    match asked(alloc, words) {
        Ok(Some(call)) => write_shadow(alloc, host_or(me, call.system), media, shade, out),
        Ok(None) => put_usage(out),
        Err(OutOfMemory) => put_memory(out),
    }
}
