//! logplay with a folder for the shadow of the tree.

ghost use Rattle.std.specs.Prelude.{◌≡◌, ◌≤◌, ◌⊎◌, IfOk, IfSome, IsOk, None, OnOk, OnSome, Some, option_map};
ghost use Rattle.fam_media.specs.Causes.{IsSteady};
ghost use Rattle.fam_media.specs.States.{change};
ghost use Rattle.fam_outcomes.specs.Programs.{memory_line};
ghost use Rattle.fam_outcomes.specs.declared.status.Status.TheVariants as status;
ghost use Rattle.fam_notes.specs.Notes.{answer_view, note_view, notes_view};
ghost use Rattle.fam_program.specs.Puts.{Put};
ghost use Rattle.fam_program.specs.Runs.{outside_of};
ghost use Rattle.fam_program.specs.Shadows as spec;
ghost use Rattle.fam_program.specs.Shadows.{ShadowTop, shadow_fault_text, no_files, shadow_status, shadow_text};

use crate::no_files::NoFiles;
use crate::puts::{put_line, put_memory};
use crate::shots::{own_name, put_end, run_events};
use crate::unprinted::run_until_stop;
use fam_base::{Cmd, OutOfMemory};
use fam_events::EventFault;
use fam_journal::{Ask, Event};
use fam_media::{Media, Sink};
use fam_notes::Note;
use fam_outcomes::Status;
use fam_script::{last_status, line_of};
use fam_shadow::{Shade, ShadowFault, shadow};
use fam_tasks::Answer;
use fam_tree::Tree;
use fam_world::World;
use std::alloc::Global;
use uuid::Uuid;

/// The tree that an answer shows, and how many of the log's entries it has.
fn answered_tree(answer: &Answer) -> Option<(u64, &Tree)>
    ensures { option_map (λ s. (s.0, s.1.now)) result ≡ spec.answered_tree (answer_view answer.now) }
{
    match answer {
        Answer::Played { m, tree } => Some((*m, tree)),
        Answer::Mounted { .. } => None,
        Answer::Ok(_) => None,
        Answer::Same { .. } => None,
        Answer::Bytes { .. } => None,
        Answer::Checked { .. } => None,
        Answer::Report(_) => None,
        Answer::NoSuper(_) => None,
        Answer::BadSuper { .. } => None,
        Answer::BadLog { .. } => None,
        Answer::BadEntry { .. } => None,
        Answer::NotMaster { .. } => None,
        Answer::LongPath(_) => None,
        Answer::BadStripe => None,
        Answer::Exists(_) => None,
        Answer::NoParent => None,
        Answer::ParentIsFile => None,
        Answer::LogFull(_) => None,
        Answer::NoSpace(_) => None,
        Answer::NotFound { .. } => None,
        Answer::IsDirectory { .. } => None,
        Answer::Differs { .. } => None,
        Answer::Length { .. } => None,
        Answer::MediaFault(_) => None,
    }
}

/// The tree that a note shows.
fn tree_in(note: &Note) -> Option<(u64, &Tree)>
    ensures { option_map (λ s. (s.0, s.1.now)) result ≡ spec.tree_in (note_view note.now) }
{
    match note {
        Note::Answered { answer, .. } => answered_tree(answer),
        Note::Host { .. } => None,
        Note::Made { .. } => None,
        Note::Cut { .. } => None,
        Note::Start { .. } => None,
        Note::Mark { .. } => None,
        Note::Found { .. } => None,
        Note::Writes { .. } => None,
        Note::Stop { .. } => None,
        Note::Halt { .. } => None,
        Note::Umount { .. } => None,
        Note::Refused { .. } => None,
    }
}

/// The tree that the last note shows.
fn shown_tree(notes: &[Note]) -> Option<(u64, &Tree)>
    ensures { option_map (λ s. (s.0, s.1.now)) result ≡ spec.shown_tree (notes_view notes.now) }
{
    match notes.split_last() {
        Some((last, _)) => tree_in(last),
        None => None,
    }
}

/// The tree that a run shows which was done to its end.
fn done_tree<'a>(ended: &Result<(), EventFault>, notes: &'a [Note]) -> Option<(u64, &'a Tree)>
    ensures done { OnSome result (IsOk ended.now) }
    ensures shown { IfSome result (λ s. spec.shown_tree (notes_view notes.entry.now) ≡ Some (s.0, s.1.now)) }
    ensures none { result ≡ None → OnOk ended.now (spec.shown_tree (notes_view notes.entry.now) ≡ None) }
{
    match ended {
        Ok(()) => shown_tree(notes),
        Err(_) => None,
    }
}

/// Why a shadow isn't written whole, as a line.
fn fault_line(alloc: Global, fault: &ShadowFault) -> Result<Vec<u8>, OutOfMemory>
    ensures { IfOk result (λ bytes. bytes.items ≡ shadow_fault_text fault.now) }
{
    match fault {
        ShadowFault::Clash(name) => {
            let name = name.text();
            line_of(alloc, format!(in alloc; "refused clash {name}"))
        }
        ShadowFault::ShadeFault(name) => {
            let name = name.text();
            line_of(alloc, format!(in alloc; "shade fault {name}"))
        }
        ShadowFault::OutOfMemory => line_of(alloc, format!(in alloc; "out of memory")),
    }
}

/// How a shadow was written, as a line.
fn shadow_line(
    alloc: Global,
    m: u64,
    written: &Result<(), ShadowFault>,
) -> Result<Vec<u8>, OutOfMemory>
    ensures { IfOk result (λ bytes. bytes.items ≡ shadow_text m written.now) }
{
    match written {
        Ok(()) => line_of(alloc, format!(in alloc; "shadowed {m}")),
        Err(fault) => fault_line(alloc, fault),
    }
}

/// The status of a shadow that was written so.
fn shadow_status(written: &Result<(), ShadowFault>) -> Status
    ensures { result ≡ shadow_status written.now }
{
    match written {
        Ok(()) => Status::Done,
        Err(ShadowFault::Clash(_)) => Status::Refused,
        Err(ShadowFault::ShadeFault(_)) => Status::ShadeFault,
        Err(ShadowFault::OutOfMemory) => Status::OutOfMemory,
    }
}

/// Puts how a shadow was written, or that no memory is left to say so, and gives the status.
fn put_shadow<K: Sink>(
    alloc: Global,
    m: u64,
    written: &Result<(), ShadowFault>,
    out: &mut K,
) -> Status
    ensures put { Put (shadow_status written.now) (shadow_text m written.now) (change K.state out.old out.new) result
        ⊎ Put status.OutOfMemory memory_line (change K.state out.old out.new) result }
    ensures later { (K.state out.old).faults ≤ (K.state out.new).faults }
{
    match shadow_line(alloc, m, written) {
        Ok(line) => put_line(out, shadow_status(written), line.as_slice()),
        Err(OutOfMemory) => put_memory(out),
    }
}

/// Runs logplay on the log of a media, for a host of this UUID, and writes the shadow of the tree that it shows into a
/// folder: all names are looked at before the first one is made. What came of that is put, in place of the tree.
///
/// Where logplay shows no tree, what it answers is put, and the folder is as it was. `ShadeFault` comes where the folder
/// failed; then, and where no memory was left, a later run ends as this one would have.
pub fn write_shadow<M: Media, D: Shade, K: Sink>(
    alloc: Global,
    me: Uuid,
    media: &mut M,
    shade: &mut D,
    out: &mut K,
) -> Status
    ensures ends { ShadowTop (Some me) (outside_of M.size M.state media.old media.new no_files
        (change K.state out.old out.new)) (change D.state shade.old shade.new) result }
    ensures steady { IsSteady M.size M.state media.old media.new }
    ensures shade { (D.state shade.old).faults ≤ (D.state shade.new).faults }
    ensures later { (K.state out.old).faults ≤ (K.state out.new).faults }
{
    let name = own_name();
    let ask = Ask::Plain(Cmd::Logplay);
    let Ok(events) = run_events(alloc, name, me, ask) else {
        return put_memory(out);
    };
    let mut world = World::new(alloc);
    let ended = run_until_stop(alloc, &mut world, events, media, &mut NoFiles);
    if let Some((m, tree)) = done_tree(&ended, world.journal()) {
        let written = shadow(alloc, tree, shade);
        return put_shadow(alloc, m, &written, out);
    }
    let done = last_status(world.journal());
    put_end(alloc, &world, ended, done, out)
}
