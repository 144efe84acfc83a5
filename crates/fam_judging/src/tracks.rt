//! What a candidate keeps of a host, behind a line.

ghost use Rattle.std.specs.Prelude.{◌≡◌, ◌++◌, ◌∷◌, [], IfOk, OnOk, Some};
ghost use Rattle.fam_journal.specs.Members.{changed_at};
ghost use Rattle.fam_judging.specs.declared.candidate.Stage.TheVariants as stage;
ghost use Rattle.fam_judging.specs.After.{begun_track, named_track, new_track};

use crate::candidate::{Stage, Track, Wrote};
use fam_base::{Entry, OutOfMemory};

/// The same of each host.
pub(crate) fn copy_tracks(tracks: &Vec<Track>) -> Result<Vec<Track>, OutOfMemory>
    ensures { IfOk result (λ copy. copy.items ≡ tracks.now.items) }
{
    match tracks.clone() {
        Ok(copy) => Ok(copy),
        Err(_) => Err(OutOfMemory),
    }
}

/// What is known of a host is this.
pub(crate) fn put_track(tracks: &mut Vec<Track>, at: usize, track: &Track)
    ensures { tracks.new.items ≡ changed_at at (λ t. track.now) tracks.old.items }
{
    if at < tracks.len() {
        tracks[at] = *track;
    }
}

/// One host more.
pub(crate) fn declare(tracks: &mut Vec<Track>) -> Result<(), OutOfMemory>
    ensures { OnOk result (tracks.new.items ≡ tracks.old.items ++ new_track ∷ []) }
{
    let new = Track {
        stage: Stage::Begun,
        floor: None,
        wrote: None,
    };
    if tracks.push(new).is_err() {
        return Err(OutOfMemory);
    }
    Ok(())
}

/// A host's command begins where so much is settled.
pub(crate) fn put_begun(tracks: &mut Vec<Track>, at: usize, settled: u64)
    ensures { tracks.new.items ≡ changed_at at (λ t. begun_track settled) tracks.old.items }
{
    if at < tracks.len() {
        tracks[at] = Track {
            stage: Stage::Begun,
            floor: Some(settled),
            wrote: None,
        };
    }
}

/// It dropped the gate's line where so much is settled.
pub(crate) fn put_marked(tracks: &mut Vec<Track>, at: usize, settled: u64)
    ensures { tracks.new.items ≡ changed_at at (λ t. record t { stage = stage.Marked; floor = Some settled }) tracks.old.items }
{
    if at < tracks.len() {
        let track = &mut tracks[at];
        track.stage = Stage::Marked;
        track.floor = Some(settled);
    }
}

/// It found so many entries.
pub(crate) fn put_met(tracks: &mut Vec<Track>, at: usize, n: u64)
    ensures { tracks.new.items ≡ changed_at at (λ t. record t { stage = stage.Met n }) tracks.old.items }
{
    if at < tracks.len() {
        tracks[at].stage = Stage::Met(n);
    }
}

/// It named an entry.
pub(crate) fn put_named(tracks: &mut Vec<Track>, at: usize, seq: u64, entry: &Entry)
    ensures { tracks.new.items ≡ changed_at at (named_track seq entry.now) tracks.old.items }
{
    if at < tracks.len() {
        let track = &mut tracks[at];
        track.stage = Stage::Named(seq);
        track.wrote = Some(Wrote { seq, entry: *entry });
    }
}
