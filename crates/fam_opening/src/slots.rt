//! The words of slots, and what a check of all of them reports.

ghost use Rattle.std.specs.Prelude.{◌≡◌, ◌+◌, ◌*◌, ◌<◌, ◌≤◌, ℕ, IfErr, IfOk, OnOk, length, slice_index, take};
ghost use Rattle.fam_base.specs.Image.{line_at};
ghost use Rattle.fam_format.specs.Layout.{geometry};
ghost use Rattle.fam_format.specs.Params.{SoundParams};
ghost use Rattle.fam_format.specs.Reading.{slot_words};
ghost use Rattle.fam_fsck.specs.Scan.{with_slot};
ghost use Rattle.fam_media.specs.Causes.{IsSteady};
ghost use Rattle.fam_media.specs.Outside.{IfModelled};
ghost use Rattle.fam_rules.specs.Place.{line_bytes};
ghost use Rattle.fam_rules.specs.Reports.{no_survey, report_by, survey_slots};
ghost use Rattle.fam_opening.specs.Opening.{IsOpenCaused};

use crate::fault::OpenFault;
use crate::lines::read_line;
use fam_base::{Line, Params};
use fam_format::{LINE_WORDS, MOST_SLOT_WORDS, shape_of};
use fam_fsck::Fsck;
use fam_media::Media;
use fam_replay::line_of_slot;
use fam_rules::Report;
use std::alloc::Global;

/// Puts the words of a line into those of its slot.
fn put_words(slot: &mut [u64; MOST_SLOT_WORDS], line: u64, words: &Line)
    requires { LINE_WORDS * line + LINE_WORDS ≤ MOST_SLOT_WORDS }
    ensures here { (k : ℕ) → k < LINE_WORDS → slice_index slot.new (LINE_WORDS * line + k) ≡ slice_index words.now k }
    ensures before { (k : ℕ) → k < LINE_WORDS * line → slice_index slot.new k ≡ slice_index slot.old k }
{
    'words: for w in 0..LINE_WORDS {
        slot[LINE_WORDS * line as usize + w] = words[w];
    }
}

/// The words of a slot, in front of others.
fn read_words<M: Media>(
    media: &mut M,
    params: &Params,
    slot: u64,
) -> Result<[u64; MOST_SLOT_WORDS], OpenFault>
    requires sound { SoundParams params.now }
    requires device { params.now.device ≤ line_bytes * M.size media.old }
    requires slot { slot < params.now.slots }
    ensures words { IfOk result (λ words. IfModelled (M.state media.old).image (λ image.
        take (geometry params.now).words words ≡ slot_words (line_at image) params.now slot)) }
    ensures cause { IfErr result (IsOpenCaused (M.size media.old) (M.state media.old).faults (M.state media.new).faults) }
    ensures same { (M.state media.new).image ≡ (M.state media.old).image }
    ensures steady { IsSteady M.size M.state media.old media.new }
{
    let mut words = [0; MOST_SLOT_WORDS];
    'lines: for line in 0..shape_of(params.format).lines {
        let part = read_line(media, line_of_slot(params, slot, line))?;
        put_words(&mut words, line, &part);
    }
    Ok(words)
}

/// Reads the next slot, and shows it to a check.
fn show_slot<M: Media>(
    media: &mut M,
    params: &Params,
    fsck: &mut Fsck,
    slot: u64,
) -> Result<(), OpenFault>
    requires sound { SoundParams params.now }
    requires device { params.now.device ≤ line_bytes * M.size media.old }
    requires slot { slot < params.now.slots }
    requires params { fsck.old.params ≡ params.now }
    requires next { fsck.old.added ≡ slot }
    ensures shown { OnOk result (IfModelled (M.state media.old).image (λ image.
        fsck.new ≡ with_slot fsck.old (slot_words (line_at image) params.now slot))) }
    ensures params { OnOk result (fsck.new.params ≡ params.now) }
    ensures gate { OnOk result (fsck.new.gate ≡ fsck.old.gate) }
    ensures added { OnOk result (fsck.new.added ≡ slot + 1) }
    ensures cause { IfErr result (IsOpenCaused (M.size media.old) (M.state media.old).faults (M.state media.new).faults) }
    ensures same { (M.state media.new).image ≡ (M.state media.old).image }
    ensures steady { IsSteady M.size M.state media.old media.new }
{
    let words = read_words(media, params, slot)?;
    fsck.add(&words[..shape_of(params.format).words])?;
    Ok(())
}

/// The report of a file system whose superblock and log are sound, with this gate: of all slots, also those past the gate.
pub(crate) fn report_slots<M: Media>(
    alloc: Global,
    media: &mut M,
    params: &Params,
    gate: u64,
) -> Result<Report, OpenFault>
    requires sound { SoundParams params.now }
    requires device { params.now.device ≤ line_bytes * M.size media.old }
    ensures report { IfOk result (λ report. IfModelled (M.state media.old).image (λ image.
        report ≡ report_by params.now gate (survey_slots (line_at image) params.now gate 0 params.now.slots no_survey))) }
    ensures cause { IfErr result (IsOpenCaused (M.size media.old) (M.state media.old).faults (M.state media.new).faults) }
    ensures same { (M.state media.new).image ≡ (M.state media.old).image }
    ensures steady { IsSteady M.size M.state media.old media.new }
{
    let mut fsck = Fsck::new(alloc, params, gate)?;
    for slot in 0..params.slots {
        show_slot(media, params, &mut fsck, slot)?;
    }
    Ok(fsck.report())
}
