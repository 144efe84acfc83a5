//! Single lines of a media, and its superblock.

ghost use Rattle.std.specs.Prelude.{◌≡◌, ◌∷◌, [], ◌+◌, ◌*◌, ◌^◌, ◌<◌, ◌≤◌, IfErr, IfOk, OnErr, OnOk, ℕ, is_err, length, slice_index, true};
ghost use Rattle.fam_base.specs.Image.{line_at};
ghost use Rattle.fam_format.specs.Layout.{least_lines};
ghost use Rattle.fam_format.specs.Params.{SoundParams};
ghost use Rattle.fam_format.specs.Reading.{super_in};
ghost use Rattle.fam_media.specs.Causes.{IsSteady, Rose};
ghost use Rattle.fam_media.specs.Outside.{IfModelled};
ghost use Rattle.fam_rules.specs.Place.{line_bytes};
ghost use Rattle.fam_media.specs.Plans.{count_if};
ghost use Rattle.fam_media.specs.Runs.{AreRead, IsFailedBehind, line_in, read_of, write_of};
ghost use Rattle.fam_dup.specs.Lines.{AreCutAt, ArePut};
ghost use Rattle.fam_dup.specs.Runs.{run_puts};

use fam_base::{Line, LineNo, Params};
use fam_format::{LINE_BYTES, SuperFault};
use fam_media::Media;
use fam_super::read_super;

/// The media failed at this line.
#[derive(Clone, Copy)]
pub(crate) struct FailedAt(pub(crate) LineNo);

/// A line has eight words of 64 bits, which a contract that has them as numbers doesn't see. A call does nothing.
pub(crate) fn are_words(words: Line)
    ensures count { length words ≡ 8 }
    ensures fit { (w : ℕ) → slice_index words w < 2 ^ 64 }
{
    let _ = words[0];
}

/// So do lines.
pub(crate) fn are_lines(lines: &[Line])
    ensures count { (i : ℕ) → i < length lines.now → length (line_in lines.now i) ≡ 8 }
    ensures fit { (i w : ℕ) → i < length lines.now → slice_index (line_in lines.now i) w < 2 ^ 64 }
{
    for line in lines {
        are_words(*line);
    }
}

/// Reads a line.
pub(crate) fn read_line<M: Media>(media: &mut M, line: LineNo) -> Result<Line, FailedAt>
    requires within { line.0 < M.size media.old }
    ensures words { IfOk result (λ words. IfModelled (M.state media.old).image (λ image. words ≡ line_at image line.0)) }
    ensures same { (M.state media.new).image ≡ (M.state media.old).image }
    ensures rose { OnErr result (Rose (M.state media.old).faults (M.state media.new).faults) }
    ensures counted { M.exact ≡ true → (M.state media.new).faults ≡ count_if (is_err result) (M.state media.old).faults }
    ensures at { IfErr result (λ failed. failed.0 ≡ line) }
    ensures line { IfErr result (λ failed. failed.0.0 < M.size media.old) }
    ensures steady { IsSteady M.size M.state media.old media.new }
{
    match media.read(line) {
        Ok(words) => Ok(words),
        Err(_) => Err(FailedAt(line)),
    }
}

/// Writes a line.
pub(crate) fn write_line<M: Media>(
    media: &mut M,
    line: LineNo,
    words: &Line,
) -> Result<(), FailedAt>
    requires within { line.0 < M.size media.old }
    ensures put { OnOk result (ArePut ((line.0, words.now) ∷ []) (M.state media.old).image (M.state media.new).image) }
    ensures cut { IfErr result (λ failed. AreCutAt (λ put. put.0 ≡ failed.0.0) ((line.0, words.now) ∷ []) (M.state media.old).image (M.state media.new).image) }
    ensures rose { OnErr result (Rose (M.state media.old).faults (M.state media.new).faults) }
    ensures counted { M.exact ≡ true → (M.state media.new).faults ≡ count_if (is_err result) (M.state media.old).faults }
    ensures at { IfErr result (λ failed. failed.0 ≡ line) }
    ensures line { IfErr result (λ failed. failed.0.0 < M.size media.old) }
    ensures steady { IsSteady M.size M.state media.old media.new }
{
    match media.write(line, words) {
        Ok(()) => Ok(()),
        Err(_) => Err(FailedAt(line)),
    }
}

/// Reads lines one behind another.
pub(crate) fn read_lines<M: Media>(
    media: &mut M,
    first: LineNo,
    lines: &mut [Line],
) -> Result<(), FailedAt>
    requires within { first.0 + length lines.old ≤ M.size media.old }
    ensures words { OnOk result (IfModelled (M.state media.old).image (λ image. AreRead image first.0 lines.new (length lines.new))) }
    ensures count { length lines.new ≡ length lines.old }
    ensures same { (M.state media.new).image ≡ (M.state media.old).image }
    ensures rose { OnErr result (Rose (M.state media.old).faults (M.state media.new).faults) }
    ensures counted { M.exact ≡ true → (M.state media.new).faults ≡ count_if (is_err result) (M.state media.old).faults }
    ensures at { IfErr result (λ failed. (done : ℕ) × (done < length lines.old) × (failed.0.0 ≡ first.0 + done)
        × (M.exact ≡ true → IsFailedBehind (read_of M.reads first.0) done media.old media.new)) }
    ensures line { IfErr result (λ failed. failed.0.0 < M.size media.old) }
    ensures steady { IsSteady M.size M.state media.old media.new }
{
    let _ = media.lines();
    match media.read_run(first, lines) {
        Ok(()) => Ok(()),
        Err(failed) => Err(FailedAt(LineNo(first.0 + failed.done as u64))),
    }
}

/// Writes lines one behind another.
pub(crate) fn write_lines<M: Media>(
    media: &mut M,
    first: LineNo,
    lines: &[Line],
) -> Result<(), FailedAt>
    requires within { first.0 + length lines.now ≤ M.size media.old }
    ensures put { OnOk result (ArePut (run_puts first.0 lines.now) (M.state media.old).image (M.state media.new).image) }
    ensures cut { IfErr result (λ failed. AreCutAt (λ put. put.0 ≡ failed.0.0) (run_puts first.0 lines.now) (M.state media.old).image (M.state media.new).image) }
    ensures rose { OnErr result (Rose (M.state media.old).faults (M.state media.new).faults) }
    ensures counted { M.exact ≡ true → (M.state media.new).faults ≡ count_if (is_err result) (M.state media.old).faults }
    ensures at { IfErr result (λ failed. (done : ℕ) × (done < length lines.now) × (failed.0.0 ≡ first.0 + done)
        × (M.exact ≡ true → IsFailedBehind (write_of M.writes first.0 lines.now) done media.old media.new)) }
    ensures line { IfErr result (λ failed. failed.0.0 < M.size media.old) }
    ensures steady { IsSteady M.size M.state media.old media.new }
{
    let _ = media.lines();
    match media.write_run(first, lines) {
        Ok(()) => Ok(()),
        Err(failed) => Err(FailedAt(LineNo(first.0 + failed.done as u64))),
    }
}

/// Lines 0, 1 and 2.
fn super_lines<M: Media>(media: &mut M) -> Result<[Line; 3], FailedAt>
    requires within { least_lines ≤ M.size media.old }
    ensures found { IfOk result (λ lines. IfModelled (M.state media.old).image (λ image.
        (have : ℕ) → super_in (line_at lines) have ≡ super_in (line_at image) have)) }
    ensures same { (M.state media.new).image ≡ (M.state media.old).image }
    ensures rose { OnErr result (Rose (M.state media.old).faults (M.state media.new).faults) }
    ensures counted { M.exact ≡ true → (M.state media.new).faults ≡ count_if (is_err result) (M.state media.old).faults }
    ensures at { IfErr result (λ failed. failed.0.0 < 3) }
    ensures line { IfErr result (λ failed. failed.0.0 < M.size media.old) }
    ensures steady { IsSteady M.size M.state media.old media.new }
{
    let magic = read_line(media, LineNo(0))?;
    let first = read_line(media, LineNo(1))?;
    let second = read_line(media, LineNo(2))?;
    Ok([magic, first, second])
}

/// What the superblock tells: its parameters, or its first fault.
pub(crate) fn superblock<M: Media>(media: &mut M) -> Result<Result<Params, SuperFault>, FailedAt>
    requires within { least_lines ≤ M.size media.old }
    ensures found { IfOk result (λ found. IfModelled (M.state media.old).image (λ image.
        found ≡ super_in (line_at image) (line_bytes * M.size media.old))) }
    ensures sound { IfOk result (λ found. IfOk found (λ p. SoundParams p)) }
    ensures device { IfOk result (λ found. IfOk found (λ p. p.device ≤ line_bytes * M.size media.old)) }
    ensures same { (M.state media.new).image ≡ (M.state media.old).image }
    ensures rose { OnErr result (Rose (M.state media.old).faults (M.state media.new).faults) }
    ensures counted { M.exact ≡ true → (M.state media.new).faults ≡ count_if (is_err result) (M.state media.old).faults }
    ensures at { IfErr result (λ failed. failed.0.0 < 3) }
    ensures line { IfErr result (λ failed. failed.0.0 < M.size media.old) }
    ensures steady { IsSteady M.size M.state media.old media.new }
{
    let lines = super_lines(media)?;
    Ok(read_super(&lines, LINE_BYTES * media.lines()))
}
