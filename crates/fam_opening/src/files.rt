//! The bytes of a file, as many lines by one call as stand one behind another.

ghost use Rattle.std.specs.Prelude.{◌≡◌, ◌+◌, ◌*◌, ◌<◌, ◌≤◌, [], ℕ, IfErr, IfOk, OnErr, OnOk, length, slice_index, vec_len};
ghost use Rattle.fam_base.specs.Image.{line_at};
ghost use Rattle.fam_media.specs.Causes.{IsSteady};
ghost use Rattle.fam_media.specs.Outside.{IfModelled};
ghost use Rattle.fam_media.specs.Runs.{line_in};
ghost use Rattle.fam_rules.specs.Content.{byte_in};
ghost use Rattle.fam_rules.specs.Place.{IsProperEntry, line_bytes};
ghost use Rattle.fam_rules.specs.Solo.{held_file};
ghost use Rattle.fam_opening.specs.Files.{AreInRow, HoldFirst, IsFileOn, byte_held};
ghost use Rattle.fam_opening.specs.Opening.{IsOpenCaused};

use crate::fault::OpenFault;
use fam_base::{Entry, Line, OutOfMemory};
use fam_content::{file_line, lines_in_row, lines_of};
use fam_format::byte_of;
use fam_media::Media;
use std::alloc::Global;

/// The lines that are read by one call at most.
const RUN_LINES: usize = 1024;

/// Room for the lines of a run.
pub(crate) fn run_buffer(alloc: Global) -> Result<Vec<Line>, OutOfMemory>
    ensures { IfOk result (λ lines. vec_len lines ≡ RUN_LINES) }
{
    match vec![in alloc; [0; 8]; RUN_LINES] {
        Ok(lines) => Ok(lines),
        Err(_) => Err(OutOfMemory),
    }
}

/// Room for so many bytes, and for those of a last line behind them.
fn room_for(alloc: Global, size: u64) -> Result<Vec<u8>, OutOfMemory>
    ensures { IfOk result (λ bytes. bytes.items ≡ []) }
{
    match Vec::with_capacity(alloc, (size as usize).saturating_add(63)) {
        Ok(bytes) => Ok(bytes),
        Err(_) => Err(OutOfMemory),
    }
}

/// The bytes of a line in their order.
fn bytes_of_line(line: &Line) -> [u8; 64]
    ensures { (b : ℕ) → b < 64 → slice_index result b ≡ byte_in line.now b }
{
    let mut bytes = [0; 64];
    'bytes: for b in 0..64 {
        bytes[b] = byte_of(line[b / 8], b % 8);
    }
    bytes
}

/// Puts the bytes of a line behind others.
fn push_line(bytes: &mut Vec<u8>, line: &Line) -> Result<(), OutOfMemory>
    ensures count { OnOk result (vec_len bytes.new ≡ vec_len bytes.old + 64) }
    ensures before { OnOk result ((k : ℕ) → k < vec_len bytes.old → slice_index bytes.new.items k ≡ slice_index bytes.old.items k) }
    ensures here { OnOk result ((b : ℕ) → b < 64 → slice_index bytes.new.items (vec_len bytes.old + b) ≡ byte_in line.now b) }
{
    match bytes.extend_from_slice(&bytes_of_line(line)) {
        Ok(()) => Ok(()),
        Err(_) => Err(OutOfMemory),
    }
}

/// Puts the bytes of lines behind others.
fn push_lines(bytes: &mut Vec<u8>, lines: &[Line]) -> Result<(), OutOfMemory>
    ensures count { OnOk result (vec_len bytes.new ≡ vec_len bytes.old + 64 * length lines.now) }
    ensures before { OnOk result ((k : ℕ) → k < vec_len bytes.old → slice_index bytes.new.items k ≡ slice_index bytes.old.items k) }
    ensures here { OnOk result ((i b : ℕ) → i < length lines.now → b < 64
        → slice_index bytes.new.items (vec_len bytes.old + 64 * i + b) ≡ byte_in (line_in lines.now i) b) }
{
    for line in lines {
        push_line(bytes, line)?;
    }
    Ok(())
}

/// How many lines of the file from line `j` on stand one behind another on the device: one at least, and no more than `most`.
fn run_of(entry: &Entry, j: u64, most: u64) -> u64
    requires file { IsProperEntry entry.now }
    requires below { line_bytes * j < entry.now.size }
    requires some { 0 < most }
    ensures some { 0 < result }
    ensures most { result ≤ most }
    ensures row { AreInRow entry.now j result }
{
    lines_in_row(entry, j, most).max(1)
}

/// Reads lines of an entry's file from line `j` on.
fn read_run<M: Media>(
    media: &mut M,
    entry: &Entry,
    j: u64,
    lines: &mut [Line],
) -> Result<(), OpenFault>
    requires file { IsFileOn entry.now (M.size media.old) }
    requires some { 0 < length lines.old }
    requires row { AreInRow entry.now j (length lines.old) }
    ensures bytes { OnOk result (IfModelled (M.state media.old).image (λ image. (i b : ℕ) → i < length lines.old → b < 64
        → byte_in (line_in lines.new i) b ≡ byte_held (line_at image) entry.now (line_bytes * (j + i) + b))) }
    ensures count { length lines.new ≡ length lines.old }
    ensures cause { IfErr result (IsOpenCaused (M.size media.old) (M.state media.old).faults (M.state media.new).faults) }
    ensures same { (M.state media.new).image ≡ (M.state media.old).image }
    ensures steady { IsSteady M.size M.state media.old media.new }
{
    let first = file_line(entry, j);
    // How many lines there are at most.
    let _ = media.lines();
    match media.read_run(first, lines) {
        Ok(()) => Ok(()),
        Err(failed) => Err(OpenFault::MediaFault(first.0 + failed.done as u64)),
    }
}

/// Reads lines of an entry's file from line `j` on, and puts their bytes behind those before them.
fn read_part<M: Media>(
    media: &mut M,
    entry: &Entry,
    j: u64,
    lines: &mut [Line],
    bytes: &mut Vec<u8>,
) -> Result<(), OpenFault>
    requires file { IsFileOn entry.now (M.size media.old) }
    requires some { 0 < length lines.old }
    requires row { AreInRow entry.now j (length lines.old) }
    requires bytes { vec_len bytes.old ≡ line_bytes * j }
    ensures bytes { OnOk result (vec_len bytes.new ≡ line_bytes * (j + length lines.old)) }
    ensures held { OnOk result (IfModelled (M.state media.old).image (λ image.
        HoldFirst (line_at image) entry.now bytes.old.items → HoldFirst (line_at image) entry.now bytes.new.items)) }
    ensures count { length lines.new ≡ length lines.old }
    ensures cause { IfErr result (IsOpenCaused (M.size media.old) (M.state media.old).faults (M.state media.new).faults) }
    ensures same { (M.state media.new).image ≡ (M.state media.old).image }
    ensures steady { IsSteady M.size M.state media.old media.new }
{
    read_run(media, entry, j, lines)?;
    push_lines(bytes, lines)?;
    Ok(())
}

/// Reads the lines of an entry's file through those of a buffer.
fn read_lines<M: Media>(
    alloc: Global,
    media: &mut M,
    entry: &Entry,
    buffer: &mut [Line],
) -> Result<Vec<u8>, OpenFault>
    requires file { IsFileOn entry.now (M.size media.old) }
    requires buffer { 0 < length buffer.old }
    ensures long { IfOk result (λ bytes. entry.now.size ≤ vec_len bytes) }
    ensures held { IfOk result (λ bytes. IfModelled (M.state media.old).image (λ image. HoldFirst (line_at image) entry.now bytes.items)) }
    ensures buffer { length buffer.new ≡ length buffer.old }
    ensures cause { IfErr result (IsOpenCaused (M.size media.old) (M.state media.old).faults (M.state media.new).faults) }
    ensures same { (M.state media.new).image ≡ (M.state media.old).image }
    ensures steady { IsSteady M.size M.state media.old media.new }
{
    let lines = lines_of(entry.size);
    let mut bytes = room_for(alloc, entry.size)?;
    let mut j = 0;
    while j < lines {
        let count = run_of(entry, j, (lines - j).min(buffer.len() as u64));
        read_part(media, entry, j, &mut buffer[..count as usize], &mut bytes)?;
        j += count;
    }
    Ok(bytes)
}

/// The bytes of an entry's file, through the lines of a buffer.
pub(crate) fn read_file<M: Media>(
    alloc: Global,
    media: &mut M,
    entry: &Entry,
    buffer: &mut [Line],
) -> Result<Vec<u8>, OpenFault>
    requires file { IsFileOn entry.now (M.size media.old) }
    requires buffer { 0 < length buffer.old }
    ensures held { IfOk result (λ bytes. IfModelled (M.state media.old).image (λ image.
        bytes.items ≡ (held_file (line_at image) entry.now).bytes)) }
    ensures buffer { length buffer.new ≡ length buffer.old }
    ensures cause { IfErr result (IsOpenCaused (M.size media.old) (M.state media.old).faults (M.state media.new).faults) }
    ensures same { (M.state media.new).image ≡ (M.state media.old).image }
    ensures steady { IsSteady M.size M.state media.old media.new }
{
    let mut bytes = read_lines(alloc, media, entry, buffer)?;
    bytes.truncate(entry.size as usize);
    Ok(bytes)
}
