//! The files of a copy, by runs of lines: as many as stand one behind another on both media are read by one call and
//! written by one, up to the 1,024 of a buffer.
//!
//! The buffer is taken behind the plans, so that want of memory is told before the first write, and it is the same
//! whatever the files' size. A fault in a run names the line at which it came, and nothing that was read of that run is
//! written: `AreCut` speaks of lines, not of runs.

ghost use Rattle.std.specs.Prelude.{◌≡◌, ◌+◌, ◌-◌, ◌*◌, ◌≤◌, ◌<◌, ◌∷◌, [], ℕ, IfErr, IfOk, OnOk, length, nat_lt, if◌then◌else◌, true, vec_len};
ghost use Rattle.fam_base.specs.Image.{line_at};
ghost use Rattle.fam_media.specs.Causes.{IsSteady};
ghost use Rattle.fam_media.specs.Outside.{IfModelled};
ghost use Rattle.fam_media.specs.Runs.{line_in};
ghost use Rattle.fam_rules.specs.Content.{byte_in};
ghost use Rattle.fam_rules.specs.Place.{IsProperEntry, line_bytes};
ghost use Rattle.fam_rules.specs.Written.{file_line, file_puts};
ghost use Rattle.fam_dup.specs.Copies.{AreCopies};
ghost use Rattle.fam_dup.specs.Ends.{FailsFromAt, IsCausedByFrom, IsFailure, IsFileStep, IsStep, NamesLine, from_counted, to_counted};
ghost use Rattle.fam_dup.specs.Findings.{FailsFrom, WantsMemory, fault_class};
ghost use Rattle.fam_dup.specs.Lines.{IsFileOn, PutsEnd, bytes_in, files_puts};
ghost use Rattle.fam_dup.specs.Runs.{AreBelow, HoldFileParts, AreTogether, part_puts};

use crate::copies::entry_at;
use crate::fault::DupFault;
use crate::lines::{FailedAt, are_lines, read_lines, write_lines};
use crate::runs::lines_together;
use fam_base::{Entry, Line};
use fam_content::{file_line, first_bytes, lines_of};
use fam_format::LINE_BYTES;
use fam_media::Media;
use fam_plan::Plan;
use std::alloc::Global;

/// The lines that are read and written by one call at most.
pub(crate) const RUN_LINES: usize = 1024;

/// Room for the lines of a run.
pub(crate) fn run_buffer(alloc: Global) -> Result<Vec<Line>, DupFault>
    ensures room { IfOk result (λ lines. vec_len lines ≡ RUN_LINES) }
    ensures full { IfErr result (λ fault. fault_class fault ≡ WantsMemory) }
{
    match vec![in alloc; [0; 8]; RUN_LINES] {
        Ok(lines) => Ok(lines),
        Err(_) => Err(DupFault::OutOfMemory),
    }
}

/// Clears what lies past the file's last byte, in the last of lines from line `j` on.
fn clear_past(entry: &Entry, j: u64, lines: &mut [Line])
    requires some { 0 < length lines.old }
    requires below { AreBelow entry.now j (length lines.old) }
    ensures count { length lines.new ≡ length lines.old }
    ensures others { (i : ℕ) → i < length lines.old - 1 → line_in lines.new i ≡ line_in lines.old i }
    ensures last { (b : ℕ) → b < 64 → byte_in (line_in lines.new (length lines.old - 1)) b
        ≡ if nat_lt b (entry.now.size - line_bytes * (j + (length lines.old - 1))) then byte_in (line_in lines.old (length lines.old - 1)) b else 0 }
{
    let last = lines.len() - 1;
    let line = first_bytes(&lines[last], entry.size - LINE_BYTES * (j + last as u64));
    lines[last] = line;
}

/// Reads lines of an entry's file from line `j` on, with zeros behind its last byte.
fn read_parts<M: Media>(
    from: &mut M,
    entry: &Entry,
    j: u64,
    lines: &mut [Line],
) -> Result<(), DupFault>
    requires file { IsFileOn entry.now (M.size from.old) }
    requires some { 0 < length lines.old }
    requires below { AreBelow entry.now j (length lines.old) }
    requires together { AreTogether entry.now j (length lines.old) }
    ensures words { OnOk result (IfModelled (M.state from.old).image (λ image. HoldFileParts (bytes_in (line_at image) entry.now) j lines.new)) }
    ensures count { length lines.new ≡ length lines.old }
    ensures failed { IfErr result (λ fault. fault_class fault ≡ FailsFrom) }
    ensures cause { IfErr result (λ fault. IsCausedByFrom (M.state from.old).faults (M.state from.new).faults (fault_class fault)) }
    ensures at { IfErr result (FailsFromAt (λ at. (ahead : ℕ) × (ahead < length lines.old) × (at ≡ file_line entry.now (j + ahead)))) }
    ensures quiet { OnOk result (M.exact ≡ true → (M.state from.new).faults ≡ (M.state from.old).faults) }
    ensures counted { IfErr result (λ fault. M.exact ≡ true → (M.state from.new).faults ≡ from_counted (fault_class fault) (M.state from.old).faults) }
    ensures line { IfErr result (λ fault. NamesLine (M.size from.old) 0 fault) }
    ensures same { (M.state from.new).image ≡ (M.state from.old).image }
    ensures steady { IsSteady M.size M.state from.old from.new }
{
    match read_lines(from, file_line(entry, j), lines) {
        Ok(()) => {
            clear_past(entry, j, lines);
            are_lines(lines);
            Ok(())
        }
        Err(FailedAt(line)) => Err(DupFault::FromFault(line)),
    }
}

/// Copies lines of an entry's file from line `j` on, through as many lines of a buffer.
#[tactic(auto, using(crate::proofs::Naming::from_names))]
fn copy_run<M: Media, N: Media>(
    from: &mut M,
    to: &mut N,
    entry: &Entry,
    copy: &Entry,
    j: u64,
    lines: &mut [Line],
) -> Result<(), DupFault>
    requires file { IsFileOn entry.now (M.size from.old) }
    requires place { IsFileOn copy.now (N.size to.old) }
    requires size { copy.now.size ≡ entry.now.size }
    requires some { 0 < length lines.old }
    requires below { AreBelow entry.now j (length lines.old) }
    requires few { length lines.old ≤ RUN_LINES }
    requires together { AreTogether entry.now j (length lines.old) }
    requires together_copy { AreTogether copy.now j (length lines.old) }
    ensures puts { IfModelled (M.state from.old).image (λ image. PutsEnd (IsFileStep entry.now copy.now) (part_puts copy.now (bytes_in (line_at image) entry.now) j (length lines.old))
        (N.state to.old).image (N.state to.new).image result) }
    ensures count { length lines.new ≡ length lines.old }
    ensures failed { IfErr result (λ fault. IsFailure (M.state from.old).faults (M.state from.new).faults
        (N.state to.old).faults (N.state to.new).faults (fault_class fault)) }
    ensures quiet_from { OnOk result (M.exact ≡ true → (M.state from.new).faults ≡ (M.state from.old).faults) }
    ensures quiet_to { OnOk result (N.exact ≡ true → (N.state to.new).faults ≡ (N.state to.old).faults) }
    ensures counted_from { IfErr result (λ fault. M.exact ≡ true → (M.state from.new).faults ≡ from_counted (fault_class fault) (M.state from.old).faults) }
    ensures counted_to { IfErr result (λ fault. N.exact ≡ true → (N.state to.new).faults ≡ to_counted (fault_class fault) (N.state to.old).faults) }
    ensures line { IfErr result (λ fault. NamesLine (M.size from.old) (N.size to.old) fault) }
    ensures same { (M.state from.new).image ≡ (M.state from.old).image }
    ensures steady_from { IsSteady M.size M.state from.old from.new }
    ensures steady_to { IsSteady N.size N.state to.old to.new }
{
    read_parts(from, entry, j, lines)?;
    match write_lines(to, file_line(copy, j), lines) {
        Ok(()) => Ok(()),
        Err(failed) => Err(DupFault::ToFault(failed.0)),
    }
}

/// How many lines of both files from line `j` on stand one behind another, at most so many and one at least.
fn run_of(entry: &Entry, copy: &Entry, j: u64, most: u64) -> u64
    requires file { IsProperEntry entry.now }
    requires place { IsProperEntry copy.now }
    requires size { copy.now.size ≡ entry.now.size }
    requires below { line_bytes * j < entry.now.size }
    requires some { 0 < most }
    ensures some { 0 < result }
    ensures most { result ≤ most }
    ensures together { AreTogether entry.now j result }
    ensures together_copy { AreTogether copy.now j result }
{
    lines_together(copy, j, lines_together(entry, j, most))
}

/// Copies the lines of an entry's file.
fn copy_file<M: Media, N: Media>(
    from: &mut M,
    to: &mut N,
    entry: &Entry,
    copy: &Entry,
    buffer: &mut [Line],
) -> Result<(), DupFault>
    requires file { IsFileOn entry.now (M.size from.old) }
    requires place { IsFileOn copy.now (N.size to.old) }
    requires size { copy.now.size ≡ entry.now.size }
    requires buffer { 0 < length buffer.old }
    requires few { length buffer.old ≤ RUN_LINES }
    ensures puts { IfModelled (M.state from.old).image (λ image. PutsEnd (IsFileStep entry.now copy.now) (file_puts copy.now (bytes_in (line_at image) entry.now))
        (N.state to.old).image (N.state to.new).image result) }
    ensures buffer { length buffer.new ≡ length buffer.old }
    ensures failed { IfErr result (λ fault. IsFailure (M.state from.old).faults (M.state from.new).faults
        (N.state to.old).faults (N.state to.new).faults (fault_class fault)) }
    ensures quiet_from { OnOk result (M.exact ≡ true → (M.state from.new).faults ≡ (M.state from.old).faults) }
    ensures quiet_to { OnOk result (N.exact ≡ true → (N.state to.new).faults ≡ (N.state to.old).faults) }
    ensures counted_from { IfErr result (λ fault. M.exact ≡ true → (M.state from.new).faults ≡ from_counted (fault_class fault) (M.state from.old).faults) }
    ensures counted_to { IfErr result (λ fault. N.exact ≡ true → (N.state to.new).faults ≡ to_counted (fault_class fault) (N.state to.old).faults) }
    ensures line { IfErr result (λ fault. NamesLine (M.size from.old) (N.size to.old) fault) }
    ensures same { (M.state from.new).image ≡ (M.state from.old).image }
    ensures steady_from { IsSteady M.size M.state from.old from.new }
    ensures steady_to { IsSteady N.size N.state to.old to.new }
{
    let lines = lines_of(copy.size);
    let mut j = 0;
    while j < lines {
        let count = run_of(entry, copy, j, (lines - j).min(buffer.len() as u64));
        copy_run(from, to, entry, copy, j, &mut buffer[..count as usize])?;
        j += count;
    }
    Ok(())
}

/// Copies the files of all entries.
pub(crate) fn copy_files<M: Media, N: Media>(
    from: &mut M,
    to: &mut N,
    source: &Plan,
    copies: &Plan,
    buffer: &mut [Line],
) -> Result<(), DupFault>
    requires from_device { source.now.params.device ≤ line_bytes * M.size from.old }
    requires to_device { copies.now.params.device ≤ line_bytes * N.size to.old }
    requires copies { AreCopies source.now.entries copies.now.entries }
    requires buffer { 0 < length buffer.old }
    requires few { length buffer.old ≤ RUN_LINES }
    ensures puts { IfModelled (M.state from.old).image (λ image. PutsEnd (IsStep source.now.entries copies.now.entries) (files_puts (line_at image) source.now.entries copies.now.entries)
        (N.state to.old).image (N.state to.new).image result) }
    ensures failed { IfErr result (λ fault. IsFailure (M.state from.old).faults (M.state from.new).faults
        (N.state to.old).faults (N.state to.new).faults (fault_class fault)) }
    ensures quiet_from { OnOk result (M.exact ≡ true → (M.state from.new).faults ≡ (M.state from.old).faults) }
    ensures quiet_to { OnOk result (N.exact ≡ true → (N.state to.new).faults ≡ (N.state to.old).faults) }
    ensures counted_from { IfErr result (λ fault. M.exact ≡ true → (M.state from.new).faults ≡ from_counted (fault_class fault) (M.state from.old).faults) }
    ensures counted_to { IfErr result (λ fault. N.exact ≡ true → (N.state to.new).faults ≡ to_counted (fault_class fault) (N.state to.old).faults) }
    ensures line { IfErr result (λ fault. NamesLine (M.size from.old) (N.size to.old) fault) }
    ensures same { (M.state from.new).image ≡ (M.state from.old).image }
    ensures steady_from { IsSteady M.size M.state from.old from.new }
    ensures steady_to { IsSteady N.size N.state to.old to.new }
{
    source.each_entry_joins();
    copies.each_entry_joins();
    for seq in 0..copies.count() {
        let entry = entry_at(source, seq);
        let copy = entry_at(copies, seq);
        copy_file(from, to, &entry, &copy, buffer)?;
    }
    Ok(())
}
