//! What a real file gives, which no clause tells.

use fam_base::{Line, LineNo};
use fam_files::{FileMedia, open_to_write};
use fam_media::Media;
use std::fs::{File, remove_file};
use std::test::Fail;

/// What is done with lines, each of whose words is one number.
#[derive(Clone, Copy)]
enum Call {
    /// A line is read, and has the number.
    Read,
    /// A line is written.
    Write,
    /// Eight lines are read together, and have the number.
    ReadRun,
    /// Eight lines are written together.
    WriteRun,
    /// A line is written through another media over the same file.
    WriteBeside,
    /// Eight lines are written so.
    WriteRunBeside,
}

/// A call, its first line, and the number.
type Step = (Call, u64, u64);

/// What was read ahead is gone once the gate, which is line 32,769, is read.
const GATES: [Step; 8] = [
    (Call::Read, 32_776, 0),
    (Call::WriteBeside, 32_777, 7),
    (Call::Read, 32_769, 0),
    (Call::Read, 32_777, 7),
    (Call::WriteBeside, 32_778, 8),
    (Call::Read, 32_769, 0),
    (Call::Read, 32_778, 8),
    (Call::Read, 32_779, 0),
];

/// A line that was read ahead is given once, and never a written one.
const LINES: [Step; 10] = [
    (Call::Read, 32_776, 0),
    (Call::Write, 32_777, 7),
    (Call::Read, 32_777, 7),
    (Call::WriteRun, 32_784, 8),
    (Call::ReadRun, 32_784, 8),
    (Call::Read, 32_800, 0),
    (Call::ReadRun, 32_808, 0),
    (Call::WriteBeside, 32_810, 9),
    (Call::WriteRunBeside, 32_808, 9),
    (Call::ReadRun, 32_808, 9),
];

/// Does a call of a media, and tells whether it has the lines, the call doesn't fail, and what was read is so.
fn agrees<M: Media>(media: &mut M, call: Call, line: u64, number: u64) -> bool {
    if media.lines() < 8 || media.lines() - 8 < line {
        return false;
    }
    match call {
        Call::Read => match media.read(LineNo(line)) {
            Ok(words) => words == [number; 8],
            Err(_) => false,
        },
        Call::ReadRun => {
            let mut lines = [[1; 8]; 8];
            match media.read_run(LineNo(line), &mut lines) {
                Ok(()) => lines == [[number; 8]; 8],
                Err(_) => false,
            }
        }
        Call::Write | Call::WriteBeside => media.write(LineNo(line), &[number; 8]).is_ok(),
        Call::WriteRun | Call::WriteRunBeside => {
            media.write_run(LineNo(line), &[[number; 8]; 8]).is_ok()
        }
    }
}

/// The place of the first step that isn't so on a file of 36,000 lines of zeros, where there is one.
fn first_wrong(rt: &HostRuntime, name: &str, steps: &[Step]) -> Result<Option<usize>, Fail> {
    File::create(rt, name)?.set_len(64 * 36_000)?;
    let mut media = FileMedia::new(rt.alloc(), open_to_write(rt, name));
    let mut other = FileMedia::new(rt.alloc(), open_to_write(rt, name));
    for (place, (call, line, number)) in steps.iter().enumerate() {
        let by = match call {
            Call::WriteBeside | Call::WriteRunBeside => &mut other,
            _ => &mut media,
        };
        if !agrees(by, *call, *line, *number) {
            return Ok(Some(place));
        }
    }
    remove_file(rt, name)?;
    Ok(None)
}

/// Reads lines from one on, where the media has them, and tells how many were read.
fn read_of<M: Media>(media: &mut M, first: u64, lines: &mut [Line]) -> usize {
    if media.lines() < first || media.lines() - first < lines.len() as u64 {
        return 0;
    }
    match media.read_run(LineNo(first), lines) {
        Ok(()) => lines.len(),
        Err(failed) => failed.done,
    }
}

#[test]
fn what_was_read_ahead_is_gone_once_the_gate_is_read(rt: HostRuntime) -> Result<(), Fail> {
    assert!(rt; first_wrong(&rt, "gates", &GATES)? == None);
    Ok(())
}

#[test]
fn a_line_that_was_read_ahead_is_given_once_and_never_a_written_one(
    rt: HostRuntime,
) -> Result<(), Fail> {
    assert!(rt; first_wrong(&rt, "lines", &LINES)? == None);
    Ok(())
}

#[test]
fn a_run_past_the_end_has_the_lines_before_it(rt: HostRuntime) -> Result<(), Fail> {
    let file = File::create(&rt, "end")?;
    file.set_len(64 * 36_000)?;
    let mut media = FileMedia::new(rt.alloc(), open_to_write(&rt, "end"));
    file.set_len(64 * 35_000)?;
    let mut lines = [[1; 8]; 1100];
    assert!(rt; read_of(&mut media, 33_960, &mut lines) == 1040);
    assert!(rt; lines[1039] == [0; 8] && lines[1040] == [1; 8]);
    remove_file(&rt, "end")?;
    Ok(())
}
