//! A file as a media, with some lines of it read ahead. This is a trusted edge: what a real file holds, no clause
//! tells.
//!
//! The gate's line, and each line before it but the superblock's, is read by itself, and then all that was read ahead
//! is forgotten. Lines behind the gate's are read ahead, 4,096 bytes at first and 65,536 where a reader goes on, and
//! each of them is given once; a write moves what is ahead on behind its line. So what is given of slots and files
//! after a gate was read is never older than that gate. The superblock's three lines are read by one call with the
//! first of them. Any other read of the file takes their place, so while they are given the program has seen nothing of
//! the image that is newer than they are.
//!
//! A run of more than sixteen lines is read or written by one call for each 1,024 of them, through the room of what is
//! read ahead, which is forgotten then; but one that begins at the gate's line or before it is read line by line. A run
//! of few lines, such as a slot's, is read as its lines are one by one, from what was read ahead, and written by one
//! call that leaves what is ahead of others, so that a fence empties no read-ahead. A short write is carried on from
//! where it ended. Where a call fails, the line that has the next byte is named and no line is written again: one
//! behind it may be written already.

ghost use Rattle.std.specs.Prelude.{◌≡◌, ◌⊎◌, ◌≤◌, ◌<◌, ◌+◌, ◌-◌, ◌*◌, ◌↔◌, IsTrue, IfErr, IfSome, None, OnOk, length, vec_len};
ghost use Rattle.fam_media.specs.Causes.{HasCause};
ghost use Rattle.fam_media.specs.declared.media.TheConstants.{MOST_LINES};
ghost use Rattle.fam_format.specs.declared.layout.TheConstants.{GATE_LINE};
ghost use Rattle.fam_files.specs.Ahead.{AreBehindWrites, IsPast, IsPastUpTo, IsBehindRead, IsBehindWrite};

use byteorder::{ByteOrder, LittleEndian};
use fam_base::{Line, LineNo};
use fam_format::{GATE_LINE, LINE_BYTES};
use fam_media::{Failed, MOST_LINES, Media, RunFailed};
use std::alloc::Global;
use std::fs::File;
use std::io::{ErrorKind, Seek, SeekFrom};
use std::os::unix::fs::FileExt;

/// The bytes that are read ahead at most.
const PAGE_BYTES: usize = 65536;

/// The lines that are read or written by one call at most: those of a page.
const PAGE_LINES: usize = 1024;

/// The lines of a run that is written by one call of few bytes: those of a slot at most.
const FEW_LINES: usize = 16;

/// Their bytes.
const FEW_BYTES: usize = 1024;

/// The lines of a run that is read as its lines are one by one, so that what was read ahead serves: those of a row of slots at
/// most.
const ROW_LINES: usize = 128;

/// The bytes that are read ahead where no line before this one was given.
const FIRST_BYTES: usize = 4096;

/// The bytes of a superblock, from line 0 on.
const SUPERBLOCK_BYTES: usize = 192;

/// A file as a media: each line is read when it is asked for or ahead of that, and written at once. It models nothing
/// of its content, and counts its faults.
#[derive(Drop)]
pub struct FileMedia {
    file: Option<File>,
    lines: u64,
    faults: u64,
    /// Lines that were read ahead, from line `first` to `end`; those from `next` on may still be given.
    page: Vec<u8>,
    first: u64,
    next: u64,
    end: u64,
    /// The line that was read last and wasn't ahead.
    one: Line,
    ghost bounded: { lines ≤ MOST_LINES },
    ghost from: { first ≤ next },
    ghost held: { 64 * (end - first) ≤ vec_len page },
    ghost gate: { IsPast next end GATE_LINE },
}

/// How many whole lines a file or a block device has, at most those of 1 TiB, and none where its end can't be found. A
/// device's length isn't in its metadata, but its end can be found as a file's can.
fn lines_of(file: &mut File) -> Option<u64>
    ensures { IfSome result (λ lines. lines ≤ MOST_LINES) }
{
    match file.seek(SeekFrom::End(0)) {
        Ok(bytes) => Some((bytes / LINE_BYTES).min(MOST_LINES)),
        Err(_) => None,
    }
}

/// The first byte of a line.
fn byte_of(line: u64) -> u64
    requires within { line < MOST_LINES }
    ensures { result ≡ 64 * line }
{
    line * LINE_BYTES
}

/// Room for lines that are read ahead, or none where the heap has none.
fn page(alloc: Global) -> Vec<u8> {
    match vec![in alloc; 0u8; PAGE_BYTES] {
        Ok(bytes) => bytes,
        Err(_) => Vec::new(alloc),
    }
}

/// Reads so many bytes from a line on, or as many as there are, and says how many whole lines they are; none where the
/// file fails.
fn read_lines(file: &File, page: &mut Vec<u8>, wanted: usize, line: u64) -> Option<u64>
    requires within { line < MOST_LINES }
    ensures len { vec_len page.new ≡ vec_len page.old }
    ensures few { IfSome result (λ lines. (64 * lines ≤ wanted) × (64 * lines ≤ vec_len page.old)) }
{
    if page.len() < wanted {
        return Some(0);
    }
    match file.read_at(&mut page[..wanted], byte_of(line)) {
        Ok(got) => Some(got as u64 / LINE_BYTES),
        Err(_) => None,
    }
}

/// Reads bytes from a line on, by as many calls as the file asks for, and says how many were read: all of them unless one
/// failed or found the end.
fn read_bytes(file: &File, bytes: &mut [u8], line: u64) -> usize
    requires within { line < MOST_LINES }
    requires few { length bytes.old ≤ PAGE_BYTES }
    ensures few { result ≤ length bytes.old }
    ensures len { length bytes.new ≡ length bytes.old }
{
    let mut done = 0;
    for _ in 0..u64::MAX {
        if done == bytes.len() {
            return done;
        }
        match file.read_at(&mut bytes[done..], byte_of(line) + done as u64) {
            Ok(0) => return done,
            Ok(more) => done += more,
            Err(fault) => {
                if fault.kind() != ErrorKind::Interrupted {
                    return done;
                }
            }
        }
    }
    done
}

/// Writes bytes from a line on, by as many calls as the file asks for, and says how many were written: all of them unless
/// one failed.
fn write_bytes(file: &File, bytes: &[u8], line: u64) -> usize
    requires within { line < MOST_LINES }
    requires few { length bytes.now ≤ PAGE_BYTES }
    ensures few { result ≤ length bytes.now }
{
    let mut done = 0;
    for _ in 0..u64::MAX {
        if done == bytes.len() {
            return done;
        }
        match file.write_at(&bytes[done..], byte_of(line) + done as u64) {
            Ok(0) => return done,
            Ok(more) => done += more,
            Err(fault) => {
                if fault.kind() != ErrorKind::Interrupted {
                    return done;
                }
            }
        }
    }
    done
}

/// The words of lines, of which the bytes have all.
fn put_words(bytes: &[u8], lines: &mut [Line])
    requires enough { 64 * length lines.old ≤ length bytes.now }
    requires few { length lines.old ≤ PAGE_LINES }
    ensures len { length lines.new ≡ length lines.old }
{
    for k in 0..lines.len() {
        let mut words = [0; 8];
        LittleEndian::read_u64_into(&bytes[64 * k..64 * k + 64], &mut words);
        lines[k] = words;
    }
}

/// The bytes of lines, for which there is room.
fn put_bytes(lines: &[Line], bytes: &mut [u8])
    requires enough { 64 * length lines.now ≤ length bytes.old }
    requires few { length lines.now ≤ PAGE_LINES }
    ensures len { length bytes.new ≡ length bytes.old }
{
    for k in 0..lines.len() {
        let words = lines[k];
        LittleEndian::write_u64_into(&words, &mut bytes[64 * k..64 * k + 64]);
    }
}

/// Reads lines by one call but for short reads, through a page, and says how many were read.
fn read_page(file: &File, page: &mut Vec<u8>, first: u64, lines: &mut [Line]) -> usize
    requires within { first < MOST_LINES }
    requires few { length lines.old ≤ PAGE_LINES }
    requires room { PAGE_BYTES ≤ vec_len page.old }
    ensures few { result ≤ length lines.old }
    ensures len { length lines.new ≡ length lines.old }
    ensures page { vec_len page.new ≡ vec_len page.old }
{
    let done = read_bytes(file, &mut page[..64 * lines.len()], first) / 64;
    put_words(&page[..64 * done], &mut lines[..done]);
    done
}

/// Writes lines by one call but for short writes, through a page, and says how many were written whole.
fn write_page(file: &File, page: &mut Vec<u8>, first: u64, lines: &[Line]) -> usize
    requires within { first < MOST_LINES }
    requires few { length lines.now ≤ PAGE_LINES }
    requires room { PAGE_BYTES ≤ vec_len page.old }
    ensures few { result ≤ length lines.now }
    ensures page { vec_len page.new ≡ vec_len page.old }
{
    let end = 64 * lines.len();
    put_bytes(lines, &mut page[..end]);
    write_bytes(file, &page[..end], first) / 64
}

impl FileMedia {
    /// The lines of a file. One that couldn't be opened, or that has fewer than 64 bytes, has no lines; nor has one whose
    /// end can't be found, and then that fault is counted.
    pub fn new(alloc: Global, mut file: Option<File>) -> FileMedia
        ensures none { file ≡ None → ⟦<FileMedia as Media>⟧.size result ≡ 0 }
        ensures faults { (⟦<FileMedia as Media>⟧.state result).faults ≡ 0
            ⊎ ((⟦<FileMedia as Media>⟧.state result).faults ≡ 1 × ⟦<FileMedia as Media>⟧.size result ≡ 0) }
    {
        let (lines, faults) = match &mut file {
            Some(file) => match lines_of(file) {
                Some(lines) => (lines, 0),
                None => (0, 1),
            },
            None => (0, 0),
        };
        FileMedia {
            file,
            lines,
            faults,
            page: page(alloc),
            first: 0,
            next: 0,
            end: 0,
            one: [0; 8],
        }
    }

    /// Whether a line was read ahead, and may still be given.
    #[inline(always)]
    fn is_ahead(&self, line: u64) -> bool
        ensures { IsTrue result ↔ ((self.now.next ≤ line) × (line < self.now.end)) }
    {
        self.next <= line && line < self.end
    }

    /// Gives a line that was read ahead, for the one time.
    #[inline(always)]
    fn take(&mut self, line: u64) -> Line
        requires ahead { (self.old.next ≤ line) × (line < self.old.end) }
        requires within { line < MOST_LINES }
        ensures next { self.new.next ≡ line + 1 }
        ensures end { self.new.end ≡ self.old.end }
        ensures lines { self.new.lines ≡ self.old.lines }
        ensures faults { self.new.faults ≡ self.old.faults }
    {
        let start = (line - self.first) as usize * 64;
        let mut words = [0; 8];
        LittleEndian::read_u64_into(&self.page[start..start + 64], &mut words);
        self.next = line + 1;
        words
    }

    /// How many bytes are read ahead from a line on: a superblock, or more where the reader comes from the lines that were
    /// read ahead before.
    fn wanted(&self, line: u64) -> usize
        ensures first { line ≡ 0 → result ≡ SUPERBLOCK_BYTES }
    {
        if line == 0 {
            return SUPERBLOCK_BYTES;
        }
        if self.first < self.end && line == self.end {
            return PAGE_BYTES;
        }
        FIRST_BYTES
    }

    /// Reads ahead from a line on. Where that fails the fault is counted, and no line is ahead.
    fn fill(&mut self, line: u64)
        requires within { line < MOST_LINES }
        requires gate { (line ≡ 0) ⊎ (GATE_LINE < line) }
        ensures next { self.new.next ≡ line }
        ensures lines { self.new.lines ≡ self.old.lines }
        ensures faults { self.old.faults ≤ self.new.faults }
    {
        let wanted = self.wanted(line);
        self.first = line;
        self.next = line;
        self.end = line;
        let Some(file) = &self.file else {
            return;
        };
        match read_lines(file, &mut self.page, wanted, line) {
            Some(got) => self.end = line + got,
            None => self.faults = self.faults.saturating_add(1),
        }
    }

    /// Reads a line that isn't ahead: those up to the gate's by themselves, but for the first one, and others with some ahead.
    /// The gate's line is never ahead, since the lines from `next` on are never before the one that was asked for, and with the
    /// first one only the superblock's are read.
    #[inline(never)]
    fn read_other(&mut self, line: u64) -> Result<(), Failed>
        requires within { line < MOST_LINES }
        ensures ahead { IsBehindRead self.new.next self.new.end line }
        ensures lines { self.new.lines ≡ self.old.lines }
        ensures cause { HasCause self.old.faults self.new.faults result }
    {
        if 0 < line && line <= GATE_LINE {
            self.end = 0;
            return self.read_one(line);
        }
        self.fill(line);
        if self.is_ahead(line) {
            self.one = self.take(line);
            return Ok(());
        }
        self.read_one(line)
    }

    /// Reads lines by one call, and says how many were read. What was read ahead is forgotten.
    fn read_together(&mut self, first: u64, lines: &mut [Line]) -> usize
        requires within { first + length lines.old ≤ self.old.lines }
        requires few { length lines.old ≤ PAGE_LINES }
        requires some { 0 < length lines.old }
        requires room { PAGE_BYTES ≤ vec_len self.old.page }
        ensures few { result ≤ length lines.old }
        ensures len { length lines.new ≡ length lines.old }
        ensures page { vec_len self.new.page ≡ vec_len self.old.page }
        ensures ahead { self.new.end ≡ 0 }
        ensures next { self.new.next ≡ self.old.next }
        ensures lines { self.new.lines ≡ self.old.lines }
        ensures faults { self.new.faults ≡ self.old.faults }
    {
        self.end = 0;
        match &self.file {
            Some(file) => read_page(file, &mut self.page, first, lines),
            None => 0,
        }
    }

    /// Writes lines by one call, and says how many were written whole. What was read ahead is forgotten.
    fn write_together(&mut self, first: u64, lines: &[Line]) -> usize
        requires within { first + length lines.now ≤ self.old.lines }
        requires few { length lines.now ≤ PAGE_LINES }
        requires some { 0 < length lines.now }
        requires room { PAGE_BYTES ≤ vec_len self.old.page }
        ensures few { result ≤ length lines.now }
        ensures page { vec_len self.new.page ≡ vec_len self.old.page }
        ensures ahead { self.new.end ≡ 0 }
        ensures next { self.new.next ≡ self.old.next }
        ensures lines { self.new.lines ≡ self.old.lines }
        ensures faults { self.new.faults ≡ self.old.faults }
    {
        self.end = 0;
        match &self.file {
            Some(file) => write_page(file, &mut self.page, first, lines),
            None => 0,
        }
    }

    /// Reads lines one by one.
    fn read_each(&mut self, first: u64, lines: &mut [Line]) -> Result<(), RunFailed>
        requires within { first + length lines.old ≤ self.old.lines }
        ensures before { IfErr result (λ failed. failed.done < length lines.old) }
        ensures ahead { OnOk result (0 < length lines.old → IsPastUpTo self.new.next self.new.end (first + length lines.old)) }
        ensures len { length lines.new ≡ length lines.old }
        ensures lines { self.new.lines ≡ self.old.lines }
        ensures cause { HasCause self.old.faults self.new.faults result }
    {
        for k in 0..lines.len() {
            match self.read(LineNo(first + k as u64)) {
                Ok(words) => lines[k] = words,
                Err(_) => return Err(RunFailed { done: k }),
            }
        }
        Ok(())
    }

    /// Reads the lines of a row: at once where all of them were read ahead, and else one by one.
    #[inline]
    fn read_row(&mut self, first: u64, lines: &mut [Line]) -> Result<(), RunFailed>
        requires within { first + length lines.old ≤ self.old.lines }
        requires few { length lines.old ≤ ROW_LINES }
        ensures before { IfErr result (λ failed. failed.done < length lines.old) }
        ensures ahead { OnOk result (0 < length lines.old → IsPastUpTo self.new.next self.new.end (first + length lines.old)) }
        ensures len { length lines.new ≡ length lines.old }
        ensures lines { self.new.lines ≡ self.old.lines }
        ensures cause { HasCause self.old.faults self.new.faults result }
    {
        let end = first + lines.len() as u64;
        if !self.is_ahead(first) || self.end < end {
            return self.read_each(first, lines);
        }
        let start = (first - self.first) as usize * 64;
        put_words(&self.page[start..start + 64 * lines.len()], lines);
        self.next = end;
        Ok(())
    }

    /// Those of few lines that were read ahead aren't given any more, nor those before them.
    fn pass(&mut self, first: u64, end: u64)
        requires { first ≤ end }
        ensures ahead { AreBehindWrites self.old.next self.old.end self.new.next self.new.end first end }
        ensures lines { self.new.lines ≡ self.old.lines }
        ensures faults { self.new.faults ≡ self.old.faults }
    {
        if first < self.end && self.next < end {
            self.next = end;
        }
    }

    /// Writes few lines by one call. What was read ahead of others stays.
    fn write_few(&mut self, first: u64, lines: &[Line]) -> Result<(), RunFailed>
        requires within { first + length lines.now ≤ self.old.lines }
        requires few { length lines.now ≤ FEW_LINES }
        ensures before { IfErr result (λ failed. failed.done < length lines.now) }
        ensures ahead { AreBehindWrites self.old.next self.old.end self.new.next self.new.end first (first + length lines.now) }
        ensures lines { self.new.lines ≡ self.old.lines }
        ensures cause { HasCause self.old.faults self.new.faults result }
    {
        if lines.is_empty() {
            return Ok(());
        }
        self.pass(first, first + lines.len() as u64);
        let mut bytes = [0; FEW_BYTES];
        let end = 64 * lines.len();
        put_bytes(lines, &mut bytes[..end]);
        let done = match &self.file {
            Some(file) => write_bytes(file, &bytes[..end], first) / 64,
            None => 0,
        };
        if done == lines.len() {
            return Ok(());
        }
        self.faults = self.faults.saturating_add(1);
        Err(RunFailed { done })
    }

    /// Writes lines one by one.
    fn write_each(&mut self, first: u64, lines: &[Line]) -> Result<(), RunFailed>
        requires within { first + length lines.now ≤ self.old.lines }
        ensures before { IfErr result (λ failed. failed.done < length lines.now) }
        ensures ahead { OnOk result (AreBehindWrites self.old.next self.old.end self.new.next self.new.end first (first + length lines.now)) }
        ensures lines { self.new.lines ≡ self.old.lines }
        ensures cause { HasCause self.old.faults self.new.faults result }
    {
        for k in 0..lines.len() {
            if self.write(LineNo(first + k as u64), &lines[k]).is_err() {
                return Err(RunFailed { done: k });
            }
        }
        Ok(())
    }

    /// Reads a line by itself.
    fn read_one(&mut self, line: u64) -> Result<(), Failed>
        requires within { line < MOST_LINES }
        ensures next { self.new.next ≡ self.old.next }
        ensures end { self.new.end ≡ self.old.end }
        ensures lines { self.new.lines ≡ self.old.lines }
        ensures cause { HasCause self.old.faults self.new.faults result }
    {
        let mut bytes = [0; 64];
        if let Some(file) = &self.file {
            if file.read_exact_at(&mut bytes, byte_of(line)).is_ok() {
                LittleEndian::read_u64_into(&bytes, &mut self.one);
                return Ok(());
            }
        }
        self.faults = self.faults.saturating_add(1);
        Err(Failed)
    }
}

impl Media for FileMedia {
    ghost size = { λ media. media.lines };

    ghost state = { λ media. record { image = None; faults = media.faults } };

    ghost reads = { λ old line failed new. IsBehindRead new.next new.end line };

    ghost writes = { λ old line words failed new. IsBehindWrite old.next old.end new.next new.end line };

    ghost normal = { λ m. tt };

    ghost modelled = { λ m content e. Prim.cc };

    fn lines(&self) -> u64 {
        self.lines
    }

    #[inline(always)]
    fn read(&mut self, line: LineNo) -> Result<Line, Failed> {
        if self.is_ahead(line.0) {
            return Ok(self.take(line.0));
        }
        self.read_other(line.0)?;
        Ok(self.one)
    }

    fn write(&mut self, line: LineNo, words: &Line) -> Result<(), Failed> {
        let mut bytes = [0; 64];
        LittleEndian::write_u64_into(words, &mut bytes);
        if self.is_ahead(line.0) {
            self.next = line.0 + 1;
        }
        if let Some(file) = &self.file {
            if file.write_all_at(&bytes, byte_of(line.0)).is_ok() {
                return Ok(());
            }
        }
        self.faults = self.faults.saturating_add(1);
        Err(Failed)
    }

    /// By one call for the lines of a page. The lines of a row come from what was read ahead, and those up to the gate's, and lines
    /// where there is no page, are read one by one.
    fn read_run(&mut self, first: LineNo, lines: &mut [Line]) -> Result<(), RunFailed> {
        if lines.len() <= ROW_LINES {
            return self.read_row(first.0, lines);
        }
        if first.0 <= GATE_LINE || self.page.len() < PAGE_BYTES {
            return self.read_each(first.0, lines);
        }
        let mut from = 0;
        while from < lines.len() {
            let count = PAGE_LINES.min(lines.len() - from);
            let done = self.read_together(first.0 + from as u64, &mut lines[from..from + count]);
            if done < count {
                self.faults = self.faults.saturating_add(1);
                return Err(RunFailed { done: from + done });
            }
            from += count;
        }
        Ok(())
    }

    /// By one call for few lines, or for those of a page, or one by one where there is no page. Where a call fails behind so many
    /// bytes, the line that has the next one is the one that failed, and no line is written again.
    fn write_run(&mut self, first: LineNo, lines: &[Line]) -> Result<(), RunFailed> {
        if lines.len() <= FEW_LINES {
            return self.write_few(first.0, lines);
        }
        if self.page.len() < PAGE_BYTES {
            return self.write_each(first.0, lines);
        }
        let mut from = 0;
        while from < lines.len() {
            let count = PAGE_LINES.min(lines.len() - from);
            let done = self.write_together(first.0 + from as u64, &lines[from..from + count]);
            if done < count {
                self.faults = self.faults.saturating_add(1);
                return Err(RunFailed { done: from + done });
            }
            from += count;
        }
        Ok(())
    }
}
