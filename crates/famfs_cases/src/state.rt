//! What a case has at hand: an image and another one, files of the shelf, a folder, and the calls that are to fail.

use crate::bytes::{copied_text, push};
use crate::folder::{File, Folder};
use crate::stop::Stop;
use fam_base::{Line, LineNo, Mask};
use fam_media::{Frail, Media, MemMedia, MemShelf, MemSink};
use std::alloc::Global;
use std::mem::replace;
use uuid::Uuid;

/// The host of a case that names no other: 00000000-0000-0000-0000-000000000001.
const HOST: [u8; 16] = [0, 0, 0, 0, 0, 0, 0, 0, 0, 0, 0, 0, 0, 0, 0, 1];

/// The bytes that a sink has room for where a case says nothing of it.
const ROOM: u64 = 1_048_576;

/// A file of which reads give no byte at `at` or past it.
#[derive(Drop)]
struct Cut {
    name: String,
    at: u64,
}

/// A call of the media that is to fail, counted from the next one, and the words that it lets through.
#[derive(Clone, Copy)]
struct MediaFailure {
    call: u64,
    mask: Mask,
}

/// A put that is to fail, counted from the next one, and how many bytes it keeps.
#[derive(Clone, Copy)]
struct SinkFailure {
    call: u64,
    kept: u64,
}

/// What a case has at hand.
#[derive(Drop)]
pub struct State {
    pub media: MemMedia,
    /// The image that a copy is made on.
    pub other: MemMedia,
    pub host: Uuid,
    pub random: [u8; 16],
    pub room: u64,
    pub folder: Folder,
    files: Vec<File>,
    cuts: Vec<Cut>,
    /// The lines of the image that fail.
    poisoned: Vec<LineNo>,
    media_failures: Vec<MediaFailure>,
    other_failures: Vec<MediaFailure>,
    shelf_failures: Vec<u64>,
    sink_failures: Vec<SinkFailure>,
}

/// Writes a line, where the media has it and no call was planned to fail here.
pub fn put_line(media: &mut MemMedia, at: u64, words: &Line) -> bool {
    if at >= media.lines() {
        return false;
    }
    media.write(LineNo(at), words).is_ok()
}

/// A line, where the media has it.
pub fn line_at(media: &MemMedia, at: u64) -> Option<Line> {
    if at < media.lines() {
        Some(media.line(LineNo(at)))
    } else {
        None
    }
}

/// A media with the first lines of another one, of which no call is to fail. It has so many lines, or fewer where the
/// other one has fewer.
pub fn first_lines(alloc: Global, media: &MemMedia, count: u64) -> Result<MemMedia, Stop> {
    let count = count.min(media.lines());
    let mut copy = MemMedia::new(alloc, count)?;
    for at in 0..count {
        if let Some(line) = line_at(media, at) {
            if line != [0; 8] {
                let _ = put_line(&mut copy, at, &line);
            }
        }
    }
    Ok(copy)
}

/// Hands a media the calls that are to fail, counted from its next one.
fn plan_calls(media: &mut MemMedia, failures: &mut Vec<MediaFailure>) -> Result<(), Stop> {
    let next = media.calls();
    for failure in failures.iter() {
        media.fail(next.saturating_add(failure.call), failure.mask)?;
    }
    failures.clear();
    Ok(())
}

fn copied_files(alloc: Global, files: &Vec<File>) -> Result<Vec<File>, Stop> {
    let mut copies = Vec::new(alloc);
    for file in files.iter() {
        push(&mut copies, file.copy(alloc)?)?;
    }
    Ok(copies)
}

fn copied_cuts(alloc: Global, cuts: &Vec<Cut>) -> Result<Vec<Cut>, Stop> {
    let mut copies = Vec::new(alloc);
    for cut in cuts.iter() {
        let name = copied_text(alloc, cut.name.as_str())?;
        push(&mut copies, Cut { name, at: cut.at })?;
    }
    Ok(copies)
}

impl State {
    /// Images without lines, an empty shelf, and nothing planned.
    pub fn new(alloc: Global) -> Result<State, Stop> {
        Ok(State {
            media: MemMedia::new(alloc, 0)?,
            other: MemMedia::new(alloc, 0)?,
            host: Uuid::from_bytes(HOST),
            random: [0; 16],
            room: ROOM,
            folder: Folder::new(alloc),
            files: Vec::new(alloc),
            cuts: Vec::new(alloc),
            poisoned: Vec::new(alloc),
            media_failures: Vec::new(alloc),
            other_failures: Vec::new(alloc),
            shelf_failures: Vec::new(alloc),
            sink_failures: Vec::new(alloc),
        })
    }

    /// A copy, of which those calls are to fail that were planned behind the last run. Its folder has what it had at first.
    pub fn copy(&self, alloc: Global) -> Result<State, Stop> {
        Ok(State {
            media: first_lines(alloc, &self.media, self.media.lines())?,
            other: first_lines(alloc, &self.other, self.other.lines())?,
            host: self.host,
            random: self.random,
            room: self.room,
            folder: self.folder.renewed(alloc)?,
            files: copied_files(alloc, &self.files)?,
            cuts: copied_cuts(alloc, &self.cuts)?,
            poisoned: Vec::from_slice(alloc, self.poisoned.as_slice())?,
            media_failures: Vec::from_slice(alloc, self.media_failures.as_slice())?,
            other_failures: Vec::from_slice(alloc, self.other_failures.as_slice())?,
            shelf_failures: Vec::from_slice(alloc, self.shelf_failures.as_slice())?,
            sink_failures: Vec::from_slice(alloc, self.sink_failures.as_slice())?,
        })
    }

    /// The shelf has this file from now on.
    pub fn add_file(&mut self, file: File) -> Result<(), Stop> {
        push(&mut self.files, file)
    }

    /// Reads of that name give no byte at `at` or past it from now on.
    pub fn cut_file(&mut self, name: String, at: u64) -> Result<(), Stop> {
        push(&mut self.cuts, Cut { name, at })
    }

    /// The bytes of a name.
    pub fn file(&self, name: &str) -> Option<&[u8]> {
        for file in self.files.iter().rev() {
            if file.name.as_str() == name {
                return Some(file.bytes.as_slice());
            }
        }
        None
    }

    /// A call of the media will fail, counted from 0 for the next one, and where it is a write let the words of the mask
    /// through.
    pub fn fail_media(&mut self, call: u64, mask: Mask) -> Result<(), Stop> {
        push(&mut self.media_failures, MediaFailure { call, mask })
    }

    /// So of the other image.
    pub fn fail_other(&mut self, call: u64, mask: Mask) -> Result<(), Stop> {
        push(&mut self.other_failures, MediaFailure { call, mask })
    }

    /// A call of the shelf in the next run will fail.
    pub fn fail_shelf(&mut self, call: u64) -> Result<(), Stop> {
        push(&mut self.shelf_failures, call)
    }

    /// A put of the next run will fail, and keep at most so many bytes.
    pub fn fail_sink(&mut self, call: u64, kept: u64) -> Result<(), Stop> {
        push(&mut self.sink_failures, SinkFailure { call, kept })
    }

    /// Each access to a line of the image fails from now on, where the run is on this image alone.
    pub fn poison(&mut self, line: LineNo) -> Result<(), Stop> {
        push(&mut self.poisoned, line)
    }

    /// Accesses to a line fail no more.
    pub fn heal(&mut self, line: LineNo) {
        self.poisoned.retain(|l| *l != line);
    }

    /// Takes the image, with the lines that fail; its place has one without lines.
    pub fn take_frail(&mut self, alloc: Global) -> Result<Frail<MemMedia>, Stop> {
        let empty = MemMedia::new(alloc, 0)?;
        let mut frail = Frail::new(alloc, replace(&mut self.media, empty));
        for line in self.poisoned.iter() {
            frail.poison(*line)?;
        }
        Ok(frail)
    }

    /// Hands both images the calls that are to fail.
    pub fn plan_media(&mut self) -> Result<(), Stop> {
        plan_calls(&mut self.media, &mut self.media_failures)?;
        plan_calls(&mut self.other, &mut self.other_failures)
    }

    /// The shelf of the next run.
    pub fn shelf(&mut self, alloc: Global) -> Result<MemShelf, Stop> {
        let mut shelf = MemShelf::new(alloc);
        for file in self.files.iter() {
            shelf.add(file.name.as_str(), file.bytes.as_slice())?;
        }
        for cut in self.cuts.iter() {
            shelf.cut(cut.name.as_str(), cut.at)?;
        }
        for call in self.shelf_failures.iter() {
            shelf.fail(*call)?;
        }
        self.shelf_failures.clear();
        Ok(shelf)
    }

    /// The sink of the next run.
    pub fn sink(&mut self, alloc: Global) -> Result<MemSink, Stop> {
        let mut sink = MemSink::new(alloc, self.room)?;
        for failure in self.sink_failures.iter() {
            sink.fail(failure.call, failure.kept)?;
        }
        self.sink_failures.clear();
        Ok(sink)
    }
}
