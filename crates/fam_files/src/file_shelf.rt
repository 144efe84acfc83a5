//! The files of the system as a shelf. This is a trusted edge: what a real file holds, no clause tells.
//!
//! Regular files and block devices are sources. What comes through the standard input is one too where it is a pipe or a
//! socket and is asked for as `/dev/stdin`: it is read whole when its size is asked for. Whatever else a name stands for, be
//! it a named pipe, a terminal or a closed standard input, has no size that can be known beforehand, and is a fault.

ghost use Rattle.std.specs.Prelude.{◌≡◌, ◌-◌, ◌<◌, ◌≤◌, IfSome, IsSomeAnd, IsTrue, None, OnSome, drop, length, min, take, vec_len};

use crate::open_file::open_to_read;
use fam_base::NameText;
use fam_media::{Failed, Shelf};
use std::fs;
use std::fs::File;
use std::io::{ErrorKind, Read, Seek, SeekFrom};
use std::mem::replace;
use std::os::unix::fs::{FileExt, FileTypeExt};

/// The bytes that are read in one call at most where little is asked for, or where memory lacks.
const PIECE_BYTES: usize = 16384;

/// The bytes that are read in one call at most where more is asked for.
const ROOM_BYTES: usize = 262_144;

/// The name of the standard input.
const INPUT: &str = "/dev/stdin";

/// The bytes that the standard input may have at most where it is no file: those of the longest script.
const INPUT_BYTES: usize = 16_777_216;

/// What is read from.
#[derive(Drop)]
enum Source {
    /// A file, which is opened once for its reads.
    File(File),
    /// The bytes that came through the standard input.
    Input(Vec<u8>),
}

/// The files of the system. It models nothing of their content, and counts its faults and the reads that gave no byte.
#[derive(Drop)]
pub struct FileShelf<'a> {
    rt: &'a HostRuntime,
    faults: u64,
    shorts: u64,
    /// What is being read, with its name.
    open: Option<(NameText, Source)>,
    /// Where large reads go through: none before the first of them.
    room: Vec<u8>,
}

/// No file has the name: nothing stands there, or a folder does, or the name can't be one.
fn is_absent(kind: ErrorKind) -> bool {
    matches!(
        kind,
        ErrorKind::NotFound | ErrorKind::NotADirectory | ErrorKind::InvalidInput
    )
}

/// Whether bytes come through it until its other end is closed.
fn is_stream(kind: fs::FileType) -> bool {
    kind.is_fifo() || kind.is_socket()
}

/// Copies bytes from a place on, as many as there are and fit, and says how many.
fn copied(bytes: &[u8], offset: u64, piece: &mut [u8]) -> usize
    ensures count { result ≡ min (length piece.old) (length bytes.now - offset) }
    ensures bytes { take result piece.new ≡ take result (drop offset bytes.now) }
    ensures len { length piece.new ≡ length piece.old }
{
    let start = offset.min(bytes.len() as u64) as usize;
    let count = piece.len().min(bytes.len() - start);
    piece[..count].copy_from_slice(&bytes[start..start + count]);
    count
}

/// Makes room for large reads where it is missing, and says whether there is memory for that.
fn has_room(room: &mut Vec<u8>) -> bool
    ensures { IsTrue result → vec_len room.new ≡ ROOM_BYTES }
{
    room.len() == ROOM_BYTES || room.resize(ROOM_BYTES, 0).is_ok()
}

impl<'a> FileShelf<'a> {
    /// All files that the process may read.
    pub fn new(rt: &'a HostRuntime) -> FileShelf<'a>
        ensures faults { (⟦<FileShelf<'a> as Shelf>⟧.state result).faults ≡ 0 }
        ensures shorts { (⟦<FileShelf<'a> as Shelf>⟧.state result).shorts ≡ 0 }
    {
        FileShelf {
            rt,
            faults: 0,
            shorts: 0,
            open: None,
            room: Vec::new(rt.alloc()),
        }
    }

    /// Whether this is what is being read.
    fn is_open(&self, name: &str) -> bool
        ensures { IsTrue result → IsSomeAnd self.now.«open» (λ source. source.0 ≡ name.now) }
    {
        match &self.open {
            Some(open) => open.0.text() == name,
            None => false,
        }
    }

    /// Opens a file in place of what was being read.
    fn open(&mut self, name: &str) -> Option<()>
        ensures source { OnSome result (IsSomeAnd self.new.«open» (λ source. source.0 ≡ name.now)) }
        ensures faults { self.new.faults ≡ self.old.faults }
        ensures shorts { self.new.shorts ≡ self.old.shorts }
    {
        self.open = None;
        let name = NameText::new(self.rt.alloc(), name).ok()?;
        let file = open_to_read(self.rt, name.text())?;
        self.open = Some((name, Source::File(file)));
        Some(())
    }

    /// Where a block device ends, in bytes.
    fn end_of(&self, name: &str) -> Option<u64> {
        let mut file = open_to_read(self.rt, name)?;
        file.seek(SeekFrom::End(0)).ok()
    }

    /// All that comes through the standard input, and none where it fails or there are too many bytes.
    fn input(&self) -> Option<Vec<u8>> {
        let mut input = self.rt.stdin();
        let mut bytes = Vec::new(self.rt.alloc());
        let mut piece = [0u8; PIECE_BYTES];
        for _ in 0..=INPUT_BYTES {
            let count = input.read(&mut piece).ok()?;
            if count == 0 {
                return Some(bytes);
            }
            bytes.extend_from_slice(piece.get(..count)?).ok()?;
            if bytes.len() > INPUT_BYTES {
                return None;
            }
        }
        None
    }

    /// How many bytes come through the standard input, which are kept for the reads behind.
    fn size_of_input(&mut self) -> Option<u64>
        ensures faults { self.new.faults ≡ self.old.faults }
        ensures shorts { self.new.shorts ≡ self.old.shorts }
    {
        let bytes = self.input()?;
        let size = bytes.len() as u64;
        let name = NameText::new(self.rt.alloc(), INPUT).ok()?;
        self.open = Some((name, Source::Input(bytes)));
        Some(size)
    }

    /// The bytes of what stands under a name that is no folder, and none where it is no source.
    fn size_of(&mut self, name: &str, metadata: &fs::Metadata) -> Option<u64>
        ensures faults { self.new.faults ≡ self.old.faults }
        ensures shorts { self.new.shorts ≡ self.old.shorts }
    {
        if metadata.is_file() {
            Some(metadata.len())
        } else if metadata.file_type().is_block_device() {
            self.end_of(name)
        } else if name == INPUT && is_stream(metadata.file_type()) {
            self.size_of_input()
        } else {
            None
        }
    }

    /// Reads from a source, and says how many bytes.
    fn read(&mut self, name: &str, offset: u64, piece: &mut [u8]) -> Option<usize>
        requires some { 0 < length piece.old }
        ensures source { OnSome result (IsSomeAnd self.new.«open» (λ source. source.0 ≡ name.now)) }
        ensures within { IfSome result (λ count. count ≤ length piece.old) }
        ensures len { length piece.new ≡ length piece.old }
        ensures faults { self.new.faults ≡ self.old.faults }
        ensures shorts { self.new.shorts ≡ self.old.shorts }
    {
        if !self.is_open(name) {
            self.open(name)?;
        }
        match &self.open {
            Some((_, Source::File(file))) => file.read_at(piece, offset).ok(),
            Some((_, Source::Input(bytes))) => Some(copied(bytes, offset, piece)),
            None => None,
        }
    }

    /// Reads from a source through a piece into the front of `into`, and says how many bytes. A read that fails leaves
    /// `into` as it was.
    fn read_through(
        &mut self,
        piece: &mut [u8],
        name: &str,
        offset: u64,
        into: &mut [u8],
    ) -> Option<usize>
        requires some { (0 < length piece.old) × (0 < length into.old) }
        ensures bytes { IfSome result (λ count. take count into.new ≡ take count piece.new) }
        ensures within { IfSome result (λ count. count ≤ length into.old) }
        ensures rest { IfSome result (λ count. drop count into.new ≡ drop count into.old) }
        ensures none { result ≡ None → into.new ≡ into.old }
        ensures faults { self.new.faults ≡ self.old.faults }
        ensures shorts { self.new.shorts ≡ self.old.shorts }
    {
        let most = into.len().min(piece.len());
        let count = self.read(name, offset, &mut piece[..most])?;
        into[..count].copy_from_slice(&piece[..count]);
        Some(count)
    }

    /// As `read_through`, through a piece of its own.
    fn read_small(&mut self, name: &str, offset: u64, into: &mut [u8]) -> Option<usize>
        requires some { 0 < length into.old }
        ensures within { IfSome result (λ count. count ≤ length into.old) }
        ensures rest { IfSome result (λ count. drop count into.new ≡ drop count into.old) }
        ensures none { result ≡ None → into.new ≡ into.old }
        ensures faults { self.new.faults ≡ self.old.faults }
        ensures shorts { self.new.shorts ≡ self.old.shorts }
    {
        let mut piece = [0u8; PIECE_BYTES];
        self.read_through(&mut piece, name, offset, into)
    }

    /// As `read_through`, through the shelf's room, or where there is no memory for that through a piece.
    fn read_large(&mut self, name: &str, offset: u64, into: &mut [u8]) -> Option<usize>
        requires some { 0 < length into.old }
        ensures within { IfSome result (λ count. count ≤ length into.old) }
        ensures rest { IfSome result (λ count. drop count into.new ≡ drop count into.old) }
        ensures none { result ≡ None → into.new ≡ into.old }
        ensures faults { self.new.faults ≡ self.old.faults }
        ensures shorts { self.new.shorts ≡ self.old.shorts }
    {
        let mut room = replace(&mut self.room, Vec::new(self.rt.alloc()));
        let count = if has_room(&mut room) {
            self.read_through(room.as_mut_slice(), name, offset, into)
        } else {
            self.read_small(name, offset, into)
        };
        self.room = room;
        count
    }
}

impl Shelf for FileShelf<'_> {
    ghost state = { λ shelf. record { files = None; faults = shelf.faults; shorts = shelf.shorts } };

    fn size(&mut self, name: &str) -> Result<Option<u64>, Failed> {
        self.open = None;
        let size = match fs::metadata(self.rt, name) {
            Ok(metadata) if metadata.is_dir() => return Ok(None),
            Ok(metadata) => self.size_of(name, &metadata),
            Err(error) if is_absent(error.kind()) => return Ok(None),
            Err(_) => None,
        };
        if size.is_none() {
            self.faults = self.faults.saturating_add(1);
            return Err(Failed);
        }
        Ok(size)
    }

    fn read_at(&mut self, name: &str, offset: u64, into: &mut [u8]) -> Result<usize, Failed> {
        let read = if into.len() > PIECE_BYTES {
            self.read_large(name, offset, into)
        } else {
            self.read_small(name, offset, into)
        };
        let Some(count) = read else {
            self.faults = self.faults.saturating_add(1);
            return Err(Failed);
        };
        if count == 0 {
            self.shorts = self.shorts.saturating_add(1);
        }
        Ok(count)
    }
}
