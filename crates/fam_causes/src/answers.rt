//! What a question about a file would be answered. Nothing is said of these answers: each is tried by what fits.

ghost use Rattle.std.specs.Prelude.{◌≡◌, ◌≤◌, ◌%◌, length};
ghost use Rattle.fam_settled.specs.Settled.{settled_and_pending};

use fam_base::{Cmd, Content, Kind, Line, OutOfMemory, Path, SharedBytes};
use fam_content::{ContentStream, compare, lines_of};
use fam_format::byte_of;
use fam_history::{ToldAnswer, ToldCommand};
use fam_settled::{Bytes, Filed, Log};
use std::alloc::Global;

/// The path that a question names.
fn path_asked(cmd: &ToldCommand) -> Option<&Path> {
    match cmd {
        ToldCommand::Plain(Cmd::Verify { path, .. }) => Some(path),
        ToldCommand::Plain(Cmd::Read { path, .. }) => Some(path),
        ToldCommand::VerifySource { path, .. } => Some(path),
        _ => None,
    }
}

/// The first offset below the end at which two contents differ, with the bytes there.
fn first_difference(a: &Content, b: &Content, end: u64) -> Option<(u64, u8, u8)> {
    let mut first = ContentStream::new(a);
    let mut second = ContentStream::new(b);
    'lines: for j in 0..lines_of(end) {
        let found = first.line(a, end);
        let wanted = second.line(b, end);
        let differ = compare(&found, &wanted, 64 * j, end);
        if differ.is_some() {
            return differ;
        }
    }
    None
}

/// A verify of a file that has this content with another one.
fn compared_with(m: u64, content: &Content, size: u64, against: &Content) -> ToldAnswer {
    match first_difference(content, against, size) {
        Some((offset, found, wanted)) => ToldAnswer::Differs {
            entries: m,
            offset,
            found,
            wanted,
        },
        None => ToldAnswer::Same(m),
    }
}

/// A verify of a file with this content.
fn compared(m: u64, file: &Filed, against: &Content) -> ToldAnswer {
    let size = file.entry.size;
    match &file.bytes {
        Bytes::Zero => compared_with(m, &Content::Zero, size, against),
        Bytes::Seed(seed) => compared_with(m, &Content::Seed(*seed), size, against),
        Bytes::Held(held) => compared_with(m, held.content(), size, against),
        Bytes::Untold => ToldAnswer::Same(m),
    }
}

/// A verify of a file with so many bytes of a source.
fn compared_length(m: u64, size: u64, wanted: u64) -> ToldAnswer {
    if size == wanted {
        ToldAnswer::Same(m)
    } else {
        ToldAnswer::Length {
            entries: m,
            size,
            wanted,
        }
    }
}

/// Puts the bytes of a line, which begins at byte `start`, from an offset on and before the end.
fn put_line(
    line: &Line,
    start: u64,
    offset: u64,
    end: u64,
    into: &mut Vec<u8>,
) -> Result<(), OutOfMemory>
    requires { start % 64 ≡ 0 }
{
    'bytes: for b in 0..64 {
        let at = start + b as u64;
        if at >= offset && at < end && into.push(byte_of(line[b / 8], b % 8)).is_err() {
            return Err(OutOfMemory);
        }
    }
    Ok(())
}

/// The bytes of a content from an offset on and before the end.
fn bytes_between(
    alloc: Global,
    content: &Content,
    offset: u64,
    end: u64,
) -> Result<Vec<u8>, OutOfMemory> {
    let mut bytes = Vec::new(alloc);
    let mut stream = ContentStream::new(content);
    'lines: for j in 0..lines_of(end) {
        let line = stream.line(content, end);
        put_line(&line, 64 * j, offset, end, &mut bytes)?;
    }
    Ok(bytes)
}

/// A read of at most so many bytes from an offset on.
fn read(
    alloc: Global,
    m: u64,
    file: &Filed,
    offset: u64,
    count: u64,
) -> Result<Option<ToldAnswer>, OutOfMemory> {
    let end = file.entry.size.min(offset.saturating_add(count));
    let bytes = match &file.bytes {
        Bytes::Zero => bytes_between(alloc, &Content::Zero, offset, end)?,
        Bytes::Seed(seed) => bytes_between(alloc, &Content::Seed(*seed), offset, end)?,
        Bytes::Held(held) => bytes_between(alloc, held.content(), offset, end)?,
        Bytes::Untold => return Ok(None),
    };
    let bytes = SharedBytes::new(alloc, bytes)?;
    Ok(Some(ToldAnswer::Bytes(m, bytes)))
}

/// A question about a file.
fn file_answer(
    alloc: Global,
    m: u64,
    file: &Filed,
    cmd: &ToldCommand,
) -> Result<Option<ToldAnswer>, OutOfMemory> {
    match cmd {
        ToldCommand::Plain(Cmd::Verify { against, .. }) => Ok(Some(compared(m, file, against))),
        ToldCommand::Plain(Cmd::Read { offset, count, .. }) => {
            read(alloc, m, file, *offset, *count)
        }
        ToldCommand::VerifySource { count, .. } => {
            Ok(Some(compared_length(m, file.entry.size, *count)))
        }
        _ => Ok(None),
    }
}

/// What the question of a command is answered about the first `m` entries.
pub(crate) fn likely_answer(
    alloc: Global,
    log: &Log,
    m: u64,
    cmd: &ToldCommand,
) -> Result<Option<ToldAnswer>, OutOfMemory>
    requires { m ≤ length (settled_and_pending log.now) }
{
    let Some(path) = path_asked(cmd) else {
        return Ok(None);
    };
    let Some(file) = log.file_among(m, path)? else {
        return Ok(Some(ToldAnswer::NotFound(m)));
    };
    match file.entry.kind {
        Kind::Directory => Ok(Some(ToldAnswer::IsDirectory(m))),
        Kind::File => file_answer(alloc, m, &file, cmd),
    }
}
