//! The famfs command: what it does is the top call of fam_top; here the real image, shelf and output are made and handed
//! to it.
#![tactic(auto)]

use fam_base::{NameText, OutOfMemory};
use fam_files::{FileMedia, FileShelf, FolderShade, StdSink, open_to_read, open_to_write};
use fam_outcomes::Status;
use fam_top::{dup_of, famfs, famfs_dup, famfs_mail, famfs_shadow, image_of, mail_of, shadow_of};
use std::env;
use std::fs::File;
use std::io::ErrorKind;
use std::os::unix::fs::FileExt;
use std::process::ExitCode;
use uuid::Uuid;

/// The UUID of this host where no word names another: 00000000-0000-0000-0000-000000000001.
const SYSTEM: [u8; 16] = [0, 0, 0, 0, 0, 0, 0, 0, 0, 0, 0, 0, 0, 0, 0, 1];

/// The words after the program's name, and none where one of them isn't UTF-8.
fn given(rt: &HostRuntime) -> Result<Vec<String>, OutOfMemory> {
    let mut words = Vec::new(rt.alloc());
    let args = match env::args(rt) {
        Ok(args) => args,
        Err(error) => {
            return match error.kind() {
                ErrorKind::OutOfMemory => Err(OutOfMemory),
                _ => Ok(words),
            };
        }
    };
    for word in args.skip(1) {
        if words.push(word).is_err() {
            return Err(OutOfMemory);
        }
    }
    Ok(words)
}

/// Takes the numbers of those standard streams that are closed, so that no image is opened under one of them and
/// written over by the output. The files are to be held as long as an image is. None where one of them can't be opened:
/// then nobody knows which number an image would get.
fn streams(rt: &HostRuntime) -> Option<[File; 3]> {
    Some([null(rt)?, null(rt)?, null(rt)?])
}

/// A file that gives nothing, and that can't be written.
fn null(rt: &HostRuntime) -> Option<File> {
    File::open(rt, "/dev/null").ok()
}

/// Whether the words name a command that never writes its image, which therefore is opened for reading alone.
fn only_reads(words: &Vec<String>) -> bool {
    match words.first() {
        Some(command) => matches!(
            command.as_str(),
            "logplay" | "verify" | "read" | "check" | "fsck"
        ),
        None => false,
    }
}

/// Sixteen random bytes, or zeros where the system gives none.
fn random(rt: &HostRuntime) -> [u8; 16] {
    let mut bytes = [0; 16];
    if let Ok(file) = File::open(rt, "/dev/urandom") {
        if file.read_exact_at(&mut bytes, 0).is_err() {
            return [0; 16];
        }
    }
    bytes
}

/// Writes the shadow of the image's tree into a folder.
fn run_shadow(rt: &HostRuntime, words: &Vec<String>, image: NameText, folder: NameText) -> Status {
    let file = open_to_read(rt, image.text());
    let mut shade = FolderShade::new(rt, folder, file.as_ref());
    let mut media = FileMedia::new(rt.alloc(), file);
    let mut out = StdSink::new(rt.stdout());
    let me = Uuid::from_bytes(SYSTEM);
    famfs_shadow(rt.alloc(), words, me, &mut media, &mut shade, &mut out)
}

/// Copies the file system on one image onto another one. The first is opened for reading alone.
fn run_dup(rt: &HostRuntime, words: &Vec<String>, from: NameText, to: NameText) -> Status {
    let source = open_to_read(rt, from.text());
    let target = open_to_write(rt, to.text());
    let mut from = FileMedia::new(rt.alloc(), source);
    let mut to = FileMedia::new(rt.alloc(), target);
    let mut out = StdSink::new(rt.stdout());
    let me = Uuid::from_bytes(SYSTEM);
    famfs_dup(
        rt.alloc(),
        words,
        me,
        random(rt),
        &mut from,
        &mut to,
        &mut out,
    )
}

/// Runs a script over the mailbox that a file of the image holds.
fn run_mail(rt: &HostRuntime, words: &Vec<String>, image: NameText) -> Status {
    let file = open_to_write(rt, image.text());
    let mut media = FileMedia::new(rt.alloc(), file);
    let mut shelf = FileShelf::new(rt);
    let mut out = StdSink::new(rt.stdout());
    famfs_mail(rt.alloc(), words, &mut media, &mut shelf, &mut out)
}

/// Runs the command that the words name on the image that they name. Where the numbers of the standard streams can't be
/// held, no image is opened, and the output counts as failed.
fn run(rt: &HostRuntime, words: &Vec<String>) -> Result<Status, OutOfMemory> {
    let Some(_streams) = streams(rt) else {
        return Ok(Status::SinkFault);
    };
    if let Some((image, folder)) = shadow_of(rt.alloc(), words)? {
        return Ok(run_shadow(rt, words, image, folder));
    }
    if let Some((from, to)) = dup_of(rt.alloc(), words)? {
        return Ok(run_dup(rt, words, from, to));
    }
    if let Some(image) = mail_of(rt.alloc(), words)? {
        return Ok(run_mail(rt, words, image));
    }
    let file = match image_of(rt.alloc(), words)? {
        Some(name) if only_reads(words) => open_to_read(rt, name.text()),
        Some(name) => open_to_write(rt, name.text()),
        None => None,
    };
    let mut media = FileMedia::new(rt.alloc(), file);
    let mut shelf = FileShelf::new(rt);
    let mut out = StdSink::new(rt.stdout());
    let me = Uuid::from_bytes(SYSTEM);
    let status = famfs(
        rt.alloc(),
        words,
        me,
        random(rt),
        &mut media,
        &mut shelf,
        &mut out,
    );
    Ok(status)
}

/// Does what the program's words say.
fn ran(rt: &HostRuntime) -> Result<Status, OutOfMemory> {
    let words = given(rt)?;
    run(rt, &words)
}

fn main(rt: HostRuntime) -> ExitCode {
    let status = match ran(&rt) {
        Ok(status) => status,
        Err(OutOfMemory) => Status::OutOfMemory,
    };
    ExitCode::from(status.number())
}
