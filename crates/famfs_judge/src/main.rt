//! The famfs-judge command: what it does is the call of fam_judge_call; here the real shelf and output are made and handed to it.
#![tactic(auto)]

use fam_base::OutOfMemory;
use fam_files::{FileMedia, FileShelf, StdSink, open_to_read};
use fam_judge_call::{famfs_judge, judged_image};
use fam_outcomes::Status;
use std::env;
use std::fs::File;
use std::io::ErrorKind;
use std::process::ExitCode;

/// The words after the program's name, and none where one of them isn't UTF-8.
fn given(rt: &HostRuntime) -> Result<Vec<String>, OutOfMemory> {
    let mut words = Vec::new(rt.alloc());
    let args = match env::args(rt) {
        Ok(args) => args,
        Err(error) => {
            return match error.kind() {
                ErrorKind::OutOfMemory => Err(OutOfMemory),
                _ => Ok(words),
            };
        }
    };
    for word in args.skip(1) {
        if words.push(word).is_err() {
            return Err(OutOfMemory);
        }
    }
    Ok(words)
}

/// Takes the numbers of those standard streams that are closed, so that no history is opened under one of them. The files are to
/// be held as long as a history is. None where one of them can't be opened: then nobody knows which number a history would get.
fn streams(rt: &HostRuntime) -> Option<[File; 3]> {
    Some([null(rt)?, null(rt)?, null(rt)?])
}

/// A file that gives nothing, and that can't be written.
fn null(rt: &HostRuntime) -> Option<File> {
    File::open(rt, "/dev/null").ok()
}

/// Does what the program's words say. Where the numbers of the standard streams can't be held, nothing is read, and the output
/// counts as failed.
fn ran(rt: &HostRuntime) -> Result<Status, OutOfMemory> {
    let words = given(rt)?;
    let Some(_streams) = streams(rt) else {
        return Ok(Status::SinkFault);
    };
    let file = match judged_image(rt.alloc(), &words)? {
        Some(name) => open_to_read(rt, name.text()),
        None => None,
    };
    let mut media = FileMedia::new(rt.alloc(), file);
    let mut shelf = FileShelf::new(rt);
    let mut out = StdSink::new(rt.stdout());
    let status = famfs_judge(rt.alloc(), &words, &mut media, &mut shelf, &mut out);
    Ok(status)
}

fn main(rt: HostRuntime) -> ExitCode {
    let status = match ran(&rt) {
        Ok(status) => status,
        Err(OutOfMemory) => Status::OutOfMemory,
    };
    ExitCode::from(status.number())
}
