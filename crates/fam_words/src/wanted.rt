//! What the words of a call name.

use fam_base::{Attr, NameText, Path};
use fam_journal::Ask;
use uuid::Uuid;

/// A command of the program, and the image that it works on.
#[derive(Drop)]
pub struct Call {
    /// The name of the image's file. It may be empty.
    pub image: NameText,
    pub invocation: Invocation,
}

/// The shadow of an image's tree.
#[derive(Drop)]
pub struct ShadowCall {
    /// The name of the image's file. It may be empty.
    pub image: NameText,
    /// The name of the folder that the shadow is written into.
    pub folder: NameText,
    /// The UUID of the host, where one is given.
    pub system: Option<Uuid>,
}

/// The copy of a file system onto another image.
#[derive(Drop)]
pub struct DupCall {
    /// The name of the file of the image that is copied. It may be empty.
    pub from: NameText,
    /// The name of the file of the image that is written. It may be empty, and is another one.
    pub to: NameText,
    /// The bytes of a unit of the copy.
    pub unit: u64,
    /// The bytes of the copy's log.
    pub log: u64,
    /// The copy's format.
    pub format: u64,
    /// The UUID of the copy, where one is given.
    pub fs: Option<Uuid>,
    /// Whether a superblock that reads is written over.
    pub force: bool,
    /// The UUID of the host that the copy's log belongs to, where one is given.
    pub system: Option<Uuid>,
}

/// A script over the mailbox that a file of an image holds.
#[derive(Drop)]
pub struct MailCall {
    /// The name of the script's file.
    pub script: NameText,
    /// The name of the image's file. It may be empty.
    pub image: NameText,
    /// The path of the file on the image.
    pub path: Path,
}

/// A history that is judged.
#[derive(Drop)]
pub struct JudgeCall {
    /// The name of the history's file.
    pub history: NameText,
    /// The name of the image's file as it was before the first line, where one is given. It may be empty.
    pub image: Option<NameText>,
}

/// What is to be done with the image.
#[derive(Drop)]
pub enum Invocation {
    /// A command of its own, on a host of this UUID where one is given.
    Single { system: Option<Uuid>, shot: Shot },
    /// Run the script that this file holds.
    Script { file: NameText },
    /// Run the storm of this seed, or print its script.
    Storm { seed: u64, size: u64, prints: bool },
}

/// A command of its own.
#[derive(Drop)]
pub enum Shot {
    /// Make a file system of a format, with units of `unit` bytes and a log of `log` bytes, with a fresh UUID where `fs`
    /// is `None`, and over a superblock that reads only where it is forced.
    Mkfs {
        fs: Option<Uuid>,
        unit: u64,
        log: u64,
        format: u64,
        force: bool,
    },
    /// Run a command on the log.
    Run(Ask),
    /// Make the directories along a path that aren't there.
    Parents {
        path: Path,
        attr: Attr,
    },
}
