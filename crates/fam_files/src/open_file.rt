//! Files that are opened without waiting.
//!
//! A regular file and a block device open at once and have a size. Nothing else is opened: a pipe may wait for its other
//! end, and a terminal or another device may act where it is opened.

use std::fs;
use std::fs::{File, Metadata, OpenOptions};
use std::os::unix::fs::FileTypeExt;

/// Whether it is a regular file or a block device.
fn has_size(found: &Metadata) -> bool {
    found.is_file() || found.file_type().is_block_device()
}

/// Opens what has a size, and nothing else. It is looked at before and behind, since another thing may take the name
/// meanwhile: it isn't taken then, though a pipe that took the name just then would be waited for.
fn opened(rt: &HostRuntime, name: &str, how: &OpenOptions) -> Option<File> {
    if !has_size(&fs::metadata(rt, name).ok()?) {
        return None;
    }
    let file = how.open(rt, name).ok()?;
    if !has_size(&file.metadata().ok()?) {
        return None;
    }
    Some(file)
}

/// Opens a regular file or a block device for reading alone. Whatever else has the name, or may not be read, counts as
/// none.
pub fn open_to_read(rt: &HostRuntime, name: &str) -> Option<File> {
    opened(rt, name, OpenOptions::new().read(true))
}

/// Opens a regular file or a block device for reading and writing. Whatever else has the name, or may not be read and
/// written, counts as none.
pub fn open_to_write(rt: &HostRuntime, name: &str) -> Option<File> {
    opened(rt, name, OpenOptions::new().read(true).write(true))
}
