//! The folder into which a case writes the shadow of a tree.

use crate::bytes::{copied, copied_text, push};
use crate::stop::Stop;
use fam_shadow::MemShade;
use std::alloc::Global;

/// A file by its name.
#[derive(Drop)]
pub struct File {
    pub name: String,
    pub bytes: Vec<u8>,
}

impl File {
    /// The same file again.
    pub fn copy(&self, alloc: Global) -> Result<File, Stop> {
        Ok(File {
            name: copied_text(alloc, self.name.as_str())?,
            bytes: copied(alloc, self.bytes.as_slice())?,
        })
    }
}

/// A call of the folder that is to fail, counted from its first, and how many bytes a put then keeps.
#[derive(Clone, Copy)]
struct Failure {
    call: u64,
    kept: u64,
}

/// A folder in memory, and what stands there at first.
#[derive(Drop)]
pub struct Folder {
    pub shade: MemShade,
    held: Vec<File>,
    failures: Vec<Failure>,
}

impl Folder {
    /// An empty folder.
    pub fn new(alloc: Global) -> Folder {
        Folder {
            shade: MemShade::new(alloc),
            held: Vec::new(alloc),
            failures: Vec::new(alloc),
        }
    }

    /// The folder as it stands at first, without what was written.
    pub fn renewed(&self, alloc: Global) -> Result<Folder, Stop> {
        let mut folder = Folder::new(alloc);
        for file in self.held.iter() {
            folder.hold(file.copy(alloc)?)?;
        }
        for failure in self.failures.iter() {
            folder.fail(failure.call, failure.kept)?;
        }
        Ok(folder)
    }

    /// The file stands in the folder.
    pub fn hold(&mut self, file: File) -> Result<(), Stop> {
        self.shade.add(file.name.as_str(), file.bytes.as_slice())?;
        push(&mut self.held, file)
    }

    /// The call of this number, from 0, will fail, and where it is a put keep at most so many bytes.
    pub fn fail(&mut self, call: u64, kept: u64) -> Result<(), Stop> {
        self.shade.fail(call, kept)?;
        push(&mut self.failures, Failure { call, kept })
    }
}
