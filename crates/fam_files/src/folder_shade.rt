//! A folder of the system as a shade. This is a trusted edge: what really stands in a folder, no clause tells.

ghost use Rattle.std.specs.Prelude.{◌≡◌, ◌≤◌, None};
ghost use Rattle.fam_media.specs.Causes.{Rose};

use crate::description::is_description;
use fam_base::NameText;
use fam_media::Failed;
use fam_shadow::{Look, Shade, ShadeStop};
use std::fs;
use std::fs::{File, Metadata, OpenOptions};
use std::io::ErrorKind;
use std::os::unix::fs::{FileExt, MetadataExt};

/// The bytes that a name between two slashes may have. Few file systems take more.
const NAME_BYTES: usize = 255;

/// Which file of the system it is, whatever its names are.
#[derive(Clone, Copy, PartialEq, Eq)]
struct FileId {
    device: u64,
    inode: u64,
}

/// A folder of the system. It models nothing of what stands there, and counts its faults.
///
/// A link in the folder is no directory and no file, wherever it points, and neither is a pipe, a socket or a device: a
/// look at one fails. So nothing outside the folder is written through a link.
///
/// A file is one only where it is a description, the front of one, or empty, where it isn't the image, and where it may be
/// read and written: a look at any other fails, and no put replaces it. So nobody's own file is lost, but one that is itself the
/// beginning of a description.
#[derive(Drop)]
pub struct FolderShade<'a> {
    rt: &'a HostRuntime,
    folder: NameText,
    /// The file that the tree is read from.
    image: Option<FileId>,
    faults: u64,
}

/// Which file this is.
fn id_of(found: &Metadata) -> FileId {
    FileId {
        device: found.dev(),
        inode: found.ino(),
    }
}

/// Which file is open, and none where that can't be told.
fn id_of_open(file: &File) -> Option<FileId> {
    match file.metadata() {
        Ok(found) => Some(id_of(&found)),
        Err(_) => None,
    }
}

/// Nothing has the name: nothing stands there, or a file stands on the way.
fn is_absent(kind: ErrorKind) -> bool {
    matches!(kind, ErrorKind::NotFound | ErrorKind::NotADirectory)
}

/// Whether each part of a name between slashes is short enough. The system doesn't tell it below a directory that isn't
/// there yet.
fn is_short(name: &str) -> bool {
    name.split('/').all(|part| part.len() <= NAME_BYTES)
}

impl<'a> FolderShade<'a> {
    /// The folder of this name, which should be there, for the tree of this image.
    pub fn new(rt: &'a HostRuntime, folder: NameText, image: Option<&File>) -> FolderShade<'a>
        ensures { (⟦<FolderShade<'a> as Shade>⟧.state result).faults ≡ 0 }
    {
        let image = match image {
            Some(file) => id_of_open(file),
            None => None,
        };
        FolderShade {
            rt,
            folder,
            image,
            faults: 0,
        }
    }

    /// The path of a name in the folder.
    fn path(&self, name: &str) -> Option<String> {
        let folder = self.folder.text();
        format!(in self.rt.alloc(); "{folder}/{name}").ok()
    }

    /// Opens the regular file at a path, where a put may replace it. It is tested as it was opened, and must then stand at
    /// the path itself, since a link may have taken that meanwhile.
    fn replaceable(&self, path: &str) -> Option<File> {
        let mut how = OpenOptions::new();
        let file = how.read(true).write(true).open(self.rt, path).ok()?;
        let opened = file.metadata().ok()?;
        let found = fs::symlink_metadata(self.rt, path).ok()?;
        let id = id_of(&opened);
        if !found.is_file() || id_of(&found) != id || self.image == Some(id) {
            return None;
        }
        if is_description(&file, opened.len()) {
            return Some(file);
        }
        None
    }

    /// What stands at a path, and `None` where that can't be told, or is neither a directory nor a file that a put may
    /// replace.
    fn seen(&self, path: &str) -> Option<Look> {
        match fs::symlink_metadata(self.rt, path) {
            Ok(found) if found.is_dir() => Some(Look::Directory),
            Ok(found) if found.is_file() => match self.replaceable(path) {
                Some(_) => Some(Look::File),
                None => None,
            },
            Ok(_) => None,
            Err(error) if is_absent(error.kind()) => Some(Look::Nothing),
            Err(_) => None,
        }
    }

    /// Makes a directory, unless it is there.
    fn make(&self, path: &str) -> Option<()> {
        match fs::create_dir(self.rt, path) {
            Ok(()) => Some(()),
            Err(_) => match self.seen(path) {
                Some(Look::Directory) => Some(()),
                _ => None,
            },
        }
    }

    /// The file that a put writes: the one that it may replace, or a new one, which is never made through a link.
    fn target(&self, path: &str) -> Option<File> {
        match fs::symlink_metadata(self.rt, path) {
            Ok(found) if found.is_file() => self.replaceable(path),
            Ok(_) => None,
            Err(_) => File::create_new(self.rt, path).ok(),
        }
    }

    /// Writes a file, in place of what it has.
    fn write(&self, path: &str, bytes: &[u8]) -> Option<()> {
        let file = self.target(path)?;
        file.set_len(0).ok()?;
        file.write_all_at(bytes, 0).ok()
    }

    /// Counts a fault.
    fn count(&mut self)
        ensures later { self.old.faults ≤ self.new.faults }
        ensures rose { Rose self.old.faults self.new.faults }
    {
        self.faults = self.faults.saturating_add(1);
    }
}

impl Shade for FolderShade<'_> {
    ghost state = { λ shade. record { nodes = None; faults = shade.faults; calls = None } };

    fn look(&mut self, name: &str) -> Result<Look, Failed> {
        if is_short(name)
            && let Some(path) = self.path(name)
            && let Some(look) = self.seen(path.as_str())
        {
            return Ok(look);
        }
        self.count();
        Err(Failed)
    }

    fn make_dir(&mut self, name: &str) -> Result<(), ShadeStop> {
        let Some(path) = self.path(name) else {
            return Err(ShadeStop::OutOfMemory);
        };
        if self.make(path.as_str()).is_some() {
            return Ok(());
        }
        self.count();
        Err(ShadeStop::Failed)
    }

    fn put(&mut self, name: &str, bytes: &[u8]) -> Result<(), ShadeStop> {
        let Some(path) = self.path(name) else {
            return Err(ShadeStop::OutOfMemory);
        };
        if self.write(path.as_str(), bytes).is_some() {
            return Ok(());
        }
        self.count();
        Err(ShadeStop::Failed)
    }
}
