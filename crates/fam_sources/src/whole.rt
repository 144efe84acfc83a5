//! A file of a shelf, read whole.

ghost use Rattle.std.specs.Prelude.{◌≡◌, ◌+◌, ◌-◌, ◌^◌, ◌<◌, ◌≤◌, Ok, Err, IfOk, IfErr, OnOk, length, take};
ghost use Rattle.fam_media.specs.Files.{bytes_of};
ghost use Rattle.fam_media.specs.Outside.{IfModelled};
ghost use Rattle.fam_media.specs.Causes.{IsShelfSteady};
ghost use Rattle.fam_media.specs.States.{change};
ghost use Rattle.fam_sources.specs.declared.whole.WholeFault.TheVariants.{OutOfMemory};
ghost use Rattle.fam_sources.specs.Whole.{FillFails, FilesHold, WholeSays};

use fam_media::Shelf;
use std::alloc::Global;

/// Why a file was not read whole.
#[derive(Clone, Copy, Debug, PartialEq, Eq)]
pub enum WholeFault {
    /// No file has the name.
    NoFile,
    /// With the bytes that were read of others before, these would be so many, which is above the limit. Nothing was
    /// read.
    TooLong(u64),
    /// The shelf failed.
    Faulted,
    /// Of `size` bytes only `got` came.
    Short { size: u64, got: u64 },
    /// No memory was left for the bytes.
    OutOfMemory,
}

/// So many zeros.
fn blank(alloc: Global, size: u64) -> Result<Vec<u8>, WholeFault>
    ensures size { IfOk result (λ bytes. length bytes.items ≡ size) }
    ensures err { IfErr result (λ fault. fault ≡ OutOfMemory) }
{
    match vec![in alloc; 0u8; size as usize] {
        Ok(bytes) => Ok(bytes),
        Err(_) => Err(WholeFault::OutOfMemory),
    }
}

/// The size of a file that is to be read, where it is within the limit.
fn size_of<S: Shelf>(shelf: &mut S, name: &str, copied: u64, limit: u64) -> Result<u64, WholeFault>
    requires { limit < 2 ^ 64 - 1 }
    ensures within { IfOk result (λ size. copied + size ≤ limit) }
    ensures size { IfOk result (λ size.
        FilesHold (S.state shelf.old).files name.now (λ bytes. size ≡ length bytes)) }
    ensures fault { IfErr result (λ fault. WholeSays (change S.state shelf.old shelf.new)
        (record { name = name.now; copied = copied; limit = limit }) (Err fault)) }
    ensures steady { IsShelfSteady (S.state shelf.old) (S.state shelf.new) }
{
    match shelf.size(name) {
        Ok(Some(size)) => {
            let sum = copied.saturating_add(size);
            if sum > limit {
                return Err(WholeFault::TooLong(sum));
            }
            Ok(size)
        }
        Ok(None) => Err(WholeFault::NoFile),
        Err(_) => Err(WholeFault::Faulted),
    }
}

/// Fills a place with the first bytes of a file.
fn fill<S: Shelf>(shelf: &mut S, name: &str, into: &mut [u8]) -> Result<(), WholeFault>
    ensures filled { OnOk result (IfModelled (S.state shelf.old).files (λ files.
        into.new ≡ take (length into.old) (bytes_of files name.now))) }
    ensures fault { IfErr result (λ fault. FillFails (change S.state shelf.old shelf.new)
        name.now (length into.old) fault) }
    ensures size { length into.new ≡ length into.old }
    ensures steady { IsShelfSteady (S.state shelf.old) (S.state shelf.new) }
{
    let size = into.len();
    let mut got = 0;
    'reads: while got < size {
        match shelf.read_at(name, got as u64, &mut into[got..]) {
            Ok(0) => {
                return Err(WholeFault::Short {
                    size: size as u64,
                    got: got as u64,
                });
            }
            Ok(count) => got += count,
            Err(_) => return Err(WholeFault::Faulted),
        }
    }
    Ok(())
}

/// The bytes of a file, all of them: as many as its size says. `copied` bytes of other files were read before, and all
/// together may be `limit`.
///
/// A file that is too long isn't read. A read that gives no byte before the size is reached ends the reading.
pub fn read_whole<S: Shelf>(
    alloc: Global,
    shelf: &mut S,
    name: &str,
    copied: u64,
    limit: u64,
) -> Result<Vec<u8>, WholeFault>
    requires { limit < 2 ^ 64 - 1 }
    ensures bytes { IfOk result (λ bytes. WholeSays (change S.state shelf.old shelf.new)
        (record { name = name.now; copied = copied; limit = limit }) (Ok bytes.items)) }
    ensures fault { IfErr result (λ fault. WholeSays (change S.state shelf.old shelf.new)
        (record { name = name.now; copied = copied; limit = limit }) (Err fault)) }
    ensures steady { IsShelfSteady (S.state shelf.old) (S.state shelf.new) }
{
    let size = size_of(shelf, name, copied, limit)?;
    let mut bytes = blank(alloc, size)?;
    fill(shelf, name, bytes.as_mut_slice())?;
    Ok(bytes)
}
