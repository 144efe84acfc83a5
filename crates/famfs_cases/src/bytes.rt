//! Bytes that are put together.

ghost use Rattle.std.specs.Prelude.{◌≡◌, ◌++◌, ◌<◌, IfOk, IfSome, OnOk, length};

use crate::stop::Stop;
use std::alloc::Global;

/// Where a byte stands first.
pub fn place_of(bytes: &[u8], byte: u8) -> Option<usize>
    ensures { IfSome result (λ at. at < length bytes.now) }
{
    bytes.iter().position(|each| *each == byte)
}

/// Puts bytes behind others.
pub fn put(into: &mut Vec<u8>, bytes: &[u8]) -> Result<(), Stop>
    ensures { OnOk result (into.new.items ≡ into.old.items ++ bytes.now) }
{
    match into.extend_from_slice(bytes) {
        Ok(()) => Ok(()),
        Err(_) => Err(Stop::OutOfMemory),
    }
}

/// Puts a number in decimal digits.
pub fn put_number(alloc: Global, into: &mut Vec<u8>, number: u64) -> Result<(), Stop> {
    let text = format!(in alloc; "{number}")?;
    put(into, text.as_bytes())
}

/// A copy of bytes.
pub fn copied(alloc: Global, bytes: &[u8]) -> Result<Vec<u8>, Stop>
    ensures { IfOk result (λ copy. copy.items ≡ bytes.now) }
{
    match Vec::from_slice(alloc, bytes) {
        Ok(copy) => Ok(copy),
        Err(_) => Err(Stop::OutOfMemory),
    }
}

/// A copy of a text.
pub fn copied_text(alloc: Global, text: &str) -> Result<String, Stop> {
    Ok(String::from_str(alloc, text)?)
}

/// Adds an item at the end of a list.
pub fn push<T: Drop>(list: &mut Vec<T>, item: T) -> Result<(), Stop> {
    match list.push(item) {
        Ok(()) => Ok(()),
        Err(_) => Err(Stop::OutOfMemory),
    }
}
