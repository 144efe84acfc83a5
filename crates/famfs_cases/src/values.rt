//! The names of loops, and what stands for them in a line.

ghost use Rattle.std.specs.Prelude.{◌≤◌, length};

use crate::bytes::{copied, place_of, push, put};
use crate::stop::Stop;
use std::alloc::Global;

/// A name and what stands for it.
#[derive(Drop)]
struct Value {
    name: Vec<u8>,
    text: Vec<u8>,
}

/// The values of the loops around a line, the innermost last.
#[derive(Drop)]
pub struct Values {
    values: Vec<Value>,
}

/// Whether a byte may stand in a name.
fn is_name_byte(byte: u8) -> bool {
    byte.is_ascii_alphanumeric() || byte == b'_'
}

/// How many bytes of a name stand in front.
fn name_length(text: &[u8]) -> usize
    ensures { result ≤ length text.now }
{
    match text.iter().position(|byte| !is_name_byte(*byte)) {
        Some(at) => at,
        None => text.len(),
    }
}

/// Replaces `$NAME` by a value wherever it stands in a text.
pub fn replaced(alloc: Global, text: &[u8], name: &[u8], value: &[u8]) -> Result<Vec<u8>, Stop> {
    let mut values = Values::new(alloc);
    values.push(alloc, name, value)?;
    values.put_into(alloc, text)
}

impl Values {
    /// No values.
    pub fn new(alloc: Global) -> Values {
        Values {
            values: Vec::new(alloc),
        }
    }

    /// How many values there are.
    pub fn len(&self) -> usize {
        self.values.len()
    }

    /// Gives a name a value.
    pub fn push(&mut self, alloc: Global, name: &[u8], text: &[u8]) -> Result<(), Stop> {
        let name = copied(alloc, name)?;
        let text = copied(alloc, text)?;
        push(&mut self.values, Value { name, text })
    }

    /// Keeps so many values, the outermost.
    pub fn truncate(&mut self, count: usize) {
        self.values.truncate(count);
    }

    /// What stands for a name.
    fn find(&self, name: &[u8]) -> Option<&[u8]> {
        for value in self.values.iter() {
            if value.name.as_slice() == name {
                return Some(value.text.as_slice());
            }
        }
        None
    }

    /// Puts what stands for a name, or the name as it is written.
    fn put_value(&self, name: &[u8], into: &mut Vec<u8>) -> Result<(), Stop> {
        match self.find(name) {
            Some(text) => put(into, text),
            None => {
                put(into, b"$")?;
                put(into, name)
            }
        }
    }

    /// A text in which each `$NAME` that has a value is replaced by it.
    pub fn put_into(&self, alloc: Global, text: &[u8]) -> Result<Vec<u8>, Stop> {
        let mut made = Vec::new(alloc);
        let mut rest = text;
        while let Some(at) = place_of(rest, b'$') {
            put(&mut made, &rest[..at])?;
            let behind = &rest[at + 1..];
            let (name, more) = behind.split_at(name_length(behind));
            self.put_value(name, &mut made)?;
            rest = more;
        }
        put(&mut made, rest)?;
        Ok(made)
    }

    /// Puts the names with their values, each behind a space.
    pub fn print(&self, into: &mut Vec<u8>) -> Result<(), Stop> {
        for value in self.values.iter() {
            put(into, b" ")?;
            put(into, value.name.as_slice())?;
            put(into, b"=")?;
            put(into, value.text.as_slice())?;
        }
        Ok(())
    }
}
