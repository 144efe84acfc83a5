//! Names in print: paths and the names of files. `specs/Escapes.antt` has the printed form.

ghost use Rattle.std.specs.Prelude.{◌≡◌, ◌<◌, ◌≤◌, ℕ, List, ◌++◌, OnOk, OnErr, IfOk, length, take, slice_index, true};
ghost use Rattle.std.specs.Bool.{OnTrue};
ghost use Rattle.std.specs.List.{All, list_all};
ghost use Rattle.fam_base.specs.Escapes.{is_plain, hex_digit, escaped_byte, escaped, AreBytes, IsVisible};

use crate::line::OutOfMemory;
use crate::path::Path;
use std::alloc::Global;

fn is_plain(byte: u8) -> bool
    ensures { result ≡ is_plain byte }
{
    (0x21 <= byte) & (byte <= 0x7e) & (byte != b'\\')
}

/// The digit of a number below 16 in hexadecimal, in small letters.
pub fn hex_digit(n: u8) -> u8
    requires { n < 16 }
    ensures { result ≡ hex_digit n }
{
    if n < 10 { b'0' + n } else { b'a' + (n - 10) }
}

/// Adds bytes to a text.
pub fn put_bytes(bytes: &[u8], into: &mut Vec<u8>) -> Result<(), OutOfMemory>
    ensures added { OnOk result (into.new.items ≡ into.old.items ++ bytes.now) }
    ensures same { OnErr result (into.new.items ≡ into.old.items) }
{
    match into.extend_from_slice(bytes) {
        Ok(()) => Ok(()),
        Err(_) => Err(OutOfMemory),
    }
}

fn escape_byte(byte: u8, into: &mut Vec<u8>) -> Result<(), OutOfMemory>
    ensures added { OnOk result (into.new.items ≡ into.old.items ++ escaped_byte byte) }
    ensures same { OnErr result (into.new.items ≡ into.old.items) }
{
    if is_plain(byte) {
        match into.push(byte) {
            Ok(()) => Ok(()),
            Err(_) => Err(OutOfMemory),
        }
    } else {
        let escape = [b'\\', b'x', hex_digit(byte / 16), hex_digit(byte % 16)];
        put_bytes(&escape, into)
    }
}

/// Whether bytes begin with eight that stand for themselves. No test waits for the one before it, so that they are made
/// together.
#[inline(always)]
fn begin_plain(bytes: &[u8]) -> bool
    ensures long { OnTrue result (8 ≤ length bytes.now) }
    ensures plain { OnTrue result ((k : ℕ) → k < 8 → is_plain (slice_index bytes.now k) ≡ true) }
{
    match bytes {
        [a, b, c, d, e, f, g, h, ..] => {
            is_plain(*a)
                & is_plain(*b)
                & is_plain(*c)
                & is_plain(*d)
                & is_plain(*e)
                & is_plain(*f)
                & is_plain(*g)
                & is_plain(*h)
        }
        _ => false,
    }
}

/// So many of the first bytes stand for themselves, found by eight at a time.
#[inline(always)]
fn count_plain(bytes: &[u8]) -> usize
    ensures within { result ≤ length bytes.now }
    ensures plain { (k : ℕ) → k < result → is_plain (slice_index bytes.now k) ≡ true }
{
    let mut count = 0;
    while begin_plain(&bytes[count..]) {
        count += 8;
    }
    count
}

/// Whether each of some bytes stands for itself, one by one.
#[inline(always)]
fn is_each_plain(bytes: &[u8]) -> bool
    ensures { result ≡ list_all is_plain bytes.now }
{
    bytes.iter().all(|byte| is_plain(*byte))
}

/// Whether each byte of a name stands for itself.
#[tactic(auto, using(crate::proofs::Eights::all_behind))]
fn are_plain(bytes: &[u8]) -> bool
    ensures { result ≡ list_all is_plain bytes.now }
{
    is_each_plain(&bytes[count_plain(bytes)..])
}

/// Adds the printed form of a name's bytes, one by one.
fn escape_each(bytes: &[u8], into: &mut Vec<u8>) -> Result<(), OutOfMemory>
    ensures added { OnOk result (into.new.items ≡ into.old.items ++ escaped bytes.now) }
    ensures err { OnErr result
        ((n : ℕ) × (into.new.items ≡ into.old.items ++ escaped (take n bytes.now))) }
{
    for byte in bytes {
        escape_byte(*byte, into)?;
    }
    Ok(())
}

/// Adds the printed form of a name's bytes. A byte from 0x21 to 0x7e other than the backslash is itself,
/// and any other is `\x` and two lower-case hexadecimal digits.
///
/// Where memory runs out, the printed form of some of the first bytes was added.
pub fn escape(bytes: &[u8], into: &mut Vec<u8>) -> Result<(), OutOfMemory>
    ensures added { OnOk result (into.new.items ≡ into.old.items ++ escaped bytes.now) }
    ensures err { OnErr result
        ((n : ℕ) × (into.new.items ≡ into.old.items ++ escaped (take n bytes.now))) }
{
    if !are_plain(bytes) {
        return escape_each(bytes, into);
    }
    match into.extend_from_slice(bytes) {
        Ok(()) => Ok(()),
        Err(_) => Err(OutOfMemory),
    }
}

impl Path {
    /// The printed form of the path, as [`escape`] has it.
    pub fn escaped(&self, alloc: Global) -> Result<Vec<u8>, OutOfMemory>
        ensures { IfOk result (λ text. text.items ≡ escaped self.now) }
    {
        let mut text = Vec::new(alloc);
        escape(self.bytes(), &mut text)?;
        Ok(text)
    }
}

/// No two names have one printed form.
pub fn names_differ_in_print()
    ensures { (a b : List ℕ) → AreBytes a → AreBytes b
        → escaped a ≡ escaped b → a ≡ b }
{}

/// A printed name has only visible ASCII: no space and no line feed.
pub fn print_is_visible()
    ensures { (bytes : List ℕ) → AreBytes bytes
        → All IsVisible (escaped bytes) }
{}
