//! A shelf in memory, of which chosen calls fail and chosen files are shorter than their size.

ghost use Rattle.std.specs.Prelude.{◌≡◌, ◌⊎◌, ◌-◌, ◌<◌, ◌≤◌, ◌∷◌, Some, IfOk, OnOk, OnErr, is_err, length, map as list_map, min, nat_lt, take, drop};
ghost use Rattle.std.specs.Bool.{OnTrue};
ghost use Rattle.std.specs.Option.{option_map};
ghost use Rattle.std.specs.String.{string_bytes};
ghost use Rattle.std.specs.FinMap as map;
ghost use Rattle.fam_media.specs.Causes.{HasCause, Rose};
ghost use Rattle.fam_media.specs.Outside.{IfModelled};
ghost use Rattle.fam_media.specs.Files.{HasNone, IsShort, bytes_of, bytes_or_none, name_cmp};
ghost use Rattle.fam_media.specs.MemoryShelf.{after_call, after_read, before_cut, empty_shelf, given, is_failing, readable};

use crate::media::Failed;
use crate::plan::has_planned;
use crate::shelf::Shelf;
use fam_base::OutOfMemory;
use std::alloc::Global;
use std::marker::Model;

/// Files in memory, with calls that are to fail. Calls of `size` and `read_at` are counted together, from 0.
#[derive(Drop)]
pub struct MemShelf {
    alloc: Global,

    /// The file that was added last stands first: where a name stands twice, the first one counts.
    files: Vec<(String, Vec<u8>)>,

    /// The same order.
    cuts: Vec<(String, u64)>,
    calls: u64,
    plan: Vec<u64>,
    faults: u64,
    shorts: u64,
}

impl Model for MemShelf {
    ghost use Rattle.std.specs.Prelude.{map as list_map};
    ghost use Rattle.std.specs.String.{string_bytes};
    ghost use Rattle.std.specs.FinMap as map;
    ghost use Rattle.fam_media.specs.MemoryShelf.{MemShelfState, state_code};

    ghost Value = { MemShelfState };

    ghost coded = { state_code };

    ghost view = { λ s. record {
      files = map.from_entries (list_map (λ f. (string_bytes f.0, f.1.items)) s.files.items);
      cuts = map.from_entries (list_map (λ f. (string_bytes f.0, f.1)) s.cuts.items);
      calls = s.calls;
      plan = s.plan.items;
      faults = s.faults;
      shorts = s.shorts;
    } };
}

/// The bytes of the first file of that name.
fn find_bytes<'a>(files: &'a [(String, Vec<u8>)], name: &str) -> Option<&'a [u8]>
    ensures { option_map (λ bytes. bytes.now) result
        ≡ map.find name_cmp name.now (list_map (λ f. (string_bytes f.0, f.1.items)) files.now) }
{
    for f in files {
        if name == f.0.as_str() {
            return Some(f.1.as_slice());
        }
    }
    None
}

/// Where reads of that name end.
fn find_cut(cuts: &[(String, u64)], name: &str) -> Option<u64>
    ensures { result ≡ map.find name_cmp name.now (list_map (λ f. (string_bytes f.0, f.1)) cuts.now) }
{
    for c in cuts {
        if name == c.0.as_str() {
            return Some(c.1);
        }
    }
    None
}

/// The bytes of an optional file before an optional cut.
fn before<'a>(bytes: Option<&'a [u8]>, cut: Option<u64>) -> &'a [u8]
    ensures { result.now ≡ before_cut cut (bytes_or_none (option_map (λ b. b.now) bytes.entry)) }
{
    match (bytes, cut) {
        (Some(bytes), Some(at)) => &bytes[..bytes.len().min(at as usize)],
        (Some(bytes), None) => bytes,
        (None, _) => &[],
    }
}

/// Copies the bytes from an offset on to the front of `into`, as many as there are bytes and room for, and
/// tells how many.
fn copy_from(bytes: &[u8], offset: u64, into: &mut [u8]) -> usize
    ensures count { result ≡ min (length into.old) (length bytes.now - offset) }
    ensures prefix { take result into.new ≡ take result (drop offset bytes.now) }
    ensures rest { drop result into.new ≡ drop result into.old }
{
    let start = bytes.len().min(offset as usize);
    let count = into.len().min(bytes.len() - start);
    into[..count].copy_from_slice(&bytes[start..start + count]);
    count
}

/// A copy of a name.
fn owned_name(alloc: Global, name: &str) -> Result<String, OutOfMemory>
    ensures { IfOk result (λ owned. string_bytes owned ≡ name.now) }
{
    match String::from_str(alloc, name) {
        Ok(owned) => Ok(owned),
        Err(_) => Err(OutOfMemory),
    }
}

/// A copy of a file's bytes.
fn owned_bytes(alloc: Global, bytes: &[u8]) -> Result<Vec<u8>, OutOfMemory>
    ensures { IfOk result (λ owned. owned.items ≡ bytes.now) }
{
    match Vec::from_slice(alloc, bytes) {
        Ok(owned) => Ok(owned),
        Err(_) => Err(OutOfMemory),
    }
}

impl MemShelf {
    /// A shelf without files, of which no call is to fail.
    pub fn new(alloc: Global) -> MemShelf
        ensures value { result ≡ empty_shelf }
    {
        MemShelf {
            alloc,
            files: Vec::new(alloc),
            cuts: Vec::new(alloc),
            calls: 0,
            plan: Vec::new(alloc),
            faults: 0,
            shorts: 0,
        }
    }

    /// The name has these bytes from now on.
    pub fn add(&mut self, name: &str, bytes: &[u8]) -> Result<(), OutOfMemory>
        ensures added { OnOk result
            (self.new ≡ record self.old { files = map.insert self.old.files name.now bytes.now }) }
        ensures err { OnErr result (self.new ≡ self.old) }
    {
        let name = owned_name(self.alloc, name)?;
        let bytes = owned_bytes(self.alloc, bytes)?;
        match self.files.insert(0, (name, bytes)) {
            Ok(()) => Ok(()),
            Err(_) => Err(OutOfMemory),
        }
    }

    /// The call with that number will fail.
    pub fn fail(&mut self, call: u64) -> Result<(), OutOfMemory>
        ensures planned { OnOk result (self.new ≡ record self.old { plan = call ∷ self.old.plan }) }
        ensures err { OnErr result (self.new ≡ self.old) }
    {
        match self.plan.insert(0, call) {
            Ok(()) => Ok(()),
            Err(_) => Err(OutOfMemory),
        }
    }

    /// Reads of that name give no byte at `at` or past it. Its size stays.
    pub fn cut(&mut self, name: &str, at: u64) -> Result<(), OutOfMemory>
        ensures cut { OnOk result
            (self.new ≡ record self.old { cuts = map.insert self.old.cuts name.now at }) }
        ensures err { OnErr result (self.new ≡ self.old) }
    {
        let name = owned_name(self.alloc, name)?;
        match self.cuts.insert(0, (name, at)) {
            Ok(()) => Ok(()),
            Err(_) => Err(OutOfMemory),
        }
    }

    /// Counts a call, and tells whether it is to fail.
    fn next_call(&mut self) -> bool
        ensures fails { result ≡ is_failing self.old }
        ensures after { self.new ≡ after_call self.old }
        ensures later { self.old.faults ≤ self.new.faults }
        ensures rose { OnTrue result (Rose self.old.faults self.new.faults) }
    {
        let fails = has_planned(&self.plan, self.calls);
        self.calls = self.calls.saturating_add(1);
        if fails {
            self.faults = self.faults.saturating_add(1);
        }
        fails
    }

    /// The bytes of a name.
    fn bytes(&self, name: &str) -> Option<&[u8]>
        ensures { option_map (λ bytes. bytes.now) result ≡ map.get self.now.files name.now }
    {
        find_bytes(&self.files, name)
    }

    /// Has the file a byte at the offset?
    fn has_byte(&self, name: &str, offset: u64) -> bool
        ensures { result ≡ nat_lt offset (length (bytes_of self.now.files name.now)) }
    {
        match self.bytes(name) {
            Some(bytes) => offset < bytes.len() as u64,
            None => false,
        }
    }

    /// Where reads of a name end.
    fn end(&self, name: &str) -> Option<u64>
        ensures { result ≡ map.get self.now.cuts name.now }
    {
        find_cut(&self.cuts, name)
    }

    /// The bytes of a name that reads give.
    fn readable(&self, name: &str) -> &[u8]
        ensures { result.now ≡ readable self.now name.now }
    {
        before(self.bytes(name), self.end(name))
    }
}

impl Shelf for MemShelf {
    ghost state = { λ s. record { files = Some s.files; faults = s.faults; shorts = s.shorts } };

    fn size(&mut self, name: &str) -> Result<Option<u64>, Failed>
        ensures value { IfOk result
            (λ size. IfModelled (Some self.old.files)
            (λ files. size ≡ option_map length (map.get files name.now))) }
        ensures same { Some self.new.files ≡ Some self.old.files }
        ensures cause { HasCause self.old.faults self.new.faults result }
        ensures later { self.old.shorts ≤ self.new.shorts }
        ensures shorts { IfModelled (Some self.old.files) (λ _. self.new.shorts ≡ self.old.shorts) }

        // It fails exactly where that was planned.
        ensures fails { is_err result ≡ is_failing self.old }
        ensures after { self.new ≡ after_call self.old }
    {
        if self.next_call() {
            return Err(Failed);
        }
        match self.bytes(name) {
            Some(bytes) => Ok(Some(bytes.len() as u64)),
            None => Ok(None),
        }
    }

    fn read_at(&mut self, name: &str, offset: u64, into: &mut [u8]) -> Result<usize, Failed>
        requires room { 0 < length into.old }

        ensures within { IfOk result (λ n. n ≤ length into.old) }
        ensures bytes { IfOk result (λ n. IfModelled (Some self.old.files)
            (λ files. take n into.new ≡ take n (drop offset (bytes_of files name.now)))) }
        ensures rest { IfOk result (λ n. drop n into.new ≡ drop n into.old) }
        ensures none { IfOk result (λ n. n ≡ 0 →
            HasNone (Some self.old.files) name.now offset ⊎ Rose self.old.shorts self.new.shorts) }
        ensures short { IfOk result (λ n. IfModelled (Some self.old.files) (λ files.
            self.old.shorts < self.new.shorts → IsShort files name.now offset n)) }
        ensures err { OnErr result (into.new ≡ into.old) }
        ensures whole { OnErr result
            (IfModelled (Some self.old.files) (λ _. self.new.shorts ≡ self.old.shorts)) }
        ensures same { Some self.new.files ≡ Some self.old.files }
        ensures cause { HasCause self.old.faults self.new.faults result }
        ensures later { self.old.shorts ≤ self.new.shorts }

        // It fails exactly where that was planned, and else gives all bytes before a cut that find room.
        ensures fails { is_err result ≡ is_failing self.old }
        ensures count { IfOk result (λ n. n ≡ given self.old name.now offset (length into.old)) }
        ensures after { self.new ≡ after_read name.now offset (length into.old) self.old }
    {
        if self.next_call() {
            return Err(Failed);
        }
        let count = copy_from(self.readable(name), offset, into);
        if count == 0 && self.has_byte(name, offset) {
            self.shorts = self.shorts.saturating_add(1);
        }
        Ok(count)
    }
}
