//! Lists of bytes and of entries that commands share without copying. A contract sees the list.

ghost use Rattle.std.specs.Prelude.{◌≡◌, IfOk};

use crate::entry::Entry;
use crate::line::OutOfMemory;
use std::alloc::Global;
use std::marker::Model;
use std::rc::RcSlice;

/// Bytes that several commands may hold at once.
#[derive(Drop)]
pub struct SharedBytes {
    items: RcSlice<u8>,
}

impl Model for SharedBytes {
    ghost use Rattle.std.specs.Prelude.{List, ℕ};
    ghost use Rattle.std.specs.Rc.{rc_slice_items};

    ghost Value = { List ℕ };

    ghost view = { λ s. rc_slice_items s.items };
}

impl SharedBytes {
    /// The same bytes, to be shared from here on.
    pub fn new(alloc: Global, bytes: Vec<u8>) -> Result<SharedBytes, OutOfMemory>
        ensures { IfOk result (λ s. s ≡ bytes.items) }
    {
        let _ = alloc;
        match RcSlice::from_vec(bytes) {
            Ok(items) => Ok(SharedBytes { items }),
            Err(_) => Err(OutOfMemory),
        }
    }

    /// The bytes.
    pub fn as_slice(&self) -> &[u8]
        ensures { result.now ≡ self.now }
    {
        self.items.as_slice()
    }

    /// The same bytes, shared once more.
    pub(crate) fn copy(&self) -> Result<SharedBytes, OutOfMemory>
        ensures { IfOk result (λ s. s ≡ self.now) }
    {
        match self.items.clone() {
            Ok(items) => Ok(SharedBytes { items }),
            Err(_) => Err(OutOfMemory),
        }
    }
}

/// Entries that several commands may hold at once.
#[derive(Drop)]
pub struct SharedEntries {
    items: RcSlice<Entry>,
}

impl Model for SharedEntries {
    ghost use Rattle.std.specs.Prelude.{List};
    ghost use Rattle.std.specs.Rc.{rc_slice_items};
    ghost use Rattle.fam_base.specs.declared.entry.Entry.{Entry};

    ghost Value = { List Entry };

    ghost view = { λ s. rc_slice_items s.items };
}

impl SharedEntries {
    /// The same entries, to be shared from here on.
    pub fn new(alloc: Global, entries: Vec<Entry>) -> Result<SharedEntries, OutOfMemory>
        ensures { IfOk result (λ s. s ≡ entries.items) }
    {
        let _ = alloc;
        match RcSlice::from_vec(entries) {
            Ok(items) => Ok(SharedEntries { items }),
            Err(_) => Err(OutOfMemory),
        }
    }

    /// The entries.
    pub fn as_slice(&self) -> &[Entry]
        ensures { result.now ≡ self.now }
    {
        self.items.as_slice()
    }

    /// The same entries, shared once more.
    pub(crate) fn copy(&self) -> Result<SharedEntries, OutOfMemory>
        ensures { IfOk result (λ s. s ≡ self.now) }
    {
        match self.items.clone() {
            Ok(items) => Ok(SharedEntries { items }),
            Err(_) => Err(OutOfMemory),
        }
    }
}
