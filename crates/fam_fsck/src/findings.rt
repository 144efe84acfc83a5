//! What the entries of a log add up to, in the order in which they read.
//!
//! The least pair of entries that overlap has the first entry that overlaps anything as its second one. So up to that
//! entry the used units alone are asked, and it alone is compared with each entry before it.

ghost use Rattle.std.specs.Prelude.{◌≡◌, ◌≤◌, IfOk, OnErr, count_by};
ghost use Rattle.fam_format.specs.Layout.{device_units};
ghost use Rattle.fam_format.specs.Params.{SoundParams};
ghost use Rattle.fam_format.specs.Slot.{Proper};
ghost use Rattle.fam_format.specs.Tree.{replay, tree_fault};
ghost use Rattle.fam_rules.specs.Reports.{is_directory, is_file, overlap_of, used_count};
ghost use Rattle.fam_fsck.specs.Found.{applied_of, found_entries, first_finds, found_as, pairs_of, with_found};

use crate::found::{count_directories, count_files, cover, least_overlap};
use crate::found_list::FoundList;
use crate::joining::Joined;
use fam_alloc::UsedUnits;
use fam_base::{OutOfMemory, Params};
use fam_format::{LOG_OFFSET, Reason};
use fam_tree::EntryRef;
use std::alloc::Global;
use std::marker::Model;

/// The entries that read, with the tree of those that applied, the units of all and the least overlap.
#[derive(Drop)]
pub struct Findings {
    params: Params,
    joined: Joined,
    found: FoundList,
    used: UsedUnits,
    overlap: Option<(u64, u64)>,
}

impl Model for Findings {
    ghost use Rattle.fam_fsck.specs.Found.{Finds};
    ghost use Rattle.fam_fsck.specs.Scan.{AreFindings};

    ghost Value = { Finds };

    ghost view = { λ f. record { params = f.params; found = f.found } };

    ghost invariant = { λ f. AreFindings f.params f.joined.tree f.found f.used f.overlap };
}

impl Findings {
    /// No entries.
    pub fn new(alloc: Global, params: &Params) -> Result<Findings, OutOfMemory>
        requires { SoundParams params.now }
        ensures { IfOk result (λ f. f ≡ first_finds params.now) }
    {
        let units = params.device / params.unit;
        let head = (LOG_OFFSET + params.log_length) / params.unit;
        let used = UsedUnits::new(alloc, units, head)?;
        let found = FoundList::new(alloc)?;
        Ok(Findings {
            params: *params,
            joined: Joined::new(alloc),
            found,
            used,
            overlap: None,
        })
    }

    /// The parameters of the file system.
    pub fn params(&self) -> &Params
        ensures value { result.now ≡ self.now.params }
        ensures sound { SoundParams self.now.params }
    {
        &self.params
    }

    /// Adds an entry, and says why it doesn't apply to the tree.
    pub fn add(&mut self, number: u64, entry: &EntryRef<'_>) -> Result<Option<Reason>, OutOfMemory>
        requires { Proper self.old.params entry.now }
        ensures fault { IfOk result (λ fault. fault ≡ tree_fault (replay (applied_of self.old.found)) entry.now) }
        ensures found { IfOk result (λ fault. self.new ≡ with_found self.old (found_as number entry.now fault)) }
        ensures err { OnErr result (self.new ≡ self.old) }
    {
        let fault = self.found.join(&mut self.joined, number, entry)?;
        self.overlap = least_overlap(
            self.overlap,
            &self.used,
            &self.found,
            number,
            entry,
            self.params.unit,
        );
        cover(&mut self.used, entry, self.params.unit);
        Ok(fault)
    }

    /// How many of the entries are files.
    pub fn files(&self) -> u64
        ensures { result ≡ count_by (λ e. is_file e.kind) (found_entries self.now.found) }
    {
        count_files(&self.found)
    }

    /// How many of them are directories.
    pub fn directories(&self) -> u64
        ensures { result ≡ count_by (λ e. is_directory e.kind) (found_entries self.now.found) }
    {
        count_directories(&self.found)
    }

    /// How many units superblock, log and these entries use.
    pub fn used(&self) -> u64
        ensures count { result ≡ used_count self.now.params (found_entries self.now.found) }
        ensures within { result ≤ device_units self.now.params }
    {
        self.used.count()
    }

    /// The units of the device.
    pub fn units(&self) -> u64
        ensures { result ≡ device_units self.now.params }
    {
        self.used.units()
    }

    /// The least pair of entries that overlap.
    pub fn overlap(&self) -> Option<(u64, u64)>
        ensures { result ≡ overlap_of self.now.params.unit (pairs_of self.now.found) }
    {
        self.overlap
    }
}
