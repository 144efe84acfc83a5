//! The report over all slots.

ghost use Rattle.std.specs.Prelude.{◌≡◌, ◌<◌, ◌≤◌, Err, IfOk, IsOk, Ok, OnOk, OnErr, length};
ghost use Rattle.fam_format.specs.Layout.{geometry};
ghost use Rattle.fam_format.specs.Params.{SoundParams};
ghost use Rattle.fam_format.specs.Slot.{Proper, entry_of, fields_of};
ghost use Rattle.fam_entry.specs.Short.{IsShort};
ghost use Rattle.fam_entry.specs.Tests.{HasFields, read_as};
ghost use Rattle.fam_rules.specs.Reports.{below_gate, report_by};
ghost use Rattle.fam_format.specs.Tree.{replay, tree_fault};
ghost use Rattle.fam_fsck.specs.Found.{applied_of, found_as, with_found};
ghost use Rattle.fam_fsck.specs.Scan.{bad_after, first_scan, past_by, with_slot, with_survey};

use crate::findings::Findings;
use fam_base::{OutOfMemory, PATH_LIMIT, Params};
use fam_entry::{
    bare_entry, borrowed_entry, check_entry, checked_extents, is_short, read_short, short_path,
};
use fam_format::Reason;
use fam_rules::{LogState, Report, SuperState};
use fam_tree::EntryRef;
use std::alloc::Global;
use std::marker::Model;

/// A look at the slots of a log, one by one from slot 0.
#[derive(Drop)]
pub struct Fsck {
    findings: Findings,
    gate: u64,
    added: u64,
    bad: Option<(u64, Reason)>,
    past: u64,
}

impl Model for Fsck {
    ghost use Rattle.fam_fsck.specs.Scan.{HangsTogether, Scan, scanned_survey};

    ghost Value = { Scan };

    ghost view = { λ f. record {
      params = f.findings.params;
      gate = f.gate;
      added = f.added;
      survey = scanned_survey f.findings.found f.bad f.past;
    } };

    ghost invariant = { λ f. HangsTogether f.findings.params f.added f.past };
}

/// The first bad entry, after entry `number` with this against it, or nothing.
fn first_bad(
    bad: Option<(u64, Reason)>,
    number: u64,
    fault: Option<Reason>,
) -> Option<(u64, Reason)>
    ensures { result ≡ bad_after bad number fault }
{
    match fault {
        None => bad,
        Some(reason) => match bad {
            None => Some((number, reason)),
            Some(first) => Some(first),
        },
    }
}

/// Adds the entry of a slot whose words were checked, and says why it doesn't apply to the tree.
fn add_entry(
    findings: &mut Findings,
    number: u64,
    words: &[u64],
    field: &[u8; PATH_LIMIT],
) -> Result<Option<Reason>, OutOfMemory>
    requires long { 64 ≤ length words.now }
    requires proper { Proper findings.old.params (fields_of words.now) }
    requires fields { HasFields words.now field.now }
    ensures fault { IfOk result (λ fault.
        fault ≡ tree_fault (replay (applied_of findings.old.found)) (fields_of words.now)) }
    ensures found { IfOk result (λ fault.
        findings.new ≡ with_found findings.old (found_as number (fields_of words.now) fault)) }
    ensures err { OnErr result (findings.new ≡ findings.old) }
{
    if let Some(entry) = bare_entry(words, field) {
        return findings.add(number, &entry);
    }
    let extents = checked_extents(words);
    let entry = borrowed_entry(words, field, extents.as_slice());
    findings.add(number, &entry)
}

impl Fsck {
    /// No slot yet, of a file system whose superblock and log are sound, with this gate.
    pub fn new(alloc: Global, params: &Params, gate: u64) -> Result<Fsck, OutOfMemory>
        requires { SoundParams params.now }
        ensures { IfOk result (λ f. f ≡ first_scan params.now gate) }
    {
        let findings = Findings::new(alloc, params)?;
        Ok(Fsck {
            findings,
            gate,
            added: 0,
            bad: None,
            past: 0,
        })
    }

    /// Adds what a slot below the gate reads as; where that is an entry, its path lies in the field.
    fn add_below(
        &mut self,
        words: &[u64],
        field: &[u8; PATH_LIMIT],
        read: &Result<(), Reason>,
    ) -> Result<(), OutOfMemory>
        requires long { 64 ≤ length words.now }
        requires fewer { self.old.added < self.old.params.slots }
        requires proper { OnOk read.now (Proper self.old.params (fields_of words.now)) }
        requires fields { OnOk read.now (HasFields words.now field.now) }
        ensures slot { OnOk result (self.new
            ≡ with_survey self.old (below_gate self.old.survey self.old.added (read_as words.now read.now))) }
        ensures err { OnErr result (self.new ≡ self.old) }
        ensures want { OnErr result (IsOk (read_as words.now read.now)) }
    {
        match read {
            Ok(()) => {
                let fault = add_entry(&mut self.findings, self.added, words, field)?;
                self.bad = first_bad(self.bad, self.added, fault);
                self.added += 1;
                Ok(())
            }
            Err(reason) => {
                self.bad = first_bad(self.bad, self.added, Some(*reason));
                self.added += 1;
                Ok(())
            }
        }
    }

    /// Adds a slot at or past the gate, which reads as an entry or not.
    fn add_past(&mut self, reads: bool)
        requires fewer { self.old.added < self.old.params.slots }
        ensures { self.new ≡ with_survey self.old (past_by self.old.survey reads) }
    {
        self.added += 1;
        if reads {
            self.past += 1;
        }
    }

    /// Adds a slot below the gate that reads as an entry.
    fn add_found(&mut self, entry: &EntryRef<'_>) -> Result<(), OutOfMemory>
        requires fewer { self.old.added < self.old.params.slots }
        requires proper { Proper self.old.params entry.now }
        ensures slot { OnOk result (self.new
            ≡ with_survey self.old (below_gate self.old.survey self.old.added (Ok entry.now))) }
        ensures err { OnErr result (self.new ≡ self.old) }
    {
        let fault = self.findings.add(self.added, entry)?;
        self.bad = first_bad(self.bad, self.added, fault);
        self.added += 1;
        Ok(())
    }

    /// Adds a slot below the gate that reads as none, with what is against it.
    fn add_bad(&mut self, reason: Reason)
        requires fewer { self.old.added < self.old.params.slots }
        ensures { self.new ≡ with_survey self.old (below_gate self.old.survey self.old.added (Err reason)) }
    {
        self.bad = first_bad(self.bad, self.added, Some(reason));
        self.added += 1;
    }

    /// Adds the words of the next slot, which have a short path and no map.
    #[inline(always)]
    fn add_short(&mut self, words: &[u64]) -> Result<(), OutOfMemory>
        requires fewer { self.old.added < self.old.params.slots }
        requires count { length words.now ≡ (geometry self.old.params).words }
        requires long { 64 ≤ length words.now }
        requires short { IsShort words.now }
        ensures slot { OnOk result (self.new ≡ with_slot self.old words.now) }
        ensures err { OnErr result (self.new ≡ self.old) }
        ensures below { OnErr result (self.old.added < self.old.gate) }
        ensures entry { OnErr result (IsOk (entry_of self.old.params words.now self.old.added)) }
    {
        let path = short_path(words);
        let read = read_short(words, self.added, self.findings.params(), &path);
        if self.added >= self.gate {
            self.add_past(read.is_ok());
            return Ok(());
        }
        match read {
            Ok(entry) => self.add_found(&entry),
            Err(reason) => {
                self.add_bad(reason);
                Ok(())
            }
        }
    }

    /// Adds the words of the next slot, whatever path and map they have.
    #[inline(never)]
    fn add_long(&mut self, words: &[u64]) -> Result<(), OutOfMemory>
        requires fewer { self.old.added < self.old.params.slots }
        requires count { length words.now ≡ (geometry self.old.params).words }
        ensures slot { OnOk result (self.new ≡ with_slot self.old words.now) }
        ensures err { OnErr result (self.new ≡ self.old) }
        ensures below { OnErr result (self.old.added < self.old.gate) }
        ensures entry { OnErr result (IsOk (entry_of self.old.params words.now self.old.added)) }
    {
        let mut field = [0; PATH_LIMIT];
        let read = check_entry(words, self.added, self.findings.params(), &mut field);
        if self.added < self.gate {
            return self.add_below(words, &field, &read);
        }
        self.add_past(read.is_ok());
        Ok(())
    }

    /// Adds the words of the next slot. After an Err everything is as before.
    pub fn add(&mut self, words: &[u64]) -> Result<(), OutOfMemory>
        requires fewer { self.old.added < self.old.params.slots }
        requires count { length words.now ≡ (geometry self.old.params).words }
        ensures slot { OnOk result (self.new ≡ with_slot self.old words.now) }
        ensures err { OnErr result (self.new ≡ self.old) }

        // Memory is wanted only for an entry below the gate.
        ensures below { OnErr result (self.old.added < self.old.gate) }
        ensures entry { OnErr result (IsOk (entry_of self.old.params words.now self.old.added)) }
    {
        if is_short(words) {
            return self.add_short(words);
        }
        self.add_long(words)
    }

    /// The report over the slots that were added.
    pub fn report(&self) -> Report
        ensures { result ≡ report_by self.now.params self.now.gate self.now.survey }
    {
        let used = self.findings.used();
        Report {
            superblock: SuperState::Sound,
            log: LogState::Sound {
                entries: self.gate,
                slots: self.findings.params().slots,
            },
            files: self.findings.files(),
            directories: self.findings.directories(),
            used,
            free: self.findings.units() - used,
            overlap: self.findings.overlap(),
            bad: self.bad,
            past: self.past,
        }
    }
}
