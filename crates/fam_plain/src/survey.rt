//! The slots of a log, looked at one by one.

ghost use Rattle.std.specs.Prelude.{◌≡◌, ◌+◌, ◌-◌, ◌<◌, ◌≤◌, ◌^◌, IfOk, OnOk, Ok};
ghost use Rattle.fam_format.specs.Layout.{geometry};
ghost use Rattle.fam_format.specs.Params.{SoundParams};
ghost use Rattle.fam_format.specs.Tree as tree;
ghost use Rattle.fam_plain.specs.Survey.{survey_from};
ghost use Rattle.fam_plain.specs.Told.{survey_of};
ghost use Rattle.fam_rules.specs.Reports.{below_gate, first_bad, no_survey, past_gate, survey_slot};

use crate::join::tree_fault;
use fam_base::{Entry, OutOfMemory, Params};
use fam_entry::read_entry;
use fam_format::{Reason, SLOT_WORDS};
use std::alloc::Global;

/// What slots have told.
#[derive(Drop)]
pub(crate) struct Told {
    /// The entries below the gate that read, with their numbers.
    pub found: Vec<(u64, Entry)>,
    /// Those of them that applied to the tree of the ones applied before.
    pub applied: Vec<Entry>,
    /// The first that didn't read or apply.
    pub bad: Option<(u64, Reason)>,
    /// How many slots at or past the gate read.
    pub past: u64,
}

/// The first bad slot stays the first.
fn first_bad(bad: Option<(u64, Reason)>, number: u64, reason: Reason) -> Option<(u64, Reason)>
    ensures { result ≡ first_bad bad number reason }
{
    match bad {
        None => Some((number, reason)),
        Some(before) => Some(before),
    }
}

impl Told {
    /// Nothing was looked at.
    fn nothing(alloc: Global) -> Told
        ensures { survey_of result ≡ no_survey }
    {
        Told {
            found: Vec::new(alloc),
            applied: Vec::new(alloc),
            bad: None,
            past: 0,
        }
    }

    /// An entry that reads below the gate applies, or doesn't.
    fn apply(&mut self, number: u64, entry: &Entry) -> Result<(), OutOfMemory>
        ensures { OnOk result (survey_of self.new ≡ below_gate (survey_of self.old) number (Ok entry.now)) }
    {
        if self.found.push((number, *entry)).is_err() {
            return Err(OutOfMemory);
        }
        if let Some(reason) = tree_fault(&self.applied, entry) {
            self.bad = first_bad(self.bad, number, reason);
            return Ok(());
        }
        match self.applied.push(*entry) {
            Ok(()) => Ok(()),
            Err(_) => Err(OutOfMemory),
        }
    }

    /// What a slot below the gate reads as.
    fn below(&mut self, number: u64, read: &Result<Entry, Reason>) -> Result<(), OutOfMemory>
        ensures { OnOk result (survey_of self.new ≡ below_gate (survey_of self.old) number read.now) }
    {
        match read {
            Ok(entry) => self.apply(number, entry),
            Err(reason) => {
                self.bad = first_bad(self.bad, number, *reason);
                Ok(())
            }
        }
    }

    /// What a slot at or past the gate reads as.
    fn past(&mut self, read: &Result<Entry, Reason>)
        requires { self.old.past < 2 ^ 64 - 1 }
        ensures { survey_of self.new ≡ past_gate (survey_of self.old) read.now }
    {
        if read.is_ok() {
            self.past += 1;
        }
    }

    /// A slot with its number.
    #[tactic(auto, unfolding(fam_rules::specs::Reports::survey_slot))]
    fn slot(
        &mut self,
        number: u64,
        words: &[u64; SLOT_WORDS],
        params: &Params,
        gate: u64,
    ) -> Result<(), OutOfMemory>
        requires sound { SoundParams params.now }
        requires format { (geometry params.now).words ≡ SLOT_WORDS }
        requires few { self.old.past < 2 ^ 64 - 1 }
        ensures slot { OnOk result (survey_of self.new ≡ survey_slot params.now gate number words.now (survey_of self.old)) }
        ensures few { OnOk result (self.new.past ≤ self.old.past + 1) }
    {
        let read = read_entry(words, number, params);
        if number < gate {
            return self.below(number, &read);
        }
        self.past(&read);
        Ok(())
    }
}

/// What all slots of a log tell, from the first on.
pub(crate) fn look(
    alloc: Global,
    params: &Params,
    slots: &[[u64; SLOT_WORDS]],
    gate: u64,
) -> Result<Told, OutOfMemory>
    requires sound { SoundParams params.now }
    requires format { (geometry params.now).words ≡ SLOT_WORDS }
    ensures { IfOk result (λ told. survey_of told ≡ survey_from params.now gate 0 slots.now no_survey) }
{
    let mut told = Told::nothing(alloc);
    for number in 0..slots.len() {
        told.slot(number as u64, &slots[number], params, gate)?;
    }
    Ok(told)
}
