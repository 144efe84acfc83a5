//! What is kept of the log that was read: a slot that has the words which an earlier reading found is neither read nor
//! judged again.
//!
//! From its second command on a host of a world keeps the words of each slot, with the plan of their entries, for its
//! next command; a command of its own, which has no successor, keeps none. The next command loads every slot's lines as
//! before. But where a slot's words are the kept ones its entry is known, behind the same entries: no checksum is
//! computed, no entry read, and none looked for in the tree. That costs 512 bytes a slot and host for the words, and
//! 1,024 in format 2.
//!
//! At the first slot that differs the plan of the entries before it is made anew (`Plan::first`). Where there is no
//! memory for that, a fault of the entry is found by looking through those entries (`fault_among`), so want of memory
//! never hides one.

ghost use Rattle.std.specs.Prelude.{◌≡◌, ◌+◌, [], ◌<◌, ◌≤◌, true, false, None, Some, Ok, IfOk, IfSome, IsSome, OnOk, OnErr, length, max, take};
ghost use Rattle.std.specs.FinMap as map;
ghost use Rattle.fam_base.specs.Commands.{IsSoundCmd};
ghost use Rattle.fam_format.specs.Params.{SoundParams};
ghost use Rattle.fam_format.specs.Slot.{entry_of, Proper};
ghost use Rattle.fam_format.specs.Tree.{join_fault, replay};
ghost use Rattle.fam_rules.specs.Decide.{decide, wish_of};
ghost use Rattle.fam_plan.specs.Faults.{reason_of};
ghost use Rattle.fam_replay.specs.Replica.{AreKeptAt, AreRead, FindsNext, AreAllFound, KeepsWords, all_of, found_in};
ghost use Rattle.fam_replay.specs.Replay.{IsReplayOf, IsRoomFor, Joins};

use crate::kept_slot::KeptSlot;
use crate::same::same_slot;
use fam_base::{Cmd, Entry, OutOfMemory, Params, Path};
use fam_format::Reason;
use fam_plan::{AddFault, Plan, decide_with_length};
use fam_rules::Refused;
use fam_tree::{EntryRef, Tree};
use std::alloc::Global;
use std::marker::Model;
use uuid::Uuid;

/// A plan of the entries of a log, with the words of the slots from which they were read. The reading that is under way
/// has found the first of them, and those behind are kept from an earlier one.
#[derive(Drop)]
pub struct Replica {
    plan: Plan,
    /// The first slot whose words are kept.
    first: u64,
    /// The words of that slot and of those behind it, as far as they are kept.
    slots: Vec<KeptSlot>,
    /// How many of the plan's entries the reading has found.
    found: u64,
    /// Whether the words of further slots are kept.
    keeps: bool,
}

impl Model for Replica {
    ghost use Rattle.fam_replay.specs.Replica.{IsReplica, ReplicaState, replica_code};

    ghost Value = { ReplicaState };

    ghost coded = { replica_code };

    ghost view = { λ r. record { params = r.plan.params; entries = r.plan.entries; found = r.found } };

    ghost invariant = { λ r. IsReplica r.plan r.first r.slots.items r.found };
}

/// Forgets the entries behind the first `found`, and the words of their slots, where there are any. Where memory lacks
/// nothing changes.
#[inline(always)]
fn forget(
    alloc: Global,
    plan: &mut Plan,
    first: u64,
    slots: &mut Vec<KeptSlot>,
    found: u64,
) -> Result<(), OutOfMemory>
    requires read { AreRead plan.old.params first slots.old.items plan.old.entries }
    requires within { found ≤ length plan.old.entries }
    ensures read { AreRead plan.new.params first slots.new.items plan.new.entries }
    ensures first { OnOk result (plan.new.entries ≡ take found plan.old.entries) }
    ensures same { OnErr result (plan.new ≡ plan.old) }
    ensures params { plan.new.params ≡ plan.old.params }
{
    if found < plan.count() {
        return forget_some(alloc, plan, first, slots, found);
    }
    Ok(())
}

/// Forgets entries: the plan is made anew. It stands apart, since it is rare.
#[inline(never)]
fn forget_some(
    alloc: Global,
    plan: &mut Plan,
    first: u64,
    slots: &mut Vec<KeptSlot>,
    found: u64,
) -> Result<(), OutOfMemory>
    requires read { AreRead plan.old.params first slots.old.items plan.old.entries }
    requires within { found < length plan.old.entries }
    ensures read { AreRead plan.new.params first slots.new.items plan.new.entries }
    ensures first { OnOk result (plan.new.entries ≡ take found plan.old.entries) }
    ensures same { OnErr result (plan.new ≡ plan.old) }
    ensures params { plan.new.params ≡ plan.old.params }
{
    *plan = plan.first(alloc, found)?;
    slots.truncate(found.saturating_sub(first) as usize);
    Ok(())
}

/// Why an entry doesn't join, or out of memory where nothing is against it.
pub(crate) fn reason_or_memory(fault: Option<Reason>) -> Result<Option<Reason>, OutOfMemory>
    ensures reason { IfOk result (λ reason. reason ≡ fault) }
    ensures some { IfOk result (λ reason. IsSome reason) }
    ensures none { OnErr result (fault ≡ None) }
{
    match fault {
        Some(reason) => Ok(Some(reason)),
        None => Err(OutOfMemory),
    }
}

/// Why an entry doesn't join the first ones of a plan, or out of memory where nothing is against it. It stands apart, since it
/// is rare.
#[inline(never)]
fn reason_among(
    plan: &Plan,
    found: u64,
    entry: &EntryRef<'_>,
) -> Result<Option<Reason>, OutOfMemory>
    requires proper { Proper plan.now.params entry.now }
    requires within { found ≤ length plan.now.entries }
    ensures fault { IfOk result (λ reason. reason ≡ join_fault plan.now.params (take found plan.now.entries) entry.now) }
    ensures some { IfOk result (λ reason. IsSome reason) }
    ensures want { OnErr result (join_fault plan.now.params (take found plan.now.entries) entry.now ≡ None) }
{
    reason_or_memory(plan.fault_among(found, &entry.to_entry()))
}

/// The fault of a plan among the reasons of a log's reader, if memory didn't run out.
fn reason_against(fault: AddFault) -> Option<Reason>
    ensures { result ≡ reason_of fault }
{
    match fault {
        AddFault::Exists(kind) => Some(Reason::Exists(kind)),
        AddFault::NoParent => Some(Reason::NoParent),
        AddFault::ParentIsFile => Some(Reason::ParentIsFile),
        AddFault::Overlap(unit) => Some(Reason::Overlap(unit)),
        AddFault::OutOfMemory => None,
    }
}

/// Keeps the words of a slot, if they are wanted and those of all slots before it are kept, from the first one on. Where
/// memory lacks they are not.
fn keep(
    alloc: Global,
    first: u64,
    slots: &mut Vec<KeptSlot>,
    wanted: bool,
    slot: u64,
    words: &[u64],
)
    ensures { KeepsWords first slot words.now slots.old.items slots.new.items }
{
    if wanted && first <= slot && slots.len() as u64 == slot - first {
        if let Ok(kept) = KeptSlot::new(alloc, words) {
            let _ = slots.push(kept);
        }
    }
}

/// What is kept of a slot.
#[inline(always)]
fn kept_at(first: u64, slots: &[KeptSlot], slot: u64) -> Option<&KeptSlot>
    ensures { IfSome result (λ kept. AreKeptAt first slots.now slot kept.now) }
{
    if slot < first {
        return None;
    }
    slots.get((slot - first) as usize)
}

/// Whether these are the words that are kept of a slot.
#[inline(always)]
fn is_kept(first: u64, slots: &[KeptSlot], slot: u64, words: &[u64]) -> bool
    ensures { result ≡ true → AreKeptAt first slots.now slot words.now }
{
    match kept_at(first, slots, slot) {
        Some(kept) => same_slot(kept.words(), words),
        None => false,
    }
}

impl Replica {
    /// No entries. The words of slots are kept, or not.
    pub(crate) fn new(alloc: Global, params: &Params, keeps: bool) -> Result<Replica, OutOfMemory>
        requires { SoundParams params.now }
        ensures { IfOk result (λ r. r ≡ record { params = params.now; entries = []; found = 0 }) }
    {
        Ok(Replica {
            plan: Plan::new(alloc, params)?,
            first: 0,
            slots: Vec::new(alloc),
            found: 0,
            keeps,
        })
    }

    /// The entries of a plan, as if their slots had been read. The words of slots behind them are kept, or not.
    pub(crate) fn of(alloc: Global, plan: Plan, keeps: bool) -> Replica
        ensures { result ≡ all_of plan }
    {
        let found = plan.count();
        Replica {
            plan,
            first: found,
            slots: Vec::new(alloc),
            found,
            keeps,
        }
    }

    /// Begins another reading, which has found so many entries so far. The words of further slots are kept, or not.
    pub(crate) fn rewind(&mut self, found: u64, keeps: bool)
        requires { found ≤ length self.old.entries }
        ensures { self.new ≡ record self.old { found = found } }
    {
        self.found = found;
        self.keeps = keeps;
    }

    /// Whether it is of the file system with these parameters, and the gate counts no fewer entries.
    pub fn is_of(&self, params: &Params, gate: u64) -> bool
        ensures same { result ≡ true → IsReplayOf params.now gate (Some self.now) }
        ensures all { IsReplayOf params.now gate (Some self.now) → result ≡ true }
    {
        self.plan.params() == params && self.plan.count() <= gate
    }

    /// How many slots have words that are kept, behind those that were found.
    #[inline(always)]
    pub(crate) fn kept_ahead(&self) -> u64 {
        let end = self.first.saturating_add(self.slots.len() as u64);
        end.saturating_sub(self.found)
    }

    /// Whether the next slot has the words that are kept of it. Then its entry is found: it joins those before it.
    #[inline(always)]
    pub(crate) fn find(&mut self, words: &[u64]) -> bool
        ensures found { result ≡ true
            → FindsNext self.old.params words.now (found_in self.old) (found_in self.new) }
        ensures other { result ≡ false → self.new ≡ self.old }
        ensures kept { self.new.entries ≡ self.old.entries }
        ensures params { self.new.params ≡ self.old.params }
    {
        if !is_kept(self.first, &self.slots, self.found, words) {
            return false;
        }
        self.plan.each_entry_joins();
        self.found += 1;
        true
    }

    /// Adds the entry that the words of the next slot tell where it joins those that were found, and otherwise says why
    /// it doesn't. What is kept behind these is forgotten then.
    pub(crate) fn add(
        &mut self,
        alloc: Global,
        words: &[u64],
        entry: &EntryRef<'_>,
    ) -> Result<Option<Reason>, OutOfMemory>
        requires proper { Proper self.old.params entry.now }
        requires left { length (found_in self.old) < self.old.params.slots }
        requires read { entry_of self.old.params words.now (length (found_in self.old)) ≡ Ok entry.now }

        ensures joins { IfOk result (λ reason.
            Joins reason self.old.params (found_in self.old) entry.now (found_in self.new)) }
        ensures few { length self.new.entries ≤ max (length self.old.entries) (length (found_in self.old) + 1) }
        ensures params { self.new.params ≡ self.old.params }
        ensures err { OnErr result (found_in self.new ≡ found_in self.old) }
        ensures want { OnErr result (join_fault self.old.params (found_in self.old) entry.now ≡ None) }
    {
        match forget(
            alloc,
            &mut self.plan,
            self.first,
            &mut self.slots,
            self.found,
        ) {
            Ok(()) => {}
            Err(_) => return reason_among(&self.plan, self.found, entry),
        }
        match self.plan.add_borrowed(entry) {
            Ok(()) => {
                keep(
                    alloc,
                    self.first,
                    &mut self.slots,
                    self.keeps,
                    self.found,
                    words,
                );
                self.found = self.plan.count();
                Ok(None)
            }
            Err(fault) => reason_or_memory(reason_against(fault)),
        }
    }

    /// What a command appends behind the entries that were found, or why nothing.
    pub(crate) fn decide(&self, cmd: &Cmd, me: Uuid) -> Result<Entry, Refused>
        requires wish { IsSome (wish_of cmd.now) }
        requires whole { AreAllFound self.now }
        ensures value { decide self.now.params me (found_in self.now) cmd.now ≡ Some result }
        ensures may { IsSoundCmd cmd.now
            → IfOk result (λ entry. IsRoomFor self.now.params (found_in self.now) entry) }
    {
        decide_with_length(&self.plan, cmd, me)
    }

    /// How many entries were found.
    pub(crate) fn count(&self) -> u64
        ensures value { result ≡ self.now.found }
        ensures within { self.now.found ≤ length self.now.entries }
    {
        let _ = &self.plan;
        self.found
    }

    /// What stands at each path, by the entries that were found.
    pub(crate) fn tree(&self) -> &Tree
        requires { AreAllFound self.now }
        ensures { result.now ≡ replay (found_in self.now) }
    {
        self.plan.tree()
    }

    /// The plan of the entries, which the caller takes over.
    pub(crate) fn into_plan(self) -> Plan
        requires { AreAllFound self }
        ensures params { result.params ≡ self.params }
        ensures entries { result.entries ≡ found_in self }
    {
        self.plan
    }

    /// What stands at a path, by the entries that were found.
    pub(crate) fn at(&self, path: &Path) -> Option<Entry>
        requires { AreAllFound self.now }
        ensures value { result ≡ map.get (replay (found_in self.now)) path.now }
        ensures proper { IfSome result (Proper self.now.params) }
    {
        self.plan.each_entry_joins();
        self.plan.tree().get(path)
    }
}
