//! A reading of a log's slots, one after another. Its entries take memory, so they are first kept with the first slot
//! that is read. What an earlier reading kept is taken over then.

ghost use Rattle.std.specs.Prelude.{◌≡◌, ◌≤◌, ◌<◌, ℕ, [], false, true, None, Ok, Some, IfOk, IfSome, IsErr, IsSome, OnOk, OnErr, length, take};
ghost use Rattle.std.specs.FinMap as map;
ghost use Rattle.fam_base.specs.Commands.{IsSoundCmd};
ghost use Rattle.fam_base.specs.declared.entry.Params.{Params};
ghost use Rattle.fam_format.specs.Layout.{geometry};
ghost use Rattle.fam_format.specs.Params.{SoundParams};
ghost use Rattle.fam_format.specs.Slot.{entry_of, fields_of, Proper};
ghost use Rattle.fam_format.specs.Tree.{join_fault, replay};
ghost use Rattle.fam_entry.specs.Short.{IsShort};
ghost use Rattle.fam_entry.specs.Tests.{HasFields};
ghost use Rattle.fam_rules.specs.Decide.{decide, wish_of};
ghost use Rattle.fam_plan.specs.Needs.{NeedsUnits};
ghost use Rattle.fam_replay.specs.Replica.{FindsNext, JoinsNext, all_of};
ghost use Rattle.fam_replay.specs.Replay.{entries_in, HasFoundAll, IsAgainst, IsReplayOf, IsRoomFor, Joins, ReadsNext};

use crate::replica::{Replica, reason_or_memory};
use fam_base::{Cmd, Entry, OutOfMemory, PATH_LIMIT, Params, Path};
use fam_entry::{
    bare_entry, borrowed_entry, check_entry, checked_entry, checked_extents, is_short, read_short,
    short_path,
};
use fam_format::Reason;
use fam_plan::{Plan, first_entry_fault, first_entry_refusal};
use fam_rules::Refused;
use fam_tree::{EntryRef, Tree};
use std::alloc::Global;
use std::marker::Model;
use uuid::Uuid;

/// The entries of the slots that were read, and what an earlier reading kept of them. A contract sees a replica where a
/// slot was read.
#[derive(Drop)]
pub struct Replay {
    alloc: Global,
    /// What an earlier reading kept, until it is taken over.
    kept: Option<Replica>,
    /// Whether the words of the slots are kept for later readings.
    keeps: bool,
    replica: Option<Replica>,
}

impl Model for Replay {
    ghost use Rattle.std.specs.Prelude.{Option};
    ghost use Rattle.std.specs.Coded.{coded_option};
    ghost use Rattle.fam_replay.specs.Replica.{ReplicaState, replica_code};

    ghost Value = { Option ReplicaState };

    ghost coded = { coded_option replica_code };

    ghost view = { λ r. r.replica };
}

/// What is kept, where it is of the file system with these parameters and the gate counts no fewer entries: nothing of
/// it was found so far.
fn take_over(kept: &mut Option<Replica>, keeps: bool, params: &Params, gate: u64) -> Option<Replica>
    ensures fits { IsReplayOf params.now gate result }
    ensures none { entries_in result ≡ [] }
{
    match kept.take() {
        Some(mut replica) => {
            if !replica.is_of(params, gate) {
                return None;
            }
            replica.rewind(0, keeps);
            Some(replica)
        }
        None => None,
    }
}

/// Why the first entry of a log doesn't join, where no memory is left for a plan. It stands apart, since it is rare.
#[inline(never)]
fn fault_alone(params: &Params, entry: &EntryRef<'_>) -> Result<Option<Reason>, OutOfMemory>
    requires sound { SoundParams params.now }
    requires proper { Proper params.now entry.now }
    ensures fault { IfOk result (λ fault. Joins fault params.now [] entry.now []) }
    ensures want { OnErr result (join_fault params.now [] entry.now ≡ None) }
{
    reason_or_memory(first_entry_fault(params, &entry.to_entry()))
}

/// Why a command appends no first entry to a log, where no memory is left for a plan.
fn refused_alone(
    params: &Params,
    cmd: &Cmd,
    me: &Uuid,
) -> Result<Result<Entry, Refused>, OutOfMemory>
    requires sound { SoundParams params.now }
    requires wish { IsSome (wish_of cmd.now) }
    ensures value { IfOk result (λ decision. decide params.now me.now [] cmd.now ≡ Some decision) }
    ensures none { IfOk result (λ decision. IsErr decision) }
    ensures want { OnErr result (NeedsUnits (decide params.now me.now [] cmd.now)) }
{
    match first_entry_refusal(params, cmd, me) {
        Ok(()) => Err(OutOfMemory),
        Err(refused) => Ok(Err(refused)),
    }
}

/// Why an entry doesn't join those of a plan, or out of memory where nothing is against it.
fn fault_behind(plan: &Plan, entry: &Entry) -> Result<Reason, OutOfMemory>
    requires { Proper plan.now.params entry.now }
    ensures fault { IfOk result (λ reason. join_fault plan.now.params plan.now.entries entry.now ≡ Some reason) }
    ensures want { OnErr result (join_fault plan.now.params plan.now.entries entry.now ≡ None) }
{
    match plan.fault_among(plan.count(), entry) {
        Some(reason) => Ok(reason),
        None => Err(OutOfMemory),
    }
}

/// Why the words of the slot behind the entries of a plan add none to them. It takes no memory, and says out of memory
/// where nothing is against them.
pub fn reason_behind(plan: &Plan, words: &[u64]) -> Result<Reason, OutOfMemory>
    requires { length words.now ≡ (geometry plan.now.params).words }
    ensures against { IfOk result (IsAgainst plan.now.params words.now plan.now.entries) }
    ensures want { OnErr result (JoinsNext plan.now.params words.now plan.now.entries) }
{
    plan.each_entry_joins();
    let mut field = [0; PATH_LIMIT];
    match check_entry(words, plan.count(), plan.params(), &mut field) {
        Ok(()) => fault_behind(plan, &checked_entry(words, &field)),
        Err(reason) => Ok(reason),
    }
}

impl Replay {
    /// Before the first slot. Nothing is kept, neither from an earlier reading nor for a later one.
    pub fn new(alloc: Global) -> Replay
        ensures { result ≡ None }
    {
        Replay {
            alloc,
            kept: None,
            keeps: false,
            replica: None,
        }
    }

    /// Takes what an earlier reading kept, and keeps more for a later one: a slot that has the same words isn't judged
    /// again. It changes nothing that is read.
    pub fn remember(&mut self, kept: Option<Replica>)
        ensures { self.new ≡ self.old }
    {
        self.kept = kept;
        self.keeps = true;
    }

    /// What is kept for a later reading, if anything is.
    pub fn into_kept(self) -> Option<Replica> {
        let Replay { kept, replica, .. } = self;
        replica.or(kept)
    }

    /// What was read, if a slot was.
    pub fn into_replica(self) -> Option<Replica>
        ensures { result ≡ self }
    {
        self.replica
    }

    /// Goes on behind the entries of a plan, as if their slots had been read.
    pub fn begin_behind(&mut self, plan: Plan)
        ensures { self.new ≡ Some (all_of plan) }
    {
        self.replica = Some(Replica::of(self.alloc, plan, self.keeps));
    }

    /// Goes on behind so many entries of an earlier reading, as if their slots had been read. Those behind them are kept
    /// from that.
    pub fn resume_behind(&mut self, mut replica: Replica, found: u64)
        requires { found ≤ length replica.entries }
        ensures { self.new ≡ Some (record replica { found = found }) }
    {
        replica.rewind(found, self.keeps);
        self.replica = Some(replica);
    }

    /// How many entries were found.
    pub fn count(&self) -> u64
        ensures { result ≡ length (entries_in self.now) }
    {
        match &self.replica {
            Some(replica) => replica.count(),
            None => 0,
        }
    }

    /// Takes over what an earlier reading kept, where there is no replica so far.
    #[inline(always)]
    fn resume(&mut self, params: &Params, gate: u64)
        requires { IsReplayOf params.now gate self.old }
        ensures same { entries_in self.new ≡ entries_in self.old }
        ensures fits { IsReplayOf params.now gate self.new }
    {
        if self.replica.is_none() {
            self.take_kept(params, gate);
        }
    }

    /// Takes over what an earlier reading kept. It stands apart, since it is done once.
    #[inline(never)]
    fn take_kept(&mut self, params: &Params, gate: u64)
        requires { self.old ≡ None }
        ensures same { entries_in self.new ≡ entries_in self.old }
        ensures fits { IsReplayOf params.now gate self.new }
    {
        self.replica = take_over(&mut self.kept, self.keeps, params, gate);
    }

    /// How many slots have words that are kept, behind those that were found, once a slot was read. No contract hangs on it:
    /// it tells how far it is worth to look.
    #[inline(always)]
    pub fn kept_ahead(&self) -> u64 {
        match &self.replica {
            Some(replica) => replica.kept_ahead(),
            None => 0,
        }
    }

    /// Whether the words of the next slot are those that are kept of it. Then its entry joins those that were found.
    #[inline(always)]
    pub fn find(&mut self, params: &Params, gate: u64, words: &[u64]) -> bool
        requires { IsReplayOf params.now gate self.old }
        ensures found { result ≡ true → FindsNext params.now words.now (entries_in self.old) (entries_in self.new) }
        ensures other { result ≡ false → entries_in self.new ≡ entries_in self.old }
        ensures fits { IsReplayOf params.now gate self.new }
    {
        self.resume(params, gate);
        match &mut self.replica {
            Some(replica) => replica.find(words),
            None => false,
        }
    }

    /// Makes a replica of no entries, where there is none.
    #[inline(always)]
    fn begin(&mut self, params: &Params, gate: u64) -> Result<(), OutOfMemory>
        requires sound { SoundParams params.now }
        requires fits { IsReplayOf params.now gate self.old }
        ensures some { OnOk result (IsSome self.new) }
        ensures same { entries_in self.new ≡ entries_in self.old }
        ensures fits { IsReplayOf params.now gate self.new }
        ensures none { OnErr result (entries_in self.old ≡ []) }
    {
        self.resume(params, gate);
        if self.replica.is_some() {
            return Ok(());
        }
        self.begin_anew(params)
    }

    /// Makes a replica of no entries. It stands apart, since it is done once.
    #[inline(never)]
    fn begin_anew(&mut self, params: &Params) -> Result<(), OutOfMemory>
        requires sound { SoundParams params.now }
        requires none { self.old ≡ None }
        ensures some { OnOk result (IsSome self.new) }
        ensures same { entries_in self.new ≡ entries_in self.old }
        ensures fits { (gate : ℕ) → IsReplayOf params.now gate self.new }
        ensures err { OnErr result (self.new ≡ self.old) }
    {
        self.replica = Some(Replica::new(self.alloc, params, self.keeps)?);
        Ok(())
    }

    /// The entry of the next slot joins those that were found, or not.
    fn join(
        &mut self,
        params: &Params,
        gate: u64,
        words: &[u64],
        entry: &EntryRef<'_>,
    ) -> Result<Option<Reason>, OutOfMemory>
        requires sound { SoundParams params.now }
        requires fits { IsReplayOf params.now gate self.old }
        requires gate { gate ≤ params.now.slots }
        requires left { length (entries_in self.old) < gate }
        requires proper { Proper params.now entry.now }
        requires read { entry_of params.now words.now (length (entries_in self.old)) ≡ Ok entry.now }
        ensures joins { IfOk result (λ fault.
            Joins fault params.now (entries_in self.old) entry.now (entries_in self.new)) }
        ensures fits { IsReplayOf params.now gate self.new }
        ensures err { OnErr result (entries_in self.new ≡ entries_in self.old) }
        ensures want { OnErr result (join_fault params.now (entries_in self.old) entry.now ≡ None) }
    {
        if self.begin(params, gate).is_err() {
            return fault_alone(params, entry);
        }
        match &mut self.replica {
            Some(replica) => replica.add(self.alloc, words, entry),
            None => unreachable!(),
        }
    }

    /// The entry of the next slot, whose words were checked, joins those that were found, or not.
    fn join_checked(
        &mut self,
        params: &Params,
        gate: u64,
        words: &[u64],
        field: &[u8; PATH_LIMIT],
    ) -> Result<Option<Reason>, OutOfMemory>
        requires sound { SoundParams params.now }
        requires long { 64 ≤ length words.now }
        requires fields { HasFields words.now field.now }
        requires fits { IsReplayOf params.now gate self.old }
        requires gate { gate ≤ params.now.slots }
        requires left { length (entries_in self.old) < gate }
        requires proper { Proper params.now (fields_of words.now) }
        requires read { entry_of params.now words.now (length (entries_in self.old)) ≡ Ok (fields_of words.now) }
        ensures joins { IfOk result (λ fault.
            Joins fault params.now (entries_in self.old) (fields_of words.now) (entries_in self.new)) }
        ensures fits { IsReplayOf params.now gate self.new }
        ensures err { OnErr result (entries_in self.new ≡ entries_in self.old) }
        ensures want { OnErr result
            (join_fault params.now (entries_in self.old) (fields_of words.now) ≡ None) }
    {
        if let Some(entry) = bare_entry(words, field) {
            return self.join(params, gate, words, &entry);
        }
        let extents = checked_extents(words);
        let entry = borrowed_entry(words, field, extents.as_slice());
        self.join(params, gate, words, &entry)
    }

    /// Reads the words of the next slot as an entry's, which have a short path and no map.
    #[inline(always)]
    fn judge_short(
        &mut self,
        params: &Params,
        gate: u64,
        words: &[u64],
    ) -> Result<Option<Reason>, OutOfMemory>
        requires sound { SoundParams params.now }
        requires count { length words.now ≡ (geometry params.now).words }
        requires long { 64 ≤ length words.now }
        requires short { IsShort words.now }
        requires fits { IsReplayOf params.now gate self.old }
        requires gate { gate ≤ params.now.slots }
        requires left { length (entries_in self.old) < gate }
        ensures reads { IfOk result (λ reason.
            ReadsNext reason params.now words.now (entries_in self.old) (entries_in self.new)) }
        ensures fits { IsReplayOf params.now gate self.new }
        ensures err { OnErr result (entries_in self.new ≡ entries_in self.old) }
        ensures want { OnErr result (JoinsNext params.now words.now (entries_in self.old)) }
    {
        let path = short_path(words);
        match read_short(words, self.count(), params, &path) {
            Ok(entry) => self.join(params, gate, words, &entry),
            Err(reason) => Ok(Some(reason)),
        }
    }

    /// Reads the words of the next slot as an entry's, whatever path and map they have.
    #[inline(never)]
    fn judge_long(
        &mut self,
        params: &Params,
        gate: u64,
        words: &[u64],
    ) -> Result<Option<Reason>, OutOfMemory>
        requires sound { SoundParams params.now }
        requires count { length words.now ≡ (geometry params.now).words }
        requires fits { IsReplayOf params.now gate self.old }
        requires gate { gate ≤ params.now.slots }
        requires left { length (entries_in self.old) < gate }
        ensures reads { IfOk result (λ reason.
            ReadsNext reason params.now words.now (entries_in self.old) (entries_in self.new)) }
        ensures fits { IsReplayOf params.now gate self.new }
        ensures err { OnErr result (entries_in self.new ≡ entries_in self.old) }
        ensures want { OnErr result (JoinsNext params.now words.now (entries_in self.old)) }
    {
        let mut field = [0; PATH_LIMIT];
        match check_entry(words, self.count(), params, &mut field) {
            Ok(()) => self.join_checked(params, gate, words, &field),
            Err(reason) => Ok(Some(reason)),
        }
    }

    /// Reads the words of the next slot as an entry's. Most have a short path, and no map.
    fn judge(
        &mut self,
        params: &Params,
        gate: u64,
        words: &[u64],
    ) -> Result<Option<Reason>, OutOfMemory>
        requires sound { SoundParams params.now }
        requires count { length words.now ≡ (geometry params.now).words }
        requires fits { IsReplayOf params.now gate self.old }
        requires gate { gate ≤ params.now.slots }
        requires left { length (entries_in self.old) < gate }
        ensures reads { IfOk result (λ reason.
            ReadsNext reason params.now words.now (entries_in self.old) (entries_in self.new)) }
        ensures fits { IsReplayOf params.now gate self.new }
        ensures err { OnErr result (entries_in self.new ≡ entries_in self.old) }
        ensures want { OnErr result (JoinsNext params.now words.now (entries_in self.old)) }
    {
        if is_short(words) {
            return self.judge_short(params, gate, words);
        }
        self.judge_long(params, gate, words)
    }

    /// Reads the words of the next slot, which the gate counts: its entry joins those that were found, or the reason
    /// against it is given. Where memory lacks for an entry that joins, what was found stays.
    pub fn read_slot(
        &mut self,
        params: &Params,
        gate: u64,
        words: &[u64],
    ) -> Result<Option<Reason>, OutOfMemory>
        requires sound { SoundParams params.now }
        requires count { length words.now ≡ (geometry params.now).words }
        requires fits { IsReplayOf params.now gate self.old }
        requires gate { gate ≤ params.now.slots }
        requires left { length (entries_in self.old) < gate }

        ensures reads { IfOk result (λ reason.
            ReadsNext reason params.now words.now (entries_in self.old) (entries_in self.new)) }
        ensures fits { IsReplayOf params.now gate self.new }
        ensures err { OnErr result (entries_in self.new ≡ entries_in self.old) }
        ensures want { OnErr result (JoinsNext params.now words.now (entries_in self.old)) }
    {
        if self.find(params, gate, words) {
            return Ok(None);
        }
        self.judge(params, gate, words)
    }

    /// What a command appends behind the entries that were found, or why nothing. Nothing else may be kept.
    pub fn decide(
        &mut self,
        params: &Params,
        gate: u64,
        cmd: &Cmd,
        me: Uuid,
    ) -> Result<Result<Entry, Refused>, OutOfMemory>
        requires sound { SoundParams params.now }
        requires fits { IsReplayOf params.now gate self.old }
        requires all { length (entries_in self.old) ≡ gate }
        requires wish { IsSome (wish_of cmd.now) }

        ensures value { IfOk result (λ decision. decide params.now me (entries_in self.old) cmd.now ≡ Some decision) }
        ensures may { IsSoundCmd cmd.now → IfOk result (λ decision. IfOk decision (IsRoomFor params.now (entries_in self.old))) }
        ensures same { entries_in self.new ≡ entries_in self.old }
        ensures fits { IsReplayOf params.now gate self.new }
        ensures want { OnErr result (NeedsUnits (decide params.now me (entries_in self.old) cmd.now)) }
        ensures none { OnErr result (entries_in self.old ≡ []) }
    {
        if self.begin(params, gate).is_err() {
            return refused_alone(params, cmd, &me);
        }
        match &self.replica {
            Some(replica) => Ok(replica.decide(cmd, me)),
            None => unreachable!(),
        }
    }

    /// What stands at a path, by the entries that were found. Nothing else may be kept.
    pub fn at(&self, path: &Path) -> Option<Entry>
        requires { HasFoundAll self.now }
        ensures value { result ≡ map.get (replay (entries_in self.now)) path.now }
        ensures proper { (p : Params) (gate : ℕ) → IsReplayOf p gate self.now → IfSome result (Proper p) }
    {
        match &self.replica {
            Some(replica) => replica.at(path),
            None => None,
        }
    }

    /// The tree of the entries that were found, where a slot was read. Nothing else may be kept.
    pub fn tree(&self) -> Option<&Tree>
        requires { HasFoundAll self.now }
        ensures some { IfSome result (λ tree. tree.now ≡ replay (entries_in self.now)) }
        ensures none { result ≡ None → entries_in self.now ≡ [] }
    {
        match &self.replica {
            Some(replica) => Some(replica.tree()),
            None => None,
        }
    }

    /// The plan of the entries that were found, where a slot was read. The caller takes it over: nothing is kept of it.
    /// Nothing else may be kept before.
    pub fn take_plan(&mut self) -> Option<Plan>
        requires { HasFoundAll self.old }
        ensures params { (p : Params) (gate : ℕ) → IsReplayOf p gate self.old → IfSome result (λ plan. plan.params ≡ p) }
        ensures entries { IfSome result (λ plan. plan.entries ≡ entries_in self.old) }
        ensures none { result ≡ None → entries_in self.old ≡ [] }
        ensures left { self.new ≡ None }
    {
        match self.replica.take() {
            Some(replica) => Some(replica.into_plan()),
            None => None,
        }
    }

    /// Goes back behind the first entries that were found. Those behind them are kept, as if an earlier reading had found them.
    pub fn step_back(&mut self, found: u64)
        requires { found ≤ length (entries_in self.old) }
        ensures entries { entries_in self.new ≡ take found (entries_in self.old) }
        ensures fits { (p : Params) (gate : ℕ) → IsReplayOf p gate self.old → IsReplayOf p gate self.new }
    {
        let keeps = self.keeps;
        let Some(replica) = &mut self.replica else {
            return;
        };
        replica.rewind(found, keeps);
    }
}
