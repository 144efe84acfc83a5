//! The entries that a task has: those that its host keeps, where they serve, and those of the slots that it read.
//!
//! What the host keeps is never changed. A task that reads no slot looks at it where it stands, and copies nothing. The
//! first slot that is read makes a copy, behind which the task reads on; or an earlier task made one, and this task
//! goes on with that. The copy is part of a Digest, and may want memory. Where it finds none the slot is judged by the
//! kept plan (`reason_behind`), so want of memory hides no bad slot.
//!
//! The answer of a logplay has the tree, and the task keeps the entries. Where the host keeps nothing that answer takes no
//! memory: the last slot's Digest has made a copy, which shares all entries.

ghost use Rattle.std.specs.Prelude.{◌≡◌, ◌+◌, ◌≤◌, ◌<◌, ℕ, [], None, Ok, Some, IfOk, IfSome, IsSome, OnErr, OnOk, false, length, option_map, take, true};
ghost use Rattle.std.specs.FinMap as map;
ghost use Rattle.fam_base.specs.Commands.{IsSoundCmd};
ghost use Rattle.fam_base.specs.declared.entry.Params.{Params};
ghost use Rattle.fam_commands.specs.Kept as spec;
ghost use Rattle.fam_commands.specs.Kept.{IsKept, used_by};
ghost use Rattle.fam_format.specs.Layout.{geometry};
ghost use Rattle.fam_format.specs.Params.{SoundParams};
ghost use Rattle.fam_format.specs.Slot.{Proper};
ghost use Rattle.fam_format.specs.Tree.{replay};
ghost use Rattle.fam_plan.specs.Needs.{NeedsUnits};
ghost use Rattle.fam_replay.specs.Replica.{FindsNext, JoinsNext};
ghost use Rattle.fam_replay.specs.Replay.{entries_in, HasFoundAll, IsReplayOf, IsRoomFor, ReadsNext};
ghost use Rattle.fam_rules.specs.Decide.{decide, wish_of};
ghost use Rattle.fam_tasks.specs.History.{IsAtHand, MayFollow, MayServe, kept_of, read_by};

use crate::kept::Kept;
use fam_base::{Cmd, Entry, OutOfMemory, Params, Path};
use fam_format::Reason;
use fam_plan::{Plan, decide_with_length};
use fam_replay::{Replay, Replica, reason_behind};
use fam_rules::Refused;
use fam_tree::Tree;
use std::alloc::Global;
use std::marker::Model;
use uuid::Uuid;

/// What a host keeps, and what its task reads behind it.
#[derive(Drop)]
pub(crate) struct History {
    alloc: Global,
    kept: Option<Kept>,
    /// Whether the task begins with the kept entries, and has read no slot so far.
    serves: bool,
    /// Whether the slots that it reads stand behind the kept entries.
    follows: bool,
    replay: Replay,
    /// For the answer of a logplay whose host keeps nothing, from its last slot on.
    tree: Option<Tree>,
}

impl Model for History {
    ghost use Rattle.fam_base.specs.PathOrder.{path_cmp};
    ghost use Rattle.fam_base.specs.contracts.entry.Entry as entry_type;
    ghost use Rattle.fam_replay.specs.Replica.{replica_code};
    ghost use Rattle.fam_tasks.specs.History.{HistoryState, MayFollow, MayServe, kept_code, read_by};
    ghost use Rattle.std.specs.Coded.{codes, coded_list, coded_ℕ};
    ghost use Rattle.std.specs.FinMap as map;

    ghost Value = { HistoryState };

    ghost coded = { Prim.hlevel (codes, kept_code, replica_code, map.code {R = path_cmp} (coded_list coded_ℕ) entry_type.the_row.coded) };

    ghost view = { λ h. record { kept = h.kept; replay = read_by h.serves h.kept h.replay; tree = h.tree } };

    ghost invariant = { λ h. MayServe h.serves h.kept × MayFollow h.follows h.kept h.replay };
}

/// The kept entries become those of a replay, with what an earlier task read behind them, or in a copy. It stands apart,
/// since it is done once.
#[inline(never)]
fn begin_behind(
    alloc: Global,
    kept: &mut Kept,
    replay: &mut Replay,
    params: &Params,
    gate: u64,
) -> Result<(), OutOfMemory>
    requires some { 0 < length kept.old.entries }
    requires params { kept.old.params ≡ params.now }
    requires gate { length kept.old.entries ≤ gate }
    ensures follows { OnOk result (MayFollow true (Some kept.new) replay.new) }
    ensures entries { OnOk result (entries_in replay.new ≡ kept.old.entries) }
    ensures fits { OnOk result (IsReplayOf params.now gate replay.new) }
    ensures err { OnErr result (replay.new ≡ replay.old) }
    ensures kept { kept.new ≡ kept.old }
{
    match kept.resume(params, gate) {
        Some(read) => replay.resume_behind(read, kept.count()),
        None => replay.begin_behind(kept.plan().copy(alloc)?),
    }
    Ok(())
}

/// Leaves the kept entries where they stand: where they serve, the slots behind them are read by a replay that begins with
/// them.
#[inline(always)]
fn go_behind(
    alloc: Global,
    kept: &mut Option<Kept>,
    serves: &mut bool,
    follows: &mut bool,
    replay: &mut Replay,
    params: &Params,
    gate: u64,
) -> Result<(), OutOfMemory>
    requires serves { MayServe serves.old kept.old }
    requires follows { MayFollow follows.old kept.old replay.old }
    requires fits { IsReplayOf params.now gate (read_by serves.old kept.old replay.old) }
    ensures entries { OnOk result (entries_in replay.new ≡ entries_in (read_by serves.old kept.old replay.old)) }
    ensures fits { OnOk result (IsReplayOf params.now gate replay.new) }
    ensures left { OnOk result (serves.new ≡ false) }
    ensures follows { MayFollow follows.new kept.new replay.new }
    ensures kept { kept.new ≡ kept.old }
    ensures replay { OnErr result (replay.new ≡ replay.old) }
    ensures serves { OnErr result (serves.new ≡ serves.old) }
    ensures some { OnErr result (MayServe true kept.old) }
    ensures served { OnErr result (serves.old ≡ true) }
{
    if !*serves {
        return Ok(());
    }
    match kept {
        Some(kept) => {
            begin_behind(alloc, kept, replay, params, gate)?;
            *serves = false;
            *follows = true;
            Ok(())
        }
        None => unreachable!(),
    }
}

/// Why the words of the slot behind the kept entries add none to them, found without memory.
fn reason_behind_kept(kept: &Option<Kept>, words: &[u64]) -> Result<Option<Reason>, OutOfMemory>
    requires serves { MayServe true kept.now }
    requires count { (k : spec.Kept) → kept.now ≡ Some k → length words.now ≡ (geometry k.params).words }
    ensures reads { (k : spec.Kept) → kept.now ≡ Some k → IfOk result (λ reason.
        ReadsNext reason k.params words.now k.entries k.entries) }
    ensures want { (k : spec.Kept) → kept.now ≡ Some k → OnErr result (JoinsNext k.params words.now k.entries) }
{
    match kept {
        Some(kept) => match reason_behind(kept.plan(), words) {
            Ok(reason) => Ok(Some(reason)),
            Err(full) => Err(full),
        },
        None => unreachable!(),
    }
}

/// The entries that were found, of the file system with these parameters, to be kept. Nothing else may be kept of the
/// slots before.
fn keep_found(replay: &mut Replay, params: &Params) -> Kept
    requires { HasFoundAll replay.old }
    ensures { (gate : ℕ) → IsReplayOf params.now gate replay.old → result ≡ kept_of params.now replay.old }
{
    match replay.take_plan() {
        Some(plan) => Kept::of(plan),
        None => Kept::empty(params),
    }
}

/// What stands at a path of a plan.
fn entry_at(plan: &Plan, path: &Path) -> Option<Entry>
    ensures value { result ≡ map.get (replay plan.now.entries) path.now }
    ensures proper { IfSome result (Proper plan.now.params) }
{
    plan.each_entry_joins();
    plan.tree().get(path)
}

impl History {
    /// Before the first slot, on a host that keeps this.
    pub(crate) fn new(alloc: Global, kept: Option<Kept>) -> History
        ensures kept { result.kept ≡ kept }
        ensures unread { result.replay ≡ None }
    {
        History {
            alloc,
            kept,
            serves: false,
            follows: false,
            replay: Replay::new(alloc),
            tree: None,
        }
    }

    /// Each entry that the host keeps joins those before it.
    pub(crate) fn kept_joins(&self)
        ensures { IsKept self.now.kept }
    {
        if let Some(kept) = &self.kept {
            kept.each_entry_joins();
        }
    }

    /// Takes what the host's last command read, and keeps more for the next one. It changes nothing that is read.
    pub(crate) fn remember(&mut self, replica: Option<Replica>)
        ensures { self.new ≡ self.old }
    {
        self.replay.remember(replica);
    }

    /// What the host keeps; and where that is nothing, what its next command may find again. Where it keeps something, that
    /// stands with it.
    pub(crate) fn into_parts(self) -> (Option<Kept>, Option<Replica>)
        ensures { result.0 ≡ self.kept }
    {
        let History {
            alloc,
            kept,
            follows,
            replay,
            ..
        } = self;
        let Some(mut kept) = kept else {
            return (None, replay.into_kept());
        };
        if follows && let Some(read) = replay.into_replica() {
            kept.remember(alloc, read);
        }
        (Some(kept), None)
    }

    /// Begins with the kept entries, where they serve, and says how many these are: the first slot that is to be read.
    pub(crate) fn begin(&mut self, params: &Params, gate: u64) -> u64
        requires { self.old.replay ≡ None }
        ensures count { result ≡ length (used_by self.old.kept params.now gate) }
        ensures entries { entries_in self.new.replay ≡ used_by self.old.kept params.now gate }
        ensures fits { IsReplayOf params.now gate self.new.replay }
        ensures kept { self.new.kept ≡ self.old.kept }
    {
        match &self.kept {
            Some(kept) => {
                self.serves = kept.serves(params, gate);
                if self.serves { kept.count() } else { 0 }
            }
            None => 0,
        }
    }

    /// Whether the host keeps anything.
    pub(crate) fn keeps(&self) -> bool
        ensures some { result ≡ true → IsSome self.now.kept }
        ensures none { result ≡ false → self.now.kept ≡ None }
    {
        match &self.kept {
            Some(_) => true,
            None => false,
        }
    }

    /// How many entries the host keeps, if it keeps anything.
    pub(crate) fn kept_count(&self) -> Option<u64>
        ensures { result ≡ option_map (λ (k : spec.Kept). length k.entries) self.now.kept }
    {
        match &self.kept {
            Some(kept) => Some(kept.count()),
            None => None,
        }
    }

    /// How many entries were found.
    pub(crate) fn count(&self) -> u64
        ensures { result ≡ length (entries_in self.now.replay) }
    {
        match &self.kept {
            Some(kept) if self.serves => kept.count(),
            _ => self.replay.count(),
        }
    }

    /// Reads the words of the next slot, which the gate counts: its entry joins those that were found, or the reason
    /// against it is given. Where memory lacks for an entry that joins, what was found stays.
    #[inline(always)]
    fn read_slot(
        &mut self,
        params: &Params,
        gate: u64,
        words: &[u64],
    ) -> Result<Option<Reason>, OutOfMemory>
        requires sound { SoundParams params.now }
        requires fits { IsReplayOf params.now gate self.old.replay }
        requires gate { gate ≤ params.now.slots }
        requires left { length (entries_in self.old.replay) < gate }
        requires count { length words.now ≡ (geometry params.now).words }

        ensures reads { IfOk result (λ reason. ReadsNext reason params.now words.now
            (entries_in self.old.replay) (entries_in self.new.replay)) }
        ensures fits { IsReplayOf params.now gate self.new.replay }
        ensures err { OnErr result (entries_in self.new.replay ≡ entries_in self.old.replay) }
        ensures want { OnErr result (JoinsNext params.now words.now (entries_in self.old.replay)) }
        ensures kept { self.new.kept ≡ self.old.kept }
    {
        let behind = go_behind(
            self.alloc,
            &mut self.kept,
            &mut self.serves,
            &mut self.follows,
            &mut self.replay,
            params,
            gate,
        );
        if behind.is_err() {
            return reason_behind_kept(&self.kept, words);
        }
        self.replay.read_slot(params, gate, words)
    }

    /// Reads the words of the next slot as `read_slot` does. Behind the last slot of a logplay, as `last` says, the tree is at
    /// hand for its answer.
    #[inline(always)]
    pub(crate) fn read_slot_of(
        &mut self,
        last: bool,
        params: &Params,
        gate: u64,
        words: &[u64],
    ) -> Result<Option<Reason>, OutOfMemory>
        requires sound { SoundParams params.now }
        requires fits { IsReplayOf params.now gate self.old.replay }
        requires gate { gate ≤ params.now.slots }
        requires left { length (entries_in self.old.replay) < gate }
        requires last { last ≡ true → gate ≤ length (entries_in self.old.replay) + 1 }
        requires count { length words.now ≡ (geometry params.now).words }

        ensures reads { IfOk result (λ reason. ReadsNext reason params.now words.now
            (entries_in self.old.replay) (entries_in self.new.replay)) }
        ensures hand { last ≡ true → IfOk result (λ reason. reason ≡ None → IsAtHand self.new) }
        ensures fits { IsReplayOf params.now gate self.new.replay }
        ensures err { OnErr result (entries_in self.new.replay ≡ entries_in self.old.replay) }
        ensures want { OnErr result (JoinsNext params.now words.now (entries_in self.old.replay)) }
        ensures kept { self.new.kept ≡ self.old.kept }
    {
        if last {
            return self.read_last_slot(params, gate, words);
        }
        self.read_slot(params, gate, words)
    }

    /// Reads the words of the last slot of a logplay, and makes its tree. It stands apart, since it is done once.
    #[inline(never)]
    fn read_last_slot(
        &mut self,
        params: &Params,
        gate: u64,
        words: &[u64],
    ) -> Result<Option<Reason>, OutOfMemory>
        requires sound { SoundParams params.now }
        requires fits { IsReplayOf params.now gate self.old.replay }
        requires gate { gate ≤ params.now.slots }
        requires left { length (entries_in self.old.replay) < gate }
        requires last { gate ≤ length (entries_in self.old.replay) + 1 }
        requires count { length words.now ≡ (geometry params.now).words }

        ensures reads { IfOk result (λ reason. ReadsNext reason params.now words.now
            (entries_in self.old.replay) (entries_in self.new.replay)) }
        ensures hand { IfOk result (λ reason. reason ≡ None → IsAtHand self.new) }
        ensures fits { IsReplayOf params.now gate self.new.replay }
        ensures err { OnErr result (entries_in self.new.replay ≡ entries_in self.old.replay) }
        ensures want { OnErr result (JoinsNext params.now words.now (entries_in self.old.replay)) }
        ensures kept { self.new.kept ≡ self.old.kept }
    {
        let found = self.count();
        match self.read_slot(params, gate, words)? {
            Some(reason) => Ok(Some(reason)),
            None => match self.lay_out(found) {
                Ok(()) => Ok(None),
                Err(full) => Err(full),
            },
        }
    }

    /// The tree of the entries that were found is at hand from here on, where the host keeps nothing. Where memory lacks, those
    /// behind the first `count` are to be found again. Nothing else may be kept.
    fn lay_out(&mut self, count: u64) -> Result<(), OutOfMemory>
        requires all { HasFoundAll self.old.replay }
        requires within { count ≤ length (entries_in self.old.replay) }
        ensures hand { OnOk result (IsAtHand self.new) }
        ensures same { OnOk result (self.new.replay ≡ self.old.replay) }
        ensures fits { (p : Params) (gate : ℕ) → IsReplayOf p gate self.old.replay → IsReplayOf p gate self.new.replay }
        ensures err { OnErr result (entries_in self.new.replay ≡ take count (entries_in self.old.replay)) }
        ensures kept { self.new.kept ≡ self.old.kept }
    {
        match &self.kept {
            Some(_kept) => Ok(()),
            None => match self.copy_tree() {
                Ok(tree) => {
                    self.tree = Some(tree);
                    Ok(())
                }
                Err(full) => {
                    self.follows = false;
                    self.replay.step_back(count);
                    Err(full)
                }
            },
        }
    }

    /// How many slots behind those that were read have words that an earlier task found. No contract hangs on it.
    #[inline(always)]
    pub(crate) fn kept_ahead(&self) -> u64 {
        if self.serves {
            0
        } else {
            self.replay.kept_ahead()
        }
    }

    /// Whether the words of the next slot are those that an earlier task found in it. Then its entry joins those before it.
    #[inline(always)]
    pub(crate) fn find_slot(&mut self, params: &Params, gate: u64, words: &[u64]) -> bool
        requires fits { IsReplayOf params.now gate self.old.replay }
        ensures found { result ≡ true → FindsNext params.now words.now
            (entries_in self.old.replay) (entries_in self.new.replay) }
        ensures other { result ≡ false → entries_in self.new.replay ≡ entries_in self.old.replay }
        ensures fits { IsReplayOf params.now gate self.new.replay }
        ensures kept { self.new.kept ≡ self.old.kept }
    {
        if self.serves {
            return false;
        }
        self.replay.find(params, gate, words)
    }

    /// What a command appends behind the entries that were found, or why nothing. Nothing else may be kept.
    pub(crate) fn decide(
        &mut self,
        params: &Params,
        gate: u64,
        cmd: &Cmd,
        me: Uuid,
    ) -> Result<Result<Entry, Refused>, OutOfMemory>
        requires sound { SoundParams params.now }
        requires fits { IsReplayOf params.now gate self.old.replay }
        requires all { length (entries_in self.old.replay) ≡ gate }
        requires wish { IsSome (wish_of cmd.now) }

        ensures value { IfOk result (λ decision.
            decide params.now me (entries_in self.old.replay) cmd.now ≡ Some decision) }
        ensures may { IsSoundCmd cmd.now → IfOk result (λ decision.
            IfOk decision (IsRoomFor params.now (entries_in self.old.replay))) }
        ensures same { entries_in self.new.replay ≡ entries_in self.old.replay }
        ensures fits { IsReplayOf params.now gate self.new.replay }
        ensures kept { self.new.kept ≡ self.old.kept }
        ensures want { OnErr result (NeedsUnits (decide params.now me (entries_in self.old.replay) cmd.now)) }
        ensures none { OnErr result (entries_in self.old.replay ≡ []) }
    {
        match &self.kept {
            Some(kept) if self.serves => Ok(decide_with_length(kept.plan(), cmd, me)),
            _ => self.replay.decide(params, gate, cmd, me),
        }
    }

    /// What stands at a path, by the entries that were found. Nothing else may be kept.
    pub(crate) fn at(&self, path: &Path) -> Option<Entry>
        requires { HasFoundAll self.now.replay }
        ensures value { result ≡ map.get (replay (entries_in self.now.replay)) path.now }
        ensures proper { (p : Params) (gate : ℕ) → IsReplayOf p gate self.now.replay → IfSome result (Proper p) }
    {
        if !self.serves {
            return self.replay.at(path);
        }
        match &self.kept {
            Some(kept) => entry_at(kept.plan(), path),
            None => self.replay.at(path),
        }
    }

    /// The tree of the entries that were found, where there are any. Nothing else may be kept.
    pub(crate) fn tree(&self) -> Option<&Tree>
        requires { HasFoundAll self.now.replay }
        ensures some { IfSome result (λ tree. tree.now ≡ replay (entries_in self.now.replay)) }
        ensures none { result ≡ None → entries_in self.now.replay ≡ [] }
    {
        match &self.kept {
            Some(kept) if self.serves => Some(kept.plan().tree()),
            _ => self.replay.tree(),
        }
    }

    /// The tree of the entries that were found, in memory of its own. Nothing else may be kept.
    fn copy_tree(&self) -> Result<Tree, OutOfMemory>
        requires { HasFoundAll self.now.replay }
        ensures { IfOk result (λ tree. tree ≡ replay (entries_in self.now.replay)) }
    {
        match self.tree() {
            Some(tree) => tree.copy(self.alloc),
            None => Ok(Tree::new(self.alloc)),
        }
    }

    /// The host keeps the entries that were found, of the file system with these parameters. Nothing else may be kept of
    /// the slots before.
    pub(crate) fn keep(&mut self, params: &Params)
        requires { HasFoundAll self.old.replay }
        ensures { (gate : ℕ) → IsReplayOf params.now gate self.old.replay
            → self.new.kept ≡ Some (kept_of params.now self.old.replay) }
    {
        if self.serves {
            return;
        }
        self.follows = false;
        self.kept = Some(keep_found(&mut self.replay, params));
    }

    /// A copy of the tree of the entries that were found, of the file system with these parameters. The host, which keeps
    /// something, keeps these entries from here on. Nothing else may be kept of the slots before.
    pub(crate) fn play(&mut self, params: &Params) -> Result<Tree, OutOfMemory>
        requires all { HasFoundAll self.old.replay }
        ensures tree { IfOk result (λ tree. tree ≡ replay (entries_in self.old.replay)) }
        ensures kept { (gate : ℕ) → IsReplayOf params.now gate self.old.replay
            → OnOk result (self.new.kept ≡ Some (kept_of params.now self.old.replay)) }
        ensures err { OnErr result (self.new ≡ self.old) }
    {
        let tree = self.copy_tree()?;
        self.keep(params);
        Ok(tree)
    }

    /// The tree of the entries that were found, on a host that keeps nothing. The caller takes it over, and the entries stay.
    pub(crate) fn hand_out(&mut self) -> Tree
        requires none { self.old.kept ≡ None }
        requires hand { IsAtHand self.old }
        ensures tree { result ≡ replay (entries_in self.old.replay) }
        ensures kept { self.new.kept ≡ self.old.kept }
        ensures replay { self.new.replay ≡ self.old.replay }
    {
        if self.count() == 0 {
            return Tree::new(self.alloc);
        }
        match self.tree.take() {
            Some(tree) => tree,
            None => unreachable!(),
        }
    }
}
