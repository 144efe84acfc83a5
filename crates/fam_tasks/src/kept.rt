//! What a host keeps of the log that it has replayed.
//!
//! What a command read behind the kept entries, words and plan, stands with them afterwards, and the host's next
//! command goes on with that (`BeginsWith`): a slot that has the same words is found again, and nothing is copied. A
//! listing, whose entries are kept themselves, leaves nothing of the kind.

ghost use Rattle.std.specs.Prelude.{◌≡◌, ◌&&◌, ◌<◌, [], IfOk, IfSome, None, Some, length, nat_le, nat_lt};
ghost use Rattle.fam_commands.specs.Kept.{AllJoin, is_same_params};
ghost use Rattle.fam_format.specs.Tree.{replay};
ghost use Rattle.fam_replay.specs.Replay.{IsReplayOf};
ghost use Rattle.fam_tasks.specs.History.{BeginsWith, MayResume};

use fam_base::{Boxed, OutOfMemory, Params};
use fam_plan::Plan;
use fam_replay::Replica;
use fam_tree::Tree;
use std::alloc::Global;
use std::marker::Model;

/// What a host keeps of the log that it has replayed: a contract sees the parameters of the file system and the log's
/// first entries, in order. Each of these joins those before it.
#[derive(Drop)]
pub struct Kept {
    params: Params,
    /// The entries. A log without any takes no memory.
    plan: Option<Plan>,
    /// What the host's last command read behind them, for the next one. No answer hangs on it.
    read: Option<Boxed<Replica>>,
}

impl Model for Kept {
    ghost use Rattle.fam_commands.specs.Kept as spec;
    ghost use Rattle.fam_tasks.specs.History.{IsPlanOf, MayResume, kept_code, planned};

    ghost Value = { spec.Kept };

    ghost coded = { kept_code };

    ghost view = { λ k. record { params = k.params; entries = planned k.plan } };

    ghost invariant = { λ k. IsPlanOf k.params k.plan
        × MayResume (record { params = k.params; entries = planned k.plan }) k.read };
}

impl Kept {
    /// The entries of a plan.
    pub fn of(plan: Plan) -> Kept
        ensures { result ≡ record { params = plan.params; entries = plan.entries } }
    {
        let params = *plan.params();
        Kept {
            params,
            plan: Some(plan),
            read: None,
        }
    }

    /// A file system with these parameters, and no entries.
    pub(crate) fn empty(params: &Params) -> Kept
        ensures { result ≡ record { params = params.now; entries = [] } }
    {
        Kept {
            params: *params,
            plan: None,
            read: None,
        }
    }

    /// The same, in memory of its own.
    pub fn copy(&self, alloc: Global) -> Result<Kept, OutOfMemory>
        ensures { IfOk result (λ kept. kept ≡ self.now) }
    {
        match &self.plan {
            Some(plan) => Ok(Kept::of(plan.copy(alloc)?)),
            None => Ok(Kept::empty(&self.params)),
        }
    }

    /// The entries as a plan, where there are any.
    pub(crate) fn plan(&self) -> &Plan
        requires some { 0 < length self.now.entries }
        ensures params { result.now.params ≡ self.now.params }
        ensures entries { result.now.entries ≡ self.now.entries }
    {
        match &self.plan {
            Some(plan) => plan,
            None => unreachable!(),
        }
    }

    /// Each entry joins those before it.
    pub(crate) fn each_entry_joins(&self)
        ensures { AllJoin self.now.params self.now.entries }
    {
        if let Some(plan) = &self.plan {
            plan.each_entry_joins();
        }
    }

    /// Whether a command begins with them: there are some, the superblock says the same as when they were read, and the
    /// gate counts no fewer.
    pub(crate) fn serves(&self, params: &Params, gate: u64) -> bool
        ensures { result ≡ (nat_lt 0 (length self.now.entries)
            && (is_same_params self.now.params params.now && nat_le (length self.now.entries) gate)) }
    {
        let count = self.count();
        count > 0 && self.params == *params && count <= gate
    }

    /// What a command read behind the entries is held for the next one, where there is memory for that. It changes nothing that
    /// is kept.
    pub(crate) fn remember(&mut self, alloc: Global, read: Replica)
        requires { BeginsWith self.old read }
        ensures { self.new ≡ self.old }
    {
        if let Ok(read) = Boxed::new(alloc, read) {
            self.read = Some(read);
        }
    }

    /// What the last command read behind the entries, where it is of the file system with these parameters and the gate counts
    /// no fewer. The caller takes it over.
    pub(crate) fn resume(&mut self, params: &Params, gate: u64) -> Option<Replica>
        ensures begins { IfSome result (BeginsWith self.old) }
        ensures fits { IfSome result (λ read. IsReplayOf params.now gate (Some read)) }
        ensures same { self.new ≡ self.old }
    {
        let read = self.read.take()?;
        if !read.get().is_of(params, gate) {
            return None;
        }
        Some(read.into_inner())
    }

    /// The tree of the entries, where there are any.
    pub fn tree(&self) -> Option<&Tree>
        ensures some { IfSome result (λ tree. tree.now ≡ replay self.now.entries) }
        ensures none { result ≡ None → self.now.entries ≡ [] }
    {
        match &self.plan {
            Some(plan) => Some(plan.tree()),
            None => None,
        }
    }

    /// How many entries are kept.
    pub fn count(&self) -> u64
        ensures { result ≡ length self.now.entries }
    {
        match &self.plan {
            Some(plan) => plan.count(),
            None => 0,
        }
    }
}
