//! Settled entries in their order, and one that may follow them.

ghost use Rattle.std.specs.Prelude.{◌≡◌, ◌+◌, ◌++◌, ◌∷◌, IfOk, OnErr, OnOk, length, [], None};
ghost use Rattle.fam_base.specs.declared.cmd.Content.TheVariants as content;
ghost use Rattle.fam_format.specs.Params.{SoundParams};
ghost use Rattle.fam_journal.specs.Past.{acknowledges, finds, pends, shows, Sound};
ghost use Rattle.fam_plan.specs.State.{MayBeAdded};
ghost use Rattle.fam_rules.specs.Content.{fill};
ghost use Rattle.fam_settled.specs.Bytes.{file_with};
ghost use Rattle.fam_settled.specs.Settled.{settled_files, IsSettledLog, joined, plan_of, settled_log_state};

use crate::bytes::{Bytes, Filed};
use crate::held::HeldBytes;
use fam_base::{Entry, OutOfMemory, Params};
use fam_plan::Plan;
use std::alloc::Global;
use std::marker::Model;
use std::rc::Rc;

/// The entries that are settled, where their bytes are from, and one more entry of which nothing has said yet whether it is.
/// Copies share what they have until one of them changes.
#[derive(Drop)]
pub struct Log {
    pub(crate) plan: Plan,
    pub(crate) bytes: Rc<Vec<Bytes>>,
    pub(crate) pending: Option<Filed>,
}

impl Model for Log {
    ghost use Rattle.fam_settled.specs.Settled.{SettledLog};

    ghost Value = { SettledLog };

    ghost use Rattle.fam_settled.specs.Logs.{IsLog, settled_inside};

    ghost view = { settled_inside };

    ghost invariant = { IsLog };
}

/// An entry stands behind the others, and its bytes behind theirs.
fn add_beside(plan: &mut Plan, list: &mut Vec<Bytes>, added: Filed) -> Result<(), OutOfMemory>
    requires { MayBeAdded plan.old added.entry }
    ensures entries { OnOk result (plan.new.entries ≡ plan.old.entries ++ added.entry ∷ []) }
    ensures bytes { OnOk result (list.new.items ≡ list.old.items ++ added.bytes ∷ []) }
    ensures params { plan.new.params ≡ plan.old.params }
    ensures plan_kept { OnErr result (plan.new ≡ plan.old) }
    ensures bytes_kept { OnErr result (list.new.items ≡ list.old.items) }
{
    if list.reserve(1).is_err() {
        return Err(OutOfMemory);
    }
    if plan.add(&added.entry).is_err() {
        return Err(OutOfMemory);
    }
    let _ = list.push(added.bytes);
    Ok(())
}

/// The same of bytes that another log may have too: their list is copied first.
fn add_shared(plan: &mut Plan, shared: &mut Rc<Vec<Bytes>>, added: Filed) -> Result<(), OutOfMemory>
    requires { MayBeAdded plan.old added.entry }
    ensures entries { OnOk result (plan.new.entries ≡ plan.old.entries ++ added.entry ∷ []) }
    ensures bytes { OnOk result (shared.new.value.items ≡ shared.old.value.items ++ added.bytes ∷ []) }
    ensures params { plan.new.params ≡ plan.old.params }
    ensures plan_kept { OnErr result (plan.new ≡ plan.old) }
    ensures bytes_kept { OnErr result (shared.new.value.items ≡ shared.old.value.items) }
{
    match Rc::make_mut(shared) {
        Ok(list) => add_beside(plan, list, added),
        Err(_) => Err(OutOfMemory),
    }
}

/// The same that pends, or nothing.
fn copy_pending(pending: &Option<Filed>) -> Result<Option<Filed>, OutOfMemory>
    ensures { IfOk result (λ copy. copy ≡ pending.now) }
{
    match pending {
        Some(filed) => Ok(Some(filed.copy()?)),
        None => Ok(None),
    }
}

impl Log {
    /// Nothing is settled, and nothing pends.
    pub fn new(alloc: Global, params: &Params) -> Result<Log, OutOfMemory>
        requires { SoundParams params.now }
        ensures { IfOk result (λ log. settled_log_state log ≡ Sound params.now [] None) }
    {
        let plan = Plan::new(alloc, params)?;
        match Rc::new(alloc, Vec::new(alloc)) {
            Ok(bytes) => Ok(Log {
                plan,
                bytes,
                pending: None,
            }),
            Err(_) => Err(OutOfMemory),
        }
    }

    /// The same. The two share most of what they have until one of them changes.
    pub fn copy(&self, alloc: Global) -> Result<Log, OutOfMemory>
        ensures { IfOk result (λ log. log ≡ self.now) }
    {
        let plan = self.plan.copy(alloc)?;
        let pending = copy_pending(&self.pending)?;
        match self.bytes.clone() {
            Ok(bytes) => Ok(Log {
                plan,
                bytes,
                pending,
            }),
            Err(_) => Err(OutOfMemory),
        }
    }

    /// The parameters of the file system.
    pub fn params(&self) -> &Params
        ensures { result.now ≡ self.now.params }
    {
        self.plan.params()
    }

    /// How many entries are settled.
    pub fn count(&self) -> u64
        ensures { result ≡ length self.now.entries }
    {
        self.plan.count()
    }

    /// The entry that pends.
    pub fn pending(&self) -> &Option<Filed>
        ensures { result.now ≡ self.now.pending }
    {
        &self.pending
    }

    /// In every log each entry joins those before it, and the one that pends may be added.
    pub fn is_settled(&self)
        ensures { IsSettledLog self.now }
    {
        self.plan.each_entry_joins();
    }

    /// An entry that may be added pends, with these bytes.
    pub fn pend(&mut self, entry: &Entry, bytes: Bytes)
        requires { MayBeAdded (plan_of self.old) entry.now }
        ensures { settled_log_state self.new ≡ pends (file_with entry.now bytes) (settled_log_state self.old) }
    {
        self.pending = Some(Filed {
            entry: *entry,
            bytes,
        });
    }

    /// An entry stands behind the others, with its bytes.
    fn add(&mut self, added: Filed) -> Result<(), OutOfMemory>
        requires { MayBeAdded (plan_of self.old) added.entry }
        ensures added { OnOk result (settled_files self.new ≡ settled_files self.old ++ file_with added.entry added.bytes ∷ []) }
        ensures entries { OnOk result (self.new.entries ≡ self.old.entries ++ added.entry ∷ []) }
        ensures params { self.new.params ≡ self.old.params }
        ensures none { OnOk result (self.new.pending ≡ None) }
        ensures kept { OnErr result (self.new ≡ self.old) }
    {
        add_shared(&mut self.plan, &mut self.bytes, added)?;
        self.pending = None;
        Ok(())
    }

    /// An entry of an image stands behind the others, with the bytes that its file has there: as many as its size says, the
    /// others left out, and zeros behind where there are fewer.
    pub fn hold(&mut self, entry: &Entry, bytes: HeldBytes) -> Result<(), OutOfMemory>
        requires may { MayBeAdded (plan_of self.old) entry.now }
        requires none { self.old.pending ≡ None }
        ensures held { OnOk result (settled_log_state self.new
            ≡ Sound self.old.params (settled_files self.old ++ record { entry = entry.now; bytes = fill (content.Bytes bytes) entry.now.size } ∷ []) None) }
        ensures entries { OnOk result (self.new.entries ≡ self.old.entries ++ entry.now ∷ []) }
        ensures params { self.new.params ≡ self.old.params }
        ensures none { OnOk result (self.new.pending ≡ None) }
        ensures kept { OnErr result (self.new ≡ self.old) }
    {
        self.add(Filed {
            entry: *entry,
            bytes: Bytes::Held(bytes),
        })
    }

    /// The pending entry joins the history, where there is one.
    fn join(&mut self) -> Result<(), OutOfMemory>
        ensures joined { OnOk result (settled_log_state self.new ≡ joined (settled_log_state self.old)) }
        ensures kept { OnErr result (self.new ≡ self.old) }
    {
        match copy_pending(&self.pending)? {
            Some(pending) => self.add(pending),
            None => Ok(()),
        }
    }

    /// The first `m` entries were shown: the pending one joins the history where it is one of them.
    pub fn shows(&mut self, m: u64) -> Result<(), OutOfMemory>
        ensures shown { OnOk result (settled_log_state self.new ≡ shows m (settled_log_state self.old)) }
        ensures kept { OnErr result (self.new ≡ self.old) }
    {
        if m > 0 && m - 1 == self.count() {
            self.join()
        } else {
            Ok(())
        }
    }

    /// A master found `n` entries: the pending one is dropped where it isn't one of them, and else joins the history.
    pub fn finds(&mut self, n: u64) -> Result<(), OutOfMemory>
        ensures found { OnOk result (settled_log_state self.new ≡ finds n (settled_log_state self.old)) }
        ensures kept { OnErr result (self.new ≡ self.old) }
    {
        if n == self.count() {
            self.pending = None;
            Ok(())
        } else {
            self.shows(n)
        }
    }

    /// Entry `seq` is acknowledged: the pending one joins the history where it is this one.
    pub fn acknowledge(&mut self, seq: u64) -> Result<(), OutOfMemory>
        ensures acknowledged { OnOk result (settled_log_state self.new ≡ acknowledges seq (settled_log_state self.old)) }
        ensures kept { OnErr result (self.new ≡ self.old) }
    {
        if seq == self.count() {
            self.join()
        } else {
            Ok(())
        }
    }
}
