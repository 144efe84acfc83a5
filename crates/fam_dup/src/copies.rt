//! The copies of FROM's entries, planned on TO's parameters.

ghost use Rattle.std.specs.Prelude.{◌≡◌, ◌+◌, ◌<◌, ◌∷◌, ◌++◌, [], IfErr, IfOk, MatchResult, OnOk, Some, Ok, Err, drop, length, slice_get, take, List};
ghost use Rattle.fam_base.specs.declared.entry.Entry.{Entry as EntryValue};
ghost use Rattle.fam_base.specs.declared.entry.Params.{Params as ParamsValue};
ghost use Rattle.fam_base.specs.Commands.{IsSoundCmd};
ghost use Rattle.fam_format.specs.Params.{SoundParams};
ghost use Rattle.fam_format.specs.Slot.{Proper};
ghost use Rattle.fam_rules.specs.Decide.{wish_of};
ghost use Rattle.fam_plan.specs.State.{MayBeAdded};
ghost use Rattle.fam_dup.specs.Copies.{AreAlike, Copied, IsNext, IsWantOfRoom, copy_of, copying, copying_from, wish_again};
ghost use Rattle.fam_dup.specs.Ends.{IsOwn};
ghost use Rattle.fam_dup.specs.Findings.{Names, WantsMemory, fault_class, copies_or, refused_of};

use crate::fault::{DupFault, DupRefusal};
use fam_base::{Attr, Cmd, Content, Entry, Kind, Params};
use fam_plan::{Plan, decide_with_length};
use fam_rules::Refused;
use std::alloc::Global;

/// What a host is told to make an entry anew.
fn command(entry: &Entry) -> Cmd
    requires proper { (p : ParamsValue) × Proper p entry.now }
    ensures wish { wish_of result ≡ Some (wish_again entry.now) }
    ensures sound { IsSoundCmd result }
{
    let attr = Attr {
        mode: entry.mode,
        uid: entry.uid,
        gid: entry.gid,
    };
    match entry.kind {
        Kind::Directory => Cmd::Mkdir {
            path: entry.path,
            attr,
        },
        Kind::File => Cmd::Creat {
            path: entry.path,
            size: entry.size,
            attr,
            stripe: None,
            fill: Content::Zero,
        },
    }
}

/// A refusal for want of slots or of room, for the path or for the bytes.
fn refusal_of(refused: Refused) -> DupRefusal
    requires { IsWantOfRoom refused }
    ensures { refused_of result ≡ refused }
{
    match refused {
        Refused::LongPath(limit) => DupRefusal::LongPath(limit),
        Refused::LogFull(slots) => DupRefusal::LogFull(slots),
        Refused::NoSpace(units) => DupRefusal::NoSpace(units),
        Refused::NotMaster { .. }
        | Refused::BadStripe
        | Refused::Exists(_)
        | Refused::NoParent
        | Refused::ParentIsFile => unreachable!(),
    }
}

/// The copy of an entry behind the copies of those before it, or why there is none.
fn copy_entry(copies: &Plan, entry: &Entry) -> Result<Entry, DupRefusal>
    requires { IsNext copies.now.entries entry.now }
    ensures value { MatchResult result (λ copy. copy_of copies.now.params copies.now.entries entry.now ≡ Ok copy)
        (λ refusal. copy_of copies.now.params copies.now.entries entry.now ≡ Err (refused_of refusal)) }
    ensures may { IfOk result (λ copy. MayBeAdded copies.now copy) }
{
    copies.each_entry_joins();
    match decide_with_length(copies, &command(entry), copies.params().master) {
        Ok(copy) => Ok(copy),
        Err(refused) => Err(refusal_of(refused)),
    }
}

/// Adds a copy behind the others.
fn add_copy(copies: &mut Plan, copy: &Entry) -> Result<(), DupFault>
    requires { MayBeAdded copies.old copy.now }
    ensures added { OnOk result (copies.new.entries ≡ copies.old.entries ++ copy.now ∷ []) }
    ensures params { copies.new.params ≡ copies.old.params }
    ensures full { IfErr result (λ fault. fault_class fault ≡ WantsMemory) }
{
    match copies.add(copy) {
        Ok(()) => Ok(()),
        Err(_) => Err(DupFault::OutOfMemory),
    }
}

/// Entry `i`, which there is.
pub(crate) fn entry_at(plan: &Plan, i: u64) -> Entry
    requires { i < length plan.now.entries }
    ensures at { slice_get plan.now.entries i ≡ Some result }
{
    match plan.at(i) {
        Some(entry) => entry,
        None => unreachable!(),
    }
}

/// Copies the next entry.
fn copy_next(source: &Plan, copies: &mut Plan, seq: u64) -> Result<(), DupFault>
    requires next { seq ≡ length copies.old.entries }
    requires left { length copies.old.entries < length source.now.entries }
    requires alike { AreAlike (take (length copies.old.entries) source.now.entries) copies.old.entries }
    ensures told { OnOk result
        (copying_from copies.old.params (drop (length copies.old.entries) source.now.entries) copies.old.entries
        ≡ copying_from copies.old.params (drop (length copies.new.entries) source.now.entries) copies.new.entries) }
    ensures alike { OnOk result (AreAlike (take (length copies.new.entries) source.now.entries) copies.new.entries) }
    ensures count { OnOk result (length copies.new.entries ≡ length copies.old.entries + 1) }
    ensures params { copies.new.params ≡ copies.old.params }
    ensures fault { IfErr result (λ fault. (all : List EntryValue) → Names (fault_class fault)
        (copies_or all (copying_from copies.old.params (drop (length copies.old.entries) source.now.entries) copies.old.entries))) }
    ensures own { IfErr result (λ fault. IsOwn (fault_class fault)) }
{
    source.each_entry_joins();
    copies.each_entry_joins();
    let entry = entry_at(source, seq);
    match copy_entry(copies, &entry) {
        Ok(copy) => add_copy(copies, &copy),
        Err(refusal) => Err(DupFault::Stopped { seq, refusal }),
    }
}

/// The copies of all entries, in a plan of their own.
pub(crate) fn plan_copies(alloc: Global, source: &Plan, params: &Params) -> Result<Plan, DupFault>
    requires sound { SoundParams params.now }
    ensures told { IfOk result (λ copies. copying params.now source.now.entries ≡ Copied copies.entries) }
    ensures params { IfOk result (λ copies. copies.params ≡ params.now) }
    ensures fault { IfErr result (λ fault. (all : List EntryValue) → Names (fault_class fault) (copies_or all (copying params.now source.now.entries))) }
    ensures own { IfErr result (λ fault. IsOwn (fault_class fault)) }
{
    let mut copies = Plan::new(alloc, params)?;
    for seq in 0..source.count() {
        copy_next(source, &mut copies, seq)?;
    }
    Ok(copies)
}
