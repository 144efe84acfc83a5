//! What is settled in a candidate, behind a line.

ghost use Rattle.std.specs.Prelude.{◌≡◌, ◌+◌, ◌↔◌, IfOk, IsTrue, OnErr, OnOk};
ghost use Rattle.fam_base.specs.Image.{Image};
ghost use Rattle.fam_journal.specs.Legal.{FoundAllowed, FoundBad};
ghost use Rattle.fam_journal.specs.Past.{finds, settled_length};
ghost use Rattle.fam_settled.specs.Settled.{settled_log_state};
ghost use Rattle.fam_judging.specs.declared.given.GivenImage.{GivenImage};
ghost use Rattle.fam_judging.specs.Candidates.{past_damage, settled_state};
ghost use Rattle.fam_judging.specs.Going.{HasGiven};

use crate::candidate::Settled;
use crate::given::{Damage, GivenImage};
use fam_base::OutOfMemory;
use fam_settled::Log;
use std::alloc::Global;

/// The same, beside the other one. The two share most of a log.
pub(crate) fn copy_settled(alloc: Global, settled: &Settled) -> Result<Settled, OutOfMemory>
    ensures { IfOk result (λ copy. copy ≡ settled.now) }
{
    match settled {
        Settled::Log(log) => Ok(Settled::Log(log.copy(alloc)?)),
        Settled::Given => Ok(Settled::Given),
        Settled::Halted => Ok(Settled::Halted),
    }
}

/// Lets a log go.
pub(crate) fn let_log_go(_log: Log) {}

/// A copy of a log finds so many entries.
pub(crate) fn copy_found(alloc: Global, log: &Log, n: u64) -> Result<Log, OutOfMemory>
    ensures { IfOk result (λ copy. settled_log_state copy ≡ finds n (settled_log_state log.now)) }
{
    let mut log = log.copy(alloc)?;
    if log.finds(n).is_err() {
        let_log_go(log);
        return Err(OutOfMemory);
    }
    Ok(log)
}

/// Whether a number is one more than another one.
pub(crate) fn is_next(n: u64, count: u64) -> bool
    ensures { IsTrue result ↔ (n ≡ count + 1) }
{
    n > count && n - count == 1
}

/// Whether a master may find so many entries of a log.
fn log_may_find(log: &Log, n: u64) -> bool
    ensures { IsTrue result ↔ FoundAllowed n (settled_log_state log.now) }
{
    if n == log.count() {
        return true;
    }
    if !is_next(n, log.count()) {
        return false;
    }
    log.pending().is_some()
}

/// Whether it may of a damaged image.
fn given_may_find(given: &GivenImage, n: u64) -> bool
    ensures { IsTrue result ↔ FoundBad n (past_damage given.now.damage) given.now.gate }
{
    match given.damage {
        Damage::BadSlot(_, _) => n == given.gate,
        _ => false,
    }
}

/// Whether a master may find so many entries.
pub(crate) fn may_find(given: &GivenImage, settled: &Settled, n: u64) -> bool
    ensures { (start : Image) → HasGiven start given.now settled.now → IsTrue result ↔ FoundAllowed n (settled_state start settled.now) }
{
    match settled {
        Settled::Log(log) => log_may_find(log, n),
        Settled::Given => given_may_find(given, n),
        Settled::Halted => false,
    }
}

/// It finds them.
pub(crate) fn find(settled: &mut Settled, n: u64) -> Result<(), OutOfMemory>
    ensures found { (start : Image) (given : GivenImage) → HasGiven start given settled.old
        → OnOk result (settled_state start settled.new ≡ finds n (settled_state start settled.old)) }
    ensures given { (start : Image) (given : GivenImage) → HasGiven start given settled.old → HasGiven start given settled.new }
{
    match settled {
        Settled::Log(log) => log.finds(n),
        Settled::Given => Ok(()),
        Settled::Halted => Ok(()),
    }
}

/// How many entries are settled.
pub(crate) fn settled_count(settled: &Settled) -> u64
    ensures { (start : Image) (given : GivenImage) → HasGiven start given settled.now → result ≡ settled_length (settled_state start settled.now) }
{
    match settled {
        Settled::Log(log) => log.count(),
        Settled::Given => 0,
        Settled::Halted => 0,
    }
}
