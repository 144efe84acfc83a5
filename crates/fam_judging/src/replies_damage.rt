//! Answers that the image is damaged.

ghost use Rattle.std.specs.Prelude.{◌≡◌, ◌≢◌, ◌⊎◌, ◌↔◌, IfOk, IsTrue, Some};
ghost use Rattle.fam_base.specs.declared.cmd.Cmd.TheVariants.{Fsck};
ghost use Rattle.fam_journal.specs.Past as past;
ghost use Rattle.fam_journal.specs.Shapes.{Begun, HasMet, Marked};
ghost use Rattle.fam_judge.specs.Formed.{FaultPlace};
ghost use Rattle.fam_rules.specs.Reply as reply;
ghost use Rattle.fam_lines.specs.Lines.{untold_of};
ghost use Rattle.fam_judging.specs.Candidates.{stage_shape};
ghost use Rattle.fam_judging.specs.Lefts.{LeavesEndings};
ghost use Rattle.fam_judging.specs.ReplyKinds.{FailsGate, FailsHeader, FailsSlot, FailsSuper, MayMark, damage_in};

use crate::candidate::{Settled, Stage, Track};
use crate::given::{Damage, GivenImage};
use crate::lefts::{Lefts, kept};
use crate::replies_refused::has_begun;
use fam_base::{Cmd, OutOfMemory};
use fam_format::{LogFault, LogField, Reason, SuperFault};
use fam_history::ToldCommand;
use fam_lines::SeenHost;
use std::alloc::Global;

/// Whether a command has come to its mark, at the latest by now.
pub(crate) fn may_mark(stage: Stage) -> bool
    ensures { IsTrue result ↔ MayMark (stage_shape stage) }
{
    match stage {
        Stage::Begun | Stage::Marked => true,
        _ => false,
    }
}

/// Whether a command doesn't check the file system.
fn is_no_fsck(cmd: &ToldCommand) -> bool
    ensures { IsTrue result ↔ (untold_of cmd.now ≢ Fsck) }
{
    match cmd {
        ToldCommand::Plain(Cmd::Fsck) => false,
        _ => true,
    }
}

/// Whether there is no superblock, for this fault.
fn lacks_super(given: &GivenImage, settled: &Settled, fault: &SuperFault) -> bool
    ensures { IsTrue result ↔ (damage_in given.now settled.now ≡ Some (past.NoSuperblock fault.now)) }
{
    match settled {
        Settled::Log(_) => false,
        Settled::Given => match given.damage {
            Damage::NoSuperblock(own) => own == *fault,
            _ => false,
        },
        Settled::Halted => *fault == SuperFault::NoSuper(0),
    }
}

/// Whether the header is bad, by this fault.
fn has_bad_header(given: &GivenImage, settled: &Settled, fault: &LogFault) -> bool
    ensures { IsTrue result ↔ (damage_in given.now settled.now ≡ Some (past.BadHeader fault.now)) }
{
    match settled {
        Settled::Log(_) => false,
        Settled::Given => match given.damage {
            Damage::BadHeader(own) => own == *fault,
            _ => false,
        },
        Settled::Halted => false,
    }
}

/// Whether slot `i` is the first bad one, for this reason.
fn has_bad_slot(given: &GivenImage, settled: &Settled, i: u64, reason: &Reason) -> bool
    ensures { IsTrue result ↔ (damage_in given.now settled.now ≡ Some (past.BadSlot i reason.now)) }
{
    match settled {
        Settled::Log(_) => false,
        Settled::Given => match given.damage {
            Damage::BadSlot(at, own) => at == i && own == *reason,
            _ => false,
        },
        Settled::Halted => false,
    }
}

/// Whether a fault is the gate's.
fn is_of_gate(fault: &LogFault) -> bool
    ensures gate { IsTrue result ↔ FaultPlace fault.now Marked }
    ensures header { FaultPlace fault.now Begun ⊎ IsTrue result }
{
    match fault {
        LogFault::BadLog {
            field: LogField::Gate,
            ..
        } => true,
        _ => false,
    }
}

/// Whether a command that has just begun finds no superblock, for this fault.
fn fails_super(
    given: &GivenImage,
    settled: &Settled,
    cmd: &ToldCommand,
    stage: Stage,
    fault: &SuperFault,
) -> bool
    ensures { IsTrue result ↔ FailsSuper (damage_in given.now settled.now) (untold_of cmd.now) (stage_shape stage) fault.now }
{
    has_begun(stage) && is_no_fsck(cmd) && lacks_super(given, settled, fault)
}

/// Whether a command that has just begun finds a bad header, by this fault, which isn't the gate's.
fn fails_header(
    given: &GivenImage,
    settled: &Settled,
    cmd: &ToldCommand,
    stage: Stage,
    fault: &LogFault,
) -> bool
    requires { FaultPlace fault.now Begun }
    ensures { IsTrue result ↔ FailsHeader (damage_in given.now settled.now) (untold_of cmd.now) (stage_shape stage) fault.now }
{
    has_begun(stage) && is_no_fsck(cmd) && has_bad_header(given, settled, fault)
}

/// Whether a command finds a bad gate behind its mark, by this fault, which is the gate's.
fn fails_gate(
    given: &GivenImage,
    settled: &Settled,
    cmd: &ToldCommand,
    stage: Stage,
    fault: &LogFault,
) -> bool
    requires { FaultPlace fault.now Marked }
    ensures { IsTrue result ↔ FailsGate (damage_in given.now settled.now) (untold_of cmd.now) (stage_shape stage) fault.now }
{
    may_mark(stage) && is_no_fsck(cmd) && has_bad_header(given, settled, fault)
}

/// Whether a command may read slots by now.
fn may_read_slots(stage: Stage) -> bool
    ensures { IsTrue result ↔ (MayMark (stage_shape stage) ⊎ HasMet (stage_shape stage)) }
{
    match stage {
        Stage::Named(_) => false,
        _ => true,
    }
}

/// Whether a command finds that slot `i` is bad, for this reason.
fn fails_slot(
    given: &GivenImage,
    settled: &Settled,
    cmd: &ToldCommand,
    stage: Stage,
    i: u64,
    reason: &Reason,
) -> bool
    ensures { IsTrue result ↔ FailsSlot (damage_in given.now settled.now) (untold_of cmd.now) (stage_shape stage) i reason.now }
{
    may_read_slots(stage) && is_no_fsck(cmd) && has_bad_slot(given, settled, i, reason)
}

/// What is left of a command that finds no superblock.
pub(crate) fn without_super(
    alloc: Global,
    given: &GivenImage,
    seen: &SeenHost,
    cmd: &ToldCommand,
    settled: &Settled,
    track: &Track,
    fault: &SuperFault,
) -> Result<Lefts, OutOfMemory>
    ensures { IfOk result (λ lefts. LeavesEndings given.now seen.now cmd.now settled.now track.now (reply.NoSuperblock fault.now) lefts) }
{
    let _ = seen;
    let stands = fails_super(given, settled, cmd, track.stage, fault);
    kept(
        alloc,
        stands,
        settled,
        Track {
            floor: None,
            ..*track
        },
    )
}

/// What is left of one that finds a bad header.
pub(crate) fn with_bad_header(
    alloc: Global,
    given: &GivenImage,
    seen: &SeenHost,
    cmd: &ToldCommand,
    settled: &Settled,
    track: &Track,
    fault: &LogFault,
) -> Result<Lefts, OutOfMemory>
    ensures { IfOk result (λ lefts. LeavesEndings given.now seen.now cmd.now settled.now track.now (reply.BadHeader fault.now) lefts) }
{
    let _ = seen;
    if is_of_gate(fault) {
        let stands = fails_gate(given, settled, cmd, track.stage, fault);
        return kept(alloc, stands, settled, *track);
    }
    let stands = fails_header(given, settled, cmd, track.stage, fault);
    kept(
        alloc,
        stands,
        settled,
        Track {
            floor: None,
            ..*track
        },
    )
}

/// What is left of one that finds a bad slot.
pub(crate) fn with_bad_slot(
    alloc: Global,
    given: &GivenImage,
    seen: &SeenHost,
    cmd: &ToldCommand,
    settled: &Settled,
    track: &Track,
    i: u64,
    reason: &Reason,
) -> Result<Lefts, OutOfMemory>
    ensures { IfOk result (λ lefts. LeavesEndings given.now seen.now cmd.now settled.now track.now (reply.BadSlot i reason.now) lefts) }
{
    let _ = seen;
    let stands = fails_slot(given, settled, cmd, track.stage, i, reason);
    kept(alloc, stands, settled, *track)
}
