//! Answers that name a fault or a refusal.

ghost use Rattle.std.specs.Prelude.{◌≡◌, Some};
ghost use Rattle.fam_commands.specs.Turns.{log_fault_reply, super_fault_reply};
ghost use Rattle.fam_rules.specs.Reply.{BadHeader, NoSuperblock, NotAppended};
ghost use Rattle.fam_rules.specs.Reports.{log_report, super_report};
ghost use Rattle.fam_tasks.specs.Answers.{reply_of};

use crate::answer::Answer;
use crate::boxed_report::BoxedReport;
use fam_base::Cmd;
use fam_format::{LogFault, SuperFault};
use fam_rules::{LogState, Refused, SuperState};

/// The report on a damaged superblock.
fn super_report(fault: SuperFault) -> BoxedReport
    ensures { result ≡ super_report fault }
{
    let state = match fault {
        SuperFault::NoSuper(word) => SuperState::NoSuper(word),
        SuperFault::BadSuper {
            field,
            found,
            wanted,
        } => SuperState::BadSuper {
            field,
            found,
            wanted,
        },
    };
    BoxedReport::empty(state, LogState::Unread)
}

/// The report on a damaged header or gate.
fn log_report(fault: LogFault) -> BoxedReport
    ensures { result ≡ log_report fault }
{
    let LogFault::BadLog {
        field,
        found,
        wanted,
    } = fault;
    let state = LogState::BadLog {
        field,
        found,
        wanted,
    };
    BoxedReport::empty(SuperState::Sound, state)
}

/// The answer that names the superblock's fault.
fn super_named(fault: SuperFault) -> Answer
    ensures { reply_of result ≡ Some (NoSuperblock fault) }
{
    match fault {
        SuperFault::NoSuper(word) => Answer::NoSuper(word),
        SuperFault::BadSuper {
            field,
            found,
            wanted,
        } => Answer::BadSuper {
            field,
            found,
            wanted,
        },
    }
}

/// The answer that names the fault of header or gate.
fn log_named(fault: LogFault) -> Answer
    ensures { reply_of result ≡ Some (BadHeader fault) }
{
    match fault {
        LogFault::BadLog {
            field,
            found,
            wanted,
        } => Answer::BadLog {
            field,
            found,
            wanted,
        },
    }
}

/// What a command answers on a damaged superblock: a check of the whole file system reports, others name the fault.
pub(crate) fn super_answer(cmd: &Cmd, fault: SuperFault) -> Answer
    ensures { reply_of result ≡ Some (super_fault_reply cmd.now fault) }
{
    match cmd {
        Cmd::Fsck => Answer::Report(super_report(fault)),
        _ => super_named(fault),
    }
}

/// What a command answers on a damaged header or gate.
pub(crate) fn log_answer(cmd: &Cmd, fault: LogFault) -> Answer
    ensures { reply_of result ≡ Some (log_fault_reply cmd.now fault) }
{
    match cmd {
        Cmd::Fsck => Answer::Report(log_report(fault)),
        _ => log_named(fault),
    }
}

/// The answer where nothing is appended.
pub(crate) fn refusal_answer(refused: Refused) -> Answer
    ensures { reply_of result ≡ Some (NotAppended refused) }
{
    match refused {
        Refused::NotMaster { me, master } => Answer::NotMaster { me, master },
        Refused::LongPath(limit) => Answer::LongPath(limit),
        Refused::BadStripe => Answer::BadStripe,
        Refused::Exists(kind) => Answer::Exists(kind),
        Refused::NoParent => Answer::NoParent,
        Refused::ParentIsFile => Answer::ParentIsFile,
        Refused::LogFull(slots) => Answer::LogFull(slots),
        Refused::NoSpace(units) => Answer::NoSpace(units),
    }
}
