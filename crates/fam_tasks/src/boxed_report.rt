//! Reports that take little room where they are handed on.

ghost use Rattle.std.specs.Prelude.{◌≡◌, IfOk};
ghost use Rattle.fam_rules.specs.Reports.{empty_report};

use fam_base::{Boxed, OutOfMemory};
use fam_rules::{LogState, Report, SuperState};
use std::alloc::Global;
use std::marker::Model;

/// A report, of which all but the states stands on the heap, and only where there is more. A contract sees the report.
#[derive(Drop)]
pub struct BoxedReport {
    superblock: SuperState,
    log: LogState,
    whole: Option<Boxed<Report>>,
}

impl Model for BoxedReport {
    ghost use Rattle.fam_rules.specs.contracts.answers.Report as report_type;
    ghost use Rattle.fam_rules.specs.declared.answers.Report.{Report};
    ghost use Rattle.fam_tasks.specs.Reported.{report_held};

    ghost Value = { Report };

    ghost coded = { report_type.the_row.coded };

    ghost view = { λ r. report_held r.superblock r.log r.whole };
}

/// The report of a file system whose superblock or log isn't sound: nothing more is looked at.
fn empty_report(superblock: SuperState, log: LogState) -> Report
    ensures { result ≡ empty_report superblock log }
{
    Report {
        superblock,
        log,
        files: 0,
        directories: 0,
        used: 0,
        free: 0,
        overlap: None,
        bad: None,
        past: 0,
    }
}

impl BoxedReport {
    /// The report of a file system whose superblock or log isn't sound. It takes no memory.
    pub(crate) fn empty(superblock: SuperState, log: LogState) -> BoxedReport
        ensures { result ≡ empty_report superblock log }
    {
        BoxedReport {
            superblock,
            log,
            whole: None,
        }
    }

    /// Any report. `OutOfMemory` comes where there is no room for it.
    pub(crate) fn of(alloc: Global, report: Report) -> Result<BoxedReport, OutOfMemory>
        ensures { IfOk result (λ boxed. boxed ≡ report) }
    {
        Ok(BoxedReport {
            superblock: report.superblock,
            log: report.log,
            whole: Some(Boxed::new(alloc, report)?),
        })
    }

    /// The report.
    pub fn get(&self) -> Report
        ensures { result ≡ self.now }
    {
        match &self.whole {
            None => empty_report(self.superblock, self.log),
            Some(report) => *report.get(),
        }
    }
}
