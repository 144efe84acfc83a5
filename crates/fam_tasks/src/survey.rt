//! A check of the words of all slots. It takes memory, so it is made with the first slot that it is shown.

ghost use Rattle.std.specs.Prelude.{◌≡◌, ◌+◌, ◌<◌, ℕ, None, Some, OnOk, OnErr, length};
ghost use Rattle.fam_format.specs.Layout.{geometry};
ghost use Rattle.fam_format.specs.Params.{SoundParams};
ghost use Rattle.fam_rules.specs.Reports.{report_by, survey_slot};
ghost use Rattle.fam_fsck.specs.Scan.{first_scan};
ghost use Rattle.fam_tasks.specs.Survey.{added_in, survey_in, IsScanFor, ShowWants};

use fam_base::{OutOfMemory, Params};
use fam_fsck::Fsck;
use fam_rules::Report;
use std::alloc::Global;

/// Makes a check that was shown no slot, where there is none.
fn begin_scan(
    alloc: Global,
    scan: &mut Option<Fsck>,
    params: &Params,
    gate: u64,
) -> Result<(), OutOfMemory>
    requires sound { SoundParams params.now }
    requires fits { IsScanFor params.now gate scan.old }
    ensures ready { OnOk result (scan.new ≡ Some (record {
      params = params.now;
      gate = gate;
      added = added_in scan.old;
      survey = survey_in scan.old;
    })) }
    ensures err { OnErr result (scan.new ≡ scan.old) }
    ensures none { OnErr result (scan.old ≡ None) }
{
    if scan.is_some() {
        return Ok(());
    }
    begin_anew(alloc, scan, params, gate)
}

/// Makes a check that was shown no slot. It stands apart, since it is done once.
#[inline(never)]
fn begin_anew(
    alloc: Global,
    scan: &mut Option<Fsck>,
    params: &Params,
    gate: u64,
) -> Result<(), OutOfMemory>
    requires sound { SoundParams params.now }
    requires none { scan.old ≡ None }
    ensures made { OnOk result (scan.new ≡ Some (first_scan params.now gate)) }
    ensures err { OnErr result (scan.new ≡ scan.old) }
{
    *scan = Some(Fsck::new(alloc, params, gate)?);
    Ok(())
}

/// Shows a check the words of the next slot. `OutOfMemory` comes at the first slot, for whose check the units are mapped,
/// or at an entry below the gate; then the check has told what it had told before.
pub(crate) fn show(
    alloc: Global,
    scan: &mut Option<Fsck>,
    params: &Params,
    gate: u64,
    words: &[u64],
) -> Result<(), OutOfMemory>
    requires sound { SoundParams params.now }
    requires fits { IsScanFor params.now gate scan.old }
    requires left { added_in scan.old < params.now.slots }
    requires count { length words.now ≡ (geometry params.now).words }
    ensures shown { OnOk result (survey_in scan.new
        ≡ survey_slot params.now gate (added_in scan.old) words.now (survey_in scan.old)) }
    ensures added { OnOk result (added_in scan.new ≡ added_in scan.old + 1) }
    ensures fits { IsScanFor params.now gate scan.new }
    ensures err { OnErr result (survey_in scan.new ≡ survey_in scan.old) }
    ensures err_added { OnErr result (added_in scan.new ≡ added_in scan.old) }
    ensures want { OnErr result (ShowWants params.now gate (added_in scan.old) words.now) }
{
    begin_scan(alloc, scan, params, gate)?;
    match scan {
        Some(scan) => scan.add(words),
        None => unreachable!(),
    }
}

/// What a check reports, once it was shown all slots, of which there are some.
pub(crate) fn report_of(scan: &Option<Fsck>) -> Report
    requires shown { 0 < added_in scan.now }
    ensures { (p : Params) (gate : ℕ) → IsScanFor p gate scan.now → result ≡ report_by p gate (survey_in scan.now) }
{
    match scan {
        Some(scan) => scan.report(),
        None => unreachable!(),
    }
}
