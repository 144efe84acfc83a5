//! A history's verdict.

ghost use Rattle.std.specs.Prelude.{◌≡◌, ◌*◌, ◌≤◌, IfOk, length};
ghost use Rattle.fam_base.specs.Image.{Image};
ghost use Rattle.fam_format.specs.Layout.{device_limit};
ghost use Rattle.fam_journal.specs.Past.{first_state};
ghost use Rattle.fam_judging.specs.Candidates.{IsGivenImage, settled_state};
ghost use Rattle.fam_settled.specs.Settled.{settled_log_state};
ghost use Rattle.fam_judging.specs.Going.{HasGiven};
ghost use Rattle.fam_rules.specs.Place.{line_bytes};
ghost use Rattle.fam_verdict.specs.Blank.{blank_image, lines_enough};
ghost use Rattle.fam_verdict.specs.Verdicts.{Says};

use crate::blank::{given, lines_enough};
use crate::counting::line_count;
use crate::judged::Judged;
use crate::verdict::Verdict;
use fam_base::OutOfMemory;
use fam_grammar::LineFault;
use fam_judging::{GivenImage, Settled};
use fam_records::Records;
use fam_settled::Log;
use std::alloc::Global;

/// Judges a history's text, on an image of so many lines: where it reads as a file system `settled` is what it holds, and where it
/// doesn't `given` is what is known of it.
fn judge(
    alloc: Global,
    lines: u64,
    given: &GivenImage,
    settled: Settled,
    history: &[u8],
) -> Result<Verdict, OutOfMemory>
    requires few { line_bytes * lines ≤ device_limit }
    ensures { (start : Image) → length start ≡ lines → HasGiven start given.now settled → settled_state start settled ≡ first_state start
        → IfOk result (λ verdict. Says start history.now verdict) }
{
    let mut judged = Judged::new(alloc, settled)?;
    let mut records = Records::new(history);
    'notes: loop {
        match records.next_record(alloc) {
            Ok(Some(next)) => {
                let line = next.line;
                if let Some(cause) = judged.read(alloc, lines, given, next)? {
                    return Ok(Verdict::Illegal { line, cause });
                }
            }
            Ok(None) => return Ok(Verdict::Legal(judged.known(line_count(history)))),
            Err(LineFault::BadLine { line, column }) => {
                return Ok(Verdict::BadLine { line, column });
            }
            Err(LineFault::OutOfMemory) => return Err(OutOfMemory),
        }
    }
}

/// Judges a history's text on an image of so many lines that reads as a file system, of which this is settled.
pub fn judge_on_log(
    alloc: Global,
    lines: u64,
    log: Log,
    history: &[u8],
) -> Result<Verdict, OutOfMemory>
    requires few { line_bytes * lines ≤ device_limit }
    ensures { (start : Image) → length start ≡ lines → settled_log_state log ≡ first_state start → IfOk result (λ verdict. Says start history.now verdict) }
{
    judge(alloc, lines, &given(lines), Settled::Log(log), history)
}

/// Judges a history's text on an image of so many lines that is damaged, of which this is known.
pub fn judge_on_damaged(
    alloc: Global,
    lines: u64,
    given: &GivenImage,
    history: &[u8],
) -> Result<Verdict, OutOfMemory>
    requires few { line_bytes * lines ≤ device_limit }
    ensures { (start : Image) → length start ≡ lines → IsGivenImage start given.now → IfOk result (λ verdict. Says start history.now verdict) }
{
    judge(alloc, lines, given, Settled::Given, history)
}

/// Judges a history's text on a blank image: of as many lines as the device has on which its first file system was made, and of
/// the most that a device may have where none was.
pub fn judge_on_blank(alloc: Global, history: &[u8]) -> Result<Verdict, OutOfMemory>
    ensures { IfOk result (λ verdict. Says (blank_image (lines_enough history.now)) history.now verdict) }
{
    let lines = lines_enough(alloc, history)?;
    judge_on_damaged(alloc, lines, &given(lines), history)
}
