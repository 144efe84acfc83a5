//! What stands before the slots: superblock, header and gate, and where the slots' lines are.

ghost use Rattle.std.specs.Prelude.{◌≡◌, ◌+◌, ◌++◌, ◌^◌, ◌≤◌, ◌<◌, IfOk, OnOk};
ghost use Rattle.fam_format.specs.Layout.{device_limit, slot_line};
ghost use Rattle.fam_format.specs.Log.{gate_fault, log_fault};
ghost use Rattle.fam_format.specs.Params.{SoundParams};
ghost use Rattle.fam_format.specs.Super.{super_body_of};
ghost use Rattle.fam_entry.specs.Tests.{NamesFault};

use fam_base::{Line, LineNo, Params};
use fam_entry::{LogFault, read_log};
use fam_format::{LOG_LINE, LogField, SuperFault, shape_of};
use fam_super::{MAGIC, read_super};

/// The parameters that lines 1 and 2 tell behind a magic that was seen, or the first fault. `have` is the image's bytes.
pub fn read_superblock(first: &Line, second: &Line, have: u64) -> Result<Params, SuperFault>
    requires { have ≤ device_limit }
    ensures value { result ≡ super_body_of (first.now ++ second.now) have }
    ensures sound { IfOk result (λ p. SoundParams p) }
    ensures device { IfOk result (λ p. p.device ≤ have) }
{
    read_super(&[[MAGIC, 0, 0, 0, 0, 0, 0, 0], *first, *second], have)
}

/// Whether the words of log line 0 are the header for these parameters, or the first fault.
pub fn read_header(line: &Line, params: &Params) -> Result<(), LogFault>
    ensures { NamesFault result (log_fault line.now params.now) }
{
    read_log(line, params)
}

/// Whether the gate counts no more entries than there are slots, or the fault.
pub fn read_gate(gate: u64, params: &Params) -> Result<(), LogFault>
    ensures fault { NamesFault result (gate_fault gate params.now) }
    ensures within { OnOk result (gate ≤ params.now.slots) }
{
    if params.slots < gate {
        return Err(LogFault::BadLog {
            field: LogField::Gate,
            found: gate,
            wanted: params.slots,
        });
    }
    Ok(())
}

/// Line `line` of slot `slot`.
pub fn line_of_slot(params: &Params, slot: u64, line: u64) -> LineNo
    requires { slot + line < 2 ^ 32 }
    ensures { result.0 ≡ slot_line params.now slot line }
{
    let lines = shape_of(params.format).lines;
    LineNo(LOG_LINE + lines + lines * slot + line)
}
