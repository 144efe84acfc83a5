//! A script as its events.

ghost use Rattle.std.specs.Prelude.{◌≡◌, IfErr, IfOk, Ok};
ghost use Rattle.fam_grammar.specs.Scripts.{IsBadScript, script_events};
ghost use Rattle.fam_program.specs.Far.{AreSoundEvents};

use fam_grammar::{LineFault, read_line, what_reads_is_sound};
use fam_journal::Event;
use std::alloc::Global;

/// The events of a script, in their order: those of its lines, of which some have none. `BadLine` names the first bad
/// line, counted from 1, and its column.
pub fn read_script(alloc: Global, bytes: &[u8]) -> Result<Vec<Event>, LineFault>
    ensures read { IfOk result (λ events. script_events bytes.now ≡ Ok events.items) }
    ensures sound { IfOk result (λ events. AreSoundEvents events.items) }
    ensures bad { IfErr result (IsBadScript (script_events bytes.now)) }
{
    what_reads_is_sound();
    let mut events = Vec::new(alloc);
    let mut number = 0;
    for line in bytes.split(|byte| *byte == b'\n') {
        number += 1;
        match read_line(alloc, line, number) {
            Ok(None) => {}
            Ok(Some(event)) => {
                if events.push(event).is_err() {
                    return Err(LineFault::OutOfMemory);
                }
            }
            Err(fault) => return Err(fault),
        }
    }
    Ok(events)
}
