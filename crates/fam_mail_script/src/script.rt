//! A line of a mailbox's script as an event, and the script as its events. `specs/Scripts.antt` has both.

ghost use Rattle.std.specs.Prelude.{◌≡◌, IfErr, IfOk, Ok};
ghost use Rattle.fam_grammar.specs.Scripts.{IsBadLine, IsBadScript};
ghost use Rattle.fam_mail_script.specs.Scripts.{mail_events, mail_line_reads};

use crate::events::event;
use fam_grammar::{LineFault, words_of};
use fam_mail::MailEvent;
use std::alloc::Global;

/// The event of a line of a script, given without its line feed; `None` for a line without words, or whose first word
/// begins with `#`. `number` is the line's, counted from 1; a bad line is named by it.
#[tactic(auto, unfolding(crate::specs::Scripts::mail_line_reads))]
pub fn read_mail_line(bytes: &[u8], number: u64) -> Result<Option<MailEvent>, LineFault>
    ensures value { IfOk result (λ event. mail_line_reads bytes.now ≡ Ok event) }
    ensures bad { IfErr result (IsBadLine number (mail_line_reads bytes.now)) }
{
    let Some((mut words, line)) = words_of(bytes, number) else {
        return Ok(None);
    };
    Ok(Some(event(&mut words, line)?))
}

/// The events of a script, in their order: those of its lines, of which some have none. `BadLine` names the first bad
/// line, counted from 1, and its column; `OutOfMemory` comes where none is left for the events.
pub fn read_mail_script(alloc: Global, bytes: &[u8]) -> Result<Vec<MailEvent>, LineFault>
    ensures read { IfOk result (λ events. mail_events bytes.now ≡ Ok events.items) }
    ensures bad { IfErr result (IsBadScript (mail_events bytes.now)) }
{
    let mut events = Vec::new(alloc);
    let mut number = 0;
    for line in bytes.split(|byte| *byte == b'\n') {
        number += 1;
        match read_mail_line(line, number) {
            Ok(None) => {}
            Ok(Some(event)) => {
                if events.push(event).is_err() {
                    return Err(LineFault::OutOfMemory);
                }
            }
            Err(fault) => return Err(fault),
        }
    }
    Ok(events)
}
