//! Notes that are added where there is room, and the room.

ghost use Rattle.std.specs.Prelude.{◌≡◌, ◌++◌, ◌∷◌, ◌<◌, ◌≤◌, ◌+◌, [], OnOk, vec_capacity, vec_len};
ghost use Rattle.fam_mail.specs.Calls.{mail_told};
ghost use Rattle.fam_mail.specs.declared.note.MailNote.TheVariants as notes;
ghost use Rattle.fam_mail.specs.declared.note.MailFault.TheVariants as fault;

use crate::note::{MailFault, MailNote, MailRefusal};
use fam_base::{HostName, OutOfMemory};

/// Makes room for a note.
pub(crate) fn make_room(journal: &mut Vec<MailNote>) -> Result<(), OutOfMemory>
    ensures room { OnOk result (vec_len journal.new < vec_capacity journal.new) }
    ensures same { journal.new.items ≡ journal.old.items }
{
    match journal.reserve(1) {
        Ok(()) => Ok(()),
        Err(_) => Err(OutOfMemory),
    }
}

/// Makes room for two notes.
pub(crate) fn two_rooms(journal: &mut Vec<MailNote>) -> Result<(), OutOfMemory>
    ensures room { OnOk result (vec_len journal.new + 2 ≤ vec_capacity journal.new) }
    ensures same { journal.new.items ≡ journal.old.items }
{
    match journal.reserve(2) {
        Ok(()) => Ok(()),
        Err(_) => Err(OutOfMemory),
    }
}

/// Adds a note, for which there is room.
pub(crate) fn add(journal: &mut Vec<MailNote>, note: MailNote)
    requires room { vec_len journal.old < vec_capacity journal.old }
    ensures noted { journal.new.items ≡ journal.old.items ++ note ∷ [] }
    ensures len { vec_len journal.new ≡ vec_len journal.old + 1 }
    ensures capacity { vec_capacity journal.old ≤ vec_capacity journal.new }
{
    let _ = journal.push(note);
}

/// A cause twice: one for the journal, and one to be given.
fn twice(cause: MailRefusal) -> (MailRefusal, MailRefusal)
    ensures noted { result.0 ≡ cause }
    ensures given { result.1 ≡ cause }
{
    match cause {
        MailRefusal::NoHost => (MailRefusal::NoHost, MailRefusal::NoHost),
        MailRefusal::SameHost(name) => (MailRefusal::SameHost(name), MailRefusal::SameHost(name)),
        MailRefusal::TooManyHosts => (MailRefusal::TooManyHosts, MailRefusal::TooManyHosts),
        MailRefusal::SecondWriter(name) => (
            MailRefusal::SecondWriter(name),
            MailRefusal::SecondWriter(name),
        ),
        MailRefusal::Busy => (MailRefusal::Busy, MailRefusal::Busy),
        MailRefusal::NotWriter => (MailRefusal::NotWriter, MailRefusal::NotWriter),
        MailRefusal::Idle => (MailRefusal::Idle, MailRefusal::Idle),
        MailRefusal::NoLine { line, lines } => (
            MailRefusal::NoLine { line, lines },
            MailRefusal::NoLine { line, lines },
        ),
        MailRefusal::MediaFault(line) => (
            MailRefusal::MediaFault(line),
            MailRefusal::MediaFault(line),
        ),
    }
}

/// Notes that a call is refused, for which there is room, and gives the refusal.
pub(crate) fn refused(journal: &mut Vec<MailNote>, name: &HostName, cause: MailRefusal) -> MailFault
    requires room { vec_len journal.old < vec_capacity journal.old }
    ensures noted { journal.new.items ≡ journal.old.items ++ notes.Refused name.now cause ∷ [] }
    ensures given { result ≡ fault.Refused cause }
{
    let (own, given) = twice(cause);
    add(journal, MailNote::Refused(*name, own));
    MailFault::Refused(given)
}

/// What was done, or that there was no memory for it.
pub(crate) fn or_fault<T>(done: Result<T, OutOfMemory>) -> Result<T, MailFault>
    ensures { result ≡ mail_told done }
{
    match done {
        Ok(done) => Ok(done),
        Err(_) => Err(MailFault::OutOfMemory),
    }
}
