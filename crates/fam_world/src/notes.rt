//! Notes that are added where there is room, and the room.

ghost use Rattle.std.specs.Prelude.{◌≡◌, ◌++◌, ◌∷◌, ◌<◌, ◌≤◌, [], OnErr, OnOk, vec_len, vec_capacity};
ghost use Rattle.fam_journal.specs.Notes.{Refused};
ghost use Rattle.fam_world.specs.Answers.{IsPlain};
ghost use Rattle.fam_world.specs.View.{note_view, notes_view};

use crate::fault::WorldFault;
use crate::hosts::let_go;
use fam_base::{HostName, OutOfMemory};
use fam_journal::Refusal;
use fam_notes::Note;

/// Makes room for a note.
pub(crate) fn make_room(journal: &mut Vec<Note>) -> Result<(), OutOfMemory>
    ensures room { OnOk result (vec_len journal.new < vec_capacity journal.new) }
    ensures full { OnErr result (vec_capacity journal.old ≤ vec_len journal.old) }
    ensures same { journal.new.items ≡ journal.old.items }
{
    match journal.reserve(1) {
        Ok(()) => Ok(()),
        Err(_) => Err(OutOfMemory),
    }
}

/// Adds a note, for which there is room.
pub(crate) fn add(journal: &mut Vec<Note>, note: Note)
    requires room { vec_len journal.old < vec_capacity journal.old }
    ensures { notes_view journal.new.items ≡ notes_view journal.old.items ++ note_view note ∷ [] }
{
    let_go(journal.push(note));
}

/// A cause twice: one for the journal, and one to be given.
fn twice(cause: Refusal) -> (Refusal, Refusal)
    requires plain { IsPlain cause }
    ensures noted { result.0 ≡ cause }
    ensures given { result.1 ≡ cause }
{
    match cause {
        Refusal::NoHost => (Refusal::NoHost, Refusal::NoHost),
        Refusal::SameHost(host) => (Refusal::SameHost(host), Refusal::SameHost(host)),
        Refusal::TooManyHosts => (Refusal::TooManyHosts, Refusal::TooManyHosts),
        Refusal::BadGeometry { unit, log } => (
            Refusal::BadGeometry { unit, log },
            Refusal::BadGeometry { unit, log },
        ),
        Refusal::TooSmall { need, have } => (
            Refusal::TooSmall { need, have },
            Refusal::TooSmall { need, have },
        ),
        Refusal::ImageSmall(lines) => (Refusal::ImageSmall(lines), Refusal::ImageSmall(lines)),
        Refusal::Busy(host) => (Refusal::Busy(host), Refusal::Busy(host)),
        Refusal::Dirty(host) => (Refusal::Dirty(host), Refusal::Dirty(host)),
        Refusal::HasSuper(uuid) => (Refusal::HasSuper(uuid), Refusal::HasSuper(uuid)),
        Refusal::Idle => (Refusal::Idle, Refusal::Idle),
        Refusal::NoLine { line, lines } => (
            Refusal::NoLine { line, lines },
            Refusal::NoLine { line, lines },
        ),
        Refusal::NoFile(_) => unreachable!(),
        Refusal::CopyLimit(sum) => (Refusal::CopyLimit(sum), Refusal::CopyLimit(sum)),
        Refusal::BadListing(line) => (Refusal::BadListing(line), Refusal::BadListing(line)),
        Refusal::MediaFault(line) => (Refusal::MediaFault(line), Refusal::MediaFault(line)),
        Refusal::Mounted => (Refusal::Mounted, Refusal::Mounted),
        Refusal::NotMounted => (Refusal::NotMounted, Refusal::NotMounted),
    }
}

/// Notes a refusal, for which there is room, and gives it.
pub(crate) fn refused(journal: &mut Vec<Note>, name: &HostName, cause: Refusal) -> WorldFault
    requires plain { IsPlain cause }
    requires room { vec_len journal.old < vec_capacity journal.old }
    ensures given { result ≡ WorldFault.Refused cause }
    ensures noted { notes_view journal.new.items ≡ notes_view journal.old.items ++ Refused name.now cause ∷ [] }
{
    let (noted, given) = twice(cause);
    add(
        journal,
        Note::Refused {
            name: *name,
            cause: noted,
        },
    );
    WorldFault::Refused(given)
}
