//! What notes count for. `specs/Statuses.antt` says what is computed here.

ghost use Rattle.std.specs.Prelude.{◌≡◌};
ghost use Rattle.fam_mail_script.specs.Statuses as spec;

use fam_mail::{MailNote, MailRefusal};
use fam_outcomes::Status;
use fam_script::is_done;

/// The status of a refusal alone.
fn cause_status(cause: &MailRefusal) -> Status
    ensures { result ≡ spec.mail_cause_status cause.now }
{
    match cause {
        MailRefusal::NoHost => Status::Refused,
        MailRefusal::SameHost(_) => Status::Refused,
        MailRefusal::TooManyHosts => Status::Refused,
        MailRefusal::SecondWriter(_) => Status::Refused,
        MailRefusal::Busy => Status::Refused,
        MailRefusal::NotWriter => Status::Refused,
        MailRefusal::Idle => Status::Refused,
        MailRefusal::NoLine { .. } => Status::Refused,
        MailRefusal::MediaFault(_) => Status::MediaFault,
    }
}

/// The status of a note alone: a full box refuses a post, and a box or a record that is none is damage.
pub fn note_status(note: &MailNote) -> Status
    ensures { result ≡ spec.mail_note_status note.now }
{
    match note {
        MailNote::Writer(_) => Status::Done,
        MailNote::Reader(_) => Status::Done,
        MailNote::Start(_, _) => Status::Done,
        MailNote::Mark(_) => Status::Done,
        MailNote::Found(_, _) => Status::Done,
        MailNote::Posted(_, _) => Status::Done,
        MailNote::Full(_, _) => Status::Refused,
        MailNote::Taken(_, _, _) => Status::Done,
        MailNote::BadBox { .. } => Status::Damaged,
        MailNote::BadRecord { .. } => Status::Damaged,
        MailNote::Stop(_) => Status::Done,
        MailNote::Halt(_) => Status::Done,
        MailNote::MediaFault(_, _) => Status::MediaFault,
        MailNote::Refused(_, cause) => cause_status(cause),
    }
}

/// Each note alone has the status `Done`.
pub fn is_good(notes: &[MailNote]) -> bool
    ensures { result ≡ spec.is_good_mail notes.now }
{
    'notes: for note in notes {
        if !is_done(note_status(note)) {
            return false;
        }
    }
    true
}
