//! The statuses of notes. fam_outcomes' `specs/Statuses.antt` has them.

ghost use Rattle.std.specs.Prelude.{◌≡◌};
ghost use Rattle.fam_outcomes.specs.Statuses as spec;
ghost use Rattle.fam_notes.specs.Notes.{answer_view, note_view, notes_view};

use crate::reports::is_sound;
use fam_base::Kind;
use fam_journal::Refusal;
use fam_notes::Note;
use fam_outcomes::Status;
use fam_rules::Checked;
use fam_tasks::Answer;

/// Nothing is missing, and nothing is extra or changed.
fn is_checked_equal(checked: &Checked) -> bool
    ensures { result ≡ spec.is_checked_equal checked.now }
{
    checked.missing == 0 && checked.extra == 0 && checked.changed == 0
}

/// What was looked at is as it should be, or not.
fn sound_status(is_sound: bool) -> Status
    ensures { result ≡ spec.sound_status is_sound }
{
    if is_sound {
        Status::Done
    } else {
        Status::Damaged
    }
}

/// The status of an answer alone.
fn answer_status(answer: &Answer) -> Status
    ensures { result ≡ spec.answer_status (answer_view answer.now) }
{
    match answer {
        Answer::Ok(_) => Status::Done,
        Answer::Played { .. } => Status::Done,
        Answer::Mounted { .. } => Status::Done,
        Answer::Same { .. } => Status::Done,
        Answer::Bytes { .. } => Status::Done,
        Answer::Checked { checked, .. } => sound_status(is_checked_equal(checked.get())),
        Answer::Report(report) => sound_status(is_sound(&report.get())),
        Answer::NoSuper(_) => Status::Damaged,
        Answer::BadSuper { .. } => Status::Damaged,
        Answer::BadLog { .. } => Status::Damaged,
        Answer::BadEntry { .. } => Status::Damaged,
        Answer::NotMaster { .. } => Status::Refused,
        Answer::LongPath(_) => Status::Refused,
        Answer::BadStripe => Status::Refused,
        Answer::Exists(_) => Status::Refused,
        Answer::NoParent => Status::Refused,
        Answer::ParentIsFile => Status::Refused,
        Answer::LogFull(_) => Status::Refused,
        Answer::NoSpace(_) => Status::Refused,
        Answer::NotFound { .. } => Status::Refused,
        Answer::IsDirectory { .. } => Status::Refused,
        Answer::Differs { .. } => Status::Damaged,
        Answer::Length { .. } => Status::Damaged,
        Answer::MediaFault(_) => Status::MediaFault,
    }
}

/// The status of a refusal alone.
fn cause_status(cause: &Refusal) -> Status
    ensures { result ≡ spec.cause_status cause.now }
{
    match cause {
        Refusal::ImageSmall(_) => Status::Damaged,
        Refusal::MediaFault(_) => Status::MediaFault,
        Refusal::NoHost => Status::Refused,
        Refusal::SameHost(_) => Status::Refused,
        Refusal::TooManyHosts => Status::Refused,
        Refusal::BadGeometry { .. } => Status::Refused,
        Refusal::TooSmall { .. } => Status::Refused,
        Refusal::Busy(_) => Status::Refused,
        Refusal::Dirty(_) => Status::Refused,
        Refusal::HasSuper(_) => Status::Refused,
        Refusal::Idle => Status::Refused,
        Refusal::Mounted => Status::Refused,
        Refusal::NotMounted => Status::Refused,
        Refusal::NoLine { .. } => Status::Refused,
        Refusal::NoFile(_) => Status::Refused,
        Refusal::CopyLimit(_) => Status::Refused,
        Refusal::BadListing(_) => Status::Refused,
    }
}

/// What a command would end with whose only note this were: `Done` where it is neither an answer nor a refusal.
pub fn note_status(note: &Note) -> Status
    ensures { result ≡ spec.note_status (note_view note.now) }
{
    match note {
        Note::Host { .. } => Status::Done,
        Note::Made { .. } => Status::Done,
        Note::Cut { .. } => Status::Done,
        Note::Start { .. } => Status::Done,
        Note::Mark { .. } => Status::Done,
        Note::Found { .. } => Status::Done,
        Note::Writes { .. } => Status::Done,
        Note::Answered { answer, .. } => answer_status(answer),
        Note::Stop { .. } => Status::Done,
        Note::Halt { .. } => Status::Done,
        Note::Umount { .. } => Status::Done,
        Note::Refused { cause, .. } => cause_status(cause),
    }
}

/// An answer behind which no directory further along a path is made.
fn answer_stops(answer: &Answer) -> bool
    ensures { result ≡ spec.answer_stops (answer_view answer.now) }
{
    match answer {
        Answer::Ok(_) => false,
        Answer::Exists(Kind::Directory) => false,
        Answer::Exists(Kind::File) => true,
        Answer::Played { .. } => true,
        Answer::Mounted { .. } => true,
        Answer::Same { .. } => true,
        Answer::Bytes { .. } => true,
        Answer::Checked { .. } => true,
        Answer::Report(_) => true,
        Answer::NoSuper(_) => true,
        Answer::BadSuper { .. } => true,
        Answer::BadLog { .. } => true,
        Answer::BadEntry { .. } => true,
        Answer::NotMaster { .. } => true,
        Answer::LongPath(_) => true,
        Answer::BadStripe => true,
        Answer::NoParent => true,
        Answer::ParentIsFile => true,
        Answer::LogFull(_) => true,
        Answer::NoSpace(_) => true,
        Answer::NotFound { .. } => true,
        Answer::IsDirectory { .. } => true,
        Answer::Differs { .. } => true,
        Answer::Length { .. } => true,
        Answer::MediaFault(_) => true,
    }
}

/// Where directories are made along a path: none further along is made behind this note. A directory that is there
/// already stops nothing.
pub fn note_stops(note: &Note) -> bool
    ensures { result ≡ spec.note_stops (note_view note.now) }
{
    match note {
        Note::Answered { answer, .. } => answer_stops(answer),
        Note::Refused { .. } => true,
        Note::Host { .. } => false,
        Note::Made { .. } => false,
        Note::Cut { .. } => false,
        Note::Start { .. } => false,
        Note::Mark { .. } => false,
        Note::Found { .. } => false,
        Note::Writes { .. } => false,
        Note::Stop { .. } => false,
        Note::Halt { .. } => false,
        Note::Umount { .. } => false,
    }
}

/// A status is that of success.
pub fn is_done(status: Status) -> bool
    ensures { result ≡ spec.is_done status }
{
    match status {
        Status::Done => true,
        Status::Refused => false,
        Status::Usage => false,
        Status::BadScript => false,
        Status::MediaFault => false,
        Status::SourceFault => false,
        Status::SinkFault => false,
        Status::OutOfMemory => false,
        Status::Damaged => false,
        Status::ShadeFault => false,
    }
}

/// Each note alone has the status `Done`.
pub fn is_good(notes: &[Note]) -> bool
    ensures { result ≡ spec.is_good (notes_view notes.now) }
{
    'notes: for note in notes {
        if !is_done(note_status(note)) {
            return false;
        }
    }
    true
}

/// The status of the last note alone; `Done` where there is none.
pub fn last_status(notes: &[Note]) -> Status
    ensures { result ≡ spec.last_status (notes_view notes.now) }
{
    match notes.split_last() {
        Some((last, _)) => note_status(last),
        None => Status::Done,
    }
}

/// The last note stops the making of directories along a path. No note does not.
pub fn last_stops(notes: &[Note]) -> bool
    ensures { result ≡ spec.last_stops (notes_view notes.now) }
{
    match notes.split_last() {
        Some((last, _)) => note_stops(last),
        None => false,
    }
}

/// The status of directories that were made along a path: that of the last note where it stops, and else `Done`.
pub fn parents_status(notes: &[Note]) -> Status
    ensures { result ≡ spec.parents_status (notes_view notes.now) }
{
    if last_stops(notes) {
        last_status(notes)
    } else {
        Status::Done
    }
}
