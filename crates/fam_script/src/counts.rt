//! What is counted of notes, for a storm's line. fam_journal's `specs/Ends.antt` has the counts.

ghost use Rattle.std.specs.Prelude.{◌≡◌, ◌+◌, ◌^◌, ◌<◌, count_by, IfSome};
ghost use Rattle.fam_journal.specs.Ends as spec;
ghost use Rattle.fam_journal.specs.Ends.{counted};
ghost use Rattle.fam_notes.specs.Notes.{answer_view, note_view, notes_view};
ghost use Rattle.fam_script.specs.Settled as rule;

use fam_notes::Note;
use fam_rules::{LogState, Report};
use fam_tasks::Answer;

/// The operation of making a file system that sends the first line.
const FIRST_SENT: u64 = 36;

/// What is counted of notes.
#[derive(Clone, Copy)]
pub struct Counts {
    /// How many of them are answers.
    pub answers: u64,
    /// How many of them are refusals.
    pub refused: u64,
    /// How many entries are settled behind the last one; 0 before the first file system was made.
    pub settled: u64,
}

/// What is settled of a file system that was made.
#[derive(Clone, Copy)]
struct Settled {
    /// So many entries.
    length: u64,
    /// One more was named, of which no note has said yet whether it is.
    pending: bool,
}

fn is_answer(note: &Note) -> bool
    ensures { result ≡ spec.is_answer_note (note_view note.now) }
{
    match note {
        Note::Answered { .. } => true,
        Note::Host { .. } => false,
        Note::Made { .. } => false,
        Note::Cut { .. } => false,
        Note::Start { .. } => false,
        Note::Mark { .. } => false,
        Note::Found { .. } => false,
        Note::Writes { .. } => false,
        Note::Stop { .. } => false,
        Note::Halt { .. } => false,
        Note::Umount { .. } => false,
        Note::Refused { .. } => false,
    }
}

fn is_refused(note: &Note) -> bool
    ensures { result ≡ spec.is_refused_note (note_view note.now) }
{
    match note {
        Note::Refused { .. } => true,
        Note::Host { .. } => false,
        Note::Made { .. } => false,
        Note::Cut { .. } => false,
        Note::Start { .. } => false,
        Note::Mark { .. } => false,
        Note::Found { .. } => false,
        Note::Writes { .. } => false,
        Note::Answered { .. } => false,
        Note::Stop { .. } => false,
        Note::Halt { .. } => false,
        Note::Umount { .. } => false,
    }
}

/// The pending entry joins the settled ones.
fn joined(settled: Settled) -> Settled
    requires { settled.length + 1 < 2 ^ 64 }
    ensures { result ≡ rule.length_joined settled }
{
    if settled.pending {
        Settled {
            length: settled.length + 1,
            pending: false,
        }
    } else {
        Settled {
            length: settled.length,
            pending: false,
        }
    }
}

/// The first `m` entries were shown: the pending one is settled where it is one of them.
fn shows(settled: Settled, m: u64) -> Settled
    requires { settled.length + 1 < 2 ^ 64 }
    ensures { result ≡ rule.length_shown m settled }
{
    if m == settled.length + 1 {
        joined(settled)
    } else {
        settled
    }
}

/// The master found `n` entries: the pending one is dropped where it isn't one of them.
fn finds(settled: Settled, n: u64) -> Settled
    requires { settled.length + 1 < 2 ^ 64 }
    ensures { result ≡ rule.length_found n settled }
{
    if n == settled.length {
        Settled {
            length: settled.length,
            pending: false,
        }
    } else {
        shows(settled, n)
    }
}

/// Entry `seq` is acknowledged.
fn acknowledges(settled: Settled, seq: u64) -> Settled
    requires { settled.length + 1 < 2 ^ 64 }
    ensures { result ≡ rule.length_acknowledged seq settled }
{
    if seq == settled.length {
        joined(settled)
    } else {
        settled
    }
}

/// A report of a sound log shows its entries.
fn reports(settled: Settled, report: &Report) -> Settled
    requires { settled.length + 1 < 2 ^ 64 }
    ensures { result ≡ rule.reports report.now.log settled }
{
    match report.log {
        LogState::Sound { entries, .. } => shows(settled, entries),
        LogState::BadLog { .. } => settled,
        LogState::Unread => settled,
    }
}

/// What is settled behind an answer.
fn answered(settled: Settled, answer: &Answer) -> Settled
    requires { settled.length + 1 < 2 ^ 64 }
    ensures { result ≡ rule.answered (answer_view answer.now) settled }
{
    match answer {
        Answer::Ok(seq) => acknowledges(settled, *seq),
        Answer::Played { m, .. } => shows(settled, *m),
        Answer::Mounted { m } => shows(settled, *m),
        Answer::Same { m } => shows(settled, *m),
        Answer::Bytes { m, .. } => shows(settled, *m),
        Answer::Checked { m, .. } => shows(settled, *m),
        Answer::Report(report) => reports(settled, &report.get()),
        Answer::NoSuper(_) => settled,
        Answer::BadSuper { .. } => settled,
        Answer::BadLog { .. } => settled,
        Answer::BadEntry { .. } => settled,
        Answer::NotMaster { .. } => settled,
        Answer::LongPath(_) => settled,
        Answer::BadStripe => settled,
        Answer::Exists(_) => settled,
        Answer::NoParent => settled,
        Answer::ParentIsFile => settled,
        Answer::LogFull(_) => settled,
        Answer::NoSpace(_) => settled,
        Answer::NotFound { m } => shows(settled, *m),
        Answer::IsDirectory { m } => shows(settled, *m),
        Answer::Differs { m, .. } => shows(settled, *m),
        Answer::Length { m, .. } => shows(settled, *m),
        Answer::MediaFault(_) => settled,
    }
}

/// What is settled where the maker of a file system halted after so many operations: behind its first send nothing.
fn cut(settled: Settled, k: u64) -> Option<Settled>
    ensures { result ≡ rule.length_cut k settled }
{
    if k < FIRST_SENT { Some(settled) } else { None }
}

/// What is settled behind a note of a file system that was made before. None: it stands no more.
fn continued(settled: Settled, note: &Note) -> Option<Settled>
    requires { settled.length + 1 < 2 ^ 64 }
    ensures { result ≡ rule.continued (note_view note.now) settled }
{
    match note {
        Note::Found { n, .. } => Some(finds(settled, *n)),
        Note::Answered { answer, .. } => Some(answered(settled, answer)),
        Note::Writes { .. } => Some(Settled {
            length: settled.length,
            pending: true,
        }),
        Note::Made { .. } => Some(Settled {
            length: 0,
            pending: false,
        }),
        Note::Cut { k, .. } => cut(settled, *k),
        Note::Host { .. } => Some(settled),
        Note::Start { .. } => Some(settled),
        Note::Mark { .. } => Some(settled),
        Note::Stop { .. } => Some(settled),
        Note::Halt { .. } => Some(settled),
        Note::Umount { .. } => Some(settled),
        Note::Refused { .. } => Some(settled),
    }
}

/// What is settled behind a note, before which no file system was made.
fn begun(note: &Note) -> Option<Settled>
    ensures { result ≡ rule.begun (note_view note.now) }
{
    match note {
        Note::Made { .. } => Some(Settled {
            length: 0,
            pending: false,
        }),
        Note::Host { .. } => None,
        Note::Cut { .. } => None,
        Note::Start { .. } => None,
        Note::Mark { .. } => None,
        Note::Found { .. } => None,
        Note::Writes { .. } => None,
        Note::Answered { .. } => None,
        Note::Stop { .. } => None,
        Note::Halt { .. } => None,
        Note::Umount { .. } => None,
        Note::Refused { .. } => None,
    }
}

/// What is settled behind a note.
fn settled_after(settled: Option<Settled>, note: &Note) -> Option<Settled>
    requires { IfSome settled (λ s. s.length + 1 < 2 ^ 64) }
    ensures { result ≡ rule.length_after (note_view note.now) settled }
{
    match settled {
        Some(settled) => continued(settled, note),
        None => begun(note),
    }
}

/// How many entries are settled behind notes.
fn settled_length(notes: &[Note]) -> u64
    ensures { result ≡ (counted (notes_view notes.now)).settled }
{
    let mut settled = None;
    'notes: for note in notes {
        settled = settled_after(settled, note);
    }
    match settled {
        Some(settled) => settled.length,
        None => 0,
    }
}

fn count_answers(notes: &[Note]) -> u64
    ensures { result ≡ count_by (λ note. spec.is_answer_note (note_view note)) notes.now }
{
    let mut count = 0;
    'notes: for note in notes {
        if is_answer(note) {
            count += 1;
        }
    }
    count
}

fn count_refused(notes: &[Note]) -> u64
    ensures { result ≡ count_by (λ note. spec.is_refused_note (note_view note)) notes.now }
{
    let mut count = 0;
    'notes: for note in notes {
        if is_refused(note) {
            count += 1;
        }
    }
    count
}

/// What is counted of the notes of a whole journal.
pub fn count_notes(notes: &[Note]) -> Counts
    ensures answers { result.answers ≡ (counted (notes_view notes.now)).answers }
    ensures refused { result.refused ≡ (counted (notes_view notes.now)).refused }
    ensures settled { result.settled ≡ (counted (notes_view notes.now)).settled }
{
    Counts {
        answers: count_answers(notes),
        refused: count_refused(notes),
        settled: settled_length(notes),
    }
}
