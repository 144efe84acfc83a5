//! Lines of words and one number, which are made without memory: what an append or a copy comes to is told in any case.

ghost use Rattle.std.specs.Prelude.{◌≡◌, ◌++◌, ◌∷◌, ◌≤◌, [], IfSome, List, None, codes, decimal, drop, false, length, ℕ};
ghost use Rattle.fam_media.specs.States.{change};
ghost use Rattle.fam_outcomes.specs.Programs.{last_passes};
ghost use Rattle.fam_outcomes.specs.Texts as text;
ghost use Rattle.fam_notes.specs.Notes.{answer_view, note_view, notes_view};
ghost use Rattle.fam_program.specs.Puts.{Put};
ghost use Rattle.fam_program.specs.Shots.{is_short, is_short_answer, is_short_cause, number_text};

use crate::puts::put_line;
use fam_journal::Refusal;
use fam_media::Sink;
use fam_notes::Note;
use fam_outcomes::Status;
use fam_tasks::Answer;
use itoa::write_digits;

/// A line that says one number.
#[derive(Clone, Copy, Debug, PartialEq, Eq)]
pub(crate) enum NumberLine {
    /// The entry of this number is appended.
    Appended(u64),
    /// The media failed at this line.
    Fault(u64),
    /// The media failed at this line while a file system was made.
    MakeFault(u64),
    /// A file system of so many entries is copied.
    Copied(u64),
    /// The image that is copied failed at this line.
    FromFault(u64),
    /// The image that a copy is made on failed at this line.
    ToFault(u64),
}

/// The bytes of the longest such line: 20 of words, 20 digits, a line feed, and one more.
const ROOM: usize = 42;

/// The line of an answer that says one number.
fn answer_number(answer: &Answer) -> Option<NumberLine>
    ensures text { IfSome result (λ short. text.answer_text (answer_view answer.now) ≡ number_text short) }
    ensures none { result ≡ None → is_short_answer (answer_view answer.now) ≡ false }
{
    match answer {
        Answer::Ok(seq) => Some(NumberLine::Appended(*seq)),
        Answer::MediaFault(line) => Some(NumberLine::Fault(line.0)),
        Answer::Played { .. } => None,
        Answer::Mounted { .. } => None,
        Answer::Same { .. } => None,
        Answer::Bytes { .. } => None,
        Answer::Checked { .. } => None,
        Answer::Report(_) => None,
        Answer::NoSuper(_) => None,
        Answer::BadSuper { .. } => None,
        Answer::BadLog { .. } => None,
        Answer::BadEntry { .. } => None,
        Answer::NotMaster { .. } => None,
        Answer::LongPath(_) => None,
        Answer::BadStripe => None,
        Answer::Exists(_) => None,
        Answer::NoParent => None,
        Answer::ParentIsFile => None,
        Answer::LogFull(_) => None,
        Answer::NoSpace(_) => None,
        Answer::NotFound { .. } => None,
        Answer::IsDirectory { .. } => None,
        Answer::Differs { .. } => None,
        Answer::Length { .. } => None,
    }
}

/// The line of a refusal that says a fault of the media.
fn cause_number(cause: &Refusal) -> Option<NumberLine>
    ensures text { (names : List (List ℕ)) → IfSome result (λ short.
        text.line (codes "refused " ++ text.refusal_text names cause.now) ≡ number_text short) }
    ensures none { result ≡ None → is_short_cause cause.now ≡ false }
{
    match cause {
        Refusal::MediaFault(line) => Some(NumberLine::MakeFault(line.0)),
        Refusal::ImageSmall(_) => None,
        Refusal::NoHost => None,
        Refusal::SameHost(_) => None,
        Refusal::TooManyHosts => None,
        Refusal::BadGeometry { .. } => None,
        Refusal::TooSmall { .. } => None,
        Refusal::Busy(_) => None,
        Refusal::Dirty(_) => None,
        Refusal::HasSuper(_) => None,
        Refusal::Idle => None,
        Refusal::NoLine { .. } => None,
        Refusal::NoFile(_) => None,
        Refusal::CopyLimit(_) => None,
        Refusal::BadListing(_) => None,
        Refusal::Mounted => None,
        Refusal::NotMounted => None,
    }
}

/// The line of a note that says one number.
fn note_number(note: &Note) -> Option<NumberLine>
    ensures text { (names : List (List ℕ)) → IfSome result (λ short.
        text.note_text names (note_view note.now) ≡ number_text short) }
    ensures none { result ≡ None → is_short (note_view note.now) ≡ false }
{
    match note {
        Note::Answered { answer, .. } => answer_number(answer),
        Note::Refused { cause, .. } => cause_number(cause),
        Note::Host { .. } => None,
        Note::Made { .. } => None,
        Note::Cut { .. } => None,
        Note::Start { .. } => None,
        Note::Mark { .. } => None,
        Note::Found { .. } => None,
        Note::Writes { .. } => None,
        Note::Stop { .. } => None,
        Note::Halt { .. } => None,
        Note::Umount { .. } => None,
    }
}

/// The line of the last note, if it says one number: that an entry is appended, or that the media failed.
pub(crate) fn last_number(notes: &[Note]) -> Option<NumberLine>
    ensures text { IfSome result (λ short. text.shown (notes_view notes.now) ≡ number_text short) }
    ensures none { result ≡ None → last_passes is_short (notes_view notes.now) ≡ false }
{
    match notes.split_last() {
        Some((last, _)) => note_number(last),
        None => None,
    }
}

/// Writes words, a number and a line feed to the end of a room, and returns where they start.
fn write_number(words: &[u8], number: u64, room: &mut [u8; ROOM]) -> usize
    requires short { length words.now ≤ 21 }
    ensures within { result ≤ 42 }
    ensures written { drop result room.new ≡ words.now ++ (decimal number ++ 10 ∷ []) }
{
    room[ROOM - 1] = b'\n';
    let digits = write_digits(number, room, ROOM - 1);
    let start = digits - words.len();
    room[start..digits].copy_from_slice(words);
    start
}

/// Puts words, a number and a line feed, and gives their status.
fn put_words<K: Sink>(words: &[u8], number: u64, own: Status, out: &mut K) -> Status
    requires short { length words.now ≤ 21 }
    ensures put { Put own (words.now ++ (decimal number ++ 10 ∷ [])) (change K.state out.old out.new) result }
    ensures later { (K.state out.old).faults ≤ (K.state out.new).faults }
{
    let mut room = [0; ROOM];
    let start = write_number(words, number, &mut room);
    put_line(out, own, &room[start..])
}

/// Puts a line that says one number, and gives its status. It takes no memory.
pub(crate) fn put_number<K: Sink>(short: NumberLine, own: Status, out: &mut K) -> Status
    ensures put { Put own (number_text short) (change K.state out.old out.new) result }
    ensures later { (K.state out.old).faults ≤ (K.state out.new).faults }
{
    match short {
        NumberLine::Appended(seq) => put_words(b"ok ", seq, own, out),
        NumberLine::Fault(line) => put_words(b"media fault ", line, own, out),
        NumberLine::MakeFault(line) => put_words(b"refused media fault ", line, own, out),
        NumberLine::Copied(count) => put_words(b"dup ", count, own, out),
        NumberLine::FromFault(line) => put_words(b"media fault from ", line, own, out),
        NumberLine::ToFault(line) => put_words(b"media fault to ", line, own, out),
    }
}
