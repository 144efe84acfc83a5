//! Notes in print. fam_outcomes' `specs/Texts.antt` and `Programs.antt` have their lines.

ghost use Rattle.std.specs.Prelude.{◌≡◌, ◌++◌, ◌∷◌, [], IfOk, OnOk, length, string_bytes};
ghost use Rattle.fam_crc.specs.Crc.{crc32};
ghost use Rattle.fam_journal.specs.Names.{NamesHost, NameDeclared};
ghost use Rattle.fam_outcomes.specs.Texts as text;
ghost use Rattle.fam_script.specs.StormLines.{storm_counts_text, front_text, storm_text};
ghost use Rattle.fam_notes.specs.Notes.{note_view, notes_view};

use crate::counts::Counts;
use crate::lines::line_with;
use crate::notes::{note_text, print_note};
use fam_base::{HostName, OutOfMemory};
use fam_crc::crc_more;
use fam_notes::Note;
use std::alloc::{AllocError, Global};

/// Adds a name.
fn put_name(name: HostName, into: &mut Vec<HostName>) -> Result<(), OutOfMemory>
    ensures { OnOk result (into.new.items ≡ into.old.items ++ name ∷ []) }
{
    match into.push(name) {
        Ok(()) => Ok(()),
        Err(_) => Err(OutOfMemory),
    }
}

/// Adds the name of the host that a note declares.
fn declare(note: &Note, names: &mut Vec<HostName>) -> Result<(), OutOfMemory>
    ensures { OnOk result (names.new.items ≡ text.names_after names.old.items (note_view note.now)) }
{
    match note {
        Note::Host { name, .. } => put_name(*name, names),
        Note::Made { .. } => Ok(()),
        Note::Cut { .. } => Ok(()),
        Note::Start { .. } => Ok(()),
        Note::Mark { .. } => Ok(()),
        Note::Found { .. } => Ok(()),
        Note::Writes { .. } => Ok(()),
        Note::Answered { .. } => Ok(()),
        Note::Stop { .. } => Ok(()),
        Note::Halt { .. } => Ok(()),
        Note::Umount { .. } => Ok(()),
        Note::Refused { .. } => Ok(()),
    }
}

/// A note in print, with its further lines. `names` are those of the hosts that were declared before it, in their order;
/// the name of a host that it declares is added. On `OutOfMemory` nothing is said of them.
pub fn note_line(
    alloc: Global,
    note: &Note,
    names: &mut Vec<HostName>,
) -> Result<Vec<u8>, OutOfMemory>
    requires { NamesHost (length names.old.items) (note_view note.now) }
    ensures line { IfOk result (λ line. line.items ≡ text.note_line names.old.items (note_view note.now)) }
    ensures names { OnOk result (names.new.items ≡ text.names_after names.old.items (note_view note.now)) }
{
    let line = print_note(alloc, note, names.as_slice())?;
    declare(note, names)?;
    Ok(line)
}

/// The CRC-32 of the text of a whole journal. Only one note's text is held at a time.
pub fn text_crc(alloc: Global, notes: &[Note]) -> Result<u32, OutOfMemory>
    requires { NameDeclared 0 (notes_view notes.now) }
    ensures { IfOk result (λ crc. crc ≡ crc32 (text.render (notes_view notes.now))) }
{
    let mut names = Vec::new(alloc);
    let mut crc = 0;
    'notes: for note in notes {
        let line = note_line(alloc, note, &mut names)?;
        crc = crc_more(crc, line.as_slice());
    }
    Ok(crc)
}

/// The names of the hosts that notes declare, in their order.
fn declared(alloc: Global, notes: &[Note]) -> Result<Vec<HostName>, OutOfMemory>
    ensures { IfOk result (λ names. names.items ≡ text.names_behind [] (notes_view notes.now)) }
{
    let mut names = Vec::new(alloc);
    'notes: for note in notes {
        declare(note, &mut names)?;
    }
    Ok(names)
}

/// What a command on its own shows: the text of its journal's last note, without the host's name. No note shows
/// nothing.
pub fn shown(alloc: Global, notes: &[Note]) -> Result<Vec<u8>, OutOfMemory>
    requires { NameDeclared 0 (notes_view notes.now) }
    ensures { IfOk result (λ line. line.items ≡ text.shown (notes_view notes.now)) }
{
    match notes.split_last() {
        Some((last, before)) => {
            let names = declared(alloc, before)?;
            note_text(alloc, last, names.as_slice())
        }
        None => Ok(Vec::new(alloc)),
    }
}

/// A storm's seed and size, and how many events its script has.
fn storm_front(alloc: Global, seed: u64, size: u64, events: u64) -> Result<String, AllocError>
    ensures { IfOk result (λ s. string_bytes s ≡ front_text seed size events) }
{
    format!(in alloc; "storm {seed} {size} events {events}")
}

/// What is counted of a storm's notes, and the CRC-32 of their text.
fn storm_back(alloc: Global, counts: &Counts, crc: u32) -> Result<String, AllocError>
    ensures { IfOk result (λ s. string_bytes s ≡ storm_counts_text counts.now crc) }
{
    let answers = counts.answers;
    let refused = counts.refused;
    let settled = counts.settled;
    format!(in alloc; " answers {answers} refused {refused} settled {settled} crc {crc}")
}

/// The line of a storm: its seed and size, how many events its script has, what is counted of its notes, and the CRC-32
/// of their text.
pub fn storm_line(
    alloc: Global,
    seed: u64,
    size: u64,
    events: u64,
    counts: &Counts,
    crc: u32,
) -> Result<Vec<u8>, OutOfMemory>
    ensures { IfOk result (λ made. made.items ≡ text.line (storm_text seed size events counts.now crc)) }
{
    let Ok(front) = storm_front(alloc, seed, size, events) else {
        return Err(OutOfMemory);
    };
    let Ok(back) = storm_back(alloc, counts, crc) else {
        return Err(OutOfMemory);
    };
    line_with(alloc, front.as_str(), back.as_bytes())
}
