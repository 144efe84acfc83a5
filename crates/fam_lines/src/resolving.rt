//! Which line a history's line is, behind hosts that are declared.

ghost use Rattle.std.specs.Prelude.{◌≡◌, ◌≤◌, IfSome, MatchOption, length};
ghost use Rattle.fam_journal.specs.Calls.{host_limit};
ghost use Rattle.fam_journal.specs.Notes.{Note};
ghost use Rattle.fam_history.specs.ToldNotes.{AreDistinctNames};
ghost use Rattle.fam_judge.specs.Alike.{told_note};
ghost use Rattle.fam_judge.specs.Untold.{untold_note};
ghost use Rattle.fam_lines.specs.Behind.{IsNoteOf, IsEntireNote, further};
ghost use Rattle.fam_lines.specs.Hosts.{seen_names};
ghost use Rattle.fam_lines.specs.Lines.{note_of_line};
ghost use Rattle.fam_lines.specs.Named.{IsName, NamesHosts, NamesOtherSeen, NamesOthers};
ghost use Rattle.fam_lines.specs.Resolved.{resolved};
ghost use Rattle.fam_lines.specs.Rising.{ListsRising};

use crate::host::{SeenHost, number_in};
use crate::line::Line;
use crate::lines::line_with;
use fam_base::{Entry, HostName};
use fam_history::{LineNote, ToldLine, ToldRefusal};
use fam_rules::Report;

/// A host's name is one. A call does nothing.
fn is_name(name: &HostName)
    ensures { IsName name.now }
{
    // They are a name's.
    let _ = name.bytes();
}

/// So is that of another host which a refusal tells. A call does nothing.
fn names_other(why: &ToldRefusal)
    ensures { NamesOtherSeen why.now }
{
    match why {
        ToldRefusal::SameHost(name) => is_name(name),
        ToldRefusal::Busy(name) => is_name(name),
        ToldRefusal::Dirty(name) => is_name(name),
        ToldRefusal::NoHost => {}
        ToldRefusal::TooManyHosts => {}
        ToldRefusal::BadGeometry { .. } => {}
        ToldRefusal::TooSmall { .. } => {}
        ToldRefusal::ImageSmall(_) => {}
        ToldRefusal::HasSuper(_) => {}
        ToldRefusal::Idle => {}
        ToldRefusal::Mounted => {}
        ToldRefusal::NotMounted => {}
        ToldRefusal::NoLine { .. } => {}
        ToldRefusal::NoFile(_) => {}
        ToldRefusal::CopyLimit(_) => {}
        ToldRefusal::BadListing(_) => {}
        ToldRefusal::MediaFault(_) => {}
    }
}

/// So are those in what a line tells. A call does nothing.
fn names_others(note: &LineNote)
    ensures { NamesOthers note.now }
{
    match note {
        LineNote::Refused(why) => names_other(why),
        LineNote::Host(_) => {}
        LineNote::Made(_) => {}
        LineNote::Cut(_) => {}
        LineNote::Start(_) => {}
        LineNote::Mark => {}
        LineNote::Found(_) => {}
        LineNote::Writes { .. } => {}
        LineNote::Answered(_) => {}
        LineNote::Stop => {}
        LineNote::Halt => {}
        LineNote::Umount => {}
    }
}

/// So are those in a line. A call does nothing.
fn names_hosts(told: &ToldLine)
    ensures { NamesHosts told.now }
{
    is_name(&told.name);
    names_others(&told.note);
}

/// The line with numbers in place of names, and with what no text tells, by its first line and what follows it.
fn line_of(
    hosts: &[SeenHost],
    told: ToldLine,
    entries: Vec<Entry>,
    report: Option<Report>,
) -> Option<Line>
    requires few { length hosts.now ≤ host_limit }
    ensures is { result ≡ resolved hosts.now told entries report }
    ensures names { NamesHosts told }
{
    names_hosts(&told);
    let at = number_in(&told.name, hosts);
    line_with(hosts, at, told.name, told.note, entries, report)
}

/// The line with numbers in place of names, and with what no text tells, behind hosts that are declared: by what its first
/// line tells, and by the entries or the report that follow it. None comes where no note can be it (`only`): its host or another
/// one isn't declared, further lines are missing or are of no answer, entries are in no order, a report isn't as its first line
/// says, or a first path is named though none differs. So the entries of a listing come in order (`rises`).
pub fn resolve(
    hosts: &[SeenHost],
    told: ToldLine,
    entries: Vec<Entry>,
    report: Option<Report>,
) -> Option<Line>
    requires few { length hosts.now ≤ host_limit }
    ensures tells { IfSome result (λ line. IsNoteOf (seen_names hosts.now) told (further entries.items report) (note_of_line line)) }
    ensures whole { IfSome result (λ line. IsEntireNote hosts.now (note_of_line line)) }
    ensures untold { IfSome result (λ line. untold_note (note_of_line line) ≡ note_of_line line) }
    ensures rises { IfSome result ListsRising }

    // Any note that stands and fits is whole.
    ensures only { AreDistinctNames (seen_names hosts.now) → (note : Note) → IsEntireNote hosts.now note
        → IsNoteOf (seen_names hosts.now) told (further entries.items report) note
        → MatchOption result ⊥ (λ line. told_note (note_of_line line) ≡ told_note note) }
{
    line_of(hosts, told, entries, report)
}
