//! Lines with numbers in place of names.

ghost use Rattle.std.specs.Prelude.{◌≡◌, ◌≤◌, None, Option, Some, Vec, length, option_map};
ghost use Rattle.std.specs.Global.{Global};
ghost use Rattle.fam_base.specs.declared.entry.Entry.{Entry};
ghost use Rattle.fam_rules.specs.declared.answers.Report.{Report};
ghost use Rattle.fam_journal.specs.Calls.{host_limit};
ghost use Rattle.fam_lines.specs.Resolved.{answered_line, resolved_refusal, is_answer, is_told, is_told_cmd, is_told_content, line_with, line_of_made, seen_number, row_line, start_line, whole_params};
ghost use Rattle.fam_lines.specs.declared.line.Line.TheVariants as line;

use crate::answer::HostAnswer;
use crate::further::{answer_with, is_bare};
use crate::host::{SeenHost, number_in};
use crate::line::Line;
use fam_base::{Cmd, Content, Entry, HostName, LineNo, Params};
use fam_format::shape_of;
use fam_history::{LineNote, ToldCommand, ToldParams, ToldRefusal};
use fam_journal::{HostId, Refusal};
use fam_rules::Report;
use uuid::Uuid;

/// Whether a content has no bytes of a source.
fn is_told_content(content: &Content) -> bool
    ensures { result ≡ is_told_content content.now }
{
    match content {
        Content::Zero => true,
        Content::Seed(_) => true,
        Content::Bytes(_) => false,
    }
}

/// Whether a command is told as a whole.
fn is_told_cmd(cmd: &Cmd) -> bool
    ensures { result ≡ is_told_cmd cmd.now }
{
    match cmd {
        Cmd::Cp { .. } => false,
        Cmd::Verify { against, .. } => is_told_content(against),
        Cmd::Check { .. } => false,
        Cmd::Logplay => true,
        Cmd::Mount => true,
        Cmd::Mkdir { .. } => true,
        Cmd::Creat { .. } => true,
        Cmd::Read { .. } => true,
        Cmd::Fsck => true,
    }
}

/// Whether some command is told so.
fn is_told(cmd: &ToldCommand) -> bool
    ensures { result ≡ is_told cmd.now }
{
    match cmd {
        ToldCommand::Plain(cmd) => is_told_cmd(cmd),
        ToldCommand::Cp { .. } => true,
        ToldCommand::VerifySource { .. } => true,
        ToldCommand::Check { .. } => true,
    }
}

/// The parameters of a file system that the host of this UUID made.
fn whole_params(me: Uuid, p: &ToldParams) -> Params
    ensures { result ≡ whole_params me p.now }
{
    Params {
        format: p.format,
        log_length: p.log_length,
        slots: (p.log_length / shape_of(p.format).bytes).saturating_sub(1),
        unit: p.unit,
        device: p.device,
        fs: p.fs,
        master: me,
    }
}

/// The number of the host of a name, which is small.
fn number_of(hosts: &[SeenHost], name: &HostName) -> Option<HostId>
    requires few { length hosts.now ≤ host_limit }
    ensures { result ≡ option_map (λ h. record { 0 = h }) (seen_number hosts.now name.now) }
{
    match number_in(name, hosts) {
        Some(at) => Some(HostId(at as u32)),
        None => None,
    }
}

/// A refusal.
fn cause_of(hosts: &[SeenHost], why: ToldRefusal) -> Option<Refusal>
    requires few { length hosts.now ≤ host_limit }
    ensures { result ≡ resolved_refusal hosts.now why }
{
    match why {
        ToldRefusal::NoHost => Some(Refusal::NoHost),
        ToldRefusal::SameHost(name) => Some(Refusal::SameHost(number_of(hosts, &name)?)),
        ToldRefusal::TooManyHosts => Some(Refusal::TooManyHosts),
        ToldRefusal::BadGeometry { unit, log } => Some(Refusal::BadGeometry { unit, log }),
        ToldRefusal::TooSmall { need, have } => Some(Refusal::TooSmall { need, have }),
        ToldRefusal::ImageSmall(lines) => Some(Refusal::ImageSmall(lines)),
        ToldRefusal::Busy(name) => Some(Refusal::Busy(number_of(hosts, &name)?)),
        ToldRefusal::Dirty(name) => Some(Refusal::Dirty(number_of(hosts, &name)?)),
        ToldRefusal::HasSuper(uuid) => Some(Refusal::HasSuper(uuid)),
        ToldRefusal::Idle => Some(Refusal::Idle),
        ToldRefusal::Mounted => Some(Refusal::Mounted),
        ToldRefusal::NotMounted => Some(Refusal::NotMounted),
        ToldRefusal::NoLine { line, lines } => Some(Refusal::NoLine { line, lines }),
        ToldRefusal::NoFile(name) => Some(Refusal::NoFile(name)),
        ToldRefusal::CopyLimit(sum) => Some(Refusal::CopyLimit(sum)),
        ToldRefusal::BadListing(at) => Some(Refusal::BadListing(at)),
        ToldRefusal::MediaFault(at) => Some(Refusal::MediaFault(LineNo(at))),
    }
}

/// A host made a file system.
fn made(hosts: &[SeenHost], at: usize, p: &ToldParams) -> Option<Line>
    ensures { result ≡ line_of_made hosts.now (Some at) p.now }
{
    match hosts.get(at) {
        Some(host) => Some(Line::Made(at, whole_params(host.uuid, p))),
        None => None,
    }
}

/// It begins a command.
fn start(at: usize, cmd: ToldCommand) -> Option<Line>
    ensures { result ≡ start_line (Some at) cmd }
{
    if is_told(&cmd) {
        Some(Line::Start(at, cmd))
    } else {
        None
    }
}

/// It was answered.
fn answered(at: usize, answer: Option<HostAnswer>) -> Option<Line>
    ensures { result ≡ answered_line (Some at) answer }
{
    match answer {
        Some(answer) => Some(Line::Answered(at, answer)),
        None => None,
    }
}

/// A call was refused.
fn refused(name: HostName, cause: Option<Refusal>) -> Option<Line>
    ensures { result ≡ option_map (line.Refused name) cause }
{
    match cause {
        Some(cause) => Some(Line::Refused(name, cause)),
        None => None,
    }
}

/// A line of a declared host.
fn declared_line(
    hosts: &[SeenHost],
    at: usize,
    name: HostName,
    note: LineNote,
    entries: Vec<Entry>,
    report: Option<Report>,
) -> Option<Line>
    requires few { length hosts.now ≤ host_limit }
    ensures { result ≡ row_line hosts.now (Some at) name note entries report }
{
    match note {
        LineNote::Host(uuid) => Some(Line::Host(name, uuid)),
        LineNote::Made(p) => made(hosts, at, &p),
        LineNote::Cut(k) => Some(Line::Cut(at, k)),
        LineNote::Start(cmd) => start(at, cmd),
        LineNote::Mark => Some(Line::Mark(at)),
        LineNote::Found(n) => Some(Line::Found(at, n)),
        LineNote::Writes { seq, entry } => Some(Line::Writes {
            host: at,
            seq,
            entry,
        }),
        LineNote::Answered(told) => answered(at, answer_with(told, entries, report)),
        LineNote::Stop => Some(Line::Stop(at)),
        LineNote::Halt => Some(Line::Halt(at)),
        LineNote::Umount => Some(Line::Umount(at)),
        LineNote::Refused(why) => refused(name, cause_of(hosts, why)),
    }
}

/// A line of a host that isn't declared.
fn undeclared_line(hosts: &[SeenHost], name: HostName, note: LineNote) -> Option<Line>
    requires few { length hosts.now ≤ host_limit }
    ensures { (entries : Vec Entry Global) (report : Option Report) → result ≡ row_line hosts.now None name note entries report }
{
    match note {
        LineNote::Host(uuid) => Some(Line::Host(name, uuid)),
        LineNote::Refused(why) => refused(name, cause_of(hosts, why)),
        _ => None,
    }
}

/// Whether it is an answer.
fn is_answer(note: &LineNote) -> bool
    ensures { result ≡ is_answer note.now }
{
    match note {
        LineNote::Answered(_) => true,
        _ => false,
    }
}

/// A line of the host of a name and number, by what is told and what follows.
pub(crate) fn line_with(
    hosts: &[SeenHost],
    at: Option<usize>,
    name: HostName,
    note: LineNote,
    entries: Vec<Entry>,
    report: Option<Report>,
) -> Option<Line>
    requires few { length hosts.now ≤ host_limit }
    ensures { result ≡ line_with hosts.now at name note entries report }
{
    if !is_answer(&note) && !is_bare(&entries, &report) {
        return None;
    }
    match at {
        Some(at) => declared_line(hosts, at, name, note, entries, report),
        None => undeclared_line(hosts, name, note),
    }
}
