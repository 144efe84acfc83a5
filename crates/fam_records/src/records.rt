//! The notes of a text, one behind another.

ghost use Rattle.std.specs.Prelude.{◌≡◌, ◌<◌, IfOk, IfSome, length};
ghost use Rattle.fam_tree.specs.Cuts.{back, front};
ghost use Rattle.fam_tree.specs.Lines.{line_feed};
ghost use Rattle.fam_grammar.specs.Cursor.{words_left, IsShort};
ghost use Rattle.fam_history.specs.ListedEntries.{listed_entry};
ghost use Rattle.fam_history.specs.ReportLines.{bad_entry_line, files_line, log_state_line, overlap_line, past_line, superblock_line, units_line};
ghost use Rattle.fam_records.specs.Histories.{BeginsHistory, HasLineNumbers, history_left, history_in, lines_left, seen_if};
ghost use Rattle.fam_records.specs.Read.{IsExpectedLine, IsNextLine};
ghost use Rattle.fam_records.specs.Records.{counts_of, told_damage, listed_entries, told_further, further_of, further_of_answer, next_record, record_of, told_report, states_of};
ghost use Rattle.fam_records.specs.Taken.{Gives, line_taken};

use crate::record::{Further, Record};
use fam_base::Entry;
use fam_format::Reason;
use fam_grammar::{Line, LineFault, Words, words_of};
use fam_history::{
    LineNote, ToldAnswer, ToldLine, told_bad_entry, told_entry, told_files, told_history_line,
    told_log, told_overlap, told_past, told_superblock, told_units,
};
use fam_rules::{LogState, Report, SuperState};
use std::alloc::Global;

/// What is left of a history.
#[derive(Clone, Copy)]
pub struct Records<'a> {
    /// The number of the first line that is left.
    number: u64,
    rest: &'a [u8],
}

/// The first line of a text, and what stands behind its line feed.
fn cut(bytes: &[u8]) -> (&[u8], &[u8])
    ensures front { result.0.now ≡ front line_feed bytes.now }
    ensures back { result.1.now ≡ back line_feed bytes.now }
{
    for (i, byte) in bytes.iter().enumerate() {
        if *byte == b'\n' {
            return (&bytes[..i], &bytes[i + 1..]);
        }
    }
    (bytes, &[])
}

impl<'a> Records<'a> {
    /// All notes of a text.
    #[tactic(auto, unfolding(crate::specs::Histories::history_in))]
    pub fn new(bytes: &'a [u8]) -> Records<'a>
        ensures left { history_left (lines_left result) ≡ history_in bytes.now }
        ensures room { HasLineNumbers result }
    {
        Records {
            number: 1,
            rest: bytes,
        }
    }

    /// The next line that is neither blank nor a comment.
    fn next_line(&mut self) -> Option<(Words<'a>, Line)>
        requires room { HasLineNumbers self.old }
        ensures value { IsNextLine (lines_left self.old) (lines_left self.new) result }
        ensures short { IfSome result (λ found. IsShort found.0) }
        ensures room { HasLineNumbers self.new }
    {
        while !self.rest.is_empty() {
            let number = self.number;
            let (line, behind) = cut(self.rest);
            *self = Records {
                number: number + 1,
                rest: behind,
            };
            if let Some(found) = words_of(line, number) {
                return Some(found);
            }
        }
        None
    }

    /// The next line, which has to be there.
    fn expected(&mut self) -> Result<(Words<'a>, Line), LineFault>
        requires room { HasLineNumbers self.old }
        ensures value { IsExpectedLine (lines_left self.old) (lines_left self.new) result }
        ensures short { IfOk result (λ found. IsShort found.0) }
        ensures room { HasLineNumbers self.new }
    {
        match self.next_line() {
            Some(found) => Ok(found),
            None => Err(LineFault::BadLine {
                line: self.number,
                column: 1,
            }),
        }
    }

    /// An entry.
    fn entry(&mut self) -> Result<Entry, LineFault>
        requires room { HasLineNumbers self.old }
        ensures value { Gives (λ x. x) (lines_left self.new) result (line_taken listed_entry (lines_left self.old)) }
        ensures room { HasLineNumbers self.new }
    {
        match self.expected() {
            Ok((mut words, line)) => told_entry(&mut words, line),
            Err(fault) => Err(fault),
        }
    }

    /// What a report says of the superblock.
    fn superblock(&mut self) -> Result<SuperState, LineFault>
        requires room { HasLineNumbers self.old }
        ensures value { Gives (λ x. x) (lines_left self.new) result (line_taken superblock_line (lines_left self.old)) }
        ensures room { HasLineNumbers self.new }
    {
        match self.expected() {
            Ok((mut words, line)) => told_superblock(&mut words, line),
            Err(fault) => Err(fault),
        }
    }

    /// What it says of the log.
    fn log(&mut self) -> Result<LogState, LineFault>
        requires room { HasLineNumbers self.old }
        ensures value { Gives (λ x. x) (lines_left self.new) result (line_taken log_state_line (lines_left self.old)) }
        ensures room { HasLineNumbers self.new }
    {
        match self.expected() {
            Ok((mut words, line)) => told_log(&mut words, line),
            Err(fault) => Err(fault),
        }
    }

    /// How many files and directories it has.
    fn files(&mut self) -> Result<(u64, u64), LineFault>
        requires room { HasLineNumbers self.old }
        ensures value { Gives (λ x. x) (lines_left self.new) result (line_taken files_line (lines_left self.old)) }
        ensures room { HasLineNumbers self.new }
    {
        match self.expected() {
            Ok((mut words, line)) => told_files(&mut words, line),
            Err(fault) => Err(fault),
        }
    }

    /// How many units it has that are used, and that are free.
    fn units(&mut self) -> Result<(u64, u64), LineFault>
        requires room { HasLineNumbers self.old }
        ensures value { Gives (λ x. x) (lines_left self.new) result (line_taken units_line (lines_left self.old)) }
        ensures room { HasLineNumbers self.new }
    {
        match self.expected() {
            Ok((mut words, line)) => told_units(&mut words, line),
            Err(fault) => Err(fault),
        }
    }

    /// The numbers of two entries that overlap, if any do.
    fn overlap(&mut self) -> Result<Option<(u64, u64)>, LineFault>
        requires room { HasLineNumbers self.old }
        ensures value { Gives (λ x. x) (lines_left self.new) result (line_taken overlap_line (lines_left self.old)) }
        ensures room { HasLineNumbers self.new }
    {
        match self.expected() {
            Ok((mut words, line)) => told_overlap(&mut words, line),
            Err(fault) => Err(fault),
        }
    }

    /// The number of the first bad entry, and why it is bad, if one is.
    fn bad_entry(&mut self) -> Result<Option<(u64, Reason)>, LineFault>
        requires room { HasLineNumbers self.old }
        ensures value { Gives (λ x. x) (lines_left self.new) result (line_taken bad_entry_line (lines_left self.old)) }
        ensures room { HasLineNumbers self.new }
    {
        match self.expected() {
            Ok((mut words, line)) => told_bad_entry(&mut words, line),
            Err(fault) => Err(fault),
        }
    }

    /// How many slots past the gate hold entries.
    fn past(&mut self) -> Result<u64, LineFault>
        requires room { HasLineNumbers self.old }
        ensures value { Gives (λ x. x) (lines_left self.new) result (line_taken past_line (lines_left self.old)) }
        ensures room { HasLineNumbers self.new }
    {
        match self.expected() {
            Ok((mut words, line)) => told_past(&mut words, line),
            Err(fault) => Err(fault),
        }
    }

    /// What a report says of the superblock and of the log.
    fn states(&mut self) -> Result<(SuperState, LogState), LineFault>
        requires room { HasLineNumbers self.old }
        ensures value { Gives (λ x. x) (lines_left self.new) result (states_of (lines_left self.old)) }
        ensures room { HasLineNumbers self.new }
    {
        let superblock = self.superblock()?;
        let log = self.log()?;
        Ok((superblock, log))
    }

    /// Its files and directories, and its units that are used and that are free.
    fn counts(&mut self) -> Result<((u64, u64), (u64, u64)), LineFault>
        requires room { HasLineNumbers self.old }
        ensures value { Gives (λ x. x) (lines_left self.new) result (counts_of (lines_left self.old)) }
        ensures room { HasLineNumbers self.new }
    {
        let files = self.files()?;
        let units = self.units()?;
        Ok((files, units))
    }

    /// Two entries that overlap, and the first bad one.
    fn damage(&mut self) -> Result<(Option<(u64, u64)>, Option<(u64, Reason)>), LineFault>
        requires room { HasLineNumbers self.old }
        ensures value { Gives (λ x. x) (lines_left self.new) result (told_damage (lines_left self.old)) }
        ensures room { HasLineNumbers self.new }
    {
        let overlap = self.overlap()?;
        let bad = self.bad_entry()?;
        Ok((overlap, bad))
    }

    /// The seven other lines of a report.
    #[tactic(auto, unfolding(crate::specs::Records::told_report))]
    fn report(&mut self) -> Result<Report, LineFault>
        requires room { HasLineNumbers self.old }
        ensures value { Gives (λ x. x) (lines_left self.new) result (told_report (lines_left self.old)) }
        ensures room { HasLineNumbers self.new }
    {
        let (superblock, log) = self.states()?;
        let ((files, directories), (used, free)) = self.counts()?;
        let (overlap, bad) = self.damage()?;
        let past = self.past()?;
        Ok(Report {
            superblock,
            log,
            files,
            directories,
            used,
            free,
            overlap,
            bad,
            past,
        })
    }

    /// So many entries, one a line. None is taken ahead: a count may be larger than the text.
    fn entries(&mut self, alloc: Global, count: u64) -> Result<Vec<Entry>, LineFault>
        requires room { HasLineNumbers self.old }
        ensures value { Gives (λ entries. entries.items) (lines_left self.new) result (listed_entries count (lines_left self.old)) }
        ensures room { HasLineNumbers self.new }
    {
        let mut entries = Vec::new(alloc);
        let mut left = count;
        while left > 0 {
            let entry = self.entry()?;
            if entries.push(entry).is_err() {
                return Err(LineFault::OutOfMemory);
            }
            left -= 1;
        }
        Ok(entries)
    }

    /// The lines that follow a note's first one.
    fn further(
        &mut self,
        alloc: Global,
        further: Further,
    ) -> Result<(Vec<Entry>, Option<Report>), LineFault>
        requires room { HasLineNumbers self.old }
        ensures value { Gives (λ p. (p.0.items, p.1)) (lines_left self.new) result (told_further further (lines_left self.old)) }
        ensures room { HasLineNumbers self.new }
    {
        match further {
            Further::Nothing => Ok((Vec::new(alloc), None)),
            Further::Entries(count) => match self.entries(alloc, count) {
                Ok(entries) => Ok((entries, None)),
                Err(fault) => Err(fault),
            },
            Further::Report => match self.report() {
                Ok(report) => Ok((Vec::new(alloc), Some(report))),
                Err(fault) => Err(fault),
            },
        }
    }

    /// The note of whose first line this is told.
    fn record(
        &mut self,
        alloc: Global,
        number: u64,
        told: ToldLine,
    ) -> Result<Option<Record>, LineFault>
        requires room { HasLineNumbers self.old }
        ensures value { Gives seen_if (lines_left self.new) result (record_of number told (lines_left self.old)) }
        ensures room { HasLineNumbers self.new }
    {
        match self.further(alloc, further_of(&told.note)) {
            Ok((entries, report)) => Ok(Some(Record {
                line: number,
                told,
                entries,
                report,
            })),
            Err(fault) => Err(fault),
        }
    }

    /// The next note, from its lines.
    #[tactic(auto, unfolding(crate::specs::Records::next_record))]
    fn read(&mut self, alloc: Global) -> Result<Option<Record>, LineFault>
        requires room { HasLineNumbers self.old }
        ensures value { Gives seen_if (lines_left self.new) result (next_record (lines_left self.old)) }
        ensures room { HasLineNumbers self.new }
    {
        let Some((mut words, line)) = self.next_line() else {
            return Ok(None);
        };
        match told_history_line(alloc, &mut words, line) {
            Ok(told) => self.record(alloc, line.number, told),
            Err(fault) => Err(fault),
        }
    }

    /// The next note: of a listing with its entries, and of a report with all of it; `None` where no note is left. `BadLine` names the
    /// first bad line, counted from 1, and its column; where the text ends in a listing or a report, the line behind its last one.
    pub fn next_record(&mut self, alloc: Global) -> Result<Option<Record>, LineFault>
        requires room { HasLineNumbers self.old }
        ensures value { BeginsHistory (history_left (lines_left self.old)) (history_left (lines_left self.new)) result }
        ensures room { HasLineNumbers self.new }
    {
        self.read(alloc)
    }
}

/// The lines that follow an answer's first one.
fn further_of_answer(answer: &ToldAnswer) -> Further
    ensures { result ≡ further_of_answer answer.now }
{
    match answer {
        ToldAnswer::Played(entries) => Further::Entries(*entries),
        ToldAnswer::Report(_) => Further::Report,
        _ => Further::Nothing,
    }
}

/// The lines that follow a note's first one.
fn further_of(note: &LineNote) -> Further
    ensures { result ≡ further_of note.now }
{
    match note {
        LineNote::Answered(answer) => further_of_answer(answer),
        _ => Further::Nothing,
    }
}
