//! Statements, run one by one. docs/CASES.md says what each does.

ghost use Rattle.std.specs.Prelude.{◌≤◌, ◌<◌, IfOk, length, vec_len};

use crate::bytes::{copied, place_of, put, put_number};
use crate::calls::{Outcome, call};
use crate::folder::File;
use crate::images::change_image;
use crate::leaves::{crc_of, leaf};
use crate::lines::{SourceLine, end_of_loop};
use crate::plans::plan;
use crate::rows::{Rows, rows_of};
use crate::show::{all_lines, put_changes, put_lines};
use crate::state::State;
use crate::stop::Stop;
use crate::texts::text_in_front;
use crate::values::Values;
use crate::words::{Word, Words};
use fam_base::Line;
use std::alloc::Global;

/// Runs cases, and keeps what is to be printed.
#[derive(Drop)]
pub struct Runner {
    alloc: Global,
    state: State,
    marked: Vec<Line>,
    last: Outcome,
    values: Values,
    /// Inside a loop nothing is printed.
    looping: bool,
    /// How many expectations of the outermost loop were met.
    met: u64,
    transcript: Vec<u8>,
}

/// Whether a text has one line feed.
fn is_line(text: &[u8]) -> bool {
    match place_of(text, b'\n') {
        Some(at) => place_of(&text[at + 1..], b'\n').is_none(),
        None => false,
    }
}

/// Nothing was put, and nothing refused.
fn nothing(alloc: Global) -> Outcome {
    Outcome {
        text: Vec::new(alloc),
        status: 0,
    }
}

impl Runner {
    /// A runner in front of the first case.
    pub fn new(alloc: Global) -> Result<Runner, Stop> {
        Ok(Runner {
            alloc,
            state: State::new(alloc)?,
            marked: Vec::new(alloc),
            last: nothing(alloc),
            values: Values::new(alloc),
            looping: false,
            met: 0,
            transcript: Vec::new(alloc),
        })
    }

    /// What is to be printed.
    pub fn transcript(&self) -> &[u8] {
        self.transcript.as_slice()
    }

    /// Begins a case of this name, with nothing left of the one before.
    fn begin_case(&mut self, words: &mut Words<'_>) -> Result<(), Stop> {
        if self.looping {
            return Err(words.refused());
        }
        self.state = State::new(self.alloc)?;
        self.marked = Vec::new(self.alloc);
        self.last = nothing(self.alloc);
        put(&mut self.transcript, b"== ")?;
        put(&mut self.transcript, words.rest().text)?;
        put(&mut self.transcript, b"\n")
    }

    /// Puts a text, with a sign behind it where it doesn't end its line.
    fn put_text(&mut self) -> Result<(), Stop> {
        put(&mut self.transcript, self.last.text.as_slice())?;
        match self.last.text.last() {
            Some(b'\n') | None => Ok(()),
            Some(_) => put(&mut self.transcript, b" \\\n"),
        }
    }

    /// Puts the count of a text's bytes and their CRC-32.
    fn put_digest(&mut self) -> Result<(), Stop> {
        put_number(
            self.alloc,
            &mut self.transcript,
            self.last.text.len() as u64,
        )?;
        put(&mut self.transcript, b" bytes crc ")?;
        let crc = crc_of(self.last.text.as_slice());
        put_number(self.alloc, &mut self.transcript, crc as u64)?;
        put(&mut self.transcript, b"\n")
    }

    /// Calls the program, and prints what came of it, or its digest.
    fn run(&mut self, words: &mut Words<'_>, whole: bool) -> Result<(), Stop> {
        let mut ahead = *words;
        let written = ahead.rest();
        self.last = call(self.alloc, &mut self.state, words)?;
        if self.looping {
            return Ok(());
        }
        put(&mut self.transcript, b"$ ")?;
        put(&mut self.transcript, written.text)?;
        put(&mut self.transcript, b"\n")?;
        if whole {
            self.put_text()?;
        } else {
            self.put_digest()?;
        }
        put(&mut self.transcript, b"status ")?;
        put_number(self.alloc, &mut self.transcript, self.last.status as u64)?;
        put(&mut self.transcript, b"\n")
    }

    /// Prints what a statement without a status gives.
    fn answer(&mut self, statement: &[u8], text: Vec<u8>) -> Result<(), Stop> {
        self.last = Outcome { text, status: 0 };
        if self.looping {
            return Ok(());
        }
        put(&mut self.transcript, statement)?;
        let sign = if is_line(self.last.text.as_slice()) {
            b" = ".as_slice()
        } else {
            b" =\n".as_slice()
        };
        put(&mut self.transcript, sign)?;
        self.put_text()
    }

    /// The last text becomes a file of the shelf.
    fn keep(&mut self, words: &mut Words<'_>) -> Result<(), Stop> {
        let name = words.last_text(self.alloc)?;
        let bytes = copied(self.alloc, self.last.text.as_slice())?;
        self.state.add_file(File { name, bytes })
    }

    /// Remembers the image.
    fn mark(&mut self, words: &mut Words<'_>) -> Result<(), Stop> {
        words.ended()?;
        self.marked = all_lines(self.alloc, &self.state.media)?;
        Ok(())
    }

    /// The lines that changed since the mark.
    fn changes(&mut self, words: &mut Words<'_>) -> Result<(), Stop> {
        words.ended()?;
        let mut text = Vec::new(self.alloc);
        let marked = self.marked.as_slice();
        put_changes(self.alloc, &mut text, marked, &self.state.media)?;
        self.last = Outcome { text, status: 0 };
        if self.looping {
            return Ok(());
        }
        self.put_text()
    }

    /// Some lines of the image.
    fn show(&mut self, words: &mut Words<'_>, statement: &[u8]) -> Result<(), Stop> {
        let first = words.number()?;
        let count = words.number()?;
        words.ended()?;
        let mut text = Vec::new(self.alloc);
        put_lines(self.alloc, &mut text, &self.state.media, first, count)?;
        self.answer(statement, text)
    }

    /// Calls a library, where the name is one of those that are called so.
    fn call_leaf(
        &mut self,
        name: Word<'_>,
        words: &mut Words<'_>,
        statement: &[u8],
    ) -> Result<(), Stop> {
        let mut text = Vec::new(self.alloc);
        if !leaf(self.alloc, &self.state, name.text, words, &mut text)? {
            return Err(words.refused());
        }
        self.answer(statement, text)
    }

    /// Does a statement that is one line.
    fn run_line(
        &mut self,
        name: Word<'_>,
        words: &mut Words<'_>,
        statement: &[u8],
    ) -> Result<(), Stop> {
        match name.text {
            b"case" => self.begin_case(words),
            b"run" => self.run(words, true),
            b"digest" => self.run(words, false),
            b"keep" => self.keep(words),
            b"mark" => self.mark(words),
            b"changes" => self.changes(words),
            b"show" => self.show(words, statement),
            b"at" => self.at(words, statement),
            _ => {
                if change_image(self.alloc, &mut self.state, name.text, words)?
                    || plan(self.alloc, &mut self.state, name.text, words)?
                {
                    return Ok(());
                }
                self.call_leaf(name, words, statement)
            }
        }
    }

    /// The file whose text lines are in front, and how many they are.
    fn file_in_front(
        &mut self,
        words: &mut Words<'_>,
        behind: &[SourceLine<'_>],
    ) -> Result<(File, usize), Stop>
        ensures { IfOk result (λ file. file.1 ≤ length behind.now) }
    {
        let name = words.last_text(self.alloc)?;
        let (bytes, count) = text_in_front(self.alloc, &self.values, behind)?;
        Ok((File { name, bytes }, count))
    }

    /// A file of the shelf, and how many lines it has.
    fn add_file(&mut self, words: &mut Words<'_>, behind: &[SourceLine<'_>]) -> Result<usize, Stop>
        ensures { IfOk result (λ count. count ≤ length behind.now) }
    {
        let (file, count) = self.file_in_front(words, behind)?;
        self.state.add_file(file)?;
        Ok(count)
    }

    /// A file of the folder, and how many lines it has.
    fn add_held(&mut self, words: &mut Words<'_>, behind: &[SourceLine<'_>]) -> Result<usize, Stop>
        ensures { IfOk result (λ count. count ≤ length behind.now) }
    {
        let (file, count) = self.file_in_front(words, behind)?;
        self.state.folder.hold(file)?;
        Ok(count)
    }

    /// The bytes of a file of the folder.
    fn at(&mut self, words: &mut Words<'_>, statement: &[u8]) -> Result<(), Stop> {
        let name = words.last_text(self.alloc)?;
        let text = match self.state.folder.shade.at(name.as_str()) {
            Some(bytes) => copied(self.alloc, bytes)?,
            None => copied(self.alloc, b"none\n")?,
        };
        self.answer(statement, text)
    }

    /// Whether a line says `any` behind the status.
    fn takes_any(words: &mut Words<'_>) -> Result<bool, Stop> {
        match words.next() {
            None => Ok(false),
            Some(word) if word.text == b"any".as_slice() => Ok(true),
            Some(word) => Err(words.bad(word.column)),
        }
    }

    /// Puts what came in place of what was expected.
    fn put_unexpected(&mut self, line: u64) -> Result<(), Stop> {
        put(&mut self.transcript, b"unexpected in line ")?;
        put_number(self.alloc, &mut self.transcript, line)?;
        self.values.print(&mut self.transcript)?;
        put(&mut self.transcript, b"\n")?;
        self.put_text()?;
        put(&mut self.transcript, b"status ")?;
        put_number(self.alloc, &mut self.transcript, self.last.status as u64)?;
        put(&mut self.transcript, b"\n")
    }

    /// Compares the last run with a status and the text lines in front, and answers how many these are.
    fn expect(
        &mut self,
        line: u64,
        words: &mut Words<'_>,
        behind: &[SourceLine<'_>],
    ) -> Result<usize, Stop>
        ensures { IfOk result (λ count. count ≤ length behind.now) }
    {
        let status = words.byte()?;
        let any = Runner::takes_any(words)?;
        let (text, count) = text_in_front(self.alloc, &self.values, behind)?;
        if self.last.status == status && (any || self.last.text.as_slice() == text.as_slice()) {
            self.met = self.met.saturating_add(1);
            return Ok(count);
        }
        self.put_unexpected(line)?;
        if self.looping {
            return Err(Stop::Unexpected);
        }
        Ok(count)
    }

    /// Does a statement, and answers how many of the lines behind it belong to it.
    #[cycle(block)]
    fn run_statement(
        &mut self,
        line: SourceLine<'_>,
        behind: &[SourceLine<'_>],
    ) -> Result<usize, Stop>
        ensures { IfOk result (λ count. count ≤ length behind.now) }
    {
        let text = self.values.put_into(self.alloc, line.text)?;
        let mut words = Words::new(line.number, line.column, text.as_slice());
        let name = words.expected()?;
        match name.text {
            b"each" => self.run_loop(&mut words, behind),
            b"file" => self.add_file(&mut words, behind),
            b"held" => self.add_held(&mut words, behind),
            b"expect" => self.expect(line.number, &mut words, behind),
            _ => {
                self.run_line(name, &mut words, text.as_slice())?;
                Ok(0)
            }
        }
    }

    /// Does the statements of these lines.
    #[cycle(block)]
    pub fn run_block(&mut self, lines: &[SourceLine<'_>]) -> Result<(), Stop> {
        let mut rest = lines;
        while let [line, behind @ ..] = rest {
            let count = self.run_statement(*line, behind)?;
            rest = &behind[count..];
        }
        Ok(())
    }

    /// Runs the loop whose body and `end` are in front, and answers how many lines these are.
    #[cycle(block)]
    fn run_loop(&mut self, words: &mut Words<'_>, behind: &[SourceLine<'_>]) -> Result<usize, Stop>
        ensures { IfOk result (λ count. count ≤ length behind.now) }
    {
        let Some(end) = end_of_loop(behind) else {
            return Err(words.refused());
        };
        let inside = &behind[..end];
        let rows = rows_of(self.alloc, &self.values, words, inside)?;
        let body = &inside[rows.lines..];
        if self.looping {
            self.run_rows(&rows, body)?;
        } else {
            self.run_outermost(&rows, body)?;
        }
        Ok(end + 1)
    }

    /// Runs a loop that stands in no other one, and prints how many expectations were met, or the first that wasn't.
    #[cycle(block)]
    fn run_outermost(&mut self, rows: &Rows, body: &[SourceLine<'_>]) -> Result<(), Stop>
        requires { 0 < vec_len rows.now.names }
    {
        self.looping = true;
        self.met = 0;
        let done = self.run_rows(rows, body);
        self.looping = false;
        self.values.truncate(0);
        match done {
            Ok(()) => {
                put_number(self.alloc, &mut self.transcript, self.met)?;
                put(&mut self.transcript, b" as expected\n")
            }
            Err(Stop::Unexpected) => Ok(()),
            Err(stop) => Err(stop),
        }
    }

    /// Runs a body once for each row, each time with what is at hand now.
    #[cycle(block)]
    fn run_rows(&mut self, rows: &Rows, body: &[SourceLine<'_>]) -> Result<(), Stop>
        requires { 0 < vec_len rows.now.names }
    {
        let kept = self.state.copy(self.alloc)?;
        let outer = self.values.len();
        for row in rows.values.chunks_exact(rows.names.len()) {
            self.values.truncate(outer);
            for (name, value) in rows.names.iter().zip(row) {
                self.values
                    .push(self.alloc, name.as_slice(), value.as_slice())?;
            }
            self.run_block(body)?;
            self.state = kept.copy(self.alloc)?;
        }
        self.values.truncate(outer);
        Ok(())
    }
}
