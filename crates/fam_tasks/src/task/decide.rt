//! Turns of a task that decides, with all slots read.

ghost use Rattle.std.specs.Prelude.{◌≡◌, ◌≤◌, ◌<◌, None, Ok, Some, IfErr, IfOk, IfSome, IsSome, OnErr, OnOk, length, true};
ghost use Rattle.fam_base.specs.Commands.{IsListing};
ghost use Rattle.fam_base.specs.declared.cmd.Cmd.TheVariants as cmd;
ghost use Rattle.fam_base.specs.declared.entry.Entry.{Entry};
ghost use Rattle.fam_format.specs.Slot.{Proper};
ghost use Rattle.fam_format.specs.Tree.{replay};
ghost use Rattle.fam_rules.specs.Checks.{checked};
ghost use Rattle.fam_rules.specs.Content.{content_line};
ghost use Rattle.fam_rules.specs.Decide.{wish_of};
ghost use Rattle.fam_rules.specs.Reply.{Length};
ghost use Rattle.fam_commands.specs.declared.phase.Phase.TheVariants as at;
ghost use Rattle.fam_commands.specs.Task as spec;
ghost use Rattle.fam_commands.specs.Keeping.{read_by};
ghost use Rattle.fam_commands.specs.Turns as turns;
ghost use Rattle.fam_commands.specs.Turns.{turn_of};
ghost use Rattle.fam_commands.specs.Classes.{IsCheck, IsRead, IsVerify, is_fsck};
ghost use Rattle.fam_replay.specs.Replay.{entries_in, HasFoundAll};
ghost use Rattle.fam_tasks.specs.declared.answer.Turn.TheVariants.{Done};
ghost use Rattle.fam_tasks.specs.Commands.{content_used};
ghost use Rattle.fam_tasks.specs.Tells.{Keeps, Leaves, Tells, WantsMemory};

use super::{Task, done, let_go};
use crate::answer::{Answer, TaskNote, Turn};
use crate::boxed_report::BoxedReport;
use crate::commands::content_used;
use crate::contents::Contents;
use crate::history::History;
use crate::kept::Kept;
use crate::replies::refusal_answer;
use crate::survey::report_of;
use crate::wanted::{wanted_end, wanted_start};
use fam_base::{Boxed, ByteText, Cmd, Content, Entry, Kind, OutOfMemory};
use fam_commands::{Part, Phase};
use fam_entry::spell;
use fam_fsck::check;
use fam_rules::Checked;
use fam_tree::Tree;
use std::alloc::Global;
use std::mem::replace;

/// The content of a new file of `size` bytes, with its first line taken where there is one.
fn new_contents(cmd: &Cmd, size: u64) -> Result<Contents, OutOfMemory>
    ensures content { IfOk result (λ c. c.content ≡ content_used cmd.now) }
    ensures taken { IfOk result (λ c. 0 < size → c.taken ≡ 1) }
    ensures line { IfOk result (λ c. 0 < size → c.line ≡ content_line (content_used cmd.now) size 0) }
{
    let mut contents = Contents::new(content_used(cmd)?);
    if size > 0 {
        contents.take(size);
    }
    Ok(contents)
}

/// The first store of an append: of the first line of a file of `size` bytes, or of the slot's.
fn first_store(size: u64) -> Phase
    ensures { result ≡ turns.first_store size }
{
    if size == 0 {
        Phase::StoreSlot { line: 0, word: 0 }
    } else {
        Phase::StoreData { line: 0, word: 0 }
    }
}

/// The file that stands at a path, or the answer where none stands there. `m` entries were read.
fn file_found(found: Option<Entry>, m: u64) -> Result<Entry, Answer>
    ensures is { IfOk result (λ e. found ≡ Some e) }
    ensures file { IfOk result (λ e. (t : spec.Task) (turn : Entry → turns.Turn)
        → turns.found_turn t found turn ≡ turn e) }
    ensures none { IfErr result (λ answer. (t new : spec.Task) (turn : Entry → turns.Turn)
        → length t.entries ≡ m → Tells (turns.found_turn t found turn) (Done answer) new) }
{
    match found {
        None => Err(Answer::NotFound { m }),
        Some(entry) => match entry.kind {
            Kind::Directory => Err(Answer::IsDirectory { m }),
            Kind::File => Ok(entry),
        },
    }
}

/// The count of given bytes, where a file of `size` bytes has another. Other contents have any size.
fn other_length(against: &Content, size: u64) -> Option<u64>
    ensures some { IfSome result (λ wanted. (t : spec.Task) (e : Entry) → e.size ≡ size
        → turns.verify_turn t e against.now ≡ turns.Ends (Length (length t.entries) size wanted)) }
    ensures none { result ≡ None → (t : spec.Task) (e : Entry) → e.size ≡ size
        → turns.verify_turn t e against.now ≡ turns.verify_lines t e }
{
    match against {
        Content::Bytes(given) => {
            let count = given.as_slice().len() as u64;
            if count == size { None } else { Some(count) }
        }
        Content::Seed(_) => None,
        Content::Zero => None,
    }
}

/// How the tree of the entries that were found differs from a listing.
fn checked(alloc: Global, found: &History, listing: &[Entry]) -> Checked
    requires all { HasFoundAll found.now.replay }
    requires listing { IsListing listing.now }
    ensures { result ≡ checked (replay (entries_in found.now.replay)) listing.now }
{
    match found.tree() {
        Some(tree) => check(tree, listing),
        None => check(&Tree::new(alloc), listing),
    }
}

/// So many zeros.
fn zeros(alloc: Global, count: u64) -> Result<Vec<u8>, OutOfMemory>
    ensures { IfOk result (λ bytes. length bytes.items ≡ count) }
{
    match vec![in alloc; 0; count as usize] {
        Ok(bytes) => Ok(bytes),
        Err(_) => Err(OutOfMemory),
    }
}

impl Task {
    /// Decides, with all slots read.
    pub(super) fn decide(&mut self) -> Result<Turn, OutOfMemory>
        requires { self.old.phase ≡ at.Decide }
        ensures turn { IfOk result (λ turn. Tells (turn_of self.old None) turn self.new) }
        ensures kept { OnOk result (Keeps self.old (turn_of self.old None) self.new) }
        ensures left { OnOk result (Leaves self.old (turn_of self.old None) self.new) }
        ensures err { OnErr result (self.new ≡ self.old) }
        ensures want { OnErr result (WantsMemory self.old (turn_of self.old None)) }
    {
        match self.command() {
            Cmd::Logplay => self.play(),
            Cmd::Mount => Ok(self.mount()),
            Cmd::Mkdir { .. } => self.append(),
            Cmd::Creat { .. } => self.append(),
            Cmd::Cp { .. } => self.append(),
            Cmd::Verify { .. } => self.verify(),
            Cmd::Read { .. } => self.read(),
            Cmd::Check { .. } => self.check(),
            Cmd::Fsck => self.report(),
        }
    }

    /// The command. It is asked for where a call of the whole task follows, whose proof then has no part of the task in it.
    pub(super) fn command(&self) -> &Cmd
        ensures { result.now ≡ self.now.cmd }
    {
        &self.cmd
    }

    /// Answers with the tree of all entries. A host that keeps something keeps these from here on.
    fn play(&mut self) -> Result<Turn, OutOfMemory>
        requires phase { self.old.phase ≡ at.Decide }
        requires logplay { self.old.cmd ≡ cmd.Logplay }
        ensures turn { IfOk result (λ turn. Tells (turns.decide_turn cmd.Logplay self.old) turn self.new) }
        ensures kept { OnOk result (Keeps self.old (turns.decide_turn cmd.Logplay self.old) self.new) }
        ensures left { OnOk result (Leaves self.old (turns.decide_turn cmd.Logplay self.old) self.new) }
        ensures err { OnErr result (self.new ≡ self.old) }
        ensures want { OnErr result (WantsMemory self.old (turns.decide_turn cmd.Logplay self.old)) }
    {
        if self.keeps() {
            return self.play_kept();
        }
        Ok(self.play_alone())
    }

    /// Does so where the host keeps nothing. The task keeps the entries, and stands from here on as a mount that decides.
    fn play_alone(&mut self) -> Turn
        requires phase { self.old.phase ≡ at.Decide }
        requires logplay { self.old.cmd ≡ cmd.Logplay }
        requires none { self.old.kept ≡ None }
        ensures turn { Tells (turns.decide_turn cmd.Logplay self.old) result self.new }
        ensures left { self.new ≡ record self.old { cmd = cmd.Mount } }
    {
        let m = self.history.count();
        let tree = self.history.hand_out();
        let_go(replace(&mut self.cmd, Cmd::Mount));
        Turn::Done(Answer::Played { m, tree })
    }

    /// Does so where the host keeps something: it keeps these entries from here on.
    fn play_kept(&mut self) -> Result<Turn, OutOfMemory>
        requires phase { self.old.phase ≡ at.Decide }
        requires logplay { self.old.cmd ≡ cmd.Logplay }
        ensures turn { IfOk result (λ turn. Tells (turns.decide_turn cmd.Logplay self.old) turn self.new) }
        ensures kept { OnOk result (self.new.kept ≡ Some (read_by self.old)) }
        ensures err { OnErr result (self.new ≡ self.old) }
    {
        let m = self.history.count();
        match self.history.play(&self.params) {
            Ok(tree) => {
                self.history.kept_joins();
                Ok(done(&mut self.phase, Answer::Played { m, tree }))
            }
            Err(full) => Err(full),
        }
    }

    /// What a logplay whose host keeps nothing has left: all that it read.
    pub(super) fn into_left(mut self) -> Option<Kept>
        requires phase { self.phase ≡ at.Decide }
        requires mount { self.cmd ≡ cmd.Mount }
        ensures { result ≡ Some (read_by self) }
    {
        let_go(self.mount());
        self.into_host_kept()
    }

    /// Answers how many entries were read. The host keeps these from here on.
    fn mount(&mut self) -> Turn
        requires phase { self.old.phase ≡ at.Decide }
        requires mount { self.old.cmd ≡ cmd.Mount }
        ensures turn { Tells (turns.decide_turn cmd.Mount self.old) result self.new }
        ensures kept { Keeps self.old (turns.decide_turn cmd.Mount self.old) self.new }
    {
        let m = self.history.count();
        self.history.keep(&self.params);
        self.history.kept_joins();
        done(&mut self.phase, Answer::Mounted { m })
    }

    /// Answers how the tree of all entries differs from the listing.
    fn check(&mut self) -> Result<Turn, OutOfMemory>
        requires phase { self.old.phase ≡ at.Decide }
        requires check { IsCheck self.old.cmd }
        ensures turn { IfOk result (λ turn. Tells (turns.decide_turn self.old.cmd self.old) turn self.new) }
        ensures kept { self.new.kept ≡ self.old.kept }
        ensures err { OnErr result (self.new ≡ self.old) }
        ensures want { OnErr result (WantsMemory self.old (turns.decide_turn self.old.cmd self.old)) }
    {
        let Cmd::Check { listing } = &self.cmd else {
            unreachable!();
        };
        let found = checked(self.alloc, &self.history, listing.as_slice());
        let answer = Answer::Checked {
            m: self.history.count(),
            checked: Boxed::new(self.alloc, found)?,
        };
        Ok(done(&mut self.phase, answer))
    }

    /// Answers with the report over all slots.
    fn report(&mut self) -> Result<Turn, OutOfMemory>
        requires phase { self.old.phase ≡ at.Decide }
        requires fsck { is_fsck self.old.cmd ≡ true }
        ensures turn { IfOk result (λ turn. Tells (turns.decide_turn cmd.Fsck self.old) turn self.new) }
        ensures kept { self.new.kept ≡ self.old.kept }
        ensures err { OnErr result (self.new ≡ self.old) }
        ensures want { OnErr result (WantsMemory self.old (turns.decide_turn cmd.Fsck self.old)) }
    {
        let report = report_of(&self.scan);
        let answer = Answer::Report(BoxedReport::of(self.alloc, report)?);
        Ok(done(&mut self.phase, answer))
    }

    /// Decides what is appended.
    fn append(&mut self) -> Result<Turn, OutOfMemory>
        requires phase { self.old.phase ≡ at.Decide }
        requires wish { IsSome (wish_of self.old.cmd) }
        ensures turn { IfOk result (λ turn.
            Tells (turns.wish_turn self.old (wish_of self.old.cmd)) turn self.new) }
        ensures kept { self.new.kept ≡ self.old.kept }
        ensures err { OnErr result (self.new ≡ self.old) }
        ensures want { OnErr result (WantsMemory self.old
            (turns.wish_turn self.old (wish_of self.old.cmd))) }
    {
        match self
            .history
            .decide(&self.params, self.gate, &self.cmd, self.me)?
        {
            Ok(entry) => self.write(&entry),
            Err(refused) => Ok(done(&mut self.phase, refusal_answer(refused))),
        }
    }

    /// Goes on to append an entry: its file first, where it has bytes.
    fn write(&mut self, entry: &Entry) -> Result<Turn, OutOfMemory>
        requires phase { self.old.phase ≡ at.Decide }
        requires wish { IsSome (wish_of self.old.cmd) }
        requires room { self.old.gate < self.old.params.slots }
        requires proper { Proper self.old.params entry.now }
        ensures turn { IfOk result (λ turn.
            Tells (turns.append_turn self.old (Ok entry.now)) turn self.new) }
        ensures kept { self.new.kept ≡ self.old.kept }
        ensures err { OnErr result (self.new ≡ self.old) }
    {
        let noted = Boxed::new(self.alloc, *entry)?;
        self.contents = new_contents(&self.cmd, entry.size)?;
        let slot = spell(entry, self.gate, self.params.format);
        self.buffer.hold(slot.words());
        self.entry = Some(*entry);
        self.phase = first_store(entry.size);
        Ok(Turn::Note(TaskNote::Writes(self.gate, noted)))
    }

    /// Looks for the file that is compared.
    fn verify(&mut self) -> Result<Turn, OutOfMemory>
        requires phase { self.old.phase ≡ at.Decide }
        requires verify { IsVerify self.old.cmd }
        ensures turn { IfOk result (λ turn. Tells (turns.decide_turn self.old.cmd self.old) turn self.new) }
        ensures kept { self.new.kept ≡ self.old.kept }
        ensures err { OnErr result (self.new ≡ self.old) }
        ensures want { OnErr result (WantsMemory self.old (turns.decide_turn self.old.cmd self.old)) }
    {
        let Cmd::Verify { path, against } = &self.cmd else {
            unreachable!();
        };
        let m = self.history.count();
        match file_found(self.history.at(path), m) {
            Err(answer) => Ok(done(&mut self.phase, answer)),
            Ok(entry) => match other_length(against, entry.size) {
                None => self.verify_file(&entry),
                Some(wanted) => {
                    let answer = Answer::Length {
                        m,
                        size: entry.size,
                        wanted,
                    };
                    Ok(done(&mut self.phase, answer))
                }
            },
        }
    }

    /// Goes on to compare a file, where it has bytes.
    fn verify_file(&mut self, entry: &Entry) -> Result<Turn, OutOfMemory>
        requires phase { self.old.phase ≡ at.Decide }
        requires verify { IsVerify self.old.cmd }
        requires proper { Proper self.old.params entry.now }
        ensures turn { IfOk result (λ turn. Tells (turns.verify_lines self.old entry.now) turn self.new) }
        ensures kept { self.new.kept ≡ self.old.kept }
        ensures err { OnErr result (self.new ≡ self.old) }
        ensures want { OnErr result (WantsMemory self.old (turns.verify_lines self.old entry.now)) }
    {
        if entry.size == 0 {
            let m = self.history.count();
            return Ok(done(&mut self.phase, Answer::Same { m }));
        }
        self.contents = Contents::new(content_used(&self.cmd)?);
        self.buffer.clear();
        self.entry = Some(*entry);
        self.phase = Phase::Drop {
            part: Part::File,
            line: 0,
        };
        Ok(Turn::Go)
    }

    /// Looks for the file whose bytes are wanted.
    fn read(&mut self) -> Result<Turn, OutOfMemory>
        requires phase { self.old.phase ≡ at.Decide }
        requires read { IsRead self.old.cmd }
        ensures turn { IfOk result (λ turn. Tells (turns.decide_turn self.old.cmd self.old) turn self.new) }
        ensures kept { self.new.kept ≡ self.old.kept }
        ensures err { OnErr result (self.new ≡ self.old) }
        ensures want { OnErr result (WantsMemory self.old (turns.decide_turn self.old.cmd self.old)) }
    {
        let Cmd::Read { path, .. } = &self.cmd else {
            unreachable!();
        };
        let m = self.history.count();
        match file_found(self.history.at(path), m) {
            Err(answer) => Ok(done(&mut self.phase, answer)),
            Ok(entry) => self.read_file(&entry),
        }
    }

    /// Goes on to read a file, where some of its bytes are wanted.
    fn read_file(&mut self, entry: &Entry) -> Result<Turn, OutOfMemory>
        requires phase { self.old.phase ≡ at.Decide }
        requires read { IsRead self.old.cmd }
        requires proper { Proper self.old.params entry.now }
        ensures turn { IfOk result (λ turn.
            Tells (turns.bytes_turn self.old entry.now (spec.wanted_start self.old.cmd)) turn self.new) }
        ensures kept { self.new.kept ≡ self.old.kept }
        ensures err { OnErr result (self.new ≡ self.old) }
        ensures want { OnErr result (WantsMemory self.old
            (turns.bytes_turn self.old entry.now (spec.wanted_start self.old.cmd))) }
    {
        let start = wanted_start(&self.cmd);
        let end = wanted_end(&self.cmd, entry.size);
        if end <= start {
            let answer = Answer::Bytes {
                m: self.history.count(),
                bytes: ByteText::new(Vec::new(self.alloc)),
            };
            return Ok(done(&mut self.phase, answer));
        }
        let room = zeros(self.alloc, end - start)?;
        self.room = room;
        self.buffer.clear();
        self.entry = Some(*entry);
        self.phase = Phase::Drop {
            part: Part::File,
            line: 0,
        };
        Ok(Turn::Go)
    }
}
