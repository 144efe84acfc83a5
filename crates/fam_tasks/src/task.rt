//! A task: a command, its phase, and what it has read. Its turns stand in the files of `task/`.

ghost use Rattle.std.specs.Prelude.{ℕ, ◌≡◌, ◌≢◌, ◌-◌, ◌≤◌, ◌<◌, nat_lt, if◌then◌else◌, true, false, None, Option, Some, IfOk, IsSome, OnErr, OnOk, length, option_map};
ghost use Rattle.fam_base.specs.Commands.{IsSoundCmd};
ghost use Rattle.fam_base.specs.declared.line.LineNo.{LineNo};
ghost use Rattle.fam_format.specs.Layout.{geometry, least_lines};
ghost use Rattle.fam_commands.specs.declared.phase.Part.TheVariants as part;
ghost use Rattle.fam_commands.specs.declared.phase.Phase.TheVariants as at;
ghost use Rattle.fam_commands.specs.Task as spec;
ghost use Rattle.fam_commands.specs.Kept.{IsKept, Kept};
ghost use Rattle.fam_commands.specs.Task.{mounted, op_of, starting};
ghost use Rattle.fam_commands.specs.Turns.{Ends, turn_of};
ghost use Rattle.fam_commands.specs.Classes.{is_fsck};
ghost use Rattle.fam_machine.specs.Operations.{IsWithin};
ghost use Rattle.fam_tasks.specs.declared.answer.Answer.TheVariants.{MediaFault};
ghost use Rattle.fam_tasks.specs.declared.answer.Turn.TheVariants.{Done, Go};
ghost use Rattle.fam_rules.specs.Reply.{Reply};
ghost use Rattle.fam_tasks.specs.Answers.{reply_of};
ghost use Rattle.fam_tasks.specs.KeptAnew.{KeepsAnew, has_left, is_keeping, kept_left};
ghost use Rattle.fam_tasks.specs.Survey.{ShowWants};
ghost use Rattle.fam_tasks.specs.Sound.{most_lines, HasSuper, IsFileLine, IsLine, IsSound, IsWantedLine};
ghost use Rattle.fam_tasks.specs.Tells.{Keeps, Leaves, Tells, WantsMemory, is_digest, is_reading};

mod compare_run;
mod decide;
mod digests;
mod due;
mod file_loads;
mod found_slot;
mod loads;
mod rest;
mod slot_lines;
mod store_run;
mod stores;

use crate::answer::{Answer, Turn};
use crate::buffer::Buffer;
use crate::commands::is_mount;
use crate::contents::Contents;
use crate::history::History;
use crate::kept::Kept;
use crate::wanted::first_line;
pub use compare_run::MOST_COMPARED;
pub use due::Due;
use fam_base::{Cmd, Content, Entry, LineNo, OutOfMemory, Params};
use fam_commands::{Part, Phase};
use fam_content::file_line;
use fam_format::{FIRST_FORMAT, GATE_LINE, LAST_WORD, LOG_LINE, shape_of};
use fam_fsck::Fsck;
use fam_machine::Op;
use fam_replay::{Replica, line_of_slot};
pub use slot_lines::SlotDue;
use std::alloc::Global;
use std::marker::Model;
use std::mem::replace;
use uuid::Uuid;

/// A command on its way over the cache of a host.
#[derive(Drop)]
pub struct Task {
    alloc: Global,
    cmd: Cmd,
    me: Uuid,
    lines: u64,
    phase: Phase,
    params: Params,
    gate: u64,
    /// What the host keeps, and the entries of the slots that were read; a check of the whole file system reads none.
    history: History,
    /// A check of the whole file system, with the slots that it was shown.
    scan: Option<Fsck>,
    buffer: Buffer,
    entry: Option<Entry>,
    /// What is written or compared with.
    contents: Contents,
    /// Room for the bytes of an answer.
    room: Vec<u8>,
}

impl Model for Task {
    ghost use Rattle.fam_commands.specs.Task as spec;

    ghost Value = { spec.Task };

    ghost use Rattle.fam_tasks.specs.Model.{task_of};
    ghost use Rattle.fam_tasks.specs.Invariant.{IsTask};

    ghost view = { task_of };

    ghost invariant = { IsTask };
}

/// The task is done: it stands in the last phase from here on.
fn done(phase: &mut Phase, answer: Answer) -> Turn
    ensures turn { result ≡ Done answer }
    ensures last { phase.new ≡ at.FenceGate }
{
    *phase = Phase::FenceGate;
    Turn::Done(answer)
}

/// The same, told by `turn`, before which the task went on.
fn end(phase: &mut Phase, answer: Answer, turn: &mut Turn)
    ensures turn { turn.new ≡ Done answer }
    ensures last { phase.new ≡ at.FenceGate }
{
    let_go(replace(turn, done(phase, answer)));
}

/// Lets a value go. Of a large type that is taken apart in one place, and not at each exit that has one.
fn let_go<T: Drop>(_value: T) {}

/// Whether an answer is one behind which a host may keep what its task has read.
fn is_keeping(answer: &Answer) -> bool
    ensures { result ≡ is_keeping answer.now }
{
    match answer {
        Answer::Mounted { .. } => true,
        Answer::Played { .. } => true,
        _ => false,
    }
}

/// How many lines a slot of the file system with these parameters has.
#[inline(always)]
fn lines_of_a_slot(params: &Params) -> u64
    ensures lines { result ≡ (geometry params.now).lines }
    ensures some { 8 ≤ result }
    ensures few { result ≤ 16 }
{
    shape_of(params.format).lines
}

/// The last line of a slot, counted from 0 in the slot.
#[inline(always)]
fn last_line(params: &Params) -> u64
    ensures { result ≡ (geometry params.now).lines - 1 }
{
    lines_of_a_slot(params) - 1
}

/// The phase behind slot `i - 1`: the next slot below `end`, or the decision.
fn slot_or_decide(i: u64, end: u64) -> Phase
    ensures { result ≡ (if nat_lt i end then at.Drop (part.Slot i) 0 else at.Decide) }
{
    if i < end {
        Phase::Drop {
            part: Part::Slot(i),
            line: 0,
        }
    } else {
        Phase::Decide
    }
}

/// A command before its first operation, which has read nothing.
fn begin(alloc: Global, cmd: Cmd, me: Uuid, lines: u64, history: History) -> Task
    requires command { IsSoundCmd cmd }
    requires least { least_lines ≤ lines }
    requires most { lines ≤ most_lines }
    requires joins { IsKept history.kept }
    requires unread { history.replay ≡ None }
    ensures { result ≡ mounted history.kept cmd me lines }
{
    let none = Uuid::from_bytes([0; 16]);
    Task {
        alloc,
        cmd,
        me,
        lines,
        phase: Phase::DropMagic,
        params: Params {
            format: FIRST_FORMAT,
            log_length: 0,
            slots: 0,
            unit: 0,
            device: 0,
            fs: none,
            master: none,
        },
        gate: 0,
        history,
        scan: None,
        buffer: Buffer::new(),
        entry: None,
        contents: Contents::new(Content::Zero),
        room: Vec::new(alloc),
    }
}

impl Task {
    /// How many lines a slot of the file system has whose parameters were read.
    pub fn slot_lines(&self) -> u64
        ensures lines { result ≡ (geometry self.now.params).lines }
        ensures few { result ≤ 16 }
    {
        lines_of_a_slot(&self.params)
    }

    /// A command before its first operation, on the host `me` and an image of so many lines. It takes no memory.
    pub fn new(alloc: Global, cmd: Cmd, me: Uuid, lines: u64) -> Task
        requires command { IsSoundCmd cmd }
        requires least { least_lines ≤ lines }
        requires most { lines ≤ most_lines }

        ensures { result ≡ starting cmd me lines }
    {
        begin(alloc, cmd, me, lines, History::new(alloc, None))
    }

    /// The same on a host that keeps this of the log. Where the superblock says the same as then and the gate counts no
    /// fewer entries, the command begins with these, and reads the slots behind them alone; a check of the whole file
    /// system uses none. What is kept stays as it is, but where a logplay answers: from there on it is what that has read.
    pub fn mounted(alloc: Global, cmd: Cmd, me: Uuid, lines: u64, kept: Kept) -> Task
        requires command { IsSoundCmd cmd }
        requires least { least_lines ≤ lines }
        requires most { lines ≤ most_lines }

        ensures { result ≡ mounted (Some kept) cmd me lines }
    {
        kept.each_entry_joins();
        begin(alloc, cmd, me, lines, History::new(alloc, Some(kept)))
    }

    /// Takes what the host's last command kept, and keeps more for the next one: a slot that has the same words is not
    /// read again. It changes no answer.
    pub fn remember(&mut self, replica: Option<Replica>)
        ensures { self.new ≡ self.old }
    {
        self.history.remember(replica);
    }

    /// How many of the log's first entries the host keeps, if it keeps anything.
    pub fn kept_count(&self) -> Option<u64>
        ensures { result ≡ option_map (λ (k : Kept). length k.entries) self.now.kept }
    {
        self.history.kept_count()
    }

    /// Takes what the host keeps behind the task: what it kept before, or what a mount has read, or a logplay where it kept
    /// something. Where that is nothing, what its next command may find again. The task has read nothing then, and is to be
    /// let go.
    pub fn take_parts(&mut self) -> (Option<Kept>, Option<Replica>)
        ensures { result.0 ≡ self.old.kept }
    {
        self.is_sound();
        self.phase = Phase::DropMagic;
        self.scan = None;
        replace(&mut self.history, History::new(self.alloc, None)).into_parts()
    }

    /// What is kept anew behind a task that gave this answer: Some exactly where it is Mounted or Played, with the parameters
    /// that the task read and the first entries, as many as the answer says. It takes no memory.
    pub fn into_kept(self, answer: &Answer) -> Option<Kept>
        ensures kept { is_keeping answer.now ≡ true → result ≡ kept_left self }
        ensures none { is_keeping answer.now ≡ false → result ≡ None }

        // So it is what the task has read, where this is its own answer, by what the contract of `digest` says.
        ensures anew { (t : spec.Task) (word : Option ℕ) (reply : Reply) → turn_of t word ≡ Ends reply → Keeps t (turn_of t word) self
            → (is_digest (op_of t) ≡ true → Leaves t (turn_of t word) self)
            → reply_of answer.now ≡ Some reply → KeepsAnew reply t result }
    {
        if !is_keeping(answer) {
            let_go(self);
            return None;
        }
        self.into_all_kept()
    }

    /// What is kept of the task behind a logplay or a mount.
    fn into_all_kept(self) -> Option<Kept>
        ensures { result ≡ kept_left self }
    {
        if self.keeps() {
            return self.into_host_kept();
        }
        if self.has_left() {
            return self.into_left();
        }
        self.into_host_kept()
    }

    /// Whether the task stands as a mount that decides.
    fn has_left(&self) -> bool
        ensures { result ≡ has_left self.now.phase self.now.cmd }
    {
        match self.phase {
            Phase::Decide => is_mount(&self.cmd),
            _ => false,
        }
    }

    /// Whether the host keeps anything.
    fn keeps(&self) -> bool
        ensures some { result ≡ true → IsSome self.now.kept }
        ensures none { result ≡ false → self.now.kept ≡ None }
    {
        self.history.keeps()
    }

    /// What the host keeps behind the task.
    fn into_host_kept(mut self) -> Option<Kept>
        ensures { result ≡ self.kept }
    {
        let (kept, found) = self.take_parts();
        let_go(found);
        let_go(self);
        kept
    }

    /// What is known of every task: its numbers fit its phase. A call does nothing.
    pub fn is_sound(&self)
        ensures { IsSound self.now }
    {
        let _ = &self.phase;
    }

    /// The operation that comes next, of a task that has not answered.
    #[inline(always)]
    pub fn next(&self) -> Op
        ensures op { result ≡ op_of self.now }
        ensures within { IsWithin self.now.lines result }
    {
        match self.phase {
            Phase::DropMagic => Op::Invalidate(LineNo(0)),
            Phase::Magic => Op::Load(LineNo(0), 0),
            Phase::Drop { part, line } => Op::Invalidate(self.part_line(part, line)),
            Phase::Word { part, line, word } => Op::Load(self.part_line(part, line), word),
            Phase::DropGate => Op::Invalidate(LineNo(GATE_LINE)),
            Phase::Gate => Op::Load(LineNo(GATE_LINE), 0),
            Phase::Check { .. } | Phase::Decide => Op::Digest,
            Phase::StoreData { line, word } => self.data_store(line, word),
            Phase::SendData { line } => Op::Invalidate(self.file_line(line)),
            Phase::StoreSlot { line, word } => self.slot_store(line, word),
            Phase::SendSlot { line } => Op::WriteBack(line_of_slot(&self.params, self.gate, line)),
            Phase::FenceSlot | Phase::FenceGate => Op::Fence,
            Phase::StoreGate => Op::Store(LineNo(GATE_LINE), 0, self.gate + 1),
            Phase::SendGate => Op::WriteBack(LineNo(GATE_LINE)),
        }
    }

    /// Tells that the operation was done, with the word of a load and None otherwise. The operation isn't Digest.
    pub fn feed(&mut self, word: Option<u64>) -> Turn
        requires { is_digest (op_of self.old) ≡ false }

        ensures turn { Tells (turn_of self.old word) result self.new }
        ensures kept { Keeps self.old (turn_of self.old word) self.new }
        ensures own { (line : LineNo) → result ≢ Done (MediaFault line) }
    {
        if self.reads_on() {
            self.read_on(word);
            return Turn::Go;
        }
        let word = word.unwrap_or(0);
        match self.phase {
            Phase::DropMagic => self.drop_magic(),
            Phase::Magic => self.load_magic(word),
            Phase::Word {
                part,
                line,
                word: k,
            } => self.load_word(part, line, k, word),
            Phase::DropGate => self.mark(),
            Phase::Gate => self.load_gate(word),
            Phase::FenceSlot => self.fence_slot(),
            Phase::SendGate => self.send_gate(),
            Phase::FenceGate => Turn::Done(Answer::Ok(self.gate)),
            Phase::Drop { .. }
            | Phase::Check { .. }
            | Phase::Decide
            | Phase::StoreData { .. }
            | Phase::SendData { .. }
            | Phase::StoreSlot { .. }
            | Phase::SendSlot { .. }
            | Phase::StoreGate => unreachable!(),
        }
    }

    /// Whether the task just goes on once the next operation is done, among the lines that it reads or writes, whatever
    /// the operation gives.
    #[inline(always)]
    pub fn reads_on(&self) -> bool
        ensures { result ≡ is_reading self.now.phase }
    {
        match self.phase {
            Phase::Drop { .. }
            | Phase::StoreData { .. }
            | Phase::SendData { .. }
            | Phase::StoreSlot { .. }
            | Phase::SendSlot { .. }
            | Phase::StoreGate => true,
            Phase::Word { part, word, .. } => word < LAST_WORD || matches!(part, Part::Slot(_)),
            _ => false,
        }
    }

    /// Does what `feed` does, of a task that goes on so: its turn is to go on.
    #[inline(always)]
    pub fn read_on(&mut self, word: Option<u64>)
        requires { is_reading self.old.phase ≡ true }
        ensures { Tells (turn_of self.old word) Go self.new }
    {
        self.is_sound();
        match self.phase {
            Phase::Drop { part, line } => self.begin_line(part, line),
            Phase::Word {
                part,
                line,
                word: k,
            } => self.load_on(part, line, k, word.unwrap_or(0)),
            Phase::StoreData { line, word: k } => self.data_stored(line, k),
            Phase::SendData { line } => self.data_sent(line),
            Phase::StoreSlot { line, word: k } => self.slot_stored(line, k),
            Phase::SendSlot { line } => self.slot_sent(line),
            Phase::StoreGate => self.gate_stored(),
            _ => unreachable!(),
        }
    }

    /// Does the Digest, which is the next operation. A task that has no memory for it answers so, and is
    /// unchanged.
    pub fn digest(&mut self) -> Result<Turn, OutOfMemory>
        requires { is_digest (op_of self.old) ≡ true }

        ensures turn { IfOk result (λ turn. Tells (turn_of self.old None) turn self.new) }
        ensures kept { OnOk result (Keeps self.old (turn_of self.old None) self.new) }
        ensures left { OnOk result (Leaves self.old (turn_of self.old None) self.new) }
        ensures own { (line : LineNo) → IfOk result (λ turn. turn ≢ Done (MediaFault line)) }
        ensures err { OnErr result (self.new ≡ self.old) }
        ensures want { OnErr result (WantsMemory self.old (turn_of self.old None)) }
        ensures shows { (slot : ℕ) → self.old.phase ≡ at.Check slot → is_fsck self.old.cmd ≡ true
            → OnErr result (ShowWants self.old.params self.old.gate slot self.old.words) }
    {
        match self.phase {
            Phase::Check { slot } => self.digest_slot(slot),
            Phase::Decide => self.decide(),
            Phase::DropMagic
            | Phase::Magic
            | Phase::Drop { .. }
            | Phase::Word { .. }
            | Phase::DropGate
            | Phase::Gate
            | Phase::StoreData { .. }
            | Phase::SendData { .. }
            | Phase::StoreSlot { .. }
            | Phase::SendSlot { .. }
            | Phase::FenceSlot
            | Phase::StoreGate
            | Phase::SendGate
            | Phase::FenceGate => unreachable!(),
        }
    }

    /// Line `line` of a part.
    #[inline(always)]
    fn part_line(&self, part: Part, line: u64) -> LineNo
        requires least { least_lines ≤ self.now.lines }
        requires line { IsLine part line self.now }
        ensures line { result.0 ≡ spec.part_line self.now part line }
        ensures within { result.0 < self.now.lines }
    {
        match part {
            Part::Superblock => LineNo(1 + line),
            Part::Header => LineNo(LOG_LINE),
            Part::Slot(i) => line_of_slot(&self.params, i, line),
            Part::File => self.wanted_line(line),
        }
    }

    /// Line `line` of those that are wanted of the file.
    #[inline(always)]
    fn wanted_line(&self, line: u64) -> LineNo
        requires { IsWantedLine line self.now }
        ensures line { result.0 ≡ spec.part_line self.now part.File line }
        ensures within { result.0 < self.now.lines }
    {
        self.file_line(first_line(&self.cmd) + line)
    }

    /// Line `line` of the file of the entry.
    fn file_line(&self, line: u64) -> LineNo
        requires known { HasSuper self.now }
        requires file { IsFileLine line self.now }
        ensures line { result.0 ≡ spec.line_of self.now.entry line }
        ensures within { result.0 < self.now.lines }
    {
        match &self.entry {
            Some(entry) => file_line(entry, line),
            None => unreachable!(),
        }
    }
}
