//! A task: a post or a take on its way over the cache of a host. It says which operation it does next, takes the word
//! that a load gave, and knows nothing else of memory.

ghost use Rattle.std.specs.Prelude.{ℕ, ◌≡◌, ◌≢◌, ◌↔◌, IsTrue, ◌+◌, ◌*◌, ◌<◌, ◌++◌, ◌∷◌, [], IfOk, OnErr, false, slice_index, unwrap_or};
ghost use Rattle.fam_machine.specs.declared.op.Op.{Op};
ghost use Rattle.fam_rules.specs.Place.{IsProperEntry, line_bytes};
ghost use Rattle.fam_rules.specs.Written.{file_line};
ghost use Rattle.fam_mail.specs.declared.phase.Phase.TheVariants as at;
ghost use Rattle.fam_mail.specs.Tasks as spec;
ghost use Rattle.fam_mail.specs.Tasks.{IsSoundTask, ends_mail_task, most_records, task_op, new_task, next_task, mail_turn};

use crate::ask::Ask;
use crate::phase::Phase;
use crate::record::{Record, Records};
use crate::turn::Turn;
use fam_base::{Entry, Line, LineNo, OutOfMemory};
use fam_content::file_line;
use fam_machine::Op;
use std::alloc::Global;
use std::marker::Model;
use std::mem::replace;

/// The last word of a line.
const LAST: u8 = 7;

/// A post or a take, and what it has read.
#[derive(Drop)]
pub struct Task {
    alloc: Global,
    ask: Ask,
    /// How many records the box has room for.
    capacity: u64,
    phase: Phase,
    gate: u64,
    /// The words of the record at hand, of which those before the phase's word were loaded.
    words: Line,
    records: Vec<Record>,
}

impl Model for Task {
    ghost use Rattle.fam_mail.specs.Tasks as spec;

    ghost Value = { spec.MailTask };

    ghost use Rattle.fam_mail.specs.TaskModel.{IsMailTask, task_view};

    ghost view = { task_view };

    ghost invariant = { IsMailTask };
}

impl Task {
    /// A post or a take before its first operation, on a box of so many records. It takes no memory.
    pub fn new(alloc: Global, ask: Ask, capacity: u64) -> Task
        requires few { capacity < most_records }
        ensures { result ≡ new_task ask capacity }
    {
        Task {
            alloc,
            ask,
            capacity,
            phase: Phase::DropGate,
            gate: 0,
            words: [0; 8],
            records: Vec::new(alloc),
        }
    }

    /// What is known of every task: its numbers fit its phase. A call does nothing.
    pub fn is_sound(&self)
        ensures { IsSoundTask self.now }
    {
        let _ = &self.phase;
    }

    /// Whether a Digest comes next.
    pub fn counts(&self) -> bool
        ensures { IsTrue result ↔ (self.now.phase ≡ at.Count) }
    {
        matches!(self.phase, Phase::Count)
    }

    /// A word of the line that a post stores.
    fn stored_word(&self, k: u8) -> u64
        requires { k < 8 }
        ensures { result ≡ slice_index (spec.posted_line self.now.ask) k }
    {
        match &self.ask {
            Ask::Post(record) => record.word(k),
            Ask::Take => 0,
        }
    }

    /// The operation that comes next, of a task that is not over, on the file of an entry.
    pub fn next(&self, entry: &Entry) -> Op
        requires file { IsProperEntry entry.now }
        requires room { line_bytes * self.now.capacity < entry.now.size }
        ensures { result ≡ task_op (file_line entry.now) self.now }
    {
        match self.phase {
            Phase::DropGate => Op::Invalidate(file_line(entry, 0)),
            Phase::LoadGate => Op::Load(file_line(entry, 0), 0),
            Phase::StoreRecord(k) => {
                Op::Store(file_line(entry, 1 + self.gate), k, self.stored_word(k))
            }
            Phase::SendRecord => Op::WriteBack(file_line(entry, 1 + self.gate)),
            Phase::FenceRecord | Phase::FenceGate => Op::Fence,
            Phase::StoreGate => Op::Store(file_line(entry, 0), 0, self.gate + 1),
            Phase::SendGate => Op::WriteBack(file_line(entry, 0)),
            Phase::Count => Op::Digest,
            Phase::DropRecord(i) => Op::Invalidate(file_line(entry, 1 + i)),
            Phase::LoadRecord(i, k) => Op::Load(file_line(entry, 1 + i), k),
        }
    }

    /// Takes the gate that was loaded.
    fn load_gate(&mut self, gate: u64) -> Turn
        requires { self.old.phase ≡ at.LoadGate }
        ensures turn { result ≡ mail_turn gate self.old }
        ensures goes { ends_mail_task result ≡ false → self.new ≡ next_task gate self.old }
    {
        let capacity = self.capacity;
        if capacity < gate {
            return Turn::BadBox { gate, capacity };
        }
        match self.ask {
            Ask::Post(_) => {
                if gate == capacity {
                    return Turn::Full(gate);
                }
                self.gate = gate;
                self.phase = Phase::StoreRecord(0);
                Turn::Found(gate)
            }
            Ask::Take => {
                self.gate = gate;
                self.phase = Phase::Count;
                Turn::Go
            }
        }
    }

    /// Goes on behind a word that was stored.
    fn store_word(&mut self, k: u8) -> Turn
        requires phase { self.old.phase ≡ at.StoreRecord k }
        requires word { k < 8 }
        ensures turn { (word : ℕ) → result ≡ mail_turn word self.old }
        ensures goes { (word : ℕ) → self.new ≡ next_task word self.old }
    {
        self.phase = if k == LAST {
            Phase::SendRecord
        } else {
            Phase::StoreRecord(k + 1)
        };
        Turn::Go
    }

    /// Keeps a record that was loaded whole, for which there is room. Behind the last one all are taken.
    fn keep(&mut self, i: u64, numbers: Record) -> Turn
        requires phase { self.old.phase ≡ at.LoadRecord i 7 }
        ensures last { i + 1 ≡ self.old.gate → result ≡ Turn.Taken (self.old.records ++ numbers ∷ []) }
        ensures more { i + 1 ≢ self.old.gate → result ≡ Turn.Go }
        ensures goes { i + 1 ≢ self.old.gate → self.new ≡ record self.old {
          phase = at.DropRecord (i + 1);
          records = self.old.records ++ numbers ∷ [];
        } }
    {
        let _ = self.records.push(numbers);
        if i + 1 == self.gate {
            self.phase = Phase::DropGate;
            return Turn::Taken(Records::of(replace(&mut self.records, Vec::new(self.alloc))));
        }
        self.phase = Phase::DropRecord(i + 1);
        Turn::Go
    }

    /// Takes a word of a record.
    fn load_word(&mut self, i: u64, k: u8, word: u64) -> Turn
        requires phase { self.old.phase ≡ at.LoadRecord i k }
        requires word { k < 8 }
        ensures turn { result ≡ mail_turn word self.old }
        ensures goes { ends_mail_task result ≡ false → self.new ≡ next_task word self.old }
    {
        self.words[k as usize] = word;
        if k < LAST {
            self.phase = Phase::LoadRecord(i, k + 1);
            return Turn::Go;
        }
        match Record::read(&self.words) {
            Ok(numbers) => self.keep(i, numbers),
            Err(wrong) => Turn::BadRecord { i, word: wrong },
        }
    }

    /// Goes on to a phase for which there is nothing to do.
    fn go_to(&mut self, phase: Phase) -> Turn
        requires fits { spec.PhaseFits phase self.old }
        requires room { spec.IsBehindRecord phase }
        ensures turn { result ≡ Turn.Go }
        ensures goes { self.new ≡ record self.old { phase = phase } }
    {
        self.phase = phase;
        Turn::Go
    }

    /// Tells that the operation was done, with the word of a load and None otherwise. The operation isn't Digest.
    pub fn feed(&mut self, word: Option<u64>) -> Turn
        requires { self.old.phase ≢ at.Count }
        ensures turn { result ≡ mail_turn (unwrap_or word 0) self.old }
        ensures goes { ends_mail_task result ≡ false → self.new ≡ next_task (unwrap_or word 0) self.old }
    {
        let word = word.unwrap_or(0);
        match self.phase {
            Phase::DropGate => {
                self.phase = Phase::LoadGate;
                Turn::Mark
            }
            Phase::LoadGate => self.load_gate(word),
            Phase::StoreRecord(k) => self.store_word(k),
            Phase::SendRecord => self.go_to(Phase::FenceRecord),
            Phase::FenceRecord => self.go_to(Phase::StoreGate),
            Phase::StoreGate => self.go_to(Phase::SendGate),
            Phase::SendGate => self.go_to(Phase::FenceGate),
            Phase::FenceGate => Turn::Posted(self.gate),
            Phase::Count => Turn::Go,
            Phase::DropRecord(i) => {
                self.phase = Phase::LoadRecord(i, 0);
                Turn::Go
            }
            Phase::LoadRecord(i, k) => self.load_word(i, k, word),
        }
    }

    /// Makes room for the records that the gate counts, or ends where it counts none. Where there is no memory for it the
    /// task is as it was.
    pub fn digest(&mut self) -> Result<Turn, OutOfMemory>
        requires { self.old.phase ≡ at.Count }
        ensures turn { IfOk result (λ turn. turn ≡ mail_turn 0 self.old) }
        ensures goes { IfOk result (λ turn. ends_mail_task turn ≡ false → self.new ≡ next_task 0 self.old) }
        ensures err { OnErr result (self.new ≡ self.old) }
    {
        let gate = self.gate;
        if gate == 0 {
            return Ok(Turn::Taken(Records::of(Vec::new(self.alloc))));
        }
        match self.records.reserve(gate as usize) {
            Ok(()) => {
                self.phase = Phase::DropRecord(0);
                Ok(Turn::Go)
            }
            Err(_) => Err(OutOfMemory),
        }
    }
}
