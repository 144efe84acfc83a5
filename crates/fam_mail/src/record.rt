//! Records of a box, and the lines that hold them.
//!
//! A contract sees a `Record` as its list of 1 to 7 numbers, and `Records` as a list of such lists.

ghost use Rattle.std.specs.Prelude.{◌≡◌, ◌<◌, slice_index};
ghost use Rattle.fam_mail.specs.Records.{IsRecord, record_in, record_line, wrong_word};

use fam_base::Line;
use std::marker::Model;

/// The most numbers of a record, `most_numbers` in contracts.
pub const MOST_NUMBERS: usize = 7;

/// One to seven numbers. `Copy`, kept as the line that holds them.
#[derive(Clone, Copy)]
pub struct Record {
    words: Line,
}

impl Model for Record {
    ghost use Rattle.std.specs.Prelude.{ℕ, List};
    ghost use Rattle.fam_mail.specs.Records.{IsRecordLine, numbers_in, record_line};

    ghost Value = { List ℕ };

    ghost view = { λ a. numbers_in a.words };

    ghost invariant = { λ a. IsRecordLine a.words };

    ghost inverse = { λ numbers. record { words = record_line numbers } };

    ghost inverse_ok = { λ a h. Prim.rw (← h.line) };
}

/// The first word that makes a line no record, if any does.
pub(crate) fn wrong_word(words: &Line) -> Option<u64>
    ensures { result ≡ wrong_word words.now }
{
    let count = words[0];
    if count < 1 || count > MOST_NUMBERS as u64 {
        return Some(0);
    }
    for k in count as usize + 1..8 {
        if words[k] != 0 {
            return Some(k as u64);
        }
    }
    None
}

impl Record {
    /// A record of these numbers.
    pub fn new(numbers: &[u64]) -> Record
        requires few { IsRecord numbers.now }
        ensures { result ≡ numbers.now }
    {
        let count = numbers.len();
        let mut words = [0; 8];
        words[1..count + 1].copy_from_slice(numbers);
        words[0] = count as u64;
        Record { words }
    }

    /// The record of a line, or the first of its words that makes it none.
    pub fn read(words: &Line) -> Result<Record, u64>
        ensures { result ≡ record_in words.now }
    {
        match wrong_word(words) {
            Some(word) => Err(word),
            None => Ok(Record { words: *words }),
        }
    }

    /// The numbers.
    pub fn numbers(&self) -> &[u64]
        ensures same { result.now ≡ self.now }
        ensures few { IsRecord self.now }
    {
        let count = self.words[0] as usize;
        &self.words[1..count + 1]
    }

    /// A word of the line that holds the record.
    pub(crate) fn word(&self, k: u8) -> u64
        requires { k < 8 }
        ensures { result ≡ slice_index (record_line self.now) k }
    {
        self.words[k as usize]
    }
}

/// Records in their order.
#[derive(Drop)]
pub struct Records {
    items: Vec<Record>,
}

impl Model for Records {
    ghost use Rattle.std.specs.Prelude.{ℕ, List};

    ghost Value = { List (List ℕ) };

    ghost view = { λ a. a.items.items };
}

impl Records {
    /// Those of a list.
    pub(crate) fn of(items: Vec<Record>) -> Records
        ensures { result ≡ items.items }
    {
        Records { items }
    }

    /// The records in their order.
    pub fn as_slice(&self) -> &[Record]
        ensures { result.now ≡ self.now }
    {
        self.items.as_slice()
    }
}
