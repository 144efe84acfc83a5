//! A short list of unit numbers.

ghost use Rattle.std.specs.Prelude.{◌≡◌, ◌<◌, ◌≤◌, [], ◌∷◌, ◌++◌, length, slice_get};
ghost use Rattle.fam_rules.specs.Room.{given};

use std::marker::Model;

/// At most sixteen unit numbers: where the strips of a file start.
#[derive(Drop)]
pub struct Starts {
    items: [u64; 16],
    len: usize,
}

impl Model for Starts {
    ghost use Rattle.std.specs.Prelude.{ℕ, List, ◌≡◌, ◌≤◌, length, take};

    ghost Value = { List ℕ };

    ghost view = { λ a. take a.len a.items };

    ghost invariant = { λ a. (a.len ≤ 16) × (length a.items ≡ 16) };
}

impl Starts {
    /// No units.
    pub(crate) fn new() -> Starts
        ensures { result ≡ [] }
    {
        Starts {
            items: [0; 16],
            len: 0,
        }
    }

    /// How many there are.
    pub fn len(&self) -> u64
        ensures count { result ≡ length self.now }
        ensures few { length self.now ≤ 16 }
    {
        self.len as u64
    }

    /// The numbers in their order.
    pub fn as_slice(&self) -> &[u64]
        ensures same { result.now ≡ self.now }
        ensures few { length self.now ≤ 16 }
    {
        &self.items[..self.len]
    }

    /// The one at a place.
    pub fn at(&self, i: u64) -> Option<u64>
        ensures { result ≡ slice_get self.now i }
    {
        if i < self.len as u64 {
            Some(self.items[i as usize])
        } else {
            None
        }
    }

    /// Adds one at the end.
    fn push(&mut self, start: u64)
        requires { length self.old < 16 }
        ensures { self.new ≡ self.old ++ start ∷ [] }
    {
        self.items[self.len] = start;
        self.len += 1;
    }

    /// Adds what a bucket offers.
    pub(crate) fn add(&mut self, offer: Option<u64>)
        requires { length self.old < 16 }
        ensures { self.new ≡ self.old ++ given (offer ∷ []) }
    {
        if let Some(start) = offer {
            self.push(start);
        }
    }
}
