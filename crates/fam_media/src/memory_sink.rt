//! A sink in memory, of which chosen puts fail.

ghost use Rattle.std.specs.Prelude.{◌≡◌, ◌+◌, ◌++◌, ◌≤◌, ◌∷◌, Some, IfOk, OnOk, OnErr, OnSome, is_err, is_some, MatchOption, length, min, take};
ghost use Rattle.std.specs.Option.{option_map};
ghost use Rattle.std.specs.Vec.{vec_capacity};
ghost use Rattle.fam_media.specs.Causes.{HasCause, Rose};
ghost use Rattle.fam_media.specs.Outside.{IsPartlyPut, with_piece};
ghost use Rattle.fam_media.specs.MemorySink.{after_count, after_put, empty_sink, next_kept};

use crate::media::Failed;
use crate::plan::find_planned;
use crate::sink::Sink;
use fam_base::OutOfMemory;
use std::alloc::Global;
use std::marker::Model;

/// Output in memory, with room for so many bytes and puts that are to fail. Puts are counted from 0.
#[derive(Drop)]
pub struct MemSink {
    bytes: Vec<u8>,
    room: u64,
    calls: u64,
    plan: Vec<(u64, u64)>,
    faults: u64,
}

impl Model for MemSink {
    ghost use Rattle.std.specs.Prelude.{◌≤◌, length};
    ghost use Rattle.std.specs.Vec.{vec_capacity};
    ghost use Rattle.fam_media.specs.MemorySink.{MemSinkState};

    ghost Value = { MemSinkState };

    ghost view = { λ s. record {
      bytes = s.bytes.items;
      room = s.room;
      calls = s.calls;
      plan = s.plan.items;
      faults = s.faults;
    } };

    // All of the room was taken.
    ghost invariant = { λ s. (length s.bytes.items ≤ s.room) × (s.room ≤ vec_capacity s.bytes) };
}

/// Appends a piece for which there is room.
fn append(bytes: &mut Vec<u8>, piece: &[u8])
    requires { length bytes.old.items + length piece.now ≤ vec_capacity bytes.old }
    ensures bytes { bytes.new.items ≡ bytes.old.items ++ piece.now }
    ensures capacity { vec_capacity bytes.old ≤ vec_capacity bytes.new }
{
    bytes.extend_from_slice(piece).unwrap()
}

/// Appends at most so many bytes of a piece, for which there is room.
fn append_prefix(bytes: &mut Vec<u8>, piece: &[u8], most: u64)
    requires { length bytes.old.items + min most (length piece.now) ≤ vec_capacity bytes.old }
    ensures bytes { bytes.new.items ≡ bytes.old.items ++ take most piece.now }
    ensures capacity { vec_capacity bytes.old ≤ vec_capacity bytes.new }
{
    let kept = piece.len().min(most as usize);
    append(bytes, &piece[..kept])
}

impl MemSink {
    /// A sink with room for so many bytes, which is taken here: no put takes memory.
    pub fn new(alloc: Global, room: u64) -> Result<MemSink, OutOfMemory>
        ensures value { IfOk result (λ s. s ≡ empty_sink room) }
    {
        match Vec::with_capacity(alloc, room as usize) {
            Ok(bytes) => Ok(MemSink {
                bytes,
                room,
                calls: 0,
                plan: Vec::new(alloc),
                faults: 0,
            }),
            Err(_) => Err(OutOfMemory),
        }
    }

    /// The put with that number will fail, and keep at most so many bytes of its piece.
    pub fn fail(&mut self, call: u64, kept: u64) -> Result<(), OutOfMemory>
        ensures planned { OnOk result
            (self.new ≡ record self.old { plan = (call, kept) ∷ self.old.plan }) }
        ensures err { OnErr result (self.new ≡ self.old) }
    {
        match self.plan.insert(0, (call, kept)) {
            Ok(()) => Ok(()),
            Err(_) => Err(OutOfMemory),
        }
    }

    /// The bytes put.
    pub fn bytes(&self) -> &[u8]
        ensures value { result.now ≡ self.now.bytes }
    {
        &self.bytes
    }

    /// Tells how many bytes the put of a piece of so many bytes keeps where it fails.
    fn next_kept(&self, size: usize) -> Option<u64>
        ensures kept { result ≡ next_kept size self.now }
        ensures fits { MatchOption result (length self.now.bytes + size ≤ self.now.room)
            (λ kept. length self.now.bytes + min kept size ≤ self.now.room) }
    {
        if size as u64 > self.room - self.bytes.len() as u64 {
            Some(0)
        } else {
            find_planned(&self.plan, self.calls)
        }
    }

    /// Counts the put of a piece of so many bytes, and tells how many of them it keeps where it fails.
    fn next_call(&mut self, size: usize) -> Option<u64>
        ensures kept { result ≡ next_kept size self.old }
        ensures fits { MatchOption result (length self.old.bytes + size ≤ self.old.room)
            (λ kept. length self.old.bytes + min kept size ≤ self.old.room) }
        ensures after { self.new ≡ after_count size self.old }
        ensures later { self.old.faults ≤ self.new.faults }
        ensures rose { OnSome result (Rose self.old.faults self.new.faults) }
    {
        let kept = self.next_kept(size);
        self.calls = self.calls.saturating_add(1);
        if kept.is_some() {
            self.faults = self.faults.saturating_add(1);
        }
        kept
    }
}

impl Sink for MemSink {
    ghost state = { λ s. record { bytes = Some s.bytes; faults = s.faults } };

    fn put(&mut self, piece: &[u8]) -> Result<(), Failed>
        ensures put { OnOk result
            (Some self.new.bytes ≡ option_map (with_piece piece.now) (Some self.old.bytes)) }
        ensures torn { OnErr result
            (IsPartlyPut (Some self.old.bytes) (Some self.new.bytes) piece.now) }
        ensures cause { HasCause self.old.faults self.new.faults result }

        // It fails exactly where the piece passes the room or where that was planned, and keeps nothing of a
        // piece that passes the room.
        ensures fails { is_err result ≡ is_some (next_kept (length piece.now) self.old) }
        ensures after { self.new ≡ after_put piece.now self.old }
    {
        match self.next_call(piece.len()) {
            None => {
                append(&mut self.bytes, piece);
                Ok(())
            }
            Some(kept) => {
                append_prefix(&mut self.bytes, piece, kept);
                Err(Failed)
            }
        }
    }
}
