//! A sink in memory, for tests.
use super::faults::Failed;
use super::numbers::is_next_among;
use super::traits::Sink;
use iot_count::Count;
use std::alloc::{AllocError, Global};
use std::marker::Model;

/// Keeps what it takes, as much of each piece as there is room for. Its calls are numbered from 1, and
/// listed ones answer `Failed` or take nothing.
#[derive(Drop)]
pub struct MemSink {
    bytes: Vec<u8>,
    room: usize,
    fails: Vec<u64>,
    nothing: Vec<u64>,
    calls: Count,
    faults: Count,
    empties: Count,
}

impl Model for MemSink {
    ghost use Rattle.std.specs.Prelude.{◌+◌, ◌≤◌, vec_len, vec_capacity};
    ghost use Rattle.iot_io.specs.MemSink.{MemOutput};

    ghost Value = { MemOutput };

    ghost view = { λ s. record {
      written = s.bytes.items;
      room = s.room;
      fails = s.fails.items;
      nothing = s.nothing.items;
      calls = s.calls;
      faults = s.faults;
      empties = s.empties;
    } };

    ghost invariant = { λ s. vec_len s.bytes + s.room ≤ vec_capacity s.bytes };
}

impl MemSink {
    ghost use Rattle.std.specs.Prelude.{◌≡◌, ◌+◌, ◌≤◌, [], Contains, IfOk};

    /// An empty sink with room for so many bytes, for which it takes memory at once. Its calls with
    /// these numbers fail or take nothing; one that is in both lists fails.
    pub fn new(
        alloc: Global,
        room: usize,
        fails: Vec<u64>,
        nothing: Vec<u64>,
    ) -> Result<MemSink, AllocError>
        ensures { IfOk result (λ sink. sink ≡ record {
          written = [];
          room = room;
          fails = fails.items;
          nothing = nothing.items;
          calls = 0;
          faults = 0;
          empties = 0;
        }) }
    {
        Ok(MemSink {
            bytes: Vec::with_capacity(alloc, room)?,
            room,
            fails,
            nothing,
            calls: Count::NONE,
            faults: Count::NONE,
            empties: Count::NONE,
        })
    }

    /// What was written so far.
    pub fn written(&self) -> &[u8]
        ensures { result.now ≡ self.now.written }
    {
        &self.bytes
    }

    /// How many bytes the next call has room for: none if it is to take nothing.
    fn next_room(&self) -> usize
        ensures nothing { Contains self.now.nothing (self.now.calls + 1) → result ≡ 0 }
        ensures room { ¬ Contains self.now.nothing (self.now.calls + 1) → result ≡ self.now.room }
        ensures within { result ≤ self.now.room }
    {
        if is_next_among(&self.nothing, self.calls) {
            0
        } else {
            self.room
        }
    }
}

impl Sink for MemSink {
    ghost use Rattle.std.specs.Prelude.{◌≡◌, ◌+◌, ◌≤◌, ◌↔◌, Some, length, min, Contains, IsErr, IfOk, MatchResult};
    ghost use Rattle.iot_io.specs.MemSink.{after_write, after_failed_write};

    ghost written = { λ s. Some s.written };

    ghost faults = { λ s. s.faults };

    ghost empties = { λ s. s.empties };

    fn write(&mut self, piece: &[u8]) -> Result<usize, Failed>
        ensures fails { IsErr result ↔ Contains self.old.fails (self.old.calls + 1) }
        ensures nothing { Contains self.old.nothing (self.old.calls + 1) → IfOk result (λ n. n ≡ 0) }
        ensures most { ¬ Contains self.old.nothing (self.old.calls + 1)
            → IfOk result (λ n. n ≡ min (length piece.now) self.old.room) }
        ensures after { MatchResult result
            (λ n. self.new ≡ after_write n piece.now self.old)
            (λ _. self.new ≡ after_failed_write self.old) }
        ensures never_falls { self.old.faults ≤ self.new.faults }
        ensures empties_never_fall { self.old.empties ≤ self.new.empties }
    {
        let fails = is_next_among(&self.fails, self.calls);
        let room = self.next_room();
        self.calls.rise();
        if fails {
            self.faults.rise();
            return Err(Failed);
        }
        let count = piece.len().min(room);
        self.bytes.extend_from_slice(&piece[..count]).unwrap();
        self.room -= count;
        if count == 0 && !piece.is_empty() {
            self.empties.rise();
        }
        Ok(count)
    }
}
