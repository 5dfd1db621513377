//! A sink whose bytes are in memory. It fails at the calls that are set to fail.
ghost use Rattle.std.specs.Prelude.{◌≡◌, ◌<◌, ◌≤◌, ◌↔◌, ℕ, List, Some, length, take, IfOk, IsTrue, OnErr, IsErr};
ghost use Rattle.lsl_ports.specs.Counts.{Rose, raised};
ghost use Rattle.lsl_ports.specs.Growth.{Grew};
ghost use Rattle.lsl_ports.specs.Stored.{SinkState, after_write, fails_next, new_sink, refuses, taken_of};

use crate::{Failed, Sink};
use std::alloc::{AllocError, Global};
use std::marker::Model;

/// A sink in memory, which reports what it took. Calls are counted from 1, also one with an empty piece.
///
/// The calls whose numbers it was given fail. Its count of faults rises at these calls, and at a piece that isn't empty
/// when the sink is full. Otherwise it takes as much as fits, up to the most that one call takes.
#[derive(Drop)]
pub struct MemorySink {
    taken: Vec<u8>,
    room: usize,
    most: usize,
    failing: Vec<u64>,
    calls: u64,
    faults: u64,
}

impl Model for MemorySink {
    ghost use Rattle.std.specs.Prelude.{◌<◌, ◌≤◌, vec_len, vec_capacity};
    ghost use Rattle.lsl_ports.specs.Stored.{SinkState};

    ghost Value = { SinkState };

    ghost view = { λ s. record {
      taken = s.taken.items;
      room = s.room;
      most = s.most;
      failing = s.failing.items;
      calls =
          s.calls;
      faults = s.faults;
    } };

    ghost invariant = { λ s. (0 < s.most) × ((vec_len s.taken ≤ s.room) × (s.room ≤ vec_capacity s.taken)) };
}

impl MemorySink {
    /// A sink with room for that many bytes, whose calls with the numbers in `failing` fail, and which takes as much
    /// as fits in one call. It takes the memory for its room, and none afterwards.
    pub fn new(alloc: Global, room: usize, failing: Vec<u64>) -> Result<MemorySink, AllocError>
        ensures { IfOk result (λ sink. sink ≡ new_sink room 18446744073709551615 failing.items) }
    {
        MemorySink::with_most(alloc, room, usize::MAX, failing)
    }

    /// A sink with room for `room` bytes, whose calls with the numbers in `failing` fail, and which takes at most
    /// `most` bytes in one call. `most` is at least 1. It takes the memory for its room, and none afterwards.
    pub fn with_most(
        alloc: Global,
        room: usize,
        most: usize,
        failing: Vec<u64>,
    ) -> Result<MemorySink, AllocError>
        requires { 0 < most }
        ensures { IfOk result (λ sink. sink ≡ new_sink room most failing.items) }
    {
        Ok(MemorySink {
            taken: Vec::with_capacity(alloc, room)?,
            room,
            most,
            failing,
            calls: 0,
            faults: 0,
        })
    }

    /// All bytes that were taken.
    pub fn as_bytes(&self) -> &[u8]
        ensures { result.now ≡ self.now.taken }
    {
        self.taken.as_slice()
    }

    /// How many calls failed.
    pub fn fault_count(&self) -> u64
        ensures { result ≡ self.now.faults }
    {
        self.faults
    }
}

impl Sink for MemorySink {
    ghost sunk = { λ s. Some s.taken };

    ghost faults = { λ s. s.faults };

    fn write(&mut self, piece: &[u8]) -> Result<usize, Failed>
        ensures within { IfOk result (λ count. count ≤ length piece.now) }
        ensures some { IfOk result (λ count. 0 < length piece.now → 0 < count) }
        ensures ok { IfOk result (λ count. Grew (Some self.old.taken) (Some self.new.taken) (take count piece.now)) }
        ensures unchanged { OnErr result (Some self.new.taken ≡ Some self.old.taken) }
        ensures err { OnErr result (Rose self.old.faults self.new.faults) }
        ensures counted { self.old.faults ≤ self.new.faults }
        ensures fails { IsErr result ↔ IsTrue (refuses self.old piece.now) }
        ensures after { self.new ≡ after_write self.old piece.now }
    {
        self.calls = self.calls.saturating_add(1);
        let left = self.room - self.taken.len();
        if self.failing.contains(&self.calls) || left == 0 && !piece.is_empty() {
            self.faults = self.faults.saturating_add(1);
            return Err(Failed);
        }
        let count = piece.len().min(self.most.min(left));
        self.taken.extend_from_slice(&piece[..count]).unwrap();
        Ok(count)
    }
}
