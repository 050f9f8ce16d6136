// A sink in memory.
use crate::{NoMemory, Sink, SinkFailed};
use std::alloc::Global;
use std::marker::Model;

/// Takes bytes as far as there is room, and fails at chosen calls.
#[derive(Debug, Drop)]
pub struct MemSink {
    bytes: Vec<u8>,
    room: usize,
    failing: Vec<u64>,
    calls: u64,
    faults: u64,
}

impl Model for MemSink {
    ghost use Rattle.std.specs.Prelude.{◌≡◌, ◌≤◌, vec_len, vec_capacity};
    ghost use Rattle.gs_types.specs.Sink.{MemSinkState};

    ghost Value = { MemSinkState };

    ghost view = { λ s. record {
      bytes = s.bytes.items;
      room = s.room;
      failing = s.failing.items;
      calls = s.calls;
      faults = s.faults;
    } };

    ghost invariant = { λ s. (s.room ≤ vec_capacity s.bytes) × (vec_len s.bytes ≤ s.room) };
}

impl MemSink {
    ghost use Rattle.std.specs.Prelude.{◌≡◌, [], IfOk};

    /// An empty sink with room for `room` bytes, which fails at the listed calls, counted from 1.
    pub fn new(alloc: Global, room: usize, failing: Vec<u64>) -> Result<MemSink, NoMemory>
        ensures { IfOk result (λ s. s
            ≡ record { bytes = []; room = room; failing = failing.items; calls = 0; faults = 0 }) }
    {
        Ok(MemSink {
            bytes: Vec::with_capacity(alloc, room)?,
            room,
            failing,
            calls: 0,
            faults: 0,
        })
    }

    /// What was written.
    pub fn bytes(&self) -> &[u8]
        ensures { result.now ≡ self.now.bytes }
    {
        self.bytes.as_slice()
    }
}

impl Sink for MemSink {
    ghost use Rattle.std.specs.Prelude.{◌≡◌, ◌+◌, ◌-◌, ◌^◌, ◌<◌, ◌≤◌, ⊤, length, min, take, ◌++◌, is_err, IfOk, IsErr};
    ghost use Rattle.gs_types.specs.Counts.{Caused};
    ghost use Rattle.gs_types.specs.Sink.{after_write, is_refused};

    ghost tells = { ⊤ };

    ghost written = { λ s. s.bytes };

    ghost faults = { λ s. s.faults };

    /// Writes as much of the piece as there is room for.
    fn write(&mut self, bytes: &[u8]) -> Result<usize, SinkFailed>
        ensures part { IfOk result (λ n. (n ≤ length bytes.now) × (0 < length bytes.now → 0 < n)) }
        ensures written { ⊤ → self.new.bytes ≡ after_write self.old.bytes bytes.now result }
        ensures cause { Caused (IsErr result) self.old.faults self.new.faults }
        ensures refused { is_err result ≡ is_refused self.old bytes.now }
        ensures amount { IfOk result
            (λ n. (n ≡ min (length bytes.now) (self.old.room - length self.old.bytes))
            × (self.new.faults ≡ self.old.faults)) }
        ensures state { (self.new.room ≡ self.old.room) × (self.new.failing ≡ self.old.failing)
            × (self.new.calls ≡ min (self.old.calls + 1) (2 ^ 64 - 1)) }
    {
        let number = self.calls.saturating_add(1);
        self.calls = number;
        let left = self.room - self.bytes.len();
        if self.failing.contains(&number) || (left == 0 && !bytes.is_empty()) {
            self.faults = self.faults.saturating_add(1);
            return Err(SinkFailed);
        }
        let n = left.min(bytes.len());
        match self.bytes.extend_from_slice(&bytes[..n]) {
            Ok(()) => Ok(n),
            Err(_) => unreachable!(),
        }
    }
}
