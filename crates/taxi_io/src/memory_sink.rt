//! A sink that keeps what it takes.
ghost use Rattle.std.specs.Prelude.{◌≡◌, ◌≤◌, ◌<◌, ◌++◌, ◌↔◌, [], min, length, take, IfOk, OnErr, IsErrOf, IsTrue};
ghost use Rattle.taxi_io.specs.SinkInMemory.{fails_next, after_write};

use crate::history::History;
use crate::planned_faults::PlannedFaults;
use crate::sink::Sink;
use crate::trouble::Trouble;
use std::alloc::Global;
use std::marker::Model;

/// A sink in memory, which takes so many bytes in a write at most, and fails the writes that it is told to fail.
#[derive(Drop)]
pub struct MemorySink {
    written: Vec<u8>,
    piece: usize,
    plan: PlannedFaults,
    pieces: History,
}

impl Model for MemorySink {
    ghost use Rattle.std.specs.Prelude.{◌≤◌};
    ghost use Rattle.taxi_io.specs.SinkInMemory.{SinkInMemory};

    ghost Value = { SinkInMemory };

    ghost view = { λ s. record {
      written = s.written.items;
      piece = s.piece;
      failing = s.plan.failing.items;
      calls = s.plan.calls;
      faults = s.plan.faults;
      pieces = s.pieces.items;
    } };

    ghost invariant = { λ s. 1 ≤ s.piece };
}

impl MemorySink {
    /// A sink that has taken nothing. The writes whose numbers, from 1, are in `failing` will fail.
    pub fn new(alloc: Global, piece: usize, failing: Vec<u32>) -> MemorySink
        requires { 1 ≤ piece }
        ensures { result ≡ record {
          written = [];
          piece = piece;
          failing = failing.items;
          calls = 0;
          faults = 0;
          pieces = [];
        } }
    {
        MemorySink {
            written: Vec::new(alloc),
            piece,
            plan: PlannedFaults::new(failing),
            pieces: History::new(),
        }
    }

    /// The bytes taken so far.
    pub fn written(&self) -> &[u8]
        ensures { result.now ≡ self.now.written }
    {
        self.written.as_slice()
    }
}

impl Sink for MemorySink {
    ghost use Rattle.std.specs.Prelude.{Some};

    ghost written = { λ s. record { bytes = Some s.written; pieces = s.pieces } };

    ghost faults = { λ s. s.faults };

    fn write(&mut self, piece: &[u8]) -> Result<usize, Trouble>
        requires { 0 < length piece.now }
        ensures some { IfOk result (λ n. 0 < n) }
        ensures count { IfOk result (λ n. n ≡ min self.old.piece (length piece.now)) }
        ensures ok { IfOk result (λ n. self.new ≡ after_write self.old piece.now (self.old.written ++ take n piece.now)) }
        ensures refused { OnErr result (self.new ≡ after_write self.old piece.now self.old.written) }
        ensures failed { IsErrOf result Trouble.Failed ↔ IsTrue (fails_next self.old) }
        ensures later { self.old.faults ≤ self.new.faults }
    {
        self.pieces = self.pieces.then(&piece);
        if self.plan.call_fails() {
            return Err(Trouble::Failed);
        }
        let count = self.piece.min(piece.len());
        self.written.extend_from_slice(&piece[..count])?;
        Ok(count)
    }
}
