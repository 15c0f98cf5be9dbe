//! A sink that keeps what it takes, and whose writes never fail.
ghost use Rattle.std.specs.Prelude.{◌≡◌, ◌≤◌, ◌<◌, ◌++◌, ◌∷◌, [], min, length, take, IfOk, OnErr, IsErrOf};

use crate::memory_sink::MemorySink;
use crate::sink::Sink;
use crate::trouble::Trouble;
use std::alloc::Global;
use std::marker::Model;

/// A sink in memory, which takes so many bytes in a write at most. A write ends well, or for want
/// of memory.
#[derive(Drop)]
pub struct SteadySink {
    sink: MemorySink,
}

impl Model for SteadySink {
    ghost use Rattle.std.specs.Prelude.{◌≡◌, []};
    ghost use Rattle.taxi_io.specs.SteadyOutput.{SteadyOutput};

    ghost Value = { SteadyOutput };

    ghost view = { λ s. record { written = s.sink.written; piece = s.sink.piece; pieces = s.sink.pieces } };

    ghost invariant = { λ s. s.sink.failing ≡ [] };
}

impl SteadySink {
    /// A sink that has taken nothing.
    pub fn new(alloc: Global, piece: usize) -> SteadySink
        requires { 1 ≤ piece }
        ensures { result ≡ record { written = []; piece = piece; pieces = [] } }
    {
        SteadySink {
            sink: MemorySink::new(alloc, piece, Vec::new(alloc)),
        }
    }

    /// The bytes taken so far.
    pub fn written(&self) -> &[u8]
        ensures { result.now ≡ self.now.written }
    {
        self.sink.written()
    }
}

impl Sink for SteadySink {
    ghost use Rattle.std.specs.Prelude.{Some};

    ghost written = { λ s. record { bytes = Some s.written; pieces = s.pieces } };

    ghost faults = { λ s. 0 };

    fn write(&mut self, piece: &[u8]) -> Result<usize, Trouble>
        requires { 0 < length piece.now }
        ensures some { IfOk result (λ n. 0 < n) }
        ensures count { IfOk result (λ n. n ≡ min self.old.piece (length piece.now)) }
        ensures ok { IfOk result (λ n. self.new ≡ record self.old { written = self.old.written ++ take n piece.now; pieces = self.old.pieces ++ piece.now ∷ [] }) }
        ensures refused { OnErr result (self.new ≡ record self.old { pieces = self.old.pieces ++ piece.now ∷ [] }) }
        ensures failed { ¬ IsErrOf result Trouble.Failed }
    {
        self.sink.write(piece)
    }
}
