//! A writer of the machine as a sink, as standard output is one. It tells nothing of the bytes that it took.
ghost use Rattle.std.specs.Prelude.{◌≡◌, ◌≤◌, ◌<◌, ◌++◌, ◌∷◌, [], length, take, is_err, IfOk};
ghost use Rattle.std.specs.Io.KnownBytes.{Appends};
ghost use Rattle.taxi_io.specs.Calls.{faults_after};
ghost use Rattle.taxi_io.specs.Troubles.{settled};

use crate::history::History;
use crate::sink::Sink;
use crate::trouble::Trouble;
use std::io;
use std::io::Write;
use std::marker::Model;

/// A writer, flushed after each write: standard output, as `io::writer(&rt)` gives it. Each write that fails counts as a
/// fault: one for want of memory, one that took nothing, and one whose flush failed among them.
#[derive(Drop)]
pub struct OutputSink<W: Write + Drop> {
    out: W,
    faults: u64,
    pieces: History,
}

impl<W: Write + Drop> Model for OutputSink<W> {
    ghost use Rattle.taxi_io.specs.SinkOfMachine.{SinkOfMachine};

    ghost Value = { SinkOfMachine };

    ghost view = { λ s. record { held = W.contents s.out; faults = s.faults; pieces = s.pieces.items } };
}

impl<W: Write + Drop> OutputSink<W> {
    /// This writer, with no fault counted.
    pub fn new(out: W) -> OutputSink<W>
        ensures { result ≡ record { held = W.contents out; faults = 0; pieces = [] } }
    {
        OutputSink {
            out,
            faults: 0,
            pieces: History::new(),
        }
    }
}

// The answer to what the machine said of a write and of the flush after it. A write that took
// nothing has failed, and so has one whose flush failed.
fn settled(written: io::Result<usize>, flushed: io::Result<()>) -> Result<usize, Trouble>
    ensures { result ≡ settled written flushed }
{
    match written {
        Ok(0) => Err(Trouble::Failed),
        Ok(count) => match flushed {
            Ok(()) => Ok(count),
            Err(error) => Err(Trouble::from(error)),
        },
        Err(error) => Err(Trouble::from(error)),
    }
}

impl<W: Write + Drop> Sink for OutputSink<W> {
    ghost use Rattle.std.specs.Prelude.{None};

    ghost written = { λ s. record { bytes = None; pieces = s.pieces } };

    ghost faults = { λ s. s.faults };

    fn write(&mut self, piece: &[u8]) -> Result<usize, Trouble>
        ensures some { IfOk result (λ n. 0 < n) }
        ensures bound { IfOk result (λ n. n ≤ length piece.now) }
        // What the writer is known to hold grows by what counts as written.
        ensures held { IfOk result (λ n. Appends self.old.held self.new.held (take n piece.now)) }
        ensures handed { self.new.pieces ≡ self.old.pieces ++ piece.now ∷ [] }
        ensures faults { self.new.faults ≡ faults_after (is_err result) self.old.faults }
        ensures later { self.old.faults ≤ self.new.faults }
    {
        self.pieces = self.pieces.then(&piece);
        let written = self.out.write(piece);
        let flushed = self.out.flush();
        let outcome = settled(written, flushed);
        if outcome.is_err() {
            self.faults = self.faults.saturating_add(1);
        }
        outcome
    }
}
