//! Output that takes bytes a piece at a time.
ghost use Rattle.std.specs.Prelude.{◌≡◌, ◌<◌, ◌≤◌, ◌∷◌, ◌++◌, [], ℕ, length, take, IfOk, OnErr, IsErrOf};
ghost use Rattle.taxi_io.specs.Counts.{Rose};
ghost use Rattle.taxi_io.specs.Written.{Output, Grew};

use crate::trouble::Trouble;

/// What takes bytes in order.
pub trait Sink {
    /// The bytes taken so far, where they are told, and the pieces that were handed over.
    ghost written: { Self → Output };

    /// How often a call has failed.
    ghost faults: { Self → ℕ };

    /// Takes some bytes from the front of the piece, at least one, and says how many.
    fn write(&mut self, piece: &[u8]) -> Result<usize, Trouble>
        requires { 0 < length piece.now }
        ensures some { IfOk result (λ n. 0 < n) }
        ensures bound { IfOk result (λ n. n ≤ length piece.now) }
        ensures grew { IfOk result (λ n. Grew (written self.old) (written self.new) (take n piece.now)) }
        ensures kept { OnErr result ((written self.new).bytes ≡ (written self.old).bytes) }
        ensures handed { (written self.new).pieces ≡ (written self.old).pieces ++ piece.now ∷ [] }
        ensures failed { IsErrOf result Trouble.Failed → Rose (faults self.old) (faults self.new) }
        ensures later { faults self.old ≤ faults self.new };
}
