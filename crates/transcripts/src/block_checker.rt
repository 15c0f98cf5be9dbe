//! Who checks the blocks of a transcript.
ghost use Rattle.std.specs.Prelude.{◌≡◌};
ghost use Rattle.taxi_base.specs.Airport.{Airport};
ghost use Rattle.taxi_base.specs.State.{State};
ghost use Rattle.transcripts.specs.Turns.{ChecksIn};

use crate::refused::CheckRefused;
use replies::Block;

/// Who checks blocks over an airport, one after the other, each in the state that those before it left.
pub trait BlockChecker {
    /// The airport, which stays.
    ghost airport: { Self → Airport };

    /// The flights and work parties in force.
    ghost state: { Self → State };

    /// Checks the block that answers a line. Where it passes the state is that afterwards; else it stays as it was.
    fn check_next(&mut self, line: &[u8], block: Block) -> Result<(), CheckRefused>
        ensures airport { airport self.new ≡ airport self.old }
        ensures checked { ChecksIn (airport self.old) line.now block (state self.old) result (state self.new) };
}
