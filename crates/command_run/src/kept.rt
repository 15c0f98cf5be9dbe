//! A run over the commands of a text, of whose blocks something is kept.
ghost use Rattle.std.specs.Prelude.{◌≡◌, ◌<◌, ◌^◌, [], List, length, OnOk};
ghost use Rattle.taxi_base.specs.Airport.{Airport};
ghost use Rattle.taxi_base.specs.State.{State, no_holder};
ghost use Rattle.taxi_text.specs.Lines.{commands_of};
ghost use Rattle.replies.specs.declared.block.Block.{Block};
ghost use Rattle.command_run.specs.Supplied.{IsKept, IsKeptRun};

use taxi_base::Memory;
use taxi_text::{lines, skipped};

/// Who answers command lines over an airport, one after the other, and keeps something of the blocks.
pub trait Keeper {
    /// The airport, which stays.
    ghost airport: { Self → Airport };

    /// The flights and work parties in force.
    ghost state: { Self → State };

    /// What is kept is what is to be kept of these blocks.
    ghost Kept: { Self → List Block → Type 0 };

    /// Answers a line by a block, and keeps something of it. The only error is that memory ran out, for the command too.
    fn answer_and_keep(&mut self, line: &[u8]) -> Result<(), Memory>
        requires few { (blocks : List Block) × Kept self.old blocks × (length blocks < 2 ^ 30) }
        ensures airport { airport self.new ≡ airport self.old }
        ensures kept { OnOk result (IsKept (airport self.old) (state self.old) line.now (state self.new) (Kept self.old) (Kept self.new)) };
}

/// Has a keeper answer each command of a text at its airport, from no flight in force. The only error is that memory ran out, for a
/// command too.
pub fn run_kept<K: Keeper>(keeper: &mut K, commands: &[u8]) -> Result<(), Memory>
    requires fresh { K.state keeper.old ≡ no_holder }
    requires none { K.Kept keeper.old [] }
    requires few { length commands.now < 2 ^ 29 }
    ensures run { OnOk result (IsKeptRun (K.airport keeper.old) (commands_of commands.now) (K.state keeper.new) (K.Kept keeper.new)) }
    ensures airport { K.airport keeper.new ≡ K.airport keeper.old }
{
    for line in lines(commands) {
        if !skipped(line) {
            keeper.answer_and_keep(line)?;
        }
    }
    Ok(())
}
