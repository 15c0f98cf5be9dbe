//! Who answers the lines of a run.
ghost use Rattle.std.specs.Prelude.{◌≡◌, ℕ, List};
ghost use Rattle.taxi_base.specs.Airport.{Airport};
ghost use Rattle.taxi_base.specs.State.{State};
ghost use Rattle.transcripts.specs.Turns.{IsReplyText};

/// Who answers command lines over an airport, one after the other, each in the state that those before it left.
pub trait Router {
    /// The airport, which stays.
    ghost airport: { Self → Airport };

    /// The flights and work parties in force.
    ghost state: { Self → State };

    /// The text of the reply to the last line.
    ghost replied: { Self → List ℕ };

    /// Answers a line by a block, whose text is the reply.
    fn answer(&mut self, line: &[u8])
        ensures airport { airport self.new ≡ airport self.old }
        ensures answered { IsReplyText (airport self.old) (state self.old) line.now (replied self.new) (state self.new) };

    /// The text of the reply to the last line.
    fn reply(&self) -> &[u8]
        ensures { result.now ≡ replied self.now };
}
