//! A route given by hand: its flight goes in force, or it is refused.
ghost use Rattle.std.specs.Prelude.{◌≤◌, length};
ghost use Rattle.taxi_text.specs.declared.command.Command.TheVariants.{File};
ghost use Rattle.replies.specs.Printable.{IsName};
ghost use Rattle.taxi_engine.specs.Done.{IsDoneOrMemory};

use crate::Engine;
use crate::texts::filed_text;
use command_refusals::check_filed;
use taxi_text::Filed;

impl Engine {
    /// Files a route given by hand, or refuses it.
    pub(crate) fn file(&mut self, filed: &Filed)
        requires name { IsName filed.now.flight }
        requires few { length filed.now.steps ≤ 256 }
        requires some { 1 ≤ length filed.now.steps }
        ensures { IsDoneOrMemory (File filed.now) self.old self.new }
    {
        match check_filed(self.alloc, &self.airport, &mut self.ledger, filed) {
            Ok(flight) => {
                self.reply.set_short(filed_text(&flight));
                self.ledger.commit(&self.airport, flight);
            }
            Err(why) => self.refuse(&why),
        }
    }
}
