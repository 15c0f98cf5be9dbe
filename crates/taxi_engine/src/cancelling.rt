//! A flight taken out of force.
ghost use Rattle.taxi_text.specs.declared.command.Command.TheVariants.{Cancel};
ghost use Rattle.taxi_engine.specs.Done.{IsDoneAsDue};

use crate::Engine;
use block_writer::cancelled_text;
use taxi_base::{Name, Refusal};

impl Engine {
    /// Takes the flight of a name out of force, or tells that it isn't. It needs no memory.
    pub(crate) fn cancel(&mut self, flight: &Name)
        ensures { IsDoneAsDue (Cancel flight.now) self.old self.new }
    {
        if self.ledger.cancel(&self.airport, flight).is_none() {
            self.refuse(&Refusal::NotInForce);
            return;
        }
        self.reply.set_short(cancelled_text(flight));
    }
}
