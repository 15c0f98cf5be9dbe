//! A segment shut by a work party, and opened again.
ghost use Rattle.taxi_text.specs.declared.command.Command.TheVariants.{Work, WorkDone};
ghost use Rattle.replies.specs.Printable.{IsName};
ghost use Rattle.taxi_engine.specs.Done.{IsDoneAsDue, IsDoneOrMemory};

use crate::Engine;
use crate::texts::shut_text;
use block_writer::cancelled_text;
use command_refusals::check_work;
use taxi_base::{Name, Refusal};
use taxi_text::Shut;

impl Engine {
    /// Lets a work party shut a segment for a time, or refuses it.
    pub(crate) fn shut(&mut self, shut: &Shut)
        requires { IsName shut.now.name }
        ensures { IsDoneOrMemory (Work shut.now) self.old self.new }
    {
        match check_work(&self.airport, &mut self.ledger, shut) {
            Ok(party) => {
                self.reply.set_short(shut_text(&party));
                self.ledger.place(&self.airport, party);
            }
            Err(why) => self.refuse(&why),
        }
    }

    /// Takes the work party of a name out, so that its segment is open again, or tells that none has it. It needs no memory.
    pub(crate) fn open_again(&mut self, name: &Name)
        ensures { IsDoneAsDue (WorkDone name.now) self.old self.new }
    {
        if self.ledger.party(name).is_none() {
            self.refuse(&Refusal::NotInForce);
            return;
        }
        self.reply.set_short(cancelled_text(name));
        self.ledger.remove(&self.airport, name);
    }
}
