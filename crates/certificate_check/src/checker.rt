//! The checker of one block after the other.
ghost use Rattle.std.specs.Prelude.{◌≡◌, IfOk};
ghost use Rattle.taxi_base.specs.State.{no_holder};
ghost use Rattle.certificate_check.specs.Checker.{Checks};

use crate::CheckRefused;
use crate::line::check_line;
use airport_file::Airport;
use check_rows::KnownWindows;
use checked_state::HeldFlights;
use replies::Block;
use std::alloc::Global;
use std::marker::Model;
use taxi_base::Memory;

/// Checks the blocks of a transcript over an airport, one after the other, each in the state that those before it leave. The
/// state is always sound.
#[derive(Drop)]
pub struct Checker<'a> {
    alloc: Global,
    airport: &'a Airport,
    held: HeldFlights,
    known: KnownWindows,
}

impl<'a> Model for Checker<'a> {
    ghost use Rattle.certificate_check.specs.Checker.{CheckerState};
    ghost use Rattle.checked_state.specs.Flights.{state_of};
    ghost use Rattle.certificate_check.specs.Desk.{IsReady};

    ghost Value = { CheckerState };

    ghost view = { λ c. record { airport = c.airport.now; state = state_of c.held } };

    ghost invariant = { λ c. IsReady c.airport.now c.held c.known };
}

impl<'a> Checker<'a> {
    /// A checker over an airport, with no holder.
    pub fn new(alloc: Global, airport: &'a Airport) -> Result<Checker<'a>, Memory>
        ensures { IfOk result (λ checker. checker ≡ record { airport = airport.now; state = no_holder }) }
    {
        let held = HeldFlights::new(alloc, airport)?;
        let known = KnownWindows::new(alloc, airport)?;
        Ok(Checker {
            alloc,
            airport,
            held,
            known,
        })
    }

    /// Checks the block that answers a line: whether it is the one that is due in this state. Where it passes, the state is that
    /// afterwards. Else it stays as it was, and the first rule that the block breaks is told.
    ///
    /// Any line may be given, and any block, in the order in which a run has them. `Memory` comes where no room can be made.
    ///
    /// Say that F1 alone is in force. Then `cancelled F1` passes for the line `cancel F1`, and no flight is in force any more. Told
    /// once again it breaks the rule `reply`, since `refused not-in-force` is due then.
    pub fn check_next(&mut self, line: &[u8], block: Block) -> Result<(), CheckRefused>
        ensures { Checks line.now block self.old result self.new }
    {
        let (held, known) = (&mut self.held, &mut self.known);
        check_line(self.alloc, self.airport, held, known, line, block)
    }
}
