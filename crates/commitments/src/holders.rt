//! Who holds segments: the work parties and the flights, and all of them as routes.
ghost use Rattle.std.specs.Prelude.{◌≡◌, ◌+◌, ◌<◌, Some, length, slice_get, IfOk};
ghost use Rattle.taxi_base.specs.Airport.{Airport as AirportRow};
ghost use Rattle.taxi_base.specs.State.{no_holder};
ghost use Rattle.commitments.specs.Book.{routes_of};
ghost use Rattle.commitments.specs.Held.{clearance_after, steps_with, steps_of_each};
ghost use Rattle.commitments.specs.Holders.{state_of};

use crate::segment_holds::Holder;
use holder_lists::{FlightList, PartyList};
use std::alloc::Global;
use taxi_base::{Memory, Step};

/// The flights and the work parties in force. As routes they are numbered together, the parties first.
#[derive(Drop)]
pub(crate) struct Holders {
    pub(crate) flights: FlightList,
    pub(crate) parties: PartyList,
}

impl Holders {
    /// No flight and no party.
    pub(crate) fn new(alloc: Global) -> Result<Holders, Memory>
        ensures { IfOk result (λ h. state_of h ≡ no_holder) }
    {
        Ok(Holders {
            flights: FlightList::new(alloc)?,
            parties: PartyList::new(alloc),
        })
    }

    /// The steps of the holder of a number, and who it is.
    pub(crate) fn route(&self, number: usize) -> (&[Step], Holder)
        requires { number < length self.now.parties.parties + length self.now.flights.flights }
        ensures steps { slice_get (steps_of_each (state_of self.now)) number ≡ Some (steps_with result.1 result.0.now) }
        ensures route { (airport : AirportRow) → slice_get (routes_of airport (state_of self.now)) number ≡ Some (record { steps = result.0.now; clearance = clearance_after airport result.1 }) }
    {
        let parties = self.parties.count();
        if number < parties {
            let party = self.parties.at(number);
            (self.parties.steps(number), Holder::of_party(&party))
        } else {
            let flight = self.flights.at(number - parties);
            (flight.steps.as_slice(), Holder::of_flight(flight))
        }
    }
}
