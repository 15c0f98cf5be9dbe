//! Why a flight in force is not said to be late.
ghost use Rattle.std.specs.Prelude.{◌≡◌};
ghost use Rattle.taxi_base.specs.State.{IsSound};
ghost use Rattle.taxi_text.specs.declared.command.Command.TheVariants as command;
ghost use Rattle.replies.specs.Refusals.{first_refusal};
ghost use Rattle.checked_state.specs.Flights.{state_of};

use airport_file::Airport;
use checked_state::HeldFlights;
use replies::delay_refused;
use taxi_base::{Name, Refusal, Time};

/// Why the flight of a name is not said to stay on its step at a time until a second; none where it may be.
pub fn late_refused(
    airport: &Airport,
    held: &HeldFlights,
    name: &Name,
    time: Time,
    until: Time,
) -> Option<Refusal>
    requires sound { IsSound airport.now (state_of held.now) }
    ensures { result ≡ first_refusal airport.now (state_of held.now) (command.Late name.now time until) }
{
    let Some(flight) = held.flight(name) else {
        return Some(Refusal::NotInForce);
    };
    delay_refused(airport, flight, time, until)
}
