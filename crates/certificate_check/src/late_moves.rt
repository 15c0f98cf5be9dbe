//! Flights that go out of force and come in while turns are taken, and the windows beside them. The state need not be sound.
ghost use Rattle.std.specs.Prelude.{◌≡◌, All, OnOk, IsTrue, None};
ghost use Rattle.taxi_base.specs.Airport.{layout_of, arc_exists};
ghost use Rattle.taxi_base.specs.State.{flight_named, party_named, with_flight, without};
ghost use Rattle.checked_state.specs.Flights.{state_of};
ghost use Rattle.certificate_check.specs.Desk.{CanGoOn, IsTidy};

use airport_file::Airport;
use check_rows::KnownWindows;
use checked_state::HeldFlights;
use taxi_base::{Flight, Memory, Name};

/// Takes the flight of a name out of force, if there is one, and gives the known windows what no other holds.
pub fn take_out(airport: &Airport, held: &mut HeldFlights, known: &mut KnownWindows, name: &Name)
    requires alone { party_named name.now (state_of held.old).parties ≡ None }
    requires tidy { IsTidy airport.now held.old known.old }
    ensures state { state_of held.new ≡ without name.now (state_of held.old) }
    ensures parties { (state_of held.new).parties ≡ (state_of held.old).parties }
    ensures tidy { IsTidy airport.now held.new known.new }
{
    if held.flight(name).is_none() {
        return;
    }
    let gone = held.take_out(airport, name);
    let clearance = airport.clearance(gone.class);
    known.give_back(airport, held.spans(), clearance, gone.steps.as_slice());
}

/// Puts a flight in force, and cuts what it holds out of the windows that are known.
pub fn put_in(
    airport: &Airport,
    held: &mut HeldFlights,
    known: &mut KnownWindows,
    flight: Flight,
) -> Result<(), Memory>
    requires arcs { All (λ step. IsTrue (arc_exists (layout_of airport.now) step.arc)) flight.steps }
    requires goes_on { CanGoOn airport.now flight.request }
    requires absent { flight_named flight.name (state_of held.old).flights ≡ None }
    requires tidy { IsTidy airport.now held.old known.old }
    ensures state { OnOk result (state_of held.new ≡ with_flight flight (state_of held.old)) }
    ensures tidy { OnOk result (IsTidy airport.now held.new known.new) }
{
    let clearance = airport.clearance(flight.class);
    known.cut(airport, clearance, flight.steps.as_slice());
    held.put_in(airport, flight)
}
