//! The flights in force by rising names, and the spans that are held.
ghost use Rattle.std.specs.Prelude.{◌≡◌, ◌<◌, [], None, All, AllPairs, IsTrue, IsSome, IfOk, IfSome, OnOk, OnErr, length, option_copied};
ghost use Rattle.taxi_base.specs.Airport.{arc_exists, layout_of};
ghost use Rattle.taxi_base.specs.State.{no_holder, flight_named, party_named, has_holder, with_flight, without, with_route, holder_count, holds_in};
ghost use Rattle.checked_state.specs.Flights.{flights_of, state_of, HasSpansOf, HasRoomAgain};

use crate::FlightList;
use crate::party_list::PartyList;
use airport_file::Airport;
use held_spans::HeldSpans;
use std::alloc::Global;
use taxi_base::{Flight, List, Memory, Name, Request, Step};

/// The flights in force and the work parties, each by rising names, and beside them the spans for which segments are held. The
/// spans of one flight may be taken out for a while.
#[derive(Drop)]
pub struct HeldFlights {
    pub(crate) flights: FlightList,
    pub(crate) parties: PartyList,
    pub(crate) spans: HeldSpans,
}

impl HeldFlights {
    /// No flight and no party over an airport.
    pub fn new(alloc: Global, airport: &Airport) -> Result<HeldFlights, Memory>
        ensures none { IfOk result (λ held. state_of held ≡ no_holder) }
        ensures spans { IfOk result (HasSpansOf airport.now no_holder) }
    {
        let flights = FlightList::new(alloc);
        let parties = PartyList::new(alloc);
        let spans = HeldSpans::new(alloc, airport.graph().segments())?;
        Ok(HeldFlights {
            flights,
            parties,
            spans,
        })
    }

    /// How many flights and parties are in force.
    pub fn count(&self) -> usize
        ensures { result ≡ holder_count (state_of self.now) }
    {
        self.parties().len() + self.flights.len()
    }

    /// Whether a flight or a party has a name.
    pub fn has_holder(&self, name: &Name) -> bool
        ensures { result ≡ has_holder name.now (state_of self.now) }
    {
        self.party(name).is_some() || self.flight(name).is_some()
    }

    /// The flights, by rising names.
    pub fn flights(&self) -> &FlightList
        ensures { flights_of result.now ≡ (state_of self.now).flights }
    {
        &self.flights
    }

    /// The spans for which segments are held.
    pub fn spans(&self) -> &HeldSpans
        ensures { result.now ≡ self.now.spans }
    {
        &self.spans
    }

    /// The flight of a name.
    pub fn flight(&self, name: &Name) -> Option<&Flight>
        ensures { option_copied result ≡ flight_named name.now (state_of self.now).flights }
    {
        let place = self.flights.place_of(name).ok()?;
        Some(self.flights.at(place))
    }

    /// Puts a flight in force. Where memory runs out nothing changes.
    pub fn put_in(&mut self, airport: &Airport, flight: Flight) -> Result<(), Memory>
        requires absent { flight_named flight.name (state_of self.old).flights ≡ None }
        requires arcs { All (λ step. IsTrue (arc_exists (layout_of airport.now) step.arc)) flight.steps }
        requires spans { HasSpansOf airport.now (state_of self.old) self.old }
        ensures ok { OnOk result (state_of self.new ≡ with_flight flight (state_of self.old)) }
        ensures err { OnErr result (state_of self.new ≡ state_of self.old) }
        ensures spans { HasSpansOf airport.now (state_of self.new) self.new }
    {
        let place = self.flights.place_of(&flight.name).unwrap_err();
        self.flights.insert(place, flight)?;
        let flight = self.flights.at(place);
        let clearance = airport.clearance(flight.class);
        let steps = flight.steps.as_slice();
        let held = self
            .spans
            .hold(&flight.name, airport.horizon(), clearance, steps);
        if let Err(memory) = held {
            let _ = self.flights.remove(place);
            return Err(memory);
        }
        Ok(())
    }

    /// Takes the flight of a name out of force, and hands it out. It needs no memory.
    pub fn take_out(&mut self, airport: &Airport, name: &Name) -> Flight
        requires in_force { IsSome (flight_named name.now (state_of self.old).flights) }
        requires alone { party_named name.now (state_of self.old).parties ≡ None }
        requires spans { HasSpansOf airport.now (state_of self.old) self.old }
        ensures flight { flight_named name.now (state_of self.old).flights ≡ Some result }
        ensures state { state_of self.new ≡ without name.now (state_of self.old) }
        ensures spans { HasSpansOf airport.now (state_of self.new) self.new }
    {
        let place = self.flights.place_of(name).unwrap();
        let flight = self.flights.remove(place);
        let clearance = airport.clearance(flight.class);
        let steps = flight.steps.as_slice();
        self.spans
            .release(&flight.name, airport.horizon(), clearance, steps);
        flight
    }

    /// Takes out the spans of the flight of a name, which stays in force. It needs no memory, and there is room for them then.
    pub fn lift(&mut self, airport: &Airport, name: &Name)
        requires in_force { IsSome (flight_named name.now (state_of self.old).flights) }
        requires alone { party_named name.now (state_of self.old).parties ≡ None }
        requires spans { HasSpansOf airport.now (state_of self.old) self.old }
        ensures state { state_of self.new ≡ state_of self.old }
        ensures spans { HasSpansOf airport.now (without name.now (state_of self.old)) self.new }
        ensures room { HasRoomAgain name.now self.new }
    {
        let place = self.flights.place_of(name).unwrap();
        let flight = self.flights.at(place);
        let clearance = airport.clearance(flight.class);
        let steps = flight.steps.as_slice();
        self.spans
            .release(&flight.name, airport.horizon(), clearance, steps);
    }

    /// Puts the spans of the flight of a name back, for which there is room. It needs no memory.
    pub fn lower(&mut self, airport: &Airport, name: &Name)
        requires in_force { IsSome (flight_named name.now (state_of self.old).flights) }
        requires alone { party_named name.now (state_of self.old).parties ≡ None }
        requires arcs { IfSome (flight_named name.now (state_of self.old).flights) (λ flight. All (λ step. IsTrue (arc_exists (layout_of airport.now) step.arc)) flight.steps) }
        requires spans { HasSpansOf airport.now (without name.now (state_of self.old)) self.old }
        requires room { HasRoomAgain name.now self.old }
        ensures state { state_of self.new ≡ state_of self.old }
        ensures spans { HasSpansOf airport.now (state_of self.old) self.new }
    {
        let place = self.flights.place_of(name).unwrap();
        let flight = self.flights.at(place);
        let clearance = airport.clearance(flight.class);
        let steps = flight.steps.as_slice();
        self.spans
            .hold(&flight.name, airport.horizon(), clearance, steps)
            .unwrap();
    }

    /// Gives the flight of a name, whose spans are taken out, another request and other steps, and puts their spans in. Where
    /// memory runs out the old spans are put back.
    pub fn replace(
        &mut self,
        airport: &Airport,
        name: &Name,
        request: Request,
        steps: List<Step>,
    ) -> Result<(), Memory>
        requires in_force { IsSome (flight_named name.now (state_of self.old).flights) }
        requires alone { party_named name.now (state_of self.old).parties ≡ None }
        requires old_arcs { IfSome (flight_named name.now (state_of self.old).flights) (λ flight. All (λ step. IsTrue (arc_exists (layout_of airport.now) step.arc)) flight.steps) }
        requires arcs { All (λ step. IsTrue (arc_exists (layout_of airport.now) step.arc)) steps }
        requires spans { HasSpansOf airport.now (without name.now (state_of self.old)) self.old }
        requires room { HasRoomAgain name.now self.old }
        ensures ok { OnOk result (IfSome (flight_named name.now (state_of self.old).flights) (λ flight. state_of self.new ≡ with_route flight request steps (state_of self.old))) }
        ensures err { OnErr result (state_of self.new ≡ state_of self.old) }
        ensures spans { HasSpansOf airport.now (state_of self.new) self.new }
    {
        let place = self.flights.place_of(name).unwrap();
        let flight = self.flights.at(place);
        let clearance = airport.clearance(flight.class);
        let held = self.spans.hold(&flight.name, airport.horizon(), clearance, steps.as_slice());
        if let Err(memory) = held {
            self.lower(airport, name);
            return Err(memory);
        }
        self.flights.set_route(place, request, steps);
        Ok(())
    }
}
