//! A route that is searched for to the best of several nodes.
ghost use Rattle.std.specs.Prelude.{◌≡◌, ◌<◌, length, None, All, IfOk};
ghost use Rattle.taxi_base.specs.Faults.{conditions_in};
ghost use Rattle.taxi_text.specs.declared.command.Command.TheVariants as command;
ghost use Rattle.replies.specs.Printable.{IsShort, IsName};
ghost use Rattle.replies.specs.Asked.{arrival_any, departure_any, request_for, AnswersChoice};
ghost use Rattle.commitments.specs.Book.{Fits};
ghost use Rattle.taxi_engine.specs.Done.{IsDoneOrMemory};
ghost use Rattle.taxi_engine.specs.Routed.{IsNew};
ghost use Rattle.taxi_engine.specs.Choosing.{choice_of, IsChosenTold};

use crate::Engine;
use airport_file::Airport;
use backward_search::Departure;
use command_refusals::{TripToAny, asked_arrival_any, asked_departure_any};
use commitments::Ledger;
use forward_search::Start;
use place_cells::SearchRoom;
use stand_choice::{choose_arrival, choose_departure};
use std::alloc::Global;
use taxi_base::{Chosen, Flight, Memory, Name, Node, Refusal, Request};
use taxi_text::AskedAny;

/// Whether a choice is an arrival's or a departure's.
#[derive(Clone, Copy)]
pub(crate) enum Movement {
    Arrival,
    Departure,
}

// The request for one of the nodes.
fn request_for(trip: &TripToAny, movement: Movement, to: Node) -> Request
    ensures { result ≡ request_for (choice_of trip.now movement) to }
{
    let one = trip.to_one(to);
    match movement {
        Movement::Arrival => one.arrival(),
        Movement::Departure => one.departure(),
    }
}

impl Engine {
    /// Routes an arrival to the best of some stands, or refuses it.
    pub(crate) fn route_arrival_any(&mut self, asked: &AskedAny)
        requires name { IsName asked.now.flight }
        requires time { IsShort asked.now.time }
        requires slack { IsShort asked.now.slack }
        ensures { IsDoneOrMemory (command.ArrivalAny asked.now) self.old self.new }
    {
        match asked_arrival_any(self.alloc, &self.airport, &self.ledger, asked) {
            Ok(trip) => {
                let (airport, ledger) = (&self.airport, &self.ledger);
                let chosen = find_arrival_any(self.alloc, &mut self.room, airport, ledger, &trip);
                self.tell_chosen(&asked.flight, &trip, Movement::Arrival, chosen);
            }
            Err(why) => self.refuse(&why),
        }
    }

    /// Routes a departure to the best of some runway nodes, or refuses it.
    pub(crate) fn route_departure_any(&mut self, asked: &AskedAny)
        requires name { IsName asked.now.flight }
        requires time { IsShort asked.now.time }
        ensures { IsDoneOrMemory (command.DepartureAny asked.now) self.old self.new }
    {
        match asked_departure_any(self.alloc, &self.airport, &self.ledger, asked) {
            Ok(trip) => {
                let (airport, ledger) = (&self.airport, &self.ledger);
                let chosen = find_departure_any(self.alloc, &mut self.room, airport, ledger, &trip);
                self.tell_chosen(&asked.flight, &trip, Movement::Departure, chosen);
            }
            Err(why) => self.refuse(&why),
        }
    }

    // Tells what was chosen for a new flight, which goes in force where there is a route.
    fn tell_chosen(
        &mut self,
        flight: &Name,
        trip: &TripToAny,
        movement: Movement,
        chosen: Result<Chosen, Memory>,
    )
        requires name { IsName flight.now }
        requires new { IsNew self.old.state flight.now }
        requires answers { IfOk chosen (AnswersChoice (conditions_in self.old.airport trip.now.class self.old.state) (choice_of trip.now movement)) }
        ensures { IsChosenTold flight.now trip.now.class (choice_of trip.now movement) chosen self.old self.new }
    {
        // The airport keeps its rules, so each label is of one of its arcs.
        let _ = self.airport.horizon();
        match chosen {
            Ok(Chosen::Route { to, steps, labels }) => {
                let flight = Flight {
                    name: *flight,
                    class: trip.class,
                    request: request_for(trip, movement, to),
                    steps,
                };
                self.take_route(flight, &labels);
            }
            Ok(Chosen::NoRoute { labels }) => self.tell_no_route(labels),
            Err(_memory) => self.refuse(&Refusal::Memory),
        }
    }
}

// Searches for an arrival to one of some stands among the holders in force.
fn find_arrival_any(
    alloc: Global,
    room: &mut SearchRoom,
    airport: &Airport,
    ledger: &Ledger,
    trip: &TripToAny,
) -> Result<Chosen, Memory>
    requires fits { Fits airport.now ledger.now }
    requires unlifted { ledger.now.lifted ≡ None }
    requires nodes { All (λ n. n.0 < length airport.now.nodes) trip.now.nodes }
    requires time { IsShort trip.now.time }
    requires slack { IsShort trip.now.slack }
    ensures { IfOk result (AnswersChoice (conditions_in airport.now trip.now.class ledger.now.state) (arrival_any trip.now.from trip.now.nodes trip.now.time trip.now.slack)) }
{
    let start = Start::Node {
        from: trip.from,
        earliest: trip.time,
        latest: trip.time + trip.slack,
    };
    let store = ledger.store();
    let nodes = trip.nodes.as_slice();
    choose_arrival(alloc, room, airport, store, start, trip.class, nodes)
}

// Searches for a departure to one of some runway nodes among the holders in force.
fn find_departure_any(
    alloc: Global,
    room: &mut SearchRoom,
    airport: &Airport,
    ledger: &Ledger,
    trip: &TripToAny,
) -> Result<Chosen, Memory>
    requires fits { Fits airport.now ledger.now }
    requires unlifted { ledger.now.lifted ≡ None }
    requires nodes { All (λ n. n.0 < length airport.now.nodes) trip.now.nodes }
    requires time { IsShort trip.now.time }
    ensures { IfOk result (AnswersChoice (conditions_in airport.now trip.now.class ledger.now.state) (departure_any trip.now.from trip.now.nodes trip.now.time trip.now.slack)) }
{
    let earliest_out = trip.time.saturating_sub(trip.slack);
    let departure = Departure {
        class: trip.class,
        from: trip.from,
        earliest_out,
        latest_out: trip.time,
    };
    let store = ledger.store();
    let nodes = trip.nodes.as_slice();
    choose_departure(alloc, room, airport, store, departure, nodes)
}
