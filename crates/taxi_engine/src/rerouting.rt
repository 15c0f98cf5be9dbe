//! A flight in force, routed anew from a time on, or led to another stand.
ghost use Rattle.std.specs.Prelude.{◌≡◌, IsSome, IfSome, All};
ghost use Rattle.taxi_base.specs.State.{flight_named, with_flight, without};
ghost use Rattle.taxi_text.specs.declared.command.Command.TheVariants as command;
ghost use Rattle.replies.specs.declared.block.Block.TheVariants as block;
ghost use Rattle.replies.specs.Printable.{HasArc};
ghost use Rattle.replies.specs.CarriedOut.{second_of};
ghost use Rattle.taxi_engine.specs.Done.{IsDoneOrMemory};
ghost use Rattle.taxi_engine.specs.Routed.{IsToldOrMemory};
ghost use Rattle.taxi_engine.specs.Rerouted.{refusal_told, request_to, IsOnAnother, IsToldAgain};

use crate::Engine;
use crate::routing::prepare_route_again;
use commitments::Ledger;
use reroute::{RerouteRefused, again};
use taxi_base::{Flight, Found, LabelRow, List, Name, Node, Refusal, Request, Step, Time};

impl Engine {
    /// Routes a flight in force anew from a time on, or refuses it.
    pub(crate) fn reroute(&mut self, flight: &Name, time: Time)
        ensures { IsDoneOrMemory (command.Reroute flight.now time) self.old self.new }
    {
        self.route_again(flight, time, None);
    }

    /// Leads an arrival in force to another stand from a time on, or refuses it.
    pub(crate) fn divert(&mut self, flight: &Name, time: Time, node: &Name)
        ensures { IsDoneOrMemory (command.Divert flight.now time node.now) self.old self.new }
    {
        let Some(node) = self.airport.node_named(node) else {
            self.refuse(&Refusal::UnknownNode);
            return;
        };
        if !self.airport.is_stand(node) {
            self.refuse(&Refusal::WrongKind);
            return;
        }
        self.route_again(flight, time, Some(node));
    }

    // Looks for the way that a flight takes from a time on, and tells what was found. With a route the flight has it.
    fn route_again(&mut self, name: &Name, time: Time, to: Option<Node>)
        ensures { IsToldAgain name.now time to self.old self.new }
    {
        // The airport keeps its rules, so each label is of one of its arcs.
        let _ = self.airport.horizon();
        let (airport, ledger) = (&self.airport, &mut self.ledger);
        match again(self.alloc, &mut self.room, airport, ledger, name, time, to) {
            Ok(Found::Route { steps, labels }) => {
                let flight = on_another_route(&self.ledger, name, to, steps);
                self.change_route(flight, &labels);
            }
            Ok(Found::NoRoute { labels }) => self.tell_no_route(labels),
            Err(why) => self.refuse(&refusal_told(&why)),
        }
    }

    // Tells the route that a flight in force takes from now on with its labels, and puts the flight on it.
    fn change_route(&mut self, flight: Flight, labels: &List<LabelRow>)
        requires another { IsOnAnother self.old.airport self.old.state flight }
        requires labels { All (λ label. HasArc self.old.airport label.arc) labels.now }
        ensures { IsToldOrMemory (record { block = block.Route flight.name (second_of flight.request flight.steps) flight.steps labels.now; after = with_flight flight (without flight.name self.old.state) }) self.old self.new }
    {
        let labels = labels.as_slice();
        let (airport, ledger, reply) = (&self.airport, &mut self.ledger, &mut self.reply);
        if prepare_route_again(airport, ledger, reply, &flight, labels).is_err() {
            self.refuse(&Refusal::Memory);
            return;
        }
        self.ledger.lift(&self.airport, &flight.name);
        self.ledger
            .replace(&self.airport, flight.request, flight.steps);
    }
}

// The flight of a name as it is on other steps, to another node where there is one.
fn on_another_route(ledger: &Ledger, name: &Name, to: Option<Node>, steps: List<Step>) -> Flight
    requires { IsSome (flight_named name.now ledger.now.state.flights) }
    ensures { IfSome (flight_named name.now ledger.now.state.flights) (λ flight. result ≡ record flight { name = name.now; request = request_to to flight.request; steps = steps }) }
{
    let flight = ledger.flight(name).unwrap();
    Flight {
        name: *name,
        class: flight.class,
        request: request_to(to, flight.request),
        steps,
    }
}

// The request, for another node to reach where there is one.
fn request_to(to: Option<Node>, request: Request) -> Request
    ensures { result ≡ request_to to request }
{
    match to {
        Some(to) => request.retargeted(to),
        None => request,
    }
}

// The refusal that is told.
fn refusal_told(why: &RerouteRefused) -> Refusal
    ensures { result ≡ refusal_told why.now }
{
    match why {
        RerouteRefused::NotInForce => Refusal::NotInForce,
        RerouteRefused::NotRouted => Refusal::NotRouted,
        RerouteRefused::NotArrival => Refusal::NotArrival,
        RerouteRefused::AlreadyDone { end } => Refusal::AlreadyDone { end: *end },
        RerouteRefused::AlreadyMoving { start } => Refusal::AlreadyMoving { start: *start },
        RerouteRefused::Memory => Refusal::Memory,
    }
}
