//! A route that is searched for: it is told with its labels, and its flight goes in force.
ghost use Rattle.std.specs.Prelude.{◌≡◌, ◌<◌, length, All, OnOk, IfOk, None};
ghost use Rattle.taxi_base.specs.State.{holder_count, with_flight};
ghost use Rattle.taxi_base.specs.Walks.{Meets};
ghost use Rattle.taxi_base.specs.Faults.{conditions_in};
ghost use Rattle.taxi_text.specs.declared.command.Command.TheVariants as command;
ghost use Rattle.replies.specs.declared.block.Block.TheVariants as block;
ghost use Rattle.replies.specs.Texts.{block_text};
ghost use Rattle.replies.specs.Printable.{IsShort, IsName, HasArc};
ghost use Rattle.replies.specs.Asked.{AnswersRequest};
ghost use Rattle.replies.specs.CarriedOut.{second_of};
ghost use Rattle.window_store.specs.Stands.{HasRoomFor};
ghost use Rattle.commitments.specs.Book.{Fits, IsPrepared};
ghost use Rattle.taxi_engine.specs.Done.{IsDoneOrMemory};
ghost use Rattle.taxi_engine.specs.Routed.{IsNew, IsWalkOn, IsToldOrMemory, IsFoundTold};

use crate::Engine;
use crate::reply::ReplyText;
use airport_file::Airport;
use command_refusals::{asked_arrival, asked_departure};
use commitments::Ledger;
use replies::{Block, Wish};
use sequence_exchange::{find_route, second_of};
use taxi_base::{Flight, Found, LabelRow, List, Memory, Refusal};
use taxi_text::Asked;

impl Engine {
    /// Routes an arrival, or refuses it.
    pub(crate) fn route_arrival(&mut self, asked: &Asked)
        requires name { IsName asked.now.flight }
        requires time { IsShort asked.now.time }
        requires slack { IsShort asked.now.slack }
        ensures { IsDoneOrMemory (command.Arrival asked.now) self.old self.new }
    {
        match asked_arrival(&self.airport, &self.ledger, asked) {
            Ok(trip) => {
                let wish = Wish {
                    name: asked.flight,
                    class: trip.class,
                    request: trip.arrival(),
                };
                let (airport, ledger) = (&self.airport, &self.ledger);
                let found = find_route(self.alloc, &mut self.room, airport, ledger, &wish);
                self.tell_found(&wish, found);
            }
            Err(why) => self.refuse(&why),
        }
    }

    /// Routes a departure, or refuses it.
    pub(crate) fn route_departure(&mut self, asked: &Asked)
        requires name { IsName asked.now.flight }
        requires time { IsShort asked.now.time }
        ensures { IsDoneOrMemory (command.Departure asked.now) self.old self.new }
    {
        match asked_departure(&self.airport, &self.ledger, asked) {
            Ok(trip) => {
                let wish = Wish {
                    name: asked.flight,
                    class: trip.class,
                    request: trip.departure(),
                };
                let (airport, ledger) = (&self.airport, &self.ledger);
                let found = find_route(self.alloc, &mut self.room, airport, ledger, &wish);
                self.tell_found(&wish, found);
            }
            Err(why) => self.refuse(&why),
        }
    }

    // Tells what was found for a new flight, which goes in force where there is a route.
    fn tell_found(&mut self, wish: &Wish, found: Result<Found, Memory>)
        requires name { IsName wish.now.name }
        requires new { IsNew self.old.state wish.now.name }
        requires answers { IfOk found (AnswersRequest (conditions_in self.old.airport wish.now.class self.old.state) wish.now.request) }
        ensures { IsFoundTold wish.now.name wish.now.class wish.now.request found self.old self.new }
    {
        // The airport keeps its rules, so each label is of one of its arcs.
        let _ = self.airport.horizon();
        match found {
            Ok(Found::Route { steps, labels }) => {
                let flight = Flight {
                    name: wish.name,
                    class: wish.class,
                    request: wish.request,
                    steps,
                };
                self.take_route(flight, &labels);
            }
            Ok(Found::NoRoute { labels }) => self.tell_no_route(labels),
            Err(_memory) => self.refuse(&Refusal::Memory),
        }
    }

    // Tells the route of a new flight with its labels, and puts the flight in force.
    pub(crate) fn take_route(&mut self, flight: Flight, labels: &List<LabelRow>)
        requires name { IsName flight.name }
        requires new { IsNew self.old.state flight.name }
        requires met { Meets (conditions_in self.old.airport flight.class self.old.state) flight.request flight.steps }
        requires labels { All (λ label. HasArc self.old.airport label.arc) labels.now }
        ensures { IsToldOrMemory (record { block = block.Route flight.name (second_of flight.request flight.steps) flight.steps labels.now; after = with_flight flight self.old.state }) self.old self.new }
    {
        let labels = labels.as_slice();
        let (airport, ledger, reply) = (&self.airport, &mut self.ledger, &mut self.reply);
        if prepare_route(airport, ledger, reply, &flight, labels).is_err() {
            self.refuse(&Refusal::Memory);
            return;
        }
        self.ledger.commit(&self.airport, flight);
    }

    /// Tells that there is no walk, with all labels.
    pub(crate) fn tell_no_route(&mut self, labels: List<LabelRow>)
        requires { All (λ label. HasArc self.old.airport label.arc) labels }
        ensures { IsToldOrMemory (record { block = block.NoRoute labels; after = self.old.state }) self.old self.new }
    {
        let block = Block::NoRoute { labels };
        if self.reply.print(&self.airport, block).is_err() {
            self.refuse(&Refusal::Memory);
        }
    }
}

/// Makes room for a new flight in the ledger, and writes its route as the reply.
pub(crate) fn prepare_route(
    airport: &Airport,
    ledger: &mut Ledger,
    reply: &mut ReplyText,
    flight: &Flight,
    labels: &[LabelRow],
) -> Result<(), Memory>
    requires fits { Fits airport.now ledger.old }
    requires unlifted { ledger.old.lifted ≡ None }
    requires walk { IsWalkOn airport.now flight.now.steps }
    requires labels { All (λ label. HasArc airport.now label.arc) labels.now }
    requires not_full { holder_count ledger.old.state < 4096 }
    ensures prepared { OnOk result (IsPrepared airport.now flight.now.steps ledger.new) }
    ensures text { OnOk result (reply.new ≡ block_text airport.now (block.Route flight.now.name (second_of flight.now.request flight.now.steps) flight.now.steps labels.now)) }
    ensures state { ledger.new.state ≡ ledger.old.state }
    ensures unlifted { ledger.new.lifted ≡ None }
    ensures fits { Fits airport.now ledger.new }
{
    // The airport keeps its rules, so a walk has few steps.
    let _ = airport.horizon();
    ledger.prepare(airport, flight.steps.as_slice())?;
    write_route(airport, reply, flight, labels)
}

/// Makes room for another route of a flight in force, and writes it as the reply.
pub(crate) fn prepare_route_again(
    airport: &Airport,
    ledger: &mut Ledger,
    reply: &mut ReplyText,
    flight: &Flight,
    labels: &[LabelRow],
) -> Result<(), Memory>
    requires fits { Fits airport.now ledger.old }
    requires unlifted { ledger.old.lifted ≡ None }
    requires walk { IsWalkOn airport.now flight.now.steps }
    requires labels { All (λ label. HasArc airport.now label.arc) labels.now }
    ensures room { OnOk result (HasRoomFor airport.now.conflicts flight.now.steps ledger.new.store) }
    ensures text { OnOk result (reply.new ≡ block_text airport.now (block.Route flight.now.name (second_of flight.now.request flight.now.steps) flight.now.steps labels.now)) }
    ensures state { ledger.new.state ≡ ledger.old.state }
    ensures unlifted { ledger.new.lifted ≡ None }
    ensures fits { Fits airport.now ledger.new }
{
    // The airport keeps its rules, so a walk has few steps.
    let _ = airport.horizon();
    ledger.prepare_again(airport, flight.steps.as_slice())?;
    write_route(airport, reply, flight, labels)
}

// Writes the route of a flight with its labels as the reply.
fn write_route(
    airport: &Airport,
    reply: &mut ReplyText,
    flight: &Flight,
    labels: &[LabelRow],
) -> Result<(), Memory>
    requires walk { IsWalkOn airport.now flight.now.steps }
    requires labels { All (λ label. HasArc airport.now label.arc) labels.now }
    ensures { OnOk result (reply.new ≡ block_text airport.now (block.Route flight.now.name (second_of flight.now.request flight.now.steps) flight.now.steps labels.now)) }
{
    let steps = flight.steps.as_slice();
    let second = second_of(&flight.request, steps);
    reply.print_route(airport, &flight.name, second, steps, labels)
}
