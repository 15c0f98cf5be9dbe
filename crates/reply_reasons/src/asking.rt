//! What a line asks for a flight, and the flight out of the way.
ghost use Rattle.std.specs.Prelude.{◌≡◌, None, IfOk};
ghost use Rattle.taxi_base.specs.State.{IsSound};
ghost use Rattle.taxi_text.specs.declared.command.Command.TheVariants as command;
ghost use Rattle.replies.specs.Asked.{IsInGrammar, IsAskedInGrammar};
ghost use Rattle.replies.specs.Printable.{IsShort};
ghost use Rattle.commitments.specs.Book.{Fits};
ghost use Rattle.replies.specs.Asked.{arrival_any, departure_any};
ghost use Rattle.reply_reasons.specs.Asking.{IsAskedBy, asking_any};

use crate::under_way::{asked_to_divert, asked_to_reroute};
use airport_file::Airport;
use command_refusals::{
    TripToAny, asked_arrival, asked_arrival_any, asked_departure, asked_departure_any,
};
use commitments::Ledger;
use std::alloc::Global;
use taxi_base::{Class, List, Memory, Name, Node, Refusal, Request, Step, Time};
use taxi_text::{Asked, AskedAny, Command};

/// How a route is asked for.
#[derive(Drop)]
pub enum Way {
    /// For a new flight.
    New,
    /// For a new flight to the best of these nodes.
    ToAny { nodes: List<Node> },
    /// For a flight in force with these steps, from a time on.
    On { steps: List<Step>, time: Time },
}

/// What a line asks for. Where a flight may reach any of some nodes the request is that for the first of them.
#[derive(Drop)]
pub struct Asking {
    pub name: Name,
    pub class: Class,
    pub request: Request,
    pub way: Way,
}

/// What a command asks for where nothing refuses it; none for a command that asks for no route, or for several. A flight in force that is to
/// be routed anew is out of the ledger afterwards. It needs memory for a choice of nodes alone.
pub(crate) fn asked_by(
    alloc: Global,
    airport: &Airport,
    ledger: &mut Ledger,
    command: &Command,
) -> Result<Option<Asking>, Memory>
    requires fits { Fits airport.now ledger.old }
    requires unlifted { ledger.old.lifted ≡ None }
    requires sound { IsSound airport.now ledger.old.state }
    requires grammar { IsInGrammar command.now }
    ensures asked { IfOk result (IsAskedBy airport.now ledger.old.state command.now ledger.new.state) }
    ensures unlifted { ledger.new.lifted ≡ None }
    ensures fits { Fits airport.now ledger.new }
{
    match command {
        Command::Arrival(asked) => Ok(asked_to_arrive(airport, ledger, asked)),
        Command::Departure(asked) => Ok(asked_to_depart(airport, ledger, asked)),
        Command::ArrivalAny(asked) => asked_to_arrive_at_any(alloc, airport, ledger, asked),
        Command::DepartureAny(asked) => asked_to_depart_to_any(alloc, airport, ledger, asked),
        Command::Reroute { flight, time } => Ok(asked_to_reroute(airport, ledger, flight, *time)),
        Command::Divert { flight, time, node } => {
            Ok(asked_to_divert(airport, ledger, flight, *time, node))
        }
        _ => Ok(None),
    }
}

fn asked_to_arrive(airport: &Airport, ledger: &Ledger, asked: &Asked) -> Option<Asking>
    requires fits { Fits airport.now ledger.now }
    requires grammar { IsAskedInGrammar asked.now }
    ensures { IsAskedBy airport.now ledger.now.state (command.Arrival asked.now) ledger.now.state result }
{
    match asked_arrival(airport, ledger, asked) {
        Ok(trip) => Some(Asking {
            name: asked.flight,
            class: trip.class,
            request: trip.arrival(),
            way: Way::New,
        }),
        Err(_) => None,
    }
}

fn asked_to_depart(airport: &Airport, ledger: &Ledger, asked: &Asked) -> Option<Asking>
    requires fits { Fits airport.now ledger.now }
    requires grammar { IsAskedInGrammar asked.now }
    ensures { IsAskedBy airport.now ledger.now.state (command.Departure asked.now) ledger.now.state result }
{
    match asked_departure(airport, ledger, asked) {
        Ok(trip) => Some(Asking {
            name: asked.flight,
            class: trip.class,
            request: trip.departure(),
            way: Way::New,
        }),
        Err(_) => None,
    }
}

fn asked_to_arrive_at_any(
    alloc: Global,
    airport: &Airport,
    ledger: &Ledger,
    asked: &AskedAny,
) -> Result<Option<Asking>, Memory>
    requires fits { Fits airport.now ledger.now }
    requires time { IsShort asked.now.time }
    requires slack { IsShort asked.now.slack }
    ensures { IfOk result (IsAskedBy airport.now ledger.now.state (command.ArrivalAny asked.now) ledger.now.state) }
{
    match asked_arrival_any(alloc, airport, ledger, asked) {
        Ok(trip) => Ok(first_arrival(&asked.flight, trip)),
        Err(Refusal::Memory) => Err(Memory::told()),
        Err(_) => Ok(None),
    }
}

fn asked_to_depart_to_any(
    alloc: Global,
    airport: &Airport,
    ledger: &Ledger,
    asked: &AskedAny,
) -> Result<Option<Asking>, Memory>
    requires fits { Fits airport.now ledger.now }
    requires time { IsShort asked.now.time }
    requires slack { IsShort asked.now.slack }
    ensures { IfOk result (IsAskedBy airport.now ledger.now.state (command.DepartureAny asked.now) ledger.now.state) }
{
    match asked_departure_any(alloc, airport, ledger, asked) {
        Ok(trip) => Ok(first_departure(&asked.flight, trip)),
        Err(Refusal::Memory) => Err(Memory::told()),
        Err(_) => Ok(None),
    }
}

// The request for the first of the nodes stands for those for all of them.
fn first_arrival(name: &Name, trip: TripToAny) -> Option<Asking>
    ensures { result ≡ asking_any name.now trip.class (arrival_any trip.from trip.nodes trip.time trip.slack) trip.nodes }
{
    let first = *trip.nodes.as_slice().first()?;
    let request = trip.to_one(first).arrival();
    let TripToAny { class, nodes, .. } = trip;
    Some(Asking {
        name: *name,
        class,
        request,
        way: Way::ToAny { nodes },
    })
}

fn first_departure(name: &Name, trip: TripToAny) -> Option<Asking>
    ensures { result ≡ asking_any name.now trip.class (departure_any trip.from trip.nodes trip.time trip.slack) trip.nodes }
{
    let first = *trip.nodes.as_slice().first()?;
    let request = trip.to_one(first).departure();
    let TripToAny { class, nodes, .. } = trip;
    Some(Asking {
        name: *name,
        class,
        request,
        way: Way::ToAny { nodes },
    })
}
