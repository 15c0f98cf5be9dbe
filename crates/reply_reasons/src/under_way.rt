//! What a flight in force is asked for that is to be routed anew.
ghost use Rattle.std.specs.Prelude.{◌≡◌, ◌<◌, ◌∷◌, [], None, length};
ghost use Rattle.taxi_base.specs.State.{IsSound};
ghost use Rattle.taxi_text.specs.declared.command.Command.TheVariants as command;
ghost use Rattle.replies.specs.Refusals.{first_of, not_routed, not_arrival, already_done, already_moving};
ghost use Rattle.commitments.specs.Book.{Fits};
ghost use Rattle.reply_reasons.specs.Asking.{IsAskedBy, asking_on};

use crate::asking::{Asking, Way};
use airport_file::Airport;
use commitments::Ledger;
use taxi_base::{Flight, Name, Refusal, Request, Time, begin_of, end_of};

/// What a reroute asks for; none where it is refused. The flight is out of the ledger afterwards.
pub(crate) fn asked_to_reroute(
    airport: &Airport,
    ledger: &mut Ledger,
    name: &Name,
    time: Time,
) -> Option<Asking>
    requires fits { Fits airport.now ledger.old }
    requires unlifted { ledger.old.lifted ≡ None }
    requires sound { IsSound airport.now ledger.old.state }
    ensures asked { IsAskedBy airport.now ledger.old.state (command.Reroute name.now time) ledger.new.state result }
    ensures unlifted { ledger.new.lifted ≡ None }
    ensures fits { Fits airport.now ledger.new }
{
    // The ledger keeps that each flight has a step, and the airport that its horizon is short.
    let _flights = ledger.count();
    let _horizon = airport.horizon();
    let flight = ledger.flight(name)?;
    if reroute_refusal(flight, time).is_some() {
        return None;
    }
    let flight = ledger.cancel(airport, name).unwrap();
    let request = flight.request;
    Some(asking_on(name, flight, time, request))
}

/// The same of a divert, which leads the flight to another node.
pub(crate) fn asked_to_divert(
    airport: &Airport,
    ledger: &mut Ledger,
    name: &Name,
    time: Time,
    node: &Name,
) -> Option<Asking>
    requires fits { Fits airport.now ledger.old }
    requires unlifted { ledger.old.lifted ≡ None }
    requires sound { IsSound airport.now ledger.old.state }
    ensures asked { IsAskedBy airport.now ledger.old.state (command.Divert name.now time node.now) ledger.new.state result }
    ensures unlifted { ledger.new.lifted ≡ None }
    ensures fits { Fits airport.now ledger.new }
{
    // The ledger keeps that each flight has a step, and the airport that its horizon is short.
    let _flights = ledger.count();
    let _horizon = airport.horizon();
    let to = airport.node_named(node)?;
    if !airport.is_stand(to) {
        return None;
    }
    let flight = ledger.flight(name)?;
    if divert_refusal(flight, time).is_some() {
        return None;
    }
    let flight = ledger.cancel(airport, name).unwrap();
    let request = flight.request.retargeted(to);
    Some(asking_on(name, flight, time, request))
}

// The way on of a flight, with the request that it is to meet.
fn asking_on(name: &Name, flight: Flight, time: Time, request: Request) -> Asking
    ensures { result ≡ asking_on name.now flight time request }
{
    let Flight { class, steps, .. } = flight;
    Asking {
        name: *name,
        class,
        request,
        way: Way::On { steps, time },
    }
}

// Why a flight in force is not rerouted from a time on.
fn reroute_refusal(flight: &Flight, time: Time) -> Option<Refusal>
    requires { 0 < length flight.now.steps }
    ensures { result ≡ first_of (not_routed flight.now ∷ already_done time flight.now ∷ already_moving time flight.now ∷ []) }
{
    let start = begin_of(flight.steps.as_slice());
    let end = end_of(flight.steps.as_slice());
    match flight.request {
        Request::Filed => Some(Refusal::NotRouted),
        _ if end <= time => Some(Refusal::AlreadyDone { end }),
        Request::Departure { .. } if start <= time => Some(Refusal::AlreadyMoving { start }),
        _ => None,
    }
}

// Why it is not led to another node.
fn divert_refusal(flight: &Flight, time: Time) -> Option<Refusal>
    requires { 0 < length flight.now.steps }
    ensures { result ≡ first_of (not_routed flight.now ∷ not_arrival flight.now ∷ already_done time flight.now ∷ []) }
{
    let end = end_of(flight.steps.as_slice());
    match flight.request {
        Request::Filed => Some(Refusal::NotRouted),
        Request::Departure { .. } => Some(Refusal::NotArrival),
        _ if end <= time => Some(Refusal::AlreadyDone { end }),
        _ => None,
    }
}
