//! A flight in force, routed anew.
ghost use Rattle.std.specs.Prelude.{◌≡◌, Some, None, MatchOption, IfOk, IsOk, IsOkUnless, IsSomeAnd, is_some};
ghost use Rattle.std.specs.Option.{ForSome};
ghost use Rattle.taxi_base.specs.Walks.{Meets};
ghost use Rattle.taxi_base.specs.State.{flight_named, conditions_of};
ghost use Rattle.commitments.specs.Book.{Fits};
ghost use Rattle.reroute.specs.declared.refused.RerouteRefused.TheVariants as refused;
ghost use Rattle.reroute.specs.Refused.{flight_refusal, again_refusal};
ghost use Rattle.reroute.specs.Anew.{IsFoundAnew, IsAsBefore};

use crate::refused::{RerouteRefused, flight_refusal};
use crate::searching::find_anew;
use airport_file::Airport;
use commitments::Ledger;
use place_cells::SearchRoom;
use std::alloc::Global;
use taxi_base::{Found, Memory, Name, Node, Time};

/// The best of the walks that the flight of a name may take from a time on among the others, to another node or to the one
/// that it asked for; or that there is none. The flight keeps its old route, also after an error. What an earlier search left in
/// the room does not matter.
///
/// The ledger fits the airport, no flight is lifted, and the flight does what it asked for. It is refused where none of the name is
/// in force, where its route was given by hand, where it has ended, where it is a departure that has begun, or is to be led to
/// another node. `Memory` comes where no room can be made.
///
/// Say that an arrival over S1 and S2, each in 30 seconds, was to wait on S1 from 0 to 100 for a flight that is cancelled now. From
/// 20 on it is on S1 from 0 to 30, and on S2 from 30 to 60. From 50 on it leaves S1 at 50, and S2 at 80.
pub fn again(
    alloc: Global,
    room: &mut SearchRoom,
    airport: &Airport,
    ledger: &mut Ledger,
    name: &Name,
    time: Time,
    to: Option<Node>,
) -> Result<Found, RerouteRefused>
    requires fits { Fits airport.now ledger.old }
    requires unlifted { ledger.old.lifted ≡ None }
    requires meets { ForSome (flight_named name.now ledger.old.state.flights) (λ flight. Meets (conditions_of airport.now ledger.old.state flight) flight.request flight.steps) }
    ensures refused { MatchOption (again_refusal ledger.old.state.flights name.now time to) (IsOkUnless result refused.Memory) (λ why. result ≡ Err why) }
    ensures found { IfOk result (λ found. IsSomeAnd (flight_named name.now ledger.old.state.flights) (λ flight. IsFoundAnew (conditions_of airport.now ledger.old.state flight) flight time to found)) }
    ensures as_before { IsAsBefore airport.now ledger.old ledger.new }
{
    check_again(ledger, name, time, to)?;
    Ok(find_lifted(alloc, room, airport, ledger, name, time, to)?)
}

// The flight of a name may be routed anew from a time on, or led to another node; or why not. It needs no memory.
fn check_again(
    ledger: &Ledger,
    name: &Name,
    time: Time,
    to: Option<Node>,
) -> Result<(), RerouteRefused>
    ensures { MatchOption (again_refusal ledger.now.state.flights name.now time to) (IsOk result) (λ why. result ≡ Err why) }
{
    // The ledger keeps that each flight has a step.
    let _flights = ledger.count();
    let Some(flight) = ledger.flight(name) else {
        return Err(RerouteRefused::NotInForce);
    };
    match flight_refusal(flight, time, to.is_some()) {
        Some(why) => Err(why),
        None => Ok(()),
    }
}

// Searches while the flight is lifted, so that its own holds stand in no way, and puts it back.
fn find_lifted(
    alloc: Global,
    room: &mut SearchRoom,
    airport: &Airport,
    ledger: &mut Ledger,
    name: &Name,
    time: Time,
    to: Option<Node>,
) -> Result<Found, Memory>
    requires fits { Fits airport.now ledger.old }
    requires unlifted { ledger.old.lifted ≡ None }
    requires may { IsSomeAnd (flight_named name.now ledger.old.state.flights) (λ flight. flight_refusal time (is_some to) flight ≡ None) }
    requires meets { ForSome (flight_named name.now ledger.old.state.flights) (λ flight. Meets (conditions_of airport.now ledger.old.state flight) flight.request flight.steps) }
    ensures found { IfOk result (λ found. IsSomeAnd (flight_named name.now ledger.old.state.flights) (λ flight. IsFoundAnew (conditions_of airport.now ledger.old.state flight) flight time to found)) }
    ensures as_before { IsAsBefore airport.now ledger.old ledger.new }
{
    ledger.lift(airport, name);
    let flight = ledger.flight(name).unwrap();
    let found = find_anew(alloc, room, airport, ledger.store(), flight, time, to);
    ledger.lower(airport);
    found
}
