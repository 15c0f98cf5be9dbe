//! The turn of one flight.
ghost use Rattle.std.specs.Prelude.{◌≡◌, ◌<◌, Option, Some, None, length, IfOk, OnOk, IsFalse};
ghost use Rattle.taxi_base.specs.declared.answers.Found.{Found as FoundSeen};
ghost use Rattle.taxi_base.specs.Walks.{IsFeasibleWalk};
ghost use Rattle.taxi_base.specs.State.{State, has_holder, holder_count, without, conditions_of};
ghost use Rattle.taxi_base.specs.Faults.{conditions_in};
ghost use Rattle.taxi_base.specs.Late.{steps_kept, request_sought, request_routed, after_turn, IsTurnOfFlight};
ghost use Rattle.replies.specs.Routed.{second_of};
ghost use Rattle.replies.specs.Repairs.{entry_told};
ghost use Rattle.commitments.specs.Book.{Fits};
ghost use Rattle.late_repair.specs.Repairing.{MayTakeTurn, IsTimely, HasWalk};
ghost use Rattle.late_repair.specs.TakenOut.{ChangesOnly};

use crate::delay::Delay;
use crate::force::{keep_in_force, put_in_force};
use crate::kept::{copy_of, steps_kept};
use crate::seeking::find_way;
use airport_file::Airport;
use commitments::Ledger;
use place_cells::SearchRoom;
use replies::Entry;
use std::alloc::Global;
use taxi_base::{Flight, Found, List, Memory, Request, Step, Time, begin_of, end_of};

/// The turn of a flight: it is out while it seeks its way among the others, and then in force on what was found, or on the steps that
/// it keeps. One that asked for nothing is dropped, which changes nothing.
pub(crate) fn take_turn(
    alloc: Global,
    room: &mut SearchRoom,
    airport: &Airport,
    delay: &Delay,
    flight: &Flight,
    ledger: &mut Ledger,
) -> Result<Entry, Memory>
    requires fits { Fits airport.now ledger.old }
    requires unlifted { ledger.old.lifted ≡ None }
    requires walk { (state : State) × IsFeasibleWalk (conditions_of airport.now state flight.now) flight.now.steps }
    requires timely { IsTimely airport.now flight.now.request }
    requires may { MayTakeTurn airport.now delay.now ledger.old.state flight.now }
    ensures turn { IfOk result (λ entry. (told : Option FoundSeen) × IsTurnOfFlight airport.now delay.now flight.now ledger.old.state told ledger.new.state × (entry ≡ entry_told (request_sought flight.now.request (steps_kept airport.now delay.now flight.now)) told)) }
    ensures only { ChangesOnly flight.now.name ledger.old ledger.new }
    ensures unlifted { ledger.new.lifted ≡ None }
    ensures fits { Fits airport.now ledger.new }
{
    if matches!(flight.request, Request::Filed) {
        return Ok(Entry::Dropped);
    }
    let kept = steps_kept(alloc, airport, delay, flight)?;
    let time = delay.time_sought(flight);
    ledger.cancel(airport, &flight.name);
    let sought = request_sought(flight.request, kept.as_slice());
    let class = flight.class;
    let found = find_way(
        alloc,
        room,
        airport,
        ledger,
        class,
        &sought,
        kept.as_slice(),
        time,
    )?;
    settle(alloc, airport, flight, ledger, kept, found)
}

// Puts a flight that is out in force as was found, or on the steps that it keeps where there is no way, and tells that.
fn settle(
    alloc: Global,
    airport: &Airport,
    flight: &Flight,
    ledger: &mut Ledger,
    kept: List<Step>,
    found: Found,
) -> Result<Entry, Memory>
    requires fits { Fits airport.now ledger.old }
    requires unlifted { ledger.old.lifted ≡ None }
    requires absent { IsFalse (has_holder flight.now.name ledger.old.state) }
    requires few { holder_count ledger.old.state < 4096 }
    requires kept { 0 < length kept → IsFeasibleWalk (conditions_in airport.now flight.now.class ledger.old.state) kept }
    requires found { HasWalk (conditions_in airport.now flight.now.class ledger.old.state) found }
    ensures state { OnOk result ((now : State) → ledger.old.state ≡ without flight.now.name now → ledger.new.state ≡ after_turn now flight.now kept found) }
    ensures told { IfOk result (λ entry. entry ≡ entry_told (request_sought flight.now.request kept) (Some found)) }
    ensures only { ChangesOnly flight.now.name ledger.old ledger.new }
    ensures unlifted { ledger.new.lifted ≡ None }
    ensures fits { Fits airport.now ledger.new }
{
    match found {
        Found::Route { steps, labels } => {
            let sought = request_sought(flight.request, kept.as_slice());
            let second = second_of(&sought, steps.as_slice());
            let request = request_routed(flight.request, kept.as_slice());
            let own = copy_of(alloc, steps.as_slice())?;
            put_in_force(airport, ledger, flight, request, own)?;
            Ok(Entry::Route {
                second,
                steps,
                labels,
            })
        }
        Found::NoRoute { labels } => {
            keep_in_force(airport, ledger, flight, Request::Filed, kept)?;
            Ok(Entry::NoRoute { labels })
        }
    }
}

// What a flight with kept steps seeks: a departure that has begun goes on as an arrival does.
fn request_sought(request: Request, kept: &[Step]) -> Request
    ensures { result ≡ request_sought request kept.now }
{
    if kept.is_empty() {
        return request;
    }
    match request {
        Request::Departure {
            from,
            to,
            time,
            queue,
        } => Request::Arrival {
            from,
            to,
            time,
            hold: queue,
        },
        _ => request,
    }
}

// What a flight asks for once it is routed: a departure that has begun for nothing more.
fn request_routed(request: Request, kept: &[Step]) -> Request
    ensures { result ≡ request_routed request kept.now }
{
    if kept.is_empty() {
        return request;
    }
    match request {
        Request::Departure { .. } => Request::Filed,
        _ => request,
    }
}

// The second that is told with a route: where a departure begins, and where an arrival ends.
fn second_of(sought: &Request, steps: &[Step]) -> Time
    requires { 0 < length steps.now }
    ensures { result ≡ second_of sought.now steps.now }
{
    match sought {
        Request::Departure { .. } => begin_of(steps),
        _ => end_of(steps),
    }
}
