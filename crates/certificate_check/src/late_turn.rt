//! One turn: what is told of a flight is checked among the others, without what it holds itself.
ghost use Rattle.std.specs.Prelude.{◌≡◌, ◌≤◌, [], All, IfOk, OnOk, IsSome, IsTrue, Some, None, length};
ghost use Rattle.taxi_base.specs.declared.answers.Flight.{Flight as AnyFlight};
ghost use Rattle.taxi_base.specs.Airport.{layout_of, arc_exists};
ghost use Rattle.taxi_base.specs.State.{State, flight_named, party_named, without, IsSound};
ghost use Rattle.taxi_base.specs.Late.{request_sought, time_sought, request_routed, after_turn};
ghost use Rattle.taxi_base.specs.declared.answers.Found.TheVariants as found;
ghost use Rattle.replies.specs.declared.block.Block.TheVariants.{Route, NoRoute};
ghost use Rattle.replies.specs.Repairs.{way_sought, floor_sought};
ghost use Rattle.checked_state.specs.Flights.{state_of};
ghost use Rattle.check_walks.specs.Course.{way_of};
ghost use Rattle.check_walks.specs.Told.{CanBeSought};
ghost use Rattle.certificate_check.specs.Desk.{CanGoOn, IsTidy};
ghost use Rattle.certificate_check.specs.Late.{delay_in, turn_in, flight_in, sought_in, IsTurnChecked};

use crate::CheckRefused;
use crate::block_route::BlockRoute;
use crate::late_base::steps_kept;
use crate::late_form::LateFlight;
use crate::late_moves::{put_in, take_out};
use crate::late_way::is_late;
use crate::reply::pass_unless;
use airport_file::Airport;
use check_rows::KnownWindows;
use check_walks::{OnTheWay, SoughtWalk, check_no_route, check_route};
use checked_state::HeldFlights;
use std::alloc::Global;
use taxi_base::{Class, Flight, LabelRow, List, Memory, Name, Request, Step, Time};

/// A flight at its turn, with the steps that it keeps, and the time from which it may leave the last of them, or begin.
#[derive(Drop)]
pub struct AtTurn {
    name: Name,
    class: Class,
    request: Request,
    kept: List<Step>,
    from_on: Time,
}

/// The flight that had a name before the line, at its turn.
pub fn find_turn(
    alloc: Global,
    airport: &Airport,
    before: &HeldFlights,
    late: &LateFlight<'_>,
    name: &Name,
) -> Result<AtTurn, Memory>
    requires sound { IsSound airport.now (state_of before.now) }
    requires in_force { IsSome (flight_named name.now (state_of before.now).flights) }
    ensures { IfOk result (λ turn. (flight : AnyFlight) → flight_named name.now (state_of before.now).flights ≡ Some flight → turn ≡ turn_in airport.now (delay_in late.now) flight) }
{
    let flight = before.flight(name).unwrap();
    let kept = steps_kept(alloc, airport, late, flight)?;
    Ok(AtTurn {
        name: flight.name,
        class: flight.class,
        request: flight.request,
        kept,
        from_on: time_sought(late, flight),
    })
}

// The time from which a flight may leave its last step, or begin.
fn time_sought(late: &LateFlight<'_>, flight: &Flight) -> Time
    ensures { result ≡ time_sought (delay_in late.now) flight.now }
{
    if is_late(late, flight) {
        late.until
    } else {
        late.time
    }
}

/// Checks the route that is told of a flight at its turn. Where it passes, the flight is in force on it afterwards.
pub fn check_turn_route(
    airport: &Airport,
    held: &mut HeldFlights,
    known: &mut KnownWindows,
    turn: &AtTurn,
    route: BlockRoute,
) -> Result<(), CheckRefused>
    requires sought { CanBeSought airport.now (request_sought turn.now.request turn.now.kept) }
    requires goes_on { CanGoOn airport.now turn.now.request }
    requires early { All (λ step. step.enter ≤ 9999999) turn.now.kept }
    requires alone { party_named turn.now.name (state_of held.old).parties ≡ None }
    requires tidy { IsTidy airport.now held.old known.old }
    ensures checked { IsTurnChecked (sought_in airport.now (state_of held.old) turn.now) (Route turn.now.name route.second route.steps route.labels) result (state_of held.new) }
    ensures parties { OnOk result ((state_of held.new).parties ≡ (state_of held.old).parties) }
    ensures tidy { OnOk result (IsTidy airport.now held.new known.new) }
{
    take_out(airport, held, known, &turn.name);
    let told = route.as_told();
    let sought = sought_by(turn);
    let broken = check_route(airport, turn.class, held.spans(), known, &sought, &told)?;
    pass_unless(broken)?;
    let routed = Flight {
        name: turn.name,
        class: turn.class,
        request: request_routed(turn.request, turn.kept.as_slice()),
        steps: route.steps,
    };
    put_in(airport, held, known, routed)?;
    Ok(())
}

/// Checks what is told of a flight for which there is no route at its turn. Where it passes, the flight stays on the steps that it
/// keeps, or is out.
pub fn check_turn_without(
    airport: &Airport,
    held: &mut HeldFlights,
    known: &mut KnownWindows,
    turn: AtTurn,
    labels: &[LabelRow],
) -> Result<(), CheckRefused>
    requires sought { CanBeSought airport.now (request_sought turn.request turn.kept) }
    requires early { All (λ step. step.enter ≤ 9999999) turn.kept }
    requires arcs { All (λ step. IsTrue (arc_exists (layout_of airport.now) step.arc)) turn.kept }
    requires alone { party_named turn.name (state_of held.old).parties ≡ None }
    requires tidy { IsTidy airport.now held.old known.old }
    ensures checked { IsTurnChecked (sought_in airport.now (state_of held.old) turn) (NoRoute labels.now) result (state_of held.new) }
    ensures parties { OnOk result ((state_of held.new).parties ≡ (state_of held.old).parties) }
    ensures tidy { OnOk result (IsTidy airport.now held.new known.new) }
{
    take_out(airport, held, known, &turn.name);
    let sought = sought_by(&turn);
    let broken = check_no_route(airport, turn.class, held.spans(), known, &sought, labels)?;
    pass_unless(broken)?;
    stay(airport, held, known, turn)?;
    Ok(())
}

// Puts a flight in force on the steps that it keeps, if there are some. It asks for nothing more.
fn stay(
    airport: &Airport,
    held: &mut HeldFlights,
    known: &mut KnownWindows,
    turn: AtTurn,
) -> Result<(), Memory>
    requires arcs { All (λ step. IsTrue (arc_exists (layout_of airport.now) step.arc)) turn.kept }
    requires absent { flight_named turn.name (state_of held.old).flights ≡ None }
    requires tidy { IsTidy airport.now held.old known.old }
    ensures state { OnOk result ((state : State) → state_of held.old ≡ without turn.name state → state_of held.new ≡ after_turn state (flight_in turn) turn.kept (found.NoRoute [])) }
    ensures parties { OnOk result ((state_of held.new).parties ≡ (state_of held.old).parties) }
    ensures tidy { OnOk result (IsTidy airport.now held.new known.new) }
{
    if turn.kept.as_slice().is_empty() {
        return Ok(());
    }
    let stays = Flight {
        name: turn.name,
        class: turn.class,
        request: Request::Filed,
        steps: turn.kept,
    };
    put_in(airport, held, known, stays)
}

// The walk that a flight seeks at its turn. A departure that has not begun has to begin after the time.
fn sought_by(turn: &AtTurn) -> SoughtWalk<'_>
    ensures request { result.request ≡ request_sought turn.now.request turn.now.kept }
    ensures way { way_of result.way ≡ way_sought (request_sought turn.now.request turn.now.kept) turn.now.kept turn.now.from_on }
    ensures floor { result.floor ≡ floor_sought (request_sought turn.now.request turn.now.kept) turn.now.from_on }
{
    let steps = turn.kept.as_slice();
    let request = request_sought(turn.request, steps);
    let time = turn.from_on;
    match request {
        Request::Departure { .. } => SoughtWalk {
            request,
            way: None,
            floor: Some(time),
        },
        Request::Filed | Request::Arrival { .. } => SoughtWalk {
            request,
            way: Some(OnTheWay { steps, time }),
            floor: None,
        },
    }
}

// What a flight seeks with the steps that it keeps. A departure that has begun goes on as an arrival does.
fn request_sought(request: Request, kept: &[Step]) -> Request
    ensures { result ≡ request_sought request kept.now }
{
    match request {
        Request::Departure {
            from,
            to,
            time,
            queue,
        } if !kept.is_empty() => Request::Arrival {
            from,
            to,
            time,
            hold: queue,
        },
        _ => request,
    }
}

// What a flight asks for once it is routed: a departure that has begun for nothing more.
fn request_routed(request: Request, kept: &[Step]) -> Request
    ensures { result ≡ request_routed request kept.now }
{
    match request {
        Request::Departure { .. } if !kept.is_empty() => Request::Filed,
        _ => request,
    }
}
