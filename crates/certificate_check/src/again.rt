//! Routes that are told of flights in force, which are routed anew among the others.
ghost use Rattle.std.specs.Prelude.{◌≡◌, List as Items, Some, IsSome, OnOk, OnErr, length};
ghost use Rattle.taxi_base.specs.declared.answers.Flight.{Flight};
ghost use Rattle.taxi_base.specs.declared.rows.Step.{Step as StepRow};
ghost use Rattle.taxi_base.specs.Windows.{Hold};
ghost use Rattle.taxi_base.specs.Walks.{Meets, free_among};
ghost use Rattle.taxi_base.specs.State.{flight_named, flight_holds, without, with_route, conditions_of, IsSound};
ghost use Rattle.replies.specs.declared.block.Block.TheVariants.{Route, NoRoute};
ghost use Rattle.replies.specs.Sought.{sought_again, IsWalkOnFor};
ghost use Rattle.check_rows.specs.Known.{AreKnown, HaveMore};
ghost use Rattle.checked_state.specs.Flights.{state_of, HasSpansOf, HasRoomAgain};
ghost use Rattle.check_walks.specs.Told.{CanBeSought};
ghost use Rattle.due_refusals.specs.KnownIn.{AreKnownIn};
ghost use Rattle.certificate_check.specs.Desk.{IsReady};
ghost use Rattle.certificate_check.specs.Judged.{IsToldOf};
ghost use Rattle.certificate_check.specs.Again.{IsFoundAmong};

use crate::CheckRefused;
use crate::block_route::BlockRoute;
use crate::reply::{pass_if, pass_unless};
use airport_file::Airport;
use check_rows::KnownWindows;
use check_walks::{OnTheWay, SoughtWalk, ToldRoute, check_no_route, check_route};
use checked_state::HeldFlights;
use replies::Block;
use taxi_base::{LabelRow, List, Memory, Name, Request, Step, Time};

/// A flight in force that is routed anew: from which time on, with what request, and whether there may be no route.
#[derive(Clone, Copy)]
pub struct Anew<'a> {
    pub name: &'a Name,
    pub time: Time,
    pub request: Request,
    pub may_be_none: bool,
}

/// Checks what is told of a flight in force that is routed anew. Where a route passes, the flight has it afterwards.
pub fn check_again(
    airport: &Airport,
    held: &mut HeldFlights,
    known: &mut KnownWindows,
    anew: &Anew<'_>,
    block: Block,
) -> Result<(), CheckRefused>
    requires ready { IsReady airport.now held.old known.old }
    requires in_force { IsSome (flight_named anew.now.name.now (state_of held.old).flights) }
    requires sought { CanBeSought airport.now anew.now.request }
    requires meant { (flight : Flight) → flight_named anew.now.name.now (state_of held.old).flights ≡ Some flight → (steps : Items StepRow) → IsWalkOnFor (conditions_of airport.now (state_of held.old) flight) anew.now.request (record { steps = flight.steps; time = anew.now.time }) steps → Meets (conditions_of airport.now (state_of held.old) flight) anew.now.request steps }
    ensures told { (flight : Flight) → flight_named anew.now.name.now (state_of held.old).flights ≡ Some flight → IsToldOf (sought_again airport.now (state_of held.old) anew.now.name.now anew.now.time anew.now.may_be_none flight anew.now.request) block (state_of held.old) result (state_of held.new) }
    ensures ready { IsReady airport.now held.new known.new }
{
    match block {
        Block::Route {
            flight,
            second,
            steps,
            labels,
        } => {
            pass_if(flight == *anew.name)?;
            let route = BlockRoute {
                second,
                steps,
                labels,
            };
            check_other_route(airport, held, known, anew, route)
        }
        Block::NoRoute { labels } => {
            pass_if(anew.may_be_none)?;
            lift(airport, held, known, anew.name);
            let told = no_route_among(airport, held, known, anew, labels.as_slice());
            lower(airport, held, known, anew.name);
            told
        }
        _ => pass_if(false),
    }
}

// Checks the route that is told of a flight in force. Where it passes, the flight has it afterwards.
fn check_other_route(
    airport: &Airport,
    held: &mut HeldFlights,
    known: &mut KnownWindows,
    anew: &Anew<'_>,
    route: BlockRoute,
) -> Result<(), CheckRefused>
    requires ready { IsReady airport.now held.old known.old }
    requires in_force { IsSome (flight_named anew.now.name.now (state_of held.old).flights) }
    requires sought { CanBeSought airport.now anew.now.request }
    requires meant { (flight : Flight) → flight_named anew.now.name.now (state_of held.old).flights ≡ Some flight → (steps : Items StepRow) → IsWalkOnFor (conditions_of airport.now (state_of held.old) flight) anew.now.request (record { steps = flight.steps; time = anew.now.time }) steps → Meets (conditions_of airport.now (state_of held.old) flight) anew.now.request steps }
    ensures told { (flight : Flight) → flight_named anew.now.name.now (state_of held.old).flights ≡ Some flight → IsToldOf (sought_again airport.now (state_of held.old) anew.now.name.now anew.now.time anew.now.may_be_none flight anew.now.request) (Route anew.now.name.now route.second route.steps route.labels) (state_of held.old) result (state_of held.new) }
    ensures ready { IsReady airport.now held.new known.new }
{
    lift(airport, held, known, anew.name);
    let told = route_among(airport, held, known, anew, &route.as_told());
    if told.is_err() {
        lower(airport, held, known, anew.name);
        return told;
    }
    put_on(airport, held, known, anew.name, anew.request, route.steps)?;
    Ok(())
}

// Takes the spans of a flight in force out, and gives the known windows what no other holds: they are the windows without the
// flight.
fn lift(airport: &Airport, held: &mut HeldFlights, known: &mut KnownWindows, name: &Name)
    requires ready { IsReady airport.now held.old known.old }
    requires in_force { IsSome (flight_named name.now (state_of held.old).flights) }
    ensures state { state_of held.new ≡ state_of held.old }
    ensures spans { HasSpansOf airport.now (without name.now (state_of held.old)) held.new }
    ensures room { HasRoomAgain name.now held.new }
    ensures known { AreKnownIn airport.now (without name.now (state_of held.old)) known.new }
{
    held.lift(airport, name);
    let flight = held.flight(name).unwrap();
    let clearance = airport.clearance(flight.class);
    known.give_back(airport, held.spans(), clearance, flight.steps.as_slice());
}

// Puts the spans of a flight in force back, and cuts them out of the windows that are known without them.
fn lower(airport: &Airport, held: &mut HeldFlights, known: &mut KnownWindows, name: &Name)
    requires sound { IsSound airport.now (state_of held.old) }
    requires in_force { IsSome (flight_named name.now (state_of held.old).flights) }
    requires spans { HasSpansOf airport.now (without name.now (state_of held.old)) held.old }
    requires room { HasRoomAgain name.now held.old }
    requires known { AreKnownIn airport.now (without name.now (state_of held.old)) known.old }
    ensures state { state_of held.new ≡ state_of held.old }
    ensures spans { HasSpansOf airport.now (state_of held.old) held.new }
    ensures known { AreKnownIn airport.now (state_of held.old) known.new }
{
    held.lower(airport, name);
    cut_out(airport, held, known, name);
}

// Gives a flight in force, whose spans are taken out, another request and other steps, and cuts what it holds then out of the
// windows that are known without it. Where memory runs out that is what it held.
fn put_on(
    airport: &Airport,
    held: &mut HeldFlights,
    known: &mut KnownWindows,
    name: &Name,
    request: Request,
    steps: List<Step>,
) -> Result<(), Memory>
    requires sound { IsSound airport.now (state_of held.old) }
    requires in_force { IsSome (flight_named name.now (state_of held.old).flights) }
    requires met { (flight : Flight) → flight_named name.now (state_of held.old).flights ≡ Some flight → Meets (conditions_of airport.now (state_of held.old) flight) request steps }
    requires spans { HasSpansOf airport.now (without name.now (state_of held.old)) held.old }
    requires room { HasRoomAgain name.now held.old }
    requires known { AreKnownIn airport.now (without name.now (state_of held.old)) known.old }
    ensures ok { OnOk result ((flight : Flight) → flight_named name.now (state_of held.old).flights ≡ Some flight → state_of held.new ≡ with_route flight request steps (state_of held.old)) }
    ensures err { OnErr result (state_of held.new ≡ state_of held.old) }
    ensures spans { HasSpansOf airport.now (state_of held.new) held.new }
    ensures known { AreKnownIn airport.now (state_of held.new) known.new }
{
    let replaced = held.replace(airport, name, request, steps);
    cut_out(airport, held, known, name);
    replaced
}

/// Cuts what a flight in force holds out of the windows that are known without it.
pub(crate) fn cut_out(airport: &Airport, held: &HeldFlights, known: &mut KnownWindows, name: &Name)
    requires sound { IsSound airport.now (state_of held.now) }
    requires in_force { IsSome (flight_named name.now (state_of held.now).flights) }
    requires known { (holds : Items Hold) × AreKnown (length airport.now.segments) (free_among airport.now holds) known.old }
    ensures { (flight : Flight) → flight_named name.now (state_of held.now).flights ≡ Some flight → (holds others : Items Hold) → HaveMore (flight_holds airport.now flight) holds others → AreKnown (length airport.now.segments) (free_among airport.now holds) known.old → AreKnown (length airport.now.segments) (free_among airport.now others) known.new }
{
    let flight = held.flight(name).unwrap();
    let clearance = airport.clearance(flight.class);
    known.cut(airport, clearance, flight.steps.as_slice());
}

// Checks the rules after the form of a route that is told of a flight in force, whose spans are taken out.
fn route_among(
    airport: &Airport,
    held: &HeldFlights,
    known: &mut KnownWindows,
    anew: &Anew<'_>,
    route: &ToldRoute<'_>,
) -> Result<(), CheckRefused>
    requires sound { IsSound airport.now (state_of held.now) }
    requires in_force { IsSome (flight_named anew.now.name.now (state_of held.now).flights) }
    requires spans { HasSpansOf airport.now (without anew.now.name.now (state_of held.now)) held.now }
    requires known { AreKnownIn airport.now (without anew.now.name.now (state_of held.now)) known.old }
    requires sought { CanBeSought airport.now anew.now.request }
    ensures known { AreKnownIn airport.now (without anew.now.name.now (state_of held.now)) known.new }
    ensures found { IsFoundAmong airport.now (state_of held.now) anew.now.name.now anew.now.time anew.now.request (Route anew.now.name.now route.now.second route.now.steps.now route.now.labels.now) result }
{
    // The airport keeps its rules, so steps are entered early enough.
    let _ = airport.horizon();
    let flight = held.flight(anew.name).unwrap();
    let sought = SoughtWalk {
        request: anew.request,
        way: Some(OnTheWay {
            steps: flight.steps.as_slice(),
            time: anew.time,
        }),
        floor: None,
    };
    let broken = check_route(airport, flight.class, held.spans(), known, &sought, route)?;
    pass_unless(broken)
}

// The same where it is told that there is no route.
fn no_route_among(
    airport: &Airport,
    held: &HeldFlights,
    known: &mut KnownWindows,
    anew: &Anew<'_>,
    labels: &[LabelRow],
) -> Result<(), CheckRefused>
    requires sound { IsSound airport.now (state_of held.now) }
    requires in_force { IsSome (flight_named anew.now.name.now (state_of held.now).flights) }
    requires spans { HasSpansOf airport.now (without anew.now.name.now (state_of held.now)) held.now }
    requires known { AreKnownIn airport.now (without anew.now.name.now (state_of held.now)) known.old }
    requires sought { CanBeSought airport.now anew.now.request }
    ensures known { AreKnownIn airport.now (without anew.now.name.now (state_of held.now)) known.new }
    ensures found { IsFoundAmong airport.now (state_of held.now) anew.now.name.now anew.now.time anew.now.request (NoRoute labels.now) result }
{
    // The airport keeps its rules, so steps are entered early enough.
    let _ = airport.horizon();
    let flight = held.flight(anew.name).unwrap();
    let sought = SoughtWalk {
        request: anew.request,
        way: Some(OnTheWay {
            steps: flight.steps.as_slice(),
            time: anew.time,
        }),
        floor: None,
    };
    let broken = check_no_route(airport, flight.class, held.spans(), known, &sought, labels)?;
    pass_unless(broken)
}
