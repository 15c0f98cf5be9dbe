//! What is told of new flights, which are in force afterwards on routes that pass.
ghost use Rattle.std.specs.Prelude.{ℕ, ◌≡◌, ◌<◌, ◌∷◌, [], false, Some, List as Items, OnOk, OnErr, length, All, IsTrue};
ghost use Rattle.taxi_base.specs.declared.numbers.Node.{Node as NodeNumber};
ghost use Rattle.taxi_base.specs.Airport.{layout_of, arc_exists};
ghost use Rattle.taxi_base.specs.Walks.{Meets};
ghost use Rattle.taxi_base.specs.State.{has_holder, holder_count, with_flight};
ghost use Rattle.taxi_base.specs.Faults.{conditions_in};
ghost use Rattle.taxi_base.specs.Again.{IsTarget};
ghost use Rattle.replies.specs.declared.block.Block.TheVariants.{Route, NoRoute};
ghost use Rattle.replies.specs.Sought.{Sought, node_reached, sought_wish};
ghost use Rattle.replies.specs.Passes.{KeepsSought};
ghost use Rattle.checked_state.specs.Flights.{state_of};
ghost use Rattle.check_walks.specs.Told.{CanBeSought};
ghost use Rattle.check_walks.specs.Choice.{CanBeSoughtAny};
ghost use Rattle.certificate_check.specs.Desk.{CanGoOn, IsReady};
ghost use Rattle.certificate_check.specs.NewFlight.{SeeksNew};
ghost use Rattle.certificate_check.specs.Judged.{IsAnsweredBy, IsToldOf};

use crate::CheckRefused;
use crate::again::cut_out;
use crate::block_route::BlockRoute;
use crate::reply::{pass_if, pass_unless};
use airport_file::Airport;
use check_rows::KnownWindows;
use check_walks::{SoughtWalkToAny, ToldRoute, check_no_route_to_any, check_route_to_any};
use checked_state::HeldFlights;
use replies::{Block, Wish};
use std::slice;
use taxi_base::{Flight, LabelRow, Memory, Node, Request, Step};

/// Checks what is told of a new flight to the node of its request. Where a route passes, the flight is in force on it afterwards.
pub fn check_new(
    airport: &Airport,
    held: &mut HeldFlights,
    known: &mut KnownWindows,
    wish: &Wish,
    block: Block,
) -> Result<(), CheckRefused>
    requires ready { IsReady airport.now held.old known.old }
    requires absent { has_holder wish.now.name (state_of held.old) ≡ false }
    requires few { holder_count (state_of held.old) < 4096 }
    requires sought { CanBeSought airport.now wish.now.request }
    ensures told { IsToldOf (sought_wish airport.now (state_of held.old) wish.now) block (state_of held.old) result (state_of held.new) }
    ensures ready { IsReady airport.now held.new known.new }
{
    check_new_to_any(airport, held, known, wish, target_of(&wish.request), block)
}

// The node that a request asks for, as the only one of a list. There is none where the flight was filed.
fn target_of(request: &Request) -> &[Node]
    ensures { (to : NodeNumber) → IsTarget request.now to → result.now ≡ to ∷ [] }
{
    match request {
        Request::Filed => &[],
        Request::Arrival { to, .. } => slice::from_ref(to),
        Request::Departure { to, .. } => slice::from_ref(to),
    }
}

/// Checks what is told of a new flight to any of some nodes, of which its request has the first. Where a route passes, the flight
/// is in force on it afterwards, with the node that its route reaches as the one that it asked for.
pub fn check_new_to_any(
    airport: &Airport,
    held: &mut HeldFlights,
    known: &mut KnownWindows,
    wish: &Wish,
    nodes: &[Node],
    block: Block,
) -> Result<(), CheckRefused>
    requires ready { IsReady airport.now held.old known.old }
    requires absent { has_holder wish.now.name (state_of held.old) ≡ false }
    requires few { holder_count (state_of held.old) < 4096 }
    requires sought { CanBeSoughtAny airport.now wish.now.request nodes.now }
    requires seeks { (s : Sought) × SeeksNew airport.now (state_of held.old) wish.now nodes.now s }
    ensures told { (s : Sought) → SeeksNew airport.now (state_of held.old) wish.now nodes.now s → IsToldOf s block (state_of held.old) result (state_of held.new) }
    ensures ready { IsReady airport.now held.new known.new }
{
    match block {
        Block::Route {
            flight,
            second,
            steps,
            labels,
        } => {
            pass_if(flight == wish.name)?;
            let route = BlockRoute {
                second,
                steps,
                labels,
            };
            check_new_route(airport, held, known, wish, nodes, route)
        }
        Block::NoRoute { labels } => {
            no_route_among(airport, held, known, wish, nodes, labels.as_slice())
        }
        _ => pass_if(false),
    }
}

// Checks the route that is told of a new flight. Where it passes, the flight is in force on it afterwards, with the node that it
// reaches.
fn check_new_route(
    airport: &Airport,
    held: &mut HeldFlights,
    known: &mut KnownWindows,
    wish: &Wish,
    nodes: &[Node],
    route: BlockRoute,
) -> Result<(), CheckRefused>
    requires ready { IsReady airport.now held.old known.old }
    requires absent { has_holder wish.now.name (state_of held.old) ≡ false }
    requires few { holder_count (state_of held.old) < 4096 }
    requires sought { CanBeSoughtAny airport.now wish.now.request nodes.now }
    requires seeks { (s : Sought) × SeeksNew airport.now (state_of held.old) wish.now nodes.now s }
    ensures told { (s : Sought) → SeeksNew airport.now (state_of held.old) wish.now nodes.now s → IsToldOf s (Route wish.now.name route.second route.steps route.labels) (state_of held.old) result (state_of held.new) }
    ensures ready { IsReady airport.now held.new known.new }
{
    let told = route.as_told();
    route_among(airport, held, known, wish, nodes, &told)?;
    let to = node_at_end(airport, told.steps);
    let flight = Flight {
        name: wish.name,
        class: wish.class,
        request: wish.request.retargeted(to),
        steps: route.steps,
    };
    put_in_force(airport, held, known, flight)?;
    Ok(())
}

// Checks the rules after the form of a route that is told of a new flight.
fn route_among(
    airport: &Airport,
    held: &HeldFlights,
    known: &mut KnownWindows,
    wish: &Wish,
    nodes: &[Node],
    route: &ToldRoute<'_>,
) -> Result<(), CheckRefused>
    requires ready { IsReady airport.now held.now known.old }
    requires sought { CanBeSoughtAny airport.now wish.now.request nodes.now }
    requires some { 0 < length nodes.now }
    ensures ready { IsReady airport.now held.now known.new }
    ensures found { (s : Sought) → SeeksNew airport.now (state_of held.now) wish.now nodes.now s → (name : Items ℕ) → IsAnsweredBy (λ rule. KeepsSought rule s (Route name route.now.second route.now.steps.now route.now.labels.now)) result }
{
    let sought = SoughtWalkToAny {
        request: wish.request,
        nodes,
    };
    let broken = check_route_to_any(airport, wish.class, held.spans(), known, &sought, route)?;
    pass_unless(broken)
}

// The same where it is told that there is no route.
fn no_route_among(
    airport: &Airport,
    held: &HeldFlights,
    known: &mut KnownWindows,
    wish: &Wish,
    nodes: &[Node],
    labels: &[LabelRow],
) -> Result<(), CheckRefused>
    requires ready { IsReady airport.now held.now known.old }
    requires sought { CanBeSoughtAny airport.now wish.now.request nodes.now }
    requires some { 0 < length nodes.now }
    ensures ready { IsReady airport.now held.now known.new }
    ensures found { (s : Sought) → SeeksNew airport.now (state_of held.now) wish.now nodes.now s → IsAnsweredBy (λ rule. KeepsSought rule s (NoRoute labels.now)) result }
{
    let sought = SoughtWalkToAny {
        request: wish.request,
        nodes,
    };
    let broken = check_no_route_to_any(airport, wish.class, held.spans(), known, &sought, labels)?;
    pass_unless(broken)
}

// The node that the last of some steps reaches.
fn node_at_end(airport: &Airport, steps: &[Step]) -> Node
    requires some { 0 < length steps.now }
    requires arcs { All (λ step. IsTrue (arc_exists (layout_of airport.now) step.arc)) steps.now }
    ensures { node_reached (layout_of airport.now) steps.now ≡ Some result }
{
    airport.graph().head(steps[steps.len() - 1].arc)
}

/// Puts a new flight in force, and cuts what it holds out of the windows that are known. Where memory runs out the flights
/// stay as they are.
pub(crate) fn put_in_force(
    airport: &Airport,
    held: &mut HeldFlights,
    known: &mut KnownWindows,
    flight: Flight,
) -> Result<(), Memory>
    requires ready { IsReady airport.now held.old known.old }
    requires absent { has_holder flight.name (state_of held.old) ≡ false }
    requires few { holder_count (state_of held.old) < 4096 }
    requires goes_on { CanGoOn airport.now flight.request }
    requires met { Meets (conditions_in airport.now flight.class (state_of held.old)) flight.request flight.steps }
    ensures ok { OnOk result (state_of held.new ≡ with_flight flight (state_of held.old)) }
    ensures err { OnErr result (state_of held.new ≡ state_of held.old) }
    ensures ready { IsReady airport.now held.new known.new }
{
    let name = flight.name;
    held.put_in(airport, flight)?;
    cut_out(airport, held, known, &name);
    Ok(())
}
