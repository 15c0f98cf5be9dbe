//! The choice of stands for an arrival.
ghost use Rattle.std.specs.Prelude.{◌≡◌, ◌<◌, ◌≤◌, length, All, Contains, IsTrue, IfOk};
ghost use Rattle.taxi_base.specs.Airport.{layout_of, arc_exists};
ghost use Rattle.taxi_base.specs.Walks.{conditions_of_class, end_of, AtLast, ReachesNode};
ghost use Rattle.taxi_base.specs.Choices.{AnswersArrivalChoice};
ghost use Rattle.walk_labels.specs.Requests.{BeginsBy};
ghost use Rattle.place_cells.specs.Laid.{windows_of};
ghost use Rattle.forward_search.specs.Arrivals.{beginning_of};
ghost use Rattle.stand_choice.specs.Ways.{AreNodes, IsFirstByName, IsReachedAt, NoneEarlier, IsWay};

use crate::nodes::{named_before, node_at_end};
use airport_file::Airport;
use forward_search::{Start, arrive_to_one_of};
use place_cells::SearchRoom;
use std::alloc::Global;
use taxi_base::{Chosen, Class, Found, List, Memory, Node, Step, end_of};
use window_store::WindowStore;

/// Of the nodes, the one that a walk in the store's windows reaches soonest, and of several that are reached then the first by
/// name, with the route that is picked to it and the labels short of its end; or that no walk reaches any of them, with all
/// labels. Each step keeps the class's clearance after it inside its window. A node that is named twice counts once. What an earlier
/// search left in the room does not matter.
///
/// The store is as for `arrive`, and each node is the airport's. `Memory` comes where no room can be made.
///
/// Of stands G2, G1 and G3, reached at 120, 120 and 90, it is G3, and of G2 and G1 alone it is G1, whichever is named first.
pub fn choose_arrival(
    alloc: Global,
    room: &mut SearchRoom,
    airport: &Airport,
    store: &WindowStore,
    start: Start,
    class: Class,
    to: &[Node],
) -> Result<Chosen, Memory>
    requires segments { length store.now.lists ≡ length airport.now.segments }
    requires horizon { All (All (λ w. w.until ≤ airport.now.horizon)) (windows_of store.now) }
    requires nodes { All (λ n. n.0 < length airport.now.nodes) to.now }
    ensures { IfOk result (AnswersArrivalChoice (conditions_of_class airport.now class (windows_of store.now)) (BeginsBy (layout_of airport.now) (beginning_of start 0)) to.now) }
{
    let found = arrive_to_one_of(alloc, room, airport, store, start, class, to)?;
    match found {
        Found::NoRoute { labels } => Ok(Chosen::NoRoute { labels }),
        Found::Route { steps, labels } => {
            let best = way_of(airport, steps);
            let way = first_by_name(alloc, room, airport, store, start, class, to, best)?;
            Ok(Chosen::Route {
                to: way.to,
                steps: way.steps,
                labels,
            })
        }
    }
}

/// A route, with the node that it reaches.
#[derive(Drop)]
struct Way {
    to: Node,
    steps: List<Step>,
}

fn way_of(airport: &Airport, steps: List<Step>) -> Way
    requires { AtLast (λ s. IsTrue (arc_exists (layout_of airport.now) s.arc)) steps }
    ensures steps { result.steps ≡ steps }
    ensures reached { AtLast (ReachesNode (layout_of airport.now) result.to) result.steps }
    ensures exists { result.to.0 < length airport.now.nodes }
{
    let to = node_at_end(airport, steps.as_slice());
    Way { to, steps }
}

/// The first by name of the nodes that are reached as soon as the one of a way, with its way. The walks to the nodes whose names
/// come before are looked at all at once; where one of them ends as soon, that is the way to go on from.
fn first_by_name(
    alloc: Global,
    room: &mut SearchRoom,
    airport: &Airport,
    store: &WindowStore,
    start: Start,
    class: Class,
    nodes: &[Node],
    way: Way,
) -> Result<Way, Memory>
    requires segments { length store.now.lists ≡ length airport.now.segments }
    requires horizon { All (All (λ w. w.until ≤ airport.now.horizon)) (windows_of store.now) }
    requires nodes { AreNodes airport.now nodes.now }
    requires named { Contains nodes.now way.to }
    requires way { IsWay (conditions_of_class airport.now class (windows_of store.now)) (BeginsBy (layout_of airport.now) (beginning_of start 0)) way }
    requires none_earlier { NoneEarlier (conditions_of_class airport.now class (windows_of store.now)) (BeginsBy (layout_of airport.now) (beginning_of start 0)) nodes.now (end_of way.steps) }
    ensures first { IfOk result (λ w. IsFirstByName airport.now nodes.now (IsReachedAt (conditions_of_class airport.now class (windows_of store.now)) (BeginsBy (layout_of airport.now) (beginning_of start 0)) (end_of way.steps)) w.to) }
    ensures way { IfOk result (IsWay (conditions_of_class airport.now class (windows_of store.now)) (BeginsBy (layout_of airport.now) (beginning_of start 0))) }
    ensures as_early { IfOk result (λ w. end_of w.steps ≡ end_of way.steps) }
{
    let before = named_before(alloc, airport, nodes, way.to)?;
    if before.is_empty() {
        return Ok(way);
    }
    let found = arrive_to_one_of(alloc, room, airport, store, start, class, &before)?;
    let Found::Route { steps, .. } = found else {
        return Ok(way);
    };
    if end_of(way.steps.as_slice()) < end_of(steps.as_slice()) {
        return Ok(way);
    }
    let other = way_of(airport, steps);
    first_by_name(alloc, room, airport, store, start, class, &before, other)
}
