//! The choice of runway nodes for a departure.
ghost use Rattle.std.specs.Prelude.{◌≡◌, ◌^◌, ◌<◌, ◌≤◌, List as Items, length, All, Contains, IfOk};
ghost use Rattle.taxi_base.specs.declared.rows.Step.{Step as StepRow};
ghost use Rattle.taxi_base.specs.Airport.{layout_of};
ghost use Rattle.taxi_base.specs.Walks.{conditions_of_class, IsRoute, LeavesNode, ReachesNodeWithin, BeginsLatest};
ghost use Rattle.taxi_base.specs.Labels.{IsPickedDeparture, AnswersDeparture};
ghost use Rattle.taxi_base.specs.Choices.{ReachesOneOfWithin, AnswersDepartureChoice};
ghost use Rattle.place_cells.specs.Laid.{windows_of};
ghost use Rattle.stand_choice.specs.Ways.{AreNodes, IsFirstByName, IsLeftForAt, NoneLater};

use crate::nodes::{named_before, node_at_end};
use airport_file::Airport;
use backward_search::{Departure, depart, depart_to_one_of};
use place_cells::SearchRoom;
use std::alloc::Global;
use taxi_base::{Chosen, Found, List, Memory, Node, Step, Time, begin_of};
use window_store::WindowStore;

/// Of the nodes, the one for which a walk in the store's windows leaves `from` latest, and of several the first by name, with the
/// route that is picked to it alone, and past its begin the latest entries of the walks to any of the nodes; or that no walk
/// reaches any of them, with all entries. Each step keeps the class's clearance after it inside its window. A node that is named
/// twice counts once. What an earlier search left in the room does not matter.
///
/// The store is as for `depart`, and each node is the airport's. `Memory` comes where no room can be made.
///
/// Of runway nodes R1, R2 and R3, for which the stand can be left as late as 80, 95 and 95, it is R2.
pub fn choose_departure(
    alloc: Global,
    room: &mut SearchRoom,
    airport: &Airport,
    store: &WindowStore,
    departure: Departure,
    to: &[Node],
) -> Result<Chosen, Memory>
    requires segments { length store.now.lists ≡ length airport.now.segments }
    requires horizon { All (All (λ w. w.until ≤ airport.now.horizon)) (windows_of store.now) }
    requires nodes { All (λ n. n.0 < length airport.now.nodes) to.now }
    requires times { departure.earliest_out < 2 ^ 31 }
    ensures { IfOk result (AnswersDepartureChoice (conditions_of_class airport.now departure.class (windows_of store.now)) departure.from to.now departure.earliest_out departure.latest_out) }
{
    let found = depart_to_one_of(alloc, room, airport, store, departure, to)?;
    match found {
        Found::NoRoute { labels } => Ok(Chosen::NoRoute { labels }),
        Found::Route { steps, labels } => {
            if to.len() == 1 {
                let to = to[0];
                return Ok(Chosen::Route { to, steps, labels });
            }
            let begin = begin_of(steps.as_slice());
            let node = node_at_end(airport, steps.as_slice());
            let to = first_by_name(alloc, room, airport, store, departure, to, node, begin)?;
            let steps = route_to(alloc, room, airport, store, departure, to)?;
            Ok(Chosen::Route { to, steps, labels })
        }
    }
}

/// The route that is picked to a node alone, where there is a walk to it.
fn route_to(
    alloc: Global,
    room: &mut SearchRoom,
    airport: &Airport,
    store: &WindowStore,
    departure: Departure,
    node: Node,
) -> Result<List<Step>, Memory>
    requires segments { length store.now.lists ≡ length airport.now.segments }
    requires horizon { All (All (λ w. w.until ≤ airport.now.horizon)) (windows_of store.now) }
    requires times { departure.earliest_out < 2 ^ 31 }
    requires walk { (steps : Items StepRow) × IsRoute (conditions_of_class airport.now departure.class (windows_of store.now)) (LeavesNode (layout_of airport.now) departure.from) (ReachesNodeWithin (layout_of airport.now) node departure.earliest_out departure.latest_out) steps }
    ensures best { IfOk result (BeginsLatest (IsRoute (conditions_of_class airport.now departure.class (windows_of store.now)) (LeavesNode (layout_of airport.now) departure.from) (ReachesNodeWithin (layout_of airport.now) node departure.earliest_out departure.latest_out))) }
    ensures picked { IfOk result (IsPickedDeparture (conditions_of_class airport.now departure.class (windows_of store.now)) (ReachesNodeWithin (layout_of airport.now) node departure.earliest_out departure.latest_out) departure.from) }
{
    let found = depart(alloc, room, airport, store, departure, node)?;
    match found {
        Found::Route { steps, .. } => Ok(steps),
        Found::NoRoute { .. } => unreachable!(),
    }
}

/// The first by name of the nodes for which a walk begins at a time, as one does for `node`. The walks to the nodes whose names
/// come before are looked at all at once; where one of them begins as late, its node is the one to go on from.
fn first_by_name(
    alloc: Global,
    room: &mut SearchRoom,
    airport: &Airport,
    store: &WindowStore,
    departure: Departure,
    nodes: &[Node],
    node: Node,
    begin: Time,
) -> Result<Node, Memory>
    requires segments { length store.now.lists ≡ length airport.now.segments }
    requires horizon { All (All (λ w. w.until ≤ airport.now.horizon)) (windows_of store.now) }
    requires times { departure.earliest_out < 2 ^ 31 }
    requires nodes { AreNodes airport.now nodes.now }
    requires named { Contains nodes.now node }
    requires left { IsLeftForAt (conditions_of_class airport.now departure.class (windows_of store.now)) departure.from departure.earliest_out departure.latest_out begin node }
    requires none_later { NoneLater (conditions_of_class airport.now departure.class (windows_of store.now)) departure.from nodes.now departure.earliest_out departure.latest_out begin }
    ensures { IfOk result (IsFirstByName airport.now nodes.now (IsLeftForAt (conditions_of_class airport.now departure.class (windows_of store.now)) departure.from departure.earliest_out departure.latest_out begin)) }
{
    let before = named_before(alloc, airport, nodes, node)?;
    if before.is_empty() {
        return Ok(node);
    }
    let found = depart_to_one_of(alloc, room, airport, store, departure, &before)?;
    let Found::Route { steps, .. } = found else {
        return Ok(node);
    };
    if begin_of(steps.as_slice()) < begin {
        return Ok(node);
    }
    let other = node_at_end(airport, steps.as_slice());
    first_by_name(
        alloc, room, airport, store, departure, &before, other, begin,
    )
}
