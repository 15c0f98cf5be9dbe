//! The search for a departure's route.
ghost use Rattle.std.specs.Prelude.{◌≡◌, ◌^◌, ◌<◌, ◌≤◌, length, All, IfOk};
ghost use Rattle.taxi_base.specs.Airport.{layout_of, IsWellFormed};
ghost use Rattle.taxi_base.specs.Walks.{conditions_of_class, ReachesNodeWithin};
ghost use Rattle.taxi_base.specs.Labels.{AnswersDeparture};
ghost use Rattle.walk_labels.specs.PlacesInWindows.{AreWindowLists};
ghost use Rattle.taxi_base.specs.Choices.{ReachesOneOfWithin};
ghost use Rattle.place_cells.specs.Laid.{windows_of, HaveNumbers};

use crate::cells::{DepartureCells, last_arcs};
use airport_file::Airport;
use label_search::{LabelRoom, latest_entries};
use place_cells::{CellNumbers, SearchGround, SearchRoom, steps_of};
use std::alloc::Global;
use taxi_base::{Class, Found, Memory, Node, Time};
use window_store::WindowStore;

/// A class that leaves a node, and leaves the last step of its way from `earliest_out` to `latest_out`.
#[derive(Clone, Copy, Debug, PartialEq, Eq)]
pub struct Departure {
    pub class: Class,
    pub from: Node,
    pub earliest_out: Time,
    pub latest_out: Time,
}

/// The picked one of the walks in the store's windows that end so and leave the node latest, with the labels past its begin;
/// or that there is no walk, with all labels. Each step keeps the class's clearance after it inside its window, but no longer than
/// to the horizon. What an earlier search left in the room does not matter.
///
/// The store has a list of windows for each segment, and none is past the horizon. `Memory` comes where no room can be made.
///
/// Say that S2 leads from G to A and S1 from A to RW, each in 30 seconds, that the clearance is 10, and that S1 is held from 150 to
/// 180. A departure that leaves its last step from 140 to 200 has to be past S1 by 140, for the clearance. So it is pushed back at
/// 80: it is on S2 from 80 to 110, and on S1 from 110 to 140.
pub fn depart(
    alloc: Global,
    room: &mut SearchRoom,
    airport: &Airport,
    store: &WindowStore,
    departure: Departure,
    to: Node,
) -> Result<Found, Memory>
    requires segments { length store.now.lists ≡ length airport.now.segments }
    requires horizon { All (All (λ w. w.until ≤ airport.now.horizon)) (windows_of store.now) }
    requires times { departure.earliest_out < 2 ^ 31 }
    ensures { IfOk result (AnswersDeparture (conditions_of_class airport.now departure.class (windows_of store.now)) departure.from (ReachesNodeWithin (layout_of airport.now) to departure.earliest_out departure.latest_out)) }
{
    depart_to_one_of(alloc, room, airport, store, departure, &[to])
}

/// The same where walks may end at any of some nodes: the picked one of all of them, with the labels past its begin, each the
/// latest entry of the walks to any of the nodes.
pub fn depart_to_one_of(
    alloc: Global,
    room: &mut SearchRoom,
    airport: &Airport,
    store: &WindowStore,
    departure: Departure,
    to: &[Node],
) -> Result<Found, Memory>
    requires segments { length store.now.lists ≡ length airport.now.segments }
    requires horizon { All (All (λ w. w.until ≤ airport.now.horizon)) (windows_of store.now) }
    requires times { departure.earliest_out < 2 ^ 31 }
    ensures { IfOk result (AnswersDeparture (conditions_of_class airport.now departure.class (windows_of store.now)) departure.from (ReachesOneOfWithin (layout_of airport.now) to.now departure.earliest_out departure.latest_out)) }
{
    // With the horizon comes that the airport keeps the rules.
    let _horizon = airport.horizon();
    room.numbers.fit(airport.graph().segments(), store)?;
    search_among(
        alloc,
        &mut room.labels,
        airport,
        store,
        &room.numbers,
        departure,
        to,
    )
}

/// The same over cells that have numbers.
fn search_among<'x>(
    alloc: Global,
    labels: &mut LabelRoom,
    airport: &'x Airport,
    store: &'x WindowStore,
    numbers: &'x CellNumbers,
    departure: Departure,
    to: &'x [Node],
) -> Result<Found, Memory>
    requires lists { AreWindowLists airport.now (windows_of store.now) }
    requires room { HaveNumbers (windows_of store.now) numbers.now.first.items }
    requires rules { IsWellFormed airport.now }
    requires times { departure.earliest_out < 2 ^ 31 }
    ensures { IfOk result (AnswersDeparture (conditions_of_class airport.now departure.class (windows_of store.now)) departure.from (ReachesOneOfWithin (layout_of airport.now) to.now departure.earliest_out departure.latest_out)) }
{
    let Departure {
        class,
        from,
        earliest_out,
        latest_out,
    } = departure;
    let classes = airport.classes();
    let ground = SearchGround {
        graph: airport.graph(),
        classes,
        store,
        numbers,
        class,
        times: classes.times(class),
        horizon: airport.horizon(),
        clearance: airport.clearance(class),
    };
    let last = last_arcs(alloc, &ground, to)?;
    let asked = DepartureCells {
        ground,
        from,
        to,
        last: &last,
        earliest_out,
        latest_out,
    };
    let label_search::Found {
        rows: labels,
        route,
    } = latest_entries(alloc, labels, &asked)?;
    match route {
        None => Ok(Found::NoRoute { labels }),
        Some(route) => {
            let steps = steps_of(alloc, &asked.ground, &route.steps)?;
            Ok(Found::Route { steps, labels })
        }
    }
}
