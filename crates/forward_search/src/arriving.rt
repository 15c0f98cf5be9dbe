//! The search for an arrival's route.
ghost use Rattle.std.specs.Prelude.{◌≡◌, ℕ, ◌≤◌, [], ◌∷◌, length, All, Contains, IfOk};
ghost use Rattle.taxi_base.specs.declared.numbers.Node.{Node as NodeNumber};
ghost use Rattle.taxi_base.specs.Airport.{layout_of, IsWellFormed};
ghost use Rattle.taxi_base.specs.Walks.{conditions_of_class};
ghost use Rattle.taxi_base.specs.Labels.{AnswersArrival};
ghost use Rattle.walk_labels.specs.Requests.{BeginsBy};
ghost use Rattle.walk_labels.specs.PlacesInWindows.{AreWindowLists};
ghost use Rattle.place_cells.specs.Laid.{windows_of, HaveNumbers};
ghost use Rattle.forward_search.specs.Arrivals.{beginning_of};
ghost use Rattle.taxi_base.specs.Choices.{AnswersArrivalToOneOf};
ghost use Rattle.forward_search.specs.Reached.{LeadsTo};

use crate::cells::ArrivalCells;
use crate::starting::Start;
use airport_file::Airport;
use label_search::{LabelRoom, earliest_exits};
use place_cells::{CellNumbers, SearchGround, SearchRoom, steps_of};
use std::alloc::Global;
use taxi_base::{Class, Found, Memory, Node};
use window_store::WindowStore;

/// The picked one of the walks in the store's windows that begin so and reach the node soonest, with the labels short of its
/// end; or that there is no walk, with all labels. Each step keeps the class's clearance after it inside its window, but no longer
/// than to the horizon. What an earlier search left in the room does not matter.
///
/// The store has a list of windows for each segment, and none is past the horizon. `Memory` comes where no room can be made.
///
/// Say that S1 leads from RW to A and S2 from A to G, each in 30 seconds, that the clearance is 10, and that S2 is held until
/// 100. An arrival from RW to G that may begin from 0 to 60 waits on S1: it is on S1 from 0 to 100, and on S2 from 100 to 130.
/// The one label short of 130 is that of S1, which can be left at 30.
pub fn arrive(
    alloc: Global,
    room: &mut SearchRoom,
    airport: &Airport,
    store: &WindowStore,
    start: Start,
    class: Class,
    to: Node,
) -> Result<Found, Memory>
    requires segments { length store.now.lists ≡ length airport.now.segments }
    requires horizon { All (All (λ w. w.until ≤ airport.now.horizon)) (windows_of store.now) }
    ensures { (leave : ℕ) → IfOk result (AnswersArrival (conditions_of_class airport.now class (windows_of store.now)) (BeginsBy (layout_of airport.now) (beginning_of start leave)) to) }
{
    arrive_to_one_of(alloc, room, airport, store, start, class, &[to])
}

/// The same where walks may reach any of some nodes: one that reaches any of them soonest. It is the picked one of those that
/// reach the node at its end, and where there is one node alone, of all. A label is short of the end of the best of all of them.
pub fn arrive_to_one_of(
    alloc: Global,
    room: &mut SearchRoom,
    airport: &Airport,
    store: &WindowStore,
    start: Start,
    class: Class,
    to: &[Node],
) -> Result<Found, Memory>
    requires segments { length store.now.lists ≡ length airport.now.segments }
    requires horizon { All (All (λ w. w.until ≤ airport.now.horizon)) (windows_of store.now) }
    ensures any { (leave : ℕ) → IfOk result (AnswersArrivalToOneOf (conditions_of_class airport.now class (windows_of store.now)) (BeginsBy (layout_of airport.now) (beginning_of start leave)) to.now) }
    ensures one { (leave : ℕ) (node : NodeNumber) → to.now ≡ node ∷ [] → IfOk result (AnswersArrival (conditions_of_class airport.now class (windows_of store.now)) (BeginsBy (layout_of airport.now) (beginning_of start leave)) node) }
    ensures last { (leave : ℕ) (node : NodeNumber) → Contains to.now node → IfOk result (λ found. LeadsTo (layout_of airport.now) node found → AnswersArrival (conditions_of_class airport.now class (windows_of store.now)) (BeginsBy (layout_of airport.now) (beginning_of start leave)) node found) }
{
    // With the horizon comes that the airport keeps the rules.
    let _horizon = airport.horizon();
    room.numbers.fit(airport.graph().segments(), store)?;
    search_among(
        alloc,
        &mut room.labels,
        airport,
        store,
        &room.numbers,
        start,
        class,
        to,
    )
}

/// The same over cells that have numbers.
fn search_among<'x>(
    alloc: Global,
    labels: &mut LabelRoom,
    airport: &'x Airport,
    store: &'x WindowStore,
    numbers: &'x CellNumbers,
    start: Start,
    class: Class,
    to: &'x [Node],
) -> Result<Found, Memory>
    requires lists { AreWindowLists airport.now (windows_of store.now) }
    requires room { HaveNumbers (windows_of store.now) numbers.now.first.items }
    requires rules { IsWellFormed airport.now }
    ensures any { (leave : ℕ) → IfOk result (AnswersArrivalToOneOf (conditions_of_class airport.now class (windows_of store.now)) (BeginsBy (layout_of airport.now) (beginning_of start leave)) to.now) }
    ensures one { (leave : ℕ) (node : NodeNumber) → to.now ≡ node ∷ [] → IfOk result (AnswersArrival (conditions_of_class airport.now class (windows_of store.now)) (BeginsBy (layout_of airport.now) (beginning_of start leave)) node) }
    ensures last { (leave : ℕ) (node : NodeNumber) → Contains to.now node → IfOk result (λ found. LeadsTo (layout_of airport.now) node found → AnswersArrival (conditions_of_class airport.now class (windows_of store.now)) (BeginsBy (layout_of airport.now) (beginning_of start leave)) node found) }
{
    let classes = airport.classes();
    let ground = SearchGround {
        graph: airport.graph(),
        classes,
        store,
        numbers,
        class,
        times: classes.times(class),
        horizon: airport.horizon(),
        clearance: airport.clearance(class),
    };
    let asked = ArrivalCells { ground, start, to };
    let label_search::Found {
        rows: labels,
        route,
    } = earliest_exits(alloc, labels, &asked)?;
    match route {
        None => Ok(Found::NoRoute { labels }),
        Some(route) => {
            let steps = steps_of(alloc, &asked.ground, &route.steps)?;
            Ok(Found::Route { steps, labels })
        }
    }
}
