//! The search for the way that a flight takes anew.
ghost use Rattle.std.specs.Prelude.{◌≡◌, ◌≤◌, length, All, IfOk, None, is_some};
ghost use Rattle.taxi_base.specs.Walks.{conditions_of_class, Meets};
ghost use Rattle.taxi_base.specs.declared.numbers.Node.{Node as NodeNumber};
ghost use Rattle.taxi_base.specs.Again.{AnswersAgain};
ghost use Rattle.place_cells.specs.Laid.{windows_of};
ghost use Rattle.reroute.specs.Refused.{flight_refusal};
ghost use Rattle.reroute.specs.Anew.{IsMeant};

use airport_file::Airport;
use backward_search::{Departure, depart};
use forward_search::{Onward, arrive_onward};
use place_cells::SearchRoom;
use std::alloc::Global;
use taxi_base::{Flight, Found, Memory, Node, Request, Time};
use window_store::WindowStore;

/// Searches in a store's windows for the way that a flight takes from a time on, to the node that is meant. An arrival goes on
/// from the step that it has begun, or begins at the time or later; a departure is searched for as at first.
pub(crate) fn find_anew(
    alloc: Global,
    room: &mut SearchRoom,
    airport: &Airport,
    store: &WindowStore,
    flight: &Flight,
    time: Time,
    to: Option<Node>,
) -> Result<Found, Memory>
    requires segments { length store.now.lists ≡ length airport.now.segments }
    requires horizon { All (All (λ w. w.until ≤ airport.now.horizon)) (windows_of store.now) }
    requires may { flight_refusal time (is_some to) flight.now ≡ None }
    requires met { Meets (conditions_of_class airport.now flight.now.class (windows_of store.now)) flight.now.request flight.now.steps }
    ensures { IfOk result (λ found. (target : NodeNumber) × IsMeant to flight.now.request target × AnswersAgain (conditions_of_class airport.now flight.now.class (windows_of store.now)) flight.now.steps time target flight.now.request found) }
{
    // With the horizon comes that the airport keeps the rules.
    let _horizon = airport.horizon();
    let class = flight.class;
    match flight.request {
        Request::Filed => unreachable!(),
        Request::Arrival {
            from,
            to: own,
            time: asked,
            hold,
        } => {
            let onward = Onward {
                steps: flight.steps.as_slice(),
                time,
                from,
                asked,
                hold,
            };
            let target = to.unwrap_or(own);
            arrive_onward(alloc, room, airport, store, onward, class, target)
        }
        Request::Departure {
            from,
            to: own,
            time: asked,
            queue,
        } => {
            let target = to.unwrap_or(own);
            let earliest_out = asked.saturating_sub(queue);
            let departure = Departure {
                class,
                from,
                earliest_out,
                latest_out: asked,
            };
            depart(alloc, room, airport, store, departure, target)
        }
    }
}
