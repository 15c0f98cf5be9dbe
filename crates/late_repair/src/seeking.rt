//! The search for the way that a flight takes at its turn.
ghost use Rattle.std.specs.Prelude.{◌≡◌, ◌≢◌, ◌^◌, ◌<◌, ◌≤◌, length, All, IfOk, None};
ghost use Rattle.taxi_base.specs.declared.answers.Found.TheVariants.{NoRoute};
ghost use Rattle.taxi_base.specs.declared.answers.Request.TheVariants.{Filed};
ghost use Rattle.taxi_base.specs.Airport.{layout_of};
ghost use Rattle.taxi_base.specs.Walks.{conditions_of_class, ReachesNodeWithin};
ghost use Rattle.taxi_base.specs.Faults.{conditions_in};
ghost use Rattle.taxi_base.specs.Labels.{AnswersDepartureAfter, labels_after, found_after};
ghost use Rattle.taxi_base.specs.Late.{AnswersTurn};
ghost use Rattle.place_cells.specs.Laid.{windows_of};
ghost use Rattle.commitments.specs.Book.{Fits};
ghost use Rattle.late_repair.specs.Repairing.{IsTimely, HasSteps};

use airport_file::Airport;
use backward_search::{Departure, depart};
use commitments::Ledger;
use forward_search::{Onward, arrive_onward};
use place_cells::SearchRoom;
use std::alloc::Global;
use taxi_base::{Class, Found, LabelRow, List, Memory, Node, Request, Step, Time, begin_of};
use window_store::WindowStore;

/// Searches for what a class seeks at its turn among the others, with the steps that it keeps, from a time on. An arrival goes on from
/// the last of them, and a departure begins after the time. What an earlier search left in the room does not matter.
pub(crate) fn find_way(
    alloc: Global,
    room: &mut SearchRoom,
    airport: &Airport,
    others: &Ledger,
    class: Class,
    sought: &Request,
    kept: &[Step],
    time: Time,
) -> Result<Found, Memory>
    requires fits { Fits airport.now others.now }
    requires unlifted { others.now.lifted ≡ None }
    requires asked { sought.now ≢ Filed }
    requires timely { IsTimely airport.now sought.now }
    ensures { IfOk result (AnswersTurn (conditions_in airport.now class others.now.state) sought.now kept.now time) }
{
    // The horizon is near, so that what a departure asks for is in time.
    let _horizon = airport.horizon();
    let store = others.store();
    match *sought {
        Request::Filed => unreachable!(),
        Request::Arrival {
            from,
            to,
            time: asked,
            hold,
        } => {
            let onward = Onward {
                steps: kept,
                time,
                from,
                asked,
                hold,
            };
            arrive_onward(alloc, room, airport, store, onward, class, to)
        }
        Request::Departure {
            from,
            to,
            time: asked,
            queue,
        } => {
            let departure = Departure {
                class,
                from,
                earliest_out: asked.saturating_sub(queue),
                latest_out: asked,
            };
            depart_after(alloc, room, airport, store, departure, to, time)
        }
    }
}

// The picked one of the walks of a departure in the store's windows, where it begins after a second; or that there is none that does.
fn depart_after(
    alloc: Global,
    room: &mut SearchRoom,
    airport: &Airport,
    store: &WindowStore,
    departure: Departure,
    to: Node,
    bound: Time,
) -> Result<Found, Memory>
    requires segments { length store.now.lists ≡ length airport.now.segments }
    requires horizon { All (All (λ w. w.until ≤ airport.now.horizon)) (windows_of store.now) }
    requires times { departure.earliest_out < 2 ^ 31 }
    ensures { IfOk result (AnswersDepartureAfter (conditions_of_class airport.now departure.class (windows_of store.now)) departure.from (ReachesNodeWithin (layout_of airport.now) to departure.earliest_out departure.latest_out) bound) }
{
    let found = depart(alloc, room, airport, store, departure, to)?;
    found_after(alloc, bound, found)
}

// What was found, where only walks count that begin after a second.
fn found_after(alloc: Global, bound: Time, found: Found) -> Result<Found, Memory>
    requires { HasSteps found }
    ensures { IfOk result (λ after. after ≡ found_after bound found) }
{
    match found {
        Found::Route { steps, labels } => {
            if bound < begin_of(steps.as_slice()) {
                return Ok(Found::Route { steps, labels });
            }
            none_after(alloc, bound, labels.as_slice())
        }
        Found::NoRoute { labels } => none_after(alloc, bound, labels.as_slice()),
    }
}

// That there is no walk, with the labels after a second.
fn none_after(alloc: Global, bound: Time, labels: &[LabelRow]) -> Result<Found, Memory>
    ensures { IfOk result (λ found. found ≡ NoRoute (labels_after bound labels.now)) }
{
    let mut after = List::new(alloc);
    for label in labels {
        if bound < label.value {
            after.push(*label)?;
        }
    }
    Ok(Found::NoRoute { labels: after })
}
