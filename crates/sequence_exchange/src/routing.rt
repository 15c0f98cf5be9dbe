//! The search for what a new flight wishes for.
ghost use Rattle.std.specs.Prelude.{◌≡◌, ◌<◌, length, IfOk, None};
ghost use Rattle.taxi_base.specs.Walks.{begin_of, end_of};
ghost use Rattle.taxi_base.specs.Faults.{conditions_in};
ghost use Rattle.replies.specs.Asked.{AnswersRequest};
ghost use Rattle.replies.specs.Routed.{second_of};
ghost use Rattle.commitments.specs.Book.{Fits};
ghost use Rattle.sequence_exchange.specs.Serving.{IsShortRequest};

use airport_file::Airport;
use backward_search::{Departure, depart};
use commitments::Ledger;
use forward_search::{Start, arrive};
use place_cells::SearchRoom;
use replies::Wish;
use std::alloc::Global;
use taxi_base::{Found, Memory, Request, Step, Time, begin_of, end_of};

/// Searches for what a new flight wishes for, among the holders in force. What an earlier search left in the room does not matter.
pub fn find_route(
    alloc: Global,
    room: &mut SearchRoom,
    airport: &Airport,
    ledger: &Ledger,
    wish: &Wish,
) -> Result<Found, Memory>
    requires fits { Fits airport.now ledger.now }
    requires unlifted { ledger.now.lifted ≡ None }
    requires asked { IsShortRequest wish.now.request }
    ensures { IfOk result (AnswersRequest (conditions_in airport.now wish.now.class ledger.now.state) wish.now.request) }
{
    let store = ledger.store();
    match wish.request {
        Request::Filed => unreachable!(),
        Request::Arrival {
            from,
            to,
            time,
            hold,
        } => {
            let start = Start::Node {
                from,
                earliest: time,
                latest: time + hold,
            };
            arrive(alloc, room, airport, store, start, wish.class, to)
        }
        Request::Departure {
            from,
            to,
            time,
            queue,
        } => {
            let earliest_out = time.saturating_sub(queue);
            let departure = Departure {
                class: wish.class,
                from,
                earliest_out,
                latest_out: time,
            };
            depart(alloc, room, airport, store, departure, to)
        }
    }
}

/// The second that is told with a route: where a departure begins, and where an arrival ends.
pub fn second_of(request: &Request, steps: &[Step]) -> Time
    requires { 0 < length steps.now }
    ensures { result ≡ second_of request.now steps.now }
{
    match request {
        Request::Departure { .. } => begin_of(steps),
        _ => end_of(steps),
    }
}
