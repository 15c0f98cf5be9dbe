//! What the requests of a batch ask for, or why it is refused before any search.
ghost use Rattle.std.specs.Prelude.{◌≡◌, Some, None, IfOk, IfErr};
ghost use Rattle.replies.specs.Batches.{wish_of};
ghost use Rattle.replies.specs.Refusals.{first_of, tests_of_request};
ghost use Rattle.checked_state.specs.Flights.{state_of};
ghost use Rattle.due_refusals.specs.Batch.{AreBatchNamed};

use crate::asked::{is_full_with, new_arrival, new_departure};
use airport_file::Airport;
use checked_state::HeldFlights;
use replies::{Wish, asked_in, is_asked_for};
use std::alloc::Global;
use taxi_base::{List, Memory, Refusal, Request};
use taxi_text::BatchRequest;

/// What the requests of a batch ask for, in their order, or why it is refused.
#[derive(Drop)]
pub enum NamedBatch {
    Named { wishes: List<Wish> },
    Refused { why: Refusal },
}

/// What the requests of a batch ask for, or why it is refused. The requests are tried one after the other.
pub fn named_batch(
    alloc: Global,
    airport: &Airport,
    held: &HeldFlights,
    requests: &[BatchRequest],
) -> Result<NamedBatch, Memory>
    ensures { IfOk result (AreBatchNamed airport.now (state_of held.now) requests.now) }
{
    let mut wishes = List::new(alloc);
    for (place, request) in requests.iter().enumerate() {
        match named_after(airport, held, &requests[..place], request) {
            Ok(wish) => wishes.push(wish)?,
            Err(why) => return Ok(NamedBatch::Refused { why }),
        }
    }
    if is_full_with(held, requests.len()) {
        return Ok(NamedBatch::Refused { why: Refusal::Full });
    }
    Ok(NamedBatch::Named { wishes })
}

// What a request asks for, or why it is refused. The flights of those before it in the line have their names already.
fn named_after(
    airport: &Airport,
    held: &HeldFlights,
    before: &[BatchRequest],
    request: &BatchRequest,
) -> Result<Wish, Refusal>
    ensures named { IfOk result (λ wish. wish_of airport.now request.now ≡ Some wish) }
    ensures ok { IfOk result (λ wish. first_of (tests_of_request airport.now (state_of held.now) before.now request.now) ≡ None) }
    ensures err { IfErr result (λ why. first_of (tests_of_request airport.now (state_of held.now) before.now request.now) ≡ Some why) }
{
    let name = asked_in(request).flight;
    if is_asked_for(before, &name) {
        return Err(Refusal::InForce);
    }
    let (class, request) = match request {
        BatchRequest::Arrival(asked) => {
            let named = new_arrival(airport, held, asked)?;
            let request = Request::Arrival {
                from: named.from,
                to: named.to,
                time: asked.time,
                hold: asked.slack,
            };
            (named.class, request)
        }
        BatchRequest::Departure(asked) => {
            let named = new_departure(airport, held, asked)?;
            let request = Request::Departure {
                from: named.from,
                to: named.to,
                time: asked.time,
                queue: asked.slack,
            };
            (named.class, request)
        }
    };
    Ok(Wish {
        name,
        class,
        request,
    })
}
