//! What the requests of a batch ask for, or why it is refused before any search.
ghost use Rattle.std.specs.Prelude.{◌≡◌, Some, None, IfOk, IfErr};
ghost use Rattle.taxi_text.specs.declared.command.Command.TheVariants as command;
ghost use Rattle.replies.specs.Batches.{wish_of, wishes_of};
ghost use Rattle.replies.specs.Refusals.{first_of, tests_of_request, first_refusal};
ghost use Rattle.commitments.specs.Book.{Fits};
ghost use Rattle.command_refusals.specs.Accepted.{IsRefused};

use crate::asking::{arrival_trip, departure_trip};
use crate::holders::is_full_with;
use airport_file::Airport;
use commitments::Ledger;
use replies::{Wish, asked_in, is_asked_for};
use std::alloc::Global;
use taxi_base::{List, Refusal};
use taxi_text::BatchRequest;

/// What the requests of a batch ask for, in their order, or why it is refused. The requests are tried one after the other.
pub fn asked_batch(
    alloc: Global,
    airport: &Airport,
    ledger: &Ledger,
    requests: &[BatchRequest],
) -> Result<List<Wish>, Refusal>
    requires { Fits airport.now ledger.now }
    ensures named { IfOk result (λ wishes. wishes_of airport.now requests.now ≡ Some wishes) }
    ensures ok { IfOk result (λ wishes. first_refusal airport.now ledger.now.state (command.Batch requests.now) ≡ None) }
    ensures err { IfErr result (IsRefused airport.now ledger.now.state (command.Batch requests.now)) }
{
    let mut wishes = List::new(alloc);
    for (place, request) in requests.iter().enumerate() {
        let wish = asked_after(airport, ledger, &requests[..place], request)?;
        wishes.push(wish)?;
    }
    if is_full_with(airport, ledger, requests.len()) {
        return Err(Refusal::Full);
    }
    Ok(wishes)
}

// What a request asks for, or why it is refused. The flights of those before it in the line have their names already.
fn asked_after(
    airport: &Airport,
    ledger: &Ledger,
    before: &[BatchRequest],
    request: &BatchRequest,
) -> Result<Wish, Refusal>
    ensures named { IfOk result (λ wish. wish_of airport.now request.now ≡ Some wish) }
    ensures ok { IfOk result (λ wish. first_of (tests_of_request airport.now ledger.now.state before.now request.now) ≡ None) }
    ensures err { IfErr result (λ why. first_of (tests_of_request airport.now ledger.now.state before.now request.now) ≡ Some why) }
{
    let name = asked_in(request).flight;
    if is_asked_for(before, &name) {
        return Err(Refusal::InForce);
    }
    let (class, request) = match request {
        BatchRequest::Arrival(asked) => {
            let trip = arrival_trip(airport, ledger, asked)?;
            (trip.class, trip.arrival())
        }
        BatchRequest::Departure(asked) => {
            let trip = departure_trip(airport, ledger, asked)?;
            (trip.class, trip.departure())
        }
    };
    Ok(Wish {
        name,
        class,
        request,
    })
}
