//! What it costs to serve flights.
ghost use Rattle.std.specs.Prelude.{◌≡◌, ◌≤◌, length};
ghost use Rattle.sequence_exchange.specs.Serving.{IsFairFor, AreFairFor, seconds_lost, all_seconds_lost};

use replies::{Entry, Wish};
use taxi_base::{Name, Request};

/// What it costs where there is no route.
const NO_ROUTE: u32 = 1_000_000;

// An arrival costs its end less its TIME, a departure its TIME less its pushback.
fn cost(request: &Request, entry: &Entry) -> u32
    requires { IsFairFor request.now entry.now }
    ensures { result ≡ seconds_lost request.now entry.now }
{
    match entry {
        Entry::Route { second, .. } => match request {
            Request::Arrival { time, .. } => *second - *time,
            Request::Departure { time, .. } => *time - *second,
            Request::Filed => 0,
        },
        Entry::NoRoute { .. } => NO_ROUTE,
        Entry::Dropped => 0,
    }
}

/// What entries cost together, each for the wish at its place.
pub(crate) fn total_cost(wishes: &[Wish], entries: &[(Name, Entry)]) -> u32
    requires same { length entries.now ≡ length wishes.now }
    requires fair { AreFairFor wishes.now entries.now }
    requires few { length wishes.now ≤ 6 }
    ensures { result ≡ all_seconds_lost wishes.now entries.now }
{
    let mut total = 0;
    for place in 0..wishes.len() {
        let (_, entry) = &entries[place];
        total += cost(&wishes[place].request, entry);
    }
    total
}
