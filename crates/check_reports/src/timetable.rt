//! The rows that tell of the flights in force.
ghost use Rattle.std.specs.Prelude.{◌≡◌, ◌↔◌, IsTrue, length, map};
ghost use Rattle.taxi_base.specs.Walks.{begin_of, end_of};
ghost use Rattle.taxi_base.specs.Reports.{kind_of_request, flight_row};
ghost use Rattle.checked_state.specs.Flights.{flights_of};

use checked_state::FlightList;
use taxi_base::{Flight, FlightKind, FlightRow, Request, Step, Time, begin_of, end_of};

/// Whether rows tell of flights, one row of each and in their order.
pub fn are_flight_rows(rows: &[FlightRow], flights: &FlightList) -> bool
    ensures { IsTrue result ↔ (rows.now ≡ map flight_row (flights_of flights.now)) }
{
    if rows.len() != flights.len() {
        return false;
    }
    for (at, row) in rows.iter().enumerate() {
        if !is_row_of(row, flights.at(at)) {
            return false;
        }
    }
    true
}

fn is_row_of(row: &FlightRow, flight: &Flight) -> bool
    ensures { IsTrue result ↔ (row.now ≡ flight_row flight.now) }
{
    *row == flight_row(flight)
}

fn flight_row(flight: &Flight) -> FlightRow
    ensures { result ≡ flight_row flight.now }
{
    let (start, end) = times_of(flight.steps.as_slice());
    FlightRow {
        flight: flight.name,
        kind: kind_of(&flight.request),
        class: flight.class,
        start,
        end,
    }
}

fn kind_of(request: &Request) -> FlightKind
    ensures { result ≡ kind_of_request request.now }
{
    match request {
        Request::Filed => FlightKind::Filed,
        Request::Arrival { .. } => FlightKind::Arrival,
        Request::Departure { .. } => FlightKind::Departure,
    }
}

// When a route begins and ends; both are 0 where it has no step.
fn times_of(steps: &[Step]) -> (Time, Time)
    ensures { result ≡ record { 0 = begin_of steps.now; 1 = end_of steps.now } }
{
    if steps.is_empty() {
        (0, 0)
    } else {
        (begin_of(steps), end_of(steps))
    }
}
