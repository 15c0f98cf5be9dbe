//! The timetable: the flights in force, in short.

ghost use Rattle.std.specs.Prelude.{◌≡◌, ◌<◌, length, IfOk};
ghost use Rattle.taxi_base.specs.Reports.{flight_row, timetable_rows};

use commitments::Ledger;
use std::alloc::Global;
use taxi_base::{Flight, FlightRow, List, Memory, begin_of, end_of};

/// One row for each flight in force, by rising names. The seconds are the first enter and the last leave of its route.
pub fn timetable(alloc: Global, ledger: &Ledger) -> Result<List<FlightRow>, Memory>
    ensures { IfOk result (λ rows. rows ≡ timetable_rows ledger.now.state) }
{
    let mut rows = List::new(alloc);
    for place in 0..ledger.count() {
        rows.push(row_of(ledger.at(place)))?;
    }
    Ok(rows)
}

fn row_of(flight: &Flight) -> FlightRow
    requires { 0 < length flight.now.steps }
    ensures { result ≡ flight_row flight.now }
{
    let steps = flight.steps.as_slice();
    FlightRow {
        flight: flight.name,
        kind: flight.request.kind(),
        class: flight.class,
        start: begin_of(steps),
        end: end_of(steps),
    }
}
