//! Sums over the flights in force of a kind and a class.
ghost use Rattle.std.specs.Prelude.{◌≡◌, ◌+◌, ◌≤◌, ◌^◌, ℕ, filter};
ghost use Rattle.taxi_base.specs.Airport.{IsWellFormed};
ghost use Rattle.taxi_base.specs.State.{IsSound};
ghost use Rattle.run_figures.specs.Flights.{is_of, taxied_by, least_by, shifted_by, sums_of, with_flight, IsOrderly, AreSmall};

use airport_file::Airport;
use commitments::Ledger;
use taxi_base::{Class, Flight, FlightKind, Request, Time, begin_of, end_of};

/// How many flights there are, for how many seconds they taxi together, for how many they would at least, and for how many arrivals
/// are held, or departures are early.
#[derive(Clone, Copy)]
pub struct Sums {
    pub flights: u64,
    pub taxied: u64,
    pub least: u64,
    pub shifted: u64,
}

/// The sums over the flights in force of a kind and a class.
pub(crate) fn sums_over(airport: &Airport, ledger: &Ledger, kind: FlightKind, class: Class) -> Sums
    requires rules { IsWellFormed airport.now }
    requires sound { IsSound airport.now ledger.now.state }
    ensures same { result ≡ sums_of airport.now (filter (is_of kind class) ledger.now.state.flights) }
    ensures waited { result.least ≤ result.taxied }
{
    let mut sums = Sums {
        flights: 0,
        taxied: 0,
        least: 0,
        shifted: 0,
    };
    for place in 0..ledger.count() {
        let flight = ledger.at(place);
        if is_of(flight, kind, class) {
            sums = with_flight(&sums, airport, flight);
        }
    }
    sums
}

// Whether a flight is of a kind and a class.
fn is_of(flight: &Flight, kind: FlightKind, class: Class) -> bool
    ensures { result ≡ is_of kind class flight.now }
{
    flight.request.kind() == kind && flight.class == class
}

// The sums with one more flight.
fn with_flight(sums: &Sums, airport: &Airport, flight: &Flight) -> Sums
    requires orderly { IsOrderly airport.now flight.now }
    requires small { AreSmall (2 ^ 12) sums.now }
    ensures same { result ≡ with_flight airport.now sums.now flight.now }
    ensures small { (flights : ℕ) → AreSmall flights sums.now → AreSmall (flights + 1) result }
{
    Sums {
        flights: sums.flights + 1,
        taxied: sums.taxied + u64::from(taxied_by(airport, flight)),
        least: sums.least + least_by(airport, flight),
        shifted: sums.shifted + u64::from(shifted_by(airport, flight)),
    }
}

// For how long a flight taxies.
fn taxied_by(airport: &Airport, flight: &Flight) -> Time
    requires { IsOrderly airport.now flight.now }
    ensures { result ≡ taxied_by flight.now }
{
    let _rules = airport;
    let steps = flight.steps.as_slice();
    end_of(steps) - begin_of(steps)
}

// For how long it would at least.
fn least_by(airport: &Airport, flight: &Flight) -> u64
    requires { IsOrderly airport.now flight.now }
    ensures { result ≡ least_by airport.now flight.now }
{
    let mut least = 0;
    for step in flight.steps.as_slice() {
        let seconds = airport.classes().seconds(flight.class, step.arc.segment());
        least += u64::from(seconds.unwrap_or(0));
    }
    least
}

// For how long an arrival is held, and how early a departure is.
fn shifted_by(airport: &Airport, flight: &Flight) -> Time
    requires { IsOrderly airport.now flight.now }
    ensures { result ≡ shifted_by flight.now.request flight.now.steps }
{
    let _rules = airport;
    let steps = flight.steps.as_slice();
    match flight.request {
        Request::Filed => 0,
        Request::Arrival { time, .. } => begin_of(steps) - time,
        Request::Departure { time, .. } => time - end_of(steps),
    }
}
