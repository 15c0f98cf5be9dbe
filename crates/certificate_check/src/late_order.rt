//! Who is in the way of a late flight, and in which order.
ghost use Rattle.std.specs.Prelude.{◌≡◌, ◌↔◌, IsTrue, IsFalse, All, Contains, Some, map, bytes_eq};
ghost use Rattle.taxi_base.specs.Airport.{layout_of, arc_exists};
ghost use Rattle.taxi_base.specs.State.{IsSound};
ghost use Rattle.taxi_base.specs.Late.{is_late, party_meets, flight_meets};
ghost use Rattle.checked_state.specs.Flights.{flights_of, state_of};
ghost use Rattle.certificate_check.specs.Late.{delay_in, meeting_in, IsInWayFrom, ComesAfter, AreInOrder, AreAllNamed};

use crate::batch_form::is_named;
use crate::late_form::LateFlight;
use crate::late_way::{flight_meets, flight_second, is_late, party_meets, party_second};
use airport_file::Airport;
use checked_state::{FlightList, HeldFlights};
use replies::Entry;
use taxi_base::{Flight, Name, Party, Time};

/// A holder that is in the way from a second on.
#[derive(Clone, Copy)]
struct Met {
    second: Time,
    name: Name,
}

/// Whether the holders that entries name are in the way of a late flight, in order.
pub fn are_in_order(
    airport: &Airport,
    before: &HeldFlights,
    late: &LateFlight<'_>,
    entries: &[(Name, Entry)],
) -> bool
    requires sound { IsSound airport.now (state_of before.now) }
    requires arc { IsTrue (arc_exists (layout_of airport.now) late.now.begun.arc) }
    ensures { IsTrue result ↔ AreInOrder airport.now (state_of before.now) (delay_in late.now) (map (λ told. told.0) entries.now) }
{
    let mut last = None;
    for (name, _) in entries {
        let Some(second) = second_of(airport, before, late, name) else {
            return false;
        };
        let met = Met {
            second,
            name: *name,
        };
        if !comes_after(&last, &met) {
            return false;
        }
        last = Some(met);
    }
    true
}

// Whether a meeting stands after the one before it, if there is one: by its second, and then by name.
fn comes_after(last: &Option<Met>, met: &Met) -> bool
    ensures { IsTrue result ↔ ComesAfter last.now (meeting_in met.now) }
{
    match last {
        None => true,
        Some(last) if last.second == met.second => last.name < met.name,
        Some(last) => last.second < met.second,
    }
}

// From which second on the holder of a name is in the way; none where it is not.
fn second_of(
    airport: &Airport,
    before: &HeldFlights,
    late: &LateFlight<'_>,
    name: &Name,
) -> Option<Time>
    requires sound { IsSound airport.now (state_of before.now) }
    requires arc { IsTrue (arc_exists (layout_of airport.now) late.now.begun.arc) }
    ensures { IsInWayFrom airport.now (state_of before.now) (delay_in late.now) name.now result }
{
    if let Some(party) = before.party(name) {
        return party_second(airport, late, party);
    }
    let flight = before.flight(name)?;
    if is_late(late, flight) {
        return None;
    }
    flight_second(airport, late, flight)
}

/// Whether entries name whoever is in the way of a late flight.
pub fn are_all_named(
    airport: &Airport,
    before: &HeldFlights,
    late: &LateFlight<'_>,
    entries: &[(Name, Entry)],
) -> bool
    requires sound { IsSound airport.now (state_of before.now) }
    requires arc { IsTrue (arc_exists (layout_of airport.now) late.now.begun.arc) }
    ensures { IsTrue result ↔ AreAllNamed airport.now (state_of before.now) (delay_in late.now) (map (λ told. told.0) entries.now) }
{
    if !are_parties_named(airport, before.parties(), late, entries) {
        return false;
    }
    are_flights_named(airport, before.flights(), late, entries)
}

fn are_parties_named(
    airport: &Airport,
    parties: &[Party],
    late: &LateFlight<'_>,
    entries: &[(Name, Entry)],
) -> bool
    requires arc { IsTrue (arc_exists (layout_of airport.now) late.now.begun.arc) }
    ensures { IsTrue result ↔ All (λ p. IsTrue (party_meets airport.now (delay_in late.now) p) → Contains (map (λ told. told.0) entries.now) p.name) parties.now }
{
    for party in parties {
        if !is_party_named(airport, late, entries, party) {
            return false;
        }
    }
    true
}

fn is_party_named(
    airport: &Airport,
    late: &LateFlight<'_>,
    entries: &[(Name, Entry)],
    party: &Party,
) -> bool
    requires arc { IsTrue (arc_exists (layout_of airport.now) late.now.begun.arc) }
    ensures { IsTrue result ↔ (IsTrue (party_meets airport.now (delay_in late.now) party.now) → Contains (map (λ told. told.0) entries.now) party.now.name) }
{
    if party_meets(airport, late, party) {
        return is_named(&party.name, entries);
    }
    true
}

fn are_flights_named(
    airport: &Airport,
    flights: &FlightList,
    late: &LateFlight<'_>,
    entries: &[(Name, Entry)],
) -> bool
    requires arc { IsTrue (arc_exists (layout_of airport.now) late.now.begun.arc) }
    ensures { IsTrue result ↔ All (λ f. IsFalse (is_late (delay_in late.now) f) → IsTrue (flight_meets airport.now (delay_in late.now) f) → Contains (map (λ told. told.0) entries.now) f.name) (flights_of flights.now) }
{
    for at in 0..flights.len() {
        let flight = flights.at(at);
        if !is_flight_named(airport, late, entries, flight) {
            return false;
        }
    }
    true
}

fn is_flight_named(
    airport: &Airport,
    late: &LateFlight<'_>,
    entries: &[(Name, Entry)],
    flight: &Flight,
) -> bool
    requires arc { IsTrue (arc_exists (layout_of airport.now) late.now.begun.arc) }
    ensures { IsTrue result ↔ (IsFalse (is_late (delay_in late.now) flight.now) → IsTrue (flight_meets airport.now (delay_in late.now) flight.now) → Contains (map (λ told. told.0) entries.now) flight.now.name) }
{
    if is_late(late, flight) {
        return true;
    }
    if flight_meets(airport, late, flight) {
        return is_named(&flight.name, entries);
    }
    true
}
