//! What is in force at once where a flight is late: those in its way give way, as far as they have begun or at all.
ghost use Rattle.std.specs.Prelude.{◌≡◌, ◌+◌, ◌<◌, ◌≤◌, ◌||◌, if◌then◌else◌, not, filter, flat_map, All, IfOk, OnOk, IsTrue, IsSomeAnd, Some, None, length};
ghost use Rattle.taxi_base.specs.Airport.{layout_of, arc_exists, segment_of, seconds};
ghost use Rattle.taxi_base.specs.State.{party_named, parties_without, without, IsSound};
ghost use Rattle.taxi_base.specs.Late.{soonest_leave, steps_kept, is_late, flight_meets, party_meets, on_steps, flight_at_once, base_state};
ghost use Rattle.checked_state.specs.Flights.{flights_of, state_of};
ghost use Rattle.certificate_check.specs.Desk.{CanGoOn, IsTidy};
ghost use Rattle.certificate_check.specs.Late.{delay_in, IsOnSteps, leave_kept, with_flights};

use crate::late_form::LateFlight;
use crate::late_moves::{put_in, take_out};
use crate::late_way::{flight_meets, is_late, party_meets};
use airport_file::Airport;
use check_rows::KnownWindows;
use checked_state::{FlightList, HeldFlights, copy_steps};
use std::alloc::Global;
use taxi_base::{Class, Flight, List, Memory, Party, Step, Time, under_way};

/// Lets those in the way of a late flight give way. Work parties are out, and flights keep the steps that they have entered, as the
/// late flight does. It is the state that the turns begin in.
pub fn give_way(
    alloc: Global,
    airport: &Airport,
    before: &HeldFlights,
    late: &LateFlight<'_>,
    held: &mut HeldFlights,
    known: &mut KnownWindows,
) -> Result<(), Memory>
    requires sound { IsSound airport.now (state_of before.now) }
    requires can_go_on { All (λ f. CanGoOn airport.now f.request) (state_of before.now).flights }
    requires arc { IsTrue (arc_exists (layout_of airport.now) late.now.begun.arc) }
    requires same { state_of held.old ≡ state_of before.now }
    requires tidy { IsTidy airport.now held.old known.old }
    ensures state { OnOk result (state_of held.new ≡ base_state airport.now (state_of before.now) (delay_in late.now)) }
    ensures tidy { OnOk result (IsTidy airport.now held.new known.new) }
{
    open_those_met(airport, before.parties(), late, held, known);
    cut_those_met(alloc, airport, before.flights(), late, held, known)
}

// Takes out the parties that are in the way.
fn open_those_met(
    airport: &Airport,
    parties: &[Party],
    late: &LateFlight<'_>,
    held: &mut HeldFlights,
    known: &mut KnownWindows,
)
    requires on { All (λ p. p.segment.0 < length airport.now.segments) parties.now }
    requires arc { IsTrue (arc_exists (layout_of airport.now) late.now.begun.arc) }
    requires same { (state_of held.old).parties ≡ parties.now }
    requires tidy { IsTidy airport.now held.old known.old }
    ensures state { state_of held.new ≡ record { flights = (state_of held.old).flights; parties = filter (λ p. not (party_meets airport.now (delay_in late.now) p)) parties.now } }
    ensures tidy { IsTidy airport.now held.new known.new }
{
    for party in parties {
        open_if_met(airport, late, party, held, known);
    }
}

fn open_if_met(
    airport: &Airport,
    late: &LateFlight<'_>,
    party: &Party,
    held: &mut HeldFlights,
    known: &mut KnownWindows,
)
    requires on { party.now.segment.0 < length airport.now.segments }
    requires arc { IsTrue (arc_exists (layout_of airport.now) late.now.begun.arc) }
    requires at_work { party_named party.now.name (state_of held.old).parties ≡ Some party.now }
    requires tidy { IsTidy airport.now held.old known.old }
    ensures state { state_of held.new ≡ (if party_meets airport.now (delay_in late.now) party.now then record (state_of held.old) { parties = parties_without party.now.name (state_of held.old).parties } else state_of held.old) }
    ensures tidy { IsTidy airport.now held.new known.new }
{
    if !party_meets(airport, late, party) {
        return;
    }
    known.forget_segment(airport, party.segment);
    held.open(&party.name);
}

// Leaves the late flight, and those that are in its way, the steps that they keep.
fn cut_those_met(
    alloc: Global,
    airport: &Airport,
    flights: &FlightList,
    late: &LateFlight<'_>,
    held: &mut HeldFlights,
    known: &mut KnownWindows,
) -> Result<(), Memory>
    requires steps { All (IsOnSteps airport.now) (flights_of flights.now) }
    requires can_go_on { All (λ f. CanGoOn airport.now f.request) (flights_of flights.now) }
    requires alone { All (λ f. party_named f.name (state_of held.old).parties ≡ None) (flights_of flights.now) }
    requires arc { IsTrue (arc_exists (layout_of airport.now) late.now.begun.arc) }
    requires same { (state_of held.old).flights ≡ flights_of flights.now }
    requires tidy { IsTidy airport.now held.old known.old }
    ensures state { OnOk result (state_of held.new ≡ record { flights = flat_map (flight_at_once airport.now (delay_in late.now)) (flights_of flights.now); parties = (state_of held.old).parties }) }
    ensures tidy { OnOk result (IsTidy airport.now held.new known.new) }
{
    for at in 0..flights.len() {
        cut_if_met(alloc, airport, late, flights.at(at), held, known)?;
    }
    Ok(())
}

fn cut_if_met(
    alloc: Global,
    airport: &Airport,
    late: &LateFlight<'_>,
    flight: &Flight,
    held: &mut HeldFlights,
    known: &mut KnownWindows,
) -> Result<(), Memory>
    requires steps { IsOnSteps airport.now flight.now }
    requires goes_on { CanGoOn airport.now flight.now.request }
    requires alone { party_named flight.now.name (state_of held.old).parties ≡ None }
    requires arc { IsTrue (arc_exists (layout_of airport.now) late.now.begun.arc) }
    requires tidy { IsTidy airport.now held.old known.old }
    ensures state { OnOk result (state_of held.new ≡ (if is_late (delay_in late.now) flight.now || flight_meets airport.now (delay_in late.now) flight.now then with_flights (on_steps flight.now (steps_kept airport.now (delay_in late.now) flight.now)) (without flight.now.name (state_of held.old)) else state_of held.old)) }
    ensures tidy { OnOk result (IsTidy airport.now held.new known.new) }
{
    if is_moved(airport, late, flight) {
        return cut(alloc, airport, late, flight, held, known);
    }
    Ok(())
}

// Whether a flight is late or in the way.
fn is_moved(airport: &Airport, late: &LateFlight<'_>, flight: &Flight) -> bool
    requires { IsTrue (arc_exists (layout_of airport.now) late.now.begun.arc) }
    ensures { result ≡ (is_late (delay_in late.now) flight.now || flight_meets airport.now (delay_in late.now) flight.now) }
{
    is_late(late, flight) || flight_meets(airport, late, flight)
}

// Puts a flight on the steps that it keeps. Where it keeps none it is out.
fn cut(
    alloc: Global,
    airport: &Airport,
    late: &LateFlight<'_>,
    flight: &Flight,
    held: &mut HeldFlights,
    known: &mut KnownWindows,
) -> Result<(), Memory>
    requires steps { IsOnSteps airport.now flight.now }
    requires goes_on { CanGoOn airport.now flight.now.request }
    requires alone { party_named flight.now.name (state_of held.old).parties ≡ None }
    requires tidy { IsTidy airport.now held.old known.old }
    ensures state { OnOk result (state_of held.new ≡ with_flights (on_steps flight.now (steps_kept airport.now (delay_in late.now) flight.now)) (without flight.now.name (state_of held.old))) }
    ensures tidy { OnOk result (IsTidy airport.now held.new known.new) }
{
    let steps = steps_kept(alloc, airport, late, flight)?;
    take_out(airport, held, known, &flight.name);
    if steps.as_slice().is_empty() {
        return Ok(());
    }
    let at_once = Flight {
        name: flight.name,
        class: flight.class,
        request: flight.request,
        steps,
    };
    put_in(airport, held, known, at_once)
}

/// The steps that a flight has entered by the time, with another leave of the last. The late flight stays on its last, and
/// another leaves its last as soon as it can.
pub fn steps_kept(
    alloc: Global,
    airport: &Airport,
    late: &LateFlight<'_>,
    flight: &Flight,
) -> Result<List<Step>, Memory>
    requires steps { IsOnSteps airport.now flight.now }
    ensures { IfOk result (λ kept. kept ≡ steps_kept airport.now (delay_in late.now) flight.now) }
{
    let Some((begun, done)) = under_way(flight.steps.as_slice(), late.time) else {
        return Ok(List::new(alloc));
    };
    let last = Step {
        arc: begun.arc,
        enter: begun.enter,
        leave: leave_kept(airport, late, flight, *begun),
    };
    let mut kept = copy_steps(alloc, done)?;
    kept.push(last)?;
    Ok(kept)
}

// When a flight leaves the last of the steps that it keeps.
fn leave_kept(airport: &Airport, late: &LateFlight<'_>, flight: &Flight, begun: Step) -> Time
    requires arc { IsTrue (arc_exists (layout_of airport.now) begun.arc) }
    requires lasts { IsSomeAnd (seconds airport.now flight.now.class (segment_of begun.arc)) (λ n. begun.enter + n ≤ begun.leave) }
    ensures { result ≡ leave_kept airport.now (delay_in late.now) flight.now begun }
{
    if is_late(late, flight) {
        return late.until;
    }
    soonest_leave(airport, flight.class, late.time, begun)
}

// When a class can be through with a step that it has begun by a time, but no sooner than the time.
fn soonest_leave(airport: &Airport, class: Class, time: Time, begun: Step) -> Time
    requires { IsSomeAnd (seconds airport.now class (segment_of begun.arc)) (λ n. begun.enter + n ≤ begun.leave) }
    ensures { result ≡ soonest_leave airport.now class time begun }
{
    let least = airport
        .classes()
        .seconds(class, begun.arc.segment())
        .unwrap_or(0);
    time.max(begun.enter + least)
}
