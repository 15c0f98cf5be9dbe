//! When a holder meets what a late flight holds of its segment.
ghost use Rattle.std.specs.Prelude.{◌≡◌, ◌∷◌, ◌<◌, [], IsTrue, length};
ghost use Rattle.taxi_base.specs.Airport.{layout_of, arc_exists};
ghost use Rattle.taxi_base.specs.Windows.{hold_of, holds_of};
ghost use Rattle.taxi_base.specs.State.{flight_holds, party_hold};
ghost use Rattle.taxi_base.specs.Late.{prolonged_hold, is_late, party_meets, flight_meets};
ghost use Rattle.certificate_check.specs.Late.{delay_in, IsFirstIn, sooner};

use crate::late_form::LateFlight;
use airport_file::Airport;
use taxi_base::{Flight, Party, Segment, Span, Step, Time};

/// Whether a flight is the one that is late.
pub fn is_late(late: &LateFlight<'_>, flight: &Flight) -> bool
    ensures { result ≡ is_late (delay_in late.now) flight.now }
{
    flight.name == late.flight.name
}

/// Whether a party meets what the late flight holds.
pub fn party_meets(airport: &Airport, late: &LateFlight<'_>, party: &Party) -> bool
    requires { IsTrue (arc_exists (layout_of airport.now) late.now.begun.arc) }
    ensures { result ≡ party_meets airport.now (delay_in late.now) party.now }
{
    party_second(airport, late, party).is_some()
}

/// Whether a flight meets what the late flight holds.
pub fn flight_meets(airport: &Airport, late: &LateFlight<'_>, flight: &Flight) -> bool
    requires { IsTrue (arc_exists (layout_of airport.now) late.now.begun.arc) }
    ensures { result ≡ flight_meets airport.now (delay_in late.now) flight.now }
{
    flight_second(airport, late, flight).is_some()
}

/// The first second of what the late flight holds that a party shuts.
pub fn party_second(airport: &Airport, late: &LateFlight<'_>, party: &Party) -> Option<Time>
    requires { IsTrue (arc_exists (layout_of airport.now) late.now.begun.arc) }
    ensures { IsFirstIn airport.now (prolonged_hold airport.now (delay_in late.now)) (party_hold party.now ∷ []) result }
{
    let shut = Span {
        from: party.from,
        until: party.until,
    };
    let prolonged = prolonged_span(airport, late);
    let segment = late.begun.arc.segment();
    common_second(airport, segment, prolonged, party.segment, shut)
}

/// The first second of what the late flight holds at which another holds a conflicting segment.
pub fn flight_second(airport: &Airport, late: &LateFlight<'_>, flight: &Flight) -> Option<Time>
    requires { IsTrue (arc_exists (layout_of airport.now) late.now.begun.arc) }
    ensures { IsFirstIn airport.now (prolonged_hold airport.now (delay_in late.now)) (flight_holds airport.now flight.now) result }
{
    let clearance = airport.clearance(flight.class);
    first_second(airport, late, clearance, flight.steps.as_slice())
}

fn first_second(
    airport: &Airport,
    late: &LateFlight<'_>,
    clearance: Time,
    steps: &[Step],
) -> Option<Time>
    requires { IsTrue (arc_exists (layout_of airport.now) late.now.begun.arc) }
    ensures { IsFirstIn airport.now (prolonged_hold airport.now (delay_in late.now)) (holds_of airport.now.horizon clearance steps.now) result }
{
    let prolonged = prolonged_span(airport, late);
    let segment = late.begun.arc.segment();
    let mut first = None;
    for step in steps {
        let held = step.held(airport.horizon(), clearance);
        let common = common_second(airport, segment, prolonged, step.arc.segment(), held);
        first = sooner(first, common);
    }
    first
}

// The span for which the late flight holds its segment.
fn prolonged_span(airport: &Airport, late: &LateFlight<'_>) -> Span
    ensures { result ≡ (prolonged_hold airport.now (delay_in late.now)).span }
{
    let step = Step {
        arc: late.begun.arc,
        enter: late.begun.enter,
        leave: late.until,
    };
    step.held(airport.horizon(), airport.clearance(late.flight.class))
}

// The first second that two spans have in common, where their segments conflict.
fn common_second(
    airport: &Airport,
    segment: Segment,
    span: Span,
    other: Segment,
    held: Span,
) -> Option<Time>
    requires { segment.0 < length airport.now.segments }
    ensures { IsFirstIn airport.now (record { segment = segment; span = span }) (record { segment = other; span = held } ∷ []) result }
{
    let from = span.from.max(held.from);
    let until = span.until.min(held.until);
    if until <= from {
        return None;
    }
    if airport.conflicts().conflict(segment, other) {
        Some(from)
    } else {
        None
    }
}

// Of two seconds the sooner one.
fn sooner(one: Option<Time>, other: Option<Time>) -> Option<Time>
    ensures { result ≡ sooner one other }
{
    let Some(first) = one else {
        return other;
    };
    let Some(second) = other else {
        return one;
    };
    Some(first.min(second))
}
