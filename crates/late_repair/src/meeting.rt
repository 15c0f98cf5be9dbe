//! The first second of the prolonged hold that others hold too.
ghost use Rattle.std.specs.Prelude.{◌≡◌, ◌∷◌, ◌<◌, [], length};
ghost use Rattle.taxi_base.specs.State.{flight_holds, party_hold};
ghost use Rattle.taxi_base.specs.Late.{prolonged_hold};
ghost use Rattle.late_repair.specs.Repairing.{hold_seen, earlier, IsOnSegment, IsFirstCommonOf};

use crate::delay::{Delay, Hold};
use airport_file::Airport;
use taxi_base::{Flight, Party, Segment, Span, Time};

/// The first second of the prolonged hold that a work party has on a conflicting segment; none where it has none.
pub(crate) fn party_meeting(airport: &Airport, delay: &Delay, party: &Party) -> Option<Time>
    requires { IsOnSegment airport.now delay.now }
    ensures { IsFirstCommonOf airport.now (prolonged_hold airport.now delay.now) (party_hold party.now ∷ []) result }
{
    let hold = delay.hold(airport);
    let span = Span {
        from: party.from,
        until: party.until,
    };
    first_common(airport, &hold, party.segment, span)
}

/// The same of what a flight holds.
pub(crate) fn flight_meeting(airport: &Airport, delay: &Delay, flight: &Flight) -> Option<Time>
    requires { IsOnSegment airport.now delay.now }
    ensures { IsFirstCommonOf airport.now (prolonged_hold airport.now delay.now) (flight_holds airport.now flight.now) result }
{
    let hold = delay.hold(airport);
    let horizon = airport.horizon();
    let clearance = airport.clearance(flight.class);
    let mut first = None;
    for step in flight.steps.as_slice() {
        let span = step.held(horizon, clearance);
        first = earlier(
            first,
            first_common(airport, &hold, step.arc.segment(), span),
        );
    }
    first
}

// The first second of a hold that is held of a segment for a span, where that conflicts; else none.
fn first_common(airport: &Airport, hold: &Hold, segment: Segment, span: Span) -> Option<Time>
    requires { hold.now.segment.0 < length airport.now.segments }
    ensures { IsFirstCommonOf airport.now (hold_seen hold.now) (record { segment = segment; span = span } ∷ []) result }
{
    let second = hold.span.from.max(span.from);
    let is_common = second < hold.span.until.min(span.until);
    if is_common && airport.conflicts().conflict(hold.segment, segment) {
        Some(second)
    } else {
        None
    }
}

// Of two seconds the earlier one.
fn earlier(one: Option<Time>, other: Option<Time>) -> Option<Time>
    ensures { result ≡ earlier one other }
{
    let (Some(first), Some(second)) = (one, other) else {
        return one.or(other);
    };
    Some(first.min(second))
}
