//! Which holder, a flight or a work party, holds a segment at a second.
ghost use Rattle.std.specs.Prelude.{◌≡◌, ◌<◌, length};
ghost use Rattle.taxi_base.specs.Faults.{holder_at};
ghost use Rattle.checked_state.specs.Flights.{state_of, HasSpansOf};

use airport_file::Airport;
use checked_state::HeldFlights;
use held_spans::first_name;
use taxi_base::{Name, Segment, Time};

/// The first holder by name that holds a segment in conflict with this one at a second. Only the segments in conflict are asked.
pub(crate) fn holder_at(
    airport: &Airport,
    held: &HeldFlights,
    segment: Segment,
    second: Time,
) -> Option<Name>
    requires spans { HasSpansOf airport.now (state_of held.now) held.now }
    requires on { segment.0 < length airport.now.segments }
    ensures { result ≡ holder_at airport.now (state_of held.now) segment second }
{
    let spans = held.spans();
    let mut first = None;
    for other in airport.conflicts().of(segment) {
        first = first_name(first, spans.first_holder(*other, second));
    }
    first
}
