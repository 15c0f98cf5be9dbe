//! On which segments some class has seconds.
ghost use Rattle.std.specs.Prelude.{◌≡◌, ◌&&◌, None, is_some, slice_index_or};
ghost use Rattle.std.specs.List.{list_any};
ghost use Rattle.taxi_base.specs.Airport.{IsWellFormed, segment_of};
ghost use Rattle.airport_lint.specs.Advice.{has_seconds, is_shared};

use aircraft_class::time_in;
use airport_file::Airport;
use taxi_base::{Arc, Class, Segment, Time};

/// Whether a class has seconds on some segment.
pub(crate) fn has_seconds(airport: &Airport, class: Class) -> bool
    ensures { result ≡ has_seconds airport.now class }
{
    let times = airport.classes().times(class);
    times.iter().any(|seconds| seconds.is_some())
}

/// Whether some class has seconds on both segments.
pub(crate) fn is_shared(airport: &Airport, one: Segment, other: Segment) -> bool
    requires { IsWellFormed airport.now }
    ensures { result ≡ is_shared airport.now one other }
{
    for number in 0..airport.classes().count() as u32 {
        let times = airport.classes().times(Class(number));
        if has_both(times, one, other) {
            return true;
        }
    }
    false
}

fn has_both(times: &[Option<Time>], one: Segment, other: Segment) -> bool
    ensures { result ≡ (is_some (slice_index_or times.now one.0 None) && is_some (slice_index_or times.now other.0 None)) }
{
    time_in(times, one).is_some() && time_in(times, other).is_some()
}

/// Whether some class has seconds on a segment and on that of one of some arcs.
pub(crate) fn is_shared_with_any(airport: &Airport, one: Segment, arcs: &[Arc]) -> bool
    requires { IsWellFormed airport.now }
    ensures { result ≡ list_any (λ arc. is_shared airport.now one (segment_of arc)) arcs.now }
{
    for arc in arcs {
        if is_shared(airport, one, arc.segment()) {
            return true;
        }
    }
    false
}
