//! When a hold is taken first, and by whom.
ghost use Rattle.std.specs.Prelude.{◌≡◌, ◌≤◌, ◌<◌, IfOk, OnOk, IsTrue, true, false, length, nat_le};
ghost use Rattle.std.specs.List.Sorted.{IsPartitionPoint};
ghost use Rattle.taxi_base.specs.Airport.{arc_exists, layout_of};
ghost use Rattle.taxi_base.specs.Windows.{AreApart, covers};
ghost use Rattle.taxi_base.specs.Faults.{first_taken, taken_by, taken_cause};
ghost use Rattle.check_rows.specs.Known.{is_known};
ghost use Rattle.checked_state.specs.Flights.{state_of, HasSpansOf};
ghost use Rattle.due_refusals.specs.KnownIn.{AreKnownIn};
ghost use Rattle.due_refusals.specs.Filing.{IsFirstOutside};

use crate::holder::holder_at;
use airport_file::Airport;
use check_rows::KnownWindows;
use checked_state::HeldFlights;
use taxi_base::{Class, Memory, Segment, Span, Step, StepCause, Time};

/// The first second of what a step of a class holds at which its segment is taken, and the first holder by name that takes it.
pub(crate) fn taken_cause(
    airport: &Airport,
    class: Class,
    held: &HeldFlights,
    known: &mut KnownWindows,
    step: Step,
) -> Result<Option<StepCause>, Memory>
    requires spans { HasSpansOf airport.now (state_of held.now) held.now }
    requires known { AreKnownIn airport.now (state_of held.now) known.old }
    requires arc { IsTrue (arc_exists (layout_of airport.now) step.arc) }
    ensures cause { IfOk result (λ cause. cause ≡ taken_cause airport.now class (state_of held.now) step) }
    ensures known { AreKnownIn airport.now (state_of held.now) known.new }
{
    let span = step.held(airport.horizon(), airport.clearance(class));
    taken_by(airport, held, known, step.arc.segment(), span)
}

/// The first second of a span at which a segment is taken, and the first holder by name that takes it.
pub(crate) fn taken_by(
    airport: &Airport,
    held: &HeldFlights,
    known: &mut KnownWindows,
    segment: Segment,
    span: Span,
) -> Result<Option<StepCause>, Memory>
    requires spans { HasSpansOf airport.now (state_of held.now) held.now }
    requires known { AreKnownIn airport.now (state_of held.now) known.old }
    requires on { segment.0 < length airport.now.segments }
    ensures cause { IfOk result (λ cause. cause ≡ taken_by airport.now (state_of held.now) (record { segment = segment; span = span })) }
    ensures known { AreKnownIn airport.now (state_of held.now) known.new }
{
    make_windows(airport, held, known, segment)?;
    let Some(at) = first_taken(known.of(segment), span) else {
        return Ok(None);
    };
    let Some(by) = holder_at(airport, held, segment, at) else {
        return Ok(None);
    };
    Ok(Some(StepCause::Taken { at, by }))
}

// Makes the windows that the holders leave of a segment, unless they are known.
fn make_windows(
    airport: &Airport,
    held: &HeldFlights,
    known: &mut KnownWindows,
    segment: Segment,
) -> Result<(), Memory>
    requires spans { HasSpansOf airport.now (state_of held.now) held.now }
    requires known { AreKnownIn airport.now (state_of held.now) known.old }
    requires on { segment.0 < length airport.now.segments }
    ensures made { OnOk result (IsTrue (is_known known.new segment)) }
    ensures known { AreKnownIn airport.now (state_of held.now) known.new }
{
    known.make(airport, held.spans(), segment)
}

// The first second of a span that lies in none of some windows.
fn first_taken(windows: &[Span], span: Span) -> Option<Time>
    requires { AreApart 0 windows.now }
    ensures { result ≡ first_taken (covers windows.now) span }
{
    let first = first_outside(windows, span.from);
    if first < span.until {
        Some(first)
    } else {
        None
    }
}

// The first second from one on that lies in none of some windows.
fn first_outside(windows: &[Span], from: Time) -> Time
    requires { AreApart 0 windows.now }
    ensures { IsFirstOutside windows.now from result }
{
    let Some(window) = windows.get(windows_over(windows, from)) else {
        return from;
    };
    if window.from <= from {
        window.until
    } else {
        from
    }
}

// How many windows are over by a second.
fn windows_over(windows: &[Span], second: Time) -> usize
    requires { AreApart 0 windows.now }
    ensures few { result ≤ length windows.now }
    ensures point { IsPartitionPoint (λ w. nat_le w.until second ≡ true) (λ w. nat_le w.until second ≡ false) windows.now result }
{
    windows.partition_point(|w| w.until <= second)
}
