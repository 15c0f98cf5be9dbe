//! Rule `walk`: whether a route does what was asked for, with its second.
ghost use Rattle.std.specs.Prelude.{◌≡◌, ◌↔◌, ◌+◌, ◌-◌, ◌<◌, ◌&&◌, ◌==◌, All, IfOk, IsTrue, length};
ghost use Rattle.taxi_base.specs.Airport.{arc_exists, layout_of};
ghost use Rattle.taxi_base.specs.Walks.{conditions_among, free_among};
ghost use Rattle.replies.specs.Printable.{IsShort};
ghost use Rattle.replies.specs.CarriedOut.{second_of};
ghost use Rattle.check_rows.specs.Known.{AreKnown};
ghost use Rattle.check_walks.specs.Told.{CanBeSought, BeginsAfter};
ghost use Rattle.check_walks.specs.Course.{way_of, IsWalkIn};
ghost use Rattle.check_walks.specs.Steps.{GoesAsAsked, Departs};

use crate::course::{SoughtWalk, course_of, goes_by, is_within};
use crate::feasible::is_feasible_walk;
use airport_file::Airport;
use check_rows::KnownWindows;
use held_spans::HoldsOf;
use taxi_base::{Class, Memory, Node, Request, Step, Time, begin_of};

/// Whether the steps are a walk that does what was asked for and begins after the floor, and the second is that of the walk.
pub fn keeps_walk<H: HoldsOf>(
    airport: &Airport,
    class: Class,
    holds: &H,
    known: &mut KnownWindows,
    sought: &SoughtWalk<'_>,
    steps: &[Step],
    second: Time,
) -> Result<bool, Memory>
    requires sought { CanBeSought airport.now sought.now.request }
    requires known { AreKnown (length airport.now.segments) (free_among airport.now (H.held holds.now)) known.old }
    ensures known { AreKnown (length airport.now.segments) (free_among airport.now (H.held holds.now)) known.new }
    ensures walk { IfOk result (λ yes. IsTrue yes ↔ (IsWalkIn (conditions_among airport.now class (H.held holds.now)) sought.now.request (way_of sought.now.way) steps.now × BeginsAfter sought.now.floor steps.now × (second_of sought.now.request steps.now ≡ second))) }
{
    let walk = is_feasible_walk(airport, class, holds, known, steps)?;
    if !walk {
        return Ok(false);
    }
    if !goes_as_asked(airport, sought, steps) {
        return Ok(false);
    }
    if !begins_after(sought.floor, steps) {
        return Ok(false);
    }
    Ok(second_at(&sought.request, steps) == second)
}

// Whether steps begin after the floor, where there is one.
fn begins_after(floor: Option<Time>, steps: &[Step]) -> bool
    requires { 0 < length steps.now }
    ensures { IsTrue result ↔ BeginsAfter floor steps.now }
{
    match floor {
        Some(floor) => floor < begin_of(steps),
        None => true,
    }
}

/// Whether a walk begins and ends as was asked.
pub(crate) fn goes_as_asked(airport: &Airport, sought: &SoughtWalk<'_>, steps: &[Step]) -> bool
    requires sought { CanBeSought airport.now sought.now.request }
    requires some { 0 < length steps.now }
    requires arcs { All (λ step. IsTrue (arc_exists (layout_of airport.now) step.arc)) steps.now }
    ensures { IsTrue result ↔ GoesAsAsked (layout_of airport.now) sought.now.request (way_of sought.now.way) steps.now }
{
    match sought.request {
        Request::Filed => true,
        Request::Arrival {
            from,
            to,
            time,
            hold,
        } => {
            let course = course_of(from, time, hold, sought);
            goes_by(airport, &course, to, steps)
        }
        Request::Departure {
            from,
            to,
            time,
            queue,
        } => departs(airport, from, to, time.saturating_sub(queue), time, steps),
    }
}

/// Whether a walk leads from one node to another, and ends within a time.
fn departs(
    airport: &Airport,
    from: Node,
    to: Node,
    earliest: Time,
    latest: Time,
    steps: &[Step],
) -> bool
    requires some { 0 < length steps.now }
    requires arcs { All (λ step. IsTrue (arc_exists (layout_of airport.now) step.arc)) steps.now }
    ensures { IsTrue result ↔ Departs (layout_of airport.now) from to earliest latest steps.now }
{
    let first = steps[0];
    let last = steps[steps.len() - 1];
    let tail = airport.graph().tail(first.arc);
    let head = airport.graph().head(last.arc);
    is_joined(tail, from, head, to) && is_within(last.leave, earliest, latest)
}

fn is_joined(tail: Node, from: Node, head: Node, to: Node) -> bool
    ensures { result ≡ (tail.0 == from.0 && head.0 == to.0) }
{
    tail == from && head == to
}

/// The second that is told of a walk: where a departure begins, and where an arrival ends.
pub(crate) fn second_at(request: &Request, steps: &[Step]) -> Time
    requires { 0 < length steps.now }
    ensures { result ≡ second_of request.now steps.now }
{
    match request {
        Request::Departure { .. } => steps[0].enter,
        Request::Filed | Request::Arrival { .. } => steps[steps.len() - 1].leave,
    }
}
