//! The steps that a flight keeps.
ghost use Rattle.std.specs.Prelude.{◌≡◌, ◌≤◌, IfOk};
ghost use Rattle.taxi_base.specs.State.{State, conditions_of};
ghost use Rattle.taxi_base.specs.Walks.{IsFeasibleWalk};
ghost use Rattle.taxi_base.specs.Late.{soonest_leave, steps_kept};
ghost use Rattle.late_repair.specs.Repairing.{leave_kept};

use crate::delay::Delay;
use airport_file::Airport;
use forward_search::push_steps;
use std::alloc::Global;
use taxi_base::{Class, Flight, List, Memory, Step, Time, under_way};

/// The steps that a flight has entered. The one that is late stays on the last of them, and another leaves it as soon as it can.
pub(crate) fn steps_kept(
    alloc: Global,
    airport: &Airport,
    delay: &Delay,
    flight: &Flight,
) -> Result<List<Step>, Memory>
    requires { (state : State) × IsFeasibleWalk (conditions_of airport.now state flight.now) flight.now.steps }
    ensures { IfOk result (λ kept. kept ≡ steps_kept airport.now delay.now flight.now) }
{
    let mut kept = List::new(alloc);
    if let Some((begun, done)) = under_way(flight.steps.as_slice(), delay.time()) {
        push_steps(&mut kept, done)?;
        kept.push(Step {
            arc: begun.arc,
            enter: begun.enter,
            leave: leave_kept(airport, delay, flight, begun),
        })?;
    }
    Ok(kept)
}

// When a flight leaves the last of the steps that it keeps.
fn leave_kept(airport: &Airport, delay: &Delay, flight: &Flight, begun: &Step) -> Time
    requires { begun.now.enter ≤ airport.now.horizon }
    ensures { result ≡ leave_kept airport.now delay.now flight.now begun.now }
{
    if delay.is_late(flight) {
        delay.until()
    } else {
        soonest_leave(airport, flight.class, delay.time(), begun)
    }
}

// When a class can be through with a step that it has begun by a time, but no sooner than the time.
fn soonest_leave(airport: &Airport, class: Class, time: Time, begun: &Step) -> Time
    requires { begun.now.enter ≤ airport.now.horizon }
    ensures { result ≡ soonest_leave airport.now class time begun.now }
{
    // The horizon is near, so that no sum is past the greatest number.
    let _horizon = airport.horizon();
    let seconds = airport.classes().seconds(class, begun.arc.segment());
    time.max(begun.enter + seconds.unwrap_or(0))
}

/// The same steps.
pub(crate) fn copy_of(alloc: Global, steps: &[Step]) -> Result<List<Step>, Memory>
    ensures { IfOk result (λ copy. copy ≡ steps.now) }
{
    let mut copy = List::with_capacity(alloc, steps.len())?;
    push_steps(&mut copy, steps)?;
    Ok(copy)
}
