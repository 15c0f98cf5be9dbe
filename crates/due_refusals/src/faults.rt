//! Why a route that is given by hand fails among the flights in force.
ghost use Rattle.std.specs.Prelude.{◌≡◌, ◌+◌, ◌<◌, ◌^◌, IfOk, IsTrue, All, length, nat_lt};
ghost use Rattle.taxi_base.specs.Airport.{arc_exists, layout_of};
ghost use Rattle.taxi_base.specs.Faults.{may_follow, cause_of, route_fault};
ghost use Rattle.checked_state.specs.Flights.{state_of, HasSpansOf};
ghost use Rattle.due_refusals.specs.KnownIn.{AreKnownIn};

use crate::taken::taken_cause;
use airport_file::Airport;
use check_rows::KnownWindows;
use checked_state::HeldFlights;
use taxi_base::{Arc, Class, Memory, Step, StepCause, StepFault, Time};

/// The first step of a route that fails, and the first of its causes; none where no step fails.
pub(crate) fn route_fault(
    airport: &Airport,
    class: Class,
    held: &HeldFlights,
    known: &mut KnownWindows,
    steps: &[Step],
) -> Result<Option<StepFault>, Memory>
    requires spans { HasSpansOf airport.now (state_of held.now) held.now }
    requires known { AreKnownIn airport.now (state_of held.now) known.old }
    requires arcs { All (λ step. IsTrue (arc_exists (layout_of airport.now) step.arc)) steps.now }
    requires few { length steps.now < 2 ^ 32 }
    ensures fault { IfOk result (λ fault. fault ≡ route_fault airport.now class (state_of held.now) steps.now) }
    ensures known { AreKnownIn airport.now (state_of held.now) known.new }
{
    let mut before = None;
    for (place, step) in steps.iter().enumerate() {
        let cause = cause_of(airport, class, held, known, before, *step)?;
        if let Some(cause) = cause {
            let number = place as u32 + 1;
            return Ok(Some(StepFault { number, cause }));
        }
        before = Some(step.arc);
    }
    Ok(None)
}

// Why a step fails after an arc, of several causes the first.
fn cause_of(
    airport: &Airport,
    class: Class,
    held: &HeldFlights,
    known: &mut KnownWindows,
    before: Option<Arc>,
    step: Step,
) -> Result<Option<StepCause>, Memory>
    requires spans { HasSpansOf airport.now (state_of held.now) held.now }
    requires known { AreKnownIn airport.now (state_of held.now) known.old }
    requires arc { IsTrue (arc_exists (layout_of airport.now) step.arc) }
    ensures cause { IfOk result (λ cause. cause ≡ cause_of airport.now class (state_of held.now) before step) }
    ensures known { AreKnownIn airport.now (state_of held.now) known.new }
{
    let Some(seconds) = airport.classes().seconds(class, step.arc.segment()) else {
        return Ok(Some(StepCause::ClassBarred));
    };
    if !may_follow(airport, before, step.arc) {
        Ok(Some(StepCause::BadTurn))
    } else if is_too_fast(step, seconds) {
        Ok(Some(StepCause::TooFast))
    } else if airport.horizon() < step.leave {
        Ok(Some(StepCause::PastHorizon))
    } else {
        taken_cause(airport, class, held, known, step)
    }
}

// Whether the turn from the arc before, if there is one, is permitted.
fn may_follow(airport: &Airport, before: Option<Arc>, arc: Arc) -> bool
    ensures { result ≡ may_follow airport.now before arc }
{
    match before {
        Some(before) => airport.graph().permits(before, arc),
        None => true,
    }
}

// Whether a step takes less than so many seconds.
fn is_too_fast(step: Step, seconds: Time) -> bool
    ensures { result ≡ nat_lt step.leave (step.enter + seconds) }
{
    u64::from(step.leave) < u64::from(step.enter) + u64::from(seconds)
}
