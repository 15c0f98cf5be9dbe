//! Why a route that is given by hand fails.
ghost use Rattle.std.specs.Prelude.{◌≡◌, ◌↔◌, ◌+◌, ◌<◌, ◌≤◌, ◌^◌, ℕ, None, IsTrue, All, length, nat_lt};
ghost use Rattle.taxi_base.specs.Airport.{arc_exists, layout_of};
ghost use Rattle.taxi_base.specs.Walks.{AreJoined, IsFeasibleWalk};
ghost use Rattle.commitments.specs.Book.{Fits};
ghost use Rattle.taxi_base.specs.Faults.{conditions_in, may_follow, taken_by, taken_cause, cause_of, route_fault};

use crate::Ledger;
use airport_file::Airport;
use taxi_base::{Arc, Class, Segment, Span, Step, StepCause, StepFault, Time};

impl Ledger {
    /// The first step of a route that fails among the holders in force, and the first of its causes. It needs no memory.
    pub fn check_route(&self, airport: &Airport, class: Class, steps: &[Step]) -> Option<StepFault>
        requires fits { Fits airport.now self.now }
        requires unlifted { self.now.lifted ≡ None }
        requires arcs { All (λ s. IsTrue (arc_exists (layout_of airport.now) s.arc)) steps.now }
        requires few { length steps.now < 2 ^ 32 }
        ensures fault { result ≡ route_fault airport.now class self.now.state steps.now }
        ensures feasible { 0 < length steps.now → AreJoined steps.now → (result ≡ None) ↔ IsFeasibleWalk (conditions_in airport.now class self.now.state) steps.now }
    {
        let mut before = None;
        for (place, step) in steps.iter().enumerate() {
            if let Some(cause) = self.cause_of(airport, class, before, step) {
                let number = place as u32 + 1;
                return Some(StepFault { number, cause });
            }
            before = Some(step.arc);
        }
        None
    }

    // Why a step fails after an arc, of several causes the first.
    fn cause_of(
        &self,
        airport: &Airport,
        class: Class,
        before: Option<Arc>,
        step: &Step,
    ) -> Option<StepCause>
        requires fits { Fits airport.now self.now }
        requires unlifted { self.now.lifted ≡ None }
        requires arc { IsTrue (arc_exists (layout_of airport.now) step.now.arc) }
        ensures { result ≡ cause_of airport.now class self.now.state before step.now }
    {
        let Some(seconds) = airport.classes().seconds(class, step.arc.segment()) else {
            return Some(StepCause::ClassBarred);
        };
        if !may_follow(airport, before, step.arc) {
            Some(StepCause::BadTurn)
        } else if is_too_fast(step, seconds) {
            Some(StepCause::TooFast)
        } else if airport.horizon() < step.leave {
            Some(StepCause::PastHorizon)
        } else {
            self.taken_cause(airport, class, step)
        }
    }

    // The first second at which the step's segment is taken, and by whom.
    fn taken_cause(&self, airport: &Airport, class: Class, step: &Step) -> Option<StepCause>
        requires fits { Fits airport.now self.now }
        requires unlifted { self.now.lifted ≡ None }
        requires arc { IsTrue (arc_exists (layout_of airport.now) step.now.arc) }
        requires some { step.now.enter < step.now.leave }
        requires in_time { step.now.leave ≤ airport.now.horizon }
        ensures { result ≡ taken_cause airport.now class self.now.state step.now }
    {
        let held = step.held(airport.horizon(), airport.clearance(class));
        self.taken_by(airport, step.arc.segment(), held)
    }

    // The first second of a span at which a segment is taken, and by whom.
    pub(crate) fn taken_by(
        &self,
        airport: &Airport,
        segment: Segment,
        span: Span,
    ) -> Option<StepCause>
        requires fits { Fits airport.now self.now }
        requires unlifted { self.now.lifted ≡ None }
        requires segment { segment.0 < length airport.now.segments }
        requires some { span.from < span.until }
        requires in_time { span.until ≤ airport.now.horizon }
        ensures { result ≡ taken_by airport.now self.now.state (record { segment = segment; span = span }) }
    {
        // Where the span lies in a free window, no holder needs to be looked at.
        if self.held.store().is_free(segment, span.from, span.until) {
            return None;
        }
        let (at, by) = self.held.first_taken(airport, segment, span)?;
        Some(StepCause::Taken { at, by })
    }
}

// Whether the turn from the arc before, if there is one, is permitted.
fn may_follow(airport: &Airport, before: Option<Arc>, arc: Arc) -> bool
    ensures { result ≡ may_follow airport.now before arc }
{
    match before {
        Some(before) => airport.graph().permits(before, arc),
        None => true,
    }
}

// Whether a step takes less than so many seconds.
fn is_too_fast(step: &Step, seconds: Time) -> bool
    ensures { result ≡ nat_lt step.now.leave (step.now.enter + seconds) }
{
    u64::from(step.leave) < u64::from(step.enter) + u64::from(seconds)
}
