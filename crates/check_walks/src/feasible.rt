//! Whether steps are a feasible walk.
ghost use Rattle.std.specs.Prelude.{◌≡◌, ◌↔◌, ◌+◌, nat_le, IfOk, IsTrue, All, length};
ghost use Rattle.taxi_base.specs.Walks.{conditions_among, free_among, IsFeasibleStep, IsFeasibleWalk};
ghost use Rattle.check_rows.specs.Known.{AreKnown};
ghost use Rattle.check_walks.specs.Steps.{follows, lasts, is_possible, IsChain};

use crate::inside::is_inside_one;
use airport_file::Airport;
use check_rows::KnownWindows;
use held_spans::HoldsOf;
use segment_graph::Graph;
use taxi_base::{Class, Memory, Step, Time};

/// Whether some steps are a feasible walk of a class among the holds. The windows are to be known for these holds, and stay
/// so, also after an error.
pub fn is_feasible_walk<H: HoldsOf>(
    airport: &Airport,
    class: Class,
    holds: &H,
    known: &mut KnownWindows,
    steps: &[Step],
) -> Result<bool, Memory>
    requires known { AreKnown (length airport.now.segments) (free_among airport.now (H.held holds.now)) known.old }
    ensures known { AreKnown (length airport.now.segments) (free_among airport.now (H.held holds.now)) known.new }
    ensures walk { IfOk result (λ yes. IsTrue yes ↔ IsFeasibleWalk (conditions_among airport.now class (H.held holds.now)) steps.now) }
{
    if !is_chain(airport.graph(), steps) {
        return Ok(false);
    }
    all_feasible(airport, class, holds, known, steps)
}

/// Whether there is a step, and each follows the one before.
fn is_chain(graph: &Graph, steps: &[Step]) -> bool
    ensures { IsTrue result ↔ IsChain graph.now steps.now }
{
    if steps.is_empty() {
        return false;
    }
    steps.is_sorted_by(|s, t| follows(graph, *s, *t))
}

fn follows(graph: &Graph, step: Step, next: Step) -> bool
    ensures { result ≡ follows graph.now step next }
{
    step.leave == next.enter && graph.permits(step.arc, next.arc)
}

/// Whether the class can make each step among the holds.
fn all_feasible<H: HoldsOf>(
    airport: &Airport,
    class: Class,
    holds: &H,
    known: &mut KnownWindows,
    steps: &[Step],
) -> Result<bool, Memory>
    requires known { AreKnown (length airport.now.segments) (free_among airport.now (H.held holds.now)) known.old }
    ensures known { AreKnown (length airport.now.segments) (free_among airport.now (H.held holds.now)) known.new }
    ensures each { IfOk result (λ yes. IsTrue yes ↔ All (IsFeasibleStep (conditions_among airport.now class (H.held holds.now))) steps.now) }
{
    for step in steps {
        let made = is_feasible_step(airport, class, holds, known, *step)?;
        if !made {
            return Ok(false);
        }
    }
    Ok(true)
}

fn is_feasible_step<H: HoldsOf>(
    airport: &Airport,
    class: Class,
    holds: &H,
    known: &mut KnownWindows,
    step: Step,
) -> Result<bool, Memory>
    requires known { AreKnown (length airport.now.segments) (free_among airport.now (H.held holds.now)) known.old }
    ensures known { AreKnown (length airport.now.segments) (free_among airport.now (H.held holds.now)) known.new }
    ensures made { IfOk result (λ yes. IsTrue yes ↔ IsFeasibleStep (conditions_among airport.now class (H.held holds.now)) step) }
{
    if !is_possible(airport, class, step) {
        return Ok(false);
    }
    let segment = step.arc.segment();
    known.make(airport, holds, segment)?;
    let held = step.held(airport.horizon(), airport.clearance(class));
    Ok(is_inside_one(known.of(segment), held))
}

/// Whether the class could make a step if nothing were held.
fn is_possible(airport: &Airport, class: Class, step: Step) -> bool
    ensures { result ≡ is_possible airport.now class step }
{
    airport.graph().exists(step.arc)
        && step.leave <= airport.horizon()
        && lasts(airport, class, step)
}

/// Whether a step takes the time that its class needs.
fn lasts(airport: &Airport, class: Class, step: Step) -> bool
    ensures { result ≡ lasts airport.now class step }
{
    match airport.classes().seconds(class, step.arc.segment()) {
        Some(seconds) => takes(step, seconds),
        None => false,
    }
}

fn takes(step: Step, seconds: Time) -> bool
    ensures { result ≡ nat_le (step.enter + seconds) step.leave }
{
    u64::from(step.enter) + u64::from(seconds) <= u64::from(step.leave)
}
