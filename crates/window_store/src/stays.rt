//! Stays: steps that hold a segment one after the other without a gap. What they held of it is given back at once.
ghost use Rattle.std.specs.Prelude.{◌≡◌, ◌<◌, length, IsTrue};
ghost use Rattle.taxi_base.specs.Airport.{conflict, segment_of};
ghost use Rattle.window_store.specs.Stands.{TakeTime, AreInTime};
ghost use Rattle.window_store.specs.Stays.{step_at, joins, begins_stay, IsStay};

use crate::edits::{Term, span_of};
use conflict_sets::Conflicts;
use taxi_base::{Segment, Span, Step};

/// So many steps, and what they hold together of a segment.
#[derive(Clone, Copy)]
pub(crate) struct Stay {
    pub(crate) span: Span,
    pub(crate) steps: usize,
}

/// Whether a step that holds a segment begins a stay there: the step before it does not hold it up to then.
pub(crate) fn begins_stay(
    conflicts: &Conflicts,
    segment: Segment,
    steps: &[Step],
    place: usize,
) -> bool
    requires exists { segment.0 < conflicts.now.segments }
    requires place { place < length steps.now }
    ensures { result ≡ begins_stay conflicts.now.sets segment steps.now place }
{
    if place == 0 {
        return true;
    }
    let before = &steps[place - 1];
    !(conflicts.conflict(segment, before.arc.segment()) && joins(before, &steps[place]))
}

/// The stay that the first of some steps begins.
pub(crate) fn stay_from(conflicts: &Conflicts, segment: Segment, steps: &[Step], term: Term) -> Stay
    requires exists { segment.0 < conflicts.now.segments }
    requires some { 0 < length steps.now }
    requires met { IsTrue (conflict conflicts.now.sets segment (segment_of (step_at steps.now 0).arc)) }
    requires time { TakeTime steps.now }
    requires in_time { AreInTime term.horizon steps.now }
    ensures { IsStay conflicts.now.sets term.horizon term.clearance segment steps.now result }
{
    let mut span = span_of(&steps[0], term);
    let mut more = 0;
    while more + 1 < steps.len() {
        let next = &steps[more + 1];
        if !(conflicts.conflict(segment, next.arc.segment()) && joins(&steps[more], next)) {
            return Stay {
                span,
                steps: more + 1,
            };
        }
        span.until = span.until.max(span_of(next, term).until);
        more += 1;
    }
    Stay {
        span,
        steps: more + 1,
    }
}

// Whether a step begins while the one before it is on its segment.
fn joins(before: &Step, step: &Step) -> bool
    ensures { result ≡ joins before.now step.now }
{
    before.enter <= step.enter && step.enter <= before.leave
}
