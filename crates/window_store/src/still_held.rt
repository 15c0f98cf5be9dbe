//! What is held of a segment by other steps.
ghost use Rattle.std.specs.Prelude.{◌<◌, ◌≤◌, [], ◌∷◌};
ghost use Rattle.taxi_base.specs.Windows.{hold_of, holds_of};
ghost use Rattle.window_store.specs.Held.{IsFirstHeld};
ghost use Rattle.window_store.specs.Conflicting.{spans_in_conflict, ReachesUpTo};

use crate::edits::{Term, span_of};
use crate::held::{HeldSeconds, OtherHolds};
use conflict_sets::Conflicts;
use taxi_base::{Segment, Step, Time};

/// The spans for which others and further steps hold segments in conflict with one.
#[derive(Drop)]
pub(crate) struct StillHeld<'a, R: OtherHolds> {
    pub(crate) conflicts: &'a Conflicts,
    pub(crate) segment: Segment,
    pub(crate) remaining: &'a R,
    pub(crate) later: &'a [Step],
    // For how long the further steps hold.
    pub(crate) term: Term,
    ghost exists: { segment.0 < conflicts.now.segments },
}

impl<'a, R: OtherHolds> HeldSeconds for StillHeld<'a, R> {
    ghost use Rattle.std.specs.Prelude.{◌++◌};
    ghost use Rattle.taxi_base.specs.Windows.{holds_of};
    ghost use Rattle.window_store.specs.Conflicting.{spans_in_conflict};

    ghost spans = { λ h. spans_in_conflict h.conflicts.now.sets h.segment (R.holds h.remaining.now ++ holds_of h.term.horizon h.term.clearance h.later.now) };

    fn first_held(&self, from: Time, until: Time) -> Time {
        let others = self
            .remaining
            .first_held(self.conflicts, self.segment, from, until);
        first_in(
            self.conflicts,
            self.segment,
            self.later,
            self.term,
            from,
            others,
        )
    }

    fn held_until(&self, from: Time) -> Time {
        let others = self
            .remaining
            .held_until(self.conflicts, self.segment, from);
        others.max(end_in(self.conflicts, self.segment, self.later, self.term, from))
    }
}

// The first second from one on, and before another, at which a step holds a segment in conflict; the other where none
// does.
pub(crate) fn first_in(
    conflicts: &Conflicts,
    segment: Segment,
    steps: &[Step],
    term: Term,
    from: Time,
    until: Time,
) -> Time
    requires exists { segment.0 < conflicts.now.segments }
    requires order { from ≤ until }
    ensures { IsFirstHeld (spans_in_conflict conflicts.now.sets segment (holds_of term.horizon term.clearance steps.now)) from until result }
{
    let mut first = until;
    for step in steps {
        first = first_of(conflicts, segment, step, term, from, first);
    }
    first
}

fn first_of(
    conflicts: &Conflicts,
    segment: Segment,
    step: &Step,
    term: Term,
    from: Time,
    until: Time,
) -> Time
    requires exists { segment.0 < conflicts.now.segments }
    requires order { from ≤ until }
    ensures { IsFirstHeld (spans_in_conflict conflicts.now.sets segment (hold_of term.horizon term.clearance step.now ∷ [])) from until result }
{
    let held = span_of(step, term);
    let begin = held.from.max(from);
    let meets = begin < until && begin < held.until;
    if meets && conflicts.conflict(segment, step.arc.segment()) {
        begin
    } else {
        until
    }
}

// The last end of the steps that hold a segment in conflict at a second; the second where none does.
pub(crate) fn end_in(
    conflicts: &Conflicts,
    segment: Segment,
    steps: &[Step],
    term: Term,
    from: Time,
) -> Time
    requires { segment.0 < conflicts.now.segments }
    ensures { ReachesUpTo (spans_in_conflict conflicts.now.sets segment (holds_of term.horizon term.clearance steps.now)) from result }
{
    let mut until = from;
    for step in steps {
        until = until.max(end_of(conflicts, segment, step, term, from));
    }
    until
}

fn end_of(conflicts: &Conflicts, segment: Segment, step: &Step, term: Term, from: Time) -> Time
    requires { segment.0 < conflicts.now.segments }
    ensures { ReachesUpTo (spans_in_conflict conflicts.now.sets segment (hold_of term.horizon term.clearance step.now ∷ [])) from result }
{
    let held = span_of(step, term);
    let has = held.from <= from && from < held.until;
    if has && conflicts.conflict(segment, step.arc.segment()) {
        held.until
    } else {
        from
    }
}
