//! Up to when a segment is free among all holders but one.
ghost use Rattle.std.specs.Prelude.{◌≡◌, ◌<◌, ◌≤◌, ◌∷◌, [], None, length};
ghost use Rattle.taxi_base.specs.Windows.{is_free};
ghost use Rattle.taxi_base.specs.State.{holds_in, without};
ghost use Rattle.window_store.specs.Held.{IsFirstHeld};
ghost use Rattle.commitments.specs.Book.{Fits};
ghost use Rattle.commitments.specs.Held.{all_steps, list_of, spans_by};
ghost use Rattle.commitments.specs.Others.{IsFreeUntil, steps_of_others, is_left};

use crate::Ledger;
use crate::held_segments::HeldSegments;
use crate::hold_index::{HoldIndex, IndexHolds};
use crate::holds::keep_rules;
use crate::segment_holds::SegmentHolds;
use airport_file::Airport;
use taxi_base::{Name, Segment, Span, Time};

impl Ledger {
    /// Up to when a segment is free from a second on, among all holders but that of a name. It needs no memory.
    pub fn free_until(&self, airport: &Airport, name: &Name, segment: Segment, from: Time) -> Time
        requires fits { Fits airport.now self.now }
        requires unlifted { self.now.lifted ≡ None }
        requires segment { segment.0 < length airport.now.segments }
        requires in_time { from ≤ airport.now.horizon }
        ensures { IsFreeUntil (is_free airport.now.conflicts airport.now.horizon (holds_in airport.now (without name.now self.now.state)) segment) from airport.now.horizon result }
    {
        self.held
            .free_until(airport, name, segment, from, airport.horizon())
    }
}

impl HeldSegments {
    // The same by the steps, up to a limit.
    fn free_until(
        &self,
        airport: &Airport,
        name: &Name,
        segment: Segment,
        from: Time,
        limit: Time,
    ) -> Time
        requires segment { segment.0 < length airport.now.segments }
        requires order { from ≤ limit }
        ensures { IsFreeUntil (is_left airport.now name.now segment self.now.steps) from limit result }
    {
        let holds = IndexHolds {
            index: &self.index,
            airport,
        };
        holds.free_until(name, segment, from, limit)
    }
}

impl<'a> IndexHolds<'a> {
    // The same by the lists of the segments in conflict.
    fn free_until(&self, name: &Name, segment: Segment, from: Time, limit: Time) -> Time
        requires segment { segment.0 < length self.now.airport.now.segments }
        requires order { from ≤ limit }
        ensures { IsFreeUntil (is_left self.now.airport.now name.now segment (all_steps self.now.index.now)) from limit result }
    {
        self.index.keep_segments();
        let mut first = limit;
        for other in self.airport.conflicts().of(segment) {
            first = self
                .index
                .first_of_others(self.airport, name, *other, from, first);
        }
        first
    }
}

impl HoldIndex {
    // The first second that a step of another holder on a segment has, from `from` on and before `until`; `until` where none has one.
    fn first_of_others(
        &self,
        airport: &Airport,
        name: &Name,
        segment: Segment,
        from: Time,
        until: Time,
    ) -> Time
        requires { from ≤ until }
        ensures { IsFirstHeld (spans_by airport.now (steps_of_others name.now (list_of self.now segment).steps)) from until result }
    {
        match self.lists.get(segment.0 as usize) {
            Some(list) => list.first_of_others(airport, name, from, until),
            None => until,
        }
    }
}

impl SegmentHolds {
    // The same of one segment.
    fn first_of_others(&self, airport: &Airport, name: &Name, from: Time, until: Time) -> Time
        requires { from ≤ until }
        ensures { IsFirstHeld (spans_by airport.now (steps_of_others name.now self.now.steps)) from until result }
    {
        keep_rules(airport);
        let mut first = until;
        for held in self.since(from) {
            if first <= held.step.enter {
                return first;
            }
            if held.holder.name != *name {
                first = sooner(held.span(airport), from, first);
            }
        }
        first
    }
}

// The first second that a span has, from `from` on and before `until`; `until` where it has none.
fn sooner(span: Span, from: Time, until: Time) -> Time
    requires { from ≤ until }
    ensures { IsFirstHeld (span ∷ []) from until result }
{
    let begin = from.max(span.from);
    if begin < span.until {
        until.min(begin)
    } else {
        until
    }
}
