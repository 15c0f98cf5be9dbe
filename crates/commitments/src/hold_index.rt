//! The steps that hold segments, by segment.
ghost use Rattle.std.specs.Prelude.{◌≡◌, ◌+◌, ◌/◌, ◌^◌, ◌<◌, ◌≤◌, ◌==◌, if◌then◌else◌, ◌∷◌, ◌++◌, [], length, Contains, IfOk};
ghost use Rattle.window_store.specs.Held.{IsFirstHeld};
ghost use Rattle.window_store.specs.Conflicting.{ReachesUpTo};
ghost use Rattle.taxi_base.specs.declared.numbers.Segment.{Segment as SegmentNumber};
ghost use Rattle.taxi_base.specs.Airport.{segment_of};
ghost use Rattle.window_store.specs.Stands.{AreOnSegments};
ghost use Rattle.commitments.specs.Held.{steps_with, all_steps, list_of, spans_by, AreAsMany, HaveRoomForSteps, AreBySegment, KeepsHoldRoom, AreAmong};
ghost use Rattle.commitments.specs.Taken.{has_second, takes, IsFirstNamed};

use crate::segment_holds::{HeldStep, Holder, SegmentHolds, first_name};
use airport_file::Airport;
use conflict_sets::Conflicts;
use std::alloc::Global;
use std::marker::Model;
use taxi_base::{Memory, Name, Segment, Step, Time};
use window_store::{OtherHolds, RoomBeside};

/// The steps that hold segments, by segment.
#[derive(Drop)]
pub(crate) struct HoldIndex {
    pub(crate) lists: Vec<SegmentHolds>,
}

impl Model for HoldIndex {
    ghost use Rattle.std.specs.Prelude.{List};
    ghost use Rattle.commitments.specs.Held.{StepList, AreBySegment};

    ghost Value = { List StepList };

    ghost view = { λ i. i.lists.items };

    ghost invariant = { λ i. AreBySegment i.lists.items };
}

impl HoldIndex {
    /// Nothing is held on so many segments.
    pub(crate) fn new(alloc: Global, segments: usize) -> Result<HoldIndex, Memory>
        ensures segments { IfOk result (λ i. length i ≡ segments) }
        ensures none { IfOk result (λ i. all_steps i ≡ []) }
    {
        let mut lists = Vec::new(alloc);
        for _ in 0..segments {
            lists.push(SegmentHolds::new(alloc))?;
        }
        Ok(HoldIndex { lists })
    }

    /// Puts steps among the others. It needs no memory.
    pub(crate) fn insert(&mut self, steps: &[Step], holder: &Holder)
        requires segments { AreOnSegments (length self.old) steps.now }
        requires room { HaveRoomForSteps steps.now self.old }
        ensures steps { AreAsMany (all_steps self.old ++ steps_with holder.now steps.now) (all_steps self.new) }
        ensures capacity { KeepsHoldRoom self.old self.new }
    {
        for step in steps {
            self.insert_one(HeldStep {
                step: *step,
                holder: *holder,
            });
        }
    }

    fn insert_one(&mut self, held: HeldStep)
        requires segment { held.step.arc.0 / 2 < length self.old }
        requires room { length (list_of self.old (segment_of held.step.arc)).steps < (list_of self.old (segment_of held.step.arc)).capacity }
        ensures steps { AreAsMany (held ∷ all_steps self.old) (all_steps self.new) }
        ensures lengths { (segment : SegmentNumber) → length (list_of self.new segment).steps ≡ length (list_of self.old segment).steps + (if held.step.arc.0 / 2 == segment.0 then 1 else 0) }
        ensures capacity { KeepsHoldRoom self.old self.new }
    {
        self.lists[held.step.arc.segment().0 as usize].insert(held);
    }

    /// Takes steps out that are among the others. It needs no memory.
    pub(crate) fn remove(&mut self, steps: &[Step], holder: &Holder)
        requires segments { AreOnSegments (length self.old) steps.now }
        requires among { AreAmong (steps_with holder.now steps.now) (all_steps self.old) }
        ensures steps { AreAsMany (all_steps self.old) (all_steps self.new ++ steps_with holder.now steps.now) }
        ensures capacity { KeepsHoldRoom self.old self.new }
    {
        for step in steps {
            self.remove_one(HeldStep {
                step: *step,
                holder: *holder,
            });
        }
    }

    fn remove_one(&mut self, held: HeldStep)
        requires segment { held.step.arc.0 / 2 < length self.old }
        requires there { Contains (all_steps self.old) held }
        ensures steps { AreAsMany (all_steps self.old) (held ∷ all_steps self.new) }
        ensures capacity { KeepsHoldRoom self.old self.new }
    {
        self.lists[held.step.arc.segment().0 as usize].remove(held);
    }

    /// Each list has steps on its segment.
    pub(crate) fn keep_segments(&self)
        ensures { AreBySegment self.now }
    {
        let _lists = &self.lists;
    }

    // The first second that a step on a segment has, from `from` on and before `until`; `until` where none has one.
    fn first_held(&self, airport: &Airport, segment: Segment, from: Time, until: Time) -> Time
        requires { from ≤ until }
        ensures { IsFirstHeld (spans_by airport.now (list_of self.now segment).steps) from until result }
    {
        match self.lists.get(segment.0 as usize) {
            Some(list) => list.first_held(airport, from, until),
            None => until,
        }
    }

    // The first name of those whose steps on a segment have a second; none where none has it.
    fn first_holder(&self, airport: &Airport, segment: Segment, second: Time) -> Option<Name>
        ensures { IsFirstNamed (has_second airport.now second) (list_of self.now segment).steps result }
    {
        match self.lists.get(segment.0 as usize) {
            Some(list) => list.first_holder(airport, second),
            None => None,
        }
    }

    // Up to when a step on a segment has each second from one on; that second where none has it.
    fn held_until(&self, airport: &Airport, segment: Segment, from: Time) -> Time
        ensures { ReachesUpTo (spans_by airport.now (list_of self.now segment).steps) from result }
    {
        match self.lists.get(segment.0 as usize) {
            Some(list) => list.held_until(airport, from),
            None => from,
        }
    }
}

impl RoomBeside for HoldIndex {
    ghost use Rattle.std.specs.Prelude.{◌≡◌, length, refl};
    ghost use Rattle.std.proofs.Common.{◌∙◌};
    ghost use Rattle.commitments.specs.Held.{all_steps, list_of};

    ghost segments = { λ i. length i };

    ghost room = { λ i s. (list_of i s).capacity };

    ghost keeps = { λ x y. all_steps y ≡ all_steps x };

    fn make_room(&mut self, segment: Segment, wanted: usize) -> Result<(), Memory> {
        self.lists[segment.0 as usize].make_room(wanted)
    }

    ghost keeps_itself = { λ x. refl };

    ghost keeps_further = { λ x y z first second. second ∙ first };
}

/// What the steps of an index hold at an airport.
#[derive(Drop)]
pub(crate) struct IndexHolds<'a> {
    pub(crate) index: &'a HoldIndex,
    pub(crate) airport: &'a Airport,
}

impl<'a> OtherHolds for IndexHolds<'a> {
    ghost use Rattle.std.specs.Prelude.{map};
    ghost use Rattle.commitments.specs.Held.{hold_by, all_steps};

    ghost holds = { λ h. map (hold_by h.airport.now) (all_steps h.index.now) };

    fn first_held(&self, conflicts: &Conflicts, segment: Segment, from: Time, until: Time) -> Time {
        self.index.keep_segments();
        let mut first = until;
        for other in conflicts.of(segment) {
            first = self.index.first_held(self.airport, *other, from, first);
        }
        first
    }

    fn held_until(&self, conflicts: &Conflicts, segment: Segment, from: Time) -> Time {
        self.index.keep_segments();
        let mut until = from;
        for other in conflicts.of(segment) {
            until = until.max(self.index.held_until(self.airport, *other, from));
        }
        until
    }
}

impl<'a> IndexHolds<'a> {
    /// The first name of those who hold a segment in conflict with this one at a second; none where none does.
    pub(crate) fn first_holder(&self, segment: Segment, second: Time) -> Option<Name>
        requires { segment.0 < length self.now.airport.now.segments }
        ensures { IsFirstNamed (takes self.now.airport.now segment second) (all_steps self.now.index.now) result }
    {
        self.index.keep_segments();
        let mut first = None;
        for other in self.airport.conflicts().of(segment) {
            let own = self.index.first_holder(self.airport, *other, second);
            first = first_name(first, own);
        }
        first
    }
}
