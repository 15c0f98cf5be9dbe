//! Edits of the lists in conflict with the segments of steps.
ghost use Rattle.std.specs.Prelude.{ℕ, ◌≡◌, ◌+◌, ◌/◌, ◌^◌, ◌<◌, ◌≤◌, List, [], ◌∷◌, ◌++◌, length, All, IsTrue, OnOk};
ghost use Rattle.taxi_base.specs.declared.numbers.Segment.{Segment as SegmentNumber};
ghost use Rattle.taxi_base.specs.Airport.{conflict, segment_of};
ghost use Rattle.taxi_base.specs.Windows.{Hold, hold_of, holds_of};
ghost use Rattle.interval_list.specs.Intervals.{owned};
ghost use Rattle.conflict_sets.specs.Conflicts.{AreConflicts};
ghost use Rattle.window_store.specs.Spans.{nodes};
ghost use Rattle.window_store.specs.Store.{of_lists_and_ids, IsStore, HaveRoom};
ghost use Rattle.window_store.specs.Stands.{StandsFor, HasRoomFor, AreOnSegments, TakeTime, AreInTime};
ghost use Rattle.window_store.specs.Beside.{HasRoomBeside};
ghost use Rattle.window_store.specs.Stays.{step_at};
ghost use Rattle.window_store.specs.Edits.{of_lists, list_in, EachInConflict, ChangesConflicting, CanHold, IsHeld, StandsForLeft, IsReleased, AreHeld, AreReleased};
ghost use Rattle.window_store.specs.Counts.{count_of, stepped, IsCounted, IsCountedAtMost, HaveRoomFor, IsRoomier, GainsNodes, GainsNodesFor};

use crate::beside::RoomBeside;
use crate::held::OtherHolds;
use crate::segment_windows::SegmentWindows;
use crate::stays::{begins_stay, stay_from};
use crate::step_counts::StepCounts;
use crate::still_held::StillHeld;
use conflict_sets::Conflicts;
use interval_list::Ids;
use taxi_base::{Memory, Segment, Span, Step, Time};

// ---- a step

/// For how long steps hold their segments: each until the clearance after its leave is over, but not past the horizon.
#[derive(Clone, Copy)]
pub(crate) struct Term {
    pub(crate) horizon: Time,
    pub(crate) clearance: Time,
}

// The segments in conflict with a step's, itself among them.
fn segments_of<'a>(conflicts: &'a Conflicts, step: &Step) -> &'a [Segment]
    requires { step.now.arc.0 / 2 < conflicts.now.segments }
    ensures all { AreConflicts conflicts.now.sets (segment_of step.now.arc) result.now }
    ensures exist { All (λ t. t.0 < conflicts.now.segments) result.now }
{
    conflicts.of(step.arc.segment())
}

// For which seconds a step holds its segment.
pub(crate) fn span_of(step: &Step, term: Term) -> Span
    ensures { result ≡ (hold_of term.horizon term.clearance step.now).span }
{
    step.held(term.horizon, term.clearance)
}

// ---- holding

/// Each list in conflict with a step is cut by what the step holds.
pub(crate) fn hold_steps(
    lists: &mut [SegmentWindows],
    conflicts: &Conflicts,
    steps: &[Step],
    term: Term,
)
    requires segments { length lists.old ≡ conflicts.now.segments }
    requires steps { AreOnSegments conflicts.now.segments steps.now }
    requires time { TakeTime steps.now }
    requires in_time { AreInTime term.horizon steps.now }
    requires stands { (holds : List Hold) × StandsFor conflicts.now.sets term.horizon holds (of_lists lists.old) }
    requires room { HasRoomFor conflicts.now.sets steps.now (of_lists lists.old) }
    ensures { AreHeld conflicts.now.sets term.horizon term.clearance steps.now lists.old lists.new }
{
    for step in steps {
        hold_step(lists, conflicts, step, term);
    }
}

fn hold_step(lists: &mut [SegmentWindows], conflicts: &Conflicts, step: &Step, term: Term)
    requires segments { length lists.old ≡ conflicts.now.segments }
    requires step { step.now.arc.0 / 2 < conflicts.now.segments }
    requires time { step.now.enter < step.now.leave }
    requires in_time { step.now.leave ≤ term.horizon }
    requires can { EachInConflict conflicts.now.sets (segment_of step.now.arc) CanHold lists.old }
    ensures { ChangesConflicting conflicts.now.sets (segment_of step.now.arc) (IsHeld (hold_of term.horizon term.clearance step.now).span) lists.old lists.new }
{
    let span = span_of(step, term);
    for segment in segments_of(conflicts, step) {
        lists[segment.0 as usize].hold(span);
    }
}

// ---- releasing

/// Each list in conflict with a step gets back what the step held and nothing else does: neither a later step nor a
/// route that remains. What several steps held of a segment without a gap is given back at once.
pub(crate) fn release_steps<R: OtherHolds>(
    lists: &mut [SegmentWindows],
    conflicts: &Conflicts,
    remaining: &R,
    steps: &[Step],
    term: Term,
)
    requires segments { length lists.old ≡ conflicts.now.segments }
    requires steps { AreOnSegments conflicts.now.segments steps.now }
    requires time { TakeTime steps.now }
    requires in_time { AreInTime term.horizon steps.now }
    requires stands { StandsFor conflicts.now.sets term.horizon (R.holds remaining.now ++ holds_of term.horizon term.clearance steps.now) (of_lists lists.old) }
    ensures { AreReleased conflicts.now.sets term.horizon term.clearance (R.holds remaining.now) steps.now (length steps.now) lists.old lists.new }
{
    for place in 0..steps.len() {
        release_step(lists, conflicts, remaining, steps, place, term);
    }
}

fn release_step<R: OtherHolds>(
    lists: &mut [SegmentWindows],
    conflicts: &Conflicts,
    remaining: &R,
    steps: &[Step],
    place: usize,
    term: Term,
)
    requires segments { length lists.old ≡ conflicts.now.segments }
    requires steps { AreOnSegments conflicts.now.segments steps.now }
    requires place { place < length steps.now }
    requires time { TakeTime steps.now }
    requires in_time { AreInTime term.horizon steps.now }
    requires stands { EachInConflict conflicts.now.sets (segment_of (step_at steps.now place).arc) (StandsForLeft conflicts.now.sets term.horizon term.clearance steps.now place (R.holds remaining.now)) lists.old }
    ensures { ChangesConflicting conflicts.now.sets (segment_of (step_at steps.now place).arc) (IsReleased conflicts.now.sets term.horizon term.clearance (R.holds remaining.now) steps.now place) lists.old lists.new }
{
    for segment in segments_of(conflicts, &steps[place]) {
        let list = &mut lists[segment.0 as usize];
        release_stay(list, conflicts, *segment, remaining, steps, place, term);
    }
}

// A segment's list gets back what only the stay held that begins at a step. Where none does that is done.
fn release_stay<R: OtherHolds>(
    list: &mut SegmentWindows,
    conflicts: &Conflicts,
    segment: Segment,
    remaining: &R,
    steps: &[Step],
    place: usize,
    term: Term,
)
    requires exists { segment.0 < conflicts.now.segments }
    requires place { place < length steps.now }
    requires met { IsTrue (conflict conflicts.now.sets segment (segment_of (step_at steps.now place).arc)) }
    requires time { TakeTime steps.now }
    requires in_time { AreInTime term.horizon steps.now }
    requires stands { StandsForLeft conflicts.now.sets term.horizon term.clearance steps.now place (R.holds remaining.now) segment list.old }
    ensures { IsReleased conflicts.now.sets term.horizon term.clearance (R.holds remaining.now) steps.now place segment list.old list.new }
{
    if begins_stay(conflicts, segment, steps, place) {
        let left = &steps[place..];
        let stay = stay_from(conflicts, segment, left, term);
        let others = StillHeld {
            conflicts,
            segment,
            remaining,
            later: &left[stay.steps..],
            term,
        };
        list.release(stay.span, stay.steps, &others);
    }
}

// ---- making room

/// Counts the steps that touch each list, and makes nodes there for one window more than its number and its count say.
/// Room for as many holds is made beside the lists. What was made before memory ran out stays.
pub(crate) fn make_room<B: RoomBeside>(
    lists: &mut [SegmentWindows],
    beside: &mut B,
    ids: &mut Ids,
    counts: &mut StepCounts,
    conflicts: &Conflicts,
    steps: &[Step],
) -> Result<(), Memory>
    requires segments { length lists.old ≡ conflicts.now.segments }
    requires counts { length counts.old ≡ length lists.old }
    requires steps { AreOnSegments conflicts.now.segments steps.now }
    requires few { All (λ l. l.held + length steps.now < 2 ^ 33) lists.old }
    requires store { IsStore (of_lists_and_ids lists.old ids.old.next) }
    requires room { HaveRoom lists.old }
    requires beside { HasRoomBeside (B.segments beside.old) (B.room beside.old) lists.old }
    ensures room { OnOk result (HasRoomFor conflicts.now.sets steps.now (of_lists lists.new)) }
    ensures gained { GainsNodesFor conflicts.now.sets steps.now (of_lists_and_ids lists.old ids.old.next) (of_lists_and_ids lists.new ids.new.next) }
    ensures counts { length counts.new ≡ length lists.new }
    ensures beside { HasRoomBeside (B.segments beside.new) (B.room beside.new) lists.new }
    ensures kept { B.keeps beside.old beside.new }
{
    counts.clear();
    for step in steps {
        make_room_for_step(lists, beside, ids, counts, conflicts, step)?;
    }
    Ok(())
}

fn make_room_for_step<B: RoomBeside>(
    lists: &mut [SegmentWindows],
    beside: &mut B,
    ids: &mut Ids,
    counts: &mut StepCounts,
    conflicts: &Conflicts,
    step: &Step,
) -> Result<(), Memory>
    requires segments { length lists.old ≡ conflicts.now.segments }
    requires counts { length counts.old ≡ length lists.old }
    requires step { step.now.arc.0 / 2 < conflicts.now.segments }
    requires few { (s : SegmentNumber) → s.0 < length lists.old → (list_in lists.old s).held + count_of counts.old s + 1 < 2 ^ 33 }
    requires store { IsStore (of_lists_and_ids lists.old ids.old.next) }
    requires room { HaveRoomFor counts.old lists.old }
    requires beside { HasRoomBeside (B.segments beside.old) (B.room beside.old) lists.old }
    ensures counted { OnOk result (IsCounted (stepped conflicts.now.sets (step.now ∷ [])) counts.old counts.new) }
    ensures at_most { IsCountedAtMost (stepped conflicts.now.sets (step.now ∷ [])) counts.old counts.new }
    ensures room { OnOk result (HaveRoomFor counts.new lists.new) }
    ensures gained { GainsNodes counts.new (of_lists_and_ids lists.old ids.old.next) (of_lists_and_ids lists.new ids.new.next) }
    ensures beside { HasRoomBeside (B.segments beside.new) (B.room beside.new) lists.new }
    ensures kept { B.keeps beside.old beside.new }
{
    for segment in segments_of(conflicts, step) {
        let steps = counts.count(*segment);
        let list = &mut lists[segment.0 as usize];
        let wanted = list.held() + steps + 1;
        make_nodes(list, beside, ids, *segment, wanted)?;
    }
    Ok(())
}

// Makes room for one hold fewer beside a list, and then nodes until the list has so many. Where it has, nothing is done.
fn make_nodes<B: RoomBeside>(
    list: &mut SegmentWindows,
    beside: &mut B,
    ids: &mut Ids,
    segment: Segment,
    wanted: usize,
) -> Result<(), Memory>
    requires exists { segment.0 < B.segments beside.old }
    requires some { 1 ≤ wanted }
    requires below { All (λ id. id < ids.old.next) (owned list.old.intervals) }
    requires fits { ids.old.next + wanted < 2 ^ 64 }
    requires few { wanted ≤ 2 ^ 33 }
    requires beside { nodes list.old ≤ 1 + B.room beside.old segment }
    ensures roomier { IsRoomier wanted ids.old.next ids.new.next list.old list.new }
    ensures enough { OnOk result (wanted ≤ nodes list.new) }
    ensures beside { nodes list.new ≤ 1 + B.room beside.new segment }
    ensures as_many { B.segments beside.new ≡ B.segments beside.old }
    ensures gained { (s : SegmentNumber) → B.room beside.old s ≤ B.room beside.new s }
    ensures kept { B.keeps beside.old beside.new }
{
    if wanted <= list.nodes() {
        return Ok(());
    }
    beside.make_room(segment, wanted - 1)?;
    list.make_room(ids, wanted)
}
