//! The spans for which segments are held, by their segment, and by whom.
ghost use Rattle.std.specs.Prelude.{◌≡◌, ◌↔◌, ◌+◌, ◌≤◌, ◌<◌, ◌∷◌, ◌++◌, [], ◌==◌, if◌then◌else◌, List, map, All, Contains, IsTrue, IsOk, IfOk, OnOk, OnErr, length, slice_get, Some};
ghost use Rattle.taxi_base.specs.declared.numbers.Segment.{Segment};
ghost use Rattle.taxi_base.specs.Airport.{segment_of};
ghost use Rattle.taxi_base.specs.Windows.{Hold, holds_of};
ghost use Rattle.held_spans.specs.Holders.{IsFirstOf, IsHolderIn};
ghost use Rattle.held_spans.specs.Spans.{rows_at, AreSpansOf, NamedHold, held_by, AreHeldBy, HasRoomFor, KeepsRoom, GainsRoom, room_at};

use crate::HoldsOf;
use crate::segment_spans::SegmentSpans;
use std::alloc::Global;
use taxi_base::{Memory, Name, Segment, Span, Step, Time};

/// The spans of each segment, and by whom it is held for them.
#[derive(Drop)]
pub struct HeldSpans {
    lists: Vec<SegmentSpans>,
}

impl HoldsOf for HeldSpans {
    ghost use Rattle.held_spans.specs.Spans.{holds_in_lists};

    ghost held = { holds_in_lists };

    fn spans(&self, segment: Segment) -> &[Span] {
        match self.lists.get(segment.0 as usize) {
            Some(list) => list.spans(),
            None => &[],
        }
    }

    fn spans_in(&self, segment: Segment, span: Span) -> &[Span] {
        match self.lists.get(segment.0 as usize) {
            Some(list) => list.spans_in(span),
            None => &[],
        }
    }
}

impl HeldSpans {
    /// No span on any of so many segments.
    pub fn new(alloc: Global, segments: usize) -> Result<HeldSpans, Memory>
        ensures count { IfOk result (λ held. length held.lists.items ≡ segments) }
        ensures none { IfOk result (AreHeldBy []) }
        ensures spans_none { IfOk result (AreSpansOf []) }
    {
        let mut lists = Vec::new(alloc);
        for _ in 0..segments {
            lists.push(SegmentSpans::new(alloc))?;
        }
        Ok(HeldSpans { lists })
    }

    /// The same spans once more, by the same holders.
    pub fn copy(&self) -> Result<HeldSpans, Memory>
        ensures held { IfOk result (λ copy. (holds : List NamedHold) → AreHeldBy holds self.now → AreHeldBy holds copy) }
        ensures count { IfOk result (λ copy. length copy.lists.items ≡ length self.now.lists.items) }
    {
        let lists = copied(*self.lists.allocator(), &self.lists)?;
        Ok(HeldSpans { lists })
    }

    /// Puts in what some steps of a holder hold. Where memory runs out the lists have what they had, with no less room.
    pub fn hold(
        &mut self,
        holder: &Name,
        horizon: Time,
        clearance: Time,
        steps: &[Step],
    ) -> Result<(), Memory>
        requires on { All (λ step. (segment_of step.arc).0 < length self.old.lists.items) steps.now }
        ensures ok { OnOk result ((holds : List NamedHold) → AreHeldBy holds self.old → AreHeldBy (holds ++ held_by holder.now (holds_of horizon clearance steps.now)) self.new) }
        ensures err { OnErr result ((holds : List NamedHold) → AreHeldBy holds self.old → AreHeldBy holds self.new) }
        ensures spans_ok { OnOk result ((holds : List Hold) → AreSpansOf holds self.old → AreSpansOf (holds ++ holds_of horizon clearance steps.now) self.new) }
        ensures spans_err { OnErr result ((holds : List Hold) → AreSpansOf holds self.old → AreSpansOf holds self.new) }
        ensures room { OnErr result (KeepsRoom self.old self.new) }
        ensures succeeds { HasRoomFor steps.now self.old → IsOk result }
        ensures count { length self.new.lists.items ≡ length self.old.lists.items }
    {
        for (at, step) in steps.iter().enumerate() {
            let span = step.held(horizon, clearance);
            if let Err(memory) = self.put(step.arc.segment(), span, holder) {
                self.release(holder, horizon, clearance, &steps[..at]);
                return Err(memory);
            }
        }
        Ok(())
    }

    /// Takes out what some steps of a holder hold, which is there. It needs no memory, and there is room for it then.
    pub fn release(&mut self, holder: &Name, horizon: Time, clearance: Time, steps: &[Step])
        requires { (holds : List NamedHold) × AreHeldBy (holds ++ held_by holder.now (holds_of horizon clearance steps.now)) self.old }
        ensures gone { (holds : List NamedHold) → AreHeldBy (holds ++ held_by holder.now (holds_of horizon clearance steps.now)) self.old → AreHeldBy holds self.new }
        ensures spans_gone { (holds : List Hold) → AreSpansOf (holds ++ holds_of horizon clearance steps.now) self.old → AreSpansOf holds self.new }
        ensures room { GainsRoom steps.now self.old self.new }
        ensures count { length self.new.lists.items ≡ length self.old.lists.items }
    {
        for step in steps {
            self.take(step.arc.segment(), step.held(horizon, clearance), holder);
        }
    }

    /// Puts a span of a holder in a segment's list. Where memory runs out the lists have what they had, with no less room.
    pub fn put(&mut self, segment: Segment, span: Span, holder: &Name) -> Result<(), Memory>
        requires { segment.0 < length self.old.lists.items }
        ensures ok { OnOk result ((holds : List NamedHold) → AreHeldBy holds self.old → AreHeldBy (holds ++ held_by holder.now (record { segment = segment; span = span } ∷ [])) self.new) }
        ensures err { OnErr result ((holds : List NamedHold) → AreHeldBy holds self.old → AreHeldBy holds self.new) }
        ensures spans_ok { OnOk result ((holds : List Hold) → AreSpansOf holds self.old → AreSpansOf (holds ++ record { segment = segment; span = span } ∷ []) self.new) }
        ensures spans_err { OnErr result ((holds : List Hold) → AreSpansOf holds self.old → AreSpansOf holds self.new) }
        ensures room { (s : Segment) → room_at self.old s ≤ room_at self.new s + (if segment.0 == s.0 then 1 else 0) }
        ensures kept { OnErr result (KeepsRoom self.old self.new) }
        ensures full { OnErr result (room_at self.old segment ≡ 0) }
        ensures count { length self.new.lists.items ≡ length self.old.lists.items }
    {
        let list = &mut self.lists[segment.0 as usize];
        list.put(span, holder)
    }

    /// Takes a span of a holder out of a segment's list, where it is. It needs no memory, and there is room for it then.
    pub fn take(&mut self, segment: Segment, span: Span, holder: &Name)
        requires { Contains (rows_at self.old segment) (record { 0 = span; 1 = holder.now }) }
        ensures gone { (holds : List NamedHold) → AreHeldBy (record { hold = record { segment = segment; span = span }; holder = holder.now } ∷ holds) self.old → AreHeldBy holds self.new }
        ensures spans_gone { (holds : List Hold) → AreSpansOf (record { segment = segment; span = span } ∷ holds) self.old → AreSpansOf holds self.new }
        ensures room { (s : Segment) → room_at self.old s + (if segment.0 == s.0 then 1 else 0) ≤ room_at self.new s }
        ensures count { length self.new.lists.items ≡ length self.old.lists.items }
    {
        let list = &mut self.lists[segment.0 as usize];
        list.take(span, holder);
    }

    /// For how many spans a segment itself is held.
    pub fn count(&self, segment: Segment) -> usize
        ensures { result ≡ length (rows_at self.now segment) }
    {
        match self.lists.get(segment.0 as usize) {
            Some(list) => list.count(),
            None => 0,
        }
    }

    /// The span at a place of a segment's list, and its holder.
    pub fn row(&self, segment: Segment, place: usize) -> (Span, Name)
        requires { place < length (rows_at self.now segment) }
        ensures { slice_get (rows_at self.now segment) place ≡ Some result }
    {
        self.lists[segment.0 as usize].row(place)
    }

    /// Whether a holder holds a segment itself for a span.
    pub fn has(&self, segment: Segment, span: Span, holder: &Name) -> bool
        ensures { IsTrue result ↔ Contains (rows_at self.now segment) (record { 0 = span; 1 = holder.now }) }
    {
        match self.lists.get(segment.0 as usize) {
            Some(list) => list.has(span, holder),
            None => false,
        }
    }

    /// The first by name of those who hold a segment itself at a second; none where nobody does.
    pub fn first_holder(&self, segment: Segment, second: Time) -> Option<Name>
        ensures { IsFirstOf (IsHolderIn (rows_at self.now segment) second) result }
    {
        match self.lists.get(segment.0 as usize) {
            Some(list) => list.first_holder(second),
            None => None,
        }
    }
}

// The same lists once more.
fn copied(alloc: Global, lists: &[SegmentSpans]) -> Result<Vec<SegmentSpans>, Memory>
    ensures { IfOk result (λ copies. map (λ list. list.rows) copies.items ≡ map (λ list. list.rows) lists.now) }
{
    let mut copies = Vec::with_capacity(alloc, lists.len())?;
    for list in lists {
        let copy = list.copy()?;
        copies.push(copy)?;
    }
    Ok(copies)
}
