//! What is held: the free windows of each segment, and the steps that leave them.
ghost use Rattle.std.specs.Prelude.{ℕ, ◌≡◌, ◌+◌, ◌^◌, ◌<◌, ◌≤◌, List, [], ◌++◌, length, map, All, IfOk, OnOk};
ghost use Rattle.taxi_base.specs.Airport.{IsWellFormed};
ghost use Rattle.taxi_base.specs.Windows.{Hold, holds_of};
ghost use Rattle.window_store.specs.Stands.{StandsFor, HasRoomFor, AreOnSegments, TakeTime, AreInTime};
ghost use Rattle.window_store.specs.Kept.{IsApartFrom, IsClearOf, KeepsWindows, KeepsNodes, GainsRoom, DrawsWhatIsLacking};
ghost use Rattle.commitments.specs.Held.{hold_by, clearance_after, steps_with, AreAsMany, AreAmong};
ghost use Rattle.commitments.specs.Taken.{IsFirstTaken};

use crate::hold_index::{HoldIndex, IndexHolds};
use crate::segment_holds::{Holder, clearance_after};
use airport_file::Airport;
use std::alloc::Global;
use std::marker::Model;
use taxi_base::{Memory, Name, Segment, Span, Step, Time};
use window_store::{OtherHolds, WindowStore};

// So many steps of a holder are taken out together.
const AT_ONCE: usize = 16;

/// The free windows of each segment, and the steps that leave them, by segment.
#[derive(Drop)]
pub(crate) struct HeldSegments {
    store: WindowStore,
    pub(crate) index: HoldIndex,
}

impl Model for HeldSegments {
    ghost use Rattle.commitments.specs.Held.{HeldBook, all_steps, HasHoldRoom};

    ghost Value = { HeldBook };

    ghost view = { λ h. record { store = h.store; steps = all_steps h.index } };

    ghost invariant = { λ h. HasHoldRoom h.store h.index };
}

impl HeldSegments {
    /// Nothing is held: all seconds are free.
    pub(crate) fn new(alloc: Global, airport: &Airport) -> Result<HeldSegments, Memory>
        ensures lists { IfOk result (λ h. length h.store.lists ≡ length airport.now.segments) }
        ensures horizon { IfOk result (λ h. h.store.horizon ≡ airport.now.horizon) }
        ensures stands { IfOk result (λ h. StandsFor airport.now.conflicts airport.now.horizon [] h.store) }
        ensures none { IfOk result (λ h. h.steps ≡ []) }
    {
        let segments = airport.graph().segments();
        let store = WindowStore::new(alloc, segments, airport.horizon())?;
        let index = HoldIndex::new(alloc, segments)?;
        Ok(HeldSegments { store, index })
    }

    /// The free windows of each segment.
    pub(crate) fn store(&self) -> &WindowStore
        ensures { result.now ≡ self.now.store }
    {
        &self.store
    }

    /// The first second of a span at which a segment in conflict with this one is held, and the first holder by name.
    pub(crate) fn first_taken(
        &self,
        airport: &Airport,
        segment: Segment,
        span: Span,
    ) -> Option<(Time, Name)>
        requires segment { segment.0 < length airport.now.segments }
        requires some { span.from < span.until }
        ensures { IsFirstTaken airport.now segment self.now.steps span result }
    {
        let holds = IndexHolds {
            index: &self.index,
            airport,
        };
        let at = holds.first_held(airport.conflicts(), segment, span.from, span.until);
        if span.until <= at {
            return None;
        }
        let by = holds.first_holder(segment, at)?;
        Some((at, by))
    }

    /// Makes room for steps. All windows and steps stay, also where memory runs out.
    pub(crate) fn reserve(&mut self, airport: &Airport, steps: &[Step]) -> Result<(), Memory>
        requires lists { length self.old.store.lists ≡ length airport.now.segments }
        requires steps { AreOnSegments (length airport.now.segments) steps.now }
        requires few { All (λ l. l.held + length steps.now < 2 ^ 33) self.old.store.lists }
        ensures room { OnOk result (HasRoomFor airport.now.conflicts steps.now self.new.store) }
        ensures gained { GainsRoom self.old.store self.new.store }
        ensures lacking { DrawsWhatIsLacking airport.now.conflicts steps.now self.old.store self.new.store }
        ensures stands { (horizon : ℕ) (holds : List Hold) → StandsFor airport.now.conflicts horizon holds self.old.store → StandsFor airport.now.conflicts horizon holds self.new.store }
        ensures steps { self.new.steps ≡ self.old.steps }
    {
        self.store
            .reserve(&mut self.index, airport.conflicts(), steps)
    }

    /// Holds what the steps of a flight or a party hold. It needs no memory. A window that has no second of that stays as it is.
    pub(crate) fn occupy(&mut self, airport: &Airport, steps: &[Step], holder: &Holder)
        requires lists { length self.old.store.lists ≡ length airport.now.segments }
        requires horizon { self.old.store.horizon ≡ airport.now.horizon }
        requires steps { AreOnSegments (length airport.now.segments) steps.now }
        requires time { TakeTime steps.now }
        requires in_time { AreInTime airport.now.horizon steps.now }
        requires stands { StandsFor airport.now.conflicts airport.now.horizon (map (hold_by airport.now) self.old.steps) self.old.store }
        requires room { HasRoomFor airport.now.conflicts steps.now self.old.store }
        ensures stands { (holds : List Hold) → StandsFor airport.now.conflicts airport.now.horizon holds self.old.store → StandsFor airport.now.conflicts airport.now.horizon (holds ++ holds_of airport.now.horizon (clearance_after airport.now holder.now) steps.now) self.new.store }
        ensures kept { KeepsWindows IsApartFrom airport.now.conflicts (holds_of airport.now.horizon (clearance_after airport.now holder.now) steps.now) self.old.store self.new.store }
        ensures nodes { KeepsNodes self.old.store self.new.store }
        ensures steps { AreAsMany (self.old.steps ++ steps_with holder.now steps.now) self.new.steps }
    {
        let clearance = clearance_after(airport, holder);
        self.index.keep_segments();
        self.index.insert(steps, holder);
        self.store.occupy(airport.conflicts(), steps, clearance);
    }

    /// Holds no longer what the steps of a flight or a party hold, while the others hold what they do. It needs no memory, and
    /// there is room for the steps afterwards. A window that neither meets nor touches what they hold stays as it is.
    pub(crate) fn release(&mut self, airport: &Airport, steps: &[Step], holder: &Holder)
        requires lists { length self.old.store.lists ≡ length airport.now.segments }
        requires horizon { self.old.store.horizon ≡ airport.now.horizon }
        requires steps { AreOnSegments (length airport.now.segments) steps.now }
        requires time { TakeTime steps.now }
        requires in_time { AreInTime airport.now.horizon steps.now }
        requires stands { StandsFor airport.now.conflicts airport.now.horizon (map (hold_by airport.now) self.old.steps) self.old.store }
        requires among { AreAmong (steps_with holder.now steps.now) self.old.steps }
        ensures stands { StandsFor airport.now.conflicts airport.now.horizon (map (hold_by airport.now) self.new.steps) self.new.store }
        ensures room { HasRoomFor airport.now.conflicts steps.now self.new.store }
        ensures kept { KeepsWindows IsClearOf airport.now.conflicts (holds_of airport.now.horizon (clearance_after airport.now holder.now) steps.now) self.old.store self.new.store }
        ensures nodes { KeepsNodes self.old.store self.new.store }
        ensures steps { AreAsMany self.old.steps (self.new.steps ++ steps_with holder.now steps.now) }
    {
        // Not all of many steps at once: those that are to come are found by their time then, among what the others hold.
        let mut done = 0;
        while done < steps.len() {
            let next = done + AT_ONCE.min(steps.len() - done);
            self.release_at_once(airport, &steps[done..next], holder);
            done = next;
        }
    }

    // The same, for few steps: each is compared with those after it.
    fn release_at_once(&mut self, airport: &Airport, steps: &[Step], holder: &Holder)
        requires lists { length self.old.store.lists ≡ length airport.now.segments }
        requires horizon { self.old.store.horizon ≡ airport.now.horizon }
        requires steps { AreOnSegments (length airport.now.segments) steps.now }
        requires time { TakeTime steps.now }
        requires in_time { AreInTime airport.now.horizon steps.now }
        requires stands { StandsFor airport.now.conflicts airport.now.horizon (map (hold_by airport.now) self.old.steps) self.old.store }
        requires among { AreAmong (steps_with holder.now steps.now) self.old.steps }
        ensures stands { StandsFor airport.now.conflicts airport.now.horizon (map (hold_by airport.now) self.new.steps) self.new.store }
        ensures kept { KeepsWindows IsClearOf airport.now.conflicts (holds_of airport.now.horizon (clearance_after airport.now holder.now) steps.now) self.old.store self.new.store }
        ensures nodes { KeepsNodes self.old.store self.new.store }
        ensures steps { AreAsMany self.old.steps (self.new.steps ++ steps_with holder.now steps.now) }
    {
        let clearance = clearance_after(airport, holder);
        self.index.remove(steps, holder);
        let others = IndexHolds {
            index: &self.index,
            airport,
        };
        self.store
            .release(airport.conflicts(), &others, steps, clearance);
    }
}
