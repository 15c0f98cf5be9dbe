//! A list of windows for each segment.
ghost use Rattle.std.specs.Prelude.{ℕ, ◌≡◌, ◌↔◌, ◌+◌, ◌^◌, ◌<◌, ◌≤◌, List, [], ◌++◌, length, All, IfOk, OnOk, IsTrue};
ghost use Rattle.taxi_base.specs.declared.numbers.Segment.{Segment as SegmentNumber};
ghost use Rattle.taxi_base.specs.Windows.{Hold, holds_of, AreApart};
ghost use Rattle.interval_list.specs.Intervals.{span, IsNormal};
ghost use Rattle.window_store.specs.Spans.{nodes};
ghost use Rattle.window_store.specs.Store.{Store, IsStore, list_at, windows_at, spans_at};
ghost use Rattle.window_store.specs.Stands.{StandsFor, HasRoomFor, AreOnSegments, TakeTime, AreInTime};
ghost use Rattle.window_store.specs.Beside.{HasRoomBeside};
ghost use Rattle.window_store.specs.Kept.{IsApartFrom, IsClearOf, KeepsWindows, KeepsNodes, GainsRoom, DrawsWhatIsLacking, LiesInOne};

use crate::beside::RoomBeside;
use crate::edits::{Term, hold_steps, make_room, release_steps};
use crate::held::OtherHolds;
use crate::row::lies_in_one;
use crate::segment_windows::SegmentWindows;
use crate::step_counts::StepCounts;
use conflict_sets::Conflicts;
use interval_list::{Ids, Windows};
use std::alloc::Global;
use std::marker::Model;
use taxi_base::{Memory, Segment, Span, Step, Time};

/// The free windows of each segment.
#[derive(Drop)]
pub struct WindowStore {
    lists: Vec<SegmentWindows>,
    ids: Ids,
    horizon: Time,
    // While room is made, how many steps touch each list.
    counts: StepCounts,
}

impl Model for WindowStore {
    ghost use Rattle.std.specs.Prelude.{◌≡◌, length};
    ghost use Rattle.window_store.specs.Store.{Store, of_lists_and_ids, IsStore, HaveRoom, EndBy};

    ghost Value = { Store };

    ghost view = { λ s. record { lists = s.lists.items; next = s.ids.next; horizon = s.horizon } };

    ghost invariant = { λ s. IsStore (of_lists_and_ids s.lists.items s.ids.next) × HaveRoom s.lists.items × EndBy s.horizon s.lists.items × (length s.counts ≡ length s.lists.items) };
}

impl WindowStore {
    /// All seconds before the horizon are free on each of so many segments.
    pub fn new(alloc: Global, segments: usize, horizon: Time) -> Result<WindowStore, Memory>
        requires segments { segments ≤ 10000 }
        requires horizon { 1 ≤ horizon }
        ensures segments { IfOk result (λ store. length store.lists ≡ segments) }
        ensures horizon { IfOk result (λ store. store.horizon ≡ horizon) }
        ensures stands { (sets : List (List SegmentNumber)) → IfOk result (StandsFor sets horizon []) }
        ensures nodes { IfOk result (λ store. (segment : SegmentNumber) → segment.0 < length store.lists → nodes (list_at store segment) ≡ 1) }
    {
        let mut ids = Ids { next: 0 };
        let mut lists = Vec::new(alloc);
        for _ in 0..segments {
            lists.push(SegmentWindows::new(alloc, &mut ids, horizon)?)?;
        }
        Ok(WindowStore {
            lists,
            ids,
            horizon,
            counts: StepCounts::new(alloc, segments)?,
        })
    }

    /// A number above the ids of all windows and spare nodes.
    pub fn ids(&self) -> usize
        ensures ids { result ≡ self.now.next }
        ensures below { result < 2 ^ 50 }
        ensures store { IsStore self.now }
    {
        self.ids.next
    }

    /// A segment's windows from first to last. They lie apart, and each ends by the horizon.
    pub fn windows(&self, segment: Segment) -> Windows<'_>
        requires { segment.0 < length self.now.lists }
        ensures windows { result ≡ windows_at self.now segment }
        ensures normal { IsNormal (list_at self.now segment).intervals }
        ensures in_time { All (λ w. w.until ≤ self.now.horizon) (windows_at self.now segment) }
    {
        self.lists[segment.0 as usize].intervals().windows()
    }

    /// A segment's windows in a row, with no ids. They lie apart, and each ends by the horizon.
    pub fn spans(&self, segment: Segment) -> &[Span]
        requires { segment.0 < length self.now.lists }
        ensures spans { result.now ≡ spans_at self.now segment }
        ensures apart { AreApart 0 result.now }
    {
        self.lists[segment.0 as usize].row()
    }

    /// Whether the seconds from `from` up to `until` lie in one window.
    pub fn is_free(&self, segment: Segment, from: Time, until: Time) -> bool
        requires segment { segment.0 < length self.now.lists }
        requires some { from < until }
        ensures { IsTrue result ↔ LiesInOne (spans_at self.now segment) (span from until) }
    {
        lies_in_one(self.spans(segment), Span { from, until })
    }

    /// Makes room for steps, and no more than is lacking. What stands beside the store has room for one hold fewer than there
    /// are nodes in each list, before and afterwards. All windows stay, also where memory runs out.
    pub fn reserve<B: RoomBeside>(
        &mut self,
        beside: &mut B,
        conflicts: &Conflicts,
        steps: &[Step],
    ) -> Result<(), Memory>
        requires segments { length self.old.lists ≡ conflicts.now.segments }
        requires steps { AreOnSegments conflicts.now.segments steps.now }
        requires few { All (λ l. l.held + length steps.now < 2 ^ 33) self.old.lists }
        requires beside { HasRoomBeside (B.segments beside.old) (B.room beside.old) self.old.lists }
        ensures room { OnOk result (HasRoomFor conflicts.now.sets steps.now self.new) }
        ensures gained { GainsRoom self.old self.new }
        ensures lacking { DrawsWhatIsLacking conflicts.now.sets steps.now self.old self.new }
        ensures stands { (horizon : ℕ) (holds : List Hold) → StandsFor conflicts.now.sets horizon holds self.old → StandsFor conflicts.now.sets horizon holds self.new }
        ensures beside { HasRoomBeside (B.segments beside.new) (B.room beside.new) self.new.lists }
        ensures kept { B.keeps beside.old beside.new }
    {
        let lists = self.lists.as_mut_slice();
        let ids = &mut self.ids;
        make_room(lists, beside, ids, &mut self.counts, conflicts, steps)
    }

    /// Holds what the steps hold, each until the clearance after its leave is over. It needs no memory. A window that has no
    /// second of what they hold stays as it is.
    pub fn occupy(&mut self, conflicts: &Conflicts, steps: &[Step], clearance: Time)
        requires segments { length self.old.lists ≡ conflicts.now.segments }
        requires steps { AreOnSegments conflicts.now.segments steps.now }
        requires time { TakeTime steps.now }
        requires in_time { AreInTime self.old.horizon steps.now }
        requires stands { (holds : List Hold) × StandsFor conflicts.now.sets self.old.horizon holds self.old }
        requires room { HasRoomFor conflicts.now.sets steps.now self.old }
        ensures stands { (holds : List Hold) → StandsFor conflicts.now.sets self.old.horizon holds self.old → StandsFor conflicts.now.sets self.old.horizon (holds ++ holds_of self.old.horizon clearance steps.now) self.new }
        ensures kept { KeepsWindows IsApartFrom conflicts.now.sets (holds_of self.old.horizon clearance steps.now) self.old self.new }
        ensures nodes { KeepsNodes self.old self.new }
    {
        let term = Term {
            horizon: self.horizon,
            clearance,
        };
        hold_steps(&mut self.lists, conflicts, steps, term);
    }

    /// No longer holds what the steps hold, while others hold what they do. It needs no memory, and there
    /// is room for the steps afterwards. A window that neither meets nor touches what they hold stays as it is.
    pub fn release<R: OtherHolds>(
        &mut self,
        conflicts: &Conflicts,
        remaining: &R,
        steps: &[Step],
        clearance: Time,
    )
        requires segments { length self.old.lists ≡ conflicts.now.segments }
        requires steps { AreOnSegments conflicts.now.segments steps.now }
        requires time { TakeTime steps.now }
        requires in_time { AreInTime self.old.horizon steps.now }
        requires stands { StandsFor conflicts.now.sets self.old.horizon (R.holds remaining.now ++ holds_of self.old.horizon clearance steps.now) self.old }
        ensures stands { StandsFor conflicts.now.sets self.old.horizon (R.holds remaining.now) self.new }
        ensures room { HasRoomFor conflicts.now.sets steps.now self.new }
        ensures kept { KeepsWindows IsClearOf conflicts.now.sets (holds_of self.old.horizon clearance steps.now) self.old self.new }
        ensures nodes { KeepsNodes self.old self.new }
    {
        let term = Term {
            horizon: self.horizon,
            clearance,
        };
        release_steps(&mut self.lists, conflicts, remaining, steps, term);
    }
}
