//! One segment's windows.
ghost use Rattle.std.specs.Prelude.{ℕ, ◌≡◌, ◌+◌, ◌^◌, ◌<◌, ◌≤◌, List, [], ◌∷◌, ◌++◌, length, All, IfOk, OnOk, OnErr, vec_capacity};
ghost use Rattle.taxi_base.specs.declared.rows.Span.{Span as Plain};
ghost use Rattle.taxi_base.specs.Windows.{AreWindows};
ghost use Rattle.interval_list.specs.Intervals.{spans_of, owned, IsNormal, OwnsSame, KeepsUnmet, KeepsUntouched};
ghost use Rattle.window_store.specs.Spans.{Listed, nodes, is_unheld, StandsForSpans};
ghost use Rattle.window_store.specs.Stays.{HaveSecondsOf};
ghost use Rattle.window_store.specs.Counts.{IsRoomier};

use crate::held::HeldSeconds;
use crate::row::{copy_row, follow, follow_back};
use interval_list::{Ids, IntervalList};
use std::alloc::Global;
use std::marker::Model;
use taxi_base::{Memory, Span, Time};

// A row that grows gets room for twice the nodes and so many windows more, so that it rarely grows.
const AT_ONCE: usize = 16;

/// A segment's free windows, also in a row, and the number of spans for which it is held. The row has room for the windows of all nodes,
/// and for no more than twice as many and sixteen.
#[derive(Drop)]
pub(crate) struct SegmentWindows {
    intervals: IntervalList,
    row: Vec<Span>,
    held: usize,
}

impl Model for SegmentWindows {
    ghost use Rattle.std.specs.Prelude.{◌≡◌, ◌+◌, ◌*◌, ◌^◌, ◌<◌, ◌≤◌, length, vec_capacity};
    ghost use Rattle.interval_list.specs.Intervals.{IsNormal, spans_of};
    ghost use Rattle.window_store.specs.Spans.{Listed};

    ghost Value = { Listed };

    ghost view = { λ l. record { intervals = l.intervals; held = l.held } };

    ghost invariant = { λ l. IsNormal l.intervals × (length l.intervals.windows + length l.intervals.spare < 2 ^ 64)
        × (l.row.items ≡ spans_of l.intervals.windows) × (length l.intervals.windows + length l.intervals.spare ≤ vec_capacity l.row)
        × (vec_capacity l.row ≤ 2 * (length l.intervals.windows + length l.intervals.spare) + 16) };
}

impl SegmentWindows {
    /// All seconds before the horizon are free, in one window with the next id.
    pub(crate) fn new(alloc: Global, ids: &mut Ids, horizon: Time) -> Result<SegmentWindows, Memory>
        requires some { 1 ≤ horizon }
        requires fits { ids.old.next + 1 < 2 ^ 64 }
        ensures stands { IfOk result (StandsForSpans horizon []) }
        ensures nodes { IfOk result (λ l. nodes l ≡ 1) }
        ensures owned { IfOk result (λ l. owned l.intervals ≡ ids.old.next ∷ []) }
        ensures next { IfOk result (λ l. ids.new.next ≡ ids.old.next + 1) }
        ensures err { OnErr result (ids.old.next ≤ ids.new.next) }
    {
        let mut row = Vec::with_capacity(alloc, AT_ONCE)?;
        let mut intervals = IntervalList::new(alloc);
        intervals.reserve(ids, 1)?;
        intervals.add(0, horizon);
        copy_row(&mut row, &intervals);
        Ok(SegmentWindows {
            intervals,
            row,
            held: 0,
        })
    }

    /// The windows and the spare nodes.
    pub(crate) fn intervals(&self) -> &IntervalList
        ensures intervals { result.now ≡ self.now.intervals }
        ensures normal { IsNormal self.now.intervals }
    {
        &self.intervals
    }

    /// The windows in a row.
    pub(crate) fn row(&self) -> &[Span]
        ensures spans { result.now ≡ spans_of self.now.intervals.windows }
        ensures normal { IsNormal self.now.intervals }
    {
        &self.row
    }

    /// For how many spans the segment is held.
    pub(crate) fn held(&self) -> usize
        ensures { result ≡ self.now.held }
    {
        self.held
    }

    /// How many windows and spare nodes there are together.
    pub(crate) fn nodes(&self) -> usize
        ensures { result ≡ nodes self.now }
    {
        self.intervals.len() + self.intervals.spare()
    }

    /// Makes spare nodes until there are so many windows and spare nodes together. What was made before memory ran out
    /// stays.
    pub(crate) fn make_room(&mut self, ids: &mut Ids, wanted: usize) -> Result<(), Memory>
        requires below { All (λ id. id < ids.old.next) (owned self.old.intervals) }
        requires fits { ids.old.next + wanted < 2 ^ 64 }
        requires few { wanted ≤ 2 ^ 33 }
        ensures roomier { IsRoomier wanted ids.old.next ids.new.next self.old self.new }
        ensures enough { OnOk result (wanted ≤ nodes self.new) }
    {
        while self.nodes() < wanted {
            self.make_node(ids)?;
        }
        Ok(())
    }

    // Makes a spare node, and room for its window in the row.
    fn make_node(&mut self, ids: &mut Ids) -> Result<(), Memory>
        requires below { All (λ id. id < ids.old.next) (owned self.old.intervals) }
        requires fits { ids.old.next + 1 < 2 ^ 64 }
        requires few { nodes self.old < 2 ^ 33 }
        ensures windows { self.new.intervals.windows ≡ self.old.intervals.windows }
        ensures held { self.new.held ≡ self.old.held }
        ensures ok { OnOk result ((ids.new.next ≡ ids.old.next + 1) × (self.new.intervals.spare ≡ ids.old.next ∷ self.old.intervals.spare)) }
        ensures err { OnErr result ((ids.new.next ≡ ids.old.next) × (self.new.intervals.spare ≡ self.old.intervals.spare)) }
        ensures below { All (λ id. id < ids.new.next) (owned self.new.intervals) }
    {
        let spare = self.intervals.spare();
        let nodes = self.intervals.len() + spare;
        if self.row.capacity() == nodes {
            self.row.reserve_exact(spare + nodes + AT_ONCE)?;
        }
        self.intervals.draw(ids)
    }

    /// Holds the segment for one more span. It needs no memory.
    pub(crate) fn hold(&mut self, span: Span)
        requires some { span.from < span.until }
        requires stands { (horizon : ℕ) × (spans : List Plain) × StandsForSpans horizon spans self.old }
        requires room { 2 + self.old.held ≤ nodes self.old }
        ensures stands { (horizon : ℕ) (spans : List Plain) → StandsForSpans horizon spans self.old → StandsForSpans horizon (span ∷ spans) self.new }
        ensures kept { KeepsUnmet span self.old.intervals.windows self.new.intervals.windows }
        ensures ids { OwnsSame self.old.intervals self.new.intervals }
        ensures nodes { nodes self.new ≡ nodes self.old }
    {
        self.intervals.subtract(span.from, span.until);
        follow(&mut self.row, span, &self.intervals);
        self.held += 1;
    }

    /// No longer holds the segment for so many spans, which have the seconds of one, while others hold it for theirs. Only what no other
    /// span has becomes free. It needs no memory.
    pub(crate) fn release<H: HeldSeconds>(&mut self, span: Span, number: usize, others: &H)
        requires some { span.from < span.until }
        requires number { 1 ≤ number }
        requires stands { (horizon : ℕ) × (own : List Plain) × (span.until ≤ horizon) × HaveSecondsOf span own × (length own ≡ number) × StandsForSpans horizon (own ++ H.spans others.now) self.old }
        ensures stands { (horizon : ℕ) (own : List Plain) → span.until ≤ horizon → HaveSecondsOf span own → length own ≡ number → StandsForSpans horizon (own ++ H.spans others.now) self.old → StandsForSpans horizon (H.spans others.now) self.new }
        ensures kept { KeepsUntouched span self.old.intervals.windows self.new.intervals.windows }
        ensures ids { OwnsSame self.old.intervals self.new.intervals }
        ensures nodes { nodes self.new ≡ nodes self.old }
    {
        give_back_unheld(&mut self.intervals, &mut self.row, span, others);
        self.held -= number;
    }
}

/// Gives those seconds of the span back that no other span has, in the list and in its row.
fn give_back_unheld<H: HeldSeconds>(
    intervals: &mut IntervalList,
    row: &mut Vec<Span>,
    span: Span,
    others: &H,
)
    requires some { span.from < span.until }
    requires row { row.old.items ≡ spans_of intervals.old.windows }
    requires capacity { length intervals.old.windows + length intervals.old.spare ≤ vec_capacity row.old }
    requires normal { IsNormal intervals.old }
    requires windows { (horizon : ℕ) × (span.until ≤ horizon) × AreWindows (is_unheld horizon (span ∷ H.spans others.now)) (spans_of intervals.old.windows) }
    requires room { 2 + length (H.spans others.now) ≤ length intervals.old.windows + length intervals.old.spare }
    ensures windows { (horizon : ℕ) → span.until ≤ horizon → AreWindows (is_unheld horizon (span ∷ H.spans others.now)) (spans_of intervals.old.windows) → AreWindows (is_unheld horizon (H.spans others.now)) (spans_of intervals.new.windows) }
    ensures normal { IsNormal intervals.new }
    ensures kept { KeepsUntouched span intervals.old.windows intervals.new.windows }
    ensures ids { OwnsSame intervals.old intervals.new }
    ensures number { length intervals.new.windows + length intervals.new.spare ≡ length intervals.old.windows + length intervals.old.spare }
    ensures row { row.new.items ≡ spans_of intervals.new.windows }
    ensures capacity { vec_capacity row.new ≡ vec_capacity row.old }
{
    // The windows stand for the other spans and for what of this one is left to look at, which is one span at most. So
    // they need no more nodes at any moment than they did before.
    let mut from = span.from;
    while from < span.until {
        let until = others.first_held(from, span.until);
        if from < until {
            intervals.add(from, until);
            follow_back(row, Span { from, until }, intervals);
            from = until;
        } else {
            from = others.held_until(from).min(span.until);
        }
    }
}
