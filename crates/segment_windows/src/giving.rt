//! Windows to which the seconds of a span are given back that are no longer held.
ghost use Rattle.std.specs.Prelude.{◌≡◌, ◌<◌, ◌≤◌, ◌&&◌, ℕ, true, false, nat_lt, IsTrue, IsFalse, OnOk, length, slice_index_or, ◌+◌, ◌++◌, take, drop};
ghost use Rattle.std.specs.List.{list_any};
ghost use Rattle.std.specs.List.Sorted.{IsPartitionPoint};
ghost use Rattle.taxi_base.specs.declared.rows.Span.{Span};
ghost use Rattle.taxi_base.specs.Windows.{span_has, covers, AreApart};
ghost use Rattle.held_spans.specs.Holds.{held_at};
ghost use Rattle.segment_windows.specs.Joins.{joined, hull, AreRid, AreGivenBack};

use crate::cuts::cut_windows;
use conflict_sets::Conflicts;
use held_spans::HoldsOf;
use std::cmp::{max, min};
use taxi_base::{Memory, Segment, Span, Time};

/// Gives those seconds of a span back to the windows of a segment that no hold in conflict has.
pub fn give_back<H: HoldsOf>(
    windows: &mut Vec<Span>,
    span: Span,
    conflicts: &Conflicts,
    holds: &H,
    segment: Segment,
) -> Result<(), Memory>
    requires on { segment.0 < conflicts.now.segments }
    requires apart { AreApart 0 windows.old.items }
    ensures { OnOk result (AreGivenBack conflicts.now.sets (H.held holds.now) segment span windows.old.items windows.new.items) }
{
    if span.until <= span.from {
        return Ok(());
    }
    join_span(windows, span)?;
    cut_all(windows, span, conflicts.of(segment), holds)?;
    Ok(())
}

/// Joins a span to windows.
fn join_span(windows: &mut Vec<Span>, span: Span) -> Result<(), Memory>
    requires some { span.from < span.until }
    requires apart { AreApart 0 windows.old.items }
    ensures { OnOk result (windows.new.items ≡ joined span windows.old.items) }
{
    let place = windows_over(windows, span.from);
    if reaches_next(windows, place, span) {
        join_at(windows, place, span);
        return Ok(());
    }
    windows.insert(place, span)?;
    Ok(())
}

/// Joins a span to the window at a place, which it meets or touches, and to those behind that it then does.
fn join_at(windows: &mut Vec<Span>, place: usize, span: Span)
    requires place { place < length windows.old.items }
    requires reached { (slice_index_or windows.old.items place span).from ≤ span.until }
    requires ends { (k : ℕ) (d : Span) → place ≤ k → k < length windows.old.items → span.from ≤ (slice_index_or windows.old.items k d).until }
    ensures { windows.new.items ≡ take place windows.old.items ++ joined span (drop place windows.old.items) }
{
    let next = place + 1;
    let mut whole = hull(span, windows[place]);
    while reaches_next(windows, next, whole) {
        let window = windows.remove(next);
        whole = hull(whole, window);
    }
    windows[place] = whole;
}

/// Whether a span meets or touches the window at a place, if there is one, which does not end before it.
fn reaches_next(windows: &[Span], place: usize, span: Span) -> bool
    ensures yes { IsTrue result → (place < length windows.now) × ((slice_index_or windows.now place span).from ≤ span.until) }
    ensures no { IsFalse result → place < length windows.now → span.until < (slice_index_or windows.now place span).from }
{
    match windows.get(place) {
        None => false,
        Some(next) => next.from <= span.until,
    }
}

/// How many windows end before a second.
fn windows_over(windows: &[Span], second: Time) -> usize
    requires { AreApart 0 windows.now }
    ensures few { result ≤ length windows.now }
    ensures point { IsPartitionPoint (λ w. nat_lt w.until second ≡ true) (λ w. nat_lt w.until second ≡ false) windows.now result }
{
    windows.partition_point(|w| w.until < second)
}

/// The least span that has both.
fn hull(one: Span, other: Span) -> Span
    ensures { result ≡ hull one other }
{
    Span {
        from: min(one.from, other.from),
        until: max(one.until, other.until),
    }
}

/// Cuts out what of a span some segments are held for.
fn cut_all<H: HoldsOf>(
    windows: &mut Vec<Span>,
    span: Span,
    segments: &[Segment],
    holds: &H,
) -> Result<(), Memory>
    requires { AreApart 0 windows.old.items }
    ensures { OnOk result (AreRid (λ t. span_has span t && list_any (λ s. held_at (H.held holds.now) s t) segments.now) windows.old.items windows.new.items) }
{
    for segment in segments {
        cut_parts(windows, span, holds.spans_in(*segment, span))?;
    }
    Ok(())
}

/// Cuts out what some spans have of one.
fn cut_parts(windows: &mut Vec<Span>, span: Span, spans: &[Span]) -> Result<(), Memory>
    requires { AreApart 0 windows.old.items }
    ensures { OnOk result (AreRid (λ t. span_has span t && covers spans.now t) windows.old.items windows.new.items) }
{
    for held in spans {
        cut_windows(windows, common(span, *held))?;
    }
    Ok(())
}

/// What two spans have in common.
fn common(one: Span, other: Span) -> Span
    ensures { (t : ℕ) → span_has result t ≡ (span_has one t && span_has other t) }
{
    Span {
        from: max(one.from, other.from),
        until: min(one.until, other.until),
    }
}
