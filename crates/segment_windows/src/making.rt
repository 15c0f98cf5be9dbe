//! The windows of a segment, made from what is held.
ghost use Rattle.std.specs.Prelude.{◌≡◌, ◌<◌, ◌++◌, ℕ, All, OnOk, filter};
ghost use Rattle.std.specs.List.{list_any};
ghost use Rattle.taxi_base.specs.Windows.{is_free, covers, AreWindows};
ghost use Rattle.held_spans.specs.Holds.{held_at};
ghost use Rattle.segment_windows.specs.Gaps.{is_some_time, gap, gaps};

use conflict_sets::Conflicts;
use held_spans::HoldsOf;
use std::cmp::{max, min};
use taxi_base::{Memory, Segment, Span, Time};

/// Fills a list with the windows of a segment among the holds, in order. The other list is worked with.
pub fn fill_windows<H: HoldsOf>(
    windows: &mut Vec<Span>,
    busy: &mut Vec<Span>,
    conflicts: &Conflicts,
    horizon: Time,
    holds: &H,
    segment: Segment,
) -> Result<(), Memory>
    requires { segment.0 < conflicts.now.segments }
    ensures { OnOk result (AreWindows (is_free conflicts.now.sets horizon (H.held holds.now) segment) windows.new.items) }
{
    fill_busy(busy, conflicts.of(segment), holds)?;
    busy.sort_unstable_by_key(|span| span.from);
    fill_gaps(windows, busy, horizon)?;
    Ok(())
}

/// Fills a list with the spans for which some of the segments are held, without the empty ones.
fn fill_busy<H: HoldsOf>(
    busy: &mut Vec<Span>,
    segments: &[Segment],
    holds: &H,
) -> Result<(), Memory>
    ensures some { OnOk result (All (λ s. s.from < s.until) busy.new.items) }
    ensures same { OnOk result ((t : ℕ) → covers busy.new.items t ≡ list_any (λ s. held_at (H.held holds.now) s t) segments.now) }
{
    busy.clear();
    for segment in segments {
        push_busy(busy, holds.spans(*segment))?;
    }
    Ok(())
}

fn push_busy(busy: &mut Vec<Span>, spans: &[Span]) -> Result<(), Memory>
    ensures { OnOk result (busy.new.items ≡ busy.old.items ++ filter is_some_time spans.now) }
{
    for span in spans {
        if span.from < span.until {
            busy.push(*span)?;
        }
    }
    Ok(())
}

/// Fills a list with the spans between busy ones, up to the horizon.
fn fill_gaps(windows: &mut Vec<Span>, busy: &[Span], horizon: Time) -> Result<(), Memory>
    ensures { OnOk result (windows.new.items ≡ gaps 0 horizon busy.now) }
{
    windows.clear();
    let mut low = 0;
    for span in busy {
        push_gap(windows, low, min(span.from, horizon))?;
        low = max(low, span.until);
    }
    push_gap(windows, low, horizon)
}

fn push_gap(windows: &mut Vec<Span>, from: Time, until: Time) -> Result<(), Memory>
    ensures { OnOk result (windows.new.items ≡ windows.old.items ++ gap from until) }
{
    if from < until {
        windows.push(Span { from, until })?;
    }
    Ok(())
}
