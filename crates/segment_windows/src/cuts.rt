//! Windows out of which a span is cut.
ghost use Rattle.std.specs.Prelude.{◌≡◌, ◌↔◌, ◌<◌, ◌≤◌, ◌+◌, ◌++◌, true, false, nat_lt, OnOk, take, drop, length, slice_index_or};
ghost use Rattle.std.specs.List.Sorted.{IsPartitionPoint};
ghost use Rattle.taxi_base.specs.declared.rows.Span.{Span};
ghost use Rattle.taxi_base.specs.Windows.{AreApart};
ghost use Rattle.segment_windows.specs.Gaps.{gap};
ghost use Rattle.segment_windows.specs.Cuts.{AreCut, parts_of, cut_out};

use taxi_base::{Memory, Span, Time};

/// Cuts a span out of some windows.
pub fn cut_windows(windows: &mut Vec<Span>, span: Span) -> Result<(), Memory>
    requires { AreApart 0 windows.old.items }
    ensures { OnOk result (AreCut true span windows.old.items windows.new.items) }
{
    if span.until <= span.from {
        return Ok(());
    }
    cut_some_time(windows, span)?;
    Ok(())
}

/// The same of a span that has a second. It touches few windows, which are looked at from the last on.
fn cut_some_time(windows: &mut Vec<Span>, span: Span) -> Result<(), Memory>
    requires some { span.from < span.until }
    requires apart { AreApart 0 windows.old.items }
    ensures { OnOk result (windows.new.items ≡ cut_out span windows.old.items) }
{
    let begun = windows_begun(windows, span.until);
    for past in 0..begun {
        let place = begun - 1 - past;
        if windows[place].until <= span.from {
            return Ok(());
        }
        cut_window(windows, place, span)?;
    }
    Ok(())
}

/// How many windows begin before a second.
fn windows_begun(windows: &[Span], second: Time) -> usize
    requires { AreApart 0 windows.now }
    ensures few { result ≤ length windows.now }
    ensures point { IsPartitionPoint (λ w. nat_lt w.from second ≡ true) (λ w. nat_lt w.from second ≡ false) windows.now result }
{
    windows.partition_point(|w| w.from < second)
}

/// Cuts a span out of a window that it touches.
fn cut_window(windows: &mut Vec<Span>, place: usize, span: Span) -> Result<(), Memory>
    requires some { span.from < span.until }
    requires place { place < length windows.old.items }
    requires early { (slice_index_or windows.old.items place span).from < span.until }
    requires late { span.from < (slice_index_or windows.old.items place span).until }
    ensures { OnOk result (windows.new.items ≡ take place windows.old.items ++ (parts_of span (slice_index_or windows.old.items place span) ++ drop (place + 1) windows.old.items)) }
{
    let window = windows[place];
    let before = Span {
        from: window.from,
        until: span.from,
    };
    let after = Span {
        from: span.until,
        until: window.until,
    };
    if before.until <= before.from {
        leave_after(windows, place, after);
        return Ok(());
    }
    if after.until <= after.from {
        windows[place] = before;
        return Ok(());
    }
    windows[place] = after;
    windows.insert(place, before)?;
    Ok(())
}

/// Puts what is left behind the span in the place of its window, where that has a second.
fn leave_after(windows: &mut Vec<Span>, place: usize, after: Span)
    requires { place < length windows.old.items }
    ensures { windows.new.items ≡ take place windows.old.items ++ (gap after.from after.until ++ drop (place + 1) windows.old.items) }
{
    if after.from < after.until {
        windows[place] = after;
    } else {
        windows.remove(place);
    }
}
