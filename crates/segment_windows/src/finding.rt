//! Windows that are looked for: one span, and those that a step may come to. `found` is where one of the windows was found last: it
//! is where the next is looked for first, and may be any number.
ghost use Rattle.std.specs.Prelude.{◌≡◌, ◌↔◌, ◌≤◌, ◌&&◌, ◌==◌, All, Contains, IsTrue};
ghost use Rattle.taxi_base.specs.Windows.{AreApart};

use std::cell::Cell;
use taxi_base::{Span, Time};
use window_rows::{first_not_over, part_between};

/// Whether a span is one of some windows. Mostly it is the last, until the horizon.
#[inline(always)]
pub fn has_window(windows: &[Span], window: Span, found: &Cell<usize>) -> bool
    requires { AreApart 0 windows.now }
    ensures { IsTrue result ↔ Contains windows.now window }
{
    if let Some(last) = windows.last() {
        if is_same(*last, window) {
            return true;
        }
    }
    match windows.get(first_not_over(windows, window.until, found)) {
        Some(there) => is_same(*there, window),
        None => false,
    }
}

#[inline(always)]
fn is_same(there: Span, window: Span) -> bool
    ensures { result ≡ (there.from == window.from && there.until == window.until) }
{
    there.from == window.from && there.until == window.until
}

/// The windows that do not end before one second nor begin after another.
#[inline(always)]
pub fn windows_between<'a>(
    windows: &'a [Span],
    low: Time,
    high: Time,
    found: &Cell<usize>,
) -> &'a [Span]
    requires { AreApart 0 windows.now }
    ensures within { All (Contains windows.now) result.now }
    ensures whole { All (λ w. low ≤ w.until → w.from ≤ high → Contains result.now w) windows.now }
    ensures only { All (λ w. (low ≤ w.until) × (w.from ≤ high)) result.now }
{
    let part = part_between(windows, low, high, found);
    &windows[part.first..part.until]
}
