//! Windows that are looked for near a place.
ghost use Rattle.std.specs.Prelude.{◌<◌, ◌≤◌, length, IfSome};
ghost use Rattle.taxi_base.specs.Windows.{AreApart};
ghost use Rattle.window_rows.specs.Rows.{window_at, IsFirstNotOver};

use taxi_base::{Span, Time};

/// So many windows on either side of the place are looked at, one after the other. One caller comes to a row at nearly the same time
/// again and again, and finds its window among them; only the first time it is far off.
const STEPS: usize = 8;

/// How many windows of a row end before a second, if that is no more than a few from a place.
#[inline(always)]
pub(crate) fn first_near(row: &[Span], second: Time, near: usize) -> Option<usize>
    requires { AreApart 0 row.now }
    ensures { IfSome result (IsFirstNotOver row.now second) }
{
    if near >= row.len() {
        return None;
    }
    if second <= row[near].until {
        first_back(row, second, near)
    } else {
        first_on(row, second, near)
    }
}

/// The same from a window that is not over, back.
#[inline(always)]
fn first_back(row: &[Span], second: Time, near: usize) -> Option<usize>
    requires apart { AreApart 0 row.now }
    requires within { near < length row.now }
    requires not_over { second ≤ (window_at row.now near).until }
    ensures { IfSome result (IsFirstNotOver row.now second) }
{
    let most = near.min(STEPS);
    for past in 0..most {
        if row[near - past - 1].until < second {
            return Some(near - past);
        }
    }
    if most == near { Some(0) } else { None }
}

/// The same from a window that is over, on.
#[inline(always)]
fn first_on(row: &[Span], second: Time, near: usize) -> Option<usize>
    requires apart { AreApart 0 row.now }
    requires within { near < length row.now }
    requires over { (window_at row.now near).until < second }
    ensures { IfSome result (IsFirstNotOver row.now second) }
{
    let end = row.len().min(near.saturating_add(STEPS));
    for place in near + 1..end {
        if second <= row[place].until {
            return Some(place);
        }
    }
    None
}
