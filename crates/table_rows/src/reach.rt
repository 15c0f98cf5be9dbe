//! When the place of a label is reached in time, going on or going back.
ghost use Rattle.std.specs.Prelude.{◌≡◌, ◌↔◌, ◌+◌, ◌≤◌, ◌&&◌, ℕ, Some, IsTrue, nat_le, max, min};
ghost use Rattle.taxi_base.specs.Walks.{Conditions};
ghost use Rattle.table_rows.specs.Limits.{limits_of};
ghost use Rattle.table_rows.specs.Reached.{short_part, until_bound, IsValueIn};

use crate::limits::{Limits, last_in};
use std::cmp::{max, min};
use taxi_base::{Span, Time};

/// The two ways in which labels come of one another.
#[derive(Clone, Copy, Debug, PartialEq, Eq)]
pub enum Way {
    /// Going on in time: each label after the one that it comes of.
    Forward,
    /// Going back in time: each label before the one that it comes of.
    Backward,
}

/// When an arc is to be entered, going on, or left, going back: from a second on, and by another.
#[derive(Clone, Copy)]
pub struct Reach {
    pub way: Way,
    pub from: Time,
    pub by: Time,
}

/// Whether a reach does not begin before one second nor end behind another.
#[inline(always)]
pub fn is_within(reach: Reach, from: Time, by: Time) -> bool
    ensures { IsTrue result ↔ ((from ≤ reach.from) × (reach.by ≤ by)) }
{
    from <= reach.from && reach.by <= by
}

/// The part of a reach in which a label can be short of a bound, if there is one.
#[inline(always)]
pub fn short_part(reach: Reach, bound: Option<Time>) -> Reach
    ensures { result ≡ short_part bound reach }
{
    match bound {
        Some(bound) => until_bound(reach, bound),
        None => reach,
    }
}

#[inline(always)]
fn until_bound(reach: Reach, bound: Time) -> Reach
    ensures { result ≡ until_bound reach.way bound reach }
{
    match reach.way {
        Way::Forward => Reach {
            way: Way::Forward,
            from: reach.from,
            by: sooner(reach.by, bound),
        },
        Way::Backward => Reach {
            way: Way::Backward,
            from: later(reach.from, bound),
            by: reach.by,
        },
    }
}

/// The value of a label in a window, if the window can be reached in time and the class can stay in it for these seconds.
#[inline(always)]
pub fn value_in(limits: Limits, reach: Reach, seconds: Time, window: Span) -> Option<Time>
    ensures { (c : Conditions) (v : ℕ) → limits ≡ limits_of c → (result ≡ Some v) ↔ IsValueIn reach.way c reach.from reach.by seconds window v }
{
    let last = last_in(limits, window);
    match reach.way {
        Way::Forward => left_in(reach, seconds, window, last),
        Way::Backward => entered_in(reach, seconds, window, last),
    }
}

/// When a window is left at the soonest that is entered in time.
#[inline(always)]
fn left_in(reach: Reach, seconds: Time, window: Span, last: Time) -> Option<Time>
    ensures { (v : ℕ) → (result ≡ Some v) ↔ ((max reach.from window.from ≤ reach.by) × (v ≡ max reach.from window.from + seconds) × (v ≤ last)) }
{
    let enter = later(reach.from, window.from);
    if enter <= reach.by && has_time(enter, seconds, last) {
        Some(enter + seconds)
    } else {
        None
    }
}

/// When a window is entered at the latest that is left in time.
#[inline(always)]
fn entered_in(reach: Reach, seconds: Time, window: Span, last: Time) -> Option<Time>
    ensures { (v : ℕ) → (result ≡ Some v) ↔ ((reach.from ≤ min reach.by last) × (v + seconds ≡ min reach.by last) × (window.from ≤ v)) }
{
    let leave = sooner(reach.by, last);
    if reach.from <= leave && has_time(window.from, seconds, leave) {
        Some(leave - seconds)
    } else {
        None
    }
}

/// Whether so many seconds lie between two times.
#[inline(always)]
fn has_time(from: Time, seconds: Time, until: Time) -> bool
    ensures { result ≡ nat_le (from + seconds) until }
{
    from <= until && seconds <= until - from
}

/// The later of two seconds.
pub fn later(a: Time, b: Time) -> Time
    ensures { result ≡ max a b }
{
    max(a, b)
}

/// The sooner of two seconds.
pub fn sooner(a: Time, b: Time) -> Time
    ensures { result ≡ min a b }
{
    min(a, b)
}
