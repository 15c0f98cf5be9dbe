//! Windows that are looked for by time.
ghost use Rattle.std.specs.Prelude.{◌≡◌, ◌<◌, ◌≤◌, length, IsTrue};
ghost use Rattle.taxi_base.specs.Windows.{AreApart};
ghost use Rattle.window_rows.specs.Rows.{IsFirstNotOver, IsCut};

use crate::near::first_near;
use std::cell::Cell;
use taxi_base::{Span, Time};

/// Windows of a row: those at the places from `first` until before `until`.
#[derive(Clone, Copy, Debug, PartialEq, Eq)]
pub struct Part {
    pub first: usize,
    pub until: usize,
}

/// The windows that do not end before one second nor begin after another, by their places. `found` is where a window of this row
/// was found last: it is where the next is looked for first, and may be any number.
#[inline(always)]
pub fn part_between(row: &[Span], low: Time, high: Time, found: &Cell<usize>) -> Part
    requires { AreApart 0 row.now }
    ensures { IsCut row.now low high result }
{
    let first = first_not_over(row, low, found);
    let mut until = first;
    // Few windows lie between, and each is gone over once more anyway.
    while until < row.len() && row[until].from <= high {
        until += 1;
    }
    Part { first, until }
}

/// How many windows of a row end before a second.
#[inline(always)]
pub fn first_not_over(row: &[Span], second: Time, found: &Cell<usize>) -> usize
    requires { AreApart 0 row.now }
    ensures { IsFirstNotOver row.now second result }
{
    let first = match first_near(row, second, found.get()) {
        Some(first) => first,
        None => first_by_halves(row, second),
    };
    found.set(first);
    first
}

/// The same, with any window looked at as soon as another.
#[inline(never)]
fn first_by_halves(row: &[Span], second: Time) -> usize
    requires { AreApart 0 row.now }
    ensures { IsFirstNotOver row.now second result }
{
    row.partition_point(|span| span.until < second)
}
