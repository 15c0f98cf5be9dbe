//! The part of a stretch in which each label that is reached in some windows has a row.
ghost use Rattle.std.specs.Prelude.{◌≡◌, ◌≤◌, ℕ, List, Option, All, Contains, IfSome};
ghost use Rattle.taxi_base.specs.Walks.{Conditions, last_of};
ghost use Rattle.taxi_base.specs.declared.rows.LabelRow.{LabelRow};
ghost use Rattle.taxi_base.specs.Labels.{window_of};
ghost use Rattle.table_rows.specs.declared.reach.Way.TheVariants.{Forward, Backward};
ghost use Rattle.table_rows.specs.HasRows.{HasEach};
ghost use Rattle.table_rows.specs.Limits.{limits_of};
ghost use Rattle.table_rows.specs.Reached.{IsReachedIn, IsValueIn};
ghost use Rattle.table_rows.specs.Served.{IsWithin};

use crate::around::rows_behind;
use crate::limits::{Limits, last_in};
use crate::reach::{Reach, Way, later, sooner, value_in};
use crate::rows::window_of;
use crate::table::Table;
use std::cmp::min;
use taxi_base::{Arc, LabelRow, Span, Time};

/// So many seconds behind a reach the windows of an arc are looked at: what leads to the arc from elsewhere mostly ends by then, and
/// where traffic is dense there are many more.
const BEHIND: Time = 900;

/// From where the first of some rows begins, if it is of the arc, or the reach if it begins before, until some time behind the reach.
#[inline(always)]
pub fn widest_around(near: &[LabelRow], reach: Reach, arc: Arc) -> Reach
    ensures { result.way ≡ reach.way }
{
    let from = match near.first() {
        Some(row) if row.arc == arc => min(reach.from, row.from),
        _ => reach.from,
    };
    Reach {
        way: reach.way,
        from,
        by: reach.by.saturating_add(BEHIND),
    }
}

/// What is left of a stretch where each label that is reached in one of these windows is to have a row.
#[inline(always)]
pub fn stretch_in(
    limits: Limits,
    windows: &[Span],
    table: &Table<'_>,
    near: &[LabelRow],
    widest: Reach,
    reach: Reach,
    arc: Arc,
    seconds: Time,
) -> Reach
    requires near { All (Contains table.now.rows.now) near.now }
    ensures within { IsWithin widest result }
    ensures served { (c : Conditions) → limits ≡ limits_of c → All (λ w. HasEach result.way (IsReachedIn c result arc seconds w) table.now.bound table.now.rows.now) windows.now }
{
    let mut rest = near;
    let mut stretch = widest;
    for window in windows {
        if stretch.by < window.from {
            continue;
        }
        rest = rows_behind(rest, arc, window.from);
        stretch = part_served(limits, *window, table, rest, stretch, reach, arc, seconds);
    }
    stretch
}

/// The part of a stretch in which each label of a window that is reached has a row, by the first of some rows. A reach stays
/// inside, if it is and all labels that are reached in it have rows.
#[inline(always)]
fn part_served(
    limits: Limits,
    window: Span,
    table: &Table<'_>,
    near: &[LabelRow],
    stretch: Reach,
    reach: Reach,
    arc: Arc,
    seconds: Time,
) -> Reach
    requires near { All (Contains table.now.rows.now) near.now }
    ensures within { IsWithin stretch result }
    ensures served { (c : Conditions) → limits ≡ limits_of c → HasEach result.way (IsReachedIn c result arc seconds window) table.now.bound table.now.rows.now }
{
    match row_at(near, arc, window) {
        Some(row) => part_by_row(limits, row, stretch, reach, seconds),
        None => part_without(limits, window, table, stretch, reach, arc, seconds),
    }
}

/// The first of some rows, if it is that of an arc's window.
#[inline(always)]
fn row_at(rows: &[LabelRow], arc: Arc, window: Span) -> Option<LabelRow>
    ensures { IfSome result (λ row. Contains rows.now row × (row.arc ≡ arc) × (window_of row ≡ window)) }
{
    let row = *rows.first()?;
    if row.arc == arc && row.from == window.from && row.until == window.until {
        Some(row)
    } else {
        None
    }
}

/// The same for the window of a row.
#[inline(always)]
pub fn part_by_row(
    limits: Limits,
    row: LabelRow,
    stretch: Reach,
    reach: Reach,
    seconds: Time,
) -> Reach
    ensures within { IsWithin stretch result }
    ensures served { (c : Conditions) (bound : Option ℕ) (rows : List LabelRow) → limits ≡ limits_of c → Contains rows row → HasEach result.way (IsReachedIn c result row.arc seconds (window_of row)) bound rows }
{
    match stretch.way {
        Way::Forward => part_entered(row, stretch, reach, seconds),
        Way::Backward => {
            let last = last_in(limits, window_of(row));
            part_left(row, last, stretch, reach, seconds)
        }
    }
}

/// Going on: the part from where the row's window was entered, unless the reach begins before.
#[inline(always)]
fn part_entered(row: LabelRow, stretch: Reach, reach: Reach, seconds: Time) -> Reach
    requires { stretch.way ≡ Forward }
    ensures within { IsWithin stretch result }
    ensures served { (c : Conditions) (v : ℕ) → IsValueIn result.way c result.from result.by seconds (window_of row) v → row.value ≤ v }
{
    let enter = row.value.saturating_sub(seconds);
    if enter <= later(stretch.from, row.from) {
        stretch
    } else if enter <= reach.from {
        Reach {
            from: enter,
            ..stretch
        }
    } else {
        part_beside(window_of(row), stretch, reach)
    }
}

/// Going back: the part until where the row's window was left, unless the reach ends behind.
#[inline(always)]
fn part_left(row: LabelRow, last: Time, stretch: Reach, reach: Reach, seconds: Time) -> Reach
    requires { stretch.way ≡ Backward }
    ensures within { IsWithin stretch result }
    ensures served { (c : Conditions) (v : ℕ) → last ≡ last_of c (window_of row) → IsValueIn result.way c result.from result.by seconds (window_of row) v → v ≤ row.value }
{
    let leave = row.value.saturating_add(seconds);
    if sooner(stretch.by, last) <= leave {
        stretch
    } else if reach.by <= leave {
        Reach {
            by: leave,
            ..stretch
        }
    } else {
        part_beside(window_of(row), stretch, reach)
    }
}

/// The same for a window whose row is not seen.
#[inline(always)]
fn part_without(
    limits: Limits,
    window: Span,
    table: &Table<'_>,
    stretch: Reach,
    reach: Reach,
    arc: Arc,
    seconds: Time,
) -> Reach
    ensures within { IsWithin stretch result }
    ensures served { (c : Conditions) → limits ≡ limits_of c → HasEach result.way (IsReachedIn c result arc seconds window) table.now.bound table.now.rows.now }
{
    match value_in(limits, stretch, seconds, window) {
        Some(value) => {
            if table.is_short(stretch.way, value) {
                part_beside(window, stretch, reach)
            } else {
                stretch
            }
        }
        None => stretch,
    }
}

/// The part of a stretch before a window or behind it, on the side of the reach.
#[inline(always)]
fn part_beside(window: Span, stretch: Reach, reach: Reach) -> Reach
    ensures within { IsWithin stretch result }
    ensures beside { (c : Conditions) (n v : ℕ) → IsValueIn result.way c result.from result.by n window v → ⊥ }
{
    if window.until < reach.from {
        Reach {
            from: later(stretch.from, window.until + 1),
            ..stretch
        }
    } else if 0 < window.from {
        Reach {
            by: sooner(stretch.by, window.from - 1),
            ..stretch
        }
    } else {
        Reach {
            from: later(stretch.from, 1),
            by: 0,
            ..stretch
        }
    }
}
