//! Rows by their arcs.
ghost use Rattle.std.specs.Prelude.{◌≡◌, ◌↔◌, ◌≤◌, ℕ, List, Option, Some, All, Contains, IfSome, IsTrue};
ghost use Rattle.taxi_base.specs.Airport.{segment_of, seconds as seconds_on};
ghost use Rattle.taxi_base.specs.Walks.{Conditions};
ghost use Rattle.walk_labels.specs.Places.{IsPlace, place_of};
ghost use Rattle.table_rows.specs.HasRows.{HasEach};
ghost use Rattle.table_rows.specs.Reached.{IsGoodEnough, IsReachedAt, IsRowAround};

use crate::reach::{Reach, Way};
use taxi_base::{Arc, LabelRow, Time};

/// Notes where the rows of each arc begin, of rows in order. What was noted of other arcs stays, so it costs no more than
/// there are rows, and is only a hint.
pub fn note_firsts(firsts: &mut Vec<usize>, rows: &[LabelRow]) {
    for (place, row) in rows.iter().enumerate().rev() {
        let arc = row.arc.0 as usize;
        if arc < firsts.len() {
            firsts[arc] = place;
        }
    }
}

/// What is left of some rows behind those of an arc that end before a second.
#[inline(always)]
pub fn rows_behind(rows: &[LabelRow], arc: Arc, second: Time) -> &[LabelRow]
    ensures { All (Contains rows.now) result.now }
{
    for (place, row) in rows.iter().enumerate() {
        if row.arc != arc || second <= row.until {
            return &rows[place..];
        }
    }
    &[]
}

/// The first of some rows, if it is of an arc and its window holds the whole of a reach.
#[inline(always)]
pub fn row_around(rows: &[LabelRow], reach: Reach, arc: Arc) -> Option<LabelRow>
    ensures { IfSome result (IsRowAround reach arc rows.now) }
{
    let row = *rows.first()?;
    if row.arc == arc && row.from <= reach.from && reach.by <= row.until {
        Some(row)
    } else {
        None
    }
}

/// Whether a row is as good as each label of an arc that is reached in time. It says so only where the row's window holds the whole
/// reach.
#[inline(always)]
pub fn row_serves(row: LabelRow, reach: Reach, arc: Arc, seconds: Time) -> bool
    ensures { (c : Conditions) (bound : Option ℕ) (rows : List LabelRow) → seconds_on c.airport c.class (segment_of arc) ≡ Some seconds → IsPlace c (place_of row) → Contains rows row → IsTrue result → HasEach reach.way (IsReachedAt c reach arc) bound rows }
{
    is_around(row, reach, arc) && is_good_enough(row.value, reach, seconds)
}

/// Whether a row is of an arc, and its window holds the whole of a reach.
#[inline(always)]
fn is_around(row: LabelRow, reach: Reach, arc: Arc) -> bool
    ensures { IsTrue result → (row.arc ≡ arc) × (row.from ≤ reach.from) × (reach.by ≤ row.until) }
{
    row.arc == arc && row.from <= reach.from && reach.by <= row.until
}

/// Whether a value is as good as any that a reach gives, in whatever window.
#[inline(always)]
fn is_good_enough(value: Time, reach: Reach, seconds: Time) -> bool
    ensures { IsTrue result ↔ IsGoodEnough reach.way reach.from reach.by seconds value }
{
    match reach.way {
        Way::Forward => value.saturating_sub(seconds) <= reach.from,
        Way::Backward => reach.by.saturating_sub(seconds) <= value,
    }
}

/// The rows from a place on.
pub fn rows_from(rows: &[LabelRow], first: usize) -> &[LabelRow]
    ensures { All (Contains rows.now) result.now }
{
    if first <= rows.len() {
        &rows[first..]
    } else {
        &[]
    }
}
