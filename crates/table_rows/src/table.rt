//! A table to be checked: its rows, and the bound of which they fall short.
ghost use Rattle.std.specs.Prelude.{◌≡◌, ◌↔◌, ◌≤◌, ◌&&◌, nat_le, true, false, Some, length, All, Contains, IfSome, IsTrue};
ghost use Rattle.std.specs.List.Sorted.{IsPartitionPoint};
ghost use Rattle.taxi_base.specs.Airport.{segment_of, seconds as seconds_on};
ghost use Rattle.taxi_base.specs.Labels.{precedes};
ghost use Rattle.taxi_base.specs.Walks.{Conditions};
ghost use Rattle.walk_labels.specs.Places.{IsPlace, place_of};
ghost use Rattle.table_rows.specs.Rows.{AreOrdered, is_at_place, is_before};
ghost use Rattle.table_rows.specs.HasRows.{IsShort, HasAsGood, HasEach};
ghost use Rattle.table_rows.specs.Reached.{IsReachedAt};

use crate::around::{row_serves, rows_from};
use crate::reach::{Reach, Way};
use crate::rows::{is_as_good, is_at_place, precedes};
use taxi_base::{Arc, LabelRow, Time};

/// Rows, and a bound if there is one. Where the rows of an arc begin may be noted by its number.
#[derive(Clone, Copy)]
pub struct Table<'a> {
    pub rows: &'a [LabelRow],
    pub bound: Option<Time>,
    pub firsts: &'a [usize],
}

impl<'a> Table<'a> {
    /// Whether a value is short of the bound: below it going on, above it going back.
    pub fn is_short(&self, way: Way, value: Time) -> bool
        ensures { IsTrue result ↔ IsShort way self.now.bound value }
    {
        match self.bound {
            Some(bound) => is_before(way, value, bound),
            None => true,
        }
    }

    /// Whether a label has a row that is at least as good, if it is short of the bound.
    pub fn has_row_for(&self, way: Way, label: LabelRow) -> bool
        requires { AreOrdered self.now.rows.now }
        ensures { IsTrue result ↔ (IsShort way self.now.bound label.value → HasAsGood way self.now.rows.now label) }
    {
        !self.is_short(way, label.value) || self.has_as_good(way, label)
    }

    /// The same where a row at the label's place is known.
    pub fn is_served(&self, way: Way, row: LabelRow, label: LabelRow) -> bool
        requires ordered { AreOrdered self.now.rows.now }
        requires there { Contains self.now.rows.now row }
        requires same { IsTrue (is_at_place row label) }
        ensures { IsTrue result ↔ (IsShort way self.now.bound label.value → HasAsGood way self.now.rows.now label) }
    {
        !self.is_short(way, label.value) || is_as_good(way, row, label)
    }

    /// The same, where the row at the label's place is looked for first at the head of some rows.
    #[inline(always)]
    pub fn has_row_near(&self, near: &[LabelRow], way: Way, label: LabelRow) -> bool
        requires ordered { AreOrdered self.now.rows.now }
        requires near { All (Contains self.now.rows.now) near.now }
        ensures { IsTrue result ↔ (IsShort way self.now.bound label.value → HasAsGood way self.now.rows.now label) }
    {
        if let Some(row) = near.first() {
            if is_at_place(*row, label) {
                return self.is_served(way, *row, label);
            }
        }
        self.has_row_for(way, label)
    }

    /// Rows from where those of an arc were noted to begin.
    pub fn rows_of(&self, arc: Arc) -> &[LabelRow]
        ensures { All (Contains self.now.rows.now) result.now }
    {
        match self.firsts.get(arc.0 as usize) {
            Some(first) => rows_from(self.rows, *first),
            None => &[],
        }
    }

    /// Whether the first row noted of an arc is as good as each label of it that is reached in time.
    #[inline(always)]
    pub fn first_serves(&self, reach: Reach, arc: Arc, seconds: Time) -> bool
        ensures { (c : Conditions) → seconds_on c.airport c.class (segment_of arc) ≡ Some seconds → All (λ row. IsPlace c (place_of row)) self.now.rows.now → IsTrue result → HasEach reach.way (IsReachedAt c reach arc) self.now.bound self.now.rows.now }
    {
        match self.first_of(arc) {
            Some(row) => row_serves(row, reach, arc, seconds),
            None => false,
        }
    }

    /// The row at which those of an arc were noted to begin.
    #[inline(always)]
    fn first_of(&self, arc: Arc) -> Option<LabelRow>
        ensures { IfSome result (Contains self.now.rows.now) }
    {
        match self.firsts.get(arc.0 as usize) {
            Some(first) => row_of(self.rows, *first),
            None => None,
        }
    }

    fn has_as_good(&self, way: Way, label: LabelRow) -> bool
        requires { AreOrdered self.now.rows.now }
        ensures { IsTrue result ↔ HasAsGood way self.now.rows.now label }
    {
        match self.rows.get(self.rows_before(label)) {
            Some(row) => is_as_good(way, *row, label),
            None => false,
        }
    }

    /// How many rows stand before the label's place.
    fn rows_before(&self, label: LabelRow) -> usize
        requires { AreOrdered self.now.rows.now }
        ensures few { result ≤ length self.now.rows.now }
        ensures point { IsPartitionPoint (λ row. precedes row label ≡ true) (λ row. precedes row label ≡ false) self.now.rows.now result }
    {
        self.rows.partition_point(|row| precedes(*row, label))
    }
}

/// The row at a place, if there is one.
#[inline(always)]
fn row_of(rows: &[LabelRow], place: usize) -> Option<LabelRow>
    ensures { IfSome result (Contains rows.now) }
{
    if place < rows.len() {
        Some(rows[place])
    } else {
        None
    }
}

/// Whether a value is before another on a way.
fn is_before(way: Way, value: Time, other: Time) -> bool
    ensures { result ≡ is_before way value other }
{
    match way {
        Way::Forward => value < other,
        Way::Backward => other < value,
    }
}
