//! Whether each label of an arc that is reached in some windows has a row.
ghost use Rattle.std.specs.Prelude.{◌≡◌, ◌↔◌, All, Contains, IsTrue};
ghost use Rattle.taxi_base.specs.Labels.{window_of};
ghost use Rattle.taxi_base.specs.Walks.{Conditions};
ghost use Rattle.table_rows.specs.HasRows.{HasEach};
ghost use Rattle.table_rows.specs.Limits.{limits_of};
ghost use Rattle.table_rows.specs.Reached.{label_in, IsReachedIn};
ghost use Rattle.table_rows.specs.Rows.{AreOrdered};

use crate::around::rows_behind;
use crate::limits::Limits;
use crate::reach::{Reach, value_in};
use crate::rows::window_of;
use crate::table::Table;
use taxi_base::{Arc, LabelRow, Span, Time};

/// Whether the label of an arc in the window of a row has that row, if it is reached in time.
#[inline(always)]
pub fn row_is_enough(
    limits: Limits,
    row: LabelRow,
    table: &Table<'_>,
    reach: Reach,
    arc: Arc,
    seconds: Time,
) -> bool
    requires ordered { AreOrdered table.now.rows.now }
    requires there { Contains table.now.rows.now row }
    requires on { row.arc ≡ arc }
    ensures { (c : Conditions) → limits ≡ limits_of c → IsTrue result ↔ HasEach reach.way (IsReachedIn c reach arc seconds (window_of row)) table.now.bound table.now.rows.now }
{
    let window = window_of(row);
    match value_in(limits, reach, seconds, window) {
        Some(value) => table.is_served(reach.way, row, label_in(arc, window, value)),
        None => true,
    }
}

/// Whether each label of an arc that is reached in time in one of some windows has a row. It is looked for first among the rows near.
pub fn windows_have_rows(
    limits: Limits,
    windows: &[Span],
    table: &Table<'_>,
    near: &[LabelRow],
    reach: Reach,
    arc: Arc,
    seconds: Time,
) -> bool
    requires ordered { AreOrdered table.now.rows.now }
    requires near { All (Contains table.now.rows.now) near.now }
    ensures { (c : Conditions) → limits ≡ limits_of c → IsTrue result ↔ All (λ w. HasEach reach.way (IsReachedIn c reach arc seconds w) table.now.bound table.now.rows.now) windows.now }
{
    let mut rest = near;
    for window in windows {
        rest = rows_behind(rest, arc, window.from);
        if !window_has_row(limits, *window, table, rest, reach, arc, seconds) {
            return false;
        }
    }
    true
}

fn window_has_row(
    limits: Limits,
    window: Span,
    table: &Table<'_>,
    near: &[LabelRow],
    reach: Reach,
    arc: Arc,
    seconds: Time,
) -> bool
    requires ordered { AreOrdered table.now.rows.now }
    requires near { All (Contains table.now.rows.now) near.now }
    ensures { (c : Conditions) → limits ≡ limits_of c → IsTrue result ↔ HasEach reach.way (IsReachedIn c reach arc seconds window) table.now.bound table.now.rows.now }
{
    match value_in(limits, reach, seconds, window) {
        Some(value) => table.has_row_near(near, reach.way, label_in(arc, window, value)),
        None => true,
    }
}

/// The label of an arc in a window.
pub fn label_in(arc: Arc, window: Span, value: Time) -> LabelRow
    ensures { result ≡ label_in arc window value }
{
    LabelRow {
        arc,
        from: window.from,
        until: window.until,
        value,
    }
}
