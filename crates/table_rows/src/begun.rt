//! Whether the label of a step that was begun has a row.
ghost use Rattle.std.specs.Prelude.{◌≡◌, ◌↔◌, All, IsTrue};
ghost use Rattle.taxi_base.specs.Walks.{Conditions, IsInside};
ghost use Rattle.table_rows.specs.declared.reach.Way.TheVariants.{Forward};
ghost use Rattle.table_rows.specs.HasRows.{HasEach};
ghost use Rattle.table_rows.specs.Limits.{limits_of};
ghost use Rattle.table_rows.specs.Reached.{IsAround};
ghost use Rattle.table_rows.specs.Rows.{AreOrdered};

use crate::in_windows::label_in;
use crate::limits::Limits;
use crate::reach::Way;
use crate::table::Table;
use taxi_base::{Span, Step, Time};

/// Whether the label with a value has a row, in each of some windows in which a step that was begun is.
pub fn windows_around_have_rows(
    limits: Limits,
    windows: &[Span],
    table: &Table<'_>,
    begun: Step,
    value: Time,
) -> bool
    requires ordered { AreOrdered table.now.rows.now }
    ensures { (c : Conditions) → limits ≡ limits_of c → IsTrue result ↔ All (λ w. HasEach Forward (IsAround c begun value w) table.now.bound table.now.rows.now) windows.now }
{
    for window in windows {
        if !window_around_has_row(limits, *window, table, begun, value) {
            return false;
        }
    }
    true
}

fn window_around_has_row(
    limits: Limits,
    window: Span,
    table: &Table<'_>,
    begun: Step,
    value: Time,
) -> bool
    requires ordered { AreOrdered table.now.rows.now }
    ensures { (c : Conditions) → limits ≡ limits_of c → IsTrue result ↔ HasEach Forward (IsAround c begun value window) table.now.bound table.now.rows.now }
{
    !is_inside(limits, window, begun)
        || table.has_row_for(Way::Forward, label_in(begun.arc, window, value))
}

/// Whether a step is inside a window.
fn is_inside(limits: Limits, window: Span, step: Step) -> bool
    ensures { (c : Conditions) → limits ≡ limits_of c → IsTrue result ↔ IsInside c window step }
{
    let held = step.held(limits.horizon, limits.clearance);
    window.from <= held.from && held.until <= window.until
}
