//! Rows of a table, one beside another.
ghost use Rattle.std.specs.Prelude.{◌≡◌, ◌↔◌, ◌&&◌, IsTrue};
ghost use Rattle.taxi_base.specs.Labels.{precedes, window_of};
ghost use Rattle.table_rows.specs.Rows.{AreOrdered, is_at_place, is_up_to, is_as_good};

use crate::reach::Way;
use taxi_base::{LabelRow, Span};

/// Whether rows stand in rising order of arc and window.
pub fn are_ordered(rows: &[LabelRow]) -> bool
    ensures { IsTrue result ↔ AreOrdered rows.now }
{
    rows.is_sorted_by(|p, q| precedes(*p, *q))
}

/// Whether one row stands before another in order.
pub fn precedes(p: LabelRow, q: LabelRow) -> bool
    ensures { result ≡ precedes p q }
{
    p.arc.0 < q.arc.0 || (p.arc.0 == q.arc.0 && p.from < q.from)
}

/// Whether a row has the label's arc and window, and a value that is at least as early, or as late.
pub fn is_as_good(way: Way, row: LabelRow, label: LabelRow) -> bool
    ensures { result ≡ is_as_good way row label }
{
    is_at_place(row, label) && is_up_to(way, row, label)
}

fn is_up_to(way: Way, row: LabelRow, label: LabelRow) -> bool
    ensures { result ≡ is_up_to way row.value label.value }
{
    match way {
        Way::Forward => row.value <= label.value,
        Way::Backward => label.value <= row.value,
    }
}

/// Whether a row has the label's arc and window.
pub fn is_at_place(row: LabelRow, label: LabelRow) -> bool
    ensures { result ≡ is_at_place row label }
{
    row.arc == label.arc && row.from == label.from && row.until == label.until
}

/// The window of a row.
pub fn window_of(row: LabelRow) -> Span
    ensures { result ≡ window_of row }
{
    Span {
        from: row.from,
        until: row.until,
    }
}
