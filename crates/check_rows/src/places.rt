//! Whether rows are of places.
ghost use Rattle.std.specs.Prelude.{◌≡◌, ◌↔◌, All, IfOk, IsTrue, length};
ghost use Rattle.taxi_base.specs.Walks.{conditions_among, free_among};
ghost use Rattle.walk_labels.specs.Places.{IsPlace, place_of};
ghost use Rattle.walk_labels.specs.PlacesInWindows.{can_use};
ghost use Rattle.check_rows.specs.Known.{AreKnown};

use crate::KnownWindows;
use airport_file::Airport;
use held_spans::HoldsOf;
use segment_windows::has_window;
use table_rows::window_of;
use taxi_base::{Arc, Class, LabelRow, Memory};

/// Whether each row's arc exists, the class has seconds on it, and the row's span is a window of its segment.
pub fn are_at_places<H: HoldsOf>(
    airport: &Airport,
    class: Class,
    holds: &H,
    known: &mut KnownWindows,
    rows: &[LabelRow],
) -> Result<bool, Memory>
    requires known { AreKnown (length airport.now.segments) (free_among airport.now (H.held holds.now)) known.old }
    ensures known { AreKnown (length airport.now.segments) (free_among airport.now (H.held holds.now)) known.new }
    ensures there { IfOk result (λ yes. IsTrue yes ↔ All (λ row. IsPlace (conditions_among airport.now class (H.held holds.now)) (place_of row)) rows.now) }
{
    for row in rows {
        let there = is_at_place(airport, class, holds, known, *row)?;
        if !there {
            return Ok(false);
        }
    }
    Ok(true)
}

fn is_at_place<H: HoldsOf>(
    airport: &Airport,
    class: Class,
    holds: &H,
    known: &mut KnownWindows,
    row: LabelRow,
) -> Result<bool, Memory>
    requires known { AreKnown (length airport.now.segments) (free_among airport.now (H.held holds.now)) known.old }
    ensures known { AreKnown (length airport.now.segments) (free_among airport.now (H.held holds.now)) known.new }
    ensures there { IfOk result (λ yes. IsTrue yes ↔ IsPlace (conditions_among airport.now class (H.held holds.now)) (place_of row)) }
{
    if !can_use(airport, class, row.arc) {
        return Ok(false);
    }
    let segment = row.arc.segment();
    known.make(airport, holds, segment)?;
    let windows = known.of(segment);
    Ok(has_window(windows, window_of(row), known.found(segment)))
}

/// Whether an arc exists, and the class has seconds on its segment.
fn can_use(airport: &Airport, class: Class, arc: Arc) -> bool
    ensures { result ≡ can_use airport.now class arc }
{
    airport.graph().exists(arc) && airport.classes().seconds(class, arc.segment()).is_some()
}
