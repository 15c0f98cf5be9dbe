//! Whether each label of some arcs that is reached in time has a row.
ghost use Rattle.std.specs.Prelude.{◌≡◌, ◌↔◌, Some, All, Contains, IfOk, IsTrue, length};
ghost use Rattle.taxi_base.specs.Airport.{layout_of, arc_exists, segment_of, seconds as seconds_on};
ghost use Rattle.walk_labels.specs.Places.{IsPlace, place_of};
ghost use Rattle.taxi_base.specs.Walks.{conditions_among, free_among};
ghost use Rattle.table_rows.specs.Rows.{AreOrdered};
ghost use Rattle.check_rows.specs.Known.{AreKnown};
ghost use Rattle.table_rows.specs.HasRows.{HasEach};
ghost use Rattle.table_rows.specs.Reached.{IsReachedAt};

use crate::KnownWindows;
use crate::limits::limits_of;
use airport_file::Airport;
use held_spans::HoldsOf;
use segment_windows::windows_between;
use table_rows::{
    Reach, Table, row_around, row_is_enough, rows_behind, short_part, windows_have_rows,
};
use taxi_base::{Arc, Class, LabelRow, Memory, Time};

/// Whether each label of some arcs that is reached in time has a row.
#[inline(always)]
pub fn arcs_have_rows<H: HoldsOf>(
    airport: &Airport,
    class: Class,
    holds: &H,
    known: &mut KnownWindows,
    table: &Table<'_>,
    reach: Reach,
    arcs: &[Arc],
) -> Result<bool, Memory>
    requires exist { All (λ arc. IsTrue (arc_exists (layout_of airport.now) arc)) arcs.now }
    requires ordered { AreOrdered table.now.rows.now }
    requires places { All (λ row. IsPlace (conditions_among airport.now class (H.held holds.now)) (place_of row)) table.now.rows.now }
    requires known { AreKnown (length airport.now.segments) (free_among airport.now (H.held holds.now)) known.old }
    ensures known { AreKnown (length airport.now.segments) (free_among airport.now (H.held holds.now)) known.new }
    ensures closed { IfOk result (λ yes. IsTrue yes ↔ All (λ arc. HasEach reach.way (IsReachedAt (conditions_among airport.now class (H.held holds.now)) reach arc) table.now.bound table.now.rows.now) arcs.now) }
{
    for arc in arcs {
        let closed = arc_has_rows(airport, class, holds, known, table, reach, *arc)?;
        if !closed {
            return Ok(false);
        }
    }
    Ok(true)
}

/// The same of one arc.
#[inline(always)]
pub fn arc_has_rows<H: HoldsOf>(
    airport: &Airport,
    class: Class,
    holds: &H,
    known: &mut KnownWindows,
    table: &Table<'_>,
    reach: Reach,
    arc: Arc,
) -> Result<bool, Memory>
    requires exists { IsTrue (arc_exists (layout_of airport.now) arc) }
    requires ordered { AreOrdered table.now.rows.now }
    requires places { All (λ row. IsPlace (conditions_among airport.now class (H.held holds.now)) (place_of row)) table.now.rows.now }
    requires known { AreKnown (length airport.now.segments) (free_among airport.now (H.held holds.now)) known.old }
    ensures known { AreKnown (length airport.now.segments) (free_among airport.now (H.held holds.now)) known.new }
    ensures closed { IfOk result (λ yes. IsTrue yes ↔ HasEach reach.way (IsReachedAt (conditions_among airport.now class (H.held holds.now)) reach arc) table.now.bound table.now.rows.now) }
{
    match airport.classes().seconds(class, arc.segment()) {
        Some(seconds) => {
            let short = short_part(reach, table.bound);
            let closed = part_has_rows(airport, class, holds, known, table, short, arc, seconds)?;
            Ok(closed)
        }
        None => Ok(true),
    }
}

/// The same of an arc on which the class takes these seconds. Mostly one row has a window that holds the whole reach, and no
/// other window is near then.
#[inline(always)]
fn part_has_rows<H: HoldsOf>(
    airport: &Airport,
    class: Class,
    holds: &H,
    known: &mut KnownWindows,
    table: &Table<'_>,
    reach: Reach,
    arc: Arc,
    seconds: Time,
) -> Result<bool, Memory>
    requires exists { IsTrue (arc_exists (layout_of airport.now) arc) }
    requires takes { seconds_on airport.now class (segment_of arc) ≡ Some seconds }
    requires ordered { AreOrdered table.now.rows.now }
    requires places { All (λ row. IsPlace (conditions_among airport.now class (H.held holds.now)) (place_of row)) table.now.rows.now }
    requires known { AreKnown (length airport.now.segments) (free_among airport.now (H.held holds.now)) known.old }
    ensures known { AreKnown (length airport.now.segments) (free_among airport.now (H.held holds.now)) known.new }
    ensures closed { IfOk result (λ yes. IsTrue yes ↔ HasEach reach.way (IsReachedAt (conditions_among airport.now class (H.held holds.now)) reach arc) table.now.bound table.now.rows.now) }
{
    let near = rows_behind(table.rows_of(arc), arc, reach.from);
    match row_around(near, reach, arc) {
        Some(row) => Ok(row_is_enough(limits_of(airport, class), row, table, reach, arc, seconds)),
        None => near_have_rows(
            airport, class, holds, known, table, near, reach, arc, seconds,
        ),
    }
}

/// The same by the windows that a step may come to, whose rows are looked for first among those that are near.
#[inline(never)]
fn near_have_rows<H: HoldsOf>(
    airport: &Airport,
    class: Class,
    holds: &H,
    known: &mut KnownWindows,
    table: &Table<'_>,
    near: &[LabelRow],
    reach: Reach,
    arc: Arc,
    seconds: Time,
) -> Result<bool, Memory>
    requires exists { IsTrue (arc_exists (layout_of airport.now) arc) }
    requires takes { seconds_on airport.now class (segment_of arc) ≡ Some seconds }
    requires near { All (Contains table.now.rows.now) near.now }
    requires ordered { AreOrdered table.now.rows.now }
    requires places { All (λ row. IsPlace (conditions_among airport.now class (H.held holds.now)) (place_of row)) table.now.rows.now }
    requires known { AreKnown (length airport.now.segments) (free_among airport.now (H.held holds.now)) known.old }
    ensures known { AreKnown (length airport.now.segments) (free_among airport.now (H.held holds.now)) known.new }
    ensures closed { IfOk result (λ yes. IsTrue yes ↔ HasEach reach.way (IsReachedAt (conditions_among airport.now class (H.held holds.now)) reach arc) table.now.bound table.now.rows.now) }
{
    let segment = arc.segment();
    known.make(airport, holds, segment)?;
    let found = known.found(segment);
    let windows = windows_between(known.of(segment), reach.from, reach.by, found);
    Ok(windows_have_rows(
        limits_of(airport, class),
        windows,
        table,
        near,
        reach,
        arc,
        seconds,
    ))
}
