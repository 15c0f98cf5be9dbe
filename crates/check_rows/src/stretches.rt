//! Whether each label of some arcs that is reached in time has a row, with what is kept of the arcs.
ghost use Rattle.std.specs.Prelude.{◌≡◌, ◌↔◌, ◌≤◌, ℕ, Bool, Some, All, Contains, IfOk, IsTrue, length};
ghost use Rattle.taxi_base.specs.declared.numbers.Segment.{Segment};
ghost use Rattle.taxi_base.specs.Airport.{layout_of, arc_exists, segment_of, seconds as seconds_on};
ghost use Rattle.taxi_base.specs.Walks.{conditions_among, free_among};
ghost use Rattle.walk_labels.specs.Places.{IsPlace, place_of};
ghost use Rattle.table_rows.specs.Rows.{AreOrdered};
ghost use Rattle.check_rows.specs.Known.{AreKnown};
ghost use Rattle.check_rows.specs.Comes.{conditions_at};
ghost use Rattle.table_rows.specs.HasRows.{HasEach};
ghost use Rattle.table_rows.specs.Reached.{IsReachedAt};
ghost use Rattle.table_rows.specs.Served.{AreServed};

use crate::KnownWindows;
use crate::closed::arc_has_rows;
use crate::limits::limits_of;
use airport_file::Airport;
use held_spans::HoldsOf;
use segment_windows::windows_between;
use table_rows::{
    Reach, Served, Table, is_within, part_by_row, row_around, rows_behind, short_part, stretch_in,
    widest_around,
};
use taxi_base::{Arc, Class, LabelRow, Memory, Time};

/// Whether each label of some arcs that is reached in time has a row.
#[inline(always)]
pub fn arcs_are_served<H: HoldsOf>(
    airport: &Airport,
    class: Class,
    holds: &H,
    known: &mut KnownWindows,
    served: &mut Served,
    table: &Table<'_>,
    reach: Reach,
    arcs: &[Arc],
) -> Result<bool, Memory>
    requires exist { All (λ arc. IsTrue (arc_exists (layout_of airport.now) arc)) arcs.now }
    requires ordered { AreOrdered table.now.rows.now }
    requires places { All (λ row. IsPlace (conditions_among airport.now class (H.held holds.now)) (place_of row)) table.now.rows.now }
    requires known { AreKnown (length airport.now.segments) (free_among airport.now (H.held holds.now)) known.old }
    requires served { AreServed reach.way (conditions_among airport.now class (H.held holds.now)) table.now.bound table.now.rows.now served.old }
    ensures known { AreKnown (length airport.now.segments) (free_among airport.now (H.held holds.now)) known.new }
    ensures served { AreServed reach.way (conditions_among airport.now class (H.held holds.now)) table.now.bound table.now.rows.now served.new }
    ensures closed { IfOk result (λ yes. IsTrue yes ↔ All (λ arc. HasEach reach.way (IsReachedAt (conditions_among airport.now class (H.held holds.now)) reach arc) table.now.bound table.now.rows.now) arcs.now) }
{
    for arc in arcs {
        if first_row_serves(airport, class, table, reach, *arc) {
            continue;
        }
        if served.holds(reach, *arc) {
            continue;
        }
        let closed = arc_is_served(airport, class, holds, known, served, table, reach, *arc)?;
        if !closed {
            return Ok(false);
        }
    }
    Ok(true)
}

/// The same of one arc of which it is not known. What is found of it is kept.
#[inline(never)]
fn arc_is_served<H: HoldsOf>(
    airport: &Airport,
    class: Class,
    holds: &H,
    known: &mut KnownWindows,
    served: &mut Served,
    table: &Table<'_>,
    reach: Reach,
    arc: Arc,
) -> Result<bool, Memory>
    requires exists { IsTrue (arc_exists (layout_of airport.now) arc) }
    requires ordered { AreOrdered table.now.rows.now }
    requires places { All (λ row. IsPlace (conditions_among airport.now class (H.held holds.now)) (place_of row)) table.now.rows.now }
    requires known { AreKnown (length airport.now.segments) (free_among airport.now (H.held holds.now)) known.old }
    requires served { AreServed reach.way (conditions_among airport.now class (H.held holds.now)) table.now.bound table.now.rows.now served.old }
    ensures known { AreKnown (length airport.now.segments) (free_among airport.now (H.held holds.now)) known.new }
    ensures served { AreServed reach.way (conditions_among airport.now class (H.held holds.now)) table.now.bound table.now.rows.now served.new }
    ensures closed { IfOk result (λ yes. IsTrue yes ↔ HasEach reach.way (IsReachedAt (conditions_among airport.now class (H.held holds.now)) reach arc) table.now.bound table.now.rows.now) }
{
    let stretch = stretch_around(airport, class, holds, known, table, reach, arc)?;
    if is_within(reach, stretch.from, stretch.by) {
        served.keep(stretch, arc);
        return Ok(true);
    }
    let closed = arc_has_rows(airport, class, holds, known, table, reach, arc)?;
    if closed {
        served.keep(reach, arc);
    }
    Ok(closed)
}

/// Whether the first row noted of an arc is as good as each label of it that is reached in time.
#[inline(always)]
fn first_row_serves(
    airport: &Airport,
    class: Class,
    table: &Table<'_>,
    reach: Reach,
    arc: Arc,
) -> bool
    ensures { (free : Segment → ℕ → Bool) → All (λ row. IsPlace (conditions_at airport.now class free) (place_of row)) table.now.rows.now → IsTrue result → HasEach reach.way (IsReachedAt (conditions_at airport.now class free) reach arc) table.now.bound table.now.rows.now }
{
    match airport.classes().seconds(class, arc.segment()) {
        Some(seconds) => table.first_serves(reach, arc, seconds),
        None => false,
    }
}

/// A stretch in which each label of an arc that is reached has a row. It holds the reach where that can be seen by the rows of
/// the arc near it.
#[inline(always)]
fn stretch_around<H: HoldsOf>(
    airport: &Airport,
    class: Class,
    holds: &H,
    known: &mut KnownWindows,
    table: &Table<'_>,
    reach: Reach,
    arc: Arc,
) -> Result<Reach, Memory>
    requires exists { IsTrue (arc_exists (layout_of airport.now) arc) }
    requires ordered { AreOrdered table.now.rows.now }
    requires places { All (λ row. IsPlace (conditions_among airport.now class (H.held holds.now)) (place_of row)) table.now.rows.now }
    requires known { AreKnown (length airport.now.segments) (free_among airport.now (H.held holds.now)) known.old }
    ensures known { AreKnown (length airport.now.segments) (free_among airport.now (H.held holds.now)) known.new }
    ensures way { IfOk result (λ stretch. stretch.way ≡ reach.way) }
    ensures served { IfOk result (λ stretch. HasEach stretch.way (IsReachedAt (conditions_among airport.now class (H.held holds.now)) stretch arc) table.now.bound table.now.rows.now) }
{
    match airport.classes().seconds(class, arc.segment()) {
        Some(seconds) => {
            let stretch = stretch_near(airport, class, holds, known, table, reach, arc, seconds)?;
            Ok(stretch)
        }
        None => Ok(Reach {
            way: reach.way,
            from: 1,
            by: 0,
        }),
    }
}

/// The same of an arc on which the class takes these seconds. Mostly one row has a window that holds the whole reach, and no
/// other window is looked at then.
#[inline(always)]
fn stretch_near<H: HoldsOf>(
    airport: &Airport,
    class: Class,
    holds: &H,
    known: &mut KnownWindows,
    table: &Table<'_>,
    reach: Reach,
    arc: Arc,
    seconds: Time,
) -> Result<Reach, Memory>
    requires exists { IsTrue (arc_exists (layout_of airport.now) arc) }
    requires takes { seconds_on airport.now class (segment_of arc) ≡ Some seconds }
    requires ordered { AreOrdered table.now.rows.now }
    requires places { All (λ row. IsPlace (conditions_among airport.now class (H.held holds.now)) (place_of row)) table.now.rows.now }
    requires known { AreKnown (length airport.now.segments) (free_among airport.now (H.held holds.now)) known.old }
    ensures known { AreKnown (length airport.now.segments) (free_among airport.now (H.held holds.now)) known.new }
    ensures way { IfOk result (λ stretch. stretch.way ≡ reach.way) }
    ensures served { IfOk result (λ stretch. HasEach stretch.way (IsReachedAt (conditions_among airport.now class (H.held holds.now)) stretch arc) table.now.bound table.now.rows.now) }
{
    let near = rows_behind(table.rows_of(arc), arc, reach.from);
    match row_around(near, reach, arc) {
        Some(row) => {
            let whole = Reach {
                way: reach.way,
                from: row.from,
                by: row.until,
            };
            Ok(part_by_row(limits_of(airport, class), row, whole, reach, seconds))
        }
        None => stretch_by_windows(
            airport, class, holds, known, table, near, reach, arc, seconds,
        ),
    }
}

/// The same by the windows that a step may come to, from the first of some rows of the arc on, which are near the reach.
#[inline(always)]
fn stretch_by_windows<H: HoldsOf>(
    airport: &Airport,
    class: Class,
    holds: &H,
    known: &mut KnownWindows,
    table: &Table<'_>,
    near: &[LabelRow],
    reach: Reach,
    arc: Arc,
    seconds: Time,
) -> Result<Reach, Memory>
    requires exists { IsTrue (arc_exists (layout_of airport.now) arc) }
    requires takes { seconds_on airport.now class (segment_of arc) ≡ Some seconds }
    requires near { All (Contains table.now.rows.now) near.now }
    requires ordered { AreOrdered table.now.rows.now }
    requires places { All (λ row. IsPlace (conditions_among airport.now class (H.held holds.now)) (place_of row)) table.now.rows.now }
    requires known { AreKnown (length airport.now.segments) (free_among airport.now (H.held holds.now)) known.old }
    ensures known { AreKnown (length airport.now.segments) (free_among airport.now (H.held holds.now)) known.new }
    ensures way { IfOk result (λ stretch. stretch.way ≡ reach.way) }
    ensures served { IfOk result (λ stretch. HasEach stretch.way (IsReachedAt (conditions_among airport.now class (H.held holds.now)) stretch arc) table.now.bound table.now.rows.now) }
{
    let segment = arc.segment();
    known.make(airport, holds, segment)?;
    let widest = widest_around(near, reach, arc);
    let short = short_part(widest, table.bound);
    let found = known.found(segment);
    let windows = windows_between(known.of(segment), short.from, short.by, found);
    Ok(stretch_in(
        limits_of(airport, class),
        windows,
        table,
        near,
        widest,
        reach,
        arc,
        seconds,
    ))
}
