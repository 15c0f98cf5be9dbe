//! Rule `step`: whether each label that comes of a row has a row.
ghost use Rattle.std.specs.Prelude.{◌≡◌, ◌↔◌, ℕ, Bool, All, IfOk, IsTrue, length};
ghost use Rattle.taxi_base.specs.declared.numbers.Segment.{Segment};
ghost use Rattle.taxi_base.specs.Airport.{layout_of, arc_exists};
ghost use Rattle.taxi_base.specs.Walks.{conditions_among, free_among};
ghost use Rattle.walk_labels.specs.Places.{IsPlace, place_of};
ghost use Rattle.table_rows.specs.Rows.{AreOrdered};
ghost use Rattle.check_rows.specs.Known.{AreKnown};
ghost use Rattle.table_rows.specs.HasRows.{HasEach};
ghost use Rattle.check_rows.specs.Rules.{ComesOf, AreClosed};
ghost use Rattle.check_rows.specs.Comes.{conditions_at, reach_of, AreNeighbours};
ghost use Rattle.table_rows.specs.Served.{AreServed};

use crate::KnownWindows;
use crate::limits::limits_of;
use crate::stretches::arcs_are_served;
use airport_file::Airport;
use held_spans::HoldsOf;
use segment_graph::Graph;
use table_rows::{Reach, Served, Table, Way, last_in, window_of};
use taxi_base::{Arc, Class, LabelRow, Memory};

/// Whether each label that comes of a row, if short of the bound, has a row that is at least as good.
pub fn rows_are_closed<H: HoldsOf>(
    airport: &Airport,
    class: Class,
    holds: &H,
    known: &mut KnownWindows,
    table: &Table<'_>,
    way: Way,
) -> Result<bool, Memory>
    requires exist { All (λ row. IsTrue (arc_exists (layout_of airport.now) row.arc)) table.now.rows.now }
    requires ordered { AreOrdered table.now.rows.now }
    requires places { All (λ row. IsPlace (conditions_among airport.now class (H.held holds.now)) (place_of row)) table.now.rows.now }
    requires known { AreKnown (length airport.now.segments) (free_among airport.now (H.held holds.now)) known.old }
    ensures known { AreKnown (length airport.now.segments) (free_among airport.now (H.held holds.now)) known.new }
    ensures closed { IfOk result (λ yes. IsTrue yes ↔ AreClosed way (conditions_among airport.now class (H.held holds.now)) table.now.bound table.now.rows.now) }
{
    let mut served = known.take_served();
    let closed = rows_are_served(airport, class, holds, known, &mut served, table, way);
    known.put_served(served);
    closed
}

/// The same, with what is known of the arcs so far.
fn rows_are_served<H: HoldsOf>(
    airport: &Airport,
    class: Class,
    holds: &H,
    known: &mut KnownWindows,
    served: &mut Served,
    table: &Table<'_>,
    way: Way,
) -> Result<bool, Memory>
    requires exist { All (λ row. IsTrue (arc_exists (layout_of airport.now) row.arc)) table.now.rows.now }
    requires ordered { AreOrdered table.now.rows.now }
    requires places { All (λ row. IsPlace (conditions_among airport.now class (H.held holds.now)) (place_of row)) table.now.rows.now }
    requires known { AreKnown (length airport.now.segments) (free_among airport.now (H.held holds.now)) known.old }
    requires served { AreServed way (conditions_among airport.now class (H.held holds.now)) table.now.bound table.now.rows.now served.old }
    ensures known { AreKnown (length airport.now.segments) (free_among airport.now (H.held holds.now)) known.new }
    ensures closed { IfOk result (λ yes. IsTrue yes ↔ AreClosed way (conditions_among airport.now class (H.held holds.now)) table.now.bound table.now.rows.now) }
{
    for row in table.rows {
        let closed = labels_of_row_have_rows(
            airport, class, holds, known, served, table, way, *row,
        )?;
        if !closed {
            return Ok(false);
        }
    }
    Ok(true)
}

fn labels_of_row_have_rows<H: HoldsOf>(
    airport: &Airport,
    class: Class,
    holds: &H,
    known: &mut KnownWindows,
    served: &mut Served,
    table: &Table<'_>,
    way: Way,
    row: LabelRow,
) -> Result<bool, Memory>
    requires exists { IsTrue (arc_exists (layout_of airport.now) row.arc) }
    requires ordered { AreOrdered table.now.rows.now }
    requires places { All (λ row. IsPlace (conditions_among airport.now class (H.held holds.now)) (place_of row)) table.now.rows.now }
    requires known { AreKnown (length airport.now.segments) (free_among airport.now (H.held holds.now)) known.old }
    requires served { AreServed way (conditions_among airport.now class (H.held holds.now)) table.now.bound table.now.rows.now served.old }
    ensures known { AreKnown (length airport.now.segments) (free_among airport.now (H.held holds.now)) known.new }
    ensures served { AreServed way (conditions_among airport.now class (H.held holds.now)) table.now.bound table.now.rows.now served.new }
    ensures closed { IfOk result (λ yes. IsTrue yes ↔ HasEach way (ComesOf way (conditions_among airport.now class (H.held holds.now)) row) table.now.bound table.now.rows.now) }
{
    let reach = reach_of(airport, class, way, row);
    let arcs = neighbours(airport.graph(), way, row.arc);
    let closed = arcs_are_served(airport, class, holds, known, served, table, reach, arcs)?;
    Ok(closed)
}

/// When the arcs around a row's are to be reached.
fn reach_of(airport: &Airport, class: Class, way: Way, row: LabelRow) -> Reach
    ensures { (free : Segment → ℕ → Bool) → result ≡ reach_of way (conditions_at airport.now class free) row }
{
    match way {
        Way::Forward => Reach {
            way,
            from: row.value,
            by: last_in(limits_of(airport, class), window_of(row)),
        },
        Way::Backward => Reach {
            way,
            from: row.from,
            by: row.value,
        },
    }
}

/// The arcs to which a turn is permitted, going on, and those from which one is, going back.
fn neighbours(graph: &Graph, way: Way, arc: Arc) -> &[Arc]
    requires { IsTrue (arc_exists graph.now arc) }
    ensures { AreNeighbours way graph.now arc result.now }
{
    match way {
        Way::Forward => graph.next(arc),
        Way::Backward => graph.previous(arc),
    }
}
