//! The rules for the labels of walks that end as is asked.
ghost use Rattle.std.specs.Prelude.{◌<◌, [], ◌∷◌, All, IfOk, length};
ghost use Rattle.taxi_base.specs.Walks.{conditions_among, free_among};
ghost use Rattle.walk_labels.specs.BackwardRules.{IsFinishAt};
ghost use Rattle.walk_labels.specs.Places.{IsPlace, place_of};
ghost use Rattle.table_rows.specs.Rows.{AreOrdered};
ghost use Rattle.table_rows.specs.declared.reach.Way.TheVariants.{Backward};
ghost use Rattle.check_rows.specs.Known.{AreKnown};
ghost use Rattle.check_rows.specs.Rules.{IsTableVerdict};

use crate::places::are_at_places;
use crate::starts::entering_have_rows;
use crate::steps::rows_are_closed;
use crate::target::all_fall_short;
use crate::{KnownWindows, RowRule};
use airport_file::Airport;
use held_spans::HoldsOf;
use table_rows::{Table, Way, are_ordered};
use taxi_base::{Class, LabelRow, Memory, Node, Time};

/// How walks end: at one of some nodes within a time.
#[derive(Clone, Copy)]
pub struct End<'a> {
    pub nodes: &'a [Node],
    pub earliest: Time,
    pub latest: Time,
}

/// Checks a table of the labels of walks that lead from a node and end at one of some nodes within a time: the first rule
/// that fails, and none where all hold. Each label is above the bound, if there is one.
pub fn check_departure<H: HoldsOf>(
    airport: &Airport,
    class: Class,
    holds: &H,
    known: &mut KnownWindows,
    from: Node,
    end: &End<'_>,
    rows: &[LabelRow],
    bound: Option<Time>,
) -> Result<Option<RowRule>, Memory>
    requires nodes { All (λ node. node.0 < length airport.now.nodes) end.now.nodes.now }
    requires known { AreKnown (length airport.now.segments) (free_among airport.now (H.held holds.now)) known.old }
    ensures known { AreKnown (length airport.now.segments) (free_among airport.now (H.held holds.now)) known.new }
    ensures verdict { IfOk result (IsTableVerdict Backward (conditions_among airport.now class (H.held holds.now)) (IsFinishAt (conditions_among airport.now class (H.held holds.now)) end.now.nodes.now end.now.earliest end.now.latest) (from ∷ []) bound rows.now) }
{
    if !are_ordered(rows) {
        return Ok(Some(RowRule::Rows));
    }
    let there = are_at_places(airport, class, holds, known, rows)?;
    if !there {
        return Ok(Some(RowRule::Rows));
    }
    let firsts = known.take_firsts(rows);
    let table = Table {
        rows,
        bound,
        firsts: &firsts,
    };
    let broken = broken_by_places(airport, class, holds, known, &table, from, end);
    known.put_firsts(firsts);
    broken
}

/// The first rule that fails of a table whose rows are of places, in order.
fn broken_by_places<H: HoldsOf>(
    airport: &Airport,
    class: Class,
    holds: &H,
    known: &mut KnownWindows,
    table: &Table<'_>,
    from: Node,
    end: &End<'_>,
) -> Result<Option<RowRule>, Memory>
    requires nodes { All (λ node. node.0 < length airport.now.nodes) end.now.nodes.now }
    requires ordered { AreOrdered table.now.rows.now }
    requires places { All (λ row. IsPlace (conditions_among airport.now class (H.held holds.now)) (place_of row)) table.now.rows.now }
    requires known { AreKnown (length airport.now.segments) (free_among airport.now (H.held holds.now)) known.old }
    ensures known { AreKnown (length airport.now.segments) (free_among airport.now (H.held holds.now)) known.new }
    ensures verdict { IfOk result (IsTableVerdict Backward (conditions_among airport.now class (H.held holds.now)) (IsFinishAt (conditions_among airport.now class (H.held holds.now)) end.now.nodes.now end.now.earliest end.now.latest) (from ∷ []) table.now.bound table.now.rows.now) }
{
    let ended = entering_have_rows(
        airport,
        class,
        holds,
        known,
        table,
        end.nodes,
        end.earliest,
        end.latest,
    )?;
    if !ended {
        return Ok(Some(RowRule::Start));
    }
    let closed = rows_are_closed(airport, class, holds, known, table, Way::Backward)?;
    if !closed {
        return Ok(Some(RowRule::Step));
    }
    if !all_fall_short(airport, table, Way::Backward, &[from]) {
        return Ok(Some(RowRule::Target));
    }
    Ok(None)
}
