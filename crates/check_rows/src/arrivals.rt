//! The rules for the labels of walks that begin as is asked.
ghost use Rattle.std.specs.Prelude.{All, ◌↔◌, IfOk, IsTrue, length};
ghost use Rattle.taxi_base.specs.Walks.{conditions_among, free_among};
ghost use Rattle.walk_labels.specs.Rules.{IsStartBy};
ghost use Rattle.walk_labels.specs.Places.{IsPlace, place_of};
ghost use Rattle.table_rows.specs.declared.reach.Way.TheVariants.{Forward};
ghost use Rattle.table_rows.specs.Rows.{AreOrdered};
ghost use Rattle.check_rows.specs.Known.{AreKnown};
ghost use Rattle.table_rows.specs.HasRows.{HasEach};
ghost use Rattle.check_rows.specs.Rules.{beginning_of, CanCheck, IsTableVerdict};

use crate::places::are_at_places;
use crate::starts::{leaving_have_rows, resuming_have_rows};
use crate::steps::rows_are_closed;
use crate::target::all_fall_short;
use crate::{KnownWindows, RowRule};
use airport_file::Airport;
use held_spans::HoldsOf;
use table_rows::{Table, Way, are_ordered};
use taxi_base::{Class, LabelRow, Memory, Node, Step, Time};

/// How walks begin: at a node within a time, or by going on with a step that was begun, and leaving it not before a time.
#[derive(Clone, Copy)]
pub enum Begin {
    AtNode {
        node: Node,
        earliest: Time,
        latest: Time,
    },
    Resuming {
        begun: Step,
        exit_from: Time,
    },
}

/// Checks a table of the labels of walks that begin so and lead to one of the nodes: the first rule that fails, and none
/// where all hold. Each label is below the bound, if there is one.
pub fn check_arrival<H: HoldsOf>(
    airport: &Airport,
    class: Class,
    holds: &H,
    known: &mut KnownWindows,
    begin: Begin,
    to: &[Node],
    rows: &[LabelRow],
    bound: Option<Time>,
) -> Result<Option<RowRule>, Memory>
    requires begin { CanCheck airport.now begin }
    requires known { AreKnown (length airport.now.segments) (free_among airport.now (H.held holds.now)) known.old }
    ensures known { AreKnown (length airport.now.segments) (free_among airport.now (H.held holds.now)) known.new }
    ensures verdict { IfOk result (IsTableVerdict Forward (conditions_among airport.now class (H.held holds.now)) (IsStartBy (conditions_among airport.now class (H.held holds.now)) (beginning_of begin)) to.now bound rows.now) }
{
    if !are_ordered(rows) {
        return Ok(Some(RowRule::Rows));
    }
    let there = are_at_places(airport, class, holds, known, rows)?;
    if !there {
        return Ok(Some(RowRule::Rows));
    }
    let firsts = known.take_firsts(rows);
    let table = Table {
        rows,
        bound,
        firsts: &firsts,
    };
    let broken = broken_by_places(airport, class, holds, known, &table, begin, to);
    known.put_firsts(firsts);
    broken
}

/// The first rule that fails of a table whose rows are of places, in order.
fn broken_by_places<H: HoldsOf>(
    airport: &Airport,
    class: Class,
    holds: &H,
    known: &mut KnownWindows,
    table: &Table<'_>,
    begin: Begin,
    to: &[Node],
) -> Result<Option<RowRule>, Memory>
    requires begin { CanCheck airport.now begin }
    requires ordered { AreOrdered table.now.rows.now }
    requires places { All (λ row. IsPlace (conditions_among airport.now class (H.held holds.now)) (place_of row)) table.now.rows.now }
    requires known { AreKnown (length airport.now.segments) (free_among airport.now (H.held holds.now)) known.old }
    ensures known { AreKnown (length airport.now.segments) (free_among airport.now (H.held holds.now)) known.new }
    ensures verdict { IfOk result (IsTableVerdict Forward (conditions_among airport.now class (H.held holds.now)) (IsStartBy (conditions_among airport.now class (H.held holds.now)) (beginning_of begin)) to.now table.now.bound table.now.rows.now) }
{
    let begun = starts_have_rows(airport, class, holds, known, table, begin)?;
    if !begun {
        return Ok(Some(RowRule::Start));
    }
    let closed = rows_are_closed(airport, class, holds, known, table, Way::Forward)?;
    if !closed {
        return Ok(Some(RowRule::Step));
    }
    if !all_fall_short(airport, table, Way::Forward, to) {
        return Ok(Some(RowRule::Target));
    }
    Ok(None)
}

fn starts_have_rows<H: HoldsOf>(
    airport: &Airport,
    class: Class,
    holds: &H,
    known: &mut KnownWindows,
    table: &Table<'_>,
    begin: Begin,
) -> Result<bool, Memory>
    requires can { CanCheck airport.now begin }
    requires ordered { AreOrdered table.now.rows.now }
    requires places { All (λ row. IsPlace (conditions_among airport.now class (H.held holds.now)) (place_of row)) table.now.rows.now }
    requires known { AreKnown (length airport.now.segments) (free_among airport.now (H.held holds.now)) known.old }
    ensures known { AreKnown (length airport.now.segments) (free_among airport.now (H.held holds.now)) known.new }
    ensures begun { IfOk result (λ yes. IsTrue yes ↔ HasEach Forward (IsStartBy (conditions_among airport.now class (H.held holds.now)) (beginning_of begin)) table.now.bound table.now.rows.now) }
{
    match begin {
        Begin::AtNode {
            node,
            earliest,
            latest,
        } => leaving_have_rows(airport, class, holds, known, table, node, earliest, latest),
        Begin::Resuming { begun, exit_from } => {
            resuming_have_rows(airport, class, holds, known, table, begun, exit_from)
        }
    }
}
