//! Rule `start`: whether each label that comes of no other has a row.
ghost use Rattle.std.specs.Prelude.{◌≡◌, ◌↔◌, ◌<◌, ◌≤◌, ℕ, Bool, All, IfOk, IsTrue, length};
ghost use Rattle.taxi_base.specs.declared.numbers.Segment.{Segment};
ghost use Rattle.taxi_base.specs.declared.numbers.Class.{Class};
ghost use Rattle.taxi_base.specs.Airport.{layout_of, arc_exists, segment_of};
ghost use Rattle.taxi_base.specs.Windows.{AreWindows};
ghost use Rattle.taxi_base.specs.Walks.{conditions_among, free_among};
ghost use Rattle.walk_labels.specs.Rules.{IsStartAtNode, IsStartResuming};
ghost use Rattle.walk_labels.specs.BackwardRules.{IsFinishAt};
ghost use Rattle.walk_labels.specs.Places.{IsPlace, place_of};
ghost use Rattle.table_rows.specs.declared.reach.Way.TheVariants.{Forward, Backward};
ghost use Rattle.table_rows.specs.Rows.{AreOrdered};
ghost use Rattle.check_rows.specs.Known.{AreKnown};
ghost use Rattle.table_rows.specs.HasRows.{HasEach};
ghost use Rattle.check_rows.specs.Comes.{conditions_at};

use crate::KnownWindows;
use crate::closed::arcs_have_rows;
use crate::limits::limits_of;
use airport_file::Airport;
use held_spans::HoldsOf;
use table_rows::{Reach, Table, Way, later, windows_around_have_rows};
use taxi_base::{Class, Memory, Node, Span, Step, Time};

/// Whether each label by which a walk leaves a node has a row, where it leaves from a second on and by another.
pub fn leaving_have_rows<H: HoldsOf>(
    airport: &Airport,
    class: Class,
    holds: &H,
    known: &mut KnownWindows,
    table: &Table<'_>,
    node: Node,
    from: Time,
    by: Time,
) -> Result<bool, Memory>
    requires node { node.0 < length airport.now.nodes }
    requires ordered { AreOrdered table.now.rows.now }
    requires places { All (λ row. IsPlace (conditions_among airport.now class (H.held holds.now)) (place_of row)) table.now.rows.now }
    requires known { AreKnown (length airport.now.segments) (free_among airport.now (H.held holds.now)) known.old }
    ensures known { AreKnown (length airport.now.segments) (free_among airport.now (H.held holds.now)) known.new }
    ensures begun { IfOk result (λ yes. IsTrue yes ↔ HasEach Forward (IsStartAtNode (conditions_among airport.now class (H.held holds.now)) node from by) table.now.bound table.now.rows.now) }
{
    let reach = Reach {
        way: Way::Forward,
        from,
        by,
    };
    let arcs = airport.graph().leaving(node);
    let begun = arcs_have_rows(airport, class, holds, known, table, reach, arcs)?;
    Ok(begun)
}

/// Whether each label by which a walk ends at one of the nodes has a row, where it ends from a second on and by another.
pub fn entering_have_rows<H: HoldsOf>(
    airport: &Airport,
    class: Class,
    holds: &H,
    known: &mut KnownWindows,
    table: &Table<'_>,
    nodes: &[Node],
    from: Time,
    by: Time,
) -> Result<bool, Memory>
    requires nodes { All (λ node. node.0 < length airport.now.nodes) nodes.now }
    requires ordered { AreOrdered table.now.rows.now }
    requires places { All (λ row. IsPlace (conditions_among airport.now class (H.held holds.now)) (place_of row)) table.now.rows.now }
    requires known { AreKnown (length airport.now.segments) (free_among airport.now (H.held holds.now)) known.old }
    ensures known { AreKnown (length airport.now.segments) (free_among airport.now (H.held holds.now)) known.new }
    ensures begun { IfOk result (λ yes. IsTrue yes ↔ HasEach Backward (IsFinishAt (conditions_among airport.now class (H.held holds.now)) nodes.now from by) table.now.bound table.now.rows.now) }
{
    let reach = Reach {
        way: Way::Backward,
        from,
        by,
    };
    for node in nodes {
        let arcs = airport.graph().entering(*node);
        let begun = arcs_have_rows(airport, class, holds, known, table, reach, arcs)?;
        if !begun {
            return Ok(false);
        }
    }
    Ok(true)
}

/// Whether the label at which a step that was begun may be left, not before a time, has a row.
pub fn resuming_have_rows<H: HoldsOf>(
    airport: &Airport,
    class: Class,
    holds: &H,
    known: &mut KnownWindows,
    table: &Table<'_>,
    begun: Step,
    exit_from: Time,
) -> Result<bool, Memory>
    requires enter { begun.enter ≤ 9999999 }
    requires ordered { AreOrdered table.now.rows.now }
    requires known { AreKnown (length airport.now.segments) (free_among airport.now (H.held holds.now)) known.old }
    ensures known { AreKnown (length airport.now.segments) (free_among airport.now (H.held holds.now)) known.new }
    ensures begun { IfOk result (λ yes. IsTrue yes ↔ HasEach Forward (IsStartResuming (conditions_among airport.now class (H.held holds.now)) begun exit_from) table.now.bound table.now.rows.now) }
{
    if !airport.graph().exists(begun.arc) {
        return Ok(true);
    }
    let segment = begun.arc.segment();
    known.make(airport, holds, segment)?;
    let windows = known.of(segment);
    Ok(begun_has_row(airport, class, windows, table, begun, exit_from))
}

fn begun_has_row(
    airport: &Airport,
    class: Class,
    windows: &[Span],
    table: &Table<'_>,
    begun: Step,
    exit_from: Time,
) -> bool
    requires exists { IsTrue (arc_exists (layout_of airport.now) begun.arc) }
    requires enter { begun.enter ≤ 9999999 }
    requires ordered { AreOrdered table.now.rows.now }
    ensures { (free : Segment → ℕ → Bool) → AreWindows (free (segment_of begun.arc)) windows.now → IsTrue result ↔ HasEach Forward (IsStartResuming (conditions_at airport.now class free) begun exit_from) table.now.bound table.now.rows.now }
{
    match airport.classes().seconds(class, begun.arc.segment()) {
        Some(seconds) => {
            let value = later(exit_from, begun.enter + seconds);
            windows_around_have_rows(limits_of(airport, class), windows, table, begun, value)
        }
        None => true,
    }
}
