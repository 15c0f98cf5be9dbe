//! Rule `target`: whether each row falls short.
ghost use Rattle.std.specs.Prelude.{◌≡◌, ◌↔◌, ℕ, Bool, Some, All, IsTrue};
ghost use Rattle.taxi_base.specs.declared.numbers.Segment.{Segment};
ghost use Rattle.taxi_base.specs.declared.numbers.Class.{Class};
ghost use Rattle.taxi_base.specs.Airport.{layout_of, arc_exists};
ghost use Rattle.taxi_base.specs.Choices.{OneOf};
ghost use Rattle.check_rows.specs.Rules.{FallShort, far_end};
ghost use Rattle.check_rows.specs.Comes.{conditions_at, FallsShort};

use airport_file::Airport;
use segment_graph::Graph;
use table_rows::{Table, Way};
use taxi_base::{Arc, LabelRow, Node};

/// Whether no row leads to one of the nodes, and each is short of the bound.
pub fn all_fall_short(airport: &Airport, table: &Table<'_>, way: Way, nodes: &[Node]) -> bool
    requires { All (λ row. IsTrue (arc_exists (layout_of airport.now) row.arc)) table.now.rows.now }
    ensures { (class : Class) (free : Segment → ℕ → Bool) → IsTrue result ↔ FallShort way (conditions_at airport.now class free) nodes.now table.now.bound table.now.rows.now }
{
    for row in table.rows {
        if !falls_short(airport, table, way, nodes, *row) {
            return false;
        }
    }
    true
}

fn falls_short(
    airport: &Airport,
    table: &Table<'_>,
    way: Way,
    nodes: &[Node],
    row: LabelRow,
) -> bool
    requires { IsTrue (arc_exists (layout_of airport.now) row.arc) }
    ensures { (class : Class) (free : Segment → ℕ → Bool) → IsTrue result ↔ FallsShort way (conditions_at airport.now class free) nodes.now table.now.bound row }
{
    !leads_to_one(airport.graph(), way, nodes, row.arc) && table.is_short(way, row.value)
}

fn leads_to_one(graph: &Graph, way: Way, nodes: &[Node], arc: Arc) -> bool
    requires { IsTrue (arc_exists graph.now arc) }
    ensures { IsTrue result ↔ OneOf (λ node. far_end way graph.now arc ≡ Some node) nodes.now }
{
    nodes.contains(&far_end(graph, way, arc))
}

/// The end of an arc to which a way leads.
fn far_end(graph: &Graph, way: Way, arc: Arc) -> Node
    requires { IsTrue (arc_exists graph.now arc) }
    ensures { far_end way graph.now arc ≡ Some result }
{
    match way {
        Way::Forward => graph.head(arc),
        Way::Backward => graph.tail(arc),
    }
}
