//! Where each class gets to from runway nodes and stands, and from where it gets to them.
ghost use Rattle.std.specs.Prelude.{◌≡◌, ◌<◌, ◌&&◌, ◌↔◌, All, IfOk, length, slice_index_or, IsTrue, false};
ghost use Rattle.std.specs.List.{list_any};
ghost use Rattle.taxi_base.specs.declared.numbers.Node.{Node as NodeNumber};
ghost use Rattle.taxi_base.specs.Airport.{IsWellFormed};
ghost use Rattle.class_ways.specs.Ways.{is_of};
ghost use Rattle.airport_lint.specs.Tables.{AreWays, AreRows};

use airport_file::Airport;
use class_ways::{Course, is_of, nodes_met};
use std::alloc::Global;
use taxi_base::{Class, Kind, Memory, Node};

/// For each class a row with a mark for each node: whether the class can come to it from a runway node, or from a stand, and whether it
/// can come from it to a runway node, or to a stand.
#[derive(Drop)]
pub(crate) struct Ways {
    pub(crate) from_runways: Vec<Vec<bool>>,
    pub(crate) from_stands: Vec<Vec<bool>>,
    pub(crate) to_runways: Vec<Vec<bool>>,
    pub(crate) to_stands: Vec<Vec<bool>>,
}

/// The ways of an airport. Each turn is looked at four times for each class.
pub(crate) fn ways_of(alloc: Global, airport: &Airport) -> Result<Ways, Memory>
    requires { IsWellFormed airport.now }
    ensures { IfOk result (AreWays airport.now) }
{
    let from_runways = rows_of(alloc, airport, Kind::Runway, Course::Onward)?;
    let from_stands = rows_of(alloc, airport, Kind::Stand, Course::Onward)?;
    let to_runways = rows_of(alloc, airport, Kind::Runway, Course::Back)?;
    let to_stands = rows_of(alloc, airport, Kind::Stand, Course::Back)?;
    Ok(Ways {
        from_runways,
        from_stands,
        to_runways,
        to_stands,
    })
}

fn rows_of(
    alloc: Global,
    airport: &Airport,
    kind: Kind,
    course: Course,
) -> Result<Vec<Vec<bool>>, Memory>
    requires { IsWellFormed airport.now }
    ensures { IfOk result (λ rows. AreRows course kind airport.now rows.items) }
{
    let mut rows = Vec::new(alloc);
    for number in 0..airport.classes().count() as u32 {
        let row = nodes_met(alloc, airport, Class(number), kind, course)?;
        rows.push(row)?;
    }
    Ok(rows)
}

/// Whether some row has a mark for a node.
pub(crate) fn has_mark(rows: &[Vec<bool>], node: Node) -> bool
    requires { All (λ row. node.0 < length row.items) rows.now }
    ensures { result ≡ list_any (λ row. slice_index_or row.items node.0 false) rows.now }
{
    for row in rows {
        if row[node.0 as usize] {
            return true;
        }
    }
    false
}

/// Whether a row has a mark for some node of a kind.
pub(crate) fn has_node(airport: &Airport, row: &[bool], kind: Kind) -> bool
    requires { length row.now ≡ length airport.now.nodes }
    ensures { IsTrue result ↔ ((node : NodeNumber) × IsTrue (is_of kind airport.now node) × IsTrue (slice_index_or row.now node.0 false)) }
{
    for number in 0..airport.graph().nodes() as u32 {
        if is_marked(airport, row, kind, Node(number)) {
            return true;
        }
    }
    false
}

fn is_marked(airport: &Airport, row: &[bool], kind: Kind, node: Node) -> bool
    requires wide { length row.now ≡ length airport.now.nodes }
    requires node { node.0 < length airport.now.nodes }
    ensures { result ≡ (slice_index_or row.now node.0 false && is_of kind airport.now node) }
{
    row[node.0 as usize] && is_of(airport, kind, node)
}
