//! Whether nodes and arcs are odd.
ghost use Rattle.std.specs.Prelude.{◌≡◌, ◌<◌, ◌&&◌, ◌↔◌, not, length, IsTrue};
ghost use Rattle.taxi_base.specs.Airport.{IsWellFormed};
ghost use Rattle.airport_lint.specs.declared.advice.Advice.TheVariants as advice;
ghost use Rattle.airport_lint.specs.Advice.{IsSo};
ghost use Rattle.airport_lint.specs.Tables.{AreWays};

use crate::seconds::{is_shared, is_shared_with_any};
use crate::ways::{Ways, has_mark};
use airport_file::Airport;
use class_ways::is_of;
use taxi_base::{Arc, Kind, Node};

/// Whether no class comes from a runway node to a stand, or from a runway node to any stand.
pub(crate) fn has_no_arrival(airport: &Airport, ways: &Ways, node: Node) -> bool
    requires node { node.0 < length airport.now.nodes }
    requires ways { AreWays airport.now ways.now }
    ensures { IsTrue result ↔ IsSo airport.now (advice.NodeNoArrival node) }
{
    match airport.kind(node) {
        Kind::Stand => !has_mark(ways.from_runways.as_slice(), node),
        Kind::Runway => !has_mark(ways.to_stands.as_slice(), node),
        Kind::Junction => false,
    }
}

/// Whether no class comes from a stand to a runway node, or from a stand to any runway node.
pub(crate) fn has_no_departure(airport: &Airport, ways: &Ways, node: Node) -> bool
    requires node { node.0 < length airport.now.nodes }
    requires ways { AreWays airport.now ways.now }
    ensures { IsTrue result ↔ IsSo airport.now (advice.NodeNoDeparture node) }
{
    match airport.kind(node) {
        Kind::Stand => !has_mark(ways.to_runways.as_slice(), node),
        Kind::Runway => !has_mark(ways.from_stands.as_slice(), node),
        Kind::Junction => false,
    }
}

/// Whether no class comes to a junction.
pub(crate) fn is_unused(airport: &Airport, ways: &Ways, node: Node) -> bool
    requires node { node.0 < length airport.now.nodes }
    requires ways { AreWays airport.now ways.now }
    ensures { IsTrue result ↔ IsSo airport.now (advice.NodeUnused node) }
{
    match airport.kind(node) {
        Kind::Junction => {
            let from_runways = has_mark(ways.from_runways.as_slice(), node);
            let from_stands = has_mark(ways.from_stands.as_slice(), node);
            is_neither(from_runways, from_stands)
        }
        Kind::Runway | Kind::Stand => false,
    }
}

/// Whether a class comes to a junction by an arc, from where no such class goes on.
pub(crate) fn is_dead_end(airport: &Airport, arc: Arc) -> bool
    requires { IsWellFormed airport.now }
    ensures { IsTrue result ↔ IsSo airport.now (advice.DeadEnd arc) }
{
    if !airport.graph().exists(arc) {
        return false;
    }
    let here = arc.segment();
    let head = airport.graph().head(arc);
    let next = airport.graph().next(arc);
    let used = is_shared(airport, here, here);
    let junction = is_of(airport, Kind::Junction, head);
    let onward = is_shared_with_any(airport, here, next);
    comes_and_stops(used, junction, onward)
}

fn is_neither(one: bool, other: bool) -> bool
    ensures { result ≡ (not one && not other) }
{
    !one && !other
}

fn comes_and_stops(used: bool, junction: bool, onward: bool) -> bool
    ensures { result ≡ (used && (junction && not onward)) }
{
    used && (junction && !onward)
}
