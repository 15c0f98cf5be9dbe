//! Which way turns are taken, and the ends of an arc as seen on the way.
ghost use Rattle.std.specs.Prelude.{◌≡◌, ◌<◌, Some, length, IsTrue};
ghost use Rattle.taxi_base.specs.Airport.{arc_exists};
ghost use Rattle.segment_graph.specs.Graphs.{AreArcs};
ghost use Rattle.class_ways.specs.Ways.{is_of};
ghost use Rattle.class_ways.specs.Courses.{turns, near, far};

use airport_file::Airport;
use segment_graph::Graph;
use taxi_base::{Arc, Kind, Node};

/// Which way turns are taken: onward from an arc to the next, or back to the one before.
#[derive(Clone, Copy, Debug, PartialEq, Eq)]
pub enum Course {
    Onward,
    Back,
}

/// Whether a node is of a kind.
pub fn is_of(airport: &Airport, kind: Kind, node: Node) -> bool
    requires { node.0 < length airport.now.nodes }
    ensures { result ≡ is_of kind airport.now node }
{
    match kind {
        Kind::Runway => airport.is_runway(node),
        Kind::Stand => airport.is_stand(node),
        Kind::Junction => matches!(airport.kind(node), Kind::Junction),
    }
}

/// The node of an arc that is met first on the course.
pub(crate) fn near(graph: &Graph, course: Course, arc: Arc) -> Node
    requires { IsTrue (arc_exists graph.now arc) }
    ensures node { Some result ≡ near course graph.now arc }
    ensures exists { result.0 < graph.now.nodes }
{
    match course {
        Course::Onward => graph.tail(arc),
        Course::Back => graph.head(arc),
    }
}

/// The arcs that may follow an arc on the course.
pub(crate) fn turns(graph: &Graph, course: Course, arc: Arc) -> &[Arc]
    requires { IsTrue (arc_exists graph.now arc) }
    ensures { AreArcs (λ next. IsTrue (turns course graph.now arc next)) result.now }
{
    match course {
        Course::Onward => graph.next(arc),
        Course::Back => graph.previous(arc),
    }
}

/// The arcs on which the course comes to a node.
pub(crate) fn coming_to(graph: &Graph, course: Course, node: Node) -> &[Arc]
    requires { node.0 < graph.now.nodes }
    ensures { AreArcs (λ arc. far course graph.now arc ≡ Some node) result.now }
{
    match course {
        Course::Onward => graph.entering(node),
        Course::Back => graph.leaving(node),
    }
}
