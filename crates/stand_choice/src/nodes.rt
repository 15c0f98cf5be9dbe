//! Nodes by their names, and the node that a route reaches.
ghost use Rattle.std.specs.Prelude.{◌≡◌, ◌<◌, length, IsTrue, IfOk};
ghost use Rattle.taxi_base.specs.Airport.{layout_of, arc_exists};
ghost use Rattle.taxi_base.specs.Walks.{AtLast, ReachesNode};
ghost use Rattle.stand_choice.specs.Ways.{AreNodes, nodes_before};

use airport_file::Airport;
use std::alloc::Global;
use taxi_base::{Memory, Node, Step};

/// The nodes whose names come before a node's, by their bytes.
pub(crate) fn named_before(
    alloc: Global,
    airport: &Airport,
    nodes: &[Node],
    node: Node,
) -> Result<Vec<Node>, Memory>
    requires nodes { AreNodes airport.now nodes.now }
    requires node { node.0 < length airport.now.nodes }
    ensures { IfOk result (λ before. before.items ≡ nodes_before airport.now node nodes.now) }
{
    let name = airport.node_name(node);
    let mut before = Vec::new(alloc);
    for other in nodes {
        if airport.node_name(*other) < name {
            before.push(*other)?;
        }
    }
    Ok(before)
}

/// The node that the last step of a route reaches.
pub(crate) fn node_at_end(airport: &Airport, steps: &[Step]) -> Node
    requires { AtLast (λ s. IsTrue (arc_exists (layout_of airport.now) s.arc)) steps.now }
    ensures reached { AtLast (ReachesNode (layout_of airport.now) result) steps.now }
    ensures exists { result.0 < length airport.now.nodes }
{
    airport.graph().head(steps[steps.len() - 1].arc)
}
