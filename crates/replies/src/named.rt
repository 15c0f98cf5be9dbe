//! The nodes that the words of a choice name.
ghost use Rattle.std.specs.Prelude.{◌≡◌, not, IfOk};
ghost use Rattle.std.specs.List.{list_any};
ghost use Rattle.taxi_base.specs.Airport.{is_runway, is_stand, is_node_of};
ghost use Rattle.replies.specs.Asked.{nodes_named};

use airport_file::Airport;
use std::alloc::Global;
use taxi_base::{List, Memory, Name, Node};

/// The nodes of some names, in their order; none where a name is no node's.
pub fn nodes_named(
    alloc: Global,
    airport: &Airport,
    names: &[Name],
) -> Result<Option<List<Node>>, Memory>
    ensures { IfOk result (λ nodes. nodes ≡ nodes_named airport.now names.now) }
{
    let mut nodes = List::new(alloc);
    for name in names {
        let Some(node) = airport.node_named(name) else {
            return Ok(None);
        };
        nodes.push(node)?;
    }
    Ok(Some(nodes))
}

/// Whether one of some names is not that of a stand.
pub fn has_no_stand(airport: &Airport, names: &[Name]) -> bool
    ensures { result ≡ list_any (λ name. not (is_node_of is_stand airport.now name)) names.now }
{
    names.iter().any(|name| !airport.has_stand(name))
}

/// Whether one of some names is not that of a runway node.
pub fn has_no_runway(airport: &Airport, names: &[Name]) -> bool
    ensures { result ≡ list_any (λ name. not (is_node_of is_runway airport.now name)) names.now }
{
    names.iter().any(|name| !airport.has_runway(name))
}
