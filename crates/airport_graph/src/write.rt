//! The lines of the graph, in their order.
ghost use Rattle.std.specs.Prelude.{◌≡◌, ◌++◌, ◌<◌, ◌≤◌, IfOk, IfSome, OnOk, flat_map, length, slice_get};
ghost use Rattle.taxi_base.specs.Airport.{IsWellFormed};
ghost use Rattle.airport_graph.specs.Graph.{graph_text, shape_word, node_line, segment_line, segment_lines};

use crate::edge::{edge_of, write_edge};
use crate::pieces::push_pieces;
use airport_file::Airport;
use std::alloc::Global;
use taxi_base::{Kind, Memory, Node, Segment};
use taxi_text::push_bytes;

/// The airport as a graph in DOT: its nodes by number, and then its segments. The only error is that memory ran out.
pub fn write_graph(alloc: Global, airport: &Airport) -> Result<Vec<u8>, Memory>
    ensures { IfOk result (λ text. text.items ≡ graph_text airport.now) }
{
    // The airport keeps its rules, so its classes are few.
    let _horizon = airport.horizon();
    let mut out = Vec::new(alloc);
    push_bytes(&mut out, b"digraph airport {\n")?;
    write_nodes(&mut out, airport)?;
    write_segments(&mut out, airport)?;
    push_bytes(&mut out, b"}\n")?;
    Ok(out)
}

fn write_nodes(out: &mut Vec<u8>, airport: &Airport) -> Result<(), Memory>
    ensures { OnOk result (out.new.items ≡ out.old.items ++ flat_map node_line airport.now.nodes) }
{
    for number in 0..airport.graph().nodes() as u32 {
        write_node(out, airport, Node(number))?;
    }
    Ok(())
}

fn write_node(out: &mut Vec<u8>, airport: &Airport, node: Node) -> Result<(), Memory>
    requires { node.0 < length airport.now.nodes }
    ensures { IfSome (slice_get airport.now.nodes node.0) (λ row. OnOk result (out.new.items ≡ out.old.items ++ node_line row)) }
{
    let name = airport.node_name(node);
    let shape = shape_word(airport.kind(node));
    push_pieces(
        out,
        &[
            b"\"".as_slice(),
            name.bytes(),
            b"\" [shape=".as_slice(),
            shape,
            b"];\n".as_slice(),
        ],
    )
}

fn shape_word(kind: Kind) -> &'static [u8]
    ensures { result.now ≡ shape_word kind }
{
    match kind {
        Kind::Runway => b"box",
        Kind::Junction => b"circle",
        Kind::Stand => b"house",
    }
}

fn write_segments(out: &mut Vec<u8>, airport: &Airport) -> Result<(), Memory>
    requires { IsWellFormed airport.now }
    ensures { OnOk result (out.new.items ≡ out.old.items ++ segment_lines airport.now 0 airport.now.segments) }
{
    for number in 0..airport.graph().segments() as u32 {
        write_segment(out, airport, Segment(number))?;
    }
    Ok(())
}

fn write_segment(out: &mut Vec<u8>, airport: &Airport, segment: Segment) -> Result<(), Memory>
    requires number { segment.0 < length airport.now.segments }
    requires few { segment.0 < 10000 }
    requires rules { IsWellFormed airport.now }
    ensures { IfSome (slice_get airport.now.segments segment.0) (λ row. OnOk result (out.new.items ≡ out.old.items ++ segment_line airport.now segment row)) }
{
    let edge = edge_of(airport, segment);
    write_edge(out, &edge)
}
