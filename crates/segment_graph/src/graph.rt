//! A graph of taxiway segments.
ghost use Rattle.std.specs.Prelude.{◌≡◌, ◌+◌, ◌<◌, ◌≤◌, Some, length, IsTrue, IfOk};
ghost use Rattle.taxi_base.specs.Airport.{Layout, arc_exists, head, tail, permits};
ghost use Rattle.segment_graph.specs.Layouts.{IsLaidOut};
ghost use Rattle.segment_graph.specs.Graphs.{AreLeaving, AreEntering, AreNext, ArePrevious};

use crate::links::{Link, Side, head_in, tail_in};
use crate::tables::{barred_turns, next_rows, previous_rows, rows_by_end};
use packed_rows::PackedRows;
use std::marker::Model;
use taxi_base::{Arc, Memory, Node};

/// Nodes, arcs and permitted turns, each found in constant time.
#[derive(Drop)]
pub struct Graph {
    nodes: u32,
    links: Vec<Link>,
    forbidden: Vec<(Arc, Arc)>,
    leaving: PackedRows<Arc>,
    entering: PackedRows<Arc>,
    next: PackedRows<Arc>,
    previous: PackedRows<Arc>,
}

impl Model for Graph {
    ghost use Rattle.taxi_base.specs.Airport.{Layout};
    ghost use Rattle.segment_graph.specs.Graphs.{AreTables};

    ghost Value = { Layout };

    ghost view = { λ g. record { nodes = g.nodes; links = g.links.items; forbidden = g.forbidden.items } };

    ghost invariant = { λ g. AreTables (record { nodes = g.nodes; links = g.links.items; forbidden = g.forbidden.items }) g.leaving g.entering g.next g.previous };
}

impl Graph {
    /// The graph of these nodes and segments.
    pub(crate) fn build(
        nodes: u32,
        links: Vec<Link>,
        forbidden: Vec<(Arc, Arc)>,
    ) -> Result<Graph, Memory>
        requires { IsLaidOut (record { nodes = nodes; links = links.items; forbidden = forbidden.items }) }
        ensures { IfOk result (λ graph. graph ≡ record { nodes = nodes; links = links.items; forbidden = forbidden.items }) }
    {
        let alloc = *links.allocator();
        let leaving = rows_by_end(alloc, nodes as usize, &links, Side::Tail)?;
        let entering = rows_by_end(alloc, nodes as usize, &links, Side::Head)?;
        let barred = barred_turns(alloc, 2 * links.len(), &forbidden)?;
        let next = next_rows(alloc, &links, &barred, &leaving)?;
        let previous = previous_rows(alloc, &links, &barred, &entering)?;
        Ok(Graph {
            nodes,
            links,
            forbidden,
            leaving,
            entering,
            next,
            previous,
        })
    }

    /// How many nodes there are.
    pub fn nodes(&self) -> usize
        ensures count { result ≡ self.now.nodes }
        ensures few { self.now.nodes ≤ 10000 }
    {
        self.nodes as usize
    }

    /// How many segments there are.
    pub fn segments(&self) -> usize
        ensures count { result ≡ length self.now.links }
        ensures few { length self.now.links ≤ 10000 }
    {
        self.links.len()
    }

    /// The forbidden turns, in the order in which they were given.
    pub fn forbidden(&self) -> &[(Arc, Arc)]
        ensures { result.now ≡ self.now.forbidden }
    {
        self.forbidden.as_slice()
    }

    /// Whether there is an arc with this number.
    pub fn exists(&self, arc: Arc) -> bool
        ensures { result ≡ arc_exists self.now arc }
    {
        tail_in(&self.links, arc).is_some()
    }

    /// The node where an arc begins.
    pub fn tail(&self, arc: Arc) -> Node
        requires { IsTrue (arc_exists self.now arc) }
        ensures tail { Some result ≡ tail self.now arc }
        ensures exists { result.0 < self.now.nodes }
    {
        tail_in(&self.links, arc).unwrap()
    }

    /// The node where an arc ends.
    pub fn head(&self, arc: Arc) -> Node
        requires { IsTrue (arc_exists self.now arc) }
        ensures head { Some result ≡ head self.now arc }
        ensures exists { result.0 < self.now.nodes }
    {
        head_in(&self.links, arc).unwrap()
    }

    /// The arcs that begin at a node, in order of number.
    pub fn leaving(&self, node: Node) -> &[Arc]
        requires { node.0 < self.now.nodes }
        ensures { AreLeaving self.now node result.now }
    {
        self.leaving.row(node.0 as usize)
    }

    /// The arcs that end at a node, in order of number.
    pub fn entering(&self, node: Node) -> &[Arc]
        requires { node.0 < self.now.nodes }
        ensures { AreEntering self.now node result.now }
    {
        self.entering.row(node.0 as usize)
    }

    /// The arcs to which a turn from this one is permitted, in order of number.
    pub fn next(&self, arc: Arc) -> &[Arc]
        requires { IsTrue (arc_exists self.now arc) }
        ensures { AreNext self.now arc result.now }
    {
        self.next.row(arc.0 as usize)
    }

    /// The arcs from which a turn to this one is permitted, in order of number.
    pub fn previous(&self, arc: Arc) -> &[Arc]
        requires { IsTrue (arc_exists self.now arc) }
        ensures { ArePrevious self.now arc result.now }
    {
        self.previous.row(arc.0 as usize)
    }

    /// Whether a turn from one arc to another is permitted. Both may be any number.
    pub fn permits(&self, x: Arc, y: Arc) -> bool
        ensures { result ≡ permits self.now x y }
    {
        self.exists(x) && self.next(x).binary_search(&y).is_ok()
    }
}
