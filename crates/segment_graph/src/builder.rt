//! A graph in the making.
ghost use Rattle.std.specs.Prelude.{◌≡◌, ◌+◌, ◌<◌, ◌≤◌, ◌++◌, ◌∷◌, [], length, IsTrue, IfOk, OnOk, OnErr};
ghost use Rattle.taxi_base.specs.Airport.{Layout, arc_exists, link_ends};

use crate::graph::Graph;
use crate::links::Link;
use std::alloc::Global;
use std::marker::Model;
use taxi_base::{Arc, Memory, Node, Segment};

/// Nodes, segments and forbidden turns, in the order in which they were added.
#[derive(Drop)]
pub struct GraphBuilder {
    nodes: u32,
    links: Vec<Link>,
    forbidden: Vec<(Arc, Arc)>,
}

impl Model for GraphBuilder {
    ghost use Rattle.taxi_base.specs.Airport.{Layout};
    ghost use Rattle.segment_graph.specs.Layouts.{IsLaidOut};

    ghost Value = { Layout };

    ghost view = { λ b. record { nodes = b.nodes; links = b.links.items; forbidden = b.forbidden.items } };

    ghost invariant = { λ b. IsLaidOut (record { nodes = b.nodes; links = b.links.items; forbidden = b.forbidden.items }) };
}

impl GraphBuilder {
    /// Nothing yet.
    pub fn new(alloc: Global) -> GraphBuilder
        ensures { result ≡ record { nodes = 0; links = []; forbidden = [] } }
    {
        GraphBuilder {
            nodes: 0,
            links: Vec::new(alloc),
            forbidden: Vec::new(alloc),
        }
    }

    /// One more node.
    pub fn node(&mut self) -> Result<Node, Memory>
        requires { self.old.nodes < 10000 }
        ensures number { IfOk result (λ n. n.0 ≡ self.old.nodes) }
        ensures ok { OnOk result (self.new ≡ record self.old { nodes = self.old.nodes + 1 }) }
        ensures err { OnErr result (self.new ≡ self.old) }
    {
        let node = Node(self.nodes);
        self.nodes += 1;
        Ok(node)
    }

    /// One more segment, from `a` to `b`, and back too where `both` says so.
    pub fn segment(&mut self, a: Node, b: Node, both: bool) -> Result<Segment, Memory>
        requires few { length self.old.links < 10000 }
        requires first { a.0 < self.old.nodes }
        requires second { b.0 < self.old.nodes }
        requires degree_first { link_ends a (self.old.links ++ record { from = a; to = b; both = both } ∷ []) ≤ 32 }
        requires degree_second { link_ends b (self.old.links ++ record { from = a; to = b; both = both } ∷ []) ≤ 32 }
        ensures number { IfOk result (λ s. s.0 ≡ length self.old.links) }
        ensures ok { OnOk result (self.new ≡ record self.old { links = self.old.links ++ record { from = a; to = b; both = both } ∷ [] }) }
        ensures err { OnErr result (self.new ≡ self.old) }
    {
        let segment = Segment(self.links.len() as u32);
        self.links.push(Link::new(a, b, both))?;
        Ok(segment)
    }

    /// Forbids the turn from one arc to another.
    pub fn forbid(&mut self, x: Arc, y: Arc) -> Result<(), Memory>
        requires from { IsTrue (arc_exists self.old x) }
        requires to { IsTrue (arc_exists self.old y) }
        ensures ok { OnOk result (self.new ≡ record self.old { forbidden = self.old.forbidden ++ (x, y) ∷ [] }) }
        ensures err { OnErr result (self.new ≡ self.old) }
    {
        self.forbidden.push((x, y))?;
        Ok(())
    }

    /// The graph. After an error the builder is gone.
    pub fn finish(self) -> Result<Graph, Memory>
        ensures { IfOk result (λ graph. graph ≡ self) }
    {
        Graph::build(self.nodes, self.links, self.forbidden)
    }
}
