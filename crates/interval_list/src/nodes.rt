//! The nodes of a chain, owned in the order of the chain, without the right to free their blocks.
//! A node is reached by its place and by the number of nodes before it, which only the proof needs.
ghost use Rattle.std.specs.Prelude.{◌≡◌, List, [], ◌++◌};
ghost use Rattle.interval_list.specs.Cells.{Cell, IsAt, node_of, with_node};
ghost use Rattle.interval_list.specs.Edits.{inserted, removed};
ghost use Rattle.interval_list.specs.Ownership.{nodes_own, nodes_lent};

use crate::lone::LoneNode;
use crate::node::{Node, Place};
use std::marker::Model;

pub(crate) struct Nodes {
    pub(crate) ghost cells: { List Cell },
}

impl Model for Nodes {
    ghost also_owns = { λ n. nodes_own n.cells };

    ghost also_shares = { λ n _ κ. nodes_lent n.cells κ };
}

// Each node is taken out before, so none is left whose block is never freed.
impl Drop for Nodes {
    fn drop(self)
        requires { self.cells ≡ [] }
    {
        let Nodes {} = self;
    }
}

impl Nodes {
    pub(crate) fn new() -> Nodes
        ensures { result.cells ≡ [] }
    {
        Nodes {}
    }

    /// Takes the node in as number `i`.
    pub(crate) fn put(&mut self, i: usize, lone: LoneNode) -> Place
        ensures { (self.new.cells ≡ inserted self.old.cells i (result.at, lone.node)) × (result.at ≡ lone.at) }
    {
        let LoneNode { at } = lone;
        Place { at }
    }

    /// Gives node `i` back.
    pub(crate) fn take(&mut self, place: Place, i: usize) -> LoneNode
        requires { IsAt self.old.cells place.at i }
        ensures { (result.at ≡ place.at) × (self.new.cells ≡ removed self.old.cells i) }
    {
        let at = place.at;
        LoneNode { at }
    }

    pub(crate) fn node(&self, place: Place, i: usize) -> &Node
        requires { IsAt self.now.cells place.at i }
        ensures { result.now ≡ node_of self.now.cells i }
    {
        let at = place.at;
        unsafe { &*at }
    }

    pub(crate) fn set(&mut self, place: Place, i: usize, node: Node)
        requires { IsAt self.old.cells place.at i }
        ensures { self.new.cells ≡ with_node self.old.cells i node }
    {
        let at = place.at;
        unsafe { *at = node }
    }

    /// Takes all nodes of another chain in, before its own.
    pub(crate) fn join(&mut self, others: Nodes)
        ensures { self.new.cells ≡ others.cells ++ self.old.cells }
    {
        let Nodes {} = others;
    }
}
