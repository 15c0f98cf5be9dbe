//! A doubly linked list of windows over nodes. The links lie in the nodes.
//! It is seen as its nodes in order, each with its place. It frees no node.
ghost use Rattle.std.specs.Prelude.{◌≡◌, ◌+◌, ◌-◌, ◌^◌, ◌<◌, ◌≤◌, [], ◌∷◌, length};
ghost use Rattle.interval_list.specs.Cells.{IsAt, IsGap, places, place_of, node_of, windows_of, first_leading, cells_leading, last_leading, cells_leading_back};
ghost use Rattle.interval_list.specs.Edits.{inserted, removed, replaced};

use crate::Window;
use crate::lone::LoneNode;
use crate::node::{Node, Place};
use crate::nodes::Nodes;
use std::marker::Model;
use std::ptr::null_mut;

/// `first` and `last` mean nothing in an empty chain.
pub(crate) struct Chain {
    nodes: Nodes,
    first: Place,
    last: Place,
    len: usize,
}

impl Model for Chain {
    ghost use Rattle.std.specs.Prelude.{◌≡◌, List, length};
    ghost use Rattle.interval_list.specs.Cells.{Cell, AreLinked};

    ghost Value = { List Cell };

    ghost view = { λ c. c.nodes.cells };

    ghost invariant = { λ c. (c.len ≡ length c.nodes.cells) × AreLinked c.first.at c.last.at c.nodes.cells };
}

impl Chain {
    pub(crate) fn new() -> Chain
        ensures { result ≡ [] }
    {
        Chain {
            nodes: Nodes::new(),
            first: Place { at: null_mut() },
            last: Place { at: null_mut() },
            len: 0,
        }
    }

    pub(crate) fn len(&self) -> usize
        ensures { result ≡ length self.now }
    {
        self.len
    }

    /// Where the first node lies, if there is one.
    pub(crate) fn first(&self) -> Place
        ensures { 0 < length self.now → result.at ≡ place_of self.now 0 }
    {
        self.first
    }

    /// Where the last node lies, if there is one.
    pub(crate) fn last(&self) -> Place
        ensures { 0 < length self.now → result.at ≡ place_of self.now (length self.now - 1) }
    {
        self.last
    }

    /// Where the node after node `i` lies, if there is one.
    pub(crate) fn next(&self, place: Place, i: usize) -> Place
        requires { IsAt self.now place.at i }
        ensures { i + 1 < length self.now → result.at ≡ place_of self.now (i + 1) }
    {
        self.nodes.node(place, i).next
    }

    /// Where the node before node `i` lies, if there is one.
    pub(crate) fn prev(&self, place: Place, i: usize) -> Place
        requires { IsAt self.now place.at i }
        ensures { 0 < i → result.at ≡ place_of self.now (i - 1) }
    {
        self.nodes.node(place, i).prev
    }

    pub(crate) fn window(&self, place: Place, i: usize) -> Window
        requires { IsAt self.now place.at i }
        ensures { result ≡ (node_of self.now i).window }
    {
        self.nodes.node(place, i).window
    }

    pub(crate) fn set(&mut self, place: Place, i: usize, window: Window)
        requires { IsAt self.old place.at i }
        ensures windows { windows_of self.new ≡ replaced (windows_of self.old) i window }
        ensures places { places self.new ≡ places self.old }
    {
        let node = *self.nodes.node(place, i);
        self.nodes.set(
            place,
            i,
            Node {
                next: node.next,
                prev: node.prev,
                window,
            },
        );
    }

    /// Links the node in with a window before node `i`, between the nodes at `prev` and `next`, where there are such.
    /// Says where it lies.
    pub(crate) fn put(
        &mut self,
        i: usize,
        prev: Place,
        next: Place,
        lone: LoneNode,
        window: Window,
    ) -> Place
        requires room { length self.old + 1 < 2 ^ 64 }
        requires gap { IsGap self.old i prev.at next.at }
        ensures place { result.at ≡ lone.at }
        ensures windows { windows_of self.new ≡ inserted (windows_of self.old) i window }
        ensures places { places self.new ≡ inserted (places self.old) i result.at }
    {
        let place = self.nodes.put(i, lone);
        self.nodes.set(place, i, Node { next, prev, window });
        self.len += 1;
        lead(&mut self.nodes, &mut self.first, i, prev, place);
        lead_back(
            &mut self.nodes,
            &mut self.last,
            self.len,
            i + 1,
            next,
            place,
        );
        place
    }

    /// Links node `i` out.
    pub(crate) fn take(&mut self, place: Place, i: usize) -> LoneNode
        requires { IsAt self.old place.at i }
        ensures place { result.at ≡ place.at }
        ensures windows { windows_of self.new ≡ removed (windows_of self.old) i }
        ensures places { places self.new ≡ removed (places self.old) i }
    {
        let node = *self.nodes.node(place, i);
        let lone = self.nodes.take(place, i);
        self.len -= 1;
        lead(&mut self.nodes, &mut self.first, i, node.prev, node.next);
        lead_back(
            &mut self.nodes,
            &mut self.last,
            self.len,
            i,
            node.next,
            node.prev,
        );
        lone
    }

    /// The window of the first node.
    pub(crate) fn top(&self) -> Window
        requires { 0 < length self.now }
        ensures { result ≡ (node_of self.now 0).window }
    {
        self.window(self.first, 0)
    }

    /// Links the node in as the first, with a window. Says where it lies.
    pub(crate) fn push(&mut self, lone: LoneNode, window: Window) -> Place
        requires { length self.old + 1 < 2 ^ 64 }
        ensures place { result.at ≡ lone.at }
        ensures windows { windows_of self.new ≡ window ∷ windows_of self.old }
        ensures places { places self.new ≡ lone.at ∷ places self.old }
    {
        let first = self.first();
        self.put(0, first, first, lone, window)
    }

    /// Links the first node out.
    pub(crate) fn pop(&mut self) -> LoneNode
        requires { 0 < length self.old }
        ensures windows { windows_of self.old ≡ (node_of self.old 0).window ∷ windows_of self.new }
        ensures places { places self.old ≡ result.at ∷ places self.new }
    {
        let first = self.first();
        self.take(first, 0)
    }

    /// Its nodes, no longer linked.
    pub(crate) fn into_nodes(self) -> Nodes
        ensures { result.cells ≡ self }
    {
        let Chain {
            nodes,
            first: _,
            last: _,
            len: _,
        } = self;
        nodes
    }
}

/// Lets the node at `prev`, which is the one before number `i`, lead on to `to`.
fn lead(nodes: &mut Nodes, first: &mut Place, i: usize, prev: Place, to: Place)
    requires { 0 < i → IsAt nodes.old.cells prev.at (i - 1) }
    ensures first { first.new.at ≡ first_leading first.old.at i to.at }
    ensures nodes { nodes.new.cells ≡ cells_leading nodes.old.cells i to.at }
{
    if i == 0 {
        *first = to;
        return;
    }
    let node = *nodes.node(prev, i - 1);
    nodes.set(
        prev,
        i - 1,
        Node {
            next: to,
            prev: node.prev,
            window: node.window,
        },
    );
}

/// Lets the node at `next`, which is number `i` of `len`, lead back to `to`.
fn lead_back(nodes: &mut Nodes, last: &mut Place, len: usize, i: usize, next: Place, to: Place)
    requires { (len ≡ length nodes.old.cells) × (i ≤ len) × (i < len → next.at ≡ place_of nodes.old.cells i) }
    ensures last { last.new.at ≡ last_leading nodes.old.cells last.old.at i to.at }
    ensures nodes { nodes.new.cells ≡ cells_leading_back nodes.old.cells i to.at }
{
    if i == len {
        *last = to;
        return;
    }
    let node = *nodes.node(next, i);
    nodes.set(
        next,
        i,
        Node {
            next: node.next,
            prev: to,
            window: node.window,
        },
    );
}
