//! Segments between nodes, and the ends of their arcs.
ghost use Rattle.std.specs.Prelude.{◌≡◌, if◌then◌else◌};
ghost use Rattle.std.specs.Option.{option_map};
ghost use Rattle.taxi_base.specs.Airport.{ends_of_link};
ghost use Rattle.segment_graph.specs.Groups.{tail_in, head_in, end_in};

use std::marker::Model;
use taxi_base::{Arc, Node};

/// A segment from its first node to its second; `both` allows the way back too.
#[derive(Clone, Copy)]
pub struct Link {
    from: Node,
    to: Node,
    both: bool,
}

impl Model for Link {
    ghost use Rattle.taxi_base.specs.Airport.{Link as Way};

    ghost Value = { Way };

    ghost view = { λ l. record { from = l.from; to = l.to; both = l.both } };

    ghost inverse = { λ w. record { from = w.from; to = w.to; both = w.both } };
}

impl Link {
    pub fn new(from: Node, to: Node, both: bool) -> Link
        ensures { result ≡ record { from = from; to = to; both = both } }
    {
        Link { from, to, both }
    }
}

/// An end of an arc.
#[derive(Clone, Copy)]
pub enum Side {
    Tail,
    Head,
}

/// The node at an end of an arc; none where there is no such arc.
pub fn end_in(links: &[Link], side: Side, arc: Arc) -> Option<Node>
    ensures { result ≡ end_in side links.now arc }
{
    match side {
        Side::Tail => tail_in(links, arc),
        Side::Head => head_in(links, arc),
    }
}

pub fn tail_in(links: &[Link], arc: Arc) -> Option<Node>
    ensures { result ≡ tail_in links.now arc }
{
    match links.get(arc.0 as usize / 2) {
        Some(link) => tail_of(link, arc.0 % 2 == 1),
        None => None,
    }
}

pub fn head_in(links: &[Link], arc: Arc) -> Option<Node>
    ensures { result ≡ head_in links.now arc }
{
    match links.get(arc.0 as usize / 2) {
        Some(link) => head_of(link, arc.0 % 2 == 1),
        None => None,
    }
}

fn tail_of(link: &Link, backward: bool) -> Option<Node>
    ensures { result ≡ option_map (λ e. e.tail) (ends_of_link (if backward then 1 else 0) link.now) }
{
    if !backward {
        Some(link.from)
    } else if link.both {
        Some(link.to)
    } else {
        None
    }
}

fn head_of(link: &Link, backward: bool) -> Option<Node>
    ensures { result ≡ option_map (λ e. e.head) (ends_of_link (if backward then 1 else 0) link.now) }
{
    if !backward {
        Some(link.to)
    } else if link.both {
        Some(link.from)
    } else {
        None
    }
}
