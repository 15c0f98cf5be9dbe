//! A node that is in no chain.
ghost use base.Fraction.{full_share};
ghost use denote.RawPtr.{lies_at};
ghost use Rattle.interval_list.specs.contracts.node.Node.{the_row};
ghost use Rattle.interval_list.specs.declared.node.Node.{Node};

use crate::node::Node;
use std::marker::Model;

/// The node at the place `at`, without the right to free its block.
pub(crate) struct LoneNode {
    pub(crate) at: *mut Node,
    pub(crate) ghost node: { Node },
}

impl Model for LoneNode {
    ghost also_owns = { λ l. lies_at the_row full_share l.at l.node };
}
