//! The rights to free blocks of nodes, the newest block first. The first node of a block is its head, and the others are
//! its body.
ghost use Rattle.std.specs.Prelude.{◌≡◌, ◌<◌, List, [], drop};
ghost use Rattle.interval_list.specs.Cells.{places};
ghost use Rattle.interval_list.specs.Blocks.{Block, IsTakenApart, IsNewest, bodies};
ghost use Rattle.interval_list.specs.Ownership.{rights_own};

use crate::lone::LoneNode;
use crate::loose::Loose;
use crate::node::Node;
use crate::nodes::Nodes;
use std::alloc::Global;
use std::marker::Model;

pub(crate) struct Blocks {
    pub(crate) ghost blocks: { List Block },
}

impl Model for Blocks {
    ghost also_owns = { λ b. rights_own b.blocks };
}

// Each block is freed before.
impl Drop for Blocks {
    fn drop(self)
        requires { self.blocks ≡ [] }
    {
        let Blocks {} = self;
    }
}

impl Blocks {
    pub(crate) fn new() -> Blocks
        ensures { result.blocks ≡ [] }
    {
        Blocks {}
    }

    /// Takes a new block apart: its head comes back, and its body joins the nodes.
    pub(crate) fn take_apart<const N: usize>(
        &mut self,
        block: Loose<[Node; N], Global>,
        nodes: &mut Nodes,
    ) -> LoneNode
        requires { 0 < N }
        ensures { IsTakenApart (result.at, N) self.old.blocks nodes.old.cells self.new.blocks nodes.new.cells }
    {
        let Loose { at, alloc: _ } = block;
        LoneNode {
            at: at as *mut Node,
        }
    }

    /// Puts the newest block together, of its head and of its body. The nodes have the bodies of all blocks, in some order.
    pub(crate) fn put_together<const N: usize>(
        &mut self,
        alloc: Global,
        head: LoneNode,
        nodes: &mut Nodes,
    ) -> Loose<[Node; N], Global>
        requires { (0 < N) × IsNewest (head.at, N) self.old.blocks nodes.old.cells }
        ensures { (self.new.blocks ≡ drop 1 self.old.blocks) × (places nodes.new.cells ≡ bodies self.new.blocks) }
    {
        let LoneNode { at } = head;
        Loose {
            at: at as *mut [Node; N],
            alloc,
        }
    }
}
