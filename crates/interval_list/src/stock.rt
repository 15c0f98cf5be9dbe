//! Where nodes come from. They are made in blocks, and those that are not handed out yet are kept here.
ghost use Rattle.std.specs.Prelude.{◌≡◌, ◌+◌, ◌<◌, List, [], ◌∷◌, ◌++◌, length, IfOk, OnOk, OnErr};
ghost use denote.RawPtr.{Ptr, InBlock, ◌+ₚ◌};
ghost use Rattle.interval_list.specs.Cells.{places};
ghost use Rattle.interval_list.specs.Blocks.{Stocked, IsTakenApart, AreAll, block_size, node_size, AreOut};

use crate::Window;
use crate::blocks::Blocks;
use crate::chain::Chain;
use crate::lone::LoneNode;
use crate::loose::Loose;
use crate::node::{Node, Place};
use crate::nodes::Nodes;
use std::alloc::Global;
use std::marker::Model;
use std::ptr::null_mut;
use taxi_base::Memory;

// How many nodes the first block of a list has, the second and each later one, its head among them. The list of a segment with no
// traffic needs one node, so the first block is small. That of a busy one grows in few large steps. `block_size` repeats these numbers.
const FIRST: usize = 2;

const SECOND: usize = 17;

const LATER: usize = 60;

/// All blocks, by their heads, the newest first, and their nodes that are not handed out: `left` of them side by side from
/// `next` on. Where there are none, `next` means nothing.
pub(crate) struct Stock {
    alloc: Global,
    blocks: Blocks,
    heads: Chain,
    blanks: Nodes,
    next: Place,
    left: usize,
}

impl Model for Stock {
    ghost use Rattle.std.specs.Prelude.{◌≡◌, ◌<◌};
    ghost use denote.RawPtr.{InBlock};
    ghost use Rattle.interval_list.specs.Cells.{places};
    ghost use Rattle.interval_list.specs.Blocks.{Stocked, row_places, blocks_at, bodies};

    ghost Value = { Stocked };

    ghost view = { λ s. record { made = bodies s.blocks.blocks; blank = places s.blanks.cells } };

    ghost invariant = { λ s. (s.blocks.blocks ≡ blocks_at (places s.heads)) × (places s.blanks.cells ≡ row_places s.next.at s.left) × (0 < s.left → InBlock s.next.at) };
}

impl Stock {
    pub(crate) fn new(alloc: Global) -> Stock
        ensures { result ≡ record { made = []; blank = [] } }
    {
        Stock {
            alloc,
            blocks: Blocks::new(),
            heads: Chain::new(),
            blanks: Nodes::new(),
            next: Place { at: null_mut() },
            left: 0,
        }
    }

    /// Hands a node out.
    pub(crate) fn draw(&mut self) -> Result<LoneNode, Memory>
        ensures ok { IfOk result (λ lone. (used : List Ptr) → AreOut used self.old → AreOut (lone.at ∷ used) self.new) }
        ensures err { OnErr result (self.new ≡ self.old) }
    {
        self.refill()?;
        let place = self.next;
        self.next = after(place);
        self.left -= 1;
        Ok(self.blanks.take(place, 0))
    }

    /// Makes sure that there is a node to hand out.
    fn refill(&mut self) -> Result<(), Memory>
        ensures ok { OnOk result (0 < length self.new.blank) }
        ensures out { (used : List Ptr) → AreOut used self.old → AreOut used self.new }
        ensures err { OnErr result (self.new ≡ self.old) }
    {
        if self.left > 0 {
            return Ok(());
        }
        self.make_block()
    }

    /// Makes a block, whose body is then to be handed out.
    fn make_block(&mut self) -> Result<(), Memory>
        requires none { self.old.blank ≡ [] }
        ensures ok { OnOk result ((0 < length self.new.blank) × (self.new.made ≡ self.new.blank ++ self.old.made)) }
        ensures err { OnErr result (self.new ≡ self.old) }
    {
        if self.heads.len() == usize::MAX {
            return Err(Memory::for_so_many(self.heads.len()));
        }
        let older = self.heads.len();
        let head = new_block(self.alloc, older, &mut self.blocks, &mut self.blanks)?;
        let first = self.heads.push(head, blank().window);
        self.next = after(first);
        self.left = nodes_of(older) - 1;
        Ok(())
    }

    /// Frees all blocks, once their nodes are back from both chains.
    pub(crate) fn free(self, windows: Nodes, spares: Nodes)
        requires { AreOut (places windows.cells ++ places spares.cells) self }
    {
        let Stock {
            alloc,
            mut blocks,
            mut heads,
            blanks,
            next: _,
            left: _,
        } = self;
        let mut nodes = blanks;
        nodes.join(spares);
        nodes.join(windows);
        while heads.len() > 0 {
            free_newest(alloc, &mut blocks, &mut heads, &mut nodes);
        }
        drop(heads.into_nodes());
        drop(nodes);
        drop(blocks);
    }
}

/// How many nodes a block has, its head among them, beside a number of older ones.
fn nodes_of(older: usize) -> usize
    ensures { result ≡ block_size older }
{
    match older {
        0 => FIRST,
        1 => SECOND,
        _ => LATER,
    }
}

/// Makes a block, beside a number of older ones. Its body joins the nodes, and its head comes back.
fn new_block(
    alloc: Global,
    older: usize,
    blocks: &mut Blocks,
    nodes: &mut Nodes,
) -> Result<LoneNode, Memory>
    ensures ok { IfOk result (λ head. IsTakenApart (head.at, block_size older) blocks.old.blocks nodes.old.cells blocks.new.blocks nodes.new.cells) }
    ensures err { OnErr result ((blocks.new ≡ blocks.old) × (nodes.new ≡ nodes.old)) }
{
    if older == 0 {
        let block = Box::new(alloc, [blank(); FIRST])?;
        return Ok(blocks.take_apart(Loose::of(block), nodes));
    }
    if older == 1 {
        let block = Box::new(alloc, [blank(); SECOND])?;
        return Ok(blocks.take_apart(Loose::of(block), nodes));
    }
    let block = Box::new(alloc, [blank(); LATER])?;
    Ok(blocks.take_apart(Loose::of(block), nodes))
}

/// Frees the newest block, whose body the nodes have.
fn free_newest(alloc: Global, blocks: &mut Blocks, heads: &mut Chain, nodes: &mut Nodes)
    requires some { 0 < length heads.old }
    requires all { AreAll blocks.old.blocks heads.old nodes.old.cells }
    ensures fewer { length heads.new + 1 ≡ length heads.old }
    ensures all { AreAll blocks.new.blocks heads.new nodes.new.cells }
{
    let older = heads.len() - 1;
    let head = heads.pop();
    if older == 0 {
        drop(blocks.put_together::<FIRST>(alloc, head, nodes).into_box());
    } else if older == 1 {
        drop(blocks.put_together::<SECOND>(alloc, head, nodes).into_box());
    } else {
        drop(blocks.put_together::<LATER>(alloc, head, nodes).into_box());
    }
}

/// Where the node beside one in its block lies.
fn after(place: Place) -> Place
    requires { InBlock place.at }
    ensures place { result.at ≡ place.at +ₚ node_size }
    ensures within { InBlock result.at }
{
    Place {
        at: unsafe { place.at.offset(1) },
    }
}

/// A node as it is made.
fn blank() -> Node {
    let nowhere = Place { at: null_mut() };
    Node {
        next: nowhere,
        prev: nowhere,
        window: Window {
            from: 0,
            until: 0,
            id: 0,
        },
    }
}
