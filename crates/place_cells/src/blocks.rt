//! The spots of the numbers, block after block.
ghost use Rattle.std.specs.Prelude.{◌≡◌, ◌*◌, ◌<◌, ◌^◌, ◌++◌, [], length, IfOk, OnOk};
ghost use Rattle.place_cells.specs.Laid.{spot_in};
ghost use Rattle.place_cells.specs.Blocks.{block};

use crate::spots::Spot;
use std::alloc::Global;
use std::marker::Model;
use taxi_base::{Arc, Memory};

/// How many numbers a stretch has.
pub(crate) const STRETCH: usize = 8;

/// From how many stretches on there are none. With fewer each number takes four bytes.
const MOST: usize = 1 << 29;

/// Eight numbers in a row that an arc has, and the first number of its block.
#[derive(Clone, Copy)]
struct Stretch {
    arc: Arc,
    first: u32,
}

/// The spot of each number. The windows of a block follow one another, so what tells them is kept for eight numbers at once: it
/// is small, and a search finds it near at hand.
#[derive(Drop)]
pub struct SpotBlocks {
    stretches: Vec<Stretch>,
}

impl Model for SpotBlocks {
    ghost use Rattle.std.specs.Prelude.{◌<◌, ◌^◌, length};
    ghost use Rattle.place_cells.specs.Stretches.{Spots, spots_of, AreBegun};

    ghost Value = { Spots };

    ghost view = { λ b. record { items = spots_of b.stretches.items } };

    ghost invariant = { λ b. (length b.stretches.items < 2 ^ 29) × AreBegun b.stretches.items };
}

impl SpotBlocks {
    /// No spots.
    pub fn new(alloc: Global) -> SpotBlocks
        ensures { result.items ≡ [] }
    {
        SpotBlocks {
            stretches: Vec::new(alloc),
        }
    }

    /// No spots, with room for so many stretches at the start.
    pub(crate) fn with_capacity(alloc: Global, stretches: usize) -> Result<SpotBlocks, Memory>
        ensures { IfOk result (λ b. b.items ≡ []) }
    {
        let stretches = Vec::with_capacity(alloc, stretches)?;
        Ok(SpotBlocks { stretches })
    }

    /// How many spots there are.
    #[inline(always)]
    pub fn len(&self) -> usize
        ensures count { result ≡ length self.now.items }
        ensures few { result < 2 ^ 32 }
    {
        self.stretches.len() * STRETCH
    }

    /// The spot of a number.
    #[inline(always)]
    pub fn at(&self, number: usize) -> Spot
        requires { number < length self.now.items }
        ensures { result ≡ spot_in self.now.items number }
    {
        let stretch = self.stretches[number / STRETCH];
        Spot {
            arc: stretch.arc,
            window: number - stretch.first as usize,
        }
    }

    /// One more block, of so many stretches.
    pub(crate) fn push_block(&mut self, arc: Arc, stretches: usize) -> Result<(), Memory>
        ensures { OnOk result (self.new.items ≡ self.old.items ++ block arc (8 * stretches)) }
    {
        let laid = self.stretches.len();
        if stretches >= MOST - laid {
            return Err(Memory::for_so_many(laid.saturating_add(stretches)));
        }
        let first = (laid * STRETCH) as u32;
        self.stretches.reserve(stretches)?;
        for _ in 0..stretches {
            self.stretches.push_reserved(Stretch { arc, first });
        }
        Ok(())
    }
}
