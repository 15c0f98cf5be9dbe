//! Numbering the cells: each arc has a block of numbers with room for windows to come, which is kept from search to search.
ghost use Rattle.std.specs.Prelude.{◌≡◌, ◌+◌, ◌*◌, ◌<◌, ◌≤◌, ◌^◌, length, All, OnOk, IfOk, IsOk, IsTrue};
ghost use Rattle.taxi_base.specs.Windows.{AreApart};
ghost use Rattle.place_cells.specs.Laid.{windows_of, AreNumbered, HaveNumbers};
ghost use Rattle.place_cells.specs.Blocks.{stretches_for};
ghost use Rattle.place_cells.specs.Twins.{AreTwins};

use crate::blocks::{STRETCH, SpotBlocks};
use std::alloc::Global;
use std::cell::Cell;
use taxi_base::{Arc, Memory, Segment};
use window_store::WindowStore;

/// The spot of each number, and for each arc and for the end, the first number of its block. Both arcs of a segment have blocks of
/// the same length. Numbers are kept from one search to the next, and laid anew where one of the blocks has become too short for
/// the windows of its segment.
#[derive(Drop)]
pub struct CellNumbers {
    pub spots: SpotBlocks,
    pub first: Vec<u32>,
    // By segment: which of its windows was found last. It is where the next one is looked for first, and may be any number.
    pub found: Vec<Cell<usize>>,
    ghost numbered: { AreNumbered spots.items first.items },
    ghost twins: { AreTwins first.items },
    ghost guessed: { length first.items ≤ 2 * length found.items + 1 },
}

impl CellNumbers {
    /// No numbers.
    pub fn new(alloc: Global) -> CellNumbers {
        CellNumbers {
            spots: SpotBlocks::new(alloc),
            first: Vec::new(alloc),
            found: Vec::new(alloc),
        }
    }

    /// Sees to it that the arcs on so many segments have numbers for the windows of a store.
    pub fn fit(&mut self, segments: usize, store: &WindowStore) -> Result<(), Memory>
        requires segments { length store.now.lists ≡ segments }
        requires few { segments ≤ 10000 }
        ensures numbers { OnOk result (HaveNumbers (windows_of store.now) self.new.first.items) }
        ensures apart { IsOk result → All (AreApart 0) (windows_of store.now) }
    {
        if !self.have_room(segments, store) {
            *self = CellNumbers::laid(*self.first.allocator(), 2 * segments, store)?;
        }
        Ok(())
    }

    /// Whether the arcs on so many segments have numbers for the windows of a store.
    fn have_room(&self, segments: usize, store: &WindowStore) -> bool
        requires segments { length store.now.lists ≡ segments }
        requires few { segments ≤ 10000 }
        ensures numbers { IsTrue result → HaveNumbers (windows_of store.now) self.now.first.items }
        ensures apart { IsTrue result → All (AreApart 0) (windows_of store.now) }
    {
        if self.first.len() != 2 * segments + 1 {
            return false;
        }
        for segment in 0..segments as u32 {
            let windows = store.spans(Segment(segment)).len();
            let there = self.first[2 * segment as usize];
            let back = self.first[2 * segment as usize + 1];
            if ((back - there) as usize) < windows {
                return false;
            }
        }
        true
    }

    /// The numbers of so many arcs, with room for more windows than there are.
    fn laid(alloc: Global, arcs: usize, store: &WindowStore) -> Result<CellNumbers, Memory>
        requires arcs { 2 * length store.now.lists ≡ arcs }
        requires few { arcs ≤ 20000 }
        ensures numbers { IfOk result (λ n. HaveNumbers (windows_of store.now) n.first.items) }
        ensures apart { IsOk result → All (AreApart 0) (windows_of store.now) }
    {
        let mut spots = SpotBlocks::with_capacity(alloc, stretches_for_all(arcs, store))?;
        let mut first = Vec::with_capacity(alloc, arcs + 1)?;
        first.push(0)?;
        for arc in 0..arcs {
            let windows = store.spans(Segment((arc / 2) as u32)).len();
            spots.push_block(Arc(arc as u32), stretches_for(windows))?;
            first.push(spots.len() as u32)?;
        }
        let found = no_guesses(alloc, arcs / 2)?;
        Ok(CellNumbers {
            spots,
            first,
            found,
        })
    }
}

/// For so many segments, that none of its windows was found yet.
fn no_guesses(alloc: Global, segments: usize) -> Result<Vec<Cell<usize>>, Memory>
    ensures { IfOk result (λ found. length found.items ≡ segments) }
{
    let mut found = Vec::with_capacity(alloc, segments)?;
    for _ in 0..segments {
        found.push(Cell::new(0))?;
    }
    Ok(found)
}

/// How many stretches a block has for so many windows: half as many numbers more, for windows to come.
fn stretches_for(windows: usize) -> usize
    requires { windows < 2 ^ 63 }
    ensures { result ≡ stretches_for windows }
{
    (windows + windows / 2) / STRETCH + 1
}

/// How many stretches so many arcs have in all. It is only told for room to be made at once.
fn stretches_for_all(arcs: usize, store: &WindowStore) -> usize
    requires arcs { arcs ≤ 2 * length store.now.lists }
    requires few { arcs ≤ 20000 }
{
    let mut stretches: usize = 0;
    for arc in 0..arcs {
        let windows = store.spans(Segment((arc / 2) as u32)).len();
        stretches = stretches.saturating_add(stretches_for(windows));
    }
    stretches
}
