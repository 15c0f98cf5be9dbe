//! What a search over cells rests on.
ghost use Rattle.std.specs.Prelude.{◌≡◌, [], length, slice_index_or};
ghost use Rattle.place_cells.specs.Laid.{windows_of, HaveNumbers};

use crate::numbers::CellNumbers;
use aircraft_class::Classes;
use segment_graph::Graph;
use taxi_base::{Class, Time};
use window_store::WindowStore;

/// A class on the arcs of a graph, in the windows of a store, with the numbers of its cells. A step is to keep the clearance after
/// it inside its window, but no longer than to the horizon.
#[derive(Drop)]
pub struct SearchGround<'a> {
    pub graph: &'a Graph,
    pub classes: &'a Classes,
    pub store: &'a WindowStore,
    pub numbers: &'a CellNumbers,
    pub class: Class,
    // The class's row of the table, which is all that is read of the two.
    pub times: &'a [Option<Time>],
    pub horizon: Time,
    pub clearance: Time,
    ghost timed: { times.now ≡ slice_index_or classes.now.table class.0 [] },
    ghost lists: { length store.now.lists ≡ length graph.now.links },
    ghost room: { HaveNumbers (windows_of store.now) numbers.now.first.items },
}
