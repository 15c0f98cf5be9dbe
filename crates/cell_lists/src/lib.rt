//! Cells in a list, the plain way to give a search a small network.
#![tactic(auto)]

mod listed_cells;

pub use listed_cells::{BackwardList, ForwardList, ListedCell, are_fit};
