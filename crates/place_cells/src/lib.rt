//! Where a class can be in the windows of a store, as cells in order of arc and window; and what a search over them has
//! found, told of arcs and windows.
#![tactic(auto)]

mod answer;
mod blocks;
mod ground;
mod numbers;
mod reading;
mod room;
mod spots;

pub use answer::steps_of;
pub use blocks::SpotBlocks;
pub use ground::SearchGround;
pub use numbers::CellNumbers;
pub use room::SearchRoom;
pub use spots::{ArcRow, Beside, CellPlace, Spot};
