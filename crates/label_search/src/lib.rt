//! The search for quickest walks over numbered cells, forward in time and backward.
#![tactic(auto)]

mod backward;
mod cells;
mod cut;
mod expand;
mod forward;
mod groups;
mod known;
mod labels;
mod offering;
mod pick;
mod settle;
mod values;

pub use backward::latest_entries;
pub use cells::{BackwardCells, Cell, Closing, ForwardCells, Opening, Part, Run};
pub use forward::{Found, LabelRoom, Route, earliest_exits};
pub use pick::CellStep;
pub use values::CellValue;
