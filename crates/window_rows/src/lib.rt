//! Rows of windows that lie apart: where one stands in its row, looked for near where one was found last.
#![tactic(auto)]

mod near;
mod rows;

pub use rows::{Part, first_not_over, part_between};
