//! The rows of a table of labels, one beside another, and the labels of an arc in windows of its segment: when each is reached, and
//! whether it has a row.
#![tactic(auto)]

mod around;
mod begun;
mod in_windows;
mod limits;
mod narrowing;
mod reach;
mod rows;
mod served;
mod table;

pub use around::{note_firsts, row_around, rows_behind};
pub use begun::windows_around_have_rows;
pub use in_windows::{row_is_enough, windows_have_rows};
pub use limits::{Limits, last_in};
pub use narrowing::{part_by_row, stretch_in, widest_around};
pub use reach::{Reach, Way, is_within, later, short_part};
pub use rows::{are_ordered, window_of};
pub use served::Served;
pub use table::Table;
