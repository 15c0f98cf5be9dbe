//! The rules by which a table of labels is checked, over plain rows and a bare list of holds.
#![tactic(auto)]

mod arrivals;
mod closed;
mod departures;
mod known;
mod laws;
mod limits;
mod places;
mod starts;
mod steps;
mod stretches;
mod target;
mod verdict;

pub use arrivals::{Begin, check_arrival};
pub use departures::{End, check_departure};
pub use known::KnownWindows;
pub use laws::no_rule_fails_where_a_table_passes;
pub use verdict::RowRule;
