//! The search for a departure's route: from a node to a node, or to any of some nodes, at the latest.
#![tactic(auto)]

mod cells;
mod departing;

pub use departing::{Departure, depart, depart_to_one_of};
