//! Whether what a block tells of a search is right: its walk and its table, over a bare list of holds.
#![tactic(auto)]

mod choice;
mod course;
mod feasible;
mod inside;
mod laws;
mod tables;
mod told;
mod walk;

pub use choice::{SoughtWalkToAny, check_no_route_to_any, check_route_to_any};
pub use course::{OnTheWay, SoughtWalk};
pub use feasible::is_feasible_walk;
pub use laws::what_breaks_no_rule_is_best;
pub use told::{ToldRoute, check_no_route, check_route};
