//! The best of several stands or runway nodes for a flight, with the route to it.
#![tactic(auto)]

mod arriving;
mod departing;
mod nodes;

pub use arriving::choose_arrival;
pub use departing::choose_departure;
