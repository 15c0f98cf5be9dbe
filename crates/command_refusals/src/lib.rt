//! What a command names, or why it is refused before any search: over an airport and the holders in force.
#![tactic(auto)]

mod asking;
mod batch;
mod choosing;
mod filing;
mod holders;
mod late;
mod shutting;

pub use asking::{Trip, asked_arrival, asked_departure};
pub use batch::asked_batch;
pub use choosing::{TripToAny, asked_arrival_any, asked_departure_any};
pub use filing::check_filed;
pub use late::asked_late;
pub use shutting::check_work;
