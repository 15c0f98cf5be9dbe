//! What is told of a ledger: the flights in force, and what holds a segment.
#![tactic(auto)]

mod flight_rows;
mod held_rows;

pub use flight_rows::timetable;
pub use held_rows::occupancy;
