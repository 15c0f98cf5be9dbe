//! Whether rows tell what flights and work parties in force hold of a segment, and when flights begin and end.
#![tactic(auto)]

mod occupied;
mod timetable;

pub use occupied::are_held_rows;
pub use timetable::are_flight_rows;
