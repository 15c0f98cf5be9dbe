//! The flights in force and the work parties as a checker keeps them: by rising names, and beside them the spans for which
//! segments are held.
#![tactic(auto)]

mod copies;
mod flights;
mod list;
mod parties;
mod party_list;

pub use copies::copy_steps;
pub use flights::HeldFlights;
pub use list::FlightList;
