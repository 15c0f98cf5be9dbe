//! The flights and the work parties in force, in two lists by rising names. One more goes in without memory where room was made, and
//! one that goes out leaves room for another.
#![tactic(auto)]

mod flight_list;
mod name_order;
mod party_list;

pub use flight_list::FlightList;
pub use party_list::PartyList;
