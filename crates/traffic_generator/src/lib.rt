//! Airports and commands of any size, made from a first number: a square grid of taxiways, and flights over it.
#![tactic(auto)]

mod airport;
mod commands;
mod draws;
mod flights;
mod lines;
mod places;

pub use airport::generate_airport;
pub use commands::generate_commands;
