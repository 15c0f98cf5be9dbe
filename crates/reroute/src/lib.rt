//! A flight in force, routed anew from a time on, or led to another node: the best of the ways that it may still take.
#![tactic(auto)]

mod refused;
mod rerouting;
mod searching;

pub use refused::RerouteRefused;
pub use rerouting::again;
