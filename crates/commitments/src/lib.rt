//! The flights and work parties in force, by name, with the free windows that they leave, and the check of a route that is
//! given by hand.
#![tactic(auto)]

mod held_segments;
mod hold_index;
mod holders;
mod holds;
mod laws;
mod ledger;
mod others;
mod route;
mod segment_holds;
mod shutting;

pub use laws::{holders_go_in_again, windows_follow_from_holders};
pub use ledger::Ledger;
pub use taxi_base::{Flight, Party};
