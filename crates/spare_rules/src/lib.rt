//! Runs at an airport without the rules that make no difference.
#![tactic(auto)]

mod laws;

pub use laws::{runs_are_the_same, spare_rules_are_told};
